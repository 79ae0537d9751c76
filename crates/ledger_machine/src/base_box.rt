//! A base reply in a block of its own.
ghost use Rattle.std.specs.Prelude.{◌≡◌, IfOk};
ghost use Rattle.ledger_spec.specs.declared.replies.BaseReply.TheVariants as base;

use half_hash::Memory;
use ledger_spec::BaseReply;
use std::alloc::Global;
use std::marker::Model;

/// The reply to a base reply of a peer, in a block of its own: it takes twice the bytes of any other reply, and few lines have one.
/// Contracts see the reply.
#[derive(Drop)]
pub struct BaseBox {
    reply: Box<BaseReply>,
}

impl Model for BaseBox {
    ghost use Rattle.ledger_spec.specs.declared.replies.BaseReply.{BaseReply};

    ghost Value = { BaseReply };

    ghost view = { λ b. b.reply.value };
}

impl BaseBox {
    /// A block that says that no acquisition is open.
    pub fn new(alloc: Global) -> Result<BaseBox, Memory>
        ensures { IfOk result (λ room. room ≡ base.NotOpen) }
    {
        let reply = Box::new(alloc, BaseReply::NotOpen)?;
        Ok(BaseBox { reply })
    }

    /// The same block with this reply in it.
    pub fn holding(self, reply: BaseReply) -> BaseBox
        ensures { result ≡ reply }
    {
        let mut held = self.reply;
        *held = reply;
        BaseBox { reply: held }
    }

    /// The reply.
    pub fn get(&self) -> &BaseReply
        ensures { result.now ≡ self.now }
    {
        &self.reply
    }
}
