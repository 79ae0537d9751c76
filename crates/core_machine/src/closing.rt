//! How a session is closed: the forms of its ledger are stored under their hashes, and the ledger is listed.
ghost use Rattle.std.specs.Prelude.{◌≡◌, [], IsTrue, IfErr, IfOk};
ghost use Rattle.cow_map.specs.Sealing.{AreNamed};
ghost use Rattle.ledger_machine.specs.Rotation.{Tells};
ghost use Rattle.ledger_machine.specs.Scripts.{AreFields};
ghost use Rattle.ledger_machine.specs.Sound.{Sound};
ghost use Rattle.ledger_machine.specs.Steps.{own_hashes};
ghost use Rattle.core_machine.specs.Closing.{IsMade, IsUnmade, fields_of};
ghost use Rattle.core_machine.specs.Desks.{IsFiled};
ghost use Rattle.core_machine.specs.Serving.{Acts, MayServe};
ghost use Rattle.core_machine.specs.Commands.{TellsRoot};

use crate::machine::Machine;
use crate::refusals::{refusal, unsealed};
use edit_session::{Closed, Fields};
use half_hash::{Memory, NodeHash, known_half};
use ledger_machine::{CloseReply, Command, Reply};
use node_backend::Shelf;
use std::alloc::Global;

impl<H: NodeHash, Sh: Shelf> Machine<H, Sh> {
    /// Closes a session into a new ledger, which is stored and listed.
    pub(crate) fn close(&mut self, alloc: Global, id: (u8, u16), given: &[u64; 4]) -> Reply
        requires may { MayServe H.half Sh.B.tells self.old (Command.Close id.1 given.now) }
        ensures acts { Acts H.half Sh.B.tells self.old id.0 (Command.Close id.1 given.now) result [] self.new }
        ensures tells { IsTrue Sh.B.tells
            → Tells self.old.state self.new.state (own_hashes H.half self.old.state id.0 (Command.Close id.1 given.now) result) }
        ensures names { IsTrue Sh.B.tells → TellsRoot self.old.state (Command.Close id.1 given.now) result self.new.state }
    {
        match self.seal(alloc, id, given) {
            Ok(made) => self.publish(alloc, id, given, &made),
            Err(reply) => reply,
        }
    }

    // The ledger that a session closes into, or the reply where there is none.
    fn seal(&self, alloc: Global, id: (u8, u16), given: &[u64; 4]) -> Result<Closed, Reply>
        requires in_range { AreFields given.now }
        requires sound { IsTrue Sh.B.tells → Sound H.half self.now.state }
        ensures named { IfOk result (λ c. AreNamed H.half c.forms.items) }
        ensures made { IsTrue Sh.B.tells → IfOk result (IsMade H.half self.now.state id given.now) }
        ensures unmade { IfErr result (IsUnmade H.half Sh.B.tells self.now.state id given.now) }
    {
        known_half::<H>();
        let Some(session) = self.sessions.session(id) else {
            return Err(Reply::Close(CloseReply::NoSession));
        };
        if session.is_empty() {
            return Err(Reply::Close(CloseReply::ZeroState));
        }
        let floor = self.tables.floor();
        if session.next_seq() < floor {
            return Err(Reply::Close(CloseReply::BelowFloor(floor)));
        }
        match session.close::<H>(alloc, &fields(given)) {
            Ok(made) => Ok(made),
            Err(fault) => Err(unsealed(fault)),
        }
    }

    // Stores and lists the ledger that a session closes into, and ends the session. The rotation under way is told of it first.
    fn publish(&mut self, alloc: Global, id: (u8, u16), given: &[u64; 4], made: &Closed) -> Reply
        requires named { AreNamed H.half made.now.forms.items }
        requires filed { IsFiled H.half Sh.B.tells self.old.state }
        requires made { IsTrue Sh.B.tells → IsMade H.half self.old.state id given.now made.now }
        ensures acts { Acts H.half Sh.B.tells self.old id.0 (Command.Close id.1 given.now) result [] self.new }
        ensures tells { IsTrue Sh.B.tells
            → Tells self.old.state self.new.state (own_hashes H.half self.old.state id.0 (Command.Close id.1 given.now) result) }
        ensures names { TellsRoot self.old.state (Command.Close id.1 given.now) result self.new.state }
    {
        if self.tables.is_listed(&made.hash) {
            return Reply::Close(CloseReply::Listed);
        }
        match self.keep_forms(alloc, &made.hash, &made.forms) {
            Ok(()) => {}
            Err(fault) => return refusal(fault),
        }
        match self.list_closed(id, &made.hash, made.header.seq) {
            Ok(()) => Reply::Close(CloseReply::Closed(made.hash)),
            Err(_) => Reply::Memory,
        }
    }
}

// The fields of a close, by name.
fn fields(given: &[u64; 4]) -> Fields
    requires { AreFields given.now }
    ensures { result ≡ fields_of given.now }
{
    Fields {
        drops: given[0],
        close: given[1] as u32,
        resolution: given[2] as u8,
        flags: given[3] as u8,
    }
}
