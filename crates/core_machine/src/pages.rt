//! Pages of a view's map.
ghost use Rattle.std.specs.Prelude.{◌≡◌, IsTrue, IfErr, IfOk};
ghost use Rattle.run_io.specs.Bytes.{Rose};
ghost use Rattle.ledger_machine.specs.Reading.{IsPage, view_root};
ghost use Rattle.ledger_machine.specs.Scripts.{IsLedgerMap};
ghost use Rattle.path_proof.specs.Paths.{held_nodes};
ghost use Rattle.core_machine.specs.Desks.{IsFiled, OnlyReads};
ghost use Rattle.core_machine.specs.Reads.{IsListed};

use crate::tables::Tables;
use half_hash::{Hash32, NodeHash};
use ledger_machine::{PageReply, Reply};
use map_cursor::page;
use node_backend::{BackFault, Shelf};
use path_proof::ReadFault;
use rotating_store::Filed;
use shamap_node::{Kind, Node};
use std::alloc::Global;
use std::sync::Arc;

/// A reply to `page`, with the nodes that were read.
#[derive(Drop)]
pub(crate) struct Paged {
    pub(crate) reply: PageReply,
    pub(crate) used: Vec<Arc<Node>>,
}

impl<H: NodeHash, Sh: Shelf> Tables<H, Sh> {
    /// Lists the first `n` items behind a key in the map of a view.
    pub(crate) fn page(
        &mut self,
        alloc: Global,
        actor: u8,
        view: u16,
        kind: Kind,
        after: &Hash32,
        n: u16,
    ) -> Result<Paged, BackFault>
        requires filed { IsFiled H.half Sh.B.tells self.old.state }
        requires kind { IsLedgerMap kind }
        ensures listed { IsTrue Sh.B.tells
            → IfOk result (IsListed H.half self.old.state kind after.now n (view_root self.old.state kind (actor, view)) self.new.state) }
        ensures reads { OnlyReads Sh.B.tells self.old self.new }
        ensures fault { IfErr result (λ e. e ≡ BackFault.Fault → Rose self.old.faults self.new.faults) }
    {
        match self.root_of_view(alloc, actor, view, kind)? {
            Some(root) => self.page_below(alloc, &root, kind, after, n),
            None => Ok(Paged {
                reply: PageReply::NoView,
                used: Vec::new(alloc),
            }),
        }
    }

    // The same in the map below a root.
    fn page_below(
        &mut self,
        alloc: Global,
        root: &Hash32,
        kind: Kind,
        after: &Hash32,
        n: u16,
    ) -> Result<Paged, BackFault>
        requires filed { IsFiled H.half Sh.B.tells self.old.state }
        requires kind { IsLedgerMap kind }
        ensures page { IsTrue Sh.B.tells → IfOk result (λ paged.
            IsPage H.half self.old.state kind after.now n root.now (Reply.Page paged.reply) (held_nodes paged.used.items)) }
        ensures reads { OnlyReads Sh.B.tells self.old self.new }
        ensures fault { IfErr result (λ e. e ≡ BackFault.Fault → Rose self.old.faults self.new.faults) }
    {
        let most = usize::from(n);
        let mut filed = Filed::<'_, H, Sh>::new(&mut self.store);
        let page = match page::<H, Filed<'_, H, Sh>>(alloc, &mut filed, root, kind, after, most) {
            Ok(page) => page,
            Err(ReadFault::Fault) => return Err(BackFault::Fault),
            // the map of a retained ledger is whole, so that only memory was wanted
            Err(_) => return Err(BackFault::Memory),
        };
        Ok(Paged {
            reply: PageReply::Items(page.leaves),
            used: page.used,
        })
    }
}
