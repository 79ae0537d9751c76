//! The copy of one form.
ghost use Rattle.std.specs.Prelude.{◌≡◌, IsTrue, IfOk, IfErr, OnOk};
ghost use Rattle.std.specs.FinMap as finite;
ghost use Rattle.node_backend.specs.Filling.{filled};
ghost use Rattle.rotating_store.specs.Puts.{IsPlain};
ghost use Rattle.rotating_store.specs.Stores.{LeavesStore, nodes_of};
ghost use Rattle.copy_walk.specs.Slices.{CopiesOne};

use half_hash::Hash32;
use node_backend::Shelf;
use rotating_store::{RotStore, StoreFault};
use std::alloc::Global;

/// Copies one form forward, and writes it into a room; false where nothing is stored.
pub(crate) fn copy_one<Sh: Shelf>(
    alloc: Global,
    store: &mut RotStore<Sh>,
    h: &Hash32,
    room: &mut Vec<u8>,
) -> Result<bool, StoreFault>
    ensures one { IsTrue Sh.B.tells → CopiesOne h.now store.old store.new }
    ensures there { IsTrue Sh.B.tells → OnOk result (finite.get store.new.writable h.now ≡ finite.get (nodes_of store.old) h.now) }
    ensures form { IsTrue Sh.B.tells → IfOk result (λ b. filled b room.new.items ≡ finite.get (nodes_of store.old) h.now) }
    ensures store { LeavesStore StoreFault.Fault store.old store.new result }
    ensures kind { IfErr result IsPlain }
{
    let moved = store.forward_into(alloc, h, room)?;
    Ok(moved.is_found())
}
