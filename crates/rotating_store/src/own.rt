//! What a store holds: the forms that stand under their own hashes. A store hands out the bytes of its backends as they are; here
//! bytes of another hash, and bytes that are no form, are read as not held.
ghost use Rattle.std.specs.Prelude.{◌≡◌, ◌≤◌, ◌+◌, is_some, IfOk, IfErr, IsTrue, Some};
ghost use Rattle.std.specs.FinMap as map;
ghost use Rattle.run_io.specs.Bytes.{Rose};
ghost use Rattle.ledger_spec.specs.Bytes.{same_bytes};
ghost use Rattle.ledger_spec.specs.Findings.{held_of};
ghost use Rattle.ledger_spec.specs.Own.{is_own as stands, own_form as held_at, own_forms};
ghost use Rattle.node_backend.specs.Filling.{filled};
ghost use Rattle.rotating_store.specs.Stores.{is_noted, nodes_of};
ghost use Rattle.rotating_store.specs.Reading.{IsReadable, MayNote, WasRead};

use crate::RotStore;
use half_hash::{Blob, Hash32, NodeHash};
use ledger_header::Header;
use node_backend::{BackFault, Shelf};
use shamap_node::{inner_of, is_leaf_form};
use std::alloc::Global;

/// The form that is held under the hash, or None where none is. It asks each backend at most once. A form is checked when it is first
/// read, and then noted as checked in the store.
pub fn own_form<H: NodeHash, Sh: Shelf>(
    alloc: Global,
    store: &mut RotStore<Sh>,
    h: &Hash32,
) -> Result<Option<Blob>, BackFault>
    ensures form { IsReadable Sh.B.tells H.half store.old → IfOk result (λ b. b ≡ own_forms H.half (map.get (nodes_of store.old)) h.now) }
    ensures read { WasRead Sh.B.tells H.half store.old store.new }
    ensures few { store.new.gets ≤ store.old.gets + 2 }
    ensures fault { IfErr result (λ e. e ≡ BackFault.Fault → Rose store.old.faults store.new.faults) }
{
    let mut room = Vec::new(alloc);
    if own_form_into::<H, Sh>(alloc, store, h, &mut room)? {
        return Ok(Some(Blob::new(room)));
    }
    Ok(None)
}

/// The same, written into a room, in place of what that held. False where none is held; what the room holds then, and after an error, is
/// open.
pub fn own_form_into<H: NodeHash, Sh: Shelf>(
    alloc: Global,
    store: &mut RotStore<Sh>,
    h: &Hash32,
    room: &mut Vec<u8>,
) -> Result<bool, BackFault>
    ensures form { IsReadable Sh.B.tells H.half store.old
        → IfOk result (λ b. filled b room.new.items ≡ own_forms H.half (map.get (nodes_of store.old)) h.now) }
    ensures read { WasRead Sh.B.tells H.half store.old store.new }
    ensures few { store.new.gets ≤ store.old.gets + 2 }
    ensures fault { IfErr result (λ e. e ≡ BackFault.Fault → Rose store.old.faults store.new.faults) }
{
    match store.get_into(alloc, h, room) {
        Ok(true) => Ok(noted_own::<H, Sh>(store, h, room)),
        Ok(false) => Ok(false),
        Err(fault) => Err(fault.plain()),
    }
}

// Whether the form that the store holds is its hash's own. It isn't checked where that was noted, and noted where it was checked.
fn noted_own<H: NodeHash, Sh: Shelf>(store: &mut RotStore<Sh>, h: &Hash32, form: &[u8]) -> bool
    requires held { IsTrue Sh.B.tells → map.get (nodes_of store.old) h.now ≡ Some form.now }
    ensures form { (IsTrue (is_noted store.old h.now) → IsTrue (stands H.half h.now form.now))
        → filled result form.now ≡ held_at H.half h.now (Some form.now) }
    ensures noted { MayNote H.half store.old h.now form.now store.new }
{
    if store.is_noted(h) {
        return true;
    }
    if !is_own::<H>(h, form) {
        return false;
    }
    store.note(h);
    true
}

// Whether the bytes have this hash, and are a form.
fn is_own<H: NodeHash>(h: &Hash32, form: &[u8]) -> bool
    ensures { result ≡ stands H.half h.now form.now }
{
    same(&H::half(form), h) && is_form::<H>(form)
}

// Whether the bytes are the form of a node or a header. It takes no memory.
fn is_form<H: NodeHash>(form: &[u8]) -> bool
    ensures { result ≡ is_some (held_of H.half form.now) }
{
    if inner_of(form).is_some() {
        return true;
    }
    if Header::from_form(form).is_some() {
        return true;
    }
    is_leaf_form::<H>(form)
}

// Whether the two hashes are one.
fn same(a: &Hash32, b: &Hash32) -> bool
    ensures { result ≡ same_bytes a.now b.now }
{
    a.bytes == b.bytes
}
