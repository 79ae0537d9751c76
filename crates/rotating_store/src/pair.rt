//! Two backends as one: what the first lacks is looked for in the second.
ghost use Rattle.std.specs.Prelude.{◌≡◌, ◌≤◌, ◌⊎◌, IsTrue, IfOk};
ghost use Rattle.std.specs.FinMap as map;
ghost use Rattle.std.specs.Option.{option_copied};
ghost use Rattle.node_backend.specs.Order.{IsNext};
ghost use Rattle.run_io.specs.Bytes.{Rose};
ghost use Rattle.node_backend.specs.Counts.{held_sum};
ghost use Rattle.node_backend.specs.Filling.{filled};
ghost use Rattle.rotating_store.specs.Stores.{merged, lesser_of};
ghost use Rattle.rotating_store.specs.Moves.{is_found};
ghost use Rattle.rotating_store.specs.Pairs.{WasAsked, IsLaterBackend, CopiesForm};

use half_hash::{Blob, Hash32};
use node_backend::{BackFault, Backend};
use std::alloc::Global;

/// What a copy forward came to.
#[derive(Clone, Copy, Debug, PartialEq, Eq)]
pub enum Moved {
    /// The form was copied from the archive.
    Copied,
    /// The writable backend had it.
    There,
    /// Neither backend has it.
    Nowhere,
}

impl Moved {
    /// Whether one of the two backends has the form.
    pub fn is_found(self) -> bool
        ensures { result ≡ is_found self }
    {
        match self {
            Moved::Copied | Moved::There => true,
            Moved::Nowhere => false,
        }
    }
}

/// The form of a hash.
pub(crate) fn get_either<B: Backend>(
    first: &mut B,
    second: &mut B,
    alloc: Global,
    h: &Hash32,
) -> Result<Option<Blob>, BackFault>
    ensures first { WasAsked B.tells B.held B.doubt B.number B.faults first.old first.new }
    ensures second { WasAsked B.tells B.held B.doubt B.number B.faults second.old second.new }
    ensures found { IsTrue B.tells → IfOk result (λ b. b ≡ map.get (merged (B.held first.old) (B.held second.old)) h.now) }
    ensures asked { (B.gets first.new ≡ held_sum (B.gets first.old) 1)
        × ((B.gets second.new ≡ B.gets second.old) ⊎ (B.gets second.new ≡ held_sum (B.gets second.old) 1)) }
    ensures cause { result ≡ Err BackFault.Fault
        → Rose (B.faults first.old) (B.faults first.new) ⊎ Rose (B.faults second.old) (B.faults second.new) }
{
    if let Some(form) = first.get(alloc, h)? {
        return Ok(Some(form));
    }
    let form = second.get(alloc, h)?;
    Ok(form)
}

/// Writes the form of a hash into a room; false where neither has one.
pub(crate) fn get_either_into<B: Backend>(
    first: &mut B,
    second: &mut B,
    alloc: Global,
    h: &Hash32,
    room: &mut Vec<u8>,
) -> Result<bool, BackFault>
    ensures first { WasAsked B.tells B.held B.doubt B.number B.faults first.old first.new }
    ensures second { WasAsked B.tells B.held B.doubt B.number B.faults second.old second.new }
    ensures found { IsTrue B.tells
        → IfOk result (λ b. filled b room.new.items ≡ map.get (merged (B.held first.old) (B.held second.old)) h.now) }
    ensures asked { (B.gets first.new ≡ held_sum (B.gets first.old) 1)
        × ((B.gets second.new ≡ B.gets second.old) ⊎ (B.gets second.new ≡ held_sum (B.gets second.old) 1)) }
    ensures cause { result ≡ Err BackFault.Fault
        → Rose (B.faults first.old) (B.faults first.new) ⊎ Rose (B.faults second.old) (B.faults second.new) }
{
    let here = first.get_into(alloc, h, room)?;
    if here {
        return Ok(true);
    }
    let there = second.get_into(alloc, h, room)?;
    Ok(there)
}

/// The lesser of two hashes, or the one that there is.
fn lesser(a: Option<Hash32>, b: Option<Hash32>) -> Option<Hash32>
    ensures { result ≡ lesser_of a b }
{
    match (a, b) {
        (None, b) => b,
        (a, None) => a,
        (Some(a), Some(b)) => { if a.cmp(&b).is_gt() { Some(b) } else { Some(a) } }
    }
}

/// The least hash that comes after another one.
pub(crate) fn next_of_either<B: Backend>(
    first: &mut B,
    second: &mut B,
    alloc: Global,
    after: Option<&Hash32>,
) -> Result<Option<Hash32>, BackFault>
    ensures first { WasAsked B.tells B.held B.doubt B.number B.faults first.old first.new }
    ensures second { WasAsked B.tells B.held B.doubt B.number B.faults second.old second.new }
    ensures next { IsTrue B.tells → IfOk result (IsNext (merged (B.held first.old) (B.held second.old)) (option_copied after.entry)) }
    ensures uncounted { (B.gets first.new ≡ B.gets first.old) × (B.gets second.new ≡ B.gets second.old) }
    ensures cause { result ≡ Err BackFault.Fault
        → Rose (B.faults first.old) (B.faults first.new) ⊎ Rose (B.faults second.old) (B.faults second.new) }
{
    let a = first.next(alloc, after)?;
    let b = second.next(alloc, after)?;
    Ok(lesser(a, b))
}

/// Copies a form from the second to the first, where that lacks it, and writes it into a room.
pub(crate) fn copy_into<B: Backend>(
    first: &mut B,
    second: &mut B,
    alloc: Global,
    h: &Hash32,
    room: &mut Vec<u8>,
) -> Result<Moved, BackFault>
    ensures copies { CopiesForm B.tells (B.held first.old) (B.held second.old) (B.doubt first.old) h.now result room.new.items
        (B.held first.new) (B.doubt first.new) }
    ensures first { IsLaterBackend B.number B.faults first.old first.new }
    ensures second { WasAsked B.tells B.held B.doubt B.number B.faults second.old second.new }
    ensures gets { (B.gets first.old ≤ B.gets first.new) × (B.gets second.old ≤ B.gets second.new) }
    ensures cause { result ≡ Err BackFault.Fault
        → Rose (B.faults first.old) (B.faults first.new) ⊎ Rose (B.faults second.old) (B.faults second.new) }
{
    let here = first.get_into(alloc, h, room)?;
    if here {
        return Ok(Moved::There);
    }
    let there = second.get_into(alloc, h, room)?;
    if there {
        first.put(alloc, h, room)?;
        return Ok(Moved::Copied);
    }
    Ok(Moved::Nowhere)
}
