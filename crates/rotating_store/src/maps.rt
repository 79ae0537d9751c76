//! The one map of a store: reading it, writing it, copying what its archive has forward, and its hashes in their order.
ghost use Rattle.std.specs.Prelude.{◌≡◌, ◌≤◌, ◌+◌, IsTrue, is_some, IfOk, IfErr};
ghost use Rattle.std.specs.FinMap as map;
ghost use Rattle.std.specs.Option.{option_copied};
ghost use Rattle.node_backend.specs.Order.{IsNext};
ghost use Rattle.node_backend.specs.Filling.{filled};
ghost use Rattle.rotating_store.specs.Stores.{nodes_of, Counted, LeavesStore};
ghost use Rattle.rotating_store.specs.Puts.{Puts, TellsWrongHash, Compares, IsPlain};
ghost use Rattle.rotating_store.specs.Moves.{Forwards, is_found};

use crate::outcome::{Put, StoreFault};
use crate::pair::{Moved, copy_into, get_either, get_either_into, next_of_either};
use crate::store::RotStore;
use half_hash::{Blob, Hash32, NodeHash};
use node_backend::{Backend, Shelf};
use std::alloc::Global;

impl<Sh: Shelf> RotStore<Sh> {
    /// The form of a hash, or None where neither backend holds one.
    pub fn get(&mut self, alloc: Global, h: &Hash32) -> Result<Option<Blob>, StoreFault>
        ensures found { IsTrue Sh.B.tells → IfOk result (λ b. b ≡ map.get (nodes_of self.old) h.now) }
        ensures same { IsTrue Sh.B.tells → Counted self.old self.new }
        ensures few { self.new.gets ≤ self.old.gets + 2 }
        ensures store { LeavesStore StoreFault.Fault self.old self.new result }
        ensures kind { IfErr result IsPlain }
    {
        let form = get_either(&mut self.writable, &mut self.archive, alloc, h)?;
        Ok(form)
    }

    /// Writes the form of a hash into a room, in place of what that held. False where neither backend holds one; what the room holds then,
    /// and after an error, is open.
    pub fn get_into(
        &mut self,
        alloc: Global,
        h: &Hash32,
        room: &mut Vec<u8>,
    ) -> Result<bool, StoreFault>
        ensures found { IsTrue Sh.B.tells → IfOk result (λ b. filled b room.new.items ≡ map.get (nodes_of self.old) h.now) }
        ensures same { IsTrue Sh.B.tells → Counted self.old self.new }
        ensures few { self.new.gets ≤ self.old.gets + 2 }
        ensures store { LeavesStore StoreFault.Fault self.old self.new result }
        ensures kind { IfErr result IsPlain }
    {
        let found = get_either_into(&mut self.writable, &mut self.archive, alloc, h, room)?;
        Ok(found)
    }

    /// Whether a form has the hash.
    pub fn has(&mut self, alloc: Global, h: &Hash32) -> Result<bool, StoreFault>
        ensures found { IsTrue Sh.B.tells → IfOk result (λ b. b ≡ is_some (map.get (nodes_of self.old) h.now)) }
        ensures same { IsTrue Sh.B.tells → Counted self.old self.new }
        ensures few { self.new.gets ≤ self.old.gets + 2 }
        ensures store { LeavesStore StoreFault.Fault self.old self.new result }
        ensures kind { IfErr result IsPlain }
    {
        let form = self.get(alloc, h)?;
        Ok(form.is_some())
    }

    /// Stores a form under its hash. `WrongHash` and `Clash` leave the maps as they are; after `Fault` or
    /// `Memory` the pair may be stored, and nothing else.
    pub fn put<H: NodeHash>(
        &mut self,
        alloc: Global,
        h: &Hash32,
        form: &[u8],
    ) -> Result<Put, StoreFault>
        ensures puts { IsTrue Sh.B.tells → Puts self.old h.now form.now result self.new }
        ensures wrong { TellsWrongHash H.half h.now form.now result }
        ensures store { LeavesStore StoreFault.Fault self.old self.new result }
    {
        let found = H::half(form);
        if !found.equals(h) {
            return Err(StoreFault::WrongHash { hash: *h, found });
        }
        self.put_hashed::<H>(alloc, h, form)
    }

    /// The same of a form whose hash the caller knows, which isn't hashed again.
    pub fn put_hashed<H: NodeHash>(
        &mut self,
        alloc: Global,
        h: &Hash32,
        form: &[u8],
    ) -> Result<Put, StoreFault>
        requires own { H.half form.now ≡ h.now }
        ensures puts { IsTrue Sh.B.tells → Puts self.old h.now form.now result self.new }
        ensures wrong { TellsWrongHash H.half h.now form.now result }
        ensures store { LeavesStore StoreFault.Fault self.old self.new result }
    {
        if let Some(old) = get_either(&mut self.writable, &mut self.archive, alloc, h)? {
            return compare(alloc, h, old, form);
        }
        self.unchecked.add(h)?;
        self.writable.put(alloc, h, form)?;
        Ok(Put::New)
    }

    /// Copies a form from the archive to the writable backend, where that lacks it. The store's one map
    /// stays, also after an error.
    pub fn forward(&mut self, alloc: Global, h: &Hash32) -> Result<Moved, StoreFault>
        ensures forwards { Forwards Sh.B.tells self.old h.now result self.new }
        ensures store { LeavesStore StoreFault.Fault self.old self.new result }
        ensures kind { IfErr result IsPlain }
    {
        let mut room = Vec::new(alloc);
        let moved = self.forward_into(alloc, h, &mut room)?;
        Ok(moved)
    }

    /// The same, and it writes the form that was copied or found there, which is looked for once, into a room, in place of what that held.
    /// Where neither backend has one, and after an error, what the room holds is open.
    pub fn forward_into(
        &mut self,
        alloc: Global,
        h: &Hash32,
        room: &mut Vec<u8>,
    ) -> Result<Moved, StoreFault>
        ensures forwards { Forwards Sh.B.tells self.old h.now result self.new }
        ensures form { IsTrue Sh.B.tells → IfOk result (λ m. filled (is_found m) room.new.items ≡ map.get (nodes_of self.old) h.now) }
        ensures store { LeavesStore StoreFault.Fault self.old self.new result }
        ensures kind { IfErr result IsPlain }
    {
        self.unchecked.carry(h)?;
        let moved = copy_into(&mut self.writable, &mut self.archive, alloc, h, room)?;
        Ok(moved)
    }

    /// The least hash that comes after another one, or the least of all.
    pub fn next(
        &mut self,
        alloc: Global,
        after: Option<&Hash32>,
    ) -> Result<Option<Hash32>, StoreFault>
        ensures next { IsTrue Sh.B.tells → IfOk result (IsNext (nodes_of self.old) (option_copied after.entry)) }
        ensures same { IsTrue Sh.B.tells → Counted self.old self.new }
        ensures unasked { self.new.gets ≡ self.old.gets }
        ensures store { LeavesStore StoreFault.Fault self.old self.new result }
        ensures kind { IfErr result IsPlain }
    {
        let next = next_of_either(&mut self.writable, &mut self.archive, alloc, after)?;
        Ok(next)
    }
}

/// What a put of a form comes to where one is held.
fn compare(alloc: Global, h: &Hash32, old: Blob, form: &[u8]) -> Result<Put, StoreFault>
    ensures { Compares h.now old form.now result }
{
    if old.bytes() == form {
        return Ok(Put::Same);
    }
    let new = Blob::from_slice(alloc, form)?;
    Err(StoreFault::Clash { hash: *h, old, new })
}
