//! The store: a shelf, two backends of it and the notes on what was checked; how it is opened, and what it tells of itself. What is new
//! goes into the writable backend; what the archive alone has is kept by a swap only if it was copied forward before.
ghost use Rattle.std.specs.Prelude.{◌≡◌, ◌≢◌, IsTrue, Err, IfOk};
ghost use Rattle.std.specs.FinMap as map;
ghost use Rattle.std.specs.Option.{IsSome};
ghost use Rattle.run_io.specs.Bytes.{Rose};
ghost use Rattle.rotating_store.specs.Stores.{Store, Agree, nodes_of, is_noted, IsNoted};
ghost use Rattle.rotating_store.specs.Openings.{IsOpened, HasParts};

use crate::unchecked::Unchecked;
use half_hash::Hash32;
use node_backend::{BackFault, Backend, Shelf};
use std::alloc::Global;
use std::marker::Model;

/// Why there is no store, and what is left.
#[derive(Drop)]
pub enum Unopened<Sh: Shelf> {
    /// The shelf failed.
    Shelf(Sh),
    /// A record could not be put. Opening a store never answers it.
    Store(RotStore<Sh>),
    /// Memory was refused.
    Memory,
}

/// One map over two backends of a shelf, the writable one and the archive. Contracts see the two
/// maps, whether a fresh backend is ready, the epoch, the counts, and the shelf's other numbers.
#[derive(Drop)]
pub struct RotStore<Sh: Shelf> {
    pub(crate) shelf: Sh,
    pub(crate) writable: Sh::B,
    pub(crate) archive: Sh::B,
    pub(crate) ready: Option<Sh::B>,
    pub(crate) epoch: u64,
    pub(crate) past_faults: u64,
    pub(crate) past_gets: u64,
    pub(crate) unchecked: Unchecked,
    pub(crate) room: Vec<u8>,
}

/// The very shelf and backends of a store.
#[derive(Drop)]
pub struct Parts<'a, Sh: Shelf> {
    /// The shelf.
    pub shelf: &'a Sh,
    /// The backend that is written.
    pub writable: &'a Sh::B,
    /// The backend that the next swap drops.
    pub archive: &'a Sh::B,
    /// A fresh backend, where one is ready.
    pub ready: Option<&'a Sh::B>,
}

impl<Sh: Shelf> Model for RotStore<Sh> {
    ghost use Rattle.std.specs.Prelude.{◌≡◌, IsTrue, is_some};
    ghost use Rattle.std.specs.Option.{option_map, option_map_or};
    ghost use Rattle.std.specs.FinMap as map;
    ghost use Rattle.std.specs.Coded.{codes};
    ghost use Rattle.ledger_spec.specs.Maps.{map_code, set_code};
    ghost use Rattle.node_backend.specs.Counts.{held_sum};
    ghost use Rattle.rotating_store.specs.Stores.{Store, merged, sum_of, spare_of};
    ghost use Rattle.rotating_store.specs.Keeps.{Numbered, Keeps};
    ghost use Rattle.rotating_store.specs.Unchecked.{noted_in, AreCarried};

    ghost Value = { Store };

    ghost coded = { Prim.hlevel (codes, map_code, set_code) };

    ghost view = { λ r. record {
      writable = Sh.B.held r.writable;
      archive = Sh.B.held r.archive;
      ready = is_some r.ready;
      epoch = r.epoch;
      faults = sum_of (held_sum r.past_faults (Sh.faults r.shelf)) (Sh.B.faults r.writable) (Sh.B.faults r.archive)
          (option_map_or Sh.B.faults r.ready 0);
      gets = sum_of r.past_gets (Sh.B.gets r.writable) (Sh.B.gets r.archive) (option_map_or Sh.B.gets r.ready 0);
      past_faults = r.past_faults;
      past_gets = r.past_gets;
      shelf_faults = Sh.faults r.shelf;
      spare = spare_of (Sh.live r.shelf) (Sh.B.number r.archive) (Sh.B.number r.writable) (option_map Sh.B.number r.ready);
      undone = Sh.undone r.shelf;
      noted = noted_in Sh.B.tells (merged (Sh.B.held r.writable) (Sh.B.held r.archive)) r.unchecked;
    } };

    ghost invariant = { λ r. Numbered (Sh.live r.shelf) (Sh.undone r.shelf)
        (Sh.B.number r.archive) (Sh.B.number r.writable) (option_map Sh.B.number r.ready)
        × (IsTrue Sh.B.tells → Keeps (Sh.B.held r.writable) (Sh.B.held r.archive)
        (Sh.B.doubt r.writable) (Sh.B.doubt r.archive) (option_map Sh.B.held r.ready) (option_map Sh.B.doubt r.ready))
        × (IsTrue Sh.B.tells → AreCarried (Sh.B.held r.writable) r.unchecked) };
}

impl<Sh: Shelf> RotStore<Sh> {
    /// A store over a shelf. The archive is taken first, then the writable backend.
    pub fn open(alloc: Global, shelf: Sh) -> Result<RotStore<Sh>, Unopened<Sh>>
        ensures opened { IfOk result (IsOpened Sh.B.tells (Sh.live shelf) (Sh.undone shelf) (Sh.faults shelf)) }
        ensures cause { (s : Sh) → result ≡ Err (Unopened.Shelf s) → Rose (Sh.faults shelf) (Sh.faults s) }
        ensures never { (s : Store) → result ≢ Err (Unopened.Store s) }
    {
        let mut shelf = shelf;
        let archive = match shelf.fresh(alloc) {
            Ok(archive) => archive,
            Err(BackFault::Fault) => return Err(Unopened::Shelf(shelf)),
            Err(BackFault::Memory) => return Err(Unopened::Memory),
        };
        let writable = match shelf.fresh(alloc) {
            Ok(writable) => writable,
            Err(BackFault::Fault) => return Err(Unopened::Shelf(shelf)),
            Err(BackFault::Memory) => return Err(Unopened::Memory),
        };
        let _count = shelf.faults();
        Ok(RotStore {
            shelf,
            writable,
            archive,
            ready: None,
            epoch: 0,
            past_faults: 0,
            past_gets: 0,
            unchecked: Unchecked::new(alloc),
            room: Vec::new(alloc),
        })
    }

    /// Notes that a caller has checked the form that is held under a hash, which is forgotten when a swap drops the form. Where the store
    /// doesn't tell what it holds nothing is noted.
    pub fn note(&mut self, h: &Hash32)
        ensures noted { IsNoted self.old h.now self.new }
    {
        self.unchecked.remove(h);
    }

    /// Whether the form of a hash, where the store holds one, was noted as checked. Where the store doesn't tell what it holds, none was.
    pub(crate) fn is_noted(&self, h: &Hash32) -> bool
        ensures tells { IsTrue result → IsTrue Sh.B.tells }
        ensures noted { IsTrue result → IsSome (map.get (nodes_of self.now) h.now) → IsTrue (is_noted self.now h.now) }
    {
        if !Sh::B::is_telling() {
            return false;
        }
        !self.unchecked.has(h)
    }

    /// Tells a proof that a hash that stands in both backends has the same bytes in them.
    pub fn agrees(&self)
        ensures { IsTrue Sh.B.tells → Agree self.now.writable self.now.archive }
    {
        let _epoch = self.epoch;
    }

    /// The shelf and the backends. It tells a proof what the store keeps of them.
    pub fn parts(&self) -> Parts<'_, Sh>
        ensures { HasParts Sh.B.tells Sh.B.held Sh.B.doubt Sh.B.number Sh.B.faults Sh.B.gets
            (Sh.live result.shelf.now) (Sh.undone result.shelf.now) (Sh.faults result.shelf.now)
            result.writable.now result.archive.now (λ b. b.now) result.ready self.now }
    {
        Parts {
            shelf: &self.shelf,
            writable: &self.writable,
            archive: &self.archive,
            ready: self.ready.as_ref(),
        }
    }

    /// How many swaps there were.
    pub fn epoch(&self) -> u64
        ensures { result ≡ self.now.epoch }
    {
        self.epoch
    }

    /// How often a form was asked for, in backends that are discarded too.
    pub fn gets(&self) -> u64
        ensures { result ≡ self.now.gets }
    {
        let ready = match &self.ready {
            None => 0,
            Some(b) => b.gets(),
        };
        self.past_gets
            .saturating_add(self.writable.gets())
            .saturating_add(self.archive.gets())
            .saturating_add(ready)
    }

    /// How often a device failed, discarded backends among them.
    pub fn faults(&self) -> u64
        ensures { result ≡ self.now.faults }
    {
        let ready = match &self.ready {
            None => 0,
            Some(b) => b.faults(),
        };
        self.past_faults
            .saturating_add(self.shelf.faults())
            .saturating_add(self.writable.faults())
            .saturating_add(self.archive.faults())
            .saturating_add(ready)
    }
}
