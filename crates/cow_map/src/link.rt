//! Links between the nodes of a map. A link leads to nothing, to a node of the map's own list, or to one of the source, which is named by
//! its hash and read where it is needed.
ghost use Rattle.std.specs.Prelude.{◌≡◌, ◌<◌, ◌+◌, ◌==◌, not, length, map, replicate, slice_set, count_by, IfOk};
ghost use Rattle.std.specs.List.{slice_index_or};
ghost use Rattle.half_hash.specs.Zero.{zero_hash};
ghost use Rattle.cow_map.specs.declared.link.Link.TheVariants.{Empty as empty_link, Unloaded as unloaded_link};
ghost use Rattle.cow_map.specs.Gathered.{moved_link};
ghost use Rattle.cow_map.specs.Places.{place_link};
ghost use Rattle.cow_map.specs.Trees.{link_to};
ghost use Rattle.cow_map.specs.Ways.{is_link, is_only};

use crate::table::Table;
use half_hash::{Hash32, Memory};
use shamap_node::Inner;
use std::alloc::Global;
use std::marker::Model;

/// Where a branch of an inner node leads.
#[derive(Clone, Copy, Debug)]
pub enum Link {
    /// To nothing.
    Empty,
    /// To the node of the source that has this hash.
    Unloaded(Hash32),
    /// To the node at this place of the map's own list.
    Own(usize),
}

/// How many of sixteen links lead anywhere.
#[derive(Clone, Copy)]
pub(crate) enum Only {
    /// None.
    Nowhere,
    /// That of this branch alone.
    One(u8),
    /// Two or more.
    Many,
}

impl Link {
    /// To the node of the source that has this hash, or to nothing where the hash is zero.
    pub fn to(hash: &Hash32) -> Link
        ensures { result ≡ link_to hash.now }
    {
        if hash.is_zero() {
            Link::Empty
        } else {
            Link::Unloaded(*hash)
        }
    }

    /// To the same node of a list that stands behind n others.
    pub(crate) fn moved(&self, n: usize) -> Result<Link, Memory>
        ensures { IfOk result (λ link. link ≡ moved_link n self.now) }
    {
        match self {
            Link::Own(at) => match at.checked_add(n) {
                Some(place) => Ok(Link::Own(place)),
                // no memory has so many nodes
                None => Err(Memory),
            },
            link => Ok(*link),
        }
    }

    // Whether it leads anywhere.
    fn is_some(&self) -> bool
        ensures { result ≡ is_link self.now }
    {
        match self {
            Link::Empty => false,
            _ => true,
        }
    }
}

/// The sixteen links of an inner node. Contracts see the list of them.
#[derive(Drop)]
pub struct Links {
    places: [u32; 16],
    table: Table,
}

// What stands at the place of a branch that leads nowhere, and of one that leads to the node with the table's hash. The n-th node of the
// map's own list has the place n + 2.
const NOWHERE: u32 = 0;

const BY_TABLE: u32 = 1;

impl Model for Links {
    ghost use Rattle.std.specs.Prelude.{◌≡◌, List, length};
    ghost use Rattle.cow_map.specs.declared.link.Link.{Link};
    ghost use Rattle.cow_map.specs.Places.{links_of};

    ghost Value = { List Link };

    ghost view = { λ a. links_of a.table a.places };

    ghost invariant = { λ a. length a.places ≡ 16 };
}

impl Links {
    ghost use Rattle.cow_map.specs.Edits.{Counts};

    /// Sixteen links to nothing.
    pub(crate) fn none() -> Links
        ensures { result ≡ replicate 16 empty_link }
    {
        Links {
            places: [NOWHERE; 16],
            table: Table::none(),
        }
    }

    /// The links to the branches of an inner node of the source, whose table has its hashes.
    pub(crate) fn of_inner(inner: &Inner, table: Table) -> Links
        requires { table ≡ inner.now.hashes }
        ensures { result ≡ map link_to inner.now.hashes }
    {
        let mut places = [NOWHERE; 16];
        for b in 0..16u8 {
            if !inner.branch(b).is_zero() {
                places[b as usize] = BY_TABLE;
            }
        }
        Links { places, table }
    }

    /// The same links again.
    pub(crate) fn copy(&self) -> Result<Links, Memory>
        ensures { IfOk result (λ links. links ≡ self.now) }
    {
        let table = self.table.copy()?;
        Ok(Links {
            places: self.places,
            table,
        })
    }

    /// The links of the same node of a list that stands behind n others.
    pub(crate) fn moved(&self, alloc: Global, n: usize) -> Result<Links, Memory>
        ensures { IfOk result (λ links. links ≡ map (moved_link n) self.now) }
    {
        self.known();
        let mut links = self.copy()?;
        for b in 0..16u8 {
            links = links.with(alloc, b, self.get(b).moved(n)?)?;
        }
        Ok(links)
    }

    /// The link of a branch.
    pub fn get(&self, b: u8) -> Link
        requires { b < 16 }
        ensures { result ≡ slice_index_or self.now b empty_link }
    {
        let place = self.places[b as usize];
        if place == NOWHERE {
            return Link::Empty;
        }
        if place == BY_TABLE {
            return Link::Unloaded(self.table.hash(b));
        }
        Link::Own(place as usize - 2)
    }

    /// The same, but for the link of this branch.
    pub(crate) fn with(mut self, alloc: Global, b: u8, link: Link) -> Result<Links, Memory>
        requires { b < 16 }
        ensures { IfOk result (λ links. links ≡ slice_set self b link) }
    {
        match link {
            Link::Empty => {
                self.places[b as usize] = NOWHERE;
                Ok(self)
            }
            Link::Own(at) => {
                self.places[b as usize] = own_place(at)?;
                Ok(self)
            }
            Link::Unloaded(hash) => {
                if !self.table.hash(b).equals(&hash) {
                    return self.tabled(alloc, b, hash);
                }
                self.places[b as usize] = BY_TABLE;
                Ok(self)
            }
        }
    }

    // The same, but for a link to the source's node of this hash at this branch, with a table of their own.
    fn tabled(self, alloc: Global, b: u8, hash: Hash32) -> Result<Links, Memory>
        requires { b < 16 }
        ensures { IfOk result (λ links. links ≡ slice_set self b (unloaded_link hash)) }
    {
        let mut hashes = self.table.hashes();
        hashes[b as usize] = hash;
        let mut places = self.places;
        places[b as usize] = BY_TABLE;
        let table = Table::made(alloc, hashes)?;
        Ok(Links { places, table })
    }

    /// Whether just one link leads anywhere.
    pub fn is_only(&self) -> bool
        ensures { result ≡ is_only self.now }
    {
        leading(&self.places) == 1
    }

    /// How many lead anywhere.
    pub(crate) fn only(&self) -> Only
        ensures { Counts self.now result }
    {
        self.known();
        let mut only = Only::Nowhere;
        for b in 0..16u8 {
            if self.get(b).is_some() {
                match only {
                    Only::Nowhere => only = Only::One(b),
                    _ => return Only::Many,
                }
            }
        }
        only
    }

    /// Tells a proof that there are sixteen.
    pub(crate) fn known(&self)
        ensures { length self.now ≡ 16 }
    {
        let _places = &self.places;
    }
}

// The place of the map's own node of this number.
fn own_place(at: usize) -> Result<u32, Memory>
    ensures { IfOk result (λ place. (place ≡ at + 2)) }
{
    match at.checked_add(2) {
        Some(place) => match u32::try_from(place) {
            Ok(place) => Ok(place),
            // no map has so many nodes
            Err(_) => Err(Memory),
        },
        None => Err(Memory),
    }
}

// How many places lead anywhere.
fn leading(places: &[u32]) -> usize
    ensures { result ≡ count_by (λ place. not (place == 0)) places.now }
{
    places.iter().filter(|place| **place != NOWHERE).count()
}
