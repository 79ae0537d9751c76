//! The end of a search: what was found is answered, and where that is nothing the ledger's roots are marked as whole.
ghost use Rattle.std.specs.Prelude.{◌≡◌, true, IfOk, OnOk, OnErr, map};
ghost use Rattle.ledger_spec.specs.Bytes.{Half, Lookup};
ghost use Rattle.full_below.specs.Marking.{AreMarked};
ghost use Rattle.tree_cache.specs.declared.cache.TreeCache.{TreeCache as Cache};
ghost use Rattle.missing_walk.specs.Pending.{IsFull};
ghost use Rattle.missing_walk.specs.Searching.{Going, SameSearch, place_of};
ghost use Rattle.missing_walk.specs.Moves.{has_ended};
ghost use Rattle.missing_walk.specs.Ends.{found_whole, MarksRoot, marks_of_roots, with_root};
ghost use Rattle.missing_walk.specs.Leaving.{SameRoom};
ghost use Rattle.missing_walk.specs.Runs.{StaysWhole};
ghost use Rattle.missing_walk.specs.Answering.{MayConclude, Concludes, KeepsGoing};

use crate::Found;
use crate::search::Search;
use crate::stack::settle;
use crate::todo::Todo;
use full_below::{MarkKey, Marks};
use half_hash::{Hash32, Memory};
use ledger_spec::{Kind, Places};
use nib_path::NodeId;
use std::alloc::Global;

impl Search {
    /// What was found. Where nothing is missing or broken, the roots are marked. The broken place goes, also where memory is refused.
    pub(crate) fn finish(&mut self, alloc: Global, marks: &mut Marks) -> Result<Found, Memory>
        requires { MayConclude self.old }
        ensures found { Concludes self.old marks.old marks.new result }
        ensures going { KeepsGoing self.old self.new marks.old marks.new }
        ensures stays { StaysWhole self.old self.new }
        ensures room { SameRoom marks.old marks.new }
    {
        let found = self.conclude(alloc, marks);
        self.broken = None;
        found
    }

    // The same, the broken place left.
    fn conclude(&mut self, alloc: Global, marks: &mut Marks) -> Result<Found, Memory>
        requires { MayConclude self.old }
        ensures found { Concludes self.old marks.old marks.new result }
        ensures going { KeepsGoing self.old self.new marks.old marks.new }
        ensures same { SameSearch self.old self.new }
        ensures room { SameRoom marks.old marks.new }
    {
        settle(&mut self.opened, self.stack.len(), marks);
        self.mark_whole(marks)?;
        self.found(alloc)
    }

    // Marks the roots, where nothing is missing or broken.
    fn mark_whole(&self, marks: &mut Marks) -> Result<(), Memory>
        ensures roots { OnOk result (found_whole self.now ≡ true → marks.new ≡ marks_of_roots self.now.header marks.old) }
        ensures marks { (half : Half) (nodes : Lookup) (cache : Cache) → Going half nodes self.now cache marks.old
            → has_ended self.now ≡ true
            → AreMarked (IsFull half nodes) marks.new }
        ensures room { SameRoom marks.old marks.new }
    {
        if !self.is_whole() {
            return Ok(());
        }
        self.mark_roots(marks)
    }

    // Whether nothing is missing or broken.
    fn is_whole(&self) -> bool
        ensures { result ≡ found_whole self.now }
    {
        self.missing.is_empty() && self.broken.is_none()
    }

    // Marks the roots of the two maps, unless they are empty.
    fn mark_roots(&self, marks: &mut Marks) -> Result<(), Memory>
        ensures ok { OnOk result (marks.new ≡ marks_of_roots self.now.header marks.old) }
        ensures err { OnErr result (MarksRoot self.now.header marks.old marks.new) }
        ensures room { SameRoom marks.old marks.new }
    {
        let Some(header) = &self.header else {
            return Ok(());
        };
        mark_root(marks, Kind::Tx, &header.tx_root)?;
        mark_root(marks, Kind::State, &header.state_root)?;
        Ok(())
    }

    // What was found.
    fn found(&self, alloc: Global) -> Result<Found, Memory>
        ensures header { IfOk result (λ f. f.header ≡ self.now.header) }
        ensures broken { IfOk result (λ f. f.broken ≡ self.now.broken) }
        ensures missing { IfOk result (λ f. f.missing ≡ map place_of self.now.missing.items) }
    {
        Ok(Found {
            header: self.header,
            broken: self.broken,
            missing: places_of(alloc, &self.missing)?,
        })
    }
}

// Marks the root of a map, unless the map is empty.
fn mark_root(marks: &mut Marks, kind: Kind, hash: &Hash32) -> Result<(), Memory>
    ensures ok { OnOk result (marks.new ≡ with_root kind hash.now marks.old) }
    ensures err { OnErr result (marks.new ≡ marks.old) }
    ensures room { SameRoom marks.old marks.new }
{
    if hash.is_zero() {
        return Ok(());
    }
    let key = MarkKey {
        hash: *hash,
        kind,
        id: NodeId::root(),
    };
    let generation = marks.generation();
    marks.mark(key, generation)?;
    Ok(())
}

// The places.
fn places_of(alloc: Global, todos: &[Todo]) -> Result<Places, Memory>
    ensures { IfOk result (λ places. places ≡ map place_of todos.now) }
{
    let mut places = Places::new(Vec::new(alloc));
    for todo in todos {
        places.push(todo.place())?;
    }
    Ok(places)
}
