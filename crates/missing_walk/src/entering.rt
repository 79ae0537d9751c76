//! The beginning of a search, at the ledger's header: the roots that it names are the first places to look at.
ghost use Rattle.std.specs.Prelude.{◌≡◌, ◌+◌, None, IfOk, OnOk, OnErr};
ghost use Rattle.ledger_spec.specs.Findings.{lacks, breaks};
ghost use Rattle.missing_walk.specs.Sees.{shown, nothing_seen, noted};
ghost use Rattle.missing_walk.specs.Founds.{IsFound};
ghost use Rattle.missing_walk.specs.Ends.{IsClean};
ghost use Rattle.missing_walk.specs.Stacks.{Pushes};
ghost use Rattle.missing_walk.specs.Begins.{Begins, root_place};
ghost use Rattle.missing_walk.specs.Leaving.{Asks};
ghost use Rattle.missing_walk.specs.Answering.{StaysUnbroken, BeginsWhole, FindsNoHeader, Enters};

use crate::Found;
use crate::search::Search;
use crate::todo::Todo;
use full_below::MarkKey;
use half_hash::{Hash32, Memory, NodeHash};
use ledger_header::Header;
use ledger_spec::{Kind, Place, ShapeFault};
use nib_path::NodeId;
use node_backend::{BackFault, Shelf};
use rotating_store::{RotStore, own_form};
use std::alloc::Global;

impl Search {
    /// Reads the header, where that isn't done. Where no header is stored, what is found of the ledger is answered.
    pub(crate) fn enter<H: NodeHash, Sh: Shelf>(
        &mut self,
        alloc: Global,
        store: &mut RotStore<Sh>,
    ) -> Result<Option<Found>, BackFault>
        ensures answers { FindsNoHeader Sh.B.tells H.half store.old self.old result }
        ensures enters { Enters Sh.B.tells H.half store.old self.old self.new result }
        ensures stays { StaysUnbroken self.old self.new }
        ensures asks { Asks Sh.B.tells H.half BackFault.Fault (store.old.gets + 2) store.old store.new result }
    {
        if self.header.is_some() {
            return Ok(None);
        }
        let Some(form) = own_form::<H, Sh>(alloc, store, &self.target)? else {
            return Ok(Some(without_header(alloc)?));
        };
        match Header::from_form(form.bytes()) {
            Some(header) => {
                self.begin(header)?;
                Ok(None)
            }
            None => Ok(Some(foreign_header(alloc))),
        }
    }

    // Begins below this header.
    fn begin(&mut self, header: Header) -> Result<(), Memory>
        requires { self.old.header ≡ None }
        ensures ok { OnOk result (Begins header self.old self.new) }
        ensures err { OnErr result (self.new.header ≡ None) }
        ensures whole { BeginsWhole self.old self.new }
    {
        self.stack.clear();
        self.opened.clear();
        self.missing.clear();
        self.broken = None;
        push_root(&mut self.stack, Kind::Tx, &header.tx_root)?;
        push_root(&mut self.stack, Kind::State, &header.state_root)?;
        self.header = Some(header);
        Ok(())
    }
}

// Puts the root of a map on the stack, unless the map is empty.
fn push_root(stack: &mut Vec<Todo>, kind: Kind, hash: &Hash32) -> Result<(), Memory>
    ensures { OnOk result (Pushes stack.old.items stack.new.items (root_place kind hash.now)) }
{
    if hash.is_zero() {
        return Ok(());
    }
    let at = MarkKey {
        hash: *hash,
        kind,
        id: NodeId::root(),
    };
    stack.push(Todo { at, parent: None })?;
    Ok(())
}

// No header is stored.
fn without_header(alloc: Global) -> Result<Found, Memory>
    ensures seen { IfOk result (λ f. shown f ≡ noted nothing_seen (lacks Place.Header)) }
    ensures header { IfOk result (λ f. f.header ≡ None) }
    ensures known { IfOk result IsFound }
    ensures unclean { IfOk result (λ f. IsClean f → ⊥) }
{
    let mut found = Found::new(alloc);
    found.add_missing(Place::Header)?;
    Ok(found)
}

// What is stored is no header.
fn foreign_header(alloc: Global) -> Found
    ensures seen { shown result ≡ noted nothing_seen (breaks Place.Header ShapeFault.Foreign) }
    ensures header { result.header ≡ None }
    ensures known { IsFound result }
    ensures unclean { IsClean result → ⊥ }
{
    let mut found = Found::new(alloc);
    found.add_broken(Place::Header, ShapeFault::Foreign);
    found
}
