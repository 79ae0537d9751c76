//! A map that shares its nodes with its snapshots: what it is made of, how it begins, and what it tells of itself.
ghost use Rattle.std.specs.Prelude.{◌≡◌, ◌≢◌, ◌≤◌, [], length, Some, IfOk, MatchBool, MatchOption};
ghost use Rattle.std.specs.List.{slice_get};
ghost use Rattle.ledger_spec.specs.Bytes.{Half, Items, Lookup};
ghost use Rattle.ledger_spec.specs.Commits.{IsWholeMap};
ghost use Rattle.ledger_spec.specs.Findings.{items_of};
ghost use Rattle.cow_map.specs.Trees.{link_to, StandsFor};
ghost use Rattle.cow_map.specs.Laws.{IsSized};
ghost use Rattle.cow_map.specs.Bodies.{IsBelow, AreBodies};
ghost use Rattle.cow_map.specs.Shown.{body_of};

use crate::arena::Arena;
use crate::{Cow, Link};
use half_hash::{Hash32, Memory};
use ledger_spec::Kind;
use std::alloc::Global;
use std::marker::Model;

/// A finite map from keys to data, together with what a source holds. Contracts see its kind, its nodes
/// and the link to the top one; `StandsFor` says which map that is.
///
/// After the keys 10.. and 11.. were put into the empty map, its list of nodes is
///
///     0  leaf 10..
///     1  inner, branch 1 to 0                  the top after the first
///     2  leaf 11..
///     3  inner, branch 0 to 0, branch 1 to 2
///     4  inner, branch 1 to 3                  the top after the second
///
/// A snapshot between the two has the nodes 0 and 1, and its top is 1.
#[derive(Drop)]
pub struct CowMap {
    pub(crate) kind: Kind,
    pub(crate) nodes: Arena,
    pub(crate) top: Link,
}

impl Model for CowMap {
    ghost use Rattle.std.specs.Prelude.{length};
    ghost use Rattle.cow_map.specs.Bodies.{CowTree, IsBelow};

    ghost Value = { CowTree };

    ghost view = { λ a. record { kind = a.kind; nodes = a.nodes; top = a.top } };

    ghost invariant = { λ a. IsBelow (length a.nodes) a.top };
}

impl CowMap {
    /// The empty map. It takes no memory.
    pub fn new(alloc: Global, kind: Kind) -> CowMap
        ensures kind { result.kind ≡ kind }
        ensures stands { (half : Half) (stored : Lookup) → StandsFor half stored result [] }
    {
        CowMap {
            kind,
            nodes: Arena::new(alloc),
            top: Link::Empty,
        }
    }

    /// The map whose root has this hash in a source. It takes no memory.
    pub fn over(alloc: Global, kind: Kind, root: &Hash32) -> CowMap
        ensures parts { result ≡ record { kind = kind; nodes = []; top = link_to root.now } }

        // where the root's tree is whole, this is the map of its leaves
        ensures stands { (half : Half) (stored : Lookup) → IsSized half → IsWholeMap half stored kind root.now →
            StandsFor half stored result (items_of half stored kind root.now) }
    {
        CowMap {
            kind,
            nodes: Arena::new(alloc),
            top: Link::to(root),
        }
    }

    /// Whether the map is empty.
    pub fn is_empty(&self) -> bool
        ensures { (half : Half) (stored : Lookup) (items : Items) → StandsFor half stored self.now items →
            MatchBool result (items ≡ []) (items ≢ []) }
    {
        match self.top {
            Link::Empty => true,
            _ => false,
        }
    }

    /// The same map again, which shares all nodes with this one.
    pub fn snapshot(&self, alloc: Global) -> Result<CowMap, Memory>
        ensures { IfOk result (λ m. m ≡ self.now) }
    {
        let nodes = self.nodes.copy(alloc)?;
        Ok(CowMap {
            kind: self.kind,
            nodes,
            top: self.top,
        })
    }

    /// The kind of its leaves.
    pub fn kind(&self) -> Kind
        ensures { result ≡ self.now.kind }
    {
        self.kind
    }

    /// The link to the top node.
    pub fn top(&self) -> Link
        ensures { result ≡ self.now.top }
    {
        self.top
    }

    /// How many nodes the map's list has.
    pub fn node_count(&self) -> usize
        ensures { result ≡ length self.now.nodes }
    {
        self.nodes.len()
    }

    /// The node at a place of the map's list, or None behind its end.
    pub fn node(&self, at: usize) -> Option<&Cow>
        ensures { MatchOption result (length self.now.nodes ≤ at)
            (λ node. slice_get self.now.nodes at ≡ Some (body_of node.now)) }
    {
        if at < self.nodes.len() {
            Some(self.nodes.get(at))
        } else {
            None
        }
    }

    /// Tells a proof that the links name nodes of the list, and those of a node lower ones.
    pub fn known(&self)
        ensures nodes { AreBodies self.now.nodes }
        ensures top { IsBelow (length self.now.nodes) self.now.top }
    {
        self.nodes.known();
        let _top = &self.top;
    }
}
