//! The list of nodes that a map and its snapshots have made. A link names a node by its place in the list, and the links of a node name
//! lower places, so that no node is below itself.
ghost use Rattle.std.specs.Prelude.{◌≡◌, ◌<◌, ◌≤◌, ◌+◌, ℕ, [], ◌∷◌, ◌++◌, length, map, take, Some, IfOk, OnOk, OnErr};
ghost use Rattle.std.specs.List.{slice_get, slice_index_or};
ghost use Rattle.cow_map.specs.declared.link.Link.TheVariants as links_are;
ghost use Rattle.cow_map.specs.Bodies.{Body, leaf as leaf_body, inner as inner_body, IsBelow, AreBodies};
ghost use Rattle.cow_map.specs.Gathered.{moved_body};
ghost use Rattle.cow_map.specs.Shown.{body_of};

use crate::{Cow, Link, Links};
use half_hash::Memory;
use shamap_node::Item;
use std::alloc::Global;
use std::marker::Model;
use std::sync::Arc;

/// The nodes that a map and those that it shares with have made, in the order in which they were made: the
/// links of a node name lower places. Contracts see the list of what they are.
#[derive(Drop)]
pub struct Arena {
    nodes: Vec<Arc<Cow>>,
}

impl Model for Arena {
    ghost use Rattle.std.specs.Prelude.{List};
    ghost use Rattle.cow_map.specs.Bodies.{Body, AreBodies};

    ghost Value = { List Body };

    ghost use Rattle.cow_map.specs.Shown.{bodies_of};

    ghost view = { λ a. bodies_of a.nodes.items };

    ghost invariant = { λ a. AreBodies (bodies_of a.nodes.items) };
}

impl Arena {
    /// No nodes.
    pub fn new(alloc: Global) -> Arena
        ensures { result ≡ [] }
    {
        Arena {
            nodes: Vec::new(alloc),
        }
    }

    /// How many there are.
    pub fn len(&self) -> usize
        ensures { result ≡ length self.now }
    {
        self.nodes.len()
    }

    /// The node at a place.
    pub fn get(&self, at: usize) -> &Cow
        requires { at < length self.now }
        ensures { slice_get self.now at ≡ Some (body_of result.now) }
    {
        &self.nodes[at]
    }

    /// A new leaf, and the link to it.
    pub fn push_leaf(&mut self, alloc: Global, item: Item) -> Result<Link, Memory>
        ensures ok { IfOk result (λ link.
            (link ≡ links_are.Own (length self.old)) × (self.new ≡ self.old ++ leaf_body item.key item.value ∷ [])) }
        ensures err { OnErr result (self.new ≡ self.old) }
    {
        let at = self.nodes.len();
        self.nodes.push(Arc::new(alloc, Cow::Leaf(item))?)?;
        Ok(Link::Own(at))
    }

    /// A new inner node, and the link to it.
    pub fn push_inner(&mut self, alloc: Global, links: Links) -> Result<Link, Memory>
        requires { (b : ℕ) → IsBelow (length self.old) (slice_index_or links b links_are.Empty) }
        ensures ok { IfOk result (λ link. (link ≡ links_are.Own (length self.old)) × (self.new ≡ self.old ++ inner_body links ∷ [])) }
        ensures err { OnErr result (self.new ≡ self.old) }
    {
        links.known();
        let at = self.nodes.len();
        self.nodes.push(Arc::new(alloc, Cow::Inner(links))?)?;
        Ok(Link::Own(at))
    }

    /// The nodes of another list behind these, with their links moved by how many these are.
    pub fn append(&mut self, alloc: Global, other: &Arena) -> Result<(), Memory>
        ensures { OnOk result (self.new ≡ self.old ++ map (moved_body (length self.old)) other.now) }
    {
        other.known();
        let n = self.len();
        for at in 0..other.len() {
            self.append_one(alloc, n, other, at)?;
        }
        Ok(())
    }

    // The node at a place of another list behind these, with its links moved by n. A leaf is shared.
    fn append_one(
        &mut self,
        alloc: Global,
        n: usize,
        other: &Arena,
        at: usize,
    ) -> Result<(), Memory>
        requires place { at < length other.now }
        requires moved { length self.old ≡ at + n }
        ensures { OnOk result ((body : Body) → slice_get other.now at ≡ Some body → self.new ≡ self.old ++ moved_body n body ∷ []) }
    {
        other.known();
        match other.get(at) {
            Cow::Leaf(_) => {
                self.nodes.push(Arc::try_clone(&other.nodes[at])?)?;
            }
            Cow::Inner(links) => {
                let moved = links.moved(alloc, n)?;
                self.push_inner(alloc, moved)?;
            }
        }
        Ok(())
    }

    /// The same nodes again, shared.
    pub fn copy(&self, alloc: Global) -> Result<Arena, Memory>
        ensures { IfOk result (λ nodes. nodes ≡ self.now) }
    {
        let mut nodes = Vec::new(alloc);
        for node in &self.nodes {
            nodes.push(Arc::try_clone(node)?)?;
        }
        Ok(Arena { nodes })
    }

    /// The first n of them.
    pub fn truncate(&mut self, n: usize)
        ensures { self.new ≡ take n self.old }
    {
        self.nodes.truncate(n);
    }

    /// Tells a proof that the links of each node name lower places.
    pub fn known(&self)
        ensures { AreBodies self.now }
    {
        let _nodes = &self.nodes;
    }
}
