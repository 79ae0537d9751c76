//! Maps that are made at once: of items whose keys rise, and of sixteen maps with the parts of one. These leave nothing to a source.
ghost use Rattle.std.specs.Prelude.{◌≡◌, ◌<◌, ◌++◌, ℕ, [], length, vec_len, IfOk, map as list_map};
ghost use Rattle.std.specs.List.{flat_map, slice_index_or};
ghost use Rattle.ledger_spec.specs.Bytes.{Half, Items, Lookup, branches};
ghost use Rattle.ledger_spec.specs.Maps.{hash_cmp, IsMap};
ghost use Rattle.cow_map.specs.declared.fault.MapFault.TheVariants as causes;
ghost use Rattle.cow_map.specs.Trees.{StandsFor};
ghost use Rattle.half_hash.specs.Half.{sha512_half};
ghost use Rattle.cow_map.specs.Gathered.{entries_of, nothing_held, moved_link, moved_body, branch_at, ArePartsOf};
ghost use Rattle.cow_map.specs.Edits.{SettlesAt};
ghost use Rattle.cow_map.specs.Bodies.{IsBelow};
ghost use Rattle.cow_map.specs.declared.link.Link.TheVariants.{Empty as empty_link};

use crate::arena::Arena;
use crate::map::CowMap;
use crate::remove::settle;
use crate::sorted::inner_of;
use crate::{Cow, Link, Links, MapFault};
use half_hash::{Half512, Memory};
use ledger_spec::Kind;
use nib_path::NodeId;
use path_proof::NoSource;
use shamap_node::Item;
use std::alloc::Global;

impl CowMap {
    /// The map of items whose keys rise. It leaves nothing to a source.
    pub fn from_sorted(alloc: Global, kind: Kind, items: Vec<Item>) -> Result<CowMap, Memory>
        requires { IsMap hash_cmp (entries_of items.items) }
        ensures kind { IfOk result (λ m. m.kind ≡ kind) }
        ensures stands { IfOk result (λ m. (half : Half) (stored : Lookup) → StandsFor half stored m (entries_of items.items)) }
    {
        if items.is_empty() {
            return Ok(CowMap::new(alloc, kind));
        }
        let mut rest = items;
        let mut nodes = Arena::new(alloc);
        let top = inner_of(alloc, &mut nodes, &mut rest, &NodeId::root())?;
        Ok(CowMap { kind, nodes, top })
    }

    /// The union of sixteen maps of this kind that leave nothing to a source, where the keys of each begin with its number as their
    /// first nibble.
    pub fn gather(alloc: Global, kind: Kind, parts: Vec<CowMap>) -> Result<CowMap, Memory>
        requires { vec_len parts ≡ 16 }
        ensures kind { IfOk result (λ m. m.kind ≡ kind) }
        ensures stands { IfOk result (λ m. (kids : ℕ → Items) → ArePartsOf kind parts.items kids →
            (half : Half) (stored : Lookup) → StandsFor half stored m (flat_map kids branches)) }
    {
        let mut nodes = Arena::new(alloc);
        let mut links = Links::none();
        for b in 0..16u8 {
            nodes.known();
            links.known();
            let link = parts[b as usize].append_to(alloc, b, &mut nodes)?;
            links = links.with(alloc, b, link)?;
        }
        let top = top_over(alloc, kind, &mut nodes, links)?;
        Ok(CowMap { kind, nodes, top })
    }

    // Puts its nodes behind those of a list, and gives the link to what stands there at a branch of its top.
    fn append_to(&self, alloc: Global, b: u8, nodes: &mut Arena) -> Result<Link, Memory>
        requires { b < 16 }
        ensures grows { IfOk result (λ link. nodes.new ≡ nodes.old ++ list_map (moved_body (length nodes.old)) self.now.nodes) }
        ensures link { IfOk result (λ link. link ≡ moved_link (length nodes.old) (branch_at b self.now.nodes self.now.top)) }
        ensures below { IfOk result (IsBelow (length nodes.new)) }
    {
        let n = nodes.len();
        nodes.append(alloc, &self.nodes)?;
        self.branch(b).moved(n)
    }

    // The link of a branch of the top node, where the map has made that.
    fn branch(&self, b: u8) -> Link
        requires { b < 16 }
        ensures value { result ≡ branch_at b self.now.nodes self.now.top }
        ensures below { IsBelow (length self.now.nodes) result }
    {
        self.nodes.known();
        match self.top {
            Link::Own(at) => match self.nodes.get(at) {
                Cow::Inner(links) => links.get(b),
                Cow::Leaf(_) => Link::Empty,
            },
            _ => Link::Empty,
        }
    }
}

// The top node over these links: an inner node, or none where no link leads anywhere.
fn top_over(alloc: Global, kind: Kind, nodes: &mut Arena, links: Links) -> Result<Link, Memory>
    requires { (b : ℕ) → IsBelow (length nodes.old) (slice_index_or links b empty_link) }
    ensures below { IfOk result (IsBelow (length nodes.new)) }
    ensures stands { IfOk result (SettlesAt sha512_half nothing_held kind nodes.old nodes.new 63 [] links) }
{
    let root = NodeId::root();
    match settle::<Half512, NoSource>(alloc, nodes, &mut NoSource, kind, &root, links) {
        Ok(top) => Ok(top),
        // one looks nowhere at the root, and a source that holds nothing doesn't fail
        Err(fault) => Err(want_of_memory(fault)),
    }
}

// The want of memory that a fault is.
fn want_of_memory(fault: MapFault) -> Memory
    requires { fault ≡ causes.Memory }
{
    match fault {
        MapFault::Memory => Memory,
        _ => unreachable!(),
    }
}
