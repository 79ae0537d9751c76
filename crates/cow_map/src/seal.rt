//! Sealing: a map's root hash, and the forms of those of its own nodes that the top reaches, each with its hash.
ghost use Rattle.std.specs.Prelude.{◌≡◌, ◌<◌, length, IfErr, IfOk, Some};
ghost use Rattle.std.specs.List.{slice_get};
ghost use Rattle.cow_map.specs.Bodies.{inner as inner_body, IsBelow};
ghost use Rattle.cow_map.specs.Sealing.{Seals, SealsForm, Adds, AreNamed, IsSealFault, IsSealOf, first_zero, made_of_map, NamesZero};
ghost use Rattle.ledger_spec.specs.Bytes.{Items, Lookup};
ghost use Rattle.cow_map.specs.Trees.{StandsFor};

use crate::arena::Arena;
use crate::map::CowMap;
use crate::{Cow, Link, Links, MapFault};
use half_hash::{Blob, Hash32, NodeHash};
use ledger_spec::Kind;
use shamap_node::{InnerForm, leaf_form};
use std::alloc::Global;

/// A form and its hash.
#[derive(Drop)]
pub struct FormOf {
    pub hash: Hash32,
    pub form: Blob,
}

/// The root hash of a map, and the forms of the nodes that it has made.
#[derive(Drop)]
pub struct Sealed {
    pub root: Hash32,
    pub forms: Vec<FormOf>,
}

impl CowMap {
    /// The root hash, and the forms of the nodes that this map has made and that its top reaches, each
    /// once, branches rising and kids before their parent.
    pub fn seal<H: NodeHash>(&self, alloc: Global) -> Result<Sealed, MapFault>
        ensures seals { IfOk result (IsSealOf H.half self.now) }

        // a form that is made here and has the zero hash is named, the first in that order
        ensures zero { (stored : Lookup) (items : Items) → StandsFor H.half stored self.now items →
            NamesZero (first_zero H.half (made_of_map H.half self.now)) result }
        ensures cause { IfErr result IsSealFault }
    {
        let mut forms = Vec::new(alloc);
        let root = seal_link::<H>(alloc, &self.nodes, self.kind, &self.top, &mut forms)?;
        Ok(Sealed { root, forms })
    }
}

// The hash that a link stands for. The forms of the nodes of the list that it reaches are added, branches
// rising and kids before their parent, up to the first whose hash is zero, which is the fault.
#[cycle(sealing)]
fn seal_link<H: NodeHash>(
    alloc: Global,
    arena: &Arena,
    kind: Kind,
    link: &Link,
    forms: &mut Vec<FormOf>,
) -> Result<Hash32, MapFault>
    requires { IsBelow (length arena.now) link.now }
    ensures seals { Seals H.half kind arena.now link.now forms.old.items forms.new.items result }
    ensures named { AreNamed H.half forms.old.items → AreNamed H.half forms.new.items }
    ensures cause { IfErr result IsSealFault }
{
    arena.known();
    let at = match link {
        Link::Empty => return Ok(Hash32::zero()),
        Link::Unloaded(hash) => return Ok(*hash),
        Link::Own(at) => *at,
    };
    match arena.get(at) {
        Cow::Leaf(item) => {
            let form = leaf_form(alloc, kind, item)?;
            add::<H>(forms, form)
        }
        Cow::Inner(links) => {
            let form = sealed_inner::<H>(alloc, arena, kind, at, links, forms)?;
            add::<H>(forms, form)
        }
    }
}

// The form of the inner node at a place of the list, with these links.
#[cycle(sealing)]
fn sealed_inner<H: NodeHash>(
    alloc: Global,
    arena: &Arena,
    kind: Kind,
    at: usize,
    links: &Links,
    forms: &mut Vec<FormOf>,
) -> Result<Blob, MapFault>
    requires place { at < length arena.now }
    requires node { slice_get arena.now at ≡ Some (inner_body links.now) }
    ensures seals { SealsForm H.half kind arena.now links.now forms.old.items forms.new.items result }
    ensures named { AreNamed H.half forms.old.items → AreNamed H.half forms.new.items }
    ensures cause { IfErr result IsSealFault }
{
    arena.known();
    links.known();
    let mut made = InnerForm::begin(alloc)?;
    for b in 0..16u8 {
        let hash = seal_link::<H>(alloc, arena, kind, &links.get(b), forms)?;
        made.add(&hash)?;
    }
    Ok(made.end())
}

// Adds a form, unless its hash is zero.
fn add<H: NodeHash>(forms: &mut Vec<FormOf>, form: Blob) -> Result<Hash32, MapFault>
    ensures adds { Adds H.half form forms.old.items forms.new.items result }
    ensures named { AreNamed H.half forms.old.items → AreNamed H.half forms.new.items }
    ensures cause { IfErr result IsSealFault }
{
    let hash = H::half(form.bytes());
    if hash.is_zero() {
        return Err(MapFault::ZeroHash(form));
    }
    match forms.push(FormOf { hash, form }) {
        Ok(()) => Ok(hash),
        Err(_) => Err(MapFault::Memory),
    }
}
