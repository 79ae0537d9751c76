//! `get`: down from the top link to the leaf of a key, and its data.
ghost use Rattle.std.specs.Prelude.{◌≡◌, ◌-◌, ◌∷◌, [], length, IsTrue, IfOk, IfErr};
ghost use Rattle.std.specs.FinMap as map;
ghost use Rattle.ledger_spec.specs.Maps.{hash_cmp, get_in};
ghost use Rattle.path_proof.specs.Sources.{LeavesSource};
ghost use Rattle.cow_map.specs.Ways.{stop_at, Goes, IsSourceFault, stop_of, IsFailure};
ghost use Rattle.cow_map.specs.Edits.{Gets, IsOnWay};
ghost use Rattle.ledger_spec.specs.Bytes.{Items};
ghost use Rattle.cow_map.specs.Trees.{StandsFor};

use crate::arena::Arena;
use crate::look::{Seen, look};
use crate::map::CowMap;
use crate::step::{below, toward};
use crate::{Link, MapFault};
use half_hash::{Blob, Hash32, NodeHash};
use ledger_spec::Kind;
use nib_path::NodeId;
use path_proof::NodeSource;
use std::alloc::Global;

impl CowMap {
    /// The data of a key.
    pub fn get<H: NodeHash, S: NodeSource<H>>(
        &self,
        alloc: Global,
        source: &mut S,
        key: &Hash32,
    ) -> Result<Option<Blob>, MapFault>
        ensures value { IsTrue S.tells → IfOk result (λ found. (items : Items) →
            StandsFor H.half (map.get (S.stored source.old)) self.now items → found ≡ get_in hash_cmp items key.now) }

        // what the source lacks, or what breaks a rule of shape, is named exactly where it is the first such on the way
        ensures way { IsTrue S.tells → Goes (stop_of H.half (map.get (S.stored source.old)) self.now key.now) result }

        // where the map stands for something, only a failure of the source or want of memory comes
        ensures free { IsTrue S.tells → (items : Items) →
            StandsFor H.half (map.get (S.stored source.old)) self.now items → IfErr result IsFailure }
        ensures source { LeavesSource S.tells S.stored S.rest S.faults IsSourceFault source.old source.new result }
    {
        let top = self.top;
        get_at::<H, S>(
            alloc,
            &self.nodes,
            source,
            self.kind,
            false,
            &NodeId::root(),
            &top,
            key,
        )
    }
}

// The data of a key in what a link stands for, at a place on the way to the key.
fn get_at<H: NodeHash, S: NodeSource<H>>(
    alloc: Global,
    arena: &Arena,
    source: &mut S,
    kind: Kind,
    lone: bool,
    id: &NodeId,
    link: &Link,
    key: &Hash32,
) -> Result<Option<Blob>, MapFault>
    requires { IsOnWay arena.now id.now link.now key.now }
    ensures gets { IsTrue S.tells → IfOk result
        (Gets H.half (map.get (S.stored source.old)) kind arena.now (64 - length id.now) id.now link.now key.now) }
    ensures way { IsTrue S.tells →
        Goes (stop_at H.half (map.get (S.stored source.old)) kind arena.now (64 - length id.now) lone id.now link.now key.now) result }
    ensures source { LeavesSource S.tells S.stored S.rest S.faults IsSourceFault source.old source.new result }
{
    match look::<H, S>(alloc, arena, source, kind, lone, id, link)? {
        Seen::Nothing => Ok(None),
        Seen::Leaf(own, data) => Ok(if_same(own, data, key)),
        Seen::Inner(links) => {
            let b = toward(id, key);
            Ok(get_at::<H, S>(
                alloc,
                arena,
                source,
                kind,
                links.is_only(),
                &below(id, b),
                &links.get(b),
                key,
            )?)
        }
    }
}

// A leaf's data, if this is its key.
fn if_same(own: Hash32, bytes: Blob, key: &Hash32) -> Option<Blob>
    ensures { result ≡ get_in hash_cmp ((own, bytes) ∷ []) key.now }
{
    if own.equals(key) { Some(bytes) } else { None }
}
