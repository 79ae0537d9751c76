//! The pass itself: items come in, and at the end the root comes out. What is held is the last item and the rows of the open nodes.
ghost use Rattle.std.specs.Prelude.{◌≡◌, ◌≢◌, ◌<◌, ◌≤◌, ◌+◌, ◌++◌, ◌∷◌, [], ℕ, Some, None, length, IfOk, IfErr, OnOk, OnErr, MatchBool};
ghost use Rattle.std.specs.declared.cmp.Ordering.TheVariants.{Less};
ghost use Rattle.ledger_spec.specs.declared.Kind.{Kind as AnyKind};
ghost use Rattle.ledger_spec.specs.Bytes.{Items, Half};
ghost use Rattle.ledger_spec.specs.Maps.{hash_cmp};
ghost use Rattle.ledger_spec.specs.Tree.{root_of};
ghost use Rattle.root_pass.specs.Rows.{IsFork, IsFull, IsBehind};
ghost use Rattle.root_pass.specs.Passed.{HasPassed, IsLast, Waits};

use crate::forms::leaf_hash;
use crate::rows::Rows;
use half_hash::{Hash32, Memory, NodeHash};
use ledger_spec::Kind;
use nib_path::nibble;
use std::alloc::Global;
use std::cmp::Ordering;

/// The last item: its key, and the hash of its leaf.
#[derive(Clone, Copy)]
pub struct Last {
    key: Hash32,
    hash: Hash32,
}

/// A map's items so far, of which all but the last have their places.
#[derive(Drop)]
pub struct Pass {
    kind: Kind,
    rows: Rows,
    last: Option<Last>,
}

/// A key isn't greater than the one before it.
#[derive(Clone, Copy, Debug, PartialEq, Eq)]
pub struct NotBehind {
    /// The key before it.
    pub before: Hash32,
}

impl Pass {
    /// No item. Memory is taken here alone.
    pub fn new(alloc: Global, kind: Kind) -> Result<Pass, Memory>
        ensures kind { IfOk result (λ pass. pass.kind ≡ kind) }
        ensures none { IfOk result (λ pass. (half : Half) → HasPassed half pass []) }
    {
        let rows = Rows::new(alloc)?;
        Ok(Pass {
            kind,
            rows,
            last: None,
        })
    }

    /// One item more, whose key is to be greater than those before.
    pub fn add<H: NodeHash>(&mut self, key: &Hash32, bytes: &[u8]) -> Result<(), NotBehind>
        ensures kind { self.new.kind ≡ self.old.kind }
        ensures passed { OnOk result ((items : Items) → HasPassed H.half self.old items
            → IsBehind items key.now × HasPassed H.half self.new (items ++ (key.now, bytes.now) ∷ [])) }
        ensures err { OnErr result (self.new ≡ self.old) }
        ensures cause { OnErr result ((items : Items) → HasPassed H.half self.old items → IsBehind items key.now → ⊥) }
        ensures before { IfErr result (λ e. (items : Items) → HasPassed H.half self.old items → IsLast items e.before) }
    {
        key.known();
        let hash = leaf_hash::<H>(self.kind, key, bytes);
        if let Some(last) = self.last {
            if !is_less(&last.key, key) {
                return Err(NotBehind { before: last.key });
            }
            last.key.known();
            let same = common(&last.key, key) as usize;
            settle::<H>(&mut self.rows, &last, same + 1);
        }
        self.last = Some(Last { key: *key, hash });
        Ok(())
    }

    /// The root of the map of all items.
    pub fn root<H: NodeHash>(self) -> Hash32
        ensures { (items : Items) → HasPassed H.half self items → result ≡ root_of H.half self.kind items }
    {
        let mut rows = self.rows;
        match self.last {
            None => Hash32::zero(),
            Some(last) => {
                settle::<H>(&mut rows, &last, 1);
                rows.lowest_hash::<H>()
            }
        }
    }
}

// Whether the first key is less than the second.
fn is_less(a: &Hash32, b: &Hash32) -> bool
    ensures { MatchBool result (hash_cmp a.now b.now ≡ Less) (hash_cmp a.now b.now ≢ Less) }
{
    match a.cmp(b) {
        Ordering::Less => true,
        _ => false,
    }
}

// How many nibbles two keys have in common.
fn common(a: &Hash32, b: &Hash32) -> u8
    ensures few { result ≤ 64 }
    ensures fork { IsFork a.now b.now result }
{
    a.known();
    b.known();
    for i in 0..64u8 {
        if nibble(&a.bytes, i) != nibble(&b.bytes, i) {
            return i;
        }
    }
    64
}

// The last item gets its place, and so many nodes stay open.
fn settle<H: NodeHash>(rows: &mut Rows, last: &Last, depth: usize)
    requires some { 0 < depth }
    requires few { depth ≤ 64 }
    ensures depth { rows.new.depth ≡ depth }
    ensures full { (kind : AnyKind) (items : Items) → Waits H.half kind rows.old items last.now
        → IsFull H.half kind items last.now.key rows.new.cells.items depth }
{
    rows.open_to(depth);
    rows.put_leaf(&last.key, last.hash);
    rows.close_to::<H>(&last.key, depth);
}
