//! The rows of the open inner nodes: sixteen hashes for each depth on the way of the last key.
ghost use Rattle.std.specs.Prelude.{◌≡◌, ◌≢◌, ◌<◌, ◌≤◌, ◌+◌, ◌-◌, ◌*◌, ◌++◌, ◌∷◌, [], ℕ, length, take, drop};
ghost use Rattle.std.specs.Prelude.{slice_set, vec_len, IfOk};
ghost use Rattle.std.specs.List.{concat};
ghost use Rattle.nib_path.specs.Paths.{nibble_of};
ghost use Rattle.ledger_spec.specs.declared.Kind.{Kind as AnyKind};
ghost use Rattle.ledger_spec.specs.Bytes.{Bytes, Hash, Items, zero_hash};
ghost use Rattle.ledger_spec.specs.Forms.{inner_prefix, leaf_form};
ghost use Rattle.root_pass.specs.Rows.{cell, hash_at, IsOpen, IsFull, IsShared, IsCrowded};

use crate::forms::inner_hash;
use half_hash::{Hash32, Memory, NodeHash};
use nib_path::nibble;
use std::alloc::Global;

/// How many cells there are: sixteen for each depth above the leaves of the bottom.
const CELLS: usize = 1024;

/// The open inner nodes, from the root on down, one row of sixteen cells each. A map has an open root before its first item.
#[derive(Drop)]
pub struct Rows {
    cells: Vec<Hash32>,
    depth: usize,
    ghost size: { vec_len cells ≡ 1024 },
    ghost some: { 0 < depth },
    ghost few: { depth ≤ 64 },
}

impl Rows {
    /// The root alone, empty.
    pub(crate) fn new(alloc: Global) -> Result<Rows, Memory>
        ensures depth { IfOk result (λ rows. rows.depth ≡ 1) }
        ensures zero { IfOk result (λ rows. (b : ℕ) → b < 16 → cell rows.cells.items 0 b ≡ zero_hash) }
    {
        let cells = vec![in alloc; Hash32::zero(); CELLS]?;
        Ok(Rows { cells, depth: 1 })
    }

    /// Opens nodes down to so many, with no branch.
    pub(crate) fn open_to(&mut self, depth: usize)
        requires few { depth ≤ 64 }
        ensures at_least { depth ≤ self.new.depth }
        ensures kept { depth ≤ self.old.depth → self.new.depth ≡ self.old.depth }
        ensures opened { self.old.depth < depth → self.new.depth ≡ depth }
        ensures stays { (half : Bytes → Hash) (kind : AnyKind) (items : Items) (key : Hash) → length key ≡ 32
            → IsOpen half kind items key self.old.cells.items self.old.depth
            → IsOpen half kind items key self.new.cells.items self.new.depth }
    {
        while self.depth < depth {
            self.clear(self.depth);
            self.depth += 1;
        }
    }

    // Sets the cells of a row to zero.
    fn clear(&mut self, row: usize)
        requires { row < 64 }
        ensures zero { (b : ℕ) → b < 16 → cell self.new.cells.items row b ≡ zero_hash }
        ensures others { (j b : ℕ) → j ≢ row → b < 16 → cell self.new.cells.items j b ≡ cell self.old.cells.items j b }
        ensures depth { self.new.depth ≡ self.old.depth }
    {
        for b in 0..16u8 {
            self.set(row, b, Hash32::zero());
        }
    }

    // Sets one cell.
    fn set(&mut self, row: usize, b: u8, hash: Hash32)
        requires row { row < 64 }
        requires branch { b < 16 }
        ensures this { cell self.new.cells.items row b ≡ hash }
        ensures others { (j c : ℕ) → c < 16 → (j ≡ row → c ≢ b) → cell self.new.cells.items j c ≡ cell self.old.cells.items j c }
        ensures depth { self.new.depth ≡ self.old.depth }
    {
        self.cells[16 * row + b as usize] = hash;
    }

    /// The leaf of the last item is put under the lowest of the open nodes.
    pub(crate) fn put_leaf(&mut self, key: &Hash32, hash: Hash32)
        ensures depth { self.new.depth ≡ self.old.depth }
        ensures full { (half : Bytes → Hash) (kind : AnyKind) (items : Items) (bytes : Bytes) → hash ≡ half (leaf_form kind key.now bytes)
            → IsOpen half kind items key.now self.old.cells.items self.old.depth
            → IsFull half kind (items ++ (key.now, bytes) ∷ []) key.now self.new.cells.items self.new.depth }
    {
        key.known();
        let row = self.depth - 1;
        self.set(row, nibble(&key.bytes, row as u8), hash);
    }

    /// Closes the nodes on the way of the last key that are deeper than so many: each is hashed, and its hash put into the one above.
    pub(crate) fn close_to<H: NodeHash>(&mut self, key: &Hash32, depth: usize)
        requires { 0 < depth }
        ensures depth { depth ≤ self.old.depth → self.new.depth ≡ depth }
        ensures full { (kind : AnyKind) (items : Items) → (depth < self.old.depth → IsCrowded items key.now self.old.depth)
            → IsFull H.half kind items key.now self.old.cells.items self.old.depth
            → IsFull H.half kind items key.now self.new.cells.items self.new.depth }
    {
        key.known();
        while self.depth > depth {
            let hash = self.lowest_hash::<H>();
            self.depth -= 1;
            let row = self.depth - 1;
            self.set(row, nibble(&key.bytes, row as u8), hash);
        }
    }

    /// The hash of the lowest of the open nodes.
    pub(crate) fn lowest_hash<H: NodeHash>(&self) -> Hash32
        ensures long { length self.now.cells.items ≡ 1024 }
        ensures hash { result ≡ H.half (inner_prefix ++ concat (take 16 (drop (16 * (self.now.depth - 1)) self.now.cells.items))) }
    {
        let (_, from) = self.cells.split_at(16 * (self.depth - 1));
        let (row, _) = from.split_at(16);
        inner_hash::<H>(row)
    }
}
