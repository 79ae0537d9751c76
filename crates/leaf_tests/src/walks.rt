//! A walk that copies a ledger hash by hash.
use crate::records::expand;
use copy_walk::{CopyWalk, Left};
use half_hash::{Hash32, NodeHash, TinyHash};
use node_backend::{MemShelf, Shelf};
use rotating_store::RotStore;
use std::alloc::Global;
use std::test::Fail;

/// The header, the root and the leaf of a ledger, in which `_` stands for 64 zeros; their hashes are DD, DE and FA, with zeros behind.
const FORMS: [&str; 3] = [
    "4C5752000000000A0000000000000000__DE0000000000000000000000000000000000000000000000000000000000000000000000000000000000",
    "4D494E00_FA00000000000000000000000000000000000000000000000000000000000000______________",
    "4D4C4E0001021000000000000000000000000000000000000000000000000000000000000000",
];

/// The text with its zeros, as bytes.
fn bytes_of(alloc: Global, short: &str) -> Result<Vec<u8>, Fail> {
    let text = expand(alloc, short)?;
    Ok(hex::decode(alloc, &text)?)
}

/// Stores the forms, and tells the hash of the first.
fn store_all(alloc: Global, store: &mut RotStore<MemShelf>) -> Result<Hash32, Fail> {
    let mut first = Hash32::zero();
    for short in FORMS {
        let form = bytes_of(alloc, short)?;
        let hash = TinyHash::half(&form);
        if store.put::<TinyHash>(alloc, &hash, &form).is_err() {
            return Err("not stored".into());
        }
        if first.is_zero() {
            first = hash;
        }
    }
    Ok(first)
}

/// A store over the shelf, where one can be opened.
fn store_on<Sh: Shelf>(alloc: Global, shelf: Sh) -> Option<RotStore<Sh>> {
    RotStore::open(alloc, shelf).ok()
}

/// An empty store, where one can be opened.
pub(crate) fn empty(alloc: Global) -> Option<RotStore<MemShelf>> {
    let shelf = MemShelf::new(alloc, Vec::new(alloc), Vec::new(alloc));
    store_on(alloc, shelf)
}

/// What a slice of one hash answers.
fn said(alloc: Global, walk: &mut CopyWalk, store: &mut RotStore<MemShelf>) -> &'static str {
    match walk.slice(alloc, store, 1) {
        Ok(Left::More) => "more",
        Ok(Left::Done) => "done",
        Err(_) => "refused",
    }
}

#[test]
fn a_ledger_is_copied_hash_by_hash(rt: HostRuntime) -> Result<(), Fail> {
    let alloc = rt.alloc();
    let mut store = empty(alloc).ok_or("no store")?;
    let root = store_all(alloc, &mut store)?;
    let mut walk = CopyWalk::start(alloc, &[root])?;
    for answer in ["more", "more", "done"] {
        assert_eq!(rt; said(alloc, &mut walk, &mut store), answer);
    }
    assert!(rt; walk.is_done());
    Ok(())
}
