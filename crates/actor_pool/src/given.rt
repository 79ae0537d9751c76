//! Nodes that several reads lack, as the core gives their bytes in one section.
ghost use Rattle.std.specs.Prelude.{◌≡◌, IfSome, IsTrue};

use half_hash::{Blob, Hash32, NodeHash};
use node_backend::{Backend, Shelf};
use std::alloc::Global;
use std::marker::PhantomData;

/// How many nodes a path has at most below its root.
const LEVELS: usize = 64;

/// Where a read came that lacks a node: which read it is, the node's hash, its depth, and the key that the read goes down for.
#[derive(Clone, Copy, Debug)]
pub(crate) struct Lack {
    pub(crate) read: usize,
    pub(crate) hash: Hash32,
    pub(crate) depth: u8,
    pub(crate) key: Hash32,
}

/// The bytes that are stored under a hash, given to a read. They have it where the store tells what it holds.
#[derive(Drop)]
struct One<H: NodeHash, Sh: Shelf> {
    read: usize,
    hash: Hash32,
    form: Blob,
    of: PhantomData<(H, Sh)>,
    ghost own: { IsTrue Sh.B.tells → H.half form ≡ hash },
}

/// What a section gives: to one read behind the other the bytes of the nodes on its way.
#[derive(Drop)]
pub(crate) struct Given<H: NodeHash, Sh: Shelf> {
    forms: Vec<One<H, Sh>>,
}

impl<H: NodeHash, Sh: Shelf> Given<H, Sh> {
    /// Nothing, with room for so many where memory for that is there.
    pub(crate) fn new(alloc: Global, room: usize) -> Given<H, Sh> {
        let mut forms = Vec::new(alloc);
        let _ = forms.reserve(room);
        Given { forms }
    }

    /// The bytes that are given to a read for a hash, if there are any.
    pub(crate) fn find(&self, read: usize, h: &Hash32) -> Option<&Blob>
        ensures { IfSome result (λ form. IsTrue Sh.B.tells → H.half form.now ≡ h.now) }
    {
        let first = self.forms.partition_point(|one| one.read < read);
        for one in self.forms.iter().skip(first).take(LEVELS) {
            if one.hash.equals(h) {
                return Some(&one.form);
            }
        }
        None
    }

    /// Gives a read, no earlier one than the last, these bytes for a hash; want of memory is passed over.
    pub(crate) fn put(&mut self, read: usize, h: &Hash32, form: Blob)
        requires { IsTrue Sh.B.tells → H.half form ≡ h.now }
    {
        let one = One {
            read,
            hash: *h,
            form,
            of: PhantomData,
        };
        let _ = self.forms.push(one);
    }
}
