//! Steps from a place towards a key: the branch, and the place below it.
ghost use Rattle.std.specs.Prelude.{◌≡◌, ◌≢◌, ◌<◌, ◌∷◌, ◌++◌, [], length, IsTrue};
ghost use Rattle.nib_path.specs.Paths.{nibble_of, lies_under};

use half_hash::Hash32;
use nib_path::{NodeId, nibble};

/// The branch that leads towards a key.
pub(crate) fn toward(id: &NodeId, key: &Hash32) -> u8
    requires { length id.now < 64 }
    ensures small { result < 16 }
    ensures value { result ≡ nibble_of key.now (length id.now) }
    ensures under { IsTrue (lies_under id.now key.now) → IsTrue (lies_under (id.now ++ result ∷ []) key.now) }
{
    key.known();
    nibble(&key.bytes, id.depth())
}

/// The place below a branch.
pub(crate) fn below(id: &NodeId, b: u8) -> NodeId
    requires inner { length id.now < 64 }
    requires branch { b < 16 }
    ensures { result ≡ id.now ++ b ∷ [] }
{
    match id.child(b) {
        Some(below) => below,
        None => unreachable!(),
    }
}

/// Tells a proof that a place on the way to two keys isn't at the bottom.
pub(crate) fn known_inner(id: &NodeId, a: &Hash32, b: &Hash32)
    requires first { IsTrue (lies_under id.now a.now) }
    requires second { IsTrue (lies_under id.now b.now) }
    requires differ { a.now ≢ b.now }
    ensures { length id.now < 64 }
{
    id.known();
    a.known();
    b.known();
}
