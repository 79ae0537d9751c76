//! The key of a mark, its comparison and its hash. Two keys are one where hash, kind and path are.
ghost use Rattle.std.specs.Prelude.{◌≡◌};
ghost use Rattle.ledger_spec.specs.Bytes.{same_bytes};
ghost use Rattle.full_below.specs.Keys.{same_mark, fed_mark};
ghost use Rattle.full_below.specs.SameKeys.{marks_alike, marks_fed_alike};

use half_hash::Hash32;
use ledger_spec::Kind;
use nib_path::NodeId;
use std::hash::{Hash, Hasher};

/// An inner node by its hash, in a map of this kind, at this path.
#[derive(Clone, Copy)]
pub struct MarkKey {
    pub hash: Hash32,
    pub kind: Kind,
    pub id: NodeId,
}

impl PartialEq for MarkKey {
    ghost use Rattle.std.specs.Cmp.{partial_equiv_from_equiv};

    ghost eq = { same_mark };

    ghost laws = { partial_equiv_from_equiv marks_alike };

    fn eq(&self, other: &MarkKey) -> bool {
        self.hash.bytes == other.hash.bytes
            && self.kind == other.kind
            && same_id(&self.id, &other.id)
    }
}

impl Eq for MarkKey {
    ghost laws = { marks_alike };
}

// What a hash table asks: the first eight bytes of the node's hash, which are as good as random.
impl Hash for MarkKey {
    ghost hash_input = { λ key. fed_mark key };

    ghost respects_eq = { marks_fed_alike };

    fn hash<H: Hasher>(&self, state: &mut H) {
        state.write(&self.hash.bytes[..8]);
    }
}

// Whether the two paths are one.
fn same_id(id: &NodeId, other: &NodeId) -> bool
    ensures { result ≡ same_bytes id.now other.now }
{
    id.known();
    other.known();
    id == other
}
