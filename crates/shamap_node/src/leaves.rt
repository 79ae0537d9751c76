//! Leaves, read in place: what their forms say beside their data. It takes no memory.
ghost use Rattle.std.specs.Prelude.{◌≡◌, ◌+◌, ◌&&◌, length, nat_eq, nat_le};
ghost use Rattle.std.specs.List.{starts_with};
ghost use Rattle.std.specs.Option.{is_some, option_map};
ghost use Rattle.ledger_spec.specs.declared.Kind.TheVariants as kinds;
ghost use Rattle.ledger_spec.specs.Forms.{leaf_prefix, data_limit, keyed_leaf_of, bare_leaf_of, leaf_of};
ghost use Rattle.shamap_node.specs.Heads.{held_head, without_data};

use crate::{DATA_LIMIT, Kind, LeafHead};
use half_hash::{Hash32, NodeHash};

/// Whether the bytes are the form of a leaf of any kind.
pub fn is_leaf_form<H: NodeHash>(form: &[u8]) -> bool
    ensures { result ≡ is_some (leaf_of H.half form.now) }
{
    leaf_head::<H>(form).is_some()
}

/// The kind and the key of the leaf whose form the bytes are, or none.
pub fn leaf_head<H: NodeHash>(form: &[u8]) -> Option<LeafHead>
    ensures { option_map held_head result ≡ option_map without_data (leaf_of H.half form.now) }
{
    if let Some(head) = keyed_head(form, Kind::State) {
        return Some(head);
    }
    if let Some(head) = keyed_head(form, Kind::Tx) {
        return Some(head);
    }
    bare_head::<H>(form)
}

// The same of a leaf of this kind whose key stands behind its data.
fn keyed_head(form: &[u8], kind: Kind) -> Option<LeafHead>
    ensures { option_map held_head result ≡ option_map without_data (keyed_leaf_of kind form.now) }
{
    if !is_keyed(form, kind) {
        return None;
    }
    let (_front, key) = form.split_at(form.len() - 32);
    LeafHead::new(kind, Hash32::from_slice(key))
}

// The same of a bare transaction.
fn bare_head<H: NodeHash>(form: &[u8]) -> Option<LeafHead>
    ensures { option_map held_head result ≡ option_map without_data (bare_leaf_of H.half form.now) }
{
    if !is_bare(form) {
        return None;
    }
    LeafHead::new(Kind::Set, H::half(form))
}

// Whether the bytes begin with the prefix of such leaves, and are neither too few nor too many.
fn is_keyed(form: &[u8], kind: Kind) -> bool
    ensures { result
        ≡ (starts_with nat_eq form.now (leaf_prefix kind) && nat_le 36 (length form.now) && nat_le (length form.now) (36 + data_limit)) }
{
    kind.prefix().begins(form) && form.len() >= 36 && form.len() <= 36 + DATA_LIMIT
}

// The same of a bare transaction.
fn is_bare(form: &[u8]) -> bool
    ensures { result ≡ (starts_with nat_eq form.now (leaf_prefix kinds.Set) && nat_le (length form.now) (4 + data_limit)) }
{
    Kind::Set.prefix().begins(form) && form.len() <= 4 + DATA_LIMIT
}
