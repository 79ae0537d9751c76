//! The hashes of leaves and of inner nodes, with no form made of them.
ghost use Rattle.std.specs.Prelude.{◌≡◌, ◌++◌, length};
ghost use Rattle.std.specs.List.{concat};
ghost use Rattle.ledger_spec.specs.Bytes.{Bytes};
ghost use Rattle.ledger_spec.specs.Forms.{inner_prefix, leaf_form, leaf_prefix};

use half_hash::{Hash32, NodeHash, Prefix};
use ledger_spec::Kind;

/// The hash of a leaf.
pub(crate) fn leaf_hash<H: NodeHash>(kind: Kind, key: &Hash32, bytes: &[u8]) -> Hash32
    ensures { result ≡ H.half (leaf_form kind key.now bytes.now) }
{
    H::half_parts(&kind.prefix().bytes(), bytes, key_part(kind, key))
}

// The key as it stands behind the data: none at a bare transaction.
fn key_part(kind: Kind, key: &Hash32) -> &[u8]
    ensures { (bytes : Bytes) → leaf_form kind key.now bytes ≡ leaf_prefix kind ++ bytes ++ result.now }
{
    match kind {
        Kind::Set => &[],
        _ => &key.bytes,
    }
}

/// The hash of an inner node with these sixteen branches.
pub(crate) fn inner_hash<H: NodeHash>(branches: &[Hash32]) -> Hash32
    requires { length branches.now ≡ 16 }
    ensures { result ≡ H.half (inner_prefix ++ concat branches.now) }
{
    H::half_parts(&Prefix::Min.bytes(), &body_of(branches), &[])
}

// The sixteen hashes, joined.
fn body_of(branches: &[Hash32]) -> [u8; 512]
    requires { length branches.now ≡ 16 }
    ensures { result ≡ concat branches.now }
{
    let mut body = [0; 512];
    for b in 0..16usize {
        let at = b * 32;
        let hash = branches[b];
        body[at..at + 32].copy_from_slice(&hash.bytes);
    }
    body
}
