//! Prefix forms, made: the bytes under which a leaf or an inner node is hashed and stored. Each is built once, in room for all of it.
ghost use Rattle.std.specs.Prelude.{◌≡◌, ◌++◌, IfOk, OnOk};
ghost use Rattle.half_hash.specs.Prefix.{prefix_of};
ghost use Rattle.ledger_spec.specs.Forms.{form_of, inner_prefix, leaf_form as form_of_leaf, leaf_prefix};
ghost use Rattle.ledger_spec.specs.Forms as spec;

use crate::{Item, Kind};
use half_hash::{Blob, Hash32, Memory, Prefix};
use std::alloc::Global;

/// The length of an inner node's form.
const INNER_FORM: usize = 516;

/// The length of a prefix.
const PREFIX: usize = 4;

/// The key as it stands behind the data: none at a bare transaction.
pub(crate) fn key_part(kind: Kind, item: &Item) -> &[u8]
    ensures { form_of_leaf kind item.now.key item.now.value ≡ leaf_prefix kind ++ item.now.value ++ result.now }
{
    match kind {
        Kind::Set => &[],
        _ => &item.key().bytes,
    }
}

// The prefix and two parts, joined.
fn joined(alloc: Global, prefix: Prefix, front: &[u8], back: &[u8]) -> Result<Blob, Memory>
    ensures { IfOk result (λ blob. blob ≡ prefix_of prefix ++ front.now ++ back.now) }
{
    let parts = front.len().saturating_add(back.len());
    let mut bytes = Vec::with_capacity(alloc, parts.saturating_add(PREFIX))?;
    bytes.extend_from_slice(&prefix.bytes())?;
    bytes.extend_from_slice(front)?;
    bytes.extend_from_slice(back)?;
    Ok(Blob::new(bytes))
}

/// The form of a leaf: `MLN\0`, data and key of an account state; `SND\0`, data and key of a transaction with metadata; `TXN\0` and
/// data of a bare transaction.
pub fn leaf_form(alloc: Global, kind: Kind, item: &Item) -> Result<Blob, Memory>
    ensures { IfOk result (λ form. form ≡ form_of_leaf kind item.now.key item.now.value) }
{
    Ok(joined(alloc, kind.prefix(), item.data(), key_part(kind, item))?)
}

/// The form of an inner node as it is made: the hashes of its branches are added one after another.
#[derive(Drop)]
pub struct InnerForm {
    bytes: Vec<u8>,
}

impl InnerForm {
    /// The form before its first hash, `MIN\0`, with room for sixteen.
    pub fn begin(alloc: Global) -> Result<Self, Memory>
        ensures { IfOk result (λ made. made.bytes.items ≡ inner_prefix) }
    {
        let mut bytes = Vec::with_capacity(alloc, INNER_FORM)?;
        bytes.extend_from_slice(&Prefix::Min.bytes())?;
        Ok(InnerForm { bytes })
    }

    /// Adds the hash of the next branch.
    pub fn add(&mut self, hash: &Hash32) -> Result<(), Memory>
        ensures { OnOk result (self.new.bytes.items ≡ self.old.bytes.items ++ hash.now) }
    {
        self.bytes.extend_from_slice(&hash.bytes)?;
        Ok(())
    }

    /// The form with the hashes that were added.
    pub fn end(self) -> Blob
        ensures { result ≡ self.bytes.items }
    {
        Blob::new(self.bytes)
    }
}

/// The form of an inner node with these hashes: `MIN\0`, and the hashes.
pub fn inner_form(alloc: Global, hashes: &[Hash32]) -> Result<Blob, Memory>
    ensures { IfOk result (λ form. form ≡ form_of (spec.inner hashes.now)) }
{
    let mut made = InnerForm::begin(alloc)?;
    for hash in hashes {
        made.add(hash)?;
    }
    Ok(made.end())
}
