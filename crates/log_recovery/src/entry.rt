//! Which entries of a log are records: a hash of 32 bytes, and a form of that hash.
ghost use Rattle.std.specs.Prelude.{◌≡◌, ℕ, List, IsTrue, IfOk};
ghost use Rattle.ledger_spec.specs.Bytes.{are_bytes};
ghost use Rattle.log_recovery.specs.Records.{is_fit as fits};

use half_hash::{Hash32, Memory, NodeHash};
use log_shelf::EntryTest;
use path_proof::{FetchFault, node_of_form};
use std::alloc::Global;
use std::marker::PhantomData;

/// The test that an entry is a hash, which isn't zero, and the form of a node or a header whose hash it is.
pub struct StoredForms<H: NodeHash> {
    of: PhantomData<H>,
}

impl<H: NodeHash> EntryTest for StoredForms<H> {
    ghost use Rattle.log_recovery.specs.Records.{is_record};
    ghost use Rattle.log_recovery.specs.Sizes.{record_long};

    ghost is_record = { λ entry. is_record H.half entry };

    ghost long = { λ entry is. record_long H.half entry is };

    fn test(alloc: Global, entry: &[u8]) -> Result<bool, Memory> {
        if entry.len() < 32 {
            return Ok(false);
        }
        let (hash, form) = entry.split_at(32);
        is_fit(alloc, &Hash32::from_slice(hash), &H::half(form), form)
    }
}

// Whether a store may begin with the form, of which `own` is the hash, under this hash.
fn is_fit(alloc: Global, hash: &Hash32, own: &Hash32, form: &[u8]) -> Result<bool, Memory>
    ensures { (half : List ℕ → List ℕ) → half form.now ≡ own.now → IfOk result (λ fit. fit ≡ fits half hash.now form.now) }
{
    known_bytes(form);
    if hash.is_zero() {
        return Ok(false);
    }
    match node_of_form(alloc, hash, own, form) {
        Ok(Some(_)) => Ok(true),
        Ok(None) => Ok(false),
        Err(FetchFault::Foreign) => Ok(true),
        Err(FetchFault::Memory) => Err(Memory),
        Err(FetchFault::Fault) => unreachable!(),
    }
}

// Tells a proof that bytes are below 256.
fn known_bytes(bytes: &[u8])
    ensures { IsTrue (are_bytes bytes.now) }
{
    let _bytes = bytes;
}
