//! The records that a store begins with, and those that it holds.
ghost use Rattle.std.specs.Prelude.{◌≡◌, IsTrue, None, length, OnOk, OnErr, IfErr, IfOk, IfSome};
ghost use Rattle.std.specs.Option.{option_copied};
ghost use Rattle.std.specs.FinMap as map;
ghost use Rattle.ledger_spec.specs.Bytes.{Half, are_bytes};
ghost use Rattle.ledger_spec.specs.Own.{IsStoredAt, AreStored};
ghost use Rattle.ledger_machine.specs.Records.{AreRecords, with_records};
ghost use Rattle.run_io.specs.Bytes.{Rose};
ghost use Rattle.rotating_store.specs.Puts.{MayStore};
ghost use Rattle.rotating_store.specs.Stores.{nodes_of, Counted, with_pair};
ghost use Rattle.rotating_store.specs.Reading.{IsLater, WasRead};
ghost use Rattle.node_backend.specs.Order.{IsNext};
ghost use Rattle.core_machine.specs.Dumping.{HoldsOf, IsNextRecord, Follows, GivenAfter};

use half_hash::{Hash32, NodeHash};
use ledger_machine::Record;
use nib_path::nibble;
use node_backend::{BackFault, Shelf};
use rotating_store::{RotStore, StoreFault, own_form};
use std::alloc::Global;

/// Puts the records into a store that holds nothing. Each is noted as checked, since its reader has hashed it.
pub fn put_records<H: NodeHash, Sh: Shelf>(
    alloc: Global,
    store: &mut RotStore<Sh>,
    records: &[Record],
) -> Result<(), BackFault>
    requires records { AreRecords H.half records.now }
    requires empty { IsTrue Sh.B.tells → (store.old.writable ≡ map.empty) × (store.old.archive ≡ map.empty) }
    ensures stored { IsTrue Sh.B.tells
        → OnOk result ((store.new.writable ≡ with_records map.empty records.now) × (store.new.archive ≡ map.empty)) }
    // Some of them may be there where the store failed, and nothing else.
    ensures held { IsTrue Sh.B.tells → HoldsOf records.now (nodes_of store.new) }
    ensures later { IsLater store.old store.new }
    ensures fault { IfErr result (λ e. e ≡ BackFault.Fault → Rose store.old.faults store.new.faults) }
{
    for one in records {
        put_record::<H, Sh>(alloc, store, one)?;
    }
    Ok(())
}

// Puts a record that the store doesn't hold. Only a backend that doesn't tell what it holds may have another form there: then it stays.
fn put_record<H: NodeHash, Sh: Shelf>(
    alloc: Global,
    store: &mut RotStore<Sh>,
    one: &Record,
) -> Result<(), BackFault>
    requires own { IsStoredAt H.half one.now.hash one.now.form }
    requires absent { IsTrue Sh.B.tells → map.get (nodes_of store.old) one.now.hash ≡ None }
    ensures stored { IsTrue Sh.B.tells → OnOk result (Counted (with_pair store.old one.now.hash one.now.form) store.new) }
    ensures unstored { IsTrue Sh.B.tells → OnErr result (MayStore store.old one.now.hash one.now.form store.new) }
    ensures later { IsLater store.old store.new }
    ensures fault { IfErr result (λ e. e ≡ BackFault.Fault → Rose store.old.faults store.new.faults) }
{
    match store.put_hashed::<H>(alloc, &one.hash, one.form.bytes()) {
        Ok(_) => {
            store.note(&one.hash);
            Ok(())
        }
        Err(StoreFault::Fault) => Err(BackFault::Fault),
        Err(StoreFault::Memory) => Err(BackFault::Memory),
        Err(StoreFault::Clash { .. }) => Ok(()),
        Err(StoreFault::WrongHash { .. }) => unreachable!(),
    }
}

/// The next record that is held after a hash, or the first one.
pub(crate) fn next_record<H: NodeHash, Sh: Shelf>(
    alloc: Global,
    store: &mut RotStore<Sh>,
    after: Option<&Hash32>,
) -> Result<Option<Record>, BackFault>
    requires { IsTrue Sh.B.tells → AreStored H.half (map.get (nodes_of store.old)) }
    ensures next { IsTrue Sh.B.tells → IfOk result (IsNextRecord (nodes_of store.old) (option_copied after.entry)) }
    ensures follows { IfOk result (λ r. IfSome r (λ r. Follows (option_copied after.entry) r.hash)) }
    ensures read { WasRead Sh.B.tells H.half store.old store.new }
    ensures fault { IfErr result (λ e. e ≡ BackFault.Fault → Rose store.old.faults store.new.faults) }
{
    if let Some(h) = after {
        known_hash(h);
    }
    let mut last = after.copied();
    while let Some(hash) = next_hash(alloc, store, last.as_ref())? {
        if let Some(form) = own_form::<H, Sh>(alloc, store, &hash)? {
            return Ok(Some(Record { hash, form }));
        }
        last = Some(hash);
    }
    Ok(None)
}

// The next hash of the store. A backend that doesn't tell what it holds may give one that doesn't come after: then there is none.
fn next_hash<Sh: Shelf>(
    alloc: Global,
    store: &mut RotStore<Sh>,
    after: Option<&Hash32>,
) -> Result<Option<Hash32>, BackFault>
    ensures next { IsTrue Sh.B.tells → IfOk result (IsNext (nodes_of store.old) (option_copied after.entry)) }
    ensures follows { IfOk result (λ h. IfSome h (Follows (option_copied after.entry))) }
    ensures read { (half : Half) → WasRead Sh.B.tells half store.old store.new }
    ensures fault { IfErr result (λ e. e ≡ BackFault.Fault → Rose store.old.faults store.new.faults) }
{
    match store.next(alloc, after) {
        Ok(Some(hash)) => Ok(if_after(hash, after)),
        Ok(None) => Ok(None),
        Err(fault) => Err(fault.plain()),
    }
}

// The hash, where it comes after the other one.
fn if_after(hash: Hash32, after: Option<&Hash32>) -> Option<Hash32>
    ensures { GivenAfter (option_copied after.entry) hash result }
{
    known_hash(&hash);
    match after {
        Some(last) => {
            if hash.cmp(last).is_gt() {
                Some(hash)
            } else {
                None
            }
        }
        None => Some(hash),
    }
}

// Tells a proof that a hash is 32 bytes.
fn known_hash(h: &Hash32)
    ensures size { length h.now ≡ 32 }
    ensures bytes { IsTrue (are_bytes h.now) }
{
    known_bytes(&h.bytes);
}

// The same of its bytes.
fn known_bytes(bytes: &[u8; 32])
    ensures { IsTrue (are_bytes bytes.now) }
{
    let _first = nibble(bytes, 0);
}
