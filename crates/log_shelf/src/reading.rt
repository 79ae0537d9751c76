//! Logs are read as they lie in a file, whatever a stop has made of it.
ghost use Rattle.std.specs.Prelude.{◌≡◌, ◌≢◌, ◌≤◌, ◌++◌, ℕ, [], IsTrue, length, IfOk, OnOk};
ghost use Rattle.std.specs.Option.{option_map};
ghost use Rattle.run_io.specs.Bytes.{Rose};
ghost use Rattle.log_shelf.specs.Entries.{number_in, front_of, entries_of};
ghost use Rattle.node_backend.specs.Numbers.{without};
ghost use Rattle.log_shelf.specs.Manifests.{noted, live_after, live_of};

use crate::Disk;
use byteorder::{BigEndian, ByteOrder};
use node_backend::BackFault;
use run_io::Fault;
use std::alloc::{AllocError, Global};

/// All bytes of a disk.
pub(crate) fn read_file<D: Disk>(alloc: Global, disk: &mut D) -> Result<Vec<u8>, BackFault>
    ensures bytes { IfOk result (λ bytes. bytes.items ≡ D.seen disk.old) }
    ensures calm { IsTrue (D.is_calm disk.old) → result ≢ Err BackFault.Fault }
    ensures later { D.faults disk.old ≤ D.faults disk.new }
    ensures cause { result ≡ Err BackFault.Fault → Rose (D.faults disk.old) (D.faults disk.new) }
{
    let len = match disk.len() {
        Ok(len) => len,
        Err(Fault) => return Err(BackFault::Fault),
    };
    let mut bytes = vec![in alloc; 0; len as usize]?;
    match disk.read(0, &mut bytes) {
        Ok(()) => Ok(bytes),
        Err(Fault) => Err(BackFault::Fault),
    }
}

/// The number that the first eight bytes say.
#[tactic(auto, unfolding(crate::specs::Entries::number_in))]
fn number_at(bytes: &[u8]) -> u64
    requires { 8 ≤ length bytes.now }
    ensures { result ≡ number_in bytes.now }
{
    let (eight, _after) = bytes.split_at(8);
    BigEndian::read_u64(eight)
}

/// The entry at the front, and what lies behind it.
pub(crate) fn front(bytes: &[u8]) -> Option<(&[u8], &[u8])>
    ensures { option_map (λ x. (x.0.now, x.1.now)) result ≡ front_of bytes.now }
{
    if bytes.len() < 9 {
        return None;
    }
    if bytes[0] != 1 {
        return None;
    }
    let (_gate, rest) = bytes.split_at(1);
    let len = number_at(rest);
    let (_number, behind) = rest.split_at(8);
    if (behind.len() as u64) < len {
        return None;
    }
    Some(behind.split_at(len as usize))
}

/// Takes a number out.
fn take_out(live: &mut Vec<u64>, number: u64)
    ensures { live.new.items ≡ without live.old.items number }
{
    live.retain(|k| *k != number);
}

/// Notes what one entry of the manifest says.
fn note_entry(live: &mut Vec<u64>, entry: &[u8]) -> Result<(), AllocError>
    ensures { OnOk result (live.new.items ≡ noted live.old.items entry.now) }
{
    if entry.len() < 9 {
        return Ok(());
    }
    let kind = entry[0];
    let (_kind, rest) = entry.split_at(1);
    let number = number_at(rest);
    if kind == 1 {
        live.push(number)?;
        return Ok(());
    }
    if kind == 2 {
        take_out(live, number);
    }
    Ok(())
}

/// The live numbers by a manifest, in the order in which they were made.
pub(crate) fn live_numbers(alloc: Global, manifest: &[u8]) -> Result<Vec<u64>, AllocError>
    ensures { IfOk result (λ live. live.items ≡ live_of (entries_of manifest.now)) }
{
    let mut live = Vec::new(alloc);
    let mut rest = manifest;
    while let Some((entry, behind)) = front(rest) {
        note_entry(&mut live, entry)?;
        rest = behind;
    }
    Ok(live)
}
