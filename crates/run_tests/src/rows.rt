//! Worked scripts of every command but `page`, over the hash that adds the bytes: as they are, cut at each byte, with one call of one
//! device failing, and with a dump that is read again.
use crate::endings::run_text;
use crate::scripts::{
    AGAIN, AGAIN_SAYS, DUMP, DUMPING, MARKED, ROTATIONS, ROWS, SMALL, TURNED_TWICE,
    TURNED_TWICE_SAYS, TURNING, WHOLE, WHOLE_SAYS,
};
use actor_pool::OpenGate;
use half_hash::{Blob, Half512, Hash32, TinyHash};
use ledger_header::Header;
use ledger_spec::ShapeFault;
use nib_path::NodeId;
use node_backend::MemShelf;
use run_io::{MemSink, MemSource};
use shamap_node::{Inner, Item, Kind, Leaf, Node, encode_form, hash_of, shape};
use std::alloc::{AllocError, Global};
use std::process::Abort;
use std::sync::Wait;
use std::test::Fail;
use std::thread::Threads;

/// What fails alone, the status that it gives, and how many calls of it two rotations with a dump make: the source, the sink, the shelf,
/// and the backends in the order in which they are made.
const DEVICES: [(u8, u64); 7] = [(4, 7), (5, 27), (6, 4), (6, 9), (6, 48), (6, 23), (6, 7)];

/// The calls of the shelf in that script: two open the store, and in each rotation one makes a backend and one drops the old one, which may
/// fail. The status where the call fails, and what is printed of its rotation.
const SHELF: [(u8, &str); 6] = [
    (6, ""),
    (6, ""),
    (6, "14 0 swap fault\n15 0 swap swapped 1\n"),
    (0, "14 0 swap swapped 1\n15 0 swap idle\n"),
    (6, "22 0 swap fault\n23 0 swap swapped 2\n"),
    (0, "22 0 swap swapped 2\n23 0 swap idle\n"),
];

/// More calls than any device is used in.
const MANY_CALLS: u64 = 64;

/// The one failing call of a device, if it is this one.
fn failing(alloc: Global, is: bool, call: u64) -> Result<Vec<u64>, AllocError> {
    let mut calls = Vec::new(alloc);
    if is {
        calls.push(call)?;
    }
    Ok(calls)
}

/// A shelf in which one call of one device fails.
fn shelf_failing(alloc: Global, device: usize, call: u64) -> Result<MemShelf, AllocError> {
    let mut plans = Vec::new(alloc);
    for backend in 3..DEVICES.len() {
        plans.push(failing(alloc, device == backend, call)?)?;
    }
    let failing = failing(alloc, device == 2, call)?;
    Ok(MemShelf::new(alloc, plans, failing))
}

/// A source of the script, of which one call may fail.
fn source_failing(
    alloc: Global,
    script: &[u8],
    device: usize,
    call: u64,
) -> Result<MemSource, AllocError> {
    let failing = failing(alloc, device == 0, call)?;
    Ok(MemSource::new(Vec::from_slice(alloc, script)?, 500, failing))
}

/// A run with these words in which one call of one device fails: its status, and what it printed.
fn run_failing<R: Threads + Wait + Sync>(
    rt: &R,
    alloc: Global,
    words: &[&str],
    script: &[u8],
    device: usize,
    call: u64,
) -> Result<(u8, Vec<u8>), Fail> {
    let source = source_failing(alloc, script, device, call)?;
    let sink = MemSink::new(alloc, 16384, failing(alloc, device == 1, call)?)?;
    let shelf = shelf_failing(alloc, device, call)?;
    Ok(run_text(rt, alloc, words, TinyHash, source, sink, shelf, &OpenGate)?)
}

/// A run of the script in which nothing fails.
fn run_calm<R: Threads + Wait + Sync>(
    rt: &R,
    alloc: Global,
    words: &[&str],
    script: &[u8],
) -> Result<(u8, Vec<u8>), Fail> {
    run_failing(rt, alloc, words, script, 0, MANY_CALLS)
}

/// Runs a script, which must end with this status and print this text. A failure names it.
fn check_row<R: Abort + Threads + Wait + Sync>(
    rt: &R,
    alloc: Global,
    name: &str,
    words: &[&str],
    script: &[u8],
    status: u8,
    says: &[u8],
) -> Result<(), Fail> {
    let (ended, printed) = run_calm(rt, alloc, words, script)?;
    assert_eq!(rt; printed.as_slice(), says, "{name}");
    assert_eq!(rt; ended, status, "{name}");
    Ok(())
}

/// Whether each value that is read is the leaf's, and each swap that fails is made good by the next one.
fn is_fair(printed: &str) -> bool {
    let mut failed = false;
    for line in printed.lines() {
        if line.contains(" get value ") && !line.ends_with(" get value 0102") {
            return false;
        }
        if failed && !line.contains(" swap swapped ") {
            return false;
        }
        failed = line.ends_with(" swap fault");
    }
    !failed
}

/// Whether a run in which a call of this device failed ended as it may: with the status, and a fair text where it isn't the sink that
/// failed.
fn ends_fairly(device: usize, status: u8, ended: u8, printed: &[u8]) -> bool {
    match str::from_utf8(printed) {
        Ok(text) => ended == status && (device == 1 || is_fair(text)),
        Err(_) => false,
    }
}

/// How many of a device's calls failed a run, each time with this status. A run that doesn't fail prints this text.
fn failed_calls<R: Abort + Threads + Wait + Sync>(
    rt: &R,
    alloc: Global,
    device: usize,
    status: u8,
    script: &[u8],
    says: &[u8],
) -> Result<u64, Fail> {
    let mut failed: u64 = 0;
    for call in 1..=MANY_CALLS {
        let (ended, printed) = run_failing(rt, alloc, TURNING, script, device, call)?;
        if ended == 0 {
            assert_eq!(rt; printed.as_slice(), says);
        } else {
            assert!(rt;
                ends_fairly(device, status, ended, &printed),
                "{device} {call}"
            );
            failed = failed.saturating_add(1);
        }
    }
    Ok(failed)
}

#[test]
fn one_failing_call(rt: HostRuntime) -> Result<(), Fail> {
    let alloc = rt.alloc();
    let script = expand(alloc, TURNED_TWICE)?;
    let says = expand(alloc, TURNED_TWICE_SAYS)?;
    for (device, (status, calls)) in DEVICES.iter().enumerate() {
        let failed = failed_calls(&rt, alloc, device, *status, &script, &says)?;
        assert_eq!(rt; failed, *calls, "{device}");
    }
    Ok(())
}

/// How many of a backend's calls fail the check of such a ledger.
fn asked_of<R: Threads + Wait + Sync>(
    rt: &R,
    alloc: Global,
    device: usize,
    script: &[u8],
) -> Result<u64, Fail> {
    let mut asked: u64 = 0;
    for call in 1..=MANY_CALLS {
        let (_, printed) = run_failing(rt, alloc, &["replay"], script, device, call)?;
        let text = str::from_utf8(&printed).or(Err("text"))?;
        if text.contains("12 0 check fault") {
            asked = asked.saturating_add(1);
        }
    }
    Ok(asked)
}

/// A check of a ledger whose root was found whole before asks for the header alone, which the first backend that is asked has.
#[test]
fn a_check_passes_what_is_marked(rt: HostRuntime) -> Result<(), Fail> {
    let alloc = rt.alloc();
    let script = expand(alloc, MARKED)?;
    let mut asked: u64 = 0;
    for device in 3..5usize {
        asked = asked.saturating_add(asked_of(&rt, alloc, device, &script)?);
    }
    assert_eq!(rt; asked, 1);
    Ok(())
}

#[test]
fn one_failing_call_of_the_shelf(rt: HostRuntime) -> Result<(), Fail> {
    let alloc = rt.alloc();
    let script = expand(alloc, TURNED_TWICE)?;
    let mut call: u64 = 0;
    for (status, part) in &SHELF {
        call = call.saturating_add(1);
        let (ended, printed) = run_failing(&rt, alloc, TURNING, &script, 2, call)?;
        let text = str::from_utf8(&printed).or(Err("text"))?;
        assert_eq!(rt; ended, *status, "{call}");
        assert!(rt;
            text.contains(part) && text.is_empty() == part.is_empty(),
            "{text}"
        );
    }
    Ok(())
}

/// The same, of texts that are written in short.
fn check_short<R: Abort + Threads + Wait + Sync>(
    rt: &R,
    alloc: Global,
    words: &[&str],
    script: &str,
    status: u8,
    says: &str,
) -> Result<(), Fail> {
    let bytes = expand(alloc, script)?;
    let says = expand(alloc, says)?;
    check_row(rt, alloc, script, words, &bytes, status, &says)
}

#[test]
fn rows(rt: HostRuntime) -> Result<(), Fail> {
    for (script, status, says) in &ROWS {
        check_short(&rt, rt.alloc(), &["replay"], script, *status, says)?;
    }
    Ok(())
}

#[test]
fn rotations(rt: HostRuntime) -> Result<(), Fail> {
    for (words, script, says) in &ROTATIONS {
        check_short(&rt, rt.alloc(), words, script, 0, says)?;
    }
    Ok(())
}

/// A run with a dump of a script of two parts, which must print two.
fn check_dump<R: Abort + Threads + Wait + Sync>(
    rt: &R,
    alloc: Global,
    script: (&str, &str),
    says: (&str, &str),
) -> Result<(), Fail> {
    let bytes = expand_both(alloc, script.0, script.1)?;
    let says = expand_both(alloc, says.0, says.1)?;
    check_row(rt, alloc, script.0, DUMPING, &bytes, 0, &says)
}

#[test]
fn a_dump_is_read_again(rt: HostRuntime) -> Result<(), Fail> {
    check_dump(&rt, rt.alloc(), (WHOLE, ""), (WHOLE_SAYS, DUMP))?;
    check_dump(&rt, rt.alloc(), (DUMP, AGAIN), (AGAIN_SAYS, DUMP))
}

/// Runs what is cut, whose last line is what is left of it.
fn check_cut<R: Abort + Threads + Wait + Sync>(
    rt: &R,
    alloc: Global,
    cut: &[u8],
    last: &[u8],
) -> Result<(), Fail> {
    let (status, _) = run_calm(rt, alloc, &["replay"], cut)?;
    let left = str::from_utf8(last).or(Err("text"))?;
    assert_eq!(rt; status, if is_line(left) { 0 } else { 3 }, "{left}");
    Ok(())
}

/// A script that is cut at any byte is run, or refused where what is left of its last line is no line.
#[test]
fn cut_scripts(rt: HostRuntime) -> Result<(), Fail> {
    let alloc = rt.alloc();
    let script = expand(alloc, SMALL)?;
    let mut cut: Vec<u8> = Vec::new(alloc);
    let mut last: Vec<u8> = Vec::new(alloc);
    for byte in script.iter() {
        check_cut(&rt, alloc, &cut, &last)?;
        cut.push(*byte)?;
        last.push(*byte)?;
        if *byte == b'\n' {
            last.clear();
        }
    }
    Ok(())
}

/// Whether what a cut leaves of a line is a line: it has no words, or all that its command wants, the last one whole, or still a number, or
/// whole bytes.
fn is_line(left: &str) -> bool {
    let mut words: usize = 0;
    let mut digits: usize = 0;
    for word in left.split_whitespace() {
        words = words.saturating_add(1);
        digits = word.len();
    }
    let bytes = digits >= 2 && digits % 2 == 0;
    if left.contains(" want ") {
        words == 4
    } else if left.contains(" peer ") {
        words == 4 && digits == 64
    } else if left.contains(" check ") {
        words == 3 && digits == 64
    } else if left.contains(" base ") {
        words > 4 && bytes
    } else if left.contains(" node ") {
        words == 7 && bytes
    } else {
        words == 0
    }
}

/// The text that is written in short.
pub(crate) fn expand(alloc: Global, short: &str) -> Result<Vec<u8>, Fail> {
    let mut text = Vec::new(alloc);
    for byte in short.bytes() {
        match byte {
            b'@' => expand_into(
                &mut text,
                "0000000A0000000000000000__[DE]00000000000000000000",
            )?,
            b'#' => expand_into(&mut text, "_[FA]______________02")?,
            other => add(&mut text, other)?,
        }
    }
    Ok(text)
}

/// Two such texts, one behind the other.
fn expand_both(alloc: Global, first: &str, second: &str) -> Result<Vec<u8>, Fail> {
    let mut text = expand(alloc, first)?;
    let rest = expand(alloc, second)?;
    text.extend_from_slice(&rest)?;
    Ok(text)
}

fn expand_into(text: &mut Vec<u8>, short: &str) -> Result<(), Fail> {
    for byte in short.bytes() {
        add(text, byte)?;
    }
    Ok(())
}

/// As many zeros as `]` stands for.
const ZEROS: &str = "00000000000000000000000000000000000000000000000000000000000000";

fn add(text: &mut Vec<u8>, byte: u8) -> Result<(), Fail> {
    match byte {
        b'[' => (),
        b']' => text.extend_from_slice(ZEROS.as_bytes())?,
        b'_' => {
            text.extend_from_slice(ZEROS.as_bytes())?;
            text.extend_from_slice("00".as_bytes())?;
        }
        other => text.push(other)?,
    }
    Ok(())
}

/// The key of the account.
fn key() -> Hash32 {
    Hash32 { bytes: [0x3C; 32] }
}

/// The leaf of the account.
fn account(alloc: Global) -> Result<Node, Fail> {
    let value = Blob::from_slice(alloc, "account".as_bytes())?;
    let item = Item::new(key(), value).ok().ok_or("item")?;
    Ok(Node::Leaf(Leaf {
        kind: Kind::State,
        item,
    }))
}

/// The root over it.
fn root_over(leaf: &Node) -> Result<Node, Fail> {
    let mut branches = [Hash32::zero(); 16];
    branches[3] = hash_of::<Half512>(leaf);
    Ok(Node::Inner(Inner::new(branches).ok_or("inner")?))
}

/// The header over that.
fn header_over(root: &Node) -> Header {
    Header {
        seq: 7,
        drops: 100,
        parent: key(),
        tx_root: Hash32::zero(),
        state_root: hash_of::<Half512>(root),
        parent_close: 1,
        close: 2,
        resolution: 10,
        flags: 0,
    }
}

/// The digits of the node's form behind its four bytes.
fn form_digits(alloc: Global, node: &Node) -> Result<String, Fail> {
    let form = encode_form(alloc, node)?;
    digits(alloc, &form.bytes()[4..])
}

/// Lines that ask for a ledger and are given its three nodes.
fn lines_of(alloc: Global, header: &Header, root: &Node, leaf: &Node) -> Result<String, Fail> {
    let target = digits(alloc, &header.hash::<Half512>().bytes)?;
    let head = digits(alloc, &header.encode())?;
    let root = form_digits(alloc, root)?;
    let leaf = form_digits(alloc, leaf)?;
    let zeros = digits(alloc, &[0; 31])?;
    Ok(format!(in alloc;
        "0 want {target} 7\n0 peer 9 {target}\n0 base 9 {target} {head} {root}02\n\
          0 node 9 {target} state 30{zeros}01 {leaf}01\n0 check {target}\n"
    )?)
}

/// The script of a ledger of one account.
fn script_made(alloc: Global) -> Result<String, Fail> {
    let leaf = account(alloc)?;
    let root = root_over(&leaf)?;
    lines_of(alloc, &header_over(&root), &root, &leaf)
}

/// A replay by the ledger's own hash.
fn replay<R: Threads + Wait + Sync>(
    rt: &R,
    alloc: Global,
    script: &str,
) -> Result<(u8, Vec<u8>), Fail> {
    let bytes = Vec::from_slice(alloc, script.as_bytes())?;
    let source = MemSource::new(bytes, 500, Vec::new(alloc));
    let sink = MemSink::new(alloc, 4096, Vec::new(alloc))?;
    let shelf = MemShelf::new(alloc, Vec::new(alloc), Vec::new(alloc));
    Ok(run_text(
        rt,
        alloc,
        &["replay"],
        Half512,
        source,
        sink,
        shelf,
        &OpenGate,
    )?)
}

/// What is printed of it.
const MADE_SAYS: &str =
    "1 0 want opened\n2 0 peer added\n3 0 base good / good\n4 0 node good\n5 0 check complete\n\
      end complete 1 closed 0 listed 1 floor 0 last 7 epoch 0\n";

/// A ledger of one account, made by the library over the ledger's own hash.
#[test]
fn a_ledger_that_is_made_here(rt: HostRuntime) -> Result<(), Fail> {
    let alloc = rt.alloc();
    let script = script_made(alloc)?;
    let (status, printed) = replay(&rt, alloc, script.as_str())?;
    assert_eq!(rt; printed.as_slice(), MADE_SAYS.as_bytes());
    assert_eq!(rt; status, 0);
    Ok(())
}

/// No place lies below depth 64, so an inner node there breaks a rule.
#[test]
fn an_inner_node_at_the_bottom(rt: HostRuntime) -> Result<(), Fail> {
    let key = [0x3C; 32];
    let inner = Inner::new([Hash32 { bytes: key }; 16]).ok_or("inner")?;
    let node = Node::Inner(inner);
    let last = shape(&node, Some(&inner), Kind::State, &NodeId::of_key(&key, 63));
    let bottom = shape(&node, Some(&inner), Kind::State, &NodeId::of_key(&key, 64));
    assert!(rt; last.is_ok());
    assert!(rt; matches!(bottom, Err(ShapeFault::InnerAtBottom)));
    Ok(())
}

fn digits(alloc: Global, bytes: &[u8]) -> Result<String, Fail> {
    Ok(hex::encode_upper(alloc, bytes)?)
}
