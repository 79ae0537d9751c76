//! How runs end: the words, a script, what fails alone, and the status and the text that come of it.
use actor_pool::{Gate, OpenGate};
use half_hash::{Memory, NodeHash, TinyHash};
use node_backend::{MemShelf, Shelf};
use run_io::{MemSink, MemSource, Sink, Source};
use std::alloc::Global;
use std::sync::Wait;
use std::test::Fail;
use std::thread::Threads;
use top_call::ledger_run;

/// The words, a script, the read, the write and the shelf's call that fail (0 for none), and what must
/// come of it.
type Case = (
    &'static [&'static str],
    &'static str,
    u64,
    u64,
    u64,
    u8,
    &'static str,
);

const CASES: [Case; 23] = [
    (&["replay"], "", 0, 0, 0, 0, NOTHING),
    (&["replay"], SHORT, 0, 0, 0, 0, ANSWERED),
    (&["replay"], "0 want 11 7\n", 0, 0, 0, 3, "refused 1 8\n"),
    (&["replay"], "0 bogin\n", 0, 0, 0, 3, "refused 1 5\n"),
    (&["replay"], SPACES, 0, 0, 0, 0, TWO_ANSWERS),
    (&["replay"], OTHER_ACTOR, 0, 0, 0, 3, "refused 2 3\n"),
    (&["replay"], UNENDED, 0, 0, 0, 0, TWO_ANSWERS),
    (&["replay"], ZERO, 0, 0, 0, 3, "refused 1 10\n"),
    (&["replay"], SHORT, 1, 0, 0, 4, ""),
    (&["replay"], "", 0, 1, 0, 5, ""),
    (&["replay"], SHORT, 0, 0, 1, 6, ""),
    (&["replay"], SHORT, 0, 0, 2, 6, ""),
    (
        &["replay", "--interval=0004", "--quiet"],
        SHORT,
        0,
        0,
        0,
        0,
        NOTHING,
    ),
    (&["replay", "--interval", "4"], SHORT, 0, 0, 0, 0, ANSWERED),
    (&["replay", "--quiet"], SHORT, 0, 1, 0, 5, ""),
    (&[], "", 0, 0, 0, 2, USAGE),
    (&["swarm"], "", 0, 0, 0, 2, USAGE),
    (&["replay", "--dump", "--dump"], "", 0, 0, 0, 2, USAGE),
    (&["replay", "--quiet", "--quiet"], "", 0, 0, 0, 2, USAGE),
    (&["replay", "--", "--quiet"], "", 0, 0, 0, 2, USAGE),
    (&["replay", "--interval", "+4"], "", 0, 0, 0, 2, USAGE),
    (&["replay", "--interval", "0"], "", 0, 0, 0, 2, USAGE),
    (&["replay", "--help"], "", 0, 0, 0, 2, USAGE),
];

const USAGE: &str = "usage: ledger_run replay | swarm\n";

const NOTHING: &str = "end complete 0 closed 0 listed 0 floor 0 last - epoch 0\n";

const SHORT: &str = "0 want 1111111111111111111111111111111111111111111111111111111111111111 7\n\
      0 check 1111111111111111111111111111111111111111111111111111111111111111\n\
      0 peer 3 1111111111111111111111111111111111111111111111111111111111111111\n\
      0 peer 0003 1111111111111111111111111111111111111111111111111111111111111111\n\
      0 peer 65535 1111111111111111111111111111111111111111111111111111111111111111\n\
      0 check 1111111111111111111111111111111111111111111111111111111111111111\n\
      0 check 1111111111111111111111111111111111111111111111111111111111111111\n\
      0 want 1111111111111111111111111111111111111111111111111111111111111111 0\n\
      0 peer 1 aBaBaBaBaBaBaBaBaBaBaBaBaBaBaBaBaBaBaBaBaBaBaBaBaBaBaBaBaBaBaBaB\n\
      0 check aBaBaBaBaBaBaBaBaBaBaBaBaBaBaBaBaBaBaBaBaBaBaBaBaBaBaBaBaBaBaBaB\n";

const ANSWERED: &str =
    "1 0 want opened\n2 0 check nopeer\n3 0 peer added\n4 0 peer known\n5 0 peer added\n6 0 check need 3 header\n\
      7 0 check waiting 1\n8 0 want open\n9 0 peer notopen\n10 0 check notopen\n\
      end complete 0 closed 0 listed 0 floor 0 last - epoch 0\n";

const TWO_ANSWERS: &str =
    "1 0 want opened\n2 0 check nopeer\nend complete 0 closed 0 listed 0 floor 0 last - epoch 0\n";

const SPACES: &str =
    " 0 want   1111111111111111111111111111111111111111111111111111111111111111 7 \n\
      0  check 1111111111111111111111111111111111111111111111111111111111111111\n";

const OTHER_ACTOR: &str =
    "0 want 1111111111111111111111111111111111111111111111111111111111111111 7\n\
      64 check 1111111111111111111111111111111111111111111111111111111111111111\n\
      0 check 1111111111111111111111111111111111111111111111111111111111111111\n";

const UNENDED: &str = "0 want 1111111111111111111111111111111111111111111111111111111111111111 7\n\
      0 check 1111111111111111111111111111111111111111111111111111111111111111";

const ZERO: &str = "0 want 0000000000000000000000000000000000000000000000000000000000000000 1\n";

/// The status of a run over any devices. Nothing is known of them here, which keeps the proof small.
fn status_of_run<R: Threads + Wait + Sync, H: NodeHash, S: Source, K: Sink, Sh: Shelf, G: Gate>(
    rt: &R,
    alloc: Global,
    words: &[&str],
    hash: H,
    source: &mut S,
    sink: &mut K,
    shelf: Sh,
    gate: &G,
) -> u8 {
    ledger_run(rt, alloc, words, hash, source, sink, shelf, gate).status
}

/// The status of such a run, and what it printed.
pub(crate) fn run_text<R: Threads + Wait + Sync, H: NodeHash, G: Gate>(
    rt: &R,
    alloc: Global,
    words: &[&str],
    hash: H,
    source: MemSource,
    sink: MemSink,
    shelf: MemShelf,
    gate: &G,
) -> Result<(u8, Vec<u8>), Memory> {
    let (mut source, mut sink) = (source, sink);
    let status = status_of_run(rt, alloc, words, hash, &mut source, &mut sink, shelf, gate);
    Ok((status, Vec::from_slice(alloc, sink.held())?))
}

/// A source of the script, of which one read may fail.
fn source_of(alloc: Global, script: &str, failing: u64) -> Result<MemSource, Fail> {
    let bytes = Vec::from_slice(alloc, script.as_bytes())?;
    Ok(MemSource::new(bytes, 7, vec![in alloc; failing]?))
}

/// An empty sink, of which one write may fail.
fn sink_of(alloc: Global, failing: u64) -> Result<MemSink, Fail> {
    Ok(MemSink::new(alloc, 4096, vec![in alloc; failing]?)?)
}

/// An empty shelf, of which one call may fail.
fn shelf_of(alloc: Global, failing: u64) -> Result<MemShelf, Fail> {
    let failing = vec![in alloc; failing]?;
    Ok(MemShelf::new(alloc, Vec::new(alloc), failing))
}

/// The status of a case's run, and what it printed.
fn run_case<R: Threads + Wait + Sync>(
    rt: &R,
    alloc: Global,
    case: &Case,
) -> Result<(u8, Vec<u8>), Fail> {
    let (words, script, read, write, call, _, _) = case;
    let source = source_of(alloc, script, *read)?;
    let sink = sink_of(alloc, *write)?;
    let shelf = shelf_of(alloc, *call)?;
    Ok(run_text(rt, alloc, words, TinyHash, source, sink, shelf, &OpenGate)?)
}

#[test]
fn scripts_and_their_ends(rt: HostRuntime) -> Result<(), Fail> {
    let alloc = rt.alloc();
    for case in &CASES {
        let (ended, held) = run_case(&rt, alloc, case)?;
        let (_, _, _, _, _, status, printed) = case;
        assert_eq!(rt; ended, *status);
        assert_eq!(rt; held.as_slice(), printed.as_bytes());
    }
    Ok(())
}
