//! Reads that go on outside the core's lock, also across a rotation.
use crate::cores::{acted, core_over, entries, epoch, stepped};
use crate::rows::expand;
use actor_pool::{Gate, Point};
use half_hash::{Hash32, TinyHash};
use ledger_machine::{Entry, GetReply, Reply};
use node_backend::MemShelf;
use path_proof::{Answer, Outcome};
use run_io::MemSource;
use shamap_node::Node;
use std::alloc::Global;
use std::process::Abort;
use std::sync::atomic::{AtomicU64, Ordering};
use std::test::Fail;
use store_core::{Core, ReadJob, Stepped};

/// How long an actor is held at most.
const MOST_TURNS: u32 = 100_000_000;

/// A reader's view is of a ledger whose rotation begins and ends while the reader is between two nodes.
const CROSSING: &str = "0 want [DD] 10
0 peer 5 [DD]
0 base 5 [DD] @ [FA]0103
0 node 5 [DD] state [10]01 0102[10]01
0 check [DD]
2 after 5 view 1 [DD]
2 get 1 state [10]
0 edit 1 [DD]
0 put 1 [11] 05
0 close 1 0 0 0 0
0 begin
0 swap
";

/// A view of the ledger, and a read by it.
const READING: &str = "0 want [DD] 10
0 peer 5 [DD]
0 base 5 [DD] @ [FA]0103
0 node 5 [DD] state [10]01 0102[10]01
0 check [DD]
0 view 7 [DD]
0 get 7 state [10]
";

/// Holds the reader, actor 2, at its first section until five of actor 0's were answered, and between two nodes until ten were; and actor 0
/// behind eight until the reader has its first node.
#[derive(Drop)]
struct Crossing {
    answered: AtomicU64,
    came: AtomicU64,
    fetched: AtomicU64,
    gave_up: AtomicU64,
}

impl Crossing {
    fn new() -> Crossing {
        Crossing {
            answered: AtomicU64::new(0),
            came: AtomicU64::new(0),
            fetched: AtomicU64::new(0),
            gave_up: AtomicU64::new(0),
        }
    }

    fn hold(&self, count: &AtomicU64, least: u64) {
        for _ in 0..MOST_TURNS {
            if count.load(Ordering::SeqCst) >= least {
                return;
            }
        }
        self.gave_up.store(1, Ordering::SeqCst);
    }
}

impl Gate for Crossing {
    fn pass(&self, actor: u8, point: Point) {
        match (actor, point) {
            (0, Point::Answered) => {
                self.answered.fetch_add(1, Ordering::SeqCst);
            }
            (0, Point::BeforeCommit) => {
                if self.answered.load(Ordering::SeqCst) == 8 {
                    self.hold(&self.fetched, 1);
                }
            }
            (2, Point::BeforeCommit) => {
                if self.came.fetch_add(1, Ordering::SeqCst) == 0 {
                    self.hold(&self.answered, 5);
                }
            }
            (2, Point::AfterFetch) => {
                if self.fetched.fetch_add(1, Ordering::SeqCst) == 0 {
                    self.hold(&self.answered, 10);
                }
            }
            _ => {}
        }
    }
}

/// The core of a script that is read, in which each ledger more is due to be rotated.
fn opened(alloc: Global, short: &str) -> Result<Core<TinyHash, MemShelf>, Fail> {
    let text = expand(alloc, short)?;
    let source = MemSource::new(text, 500, Vec::new(alloc));
    Ok(core_over(alloc, TinyHash, source, 1).ok_or("no core")?)
}

/// Whether the reply to a read is the value 0102, and both nodes of its path were used.
fn is_read(entry: &Entry) -> bool {
    match &entry.reply {
        Reply::Get(GetReply::Value(leaf)) => is_leaf(leaf) && entry.used.len() == 2,
        _ => false,
    }
}

fn is_leaf(node: &Node) -> bool {
    match node {
        Node::Leaf(leaf) => leaf.item.data() == [1, 2].as_slice(),
        Node::Inner(_) => false,
    }
}

/// The line of the last entry, where that is such a read.
fn last_read(entries: &[Entry]) -> Option<u32> {
    match entries.last() {
        Some(last) => is_read(last).then_some(last.line),
        None => None,
    }
}

#[test]
fn a_read_goes_on_across_a_swap(rt: HostRuntime) -> Result<(), Fail> {
    let alloc = rt.alloc();
    let core = opened(alloc, CROSSING)?;
    let gate = Crossing::new();
    let core = acted(&rt, alloc, core, &gate);
    assert_eq!(rt; gate.gave_up.load(Ordering::SeqCst), 0);
    assert_eq!(rt; gate.fetched.load(Ordering::SeqCst), 2);
    assert_eq!(rt; epoch(&core), 1);
    // the reader's answer came last
    assert_eq!(rt; last_read(entries(&core)), Some(7));
    Ok(())
}

/// The read that the actor's next line asks for.
fn job(core: &Core<TinyHash, MemShelf>) -> Option<ReadJob> {
    core.read_job(0)
}

/// Does a section with an answer that is no path.
fn commit(alloc: Global, core: &mut Core<TinyHash, MemShelf>, job: &ReadJob) -> Stepped {
    let got = Ok(Answer {
        outcome: Outcome::Nothing,
        used: Vec::new(alloc),
    });
    core.commit_read(alloc, 0, job, got)
}

/// Answers the lines before the read, none of which asks for one.
fn answer_all_before(rt: &impl Abort, alloc: Global, core: &mut Core<TinyHash, MemShelf>) {
    for _ in 0..6 {
        assert!(rt; job(core).is_none());
        assert_eq!(rt; stepped(alloc, core, 0), Stepped::Answered);
    }
}

/// Hands in what is no path, where a read is asked for.
fn hand_in(
    rt: &impl Abort,
    alloc: Global,
    core: &mut Core<TinyHash, MemShelf>,
) -> Result<(), Fail> {
    let job = job(core).ok_or("job")?;
    assert_eq!(rt; job.root.bytes[0], 0xDE);
    assert_eq!(rt; commit(alloc, core, &job), Stepped::Answered);
    Ok(())
}

/// What a reader hands in is no path to the key, so the core reads itself.
#[test]
fn an_answer_that_is_no_path_is_not_taken(rt: HostRuntime) -> Result<(), Fail> {
    let alloc = rt.alloc();
    let mut core = opened(alloc, READING)?;
    answer_all_before(&rt, alloc, &mut core);
    hand_in(&rt, alloc, &mut core)?;
    assert_eq!(rt; last_read(entries(&core)), Some(7));
    Ok(())
}

/// Whether the node of this hash is there.
fn has_node(alloc: Global, core: &mut Core<TinyHash, MemShelf>, h: &Hash32) -> Result<bool, Fail> {
    Ok(core.node_at(alloc, 0, h).ok().ok_or("node")?.is_some())
}

/// Whether its bytes are.
fn has_form(alloc: Global, core: &mut Core<TinyHash, MemShelf>, h: &Hash32) -> Result<bool, Fail> {
    Ok(core.form_at(alloc, 0, h).ok().ok_or("form")?.is_some())
}

/// Fetches what the read begins with, and what isn't there.
fn fetch(rt: &impl Abort, alloc: Global, core: &mut Core<TinyHash, MemShelf>) -> Result<(), Fail> {
    let job = job(core).ok_or("job")?;
    assert!(rt; has_node(alloc, core, &job.root)?);
    assert!(rt; has_form(alloc, core, &job.root)?);
    assert!(rt; !has_node(alloc, core, &job.key)?);
    assert!(rt; !has_form(alloc, core, &job.key)?);
    Ok(())
}

/// A node is fetched for an actor, and the bytes of one.
#[test]
fn a_node_is_fetched(rt: HostRuntime) -> Result<(), Fail> {
    let alloc = rt.alloc();
    let mut core = opened(alloc, READING)?;
    answer_all_before(&rt, alloc, &mut core);
    fetch(&rt, alloc, &mut core)
}
