//! Rotations whose copy is cut into slices, while another actor writes, adds roots and ends them.
use crate::endings::run_text;
use crate::rows::expand;
use actor_pool::{Gate, Point};
use half_hash::Half512;
use node_backend::MemShelf;
use run_io::{MemSink, MemSource};
use std::alloc::Global;
use std::process::Abort;
use std::sync::Wait;
use std::sync::atomic::{AtomicU64, Ordering};
use std::test::Fail;
use std::thread;
use std::thread::Threads;

/// How long an actor is held at most.
const MOST_TURNS: u32 = 100_000_000;

/// How many pairs of accounts the first actor's session sets.
const PAIRS: u16 = 265;

/// How many answers the first actor has once its rotation has begun: to three lines of the beginning, the puts, and six more.
const BEGUN: u64 = 539;

/// How many lines the second actor has.
const OTHERS: u64 = 7;

/// What a session makes, and where its rotation is held.
#[derive(Clone, Copy)]
struct Case {
    /// Whether the keys of a pair differ in their last digit, so that some sixty nodes stand over the two alone, or in their fifth one.
    deep: bool,
    /// The ledger that the first actor closes, and the one that the other closes over it, as `Ledger` of tools/store_rules.py makes them.
    closed: &'static str,
    next: &'static str,
    /// How many slices the rotation does, and behind how many of them the other actor writes.
    slices: u64,
    held_after: u64,
}

/// A ledger of 1,326 hashes, whose copy ends with its slices.
const FEW: Case = Case {
    deep: false,
    closed: "10129BFD83F8A30E0C55FA8AE7F44E0C484DEB4862458FFD7C841EA459938C94",
    next: "2E8F507A3EBC12BC2750B88382F4887DD54C84B975E3AEC730E62B79D89A9D1A",
    slices: 5,
    held_after: 1,
};

/// A ledger of 16,961 hashes, more than 65 slices take. A rotation does 64, and its swap copies what is left in one section. `rt try`
/// takes some 40 processor seconds for it: beside other work give it `--seconds 300`.
const MANY: Case = Case {
    deep: true,
    closed: "891FB5B4FB5E103C500E369A8AB187B629570AEFC9044F4E51138428C8627CA9",
    next: "258D420B6E1E9A1D9485333FC35332240174F69CCF5AE957FD70FB729240072A",
    slices: 64,
    held_after: 64,
};

/// A ledger of one account, which is stored from the beginning, and a session over it.
pub(crate) const BEGINNING: &str =
    "store 8FD3CF3398C4E5250787DA9BB64CE8F92FA1DA06DFF9B8C748214BA02AA4C205 4C57520000000001016345785D8A__000082D52A1F905412CD1B46085D3D25579068DD2BFE7FD246A3D69CED11C6A0AE0A00000000000000000A00\n\
      store 3E1D42A4EF35E0DCB7D86F9F83CF8C65D45BE5BF42520284D68FD7FBA4D2765E 4D4C4E0005FFFFFFFFFFFFFFFFFFFFFFFFFFFFFFFFFFFFFFFFFFFFFFFFFFFFFFFFFFFFFFFF\n\
      store 82D52A1F905412CD1B46085D3D25579068DD2BFE7FD246A3D69CED11C6A0AE0A 4D494E_______________003E1D42A4EF35E0DCB7D86F9F83CF8C65D45BE5BF42520284D68FD7FBA4D2765E\n\
      0 want 8FD3CF3398C4E5250787DA9BB64CE8F92FA1DA06DFF9B8C748214BA02AA4C205 0\n\
      0 check 8FD3CF3398C4E5250787DA9BB64CE8F92FA1DA06DFF9B8C748214BA02AA4C205\n\
      0 edit 1 8FD3CF3398C4E5250787DA9BB64CE8F92FA1DA06DFF9B8C748214BA02AA4C205\n";

/// The close of the session that set the pairs; a ledger whose second account is still missing; a rotation; and what is there
/// behind it.
const ROTATION: &str = "0 close 1 100000000000000000 2 10 0\n\
      0 want B1FF3F2E046B52F9E6EDEDD226518C0A17C43FD49CA26CD7393FD6DB5CC857FE 4\n\
      0 peer 5 B1FF3F2E046B52F9E6EDEDD226518C0A17C43FD49CA26CD7393FD6DB5CC857FE\n\
      0 base 5 B1FF3F2E046B52F9E6EDEDD226518C0A17C43FD49CA26CD7393FD6DB5CC857FE 00000004016345785D8A__00005988550101CF7AC4309AC881CF44ECF4AB6BDF41BCA7893C00A0CDBDD87B342600000000000000000A00 _98F16A0CF9A95B826E76D39C83F6E0257A81B52BBEE1B8AF86A68E3A6E7A6C3914F8E169BA14D0AA3ECF5B86FFB09A8284CCDCC9AA04DCD42ED6752C937B80D5_____________02\n\
      0 node 5 B1FF3F2E046B52F9E6EDEDD226518C0A17C43FD49CA26CD7393FD6DB5CC857FE state 1_1 0102101010101010101010101010101010101010101010101010101010101010101001\n\
      0 begin\n\
      0 swap\n\
      0 check B1FF3F2E046B52F9E6EDEDD226518C0A17C43FD49CA26CD7393FD6DB5CC857FE\n\
      0 view 1 %\n\
      0 get 1 state 0100000000000000000000000000000000000000000000000000000000000001\n\
      0 get 1 state 0200000000000000000000000000000000000000000000000000000000000000\n";

/// What the other actor does between two slices: a node under a copied one, a ledger over a copied one, a root that comes and two that go.
const MEANWHILE: &str =
    "1 node 5 B1FF3F2E046B52F9E6EDEDD226518C0A17C43FD49CA26CD7393FD6DB5CC857FE state 2_1 0304202020202020202020202020202020202020202020202020202020202020202001\n\
      1 edit 2 $\n\
      1 put 2 0100000000000000000000000000000000000000000000000000000000000001 06\n\
      1 close 2 100000000000000000 3 10 0\n\
      1 want 1111111111111111111111111111111111111111111111111111111111111111 9\n\
      1 view 3 $\n\
      1 unview 3\n";

/// What the lines from the close on are answered, and the end.
const ANSWERS: &str = "537 0 close closed $\n\
      538 0 want opened\n\
      539 0 peer added\n\
      540 0 base good / good\n\
      541 0 node good\n\
      542 0 begin begun 2 2\n\
      548 1 node good\n\
      549 1 edit ok\n\
      550 1 put ok\n\
      551 1 close closed %\n\
      552 1 want opened\n\
      553 1 view ok\n\
      554 1 unview ok\n\
      543 0 swap swapped 1\n\
      544 0 check complete\n\
      545 0 view ok\n\
      546 0 get value 06\n\
      547 0 get value 05\n\
      end complete 2 closed 2 listed 3 floor 2 last 2 epoch 1\n";

/// Holds the second actor until the first has done so many slices of its swap, and the first behind them until the second has had its
/// lines answered.
#[derive(Drop)]
struct Between {
    held_after: u64,
    answers: AtomicU64,
    slices: AtomicU64,
    others: AtomicU64,
    gave_up: AtomicU64,
}

impl Between {
    fn new(held_after: u64) -> Between {
        Between {
            held_after,
            answers: AtomicU64::new(0),
            slices: AtomicU64::new(0),
            others: AtomicU64::new(0),
            gave_up: AtomicU64::new(0),
        }
    }

    fn slice(&self) {
        if self.answers.load(Ordering::SeqCst) != BEGUN {
            return;
        }
        self.slices.fetch_add(1, Ordering::SeqCst);
        if self.slices.load(Ordering::SeqCst) == self.held_after {
            self.wait(&self.others, OTHERS);
        }
    }

    fn wait(&self, count: &AtomicU64, least: u64) {
        for _ in 0..MOST_TURNS {
            if count.load(Ordering::SeqCst) >= least {
                return;
            }
            thread::yield_now();
        }
        self.gave_up.store(1, Ordering::SeqCst);
    }
}

impl Gate for Between {
    fn pass(&self, actor: u8, point: Point) {
        match (actor, point) {
            (0, Point::Answered) => {
                self.answers.fetch_add(1, Ordering::SeqCst);
            }
            (0, Point::BetweenSlices) => self.slice(),
            (1, Point::BeforeCommit) => self.wait(&self.slices, self.held_after),
            (1, Point::Answered) => {
                self.others.fetch_add(1, Ordering::SeqCst);
            }
            _ => {}
        }
    }
}

/// The zeros of an account's key: 59 digits, beside four that number the pair and one that tells the two apart.
const ZEROS: &str = "00000000000000000000000000000000000000000000000000000000000";

/// What follows the number of a pair: zeros and the digit, or the digit and zeros.
fn add_digit(text: &mut Vec<u8>, deep: bool, digit: u8) -> Result<(), Fail> {
    if deep {
        text.extend_from_slice(ZEROS.as_bytes())?;
        text.push(digit)?;
    } else {
        text.push(digit)?;
        text.extend_from_slice(ZEROS.as_bytes())?;
    }
    Ok(())
}

/// A line that sets the account of this number with this one of its pair's two digits.
fn add_put(
    text: &mut Vec<u8>,
    alloc: Global,
    deep: bool,
    number: u16,
    digit: u8,
) -> Result<(), Fail> {
    let [high, low] = number.to_be_bytes();
    text.extend_from_slice("0 put 1 ".as_bytes())?;
    text.extend_from_slice(hex::encode_upper(alloc, &[low, high])?.as_bytes())?;
    add_digit(text, deep, digit)?;
    text.extend_from_slice(" 05\n".as_bytes())?;
    Ok(())
}

/// Lines that set so many pairs of accounts.
pub(crate) fn add_puts(
    text: &mut Vec<u8>,
    alloc: Global,
    deep: bool,
    pairs: u16,
) -> Result<(), Fail> {
    for number in 1..=pairs {
        add_put(text, alloc, deep, number, b'0')?;
        add_put(text, alloc, deep, number, b'1')?;
    }
    Ok(())
}

/// Adds the text that is written in short, where `$` and `%` stand for the ledger that is closed and the next one.
fn add_filled(text: &mut Vec<u8>, alloc: Global, case: &Case, short: &str) -> Result<(), Fail> {
    for byte in expand(alloc, short)? {
        match byte {
            b'$' => text.extend_from_slice(case.closed.as_bytes())?,
            b'%' => text.extend_from_slice(case.next.as_bytes())?,
            other => text.push(other)?,
        }
    }
    Ok(())
}

/// The beginning, the session, and the rest of each actor.
fn script(alloc: Global, case: &Case) -> Result<MemSource, Fail> {
    let mut text = expand(alloc, BEGINNING)?;
    add_puts(&mut text, alloc, case.deep, PAIRS)?;
    add_filled(&mut text, alloc, case, ROTATION)?;
    add_filled(&mut text, alloc, case, MEANWHILE)?;
    Ok(MemSource::new(text, 100_000, Vec::new(alloc)))
}

/// A replay in which this gate holds the actors: its status, and what it printed.
fn held_replay<R: Threads + Wait + Sync>(
    rt: &R,
    alloc: Global,
    source: MemSource,
    gate: &Between,
) -> Result<(u8, Vec<u8>), Fail> {
    let words = ["replay", "--interval", "1"];
    let sink = MemSink::new(alloc, 1_000_000, Vec::new(alloc))?;
    let shelf = MemShelf::new(alloc, Vec::new(alloc), Vec::new(alloc));
    Ok(run_text(rt, alloc, &words, Half512, source, sink, shelf, gate)?)
}

/// What the case's lines from the close on are answered.
fn answers(alloc: Global, case: &Case) -> Result<Vec<u8>, Fail> {
    let mut answers = Vec::new(alloc);
    add_filled(&mut answers, alloc, case, ANSWERS)?;
    Ok(answers)
}

/// Runs the case's session and rotation, with the other actor's lines between two slices.
fn replay<R: Abort + Threads + Wait + Sync>(
    rt: &R,
    alloc: Global,
    case: &Case,
) -> Result<(), Fail> {
    let answers = answers(alloc, case)?;
    let gate = Between::new(case.held_after);
    let (status, printed) = held_replay(rt, alloc, script(alloc, case)?, &gate)?;
    assert_eq!(rt; status, 0);
    assert_eq!(rt; gate.gave_up.load(Ordering::SeqCst), 0);
    assert_eq!(rt; gate.slices.load(Ordering::SeqCst), case.slices);
    assert!(rt; printed.ends_with(&answers));
    Ok(())
}

#[test]
fn another_actor_writes_between_slices(rt: HostRuntime) -> Result<(), Fail> {
    replay(&rt, rt.alloc(), &FEW)
}

#[test]
fn another_actor_writes_behind_64_slices(rt: HostRuntime) -> Result<(), Fail> {
    replay(&rt, rt.alloc(), &MANY)
}
