//! A check whose search is cut into slices, and begins anew where another actor's swap came between two of them.
use crate::cores::{core_over, entries, epoch, stepped};
use crate::rows::expand;
use crate::slices::{BEGINNING, add_puts};
use half_hash::Half512;
use ledger_machine::{CheckReply, Entry, Reply};
use node_backend::MemShelf;
use run_io::MemSource;
use std::alloc::Global;
use std::test::Fail;
use store_core::{Core, Stepped};

/// How many pairs of accounts the first session sets.
const PAIRS: u16 = 700;

/// The close of that session, a rotation, and twice a session of one account more with a rotation.
const ROTATIONS: &str = "0 close 1 100000000000000000 2 10 0\n\
      0 begin\n\
      0 swap\n\
      0 edit 2 2DD2C65CC05468D9AF2BA9AC62CD1A783BDC3C7D1124571560E64E668D414D39\n\
      0 put 2 0100000000000000000000000000000000000000000000000000000000000000 06\n\
      0 close 2 100000000000000000 3 10 0\n\
      0 begin\n\
      0 swap\n\
      0 edit 3 4E127E72AFF5CF9BB2F3579543B10B5E7A40EEEC9DDD0C28BD5955E5D174D81B\n\
      0 put 3 0100000000000000000000000000000000000000000000000000000000000000 07\n\
      0 close 3 100000000000000000 4 10 0\n\
      0 begin\n\
      0 swap\n";

/// Another ledger over the state of the first session.
const SEARCH: &str = "1 want 7A57099C54E606310C04923C875E1D27557743BAB15F5B5782E66FD80E256FE0 9\n\
      1 peer 5 7A57099C54E606310C04923C875E1D27557743BAB15F5B5782E66FD80E256FE0\n\
      1 base 5 7A57099C54E606310C04923C875E1D27557743BAB15F5B5782E66FD80E256FE0 00000009016345785D8A__0000344FFA093CFEBCEB6BF1449DAE675DFA69230D641BB68B6D5A6DE5B518B7721100000000000000000A00\n\
      1 check 7A57099C54E606310C04923C875E1D27557743BAB15F5B5782E66FD80E256FE0\n";

/// What the actors do, one after the other: so many lines of an actor to their answers, or one section of its next
/// line, a slice or the answer.
const STEPS: &str = "0 1404\n\
      1 3\n\
      1 slice\n\
      0 2\n\
      1 slice\n\
      1 slice\n\
      0 5\n\
      1 slice\n\
      1 slice\n\
      0 5\n\
      1 answer";

/// The script.
fn script(alloc: Global) -> Result<Vec<u8>, Fail> {
    let mut text = expand(alloc, BEGINNING)?;
    add_puts(&mut text, alloc, false, PAIRS)?;
    text.extend_from_slice(&expand(alloc, ROTATIONS)?)?;
    text.extend_from_slice(&expand(alloc, SEARCH)?)?;
    Ok(text)
}

/// A core of this script, in which each ledger more is due to be rotated.
fn opened(alloc: Global) -> Result<Core<Half512, MemShelf>, Fail> {
    let source = MemSource::new(script(alloc)?, 100_000, Vec::new(alloc));
    Ok(core_over(alloc, Half512, source, 1).ok_or("no core")?)
}

/// Does sections until so many lines of the actor are answered.
fn answer(
    alloc: Global,
    core: &mut Core<Half512, MemShelf>,
    actor: u8,
    lines: usize,
) -> Result<(), Fail> {
    let wanted = entries(core).len().saturating_add(lines);
    for _ in 0..10_000 {
        if entries(core).len() == wanted {
            return Ok(());
        }
        stepped(alloc, core, actor);
    }
    Err("not answered".into())
}

/// Does one section of the actor's next line, which must come to this.
fn section(
    alloc: Global,
    core: &mut Core<Half512, MemShelf>,
    actor: u8,
    wanted: Stepped,
) -> Result<(), Fail> {
    if stepped(alloc, core, actor) != wanted {
        return Err("another end of the section".into());
    }
    Ok(())
}

/// One step.
fn step(alloc: Global, core: &mut Core<Half512, MemShelf>, line: &str) -> Result<(), Fail> {
    let Some((actor, what)) = line.split_once(' ') else {
        return Err("no step".into());
    };
    let actor = actor.parse::<u8>()?;
    match (what, what.parse::<usize>()) {
        (_, Ok(lines)) => answer(alloc, core, actor, lines),
        ("slice", _) => section(alloc, core, actor, Stepped::More),
        _ => section(alloc, core, actor, Stepped::Answered),
    }
}

/// All steps.
fn run(alloc: Global, core: &mut Core<Half512, MemShelf>) -> Result<(), Fail> {
    for line in STEPS.lines() {
        step(alloc, core, line)?;
    }
    Ok(())
}

/// Whether the last entry says that a ledger is whole.
fn is_whole(entries: &[Entry]) -> bool {
    match entries.last() {
        Some(last) => matches!(&last.reply, Reply::Check(CheckReply::Complete)),
        None => false,
    }
}

#[test]
fn a_search_begins_anew_twice_and_then_runs_whole(rt: HostRuntime) -> Result<(), Fail> {
    let alloc = rt.alloc();
    let mut core = opened(alloc)?;
    run(alloc, &mut core)?;
    assert!(rt; is_whole(entries(&core)));
    assert_eq!(rt; epoch(&core), 3);
    Ok(())
}
