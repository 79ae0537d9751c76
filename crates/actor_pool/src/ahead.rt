//! The reads that an actor's lines ask for, so far ahead as the script tells them: a `get` on the view of the one before it, whose root is
//! known.

use half_hash::Hash32;
use ledger_machine::{Command, Line};
use shamap_node::Kind;
use std::alloc::Global;
use store_core::ReadJob;

/// How many lines behind a read are looked at, those of other actors among them.
const AHEAD: usize = 256;

/// For how many reads there is room from the start.
const ROOM: usize = 32;

/// How many lines behind a read are looked at for one of the actor's that is none.
const SIGHT: usize = 1024;

/// The first read, and those that the actor's lines behind it ask for, of at most so many: up to the first line that is none on the same
/// view and map, or waits for another line. Where memory is refused there are fewer.
pub(crate) fn reads_from(
    alloc: Global,
    lines: &[Line],
    actor: u8,
    first: ReadJob,
    most: usize,
) -> Vec<ReadJob> {
    let mut jobs = Vec::new(alloc);
    let _room = jobs.reserve(most.min(ROOM));
    if jobs.push(first).is_err() || most < 2 {
        return jobs;
    }
    let at = lines.partition_point(|line| line.number < first.line);
    let (_before, behind) = lines.split_at(at);
    let Some(view) = view_of(behind) else {
        return jobs;
    };
    for line in behind.iter().take(AHEAD) {
        if line.actor != actor || line.number == first.line {
            continue;
        }
        let Some(key) = key_in(line, view, first.kind) else {
            break;
        };
        let job = ReadJob {
            line: line.number,
            root: first.root,
            kind: first.kind,
            key,
        };
        if jobs.len() >= most || jobs.push(job).is_err() {
            break;
        }
    }
    jobs
}

/// Whether the actor's lines from this read on ask for fewer than so many before one that asks for none, which must stand in sight.
pub(crate) fn are_few(lines: &[Line], actor: u8, first: &ReadJob, most: usize) -> bool {
    let at = lines.partition_point(|line| line.number <= first.line);
    let (_before, behind) = lines.split_at(at);
    let mut reads: usize = 1;
    for line in behind.iter().take(SIGHT) {
        if line.actor != actor {
            continue;
        }
        if !is_get(line) {
            return true;
        }
        reads = reads.saturating_add(1);
        if reads >= most {
            return false;
        }
    }
    behind.len() <= SIGHT
}

// Whether a line is a `get`.
fn is_get(line: &Line) -> bool {
    match &line.command {
        Command::Get { .. } => true,
        _ => false,
    }
}

// The view of the `get` that comes first.
fn view_of(lines: &[Line]) -> Option<u16> {
    match &lines.first()?.command {
        Command::Get { view, .. } => Some(*view),
        _ => None,
    }
}

// The key of a `get` on a view's map of a kind, which waits for no other line.
fn key_in(line: &Line, view: u16, kind: Kind) -> Option<Hash32> {
    match &line.command {
        Command::Get {
            view: v,
            kind: k,
            key,
        } if *v == view && *k == kind && line.after == 0 => Some(*key),
        _ => None,
    }
}
