//! The lines that look whether ledgers are whole.
ghost use Rattle.std.specs.Prelude.{◌≡◌, ◌+◌, ◌^◌, ◌<◌, IfOk, OnOk, length};
ghost use Rattle.stop_run.specs.Looking.{line_with, lines_for};

use half_hash::{Hash32, Memory};
use ledger_machine::{Command, Line};
use std::alloc::Global;

/// More ledgers than this need more lines than have numbers.
const MOST: usize = 1 << 30;

/// The lines by which each of these ledgers is wanted and checked, numbered from 1. Where they would be too many, memory is wanted.
pub(crate) fn looking_at(alloc: Global, hashes: &[Hash32]) -> Result<Vec<Line>, Memory>
    ensures lines { IfOk result (λ lines. lines.items ≡ lines_for hashes.now) }
    ensures few { OnOk result (length hashes.now < 2 ^ 31) }
{
    let mut lines = Vec::new(alloc);
    if hashes.len() > MOST {
        return Err(Memory);
    }
    let mut number: u32 = 0;
    for hash in hashes {
        lines.push(wanting(number, hash))?;
        lines.push(checking(number, hash))?;
        number += 2;
    }
    Ok(lines)
}

// The line by which a ledger is wanted, in any sequence, behind this number.
fn wanting(number: u32, hash: &Hash32) -> Line
    requires { number + 1 < 2 ^ 32 }
    ensures { result ≡ line_with (number + 1) (Command.Want hash.now 0) }
{
    Line {
        number: number + 1,
        actor: 0,
        after: 0,
        command: Command::Want {
            target: *hash,
            seq: 0,
        },
    }
}

// The next one, by which it is checked.
fn checking(number: u32, hash: &Hash32) -> Line
    requires { number + 2 < 2 ^ 32 }
    ensures { result ≡ line_with (number + 2) (Command.Check hash.now) }
{
    Line {
        number: number + 2,
        actor: 0,
        after: 0,
        command: Command::Check { target: *hash },
    }
}
