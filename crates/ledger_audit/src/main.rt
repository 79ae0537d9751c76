//! `ledger_audit` checks a whole ledger that is given in a server's pages on standard input, `ledger_audit --plain` one in plain lines, and
//! `ledger_audit --path` one object along its path: the answer is one line, and a status.
#![tactic(auto)]

ghost use Rattle.std.specs.Prelude.{◌≡◌, ◌⊎◌, ◌↔◌, map, IfOk, string_bytes};
ghost use Rattle.std.specs.Process.{exit_status};
ghost use Rattle.ledger_audit.specs.Words.{AreCommand};

mod progress;
mod text;
mod top;
mod words;

use half_hash::Half512;
use progress::{Teller, Telling};
use run_io::{StdSink, StdSource};
use std::alloc::AllocError;
use std::io::{IsTerminal, Stderr};
use std::process::ExitCode;
use std::{env, io};
use top::{NO_MEMORY, USAGE, ledger_audit};

fn main(rt: HostRuntime) -> ExitCode {
    exit_code(status_of(&rt))
}

/// The status as the process ends with it.
fn exit_code(status: u8) -> ExitCode
    ensures { exit_status result ≡ status }
{
    ExitCode::from(status)
}

/// The status of the run with the words behind the program's name. Words that are no text are other words than the command's.
fn status_of(rt: &HostRuntime) -> u8 {
    match words_of(rt) {
        Ok(words) => run_with(rt, &words),
        Err(fault) => {
            if fault.kind() == io::ErrorKind::OutOfMemory {
                NO_MEMORY
            } else {
                run_on(rt, &[])
            }
        }
    }
}

/// The words behind the program's name.
fn words_of(rt: &HostRuntime) -> io::Result<Vec<String>> {
    let mut words = Vec::new(rt.alloc());
    let mut args = env::args(rt)?;
    let _ = args.next();
    for word in args {
        words.push(word)?;
    }
    Ok(words)
}

/// A run with these words.
fn run_with(rt: &HostRuntime, words: &[String]) -> u8
    ensures usage { result ≡ USAGE → AreCommand (map string_bytes words.now) → ⊥ }
    ensures others { (AreCommand (map string_bytes words.now) → ⊥) → (result ≡ USAGE) ⊎ (result ≡ NO_MEMORY) }
{
    match texts_of(rt, words) {
        Ok(texts) => run_on(rt, &texts),
        Err(AllocError) => NO_MEMORY,
    }
}

/// The texts of the words.
fn texts_of<'a>(rt: &HostRuntime, words: &'a [String]) -> Result<Vec<&'a str>, AllocError>
    ensures { IfOk result (λ texts. map (λ t. t.now) texts.items ≡ map string_bytes words.now) }
{
    let mut texts = Vec::new(rt.alloc());
    for word in words {
        texts.push(word.as_str())?;
    }
    Ok(texts)
}

/// A run over standard input and output with SHA-512Half.
fn run_on(rt: &HostRuntime, words: &[&str]) -> u8
    ensures { (result ≡ USAGE) ↔ (AreCommand (map (λ w. w.now) words.now) → ⊥) }
{
    let teller = Teller::new(rt, terminal_of(rt));
    let mut source = Telling::new(StdSource::new(rt.stdin()), teller);
    let mut sink = StdSink::new(rt.stdout());
    ledger_audit::<Half512, _, _>(rt.alloc(), words, &mut source, &mut sink)
}

/// Standard error, where it is a terminal.
fn terminal_of(rt: &HostRuntime) -> Option<Stderr> {
    let stderr = rt.stderr();
    if stderr.is_terminal() {
        Some(stderr)
    } else {
        None
    }
}
