//! The edge to std: a reader as a source, and a writer as a sink.
//!
//! What std tells of a reader's or a writer's bytes is passed on, which at a file, a socket or a
//! terminal is nothing. A call that the system interrupts counts as a fault, and is not tried again.
ghost use Rattle.std.specs.Prelude.{◌≡◌, IfOk, IsErr, OnErr};
ghost use Rattle.run_io.specs.Bytes.{CountsFaults, Writes, next_count};

use crate::{Fault, Sink, Source};
use std::io;
use std::io::{ErrorKind, Read, Write};

/// A reader of std.
#[derive(Drop)]
pub struct StdSource<R: Read> {
    inner: R,
    faults: u64,
}

impl<R: Read> StdSource<R> {
    /// What the reader has left, with no fault so far.
    pub fn new(inner: R) -> StdSource<R>
        ensures left { ⟦<StdSource<R> as Source>⟧.left result ≡ R.remaining inner }
        ensures faults { ⟦<StdSource<R> as Source>⟧.faults result ≡ 0 }
    {
        StdSource { inner, faults: 0 }
    }
}

impl<R: Read> Source for StdSource<R> {
    ghost left = { λ s. R.remaining s.inner };

    ghost faults = { λ s. s.faults };

    fn read(&mut self, buf: &mut [u8]) -> Result<usize, Fault> {
        count_error(self.inner.read(buf), &mut self.faults)
    }
}

/// A writer of std. Each write that answers Ok has left the writer's own buffer too, so nothing is
/// lost where the sink is let go.
#[derive(Drop)]
pub struct StdSink<W: Write> {
    inner: W,
    faults: u64,
}

impl<W: Write> StdSink<W> {
    /// What the writer holds, with no fault so far.
    pub fn new(inner: W) -> StdSink<W>
        ensures held { ⟦<StdSink<W> as Sink>⟧.held result ≡ W.contents inner }
        ensures faults { ⟦<StdSink<W> as Sink>⟧.faults result ≡ 0 }
    {
        StdSink { inner, faults: 0 }
    }

    /// The writer, to look at what it holds.
    pub fn get_ref(&self) -> &W
        ensures { W.contents result.now ≡ ⟦<StdSink<W> as Sink>⟧.held self.now }
    {
        &self.inner
    }
}

impl<W: Write> Sink for StdSink<W> {
    ghost held = { λ s. W.contents s.inner };

    ghost faults = { λ s. s.faults };

    fn write(&mut self, piece: &[u8]) -> Result<usize, Fault> {
        count_error(write_through(&mut self.inner, piece), &mut self.faults)
    }
}

/// The answer of std, where an error raises the count and nothing else does.
fn count_error(answer: io::Result<usize>, faults: &mut u64) -> Result<usize, Fault>
    ensures ok { IfOk answer (λ n. (result ≡ Ok n) × (faults.new ≡ faults.old)) }
    ensures err { OnErr answer (IsErr result × (faults.new ≡ next_count faults.old)) }
    ensures counts { CountsFaults (OnErr result) faults.old faults.new }
{
    match answer {
        Ok(n) => Ok(n),
        Err(_) => {
            *faults = faults.saturating_add(1);
            Err(Fault)
        }
    }
}

/// One write, and what the writer has in its buffer. A writer that takes nothing of a piece that
/// isn't empty has failed.
fn write_through<W: Write>(inner: &mut W, piece: &[u8]) -> io::Result<usize>
    ensures { Writes (W.contents inner.old) (W.contents inner.new) piece.now result }
{
    let n = inner.write(piece)?;
    inner.flush()?;
    if n == 0 && !piece.is_empty() {
        return Err(ErrorKind::WriteZero.into());
    }
    Ok(n)
}
