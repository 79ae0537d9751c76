//! A source that tells on the way how far it is.
ghost use Rattle.std.specs.Prelude.{◌≡◌};

use run_io::{Fault, Source};
use std::io::Write;
use std::time::{Clock, Instant};

/// A source that tells how far it is. What it gives is what the source inside gives.
#[derive(Drop)]
pub struct Telling<'c, S: Source + Drop, C: Clock, W: Write + Drop> {
    inner: S,
    teller: Teller<'c, C, W>,
}

impl<'c, S: Source + Drop, C: Clock, W: Write + Drop> Telling<'c, S, C, W> {
    /// The source, and what it tells.
    pub fn new(inner: S, teller: Teller<'c, C, W>) -> Self
        ensures left { ⟦<Telling<'c, S, C, W> as Source>⟧.left result ≡ S.left inner }
        ensures faults { ⟦<Telling<'c, S, C, W> as Source>⟧.faults result ≡ S.faults inner }
    {
        Telling { inner, teller }
    }
}

impl<'c, S: Source + Drop, C: Clock, W: Write + Drop> Source for Telling<'c, S, C, W> {
    ghost left = { λ s. S.left s.inner };

    ghost faults = { λ s. S.faults s.inner };

    fn read(&mut self, buf: &mut [u8]) -> Result<usize, Fault> {
        let n = self.inner.read(buf)?;
        self.teller.count(&buf[..n]);
        Ok(n)
    }
}

/// What tells a writer once a second how many lines and megabytes there were, and how many megabytes a second. Nothing is told where there
/// is no writer or no clock; what the writer refuses is passed over.
#[derive(Drop)]
pub struct Teller<'c, C: Clock, W: Write + Drop> {
    clock: &'c C,
    writer: Option<W>,
    begun: Option<Instant>,
    told: u64,
    lines: u64,
    bytes: u64,
}

impl<'c, C: Clock, W: Write + Drop> Teller<'c, C, W> {
    /// From now on.
    pub fn new(clock: &'c C, writer: Option<W>) -> Self {
        Teller {
            clock,
            writer,
            begun: Instant::now(clock).ok(),
            told: 0,
            lines: 0,
            bytes: 0,
        }
    }

    // The bytes are counted, and what there was is told where another second is over.
    fn count(&mut self, piece: &[u8]) {
        if self.writer.is_none() {
            return;
        }
        let newlines = piece.iter().filter(|b| **b == b'\n').count();
        self.lines = self.lines.saturating_add(newlines as u64);
        self.bytes = self.bytes.saturating_add(piece.len() as u64);
        let seconds = self.seconds();
        if seconds > self.told {
            self.told = seconds;
            self.tell(seconds);
        }
    }

    // How many seconds there were; none without a clock.
    fn seconds(&self) -> u64 {
        match self.begun {
            Some(begun) => match begun.elapsed(self.clock) {
                Ok(time) => time.as_secs(),
                Err(_) => 0,
            },
            None => 0,
        }
    }

    // One line.
    fn tell(&mut self, seconds: u64) {
        let megabytes = self.bytes / 1_000_000;
        let speed = if seconds > 0 { megabytes / seconds } else { 0 };
        let lines = self.lines;
        if let Some(writer) = &mut self.writer {
            let _ = writeln!(writer, "{lines} lines, {megabytes} MB, {speed} MB/s");
        }
    }
}
