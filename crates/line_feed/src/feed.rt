//! The feed: a piece of the input, and how far lines were taken from it. A line that goes over the piece's end is gathered from several.
ghost use Rattle.std.specs.Prelude.{◌≡◌, ◌<◌, ◌≤◌, ◌+◌, ◌-◌, ◌^◌, ◌++◌, [], ℕ, List, Option, Some, length, vec_len};
ghost use Rattle.std.specs.Prelude.{IfOk, IfErr, OnErr, IfSome, false};
ghost use Rattle.run_io.specs.Bytes.{Rose};

use crate::cutting::{line_end, part};
use half_hash::Memory;
use run_io::{AllFault, Fault, Source};
use std::alloc::Global;

/// How many bytes are asked for at once.
const PIECE: usize = 65536;

/// A piece of the input, and how far its lines were taken.
#[derive(Drop)]
pub struct Feed {
    piece: Vec<u8>,
    at: usize,
    end: usize,
    ghost size: { vec_len piece ≡ 65536 },
    ghost order: { at ≤ end },
    ghost within: { end ≤ 65536 },
}

/// What there was to take.
#[derive(Clone, Copy, Debug, PartialEq, Eq)]
pub enum Fed {
    /// A line, whose newline is taken too.
    Line,
    /// All that was left, which no newline ends; nothing where the last newline ended the input.
    End,
    /// The front of a line that is longer than it may be.
    TooLong,
}

impl Feed {
    ghost use Rattle.line_feed.specs.Feeding.{waiting, Feeds, Cuts, Fills};

    /// Nothing was read.
    pub fn new(alloc: Global) -> Result<Feed, Memory>
        ensures { IfOk result (λ feed. waiting feed ≡ []) }
    {
        let piece = vec![in alloc; 0; PIECE]?;
        Ok(Feed {
            piece,
            at: 0,
            end: 0,
        })
    }

    /// Takes the next line of at most so many bytes.
    pub fn next_line<S: Source>(
        &mut self,
        source: &mut S,
        most: usize,
        line: &mut Vec<u8>,
    ) -> Result<Fed, AllFault>
        ensures feeds { IfOk result (λ fed. IfSome (S.left source.old) (λ left.
            Feeds most fed (waiting self.old ++ left) line.new.items (waiting self.new) (S.left source.new))) }
        ensures later { S.faults source.old ≤ S.faults source.new }
        ensures cause { IfErr result (λ e. e ≡ AllFault.Fault → Rose (S.faults source.old) (S.faults source.new)) }
    {
        line.clear();
        loop {
            let whole = self.take_front(line)?;
            if line.len() > most {
                return Ok(Fed::TooLong);
            }
            if whole {
                return Ok(Fed::Line);
            }
            if self.fill(source)? == 0 {
                return Ok(Fed::End);
            }
        }
    }

    // Takes what waits up to the first newline and with it, or all of it.
    fn take_front(&mut self, line: &mut Vec<u8>) -> Result<bool, AllFault>
        ensures cuts { IfOk result (λ whole. Cuts whole (waiting self.old) line.old.items line.new.items (waiting self.new)) }
        ensures gone { IfOk result (λ whole. whole ≡ false → self.new.at ≡ self.new.end) }
        ensures len { IfOk result (λ whole. whole ≡ false → vec_len line.new ≡ vec_len line.old + (self.old.end - self.old.at)) }
        ensures memory { IfErr result (λ e. e ≡ AllFault.Memory) }
    {
        let waiting = part(&self.piece, self.at, self.end);
        let n = line_end(waiting);
        let (front, _behind) = waiting.split_at(n);
        line.extend_from_slice(front)?;
        if self.at + n < self.end {
            self.at += n + 1;
            Ok(true)
        } else {
            self.at = self.end;
            Ok(false)
        }
    }

    // Reads once, where all that was read is taken.
    fn fill<S: Source>(&mut self, source: &mut S) -> Result<usize, Fault>
        requires { self.old.at ≡ self.old.end }
        ensures fills { IfOk result (λ n. IfSome (S.left source.old) (λ left. Fills n left (waiting self.new) (S.left source.new))) }
        ensures size { IfOk result (λ n. self.new.end - self.new.at ≡ n) }
        ensures later { S.faults source.old ≤ S.faults source.new }
        ensures cause { OnErr result (Rose (S.faults source.old) (S.faults source.new)) }
    {
        let n = source.read(&mut self.piece)?;
        self.at = 0;
        self.end = n;
        Ok(n)
    }
}
