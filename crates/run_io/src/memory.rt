//! A source and a sink in memory, which fail at stated calls.
ghost use Rattle.std.specs.Prelude.{◌≡◌, ◌≤◌, [], Some, IfOk, OnErr, length};
ghost use Rattle.run_io.specs.Bytes.{CountsFaults, Reads, Writes};
ghost use Rattle.run_io.specs.Memory.{ReadsByPlan, WritesByPlan};

use crate::{Fault, Sink, Source};
use half_hash::Memory;
use std::alloc::Global;
use std::marker::Model;

/// Bytes that are read in pieces.
#[derive(Debug, Drop)]
pub struct MemSource {
    bytes: Vec<u8>,
    /// How many of them were read.
    at: usize,
    piece: usize,
    calls: u64,
    failing: Vec<u64>,
    faults: u64,
}

impl Model for MemSource {
    ghost use Rattle.std.specs.Prelude.{◌≤◌, drop, vec_len};
    ghost use Rattle.run_io.specs.Memory.{SourceState};

    ghost Value = { SourceState };

    ghost view = { λ s. record {
      left = drop s.at s.bytes.items;
      piece = s.piece;
      calls = s.calls;
      failing = s.failing.items;
      faults = s.faults;
    } };

    ghost invariant = { λ s. (s.at ≤ vec_len s.bytes) × (1 ≤ s.piece) };
}

impl MemSource {
    /// A source of these bytes, which gives at most `piece` of them at once and fails in the calls
    /// whose numbers, from 1, stand in `failing`.
    pub fn new(bytes: Vec<u8>, piece: usize, failing: Vec<u64>) -> MemSource
        requires { 1 ≤ piece }
        ensures left { result.left ≡ bytes.items }
        ensures piece { result.piece ≡ piece }
        ensures failing { result.failing ≡ failing.items }
        ensures fresh { (result.calls ≡ 0) × (result.faults ≡ 0) }
    {
        MemSource {
            bytes,
            at: 0,
            piece,
            calls: 0,
            failing,
            faults: 0,
        }
    }
}

impl Source for MemSource {
    ghost left = { λ s. Some s.left };

    ghost faults = { λ s. s.faults };

    /// Gives at most `piece` bytes, and fails exactly in the calls whose numbers stand in `failing`.
    fn read(&mut self, buf: &mut [u8]) -> Result<usize, Fault>
        ensures read { Reads (Some self.old.left) (Some self.new.left) buf.old buf.new result }
        ensures kept { OnErr result (self.new.left ≡ self.old.left) }
        ensures counts { CountsFaults (OnErr result) self.old.faults self.new.faults }

        // What this source does beyond any other.
        ensures plan { ReadsByPlan self.old self.new (length buf.old) result }
    {
        self.calls = self.calls.saturating_add(1);
        if self.failing.contains(&self.calls) {
            self.faults = self.faults.saturating_add(1);
            return Err(Fault);
        }
        let n = self.piece.min(buf.len().min(self.bytes.len() - self.at));
        buf[..n].copy_from_slice(&self.bytes[self.at..self.at + n]);
        self.at += n;
        Ok(n)
    }
}

/// Bytes that are written into room reserved before.
#[derive(Debug, Drop)]
pub struct MemSink {
    held: Vec<u8>,
    most: usize,
    calls: u64,
    failing: Vec<u64>,
    faults: u64,
}

impl Model for MemSink {
    ghost use Rattle.std.specs.Prelude.{◌≤◌, vec_len, vec_capacity};
    ghost use Rattle.run_io.specs.Memory.{SinkState};

    ghost Value = { SinkState };

    ghost view = { λ s. record { held = s.held.items; most = s.most; calls = s.calls; failing = s.failing.items; faults = s.faults } };

    ghost invariant = { λ s. (s.most ≤ vec_capacity s.held) × (vec_len s.held ≤ s.most) };
}

impl MemSink {
    /// An empty sink with room for `most` bytes, which fails in the calls whose numbers, from 1,
    /// stand in `failing`.
    pub fn new(alloc: Global, most: usize, failing: Vec<u64>) -> Result<MemSink, Memory>
        ensures held { IfOk result (λ sink. sink.held ≡ []) }
        ensures most { IfOk result (λ sink. sink.most ≡ most) }
        ensures failing { IfOk result (λ sink. sink.failing ≡ failing.items) }
        ensures fresh { IfOk result (λ sink. (sink.calls ≡ 0) × (sink.faults ≡ 0)) }
    {
        Ok(MemSink {
            held: Vec::with_capacity(alloc, most)?,
            most,
            calls: 0,
            failing,
            faults: 0,
        })
    }

    /// The bytes that were written.
    pub fn held(&self) -> &[u8]
        ensures { result.now ≡ self.now.held }
    {
        &self.held
    }
}

impl Sink for MemSink {
    ghost held = { λ s. Some s.held };

    ghost faults = { λ s. s.faults };

    /// Takes what fits, with no memory, and fails exactly in the calls whose numbers stand in
    /// `failing` and where nothing of a piece fits.
    fn write(&mut self, piece: &[u8]) -> Result<usize, Fault>
        ensures written { Writes (Some self.old.held) (Some self.new.held) piece.now result }
        ensures counts { CountsFaults (OnErr result) self.old.faults self.new.faults }

        // What this sink does beyond any other.
        ensures plan { WritesByPlan self.old self.new piece.now result }
    {
        self.calls = self.calls.saturating_add(1);
        let room = self.most - self.held.len();
        if self.failing.contains(&self.calls) || (room == 0 && !piece.is_empty()) {
            self.faults = self.faults.saturating_add(1);
            return Err(Fault);
        }
        let n = room.min(piece.len());
        self.held.extend_from_slice(&piece[..n]).unwrap();
        Ok(n)
    }
}
