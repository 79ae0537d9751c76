//! A core under one lock, tied to what it was opened with.
ghost use Rattle.std.specs.Prelude.{◌≡◌, ◌<◌, IfOk, IfSome, IsTrue};
ghost use Rattle.actor_pool.specs.Order.{IsOf};

use crate::ahead::{are_few, reads_from};
use crate::given::{Given, Lack};
use half_hash::{Blob, Hash32, NodeHash};
use ledger_machine::Line;
use nib_path::nibble;
use node_backend::{Backend, Shelf};
use path_proof::FetchFault;
use shamap_node::branch_of_form;
use std::alloc::Global;
use std::marker::{Brand, Model, PhantomData};
use store_core::{Core, Followed, ReadJob, Stepped};

/// How many actors there are, numbered from 0.
pub(crate) const ACTORS: u8 = 64;

/// For how many reads an actor goes down before it hands in what it got, where no gate is passed between them.
pub(crate) const READS: usize = 128;

/// Which run it is: the script, the interval, the count of faults at opening and what was missed. Each
/// call picks it.
pub(crate) trait Pinned {
    ghost use Rattle.actor_pool.specs.Order.{RunOf};

    ghost run: { RunOf };
}

impl Pinned for Brand {
    ghost use Rattle.std.specs.Prelude.{[]};

    ghost run = { record { records = []; lines = []; interval = 0; opened = 0; missed = 0 } };
}

/// How far a worker goes.
#[derive(Clone, Copy, Debug)]
pub(crate) struct Stride {
    /// How many lines a section answers at most.
    pub(crate) lines: u32,
    /// For how many reads it goes down before it hands in what it got.
    pub(crate) reads: usize,
    /// How often it tries a line that waits before it leaves it to the next round.
    pub(crate) tries: u32,
}

/// What the last line of a section came to, and the reads that the actor's lines behind it ask for, if they ask for any. Those are taken
/// in the same section, so that a reader needs no other one for them.
#[derive(Drop)]
pub(crate) struct Section {
    pub(crate) stepped: Stepped,
    pub(crate) jobs: Vec<ReadJob>,
}

/// An actor whose turn it is, and the reads that its next lines ask for.
#[derive(Drop)]
pub(crate) struct Turn {
    pub(crate) actor: u8,
    pub(crate) jobs: Vec<ReadJob>,
}

/// Who is at an actor's lines.
#[derive(Clone, Copy, Debug)]
enum Hold {
    /// Nobody, and it has none.
    Absent,
    /// Nobody. The caller serves them.
    Free,
    /// Nobody. The next ones ask for reads, for which the actor waits.
    Waits,
    /// A worker, or the caller, with reads that the actor's next lines ask for.
    Held,
}

/// What a section for actors at whose lines nobody is came to.
#[derive(Clone, Copy, Debug)]
pub(crate) enum Served {
    /// Lines were answered.
    Line,
    /// A slice of a line was done.
    Slice,
    /// This actor's next lines ask for reads, fewer than a worker goes down for at once.
    Few(u8),
    /// This actor's next lines ask for more, and there are too few workers for all actors whose lines do.
    Reader(u8),
    /// There was nothing to do but such reads.
    Nothing,
}

/// A core of the pinned run.
#[derive(Drop)]
pub(crate) struct Shared<H: NodeHash, Sh: Shelf, J: Pinned> {
    core: Core<H, Sh>,
    /// Whose line is served next.
    turn: u8,
    /// For whom is read next, if he waits for it.
    reader: u8,
    /// Who is at each actor's lines.
    holds: [Hold; ACTORS as usize],
    /// How many workers read for actors in turn.
    workers: u32,
    of: PhantomData<J>,
}

impl<H: NodeHash, Sh: Shelf, J: Pinned> Model for Shared<H, Sh, J> {
    ghost use Rattle.std.specs.Coded.{codes};
    ghost use Rattle.ledger_spec.specs.Maps.{map_code, set_code};
    ghost use Rattle.store_core.specs.Journal.{CoreView};
    ghost use Rattle.actor_pool.specs.Order.{IsOf};

    ghost Value = { CoreView };

    ghost coded = { Prim.hlevel (codes, map_code, set_code) };

    ghost view = { λ s. s.core };

    ghost invariant = { λ s. IsOf J.run s.core };
}

impl<H: NodeHash, Sh: Shelf, J: Pinned> Shared<H, Sh, J> {
    /// A core at the lines of whose actors nobody is.
    pub(crate) fn new(core: Core<H, Sh>) -> Self
        requires { IsOf J.run core }
        ensures { result ≡ core }
    {
        let holds = actors_of(&core.script().lines);
        Shared {
            core,
            turn: 0,
            reader: 0,
            holds,
            workers: 0,
            of: PhantomData,
        }
    }

    /// One section for the actor's next lines. It ends behind one that isn't answered, and before one that asks for a read.
    pub(crate) fn step(&mut self, alloc: Global, actor: u8, stride: Stride) -> Section {
        let stepped = self.steps(alloc, actor, stride);
        self.section(alloc, actor, stepped, stride)
    }

    // The same, without the reads that are asked for behind it.
    fn steps(&mut self, alloc: Global, actor: u8, stride: Stride) -> Stepped {
        let mut stepped = self.line(alloc, actor);
        for _ in 1..stride.lines {
            if !is_answered(stepped) || self.asks(actor) {
                break;
            }
            stepped = self.line(alloc, actor);
        }
        stepped
    }

    /// One section for lines that ask for no read, of actors at whose lines nobody is: up to so many, until a line of one asks for a read.
    /// Who calls reads for that actor if it is few, and has a worker more if it is told so; none of its lines is served here meanwhile.
    pub(crate) fn serve(&mut self, alloc: Global, lines: u32) -> Served {
        for _ in 0..lines {
            match self.serve_next(alloc) {
                Served::Line => {}
                other => return other,
            }
        }
        Served::Line
    }

    // The same for one line: the next one of the actor whose turn it is, or of the first behind him that has one.
    fn serve_next(&mut self, alloc: Global) -> Served {
        for _ in 0..ACTORS {
            match self.serve_actor(alloc, self.turn) {
                Served::Nothing => self.turn = self.turn.saturating_add(1) % ACTORS,
                served => return served,
            }
        }
        Served::Nothing
    }

    // The same for an actor's next line.
    fn serve_actor(&mut self, alloc: Global, actor: u8) -> Served {
        if !self.is_free(actor) {
            return Served::Nothing;
        }
        if let Some(first) = self.core.read_job(actor) {
            return self.serve_reader(actor, &first);
        }
        match self.line(alloc, actor) {
            Stepped::Answered => Served::Line,
            Stepped::More => Served::Slice,
            Stepped::Blocked | Stepped::Finished => Served::Nothing,
        }
    }

    // The same for an actor whose next line asks for a read.
    fn serve_reader(&mut self, actor: u8, first: &ReadJob) -> Served {
        if are_few(&self.core.script().lines, actor, first, READS) {
            self.set_hold(actor, Hold::Held);
            return Served::Few(actor);
        }
        self.set_hold(actor, Hold::Waits);
        if self.workers >= self.readers().saturating_sub(1).max(1) {
            return Served::Nothing;
        }
        self.workers = self.workers.saturating_add(1);
        Served::Reader(actor)
    }

    // How many actors wait for reads, or have somebody who reads for them.
    fn readers(&self) -> u32 {
        let mut readers: u32 = 0;
        for hold in &self.holds {
            if matches!(hold, Hold::Waits | Hold::Held) {
                readers = readers.saturating_add(1);
            }
        }
        readers
    }

    // Whether an actor has lines, and nobody is at them.
    fn is_free(&self, actor: u8) -> bool {
        matches!(self.holds.get(actor as usize), Some(Hold::Free))
    }

    // Notes who is at an actor's lines.
    fn set_hold(&mut self, actor: u8, hold: Hold) {
        if let Some(own) = self.holds.get_mut(actor as usize) {
            *own = hold;
        }
    }

    /// Notes that nobody is at an actor's lines any more.
    pub(crate) fn set_free(&mut self, actor: u8) {
        self.set_hold(actor, Hold::Free);
    }

    /// A turn for the caller: the reads of an actor that waits for them, if one does. Each that waits has its turn before one has two.
    pub(crate) fn turn(&mut self, alloc: Global, stride: Stride) -> Option<Turn> {
        for _ in 0..ACTORS {
            let actor = self.reader;
            self.reader = actor.saturating_add(1) % ACTORS;
            if matches!(self.holds.get(actor as usize), Some(Hold::Waits)) {
                self.set_hold(actor, Hold::Held);
                let jobs = self.reads(alloc, actor, stride);
                return Some(Turn { actor, jobs });
            }
        }
        None
    }

    /// The same for a worker, which ends where none waits.
    pub(crate) fn worker_turn(&mut self, alloc: Global, stride: Stride) -> Option<Turn> {
        let turn = self.turn(alloc, stride);
        if turn.is_none() {
            self.workers = self.workers.saturating_sub(1);
        }
        turn
    }

    /// Takes what a reader got in an actor's turn. Where the actor's next line asks for a read again, it waits for the next one.
    pub(crate) fn hand_in(
        &mut self,
        alloc: Global,
        actor: u8,
        handed: Vec<Followed<H>>,
        stride: Stride,
    ) {
        let _ = self.take_lines(alloc, actor, handed, stride);
        if self.asks(actor) {
            self.set_hold(actor, Hold::Waits);
        } else {
            self.set_free(actor);
        }
    }

    /// The same for a worker, which has another turn then: for another actor that waits, or else for the same one.
    pub(crate) fn next_turn(
        &mut self,
        alloc: Global,
        actor: u8,
        handed: Vec<Followed<H>>,
        stride: Stride,
    ) -> Option<Turn> {
        self.hand_in(alloc, actor, handed, stride);
        self.worker_turn(alloc, stride)
    }

    // One step of the actor.
    fn line(&mut self, alloc: Global, actor: u8) -> Stepped {
        self.core.step(alloc, actor)
    }

    // One step of the actor, with what a reader got for it.
    fn take(&mut self, alloc: Global, actor: u8, handed: Followed<H>) -> Stepped {
        self.core.commit_followed(alloc, actor, handed)
    }

    // Whether the actor's next line asks for a read.
    fn asks(&self, actor: u8) -> bool {
        self.core.read_job(actor).is_some()
    }

    // A section that came to this, with the reads that are asked for behind it.
    fn section(&self, alloc: Global, actor: u8, stepped: Stepped, stride: Stride) -> Section {
        Section {
            stepped,
            jobs: self.reads(alloc, actor, stride),
        }
    }

    /// The reads that the actor's next lines ask for.
    pub(crate) fn reads(&self, alloc: Global, actor: u8, stride: Stride) -> Vec<ReadJob> {
        match self.core.read_job(actor) {
            Some(first) => reads_from(alloc, &self.core.script().lines, actor, first, stride.reads),
            None => Vec::new(alloc),
        }
    }

    /// The bytes that are stored under a hash.
    pub(crate) fn form_at(
        &mut self,
        alloc: Global,
        actor: u8,
        h: &Hash32,
    ) -> Result<Option<Blob>, FetchFault>
        ensures { IfOk result (λ o. IfSome o (λ form. IsTrue Sh.B.tells → H.half form ≡ h.now)) }
    {
        self.core.form_at(alloc, actor, h)
    }

    /// The bytes that these reads lack, each down to the end of its path. Where memory is refused, or the device fails, some are left out.
    pub(crate) fn forms_below(&mut self, alloc: Global, actor: u8, lacks: &[Lack]) -> Given<H, Sh> {
        let mut given = Given::new(alloc, lacks.len());
        for lack in lacks {
            self.path_below(alloc, actor, lack, &mut given);
        }
        given
    }

    // The bytes below a place on the way to a key.
    fn path_below(&mut self, alloc: Global, actor: u8, lack: &Lack, given: &mut Given<H, Sh>) {
        let mut hash = lack.hash;
        for depth in lack.depth..64 {
            let branch = nibble(&lack.key.bytes, depth);
            let Ok(Some(form)) = self.form_at(alloc, actor, &hash) else {
                return;
            };
            let below = branch_of_form(form.bytes(), branch);
            given.put(lack.read, &hash, form);
            match below {
                Some(next) if !next.is_zero() => hash = next,
                _ => return,
            }
        }
    }

    /// One section for the actor's next lines, with what a reader got for the first of them.
    pub(crate) fn commit(
        &mut self,
        alloc: Global,
        actor: u8,
        handed: Vec<Followed<H>>,
        stride: Stride,
    ) -> Section {
        let stepped = self.take_lines(alloc, actor, handed, stride);
        self.section(alloc, actor, stepped, stride)
    }

    // The same, without the reads that are asked for behind it.
    fn take_lines(
        &mut self,
        alloc: Global,
        actor: u8,
        handed: Vec<Followed<H>>,
        stride: Stride,
    ) -> Stepped {
        if handed.is_empty() {
            return self.steps(alloc, actor, stride);
        }
        let mut last = Stepped::Answered;
        for one in handed {
            last = self.take(alloc, actor, one);
            if !is_answered(last) {
                break;
            }
        }
        if is_answered(last) && stride.lines > 1 && !self.asks(actor) {
            return self.steps(alloc, actor, stride);
        }
        last
    }

    /// How many lines have their entries.
    pub(crate) fn answered(&self) -> usize {
        self.core.journal().len()
    }

    /// Whether the actor has a line left.
    pub(crate) fn is_left(&self, actor: u8) -> bool {
        self.is_free(actor) && !self.core.is_finished(actor)
    }

    pub(crate) fn into_core(self) -> Core<H, Sh>
        ensures same { result ≡ self }
        ensures of { IsOf J.run result }
    {
        self.core
    }
}

// Who is at each actor's lines in the beginning: nobody.
fn actors_of(lines: &[Line]) -> [Hold; ACTORS as usize] {
    let mut holds = [Hold::Absent; ACTORS as usize];
    for line in lines {
        if let Some(hold) = holds.get_mut(line.actor as usize) {
            *hold = Hold::Free;
        }
    }
    holds
}

// Whether a section came to an entry.
fn is_answered(stepped: Stepped) -> bool {
    match stepped {
        Stepped::Answered => true,
        _ => false,
    }
}
