//! The core: a script, the journal of what was answered, and the state after it.
ghost use Rattle.std.specs.Prelude.{◌≡◌, ◌≢◌, ◌⊎◌, ◌↔◌, ◌+◌, ◌<◌, ◌≤◌, ◌^◌, [], true, IsTrue, IfOk, length, count_by};
ghost use Rattle.std.specs.Prelude.{IfErr, IfSome, MatchOption, Some, drop};
ghost use Rattle.std.specs.Option.{option_copied};
ghost use Rattle.ledger_machine.specs.Reading.{view_root};
ghost use Rattle.ledger_machine.specs.Scripts.{Rises, line_of, numbers_of};
ghost use Rattle.ledger_machine.specs.Limits.{actors};
ghost use Rattle.ledger_machine.specs.Runs.{IsDone, IsBlocked, is_answered as answered};
ghost use Rattle.ledger_machine.specs.Records.{AreRecords};
ghost use Rattle.ledger_machine.specs.State.{form_in};
ghost use Rattle.script_form.specs.Servable.{AreServable};
ghost use Rattle.ledger_searches.specs.Sharing.{IsPaired};
ghost use Rattle.run_io.specs.Bytes.{Rose};
ghost use Rattle.rotating_store.specs.Stores.{Store, nodes_of};
ghost use Rattle.core_machine.specs.Checking.{TurnsBy};
ghost use Rattle.store_core.specs.Committing.{ComesTo, Commits, IsShort};
ghost use Rattle.core_machine.specs.Dumping.{IsNextRecord, Follows};
ghost use Rattle.store_core.specs.Dumping.{IsHandedBack, IsOpened, Lists, missed_after};
ghost use Rattle.store_core.specs.Failing.{is_among, failed_after, with_fault};
ghost use Rattle.store_core.specs.Halls.{root_by};
ghost use Rattle.store_core.specs.Jobs.{job_in, TakesIn, HandsFault};
ghost use Rattle.store_core.specs.Journal.{Advances, AdvancesFor, Slices, ChecksFew, CopiesFew, IsJournal, IsNew, IsNext};
ghost use Rattle.core_machine.specs.Reads.{IsFormOf, IsNodeOf};
ghost use Rattle.store_core.specs.Journal.{AllBefore, AllFrom};
ghost use Rattle.core_machine.specs.Retaining.{AreRetained};
ghost use Rattle.core_machine.specs.Totals.{totals_of, is_complete as completes, is_closed as closes};

use crate::failed::Failed;
use crate::hall::Hall;
use crate::jobs::{Followed, Handed, ReadJob};
use core_machine::{Part, put_records};
use half_hash::{Blob, Hash32, Memory, NodeHash, known_half};
use ledger_machine::{
    ACTORS, CheckReply, CloseReply, Entry, Line, Record, Reply, Script, SwapReply, Totals,
};
use ledger_searches::Searches;
use node_backend::{BackFault, Shelf};
use path_proof::{Answer, FetchFault, ReadFault};
use rotating_store::{RotStore, Unopened};
use shamap_node::Node;
use std::alloc::Global;
use std::marker::Model;
use std::sync::Arc;

/// Why a stored record isn't given.
#[derive(Clone, Copy, Debug, PartialEq, Eq)]
pub enum OpenFault {
    /// A device failed, and the store's count rose.
    Fault,
    /// Memory was refused.
    Memory,
}

/// What became of a step.
#[derive(Clone, Copy, Debug, PartialEq, Eq)]
pub enum Stepped {
    /// An entry was recorded.
    Answered,
    /// One slice of a swap or of a check was done, and something is left to copy or to look at. Nothing was recorded.
    More,
    /// The line that the actor's next line waits for has no entry yet.
    Blocked,
    /// The actor has no line left.
    Finished,
}

/// A script with the journal of what was answered and the state after it. Each time that it is
/// given back the journal is a run of the store machine from the opening to the actual state,
/// which is sound.
#[derive(Drop)]
pub struct Core<H: NodeHash, Sh: Shelf> {
    script: Script,
    interval: u32,
    opened: u64,
    missed: u64,
    /// The actors whose fetch failed since their last entry.
    failed: Failed,
    cursors: Vec<usize>,
    journal: Vec<Entry>,
    hall: Hall<H, Sh>,
    /// What searches share, turned where a swap may have lost what it is true of.
    searches: Searches,
}

impl<H: NodeHash, Sh: Shelf> Model for Core<H, Sh> {
    ghost use Rattle.std.specs.Prelude.{◌+◌, length, vec_capacity};
    ghost use Rattle.std.specs.Coded.{codes};
    ghost use Rattle.ledger_spec.specs.Maps.{map_code, set_code};
    ghost use Rattle.core_machine.specs.Checking.{KeepsSearches};
    ghost use Rattle.store_core.specs.Journal.{CoreView, CoreKeeps};

    ghost Value = { CoreView };

    ghost coded = { Prim.hlevel (codes, map_code, set_code) };

    ghost view = { λ c. record {
      records = c.script.records.items;
      lines = c.script.lines.items;
      interval = c.interval;
      opened = c.opened;
      faults = c.hall.desk.faults;
      gets = c.hall.desk.gets;
      slices = c.hall.desk.slices;
      written = c.hall.desk.written;
      archived = c.hall.desk.archived;
      marks = c.searches.marks;
      hunts = c.searches.hunts.items;
      missed = c.missed;
      failed = c.failed;
      journal = c.journal.items;
      state = c.hall.desk.state;
      views = c.hall.views;
    } };

    ghost invariant = { λ c. CoreKeeps H.half c.script.records.items c.script.lines.items c.cursors.items c.journal.items
        (vec_capacity c.journal) c.interval Sh.B.tells c.opened c.hall.desk.faults (c.missed + length c.failed) c.hall.desk.state
        × KeepsSearches H.half Sh.B.tells c.hall.desk.state c.journal.items c.searches };
}

impl<H: NodeHash, Sh: Shelf> Core<H, Sh> {
    /// A core that has answered nothing, over a store of the shelf that holds the script's records, all of them born in epoch 0. A rotation
    /// is due where the greatest listed sequence is `interval` or more above the last rotation's. The journal's slots are reserved here, so
    /// that recording an entry takes no memory.
    pub fn open(
        alloc: Global,
        hash: H,
        script: Script,
        interval: u32,
        shelf: Sh,
    ) -> Result<Core<H, Sh>, Unopened<Sh>>
        requires apart { 0 < interval }
        requires lines { AreServable script.lines.items }
        requires records { AreRecords H.half script.records.items }
        ensures script { IfOk result (IsNew script.records.items script.lines.items interval) }
        ensures opened { IfOk result (IsOpened Sh.B.tells script.records.items interval (Sh.faults shelf)) }
        // A shelf or a store is handed back only where its count of faults is greater than that of the shelf.
        ensures shelf { (s : Sh) → result ≡ Err (Unopened.Shelf s) → Rose (Sh.faults shelf) (Sh.faults s) }
        ensures store { (s : Store) → result ≡ Err (Unopened.Store s) → IsHandedBack Sh.B.tells script.records.items (Sh.faults shelf) s }
    {
        let mut store = RotStore::open(alloc, shelf)?;
        match put_records::<H, Sh>(alloc, &mut store, &script.records) {
            Ok(()) => {}
            Err(BackFault::Fault) => return Err(Unopened::Store(store)),
            Err(BackFault::Memory) => return Err(Unopened::Memory),
        }
        let opened = store.faults();
        let Ok(cursors) = vec![in alloc; 0; ACTORS] else {
            return Err(Unopened::Memory);
        };
        let Ok(journal) = Vec::with_capacity(alloc, script.lines.len()) else {
            return Err(Unopened::Memory);
        };
        let Ok(searches) = Searches::new(alloc) else {
            return Err(Unopened::Memory);
        };
        let Ok(failed) = Failed::new(alloc) else {
            return Err(Unopened::Memory);
        };
        let hall = Hall::new(alloc, hash, interval, store);
        Ok(Core {
            script,
            interval,
            opened,
            missed: 0,
            failed,
            cursors,
            journal,
            hall,
            searches,
        })
    }

    /// Does one section of the actor's next line, unless that waits for one that has no entry yet. An actor past the last one has none. A
    /// swap does at most 64 slices of its rotation, each a section, before the one that answers; a check looks at 256 places in a section,
    /// and begins anew where a swap came between two of them; behind the third it searches to the end in one.
    pub fn step(&mut self, alloc: Global, actor: u8) -> Stepped
        ensures answered { result ≡ Stepped.Answered → Advances H.half Sh.B.tells self.old actor self.new }
        ensures more { result ≡ Stepped.More → Slices H.half Sh.B.tells self.old actor self.new }
        ensures short { IsShort Sh.B.tells self.old actor self.new }
        ensures comes { ComesTo self.old actor result self.new }
    {
        self.advance(alloc, actor, None, Part::Slice)
    }

    /// Answers the actor's next line, as `step` does, but in one section: neither what a swap has to copy nor what a check looks at is cut
    /// into slices.
    pub fn step_whole(&mut self, alloc: Global, actor: u8) -> Stepped
        ensures answered { result ≡ Stepped.Answered → Advances H.half Sh.B.tells self.old actor self.new }
        ensures whole { result ≢ Stepped.More }
        ensures comes { ComesTo self.old actor result self.new }
    {
        self.advance(alloc, actor, None, Part::Whole)
    }

    /// The same, for a reader that went down the path of a `get` outside of the core's lock and hands in what it got. Where the job is the
    /// one that the actor's next line asks for now, its answer is the reply if `follow` accepts it, and a fault is the reply if the actor's
    /// fetch failed. In every other case this does what `step` does.
    pub fn commit_read(
        &mut self,
        alloc: Global,
        actor: u8,
        job: &ReadJob,
        got: Result<Answer, ReadFault>,
    ) -> Stepped
        ensures does { Commits H.half Sh.B.tells self.old actor got result self.new }
        // the reader's answer is what is recorded, exactly where its nodes are a path to the key below the view's root
        ensures takes { job_in (root_by self.old.views) self.old.lines self.old.journal actor ≡ Some job.now
            → TakesIn H.half job.now got self.old.journal self.new.journal }
        ensures comes { ComesTo self.old actor result self.new }
    {
        let handed = Followed::judged(job, got);
        self.advance(alloc, actor, handed, Part::Slice)
    }

    /// The same, where the answer is known to be what its nodes say, so that none of them is hashed in this section.
    pub fn commit_followed(&mut self, alloc: Global, actor: u8, handed: Followed<H>) -> Stepped
        ensures does { Commits H.half Sh.B.tells self.old actor handed.got result self.new }
        ensures takes { job_in (root_by self.old.views) self.old.lines self.old.journal actor ≡ Some handed.job
            → TakesIn H.half handed.job handed.got self.old.journal self.new.journal }
        ensures comes { ComesTo self.old actor result self.new }
    {
        self.advance(alloc, actor, Some(handed), Part::Slice)
    }

    // One section of the actor's next line, by what a reader hands in where that serves.
    fn advance(
        &mut self,
        alloc: Global,
        actor: u8,
        handed: Option<Followed<H>>,
        part: Part,
    ) -> Stepped
        ensures answered { result ≡ Stepped.Answered → AdvancesFor H.half Sh.B.tells
            (Rose self.old.faults self.new.faults ⊎ (HandsFault handed × IsTrue (is_among actor self.old.failed))) self.old actor self.new }
        ensures takes { (h : Handed) → handed ≡ Some h → job_in (root_by self.old.views) self.old.lines self.old.journal actor ≡ Some h.job
            → TakesIn H.half h.job h.got self.old.journal self.new.journal }
        ensures more { result ≡ Stepped.More → (part ≡ Part.Slice) × Slices H.half Sh.B.tells self.old actor self.new }
        ensures copies { IsTrue Sh.B.tells → part ≡ Part.Slice → CopiesFew self.old actor self.new }
        ensures asks { part ≡ Part.Slice → ChecksFew self.old actor self.new }
        ensures slices { result ≢ Stepped.More → self.new.slices ≤ self.old.slices }
        ensures blocked { (result ≡ Stepped.Blocked) ↔ IsBlocked self.old.lines self.old.journal actor }
        ensures finished { (result ≡ Stepped.Finished) ↔ IsDone self.old.lines self.old.journal actor }
        ensures unchanged { (result ≡ Stepped.Blocked) ⊎ (result ≡ Stepped.Finished) → self.new ≡ self.old }
        ensures few { length self.new.journal ≤ length self.new.lines }
    {
        known_half::<H>();
        if actor as usize >= self.cursors.len() {
            return Stepped::Finished;
        }
        let from = self.cursors[actor as usize];
        let Some(at) = next_of(&self.script.lines, from, actor) else {
            self.cursors[actor as usize] = self.script.lines.len();
            return Stepped::Finished;
        };
        let after = self.script.lines[at].after;
        if after != 0 && !self.is_answered(after) {
            self.cursors[actor as usize] = at;
            return Stepped::Blocked;
        }
        let failed = self.failed.has(actor);
        let line = &self.script.lines[at];
        let Some((reply, used)) = self.hall.section(
            alloc,
            &mut self.searches,
            actor,
            line,
            handed,
            failed,
            part,
        )
        else {
            self.cursors[actor as usize] = at;
            return Stepped::More;
        };
        end_search(&mut self.searches, actor, &reply);
        let entry = Entry {
            line: line.number,
            actor,
            reply,
            used,
        };
        self.journal.push(entry).unwrap();
        self.failed.forget(actor);
        self.cursors[actor as usize] = at + 1;
        Stepped::Answered
    }

    /// The read that the actor's next line asks for: none where that is no `get`, or is blocked, or its view isn't open. It takes no
    /// memory.
    pub fn read_job(&self, actor: u8) -> Option<ReadJob>
        ensures exact { result ≡ job_in (root_by self.now.views) self.now.lines self.now.journal actor }
        // the root is that of the view's map in the state
        ensures told { IsTrue Sh.B.tells → result ≡ job_in (view_root self.now.state) self.now.lines self.now.journal actor }
    {
        self.hall.known();
        if actor as usize >= self.cursors.len() {
            return None;
        }
        let from = self.cursors[actor as usize];
        let Some(at) = next_of(&self.script.lines, from, actor) else {
            return None;
        };
        let after = self.script.lines[at].after;
        if after != 0 && !self.is_answered(after) {
            return None;
        }
        let line = &self.script.lines[at];
        self.hall.job_of(actor, line)
    }

    /// The node of a hash, as the store gives it: none where the hash isn't held. A fault is noted for the actor, until its next entry.
    pub fn node_at(
        &mut self,
        alloc: Global,
        actor: u8,
        h: &Hash32,
    ) -> Result<Option<Arc<Node>>, FetchFault>
        ensures node { IsNodeOf H.half Sh.B.tells (form_in self.old.state h.now) h.now result }
        ensures lists { Lists Sh.B.tells self.old self.new }
        ensures missed { self.new.missed ≡ self.old.missed }
        ensures failed { self.new.failed ≡ failed_after actor self.old.failed result }
        ensures fault { IfErr result (λ e. e ≡ FetchFault.Fault → Rose self.old.faults self.new.faults) }
    {
        self.hall.known();
        match self.hall.node_at(alloc, h) {
            Ok(found) => Ok(found),
            Err(fault) => Err(noted(&mut self.failed, actor, fault)),
        }
    }

    /// The bytes that are stored under a hash, as the store gives them, for a reader that makes the node of them outside of the core's
    /// lock: none where the hash isn't held. Nothing of them is hashed here; where the store tells what it holds they have the hash. A
    /// fault is noted for the actor, until its next entry.
    pub fn form_at(
        &mut self,
        alloc: Global,
        actor: u8,
        h: &Hash32,
    ) -> Result<Option<Blob>, FetchFault>
        ensures form { IsFormOf H.half Sh.B.tells (form_in self.old.state h.now) h.now result }
        ensures lists { Lists Sh.B.tells self.old self.new }
        ensures missed { self.new.missed ≡ self.old.missed }
        ensures failed { self.new.failed ≡ failed_after actor self.old.failed result }
        ensures fault { IfErr result (λ e. e ≡ FetchFault.Fault → Rose self.old.faults self.new.faults) }
    {
        self.hall.known();
        match self.hall.form_at(alloc, h) {
            Ok(found) => Ok(found),
            Err(fault) => Err(noted(&mut self.failed, actor, fault)),
        }
    }

    /// The hash that nodes are stored under.
    pub fn hash(&self) -> H {
        self.hall.hash()
    }

    /// Whether the actor has no line left.
    pub fn is_finished(&self, actor: u8) -> bool
        ensures { IsTrue result ↔ IsDone self.now.lines self.now.journal actor }
    {
        if actor as usize >= self.cursors.len() {
            return true;
        }
        let from = self.cursors[actor as usize];
        next_of(&self.script.lines, from, actor).is_none()
    }

    /// Whether the line of this number has its entry: its actor's cursor stands behind it.
    pub fn is_answered(&self, number: u32) -> bool
        ensures { result ≡ answered self.now.journal number }
    {
        let lines = &self.script.lines;
        let at = first_from(lines, number);
        if at == lines.len() {
            return false;
        }
        let line = &lines[at];
        line.number == number && at < self.cursors[line.actor as usize]
    }

    /// The script that the core was opened with.
    pub fn script(&self) -> &Script
        ensures lines { result.now.lines.items ≡ self.now.lines }
        ensures records { result.now.records.items ≡ self.now.records }
        ensures servable { AreServable self.now.lines }
    {
        &self.script
    }

    /// What was answered so far.
    pub fn journal(&self) -> &[Entry]
        ensures journal { result.now ≡ self.now.journal }
        // A run from the opening, each check exact and each read every map's, to a sound state, and what else holds each time.
        ensures kept { IsJournal H.half Sh.B.tells self.now }
        ensures few { length self.now.journal ≤ length self.now.lines }
    {
        known_half::<H>();
        self.hall.known();
        &self.journal
    }

    /// The line of this number.
    pub fn line(&self, number: u32) -> Option<&Line>
        ensures { option_copied result ≡ line_of self.now.lines number }
    {
        find_line(&self.script.lines, number)
    }

    /// The next stored record after a hash, or the first one; none where no greater hash is stored. Bytes that are no form, or that stand
    /// under another hash than their own, aren't given. A fault is counted as missed.
    pub fn next_stored(
        &mut self,
        alloc: Global,
        after: Option<&Hash32>,
    ) -> Result<Option<Record>, OpenFault>
        ensures next { IsTrue Sh.B.tells → IfOk result (IsNextRecord self.old.state.nodes (option_copied after.entry)) }
        ensures follows { IfOk result (λ r. IfSome r (λ r. Follows (option_copied after.entry) r.hash)) }
        ensures lists { Lists Sh.B.tells self.old self.new }
        ensures missed { self.new.missed ≡ missed_after result self.old.missed }
        ensures failed { self.new.failed ≡ self.old.failed }
        ensures fault { IfErr result (λ e. e ≡ OpenFault.Fault → Rose self.old.faults self.new.faults) }
    {
        self.hall.known();
        match self.hall.next_stored(alloc, after) {
            Ok(next) => Ok(next),
            Err(BackFault::Fault) => {
                self.missed = self.missed.saturating_add(1);
                Err(OpenFault::Fault)
            }
            Err(BackFault::Memory) => Err(OpenFault::Memory),
        }
    }

    /// How many calls for a stored record failed.
    pub fn missed(&self) -> u64
        ensures { result ≡ self.now.missed }
    {
        self.missed
    }

    /// The store. Its one map is what the state has as stored.
    pub fn store(&self) -> &RotStore<Sh>
        ensures nodes { nodes_of result.now ≡ self.now.state.nodes }
        ensures faults { result.now.faults ≡ self.now.faults }
        ensures gets { result.now.gets ≡ self.now.gets }
        ensures epoch { result.now.epoch ≡ self.now.state.epoch }
        ensures backends { (result.now.writable ≡ self.now.written) × (result.now.archive ≡ self.now.archived) }
    {
        self.hall.store()
    }

    /// The retained ledgers, which are listed, or pinned by a view or a session: their hashes rising, each once.
    pub fn retained(&self, alloc: Global) -> Result<Vec<Hash32>, Memory>
        ensures { IfOk result (λ hashes. AreRetained self.now.state hashes.items) }
    {
        self.hall.retained(alloc)
    }

    /// The numbers of the summary.
    pub fn totals(&self) -> Totals
        ensures { result ≡ totals_of self.now.journal self.now.state }
    {
        let journal = self.journal();
        self.hall
            .totals(complete_in(journal) as u32, closed_in(journal) as u32)
    }
}

// The fault of an actor's fetch, which is noted. Where that can't be for want of memory, this is the answer.
fn noted(failed: &mut Failed, actor: u8, fault: FetchFault) -> FetchFault
    ensures failed { failed.new ≡ with_fault actor failed.old result }
    ensures same { (result ≡ fault) ⊎ (result ≡ FetchFault.Memory) }
{
    match fault {
        FetchFault::Fault => match failed.add(actor) {
            Ok(()) => FetchFault::Fault,
            Err(_) => FetchFault::Memory,
        },
        other => other,
    }
}

// Behind an entry its actor's search has ended; behind a swap, which may have lost what is marked or cached, the next generation begins.
fn end_search(searches: &mut Searches, actor: u8, reply: &Reply)
    requires paired { IsPaired searches.old }
    requires room { searches.old.marks.generation + 1 < 2 ^ 64 }
    requires known { actor < actors }
    ensures { TurnsBy reply.now actor searches.old searches.new }
{
    searches.forget(actor);
    if let Reply::Swap(swap) = reply {
        if let SwapReply::Swapped(_) = swap {
            searches.turn();
        }
    }
}

fn complete_in(journal: &[Entry]) -> usize
    ensures value { result ≡ count_by completes journal.now }
    ensures few { result ≤ length journal.now }
{
    let mut count = 0;
    for entry in journal {
        if is_complete(entry) {
            count += 1;
        }
    }
    count
}

fn is_complete(entry: &Entry) -> bool
    ensures { result ≡ completes entry.now }
{
    match &entry.reply {
        Reply::Check(CheckReply::Complete) => true,
        _ => false,
    }
}

fn closed_in(journal: &[Entry]) -> usize
    ensures value { result ≡ count_by closes journal.now }
    ensures few { result ≤ length journal.now }
{
    let mut count = 0;
    for entry in journal {
        if is_closed(entry) {
            count += 1;
        }
    }
    count
}

fn is_closed(entry: &Entry) -> bool
    ensures { result ≡ closes entry.now }
{
    match &entry.reply {
        Reply::Close(CloseReply::Closed(_)) => true,
        _ => false,
    }
}

/// The line of this number. The lines' numbers rise.
fn find_line(lines: &[Line], number: u32) -> Option<&Line>
    requires { Rises 0 lines.now }
    ensures { option_copied result ≡ line_of lines.now number }
{
    let at = first_from(lines, number);
    if at == lines.len() {
        return None;
    }
    let line = &lines[at];
    if line.number == number {
        Some(line)
    } else {
        None
    }
}

/// The place of the first line whose number is at least this one. The lines' numbers rise.
fn first_from(lines: &[Line], number: u32) -> usize
    requires { Rises 0 lines.now }
    ensures within { result ≤ length lines.now }
    ensures below { AllBefore lines.now result number }
    ensures above { AllFrom lines.now result number }
{
    let mut low = 0;
    let mut high = lines.len();
    while low < high {
        let middle = low + (high - low) / 2;
        if lines[middle].number < number {
            low = middle + 1;
        } else {
            high = middle;
        }
    }
    low
}

/// The place of the actor's next line, from a place on.
fn next_of(lines: &[Line], from: usize, actor: u8) -> Option<usize>
    requires { from ≤ length lines.now }
    ensures { MatchOption result (numbers_of actor (drop from lines.now) ≡ []) (IsNext lines.now from actor) }
{
    let mut at = from;
    for line in &lines[from..] {
        if line.actor == actor {
            return Some(at);
        }
        at += 1;
    }
    None
}
