//! Reads that go on outside the core's lock: the job that a reader takes, and what it hands in.
ghost use Rattle.std.specs.Prelude.{◌≡◌, ◌≢◌, MatchBool, MatchOption};
ghost use Rattle.store_core.specs.Reads.{IsJudged, IsSaid, IsUnsaid};

use half_hash::{Hash32, NodeHash};
use ledger_header::Header;
use path_proof::{Answer, ReadFault, follow};
use shamap_node::Kind;
use std::marker::{Model, PhantomData};

/// The read that an actor's next line asks for: this key, in the map of this kind below this root.
#[derive(Clone, Copy, Debug)]
pub struct ReadJob {
    pub line: u32,
    pub root: Hash32,
    pub kind: Kind,
    pub key: Hash32,
}

impl ReadJob {
    /// Whether the two jobs are one.
    pub fn equals(&self, other: &ReadJob) -> bool
        ensures { MatchBool result (self.now ≡ other.now) (self.now ≢ other.now) }
    {
        self.line == other.line
            && self.root.equals(&other.root)
            && self.kind == other.kind
            && self.key.equals(&other.key)
    }
}

/// An open view: the ledger that it pins, with the header that is stored under that ledger's hash.
#[derive(Clone, Copy, Debug)]
pub(crate) struct View {
    pub(crate) target: Hash32,
    pub(crate) header: Header,
}

/// What a reader hands in: the job that it took, and what it got for it.
#[derive(Drop)]
pub struct Handed {
    pub job: ReadJob,
    pub got: Result<Answer, ReadFault>,
}

/// What a reader hands in, where an answer is known to be the one that its nodes say of the job's key below its root. So nothing of it is
/// hashed when it is handed in.
#[derive(Drop)]
pub struct Followed<H: NodeHash> {
    handed: Handed,
    of: PhantomData<H>,
}

impl<H: NodeHash> Model for Followed<H> {
    ghost use Rattle.std.specs.Coded.{codes};
    ghost use Rattle.store_core.specs.declared.jobs.Handed.{Handed};
    ghost use Rattle.store_core.specs.Reads.{IsSaid};

    ghost Value = { Handed };

    ghost coded = { Prim.hlevel codes };

    ghost view = { λ f. f.handed };

    ghost invariant = { λ f. IsSaid H.half f.handed.job f.handed.got };
}

impl<H: NodeHash> Followed<H> {
    /// What a reader got for a job. It takes no memory.
    pub fn new(job: ReadJob, got: Result<Answer, ReadFault>) -> Followed<H>
        requires { IsSaid H.half job got }
        ensures { result ≡ record { job = job; got = got } }
    {
        Followed {
            handed: Handed { job, got },
            of: PhantomData,
        }
    }

    /// The same, where it isn't known that the nodes say the answer: none where `follow` doesn't accept them. The outcome is that of
    /// `follow`.
    pub(crate) fn judged(job: &ReadJob, got: Result<Answer, ReadFault>) -> Option<Followed<H>>
        ensures { MatchOption result (IsUnsaid H.half job.now got) (λ h. (h.job ≡ job.now) × IsJudged got h.got) }
    {
        match got {
            Ok(answer) => {
                let Answer { outcome: _, used } = answer;
                match follow::<H>(&job.root, job.kind, &job.key, &used) {
                    Some(outcome) => Some(Followed::new(*job, Ok(Answer { outcome, used }))),
                    None => None,
                }
            }
            Err(why) => Some(Followed::new(*job, Err(why))),
        }
    }

    /// What was handed in.
    pub(crate) fn into_handed(self) -> Handed
        ensures same { result ≡ self }
        ensures said { IsSaid H.half result.job result.got }
    {
        self.handed
    }

    /// The job that was taken.
    pub(crate) fn job(&self) -> &ReadJob
        ensures { result.now ≡ self.now.job }
    {
        &self.handed.job
    }
}
