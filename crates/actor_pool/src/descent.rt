//! A read on its way outside of the core's lock: it came to a node that the reader lacks, or to its end.
ghost use Rattle.std.specs.Prelude.{◌≡◌};
ghost use Rattle.actor_pool.specs.Descents.{IsDescent};

use crate::given::Lack;
use half_hash::NodeHash;
use path_proof::Reading;
use std::marker::{Model, PhantomData};
use store_core::{Followed, ReadJob};

/// A job's read, and the depth and the place to which it came.
#[derive(Drop)]
pub(crate) struct Going {
    pub(crate) job: ReadJob,
    pub(crate) reading: Reading,
    pub(crate) depth: u8,
    pub(crate) place: usize,
}

/// The same, where the read is known to be on its way below the job's root. Contracts see the read.
#[derive(Drop)]
pub(crate) struct Descent<H: NodeHash> {
    going: Going,
    of: PhantomData<H>,
}

impl<H: NodeHash> Model for Descent<H> {
    ghost use Rattle.std.specs.Coded.{codes};
    ghost use Rattle.actor_pool.specs.declared.descent.Going.{Going};
    ghost use Rattle.actor_pool.specs.Descents.{IsDescent};

    ghost Value = { Going };

    ghost coded = { Prim.hlevel codes };

    ghost view = { λ d. d.going };

    ghost invariant = { λ d. IsDescent H.half d.going.job d.going.reading };
}

/// How far a reader comes with the nodes that it has.
#[derive(Drop)]
pub(crate) enum Way<H: NodeHash> {
    /// It lacks the node that is wanted.
    Lacks(Descent<H>),
    /// It lacks none.
    Ended(Followed<H>),
}

impl<H: NodeHash> Descent<H> {
    /// A read that is on its way.
    pub(crate) fn new(going: Going) -> Descent<H>
        requires { IsDescent H.half going.job going.reading }
        ensures { result ≡ going }
    {
        Descent {
            going,
            of: PhantomData,
        }
    }

    /// The read.
    pub(crate) fn into_going(self) -> Going
        ensures same { result ≡ self }
        ensures going { IsDescent H.half result.job result.reading }
    {
        self.going
    }

    /// The node that it lacks, as the read of this number.
    pub(crate) fn lack(&self, read: usize) -> Lack {
        Lack {
            read,
            hash: *self.going.reading.wanted(),
            depth: self.going.depth,
            key: self.going.job.key,
        }
    }
}
