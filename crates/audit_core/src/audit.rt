//! An audit under way: the header, and a pass over each map.
ghost use Rattle.std.specs.Prelude.{◌≡◌, ◌≢◌, Ok, Err, Some, None, IfOk, IfErr, OnOk, OnErr, IfSome, MatchOption};
ghost use Rattle.ledger_spec.specs.Bytes.{Bytes, Hash, Half, Items};
ghost use Rattle.audit_core.specs.declared.cause.Cause.{Cause as AnyCause};
ghost use Rattle.audit_core.specs.declared.cause.LineFault.TheVariants as faults;
ghost use Rattle.ledger_spec.specs.Header.{seq_of};
ghost use Rattle.audit_core.specs.Said.{Said, headed, with_state, with_tx};
ghost use Rattle.audit_core.specs.Verdicts.{IsVerdict, ledger_hash};

use crate::cause::LineFault;
use crate::counting::Counting;
use crate::{Answer, Cause, Sum};
use half_hash::{Hash32, NodeHash};
use ledger_header::Header;
use ledger_spec::Kind;
use std::alloc::Global;

/// The header, the state's items and the transactions so far, and whether any of these were given.
#[derive(Drop)]
pub struct Audit {
    header: Header,
    state: Counting,
    txs: Counting,
    given: bool,
}

impl Audit {
    ghost use Rattle.audit_core.specs.Keeping.{Keeps};

    /// A ledger with this header, of which no item is taken.
    pub fn of_header(alloc: Global, bytes: &[u8]) -> Result<Audit, LineFault>
        ensures ok { IfOk result (λ audit. (s : Said) × (headed (Some bytes.now) ≡ Ok s) × ((half : Half) → Keeps half audit s)) }
        ensures cause { IfErr result (λ fault. (cause : AnyCause) → fault ≡ faults.Cause cause → headed (Some bytes.now) ≡ Err cause) }
    {
        let Ok(header) = Header::decode(bytes) else {
            return Err(LineFault::Cause(Cause::Header));
        };
        let state = Counting::new(alloc, Kind::State)?;
        let txs = Counting::new(alloc, Kind::Tx)?;
        Ok(Audit {
            header,
            state,
            txs,
            given: false,
        })
    }

    /// The hash of the header.
    pub fn hash<H: NodeHash>(&self) -> Hash32
        ensures { (s : Said) → Keeps H.half self.now s → result ≡ ledger_hash H.half s }
    {
        self.header.hash::<H>()
    }

    /// The number of the ledger.
    pub fn seq(&self) -> u32
        ensures { (half : Half) (s : Said) → Keeps half self.now s → result ≡ seq_of s.header }
    {
        self.header.seq
    }

    /// An item of the state is taken.
    pub fn add_state<H: NodeHash>(&mut self, key: &Hash32, bytes: &[u8]) -> Result<(), Cause>
        ensures ok { OnOk result ((s : Said) → Keeps H.half self.old s
            → (after : Said) × (with_state s (Ok (key.now, bytes.now)) ≡ Ok after) × Keeps H.half self.new after) }
        ensures cause { IfErr result (λ cause. (s : Said) → Keeps H.half self.old s → with_state s (Ok (key.now, bytes.now)) ≡ Err cause) }
        ensures err { OnErr result (self.new ≡ self.old) }
    {
        if self.given {
            return Err(Cause::Late);
        }
        match self.state.add::<H>(key, bytes) {
            Ok(()) => Ok(()),
            Err(cause) => Err(cause),
        }
    }

    /// A transaction is taken.
    pub fn add_tx<H: NodeHash>(&mut self, key: &Hash32, bytes: &[u8]) -> Result<(), Cause>
        ensures ok { OnOk result ((s : Said) → Keeps H.half self.old s
            → (after : Said) × (with_tx s (Ok (key.now, bytes.now)) ≡ Ok after) × Keeps H.half self.new after) }
        ensures cause { IfErr result (λ cause. (s : Said) → Keeps H.half self.old s → with_tx s (Ok (key.now, bytes.now)) ≡ Err cause) }
        ensures err { OnErr result (self.new ≡ self.old) }
    {
        match self.txs.add::<H>(key, bytes) {
            Ok(()) => {
                self.given = true;
                Ok(())
            }
            Err(cause) => Err(cause),
        }
    }

    /// No item is left: the verdict.
    pub fn verdict<H: NodeHash>(self, expect: Option<Hash32>) -> Answer
        ensures { (s : Said) → Keeps H.half self s → IsVerdict H.half expect s result }
    {
        let Audit {
            header,
            state,
            txs,
            given,
        } = self;
        let hash = header.hash::<H>();
        if let Some(wanted) = unexpected(expect, &hash) {
            return Answer::OtherHash {
                wanted,
                found: hash,
            };
        }
        let objects = state.number();
        let found = state.root::<H>();
        if !header.state_root.equals(&found) {
            return Answer::OtherState {
                named: header.state_root,
                found,
            };
        }
        if !given {
            return Answer::Whole(Sum {
                hash,
                seq: header.seq,
                root: header.state_root,
                objects,
                transactions: None,
            });
        }
        let transactions = txs.number();
        let found = txs.root::<H>();
        if !header.tx_root.equals(&found) {
            return Answer::OtherTx {
                named: header.tx_root,
                found,
            };
        }
        Answer::Whole(Sum {
            hash,
            seq: header.seq,
            root: header.state_root,
            objects,
            transactions: Some(transactions),
        })
    }
}

/// A cause as a fault.
pub fn fault_of(taken: Result<(), Cause>) -> Result<(), LineFault>
    ensures ok { OnOk result (taken ≡ Ok tt) }
    ensures told { IfErr result (λ fault. (cause : AnyCause) × (fault ≡ faults.Cause cause)) }
    ensures cause { IfErr result (λ fault. (cause : AnyCause) → fault ≡ faults.Cause cause → taken ≡ Err cause) }
{
    match taken {
        Ok(()) => Ok(()),
        Err(cause) => Err(LineFault::Cause(cause)),
    }
}

// The hash that is expected, where it isn't the one that was found.
fn unexpected(expect: Option<Hash32>, found: &Hash32) -> Option<Hash32>
    ensures { MatchOption result (IfSome expect (λ h. h ≡ found.now)) (λ wanted. (expect ≡ Some wanted) × (wanted ≢ found.now)) }
{
    match expect {
        Some(wanted) => {
            if wanted.equals(found) {
                None
            } else {
                Some(wanted)
            }
        }
        None => None,
    }
}
