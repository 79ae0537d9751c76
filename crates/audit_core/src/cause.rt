//! Why a line is refused, whatever form of input it is a line of.

use half_hash::{Hash32, Memory};

/// Why a line is none of its input.
#[derive(Clone, Copy, Debug)]
pub enum Cause {
    /// The line is longer than any line may be.
    TooLong,
    /// No newline ends the last line.
    Unended,
    /// The first line isn't the header's, the first document has none, or there is no line.
    NoHeader,
    /// The header isn't 118 bytes in hexadecimal.
    Header,
    /// The line isn't a key, a space and data, or isn't the form of a node.
    Form,
    /// The key isn't 64 hexadecimal digits.
    Key,
    /// The data isn't hexadecimal.
    Data,
    /// The key is zero.
    ZeroKey,
    /// The data is over the limit.
    TooMuch,
    /// An item of the state stands behind a transaction.
    Late,
    /// The key isn't greater than the one before it.
    NotBehind { before: Hash32, key: Hash32 },
    /// The line is no JSON document.
    NoJson,
    /// A document names no hash, or what it names isn't 64 hexadecimal digits.
    Hash,
    /// A document names no number.
    Index,
    /// A document is of another ledger than the first one.
    OtherLedger,
    /// A document behind the first one has no list of items.
    State,
    /// An element of the list isn't a key and data, both texts.
    Item,
    /// A document stands behind the last page, or a node behind the most that a path has.
    Extra,
    /// The input ends before the last page.
    Unfinished,
}

/// Why a line wasn't taken.
#[derive(Clone, Copy, Debug)]
pub enum LineFault {
    Cause(Cause),
    /// Memory was refused.
    Memory,
}

impl From<Memory> for LineFault {
    ghost use Rattle.std.specs.Prelude.{◌≡◌};
    ghost use Rattle.audit_core.specs.declared.cause.LineFault.TheVariants as faults;

    ghost from_gives = { λ _ fault. fault ≡ faults.Memory };

    fn from(_: Memory) -> LineFault {
        LineFault::Memory
    }
}

impl From<Cause> for LineFault {
    ghost use Rattle.std.specs.Prelude.{◌≡◌};
    ghost use Rattle.audit_core.specs.declared.cause.LineFault.TheVariants as faults;

    ghost from_gives = { λ cause fault. fault ≡ faults.Cause cause };

    fn from(cause: Cause) -> LineFault {
        LineFault::Cause(cause)
    }
}
