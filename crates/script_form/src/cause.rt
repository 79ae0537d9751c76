//! Why a line is refused: the causes, and their numbers.
ghost use Rattle.std.specs.Prelude.{◌≡◌};
ghost use Rattle.script_form.specs.Causes.{number_of};

use half_hash::Memory;

/// A cause for which a line is refused. Which of them a word in an argument's place has, the argument's kind says (`Argument::ways`).
#[derive(Clone, Copy, Debug, PartialEq, Eq)]
pub enum Cause {
    /// The line holds the first byte that a script may not have. It is tried before all others.
    ScriptTooLong,
    /// A byte is none of 20 to 7E.
    NotPrintable,
    /// There are more than 2,200,000 bytes before the newline.
    LineTooLong,
    /// The first word isn't `store`, and is no number from 0 to 63.
    NoActor,
    /// The word behind `after` isn't there, or isn't the number of an earlier command line.
    BadAfter,
    /// The command's word isn't there, or is none that is read.
    UnknownCommand,
    /// The command has another number of arguments.
    ArgumentCount,
    /// A number, or a word of another kind of argument that names this cause, is malformed or out of its range.
    BadNumber,
    /// A hexadecimal argument has a wrong digit or a wrong length.
    BadHex,
    /// KIND is another word, or ID is no node ID.
    BadKindOrId,
    /// A target is zero.
    ZeroTarget,
    /// A record stands behind a command line, its form is none, its hash isn't that of the form or is
    /// zero, or an earlier record has this hash.
    BadRecord,
    /// An item's data has more than 1,048,576 bytes.
    DataTooLong,
    /// The line is command 200,001, or the `page` command 4,001.
    TooManyCommands,
}

impl Cause {
    /// The cause's number, 1 to 12.
    pub fn number(self) -> u8
        ensures { result ≡ number_of self }
    {
        match self {
            Cause::NotPrintable => 1,
            Cause::LineTooLong => 2,
            Cause::NoActor => 3,
            Cause::BadAfter => 4,
            Cause::UnknownCommand => 5,
            Cause::ArgumentCount => 6,
            Cause::BadNumber => 7,
            Cause::BadHex => 8,
            Cause::BadKindOrId => 9,
            Cause::ZeroTarget => 10,
            Cause::BadRecord => 11,
            Cause::ScriptTooLong => 12,
            Cause::DataTooLong => 12,
            Cause::TooManyCommands => 12,
        }
    }
}

/// Why a line says nothing.
#[derive(Clone, Copy, Debug, PartialEq, Eq)]
pub(crate) enum TextFault {
    /// It is refused.
    Cause(Cause),
    /// Memory was refused.
    Memory,
}

impl From<Memory> for TextFault {
    ghost use Rattle.std.specs.Prelude.{◌≡◌};
    ghost use Rattle.script_form.specs.declared.cause.TextFault.TheVariants as fault;

    ghost from_gives = { λ _ e. e ≡ fault.Memory };

    fn from(_: Memory) -> Self {
        TextFault::Memory
    }
}
