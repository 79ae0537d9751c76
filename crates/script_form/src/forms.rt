//! The forms of the commands that are read: their words, and what stands behind these.
ghost use Rattle.std.specs.Prelude.{◌≡◌, ◌≢◌, length, MatchBool, MatchOption};
ghost use Rattle.script_form.specs.declared.forms.Form.{Form};
ghost use Rattle.script_form.specs.Commands.{word_in, arguments_in, ways_in};

use crate::cause::Cause;
use crate::words::is_text;

/// What an argument is.
#[derive(Clone, Copy, Debug, PartialEq, Eq)]
pub enum Argument {
    /// A number, at most this one.
    Number(u64),
    /// A number from 1 to this one.
    Count(u64),
    /// A target or a key: a hash that isn't zero.
    Target,
    /// A key that may be zero.
    Key,
    /// The kind of a map.
    Kind,
    /// A node ID.
    Id,
    /// Bytes.
    Blob,
    /// An item's data: bytes, at most 1,048,576 of them.
    Data,
}

/// In which ways a word can be wrong in an argument's place.
#[derive(Clone, Copy, Debug, PartialEq, Eq)]
pub(crate) enum Ways {
    /// It says nothing there, for this cause alone.
    Nothing(Cause),
    /// It is no hash, or a hash that is zero.
    Target,
    /// It isn't 66 hexadecimal digits, or they are no node ID.
    Id,
    /// It is no bytes, or too many.
    Data,
}

/// A form of a command: `base` has one for each number of its arguments.
#[derive(Clone, Copy, Debug, PartialEq, Eq)]
pub enum Form {
    Want,
    Peer,
    Base,
    BaseState,
    BaseTx,
    Node,
    Check,
    Tick,
    View,
    Unview,
    Get,
    Page,
    Edit,
    Put,
    Del,
    Tx,
    Close,
    Abandon,
    Begin,
    Swap,
}

/// All forms, the commonest first: a form is looked for from the front.
const FORMS: [Form; 20] = [
    Form::Node,
    Form::Get,
    Form::Put,
    Form::Tx,
    Form::Del,
    Form::Peer,
    Form::Page,
    Form::Want,
    Form::Check,
    Form::Tick,
    Form::View,
    Form::Unview,
    Form::Edit,
    Form::Close,
    Form::Abandon,
    Form::Base,
    Form::BaseState,
    Form::BaseTx,
    Form::Begin,
    Form::Swap,
];

const WANT: [Argument; 2] = [Argument::Target, Argument::Number(4_294_967_295)];

const PEER: [Argument; 2] = [Argument::Number(65_535), Argument::Target];

const BASE: [Argument; 3] = [Argument::Number(65_535), Argument::Target, Argument::Blob];

const BASE_STATE: [Argument; 4] = [
    Argument::Number(65_535),
    Argument::Target,
    Argument::Blob,
    Argument::Blob,
];

const BASE_TX: [Argument; 5] = [
    Argument::Number(65_535),
    Argument::Target,
    Argument::Blob,
    Argument::Blob,
    Argument::Blob,
];

const NODE: [Argument; 5] = [
    Argument::Number(65_535),
    Argument::Target,
    Argument::Kind,
    Argument::Id,
    Argument::Blob,
];

const CHECK: [Argument; 1] = [Argument::Target];

const TICK: [Argument; 1] = [Argument::Target];

const VIEW: [Argument; 2] = [Argument::Number(65_535), Argument::Target];

const UNVIEW: [Argument; 1] = [Argument::Number(65_535)];

const GET: [Argument; 3] = [Argument::Number(65_535), Argument::Kind, Argument::Target];

const PAGE: [Argument; 4] = [
    Argument::Number(65_535),
    Argument::Kind,
    Argument::Key,
    Argument::Count(256),
];

const EDIT: [Argument; 2] = [Argument::Number(65_535), Argument::Target];

const PUT: [Argument; 3] = [Argument::Number(65_535), Argument::Target, Argument::Data];

const DEL: [Argument; 2] = [Argument::Number(65_535), Argument::Target];

const TX: [Argument; 3] = [Argument::Number(65_535), Argument::Target, Argument::Data];

const CLOSE: [Argument; 5] = [
    Argument::Number(65_535),
    Argument::Number(18_446_744_073_709_551_615),
    Argument::Number(4_294_967_295),
    Argument::Number(255),
    Argument::Number(255),
];

const ABANDON: [Argument; 1] = [Argument::Number(65_535)];

const NONE: [Argument; 0] = [];

impl Argument {
    /// In which ways a word can be wrong in its place.
    pub(crate) fn ways(self) -> Ways
        ensures { result ≡ ways_in self }
    {
        match self {
            Argument::Number(_) => Ways::Nothing(Cause::BadNumber),
            Argument::Count(_) => Ways::Nothing(Cause::BadNumber),
            Argument::Target => Ways::Target,
            Argument::Key => Ways::Nothing(Cause::BadHex),
            Argument::Kind => Ways::Nothing(Cause::BadKindOrId),
            Argument::Id => Ways::Id,
            Argument::Blob => Ways::Nothing(Cause::BadHex),
            Argument::Data => Ways::Data,
        }
    }
}

impl Form {
    /// Whether this is the form's command word.
    fn has_word(self, word: &[u8]) -> bool
        ensures { MatchBool result (word.now ≡ word_in self) (word.now ≢ word_in self) }
    {
        match self {
            Form::Want => is_text(word, b"want"),
            Form::Peer => is_text(word, b"peer"),
            Form::Base => is_text(word, b"base"),
            Form::BaseState => is_text(word, b"base"),
            Form::BaseTx => is_text(word, b"base"),
            Form::Node => is_text(word, b"node"),
            Form::Check => is_text(word, b"check"),
            Form::Tick => is_text(word, b"tick"),
            Form::View => is_text(word, b"view"),
            Form::Unview => is_text(word, b"unview"),
            Form::Get => is_text(word, b"get"),
            Form::Page => is_text(word, b"page"),
            Form::Edit => is_text(word, b"edit"),
            Form::Put => is_text(word, b"put"),
            Form::Del => is_text(word, b"del"),
            Form::Tx => is_text(word, b"tx"),
            Form::Close => is_text(word, b"close"),
            Form::Abandon => is_text(word, b"abandon"),
            Form::Begin => is_text(word, b"begin"),
            Form::Swap => is_text(word, b"swap"),
        }
    }

    /// The form's arguments, in order.
    pub(crate) fn arguments(self) -> &'static [Argument]
        ensures { result.now ≡ arguments_in self }
    {
        match self {
            Form::Want => &WANT,
            Form::Peer => &PEER,
            Form::Base => &BASE,
            Form::BaseState => &BASE_STATE,
            Form::BaseTx => &BASE_TX,
            Form::Node => &NODE,
            Form::Check => &CHECK,
            Form::Tick => &TICK,
            Form::View => &VIEW,
            Form::Unview => &UNVIEW,
            Form::Get => &GET,
            Form::Page => &PAGE,
            Form::Edit => &EDIT,
            Form::Put => &PUT,
            Form::Del => &DEL,
            Form::Tx => &TX,
            Form::Close => &CLOSE,
            Form::Abandon => &ABANDON,
            Form::Begin | Form::Swap => &NONE,
        }
    }
}

/// Whether this is a command's word.
pub(crate) fn is_command(word: &[u8]) -> bool
    ensures { MatchBool result (((f : Form) → word.now ≢ word_in f) → ⊥) ((f : Form) → word.now ≢ word_in f) }
{
    for form in &FORMS {
        if form.has_word(word) {
            return true;
        }
    }
    false
}

/// The form of a command's word with so many arguments.
pub(crate) fn form_of(word: &[u8], count: usize) -> Option<Form>
    ensures { MatchOption result ((f : Form) → word.now ≡ word_in f → count ≢ length (arguments_in f))
        (λ f. (word.now ≡ word_in f) × (count ≡ length (arguments_in f))) }
{
    for form in &FORMS {
        if form.arguments().len() == count && form.has_word(word) {
            return Some(*form);
        }
    }
    None
}
