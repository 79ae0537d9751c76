//! Words in the places of arguments: whether one is wrong there, for each cause.
ghost use Rattle.std.specs.Prelude.{map, MatchBool, IfOk};
ghost use Rattle.script_form.specs.Commands.{IsWrong, IsWrongTarget, IsWrongId, IsWrongData, HasWrong};

use crate::cause::Cause;
use crate::forms::{Argument, Ways};
use crate::words::{blob_word, hash_word, id_text, id_word, says_nothing};
use half_hash::Memory;
use shamap_node::DATA_LIMIT;
use std::alloc::Global;

/// Whether a word is wrong in the place of one of the arguments, for this cause.
pub(crate) fn has_wrong(
    alloc: Global,
    cause: Cause,
    arguments: &[Argument],
    words: &[&[u8]],
) -> Result<bool, Memory>
    ensures { IfOk result (λ found. MatchBool found (HasWrong cause arguments.now (map (λ w. w.now) words.now))
        (HasWrong cause arguments.now (map (λ w. w.now) words.now) → ⊥)) }
{
    let [argument, arguments @ ..] = arguments else {
        return Ok(false);
    };
    let [word, words @ ..] = words else {
        return Ok(false);
    };
    if is_wrong(alloc, cause, argument, word)? {
        return Ok(true);
    }
    has_wrong(alloc, cause, arguments, words)
}

/// Whether a word is wrong in the place of the argument, for this cause.
fn is_wrong(alloc: Global, cause: Cause, argument: &Argument, word: &[u8]) -> Result<bool, Memory>
    ensures { IfOk result (λ found. MatchBool found (IsWrong cause argument.now word.now) (IsWrong cause argument.now word.now → ⊥)) }
{
    match argument.ways() {
        Ways::Nothing(one) => {
            if cause != one {
                return Ok(false);
            }
            says_nothing(alloc, *argument, word)
        }
        Ways::Target => Ok(target_is_wrong(cause, word)),
        Ways::Id => Ok(id_is_wrong(cause, word)),
        Ways::Data => data_is_wrong(alloc, cause, word),
    }
}

fn target_is_wrong(cause: Cause, word: &[u8]) -> bool
    ensures { MatchBool result (IsWrongTarget cause word.now) (IsWrongTarget cause word.now → ⊥) }
{
    match cause {
        Cause::BadHex => hash_word(word).is_none(),
        Cause::ZeroTarget => match hash_word(word) {
            Some(hash) => hash.is_zero(),
            None => false,
        },
        _ => false,
    }
}

fn id_is_wrong(cause: Cause, word: &[u8]) -> bool
    ensures { MatchBool result (IsWrongId cause word.now) (IsWrongId cause word.now → ⊥) }
{
    match cause {
        Cause::BadHex => id_text(word).is_none(),
        Cause::BadKindOrId => id_word(word).is_none(),
        _ => false,
    }
}

fn data_is_wrong(alloc: Global, cause: Cause, word: &[u8]) -> Result<bool, Memory>
    ensures { IfOk result (λ found. MatchBool found (IsWrongData cause word.now) (IsWrongData cause word.now → ⊥)) }
{
    match cause {
        Cause::BadHex => {
            let bytes = blob_word(alloc, word)?;
            Ok(bytes.is_none())
        }
        Cause::DataTooLong => match blob_word(alloc, word)? {
            Some(blob) => Ok(blob.bytes().len() > DATA_LIMIT),
            None => Ok(false),
        },
        _ => Ok(false),
    }
}
