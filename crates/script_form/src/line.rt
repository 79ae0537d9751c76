//! What a command line says: its actor, the line that it waits for, and its command.
ghost use Rattle.std.specs.Prelude.{◌≡◌, ℕ, List, None, Option, codes, true, map, IfOk, IfNone, IfSome, MatchBool, MatchOption};
ghost use Rattle.std.specs.List.{Contains};
ghost use Rattle.std.specs.List.Sorted.{IsNonDecreasing};
ghost use Rattle.script_form.specs.Causes.{waits, call_in, IsEarlier};
ghost use Rattle.script_form.specs.Grammar.{SaysAfter, WordsSay};
ghost use Rattle.ledger_machine.specs.declared.commands.Line.{Line};

use crate::call::command_of;
use crate::words::{is_text, number};
use half_hash::Memory;
use ledger_machine::Line;
use std::alloc::Global;

/// The line that the words of line `n` say, behind command lines of these numbers.
pub(crate) fn line_of(
    alloc: Global,
    n: u32,
    words: &[&[u8]],
    earlier: &[u32],
) -> Result<Option<Line>, Memory>
    requires { IsNonDecreasing earlier.now }
    ensures none { IfOk result (λ found. IfNone found ((l : Line) → WordsSay earlier.now (map (λ w. w.now) words.now) l → ⊥)) }
    ensures numbered { IfOk result (λ found. IfSome found (λ l. l.number ≡ n)) }
    ensures says { IfOk result (λ found. IfSome found (WordsSay earlier.now (map (λ w. w.now) words.now))) }
{
    let [actor, behind @ ..] = words else {
        return Ok(None);
    };
    let Some(actor) = number(actor, 63) else {
        return Ok(None);
    };
    let Some(after) = after_of(behind, earlier) else {
        return Ok(None);
    };
    let Some(command) = command_of(alloc, call_of(behind))? else {
        return Ok(None);
    };
    Ok(Some(Line {
        number: n,
        actor: actor as u8,
        after,
        command,
    }))
}

/// Whether `after` stands behind the actor.
fn is_waiting(behind: &[&[u8]]) -> bool
    ensures { result ≡ waits (map (λ w. w.now) behind.now) }
{
    match behind {
        [word, ..] => is_text(word, b"after"),
        [] => false,
    }
}

/// The command's word and its arguments, of the words behind the actor.
pub(crate) fn call_of<'a>(behind: &'a [&'a [u8]]) -> &'a [&'a [u8]]
    ensures { map (λ w. w.now) result.now ≡ call_in (map (λ w. w.now) behind.now) }
{
    if !is_waiting(behind) {
        return behind;
    }
    match behind {
        [_, _, call @ ..] => call,
        _ => &behind[..0],
    }
}

/// The line that the words behind the actor wait for, or 0 where they wait for none.
fn after_of(behind: &[&[u8]], earlier: &[u32]) -> Option<u32>
    requires { IsNonDecreasing earlier.now }
    ensures { MatchOption result ((after : ℕ) → SaysAfter earlier.now (map (λ w. w.now) behind.now) after → ⊥)
        (SaysAfter earlier.now (map (λ w. w.now) behind.now)) }
{
    if is_waiting(behind) {
        earlier_line(behind, earlier)
    } else {
        Some(0)
    }
}

/// The earlier command line that the word behind `after` names.
fn earlier_line(behind: &[&[u8]], earlier: &[u32]) -> Option<u32>
    requires { IsNonDecreasing earlier.now }
    ensures { MatchOption result ((after : ℕ) → IsEarlier earlier.now (map (λ w. w.now) behind.now) after → ⊥)
        (IsEarlier earlier.now (map (λ w. w.now) behind.now)) }
{
    let [_, word, ..] = behind else {
        return None;
    };
    let line = number(word, 4_294_967_295)? as u32;
    if is_among(earlier, line) {
        Some(line)
    } else {
        None
    }
}

/// Whether `after` stands behind the actor without the number of an earlier command line.
pub(crate) fn names_no_line(behind: &[&[u8]], earlier: &[u32]) -> bool
    requires { IsNonDecreasing earlier.now }
    ensures { MatchBool result
        ((waits (map (λ w. w.now) behind.now) ≡ true) × ((n : ℕ) → IsEarlier earlier.now (map (λ w. w.now) behind.now) n → ⊥))
        ((waits (map (λ w. w.now) behind.now) ≡ true) × ((n : ℕ) → IsEarlier earlier.now (map (λ w. w.now) behind.now) n → ⊥) → ⊥) }
{
    if is_waiting(behind) {
        earlier_line(behind, earlier).is_none()
    } else {
        false
    }
}

/// Whether a number is among numbers that rise.
fn is_among(numbers: &[u32], number: u32) -> bool
    requires { IsNonDecreasing numbers.now }
    ensures { MatchBool result (Contains numbers.now number) (Contains numbers.now number → ⊥) }
{
    numbers.binary_search(&number).is_ok()
}
