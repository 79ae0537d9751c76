//! What the program's words ask for: pages or plain lines, perhaps with a hash that is expected, or a path.
ghost use Rattle.std.specs.Prelude.{◌≡◌, Option, MatchOption, map};
ghost use Rattle.half_hash.specs.Hex.{IsHexOf};
ghost use Rattle.ledger_spec.specs.Bytes.{Hash};
ghost use Rattle.ledger_audit.specs.declared.words.Asked.{Asked as AnyAsked};
ghost use Rattle.ledger_audit.specs.Words.{Asks};

use half_hash::Hash32;

/// What the words ask for.
#[derive(Clone, Copy, Debug)]
pub enum Asked {
    /// The audit of a ledger in pages, perhaps of the one with this hash.
    Pages(Option<Hash32>),
    /// The same in plain lines.
    Plain(Option<Hash32>),
    /// What a path from this root says of this key.
    Path { root: Hash32, key: Hash32 },
}

/// What the words ask for, where they ask for something.
pub(crate) fn asked_for(words: &[&str]) -> Option<Asked>
    ensures { MatchOption result ((asked : AnyAsked) → Asks (map (λ w. w.now) words.now) asked → ⊥) (Asks (map (λ w. w.now) words.now)) }
{
    match words {
        [] => Some(Asked::Pages(None)),
        ["--expect", text] => pages_of(text),
        ["--plain"] => Some(Asked::Plain(None)),
        ["--plain", "--expect", text] => plain_of(text),
        ["--path", root, key] => path_of(root, key),
        _ => None,
    }
}

// The audit of the ledger with a hash, in pages.
fn pages_of(text: &str) -> Option<Asked>
    ensures { MatchOption result ((h : Hash) → IsHexOf text.now h → ⊥)
        (λ asked. (h : Hash) × IsHexOf text.now h × (asked ≡ Asked.Pages (Option.Some h))) }
{
    match Hash32::from_hex(text.as_bytes()) {
        Ok(hash) => Some(Asked::Pages(Some(hash))),
        Err(_) => None,
    }
}

// The same in plain lines.
fn plain_of(text: &str) -> Option<Asked>
    ensures { MatchOption result ((h : Hash) → IsHexOf text.now h → ⊥)
        (λ asked. (h : Hash) × IsHexOf text.now h × (asked ≡ Asked.Plain (Option.Some h))) }
{
    match Hash32::from_hex(text.as_bytes()) {
        Ok(hash) => Some(Asked::Plain(Some(hash))),
        Err(_) => None,
    }
}

// A path's root and key.
fn path_of(root: &str, key: &str) -> Option<Asked>
    ensures { MatchOption result ((r k : Hash) → IsHexOf root.now r → IsHexOf key.now k → ⊥)
        (λ asked. (r : Hash) × (k : Hash) × IsHexOf root.now r × IsHexOf key.now k × (asked ≡ Asked.Path r k)) }
{
    let Ok(root) = Hash32::from_hex(root.as_bytes()) else {
        return None;
    };
    let Ok(key) = Hash32::from_hex(key.as_bytes()) else {
        return None;
    };
    Some(Asked::Path { root, key })
}
