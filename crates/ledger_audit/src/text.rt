//! The line that is printed: what is said of a ledger or of a path, as text. Text.antt says the same.
ghost use Rattle.std.specs.Prelude.{◌≡◌, ◌++◌, ◌∷◌, [], OnOk, IfOk};
ghost use Rattle.std.specs.String.{string_bytes};
ghost use Rattle.hex.specs.Hex.{encode_upper};
ghost use Rattle.audit_core.specs.declared.answer.Answer.TheVariants.{Whole as whole};
ghost use Rattle.ledger_audit.specs.Text.{cause_text, header_text, state_text, txs_text, two_text, answer_text};
ghost use Rattle.ledger_audit.specs.Text.{refused_text, path_text, said_text};

use audit_core::{Answer, Cause, Sum};
use half_hash::Hash32;
use path_audit::PathAnswer;
use std::alloc::{AllocError, Global};
use std::fmt::Write;

/// What is said of a ledger, or of a path.
#[derive(Debug, Drop)]
pub enum Said {
    OfLedger(Answer),
    OfPath(PathAnswer),
}

/// The line of what is said.
pub(crate) fn line_of(alloc: Global, said: &Said) -> Result<String, AllocError>
    ensures { IfOk result (λ text. string_bytes text ≡ said_text said.now ++ 10 ∷ []) }
{
    let mut text = String::new(alloc);
    match said {
        Said::OfLedger(answer) => push_answer(&mut text, answer)?,
        Said::OfPath(answer) => push_path(&mut text, answer)?,
    }
    text.push_str("\n")?;
    Ok(text)
}

// Appends the answer of a path.
fn push_path(text: &mut String, answer: &PathAnswer) -> Result<(), AllocError>
    ensures { OnOk result (string_bytes text.new ≡ string_bytes text.old ++ path_text answer.now) }
{
    match answer {
        PathAnswer::Value(bytes) => {
            text.push_str("value ")?;
            push_digits(text, bytes.bytes())
        }
        PathAnswer::Nothing => text.push_str("none"),
        PathAnswer::NoPath => text.push_str("no path"),
        PathAnswer::Refused { line, cause } => push_refusal(text, *line, cause),
    }
}

// Appends a refused line and its cause.
fn push_refusal(text: &mut String, line: u64, cause: &Cause) -> Result<(), AllocError>
    ensures { OnOk result (string_bytes text.new ≡ string_bytes text.old ++ refused_text line cause.now) }
{
    write!(text, "refused {line} ")?;
    push_cause(text, cause)
}

// Appends the digits of bytes.
fn push_digits(text: &mut String, bytes: &[u8]) -> Result<(), AllocError>
    ensures { OnOk result (string_bytes text.new ≡ string_bytes text.old ++ encode_upper bytes.now) }
{
    let digits = hex::encode_upper(*text.allocator(), bytes)?;
    text.push_str(&digits)?;
    Ok(())
}

// Appends the answer of a ledger.
fn push_answer(text: &mut String, answer: &Answer) -> Result<(), AllocError>
    ensures { OnOk result (string_bytes text.new ≡ string_bytes text.old ++ answer_text answer.now) }
{
    match answer {
        Answer::Whole(sum) => push_whole(text, sum),
        Answer::OtherHash { wanted, found } => push_two(text, "differs hash ", wanted, found),
        Answer::OtherState { named, found } => push_two(text, "differs state ", named, found),
        Answer::OtherTx { named, found } => push_two(text, "differs transactions ", named, found),
        Answer::Refused { line, cause } => push_refusal(text, *line, cause),
    }
}

// Appends a hash.
fn push_hash(text: &mut String, hash: &Hash32) -> Result<(), AllocError>
    ensures { OnOk result (string_bytes text.new ≡ string_bytes text.old ++ encode_upper hash.now) }
{
    push_digits(text, &hash.bytes)
}

// Appends words, and two hashes.
fn push_two(text: &mut String, words: &str, a: &Hash32, b: &Hash32) -> Result<(), AllocError>
    ensures { OnOk result (string_bytes text.new ≡ string_bytes text.old ++ two_text words.now a.now b.now) }
{
    text.push_str(words)?;
    push_hash(text, a)?;
    text.push_str(" ")?;
    push_hash(text, b)
}

// Appends that a ledger is whole.
fn push_whole(text: &mut String, sum: &Sum) -> Result<(), AllocError>
    ensures { OnOk result (string_bytes text.new ≡ string_bytes text.old ++ answer_text (whole sum.now)) }
{
    push_header(text, &sum.hash, sum.seq)?;
    push_state(text, sum.objects, &sum.root)?;
    push_txs(text, sum.transactions)
}

// Appends the ledger's hash and number.
fn push_header(text: &mut String, hash: &Hash32, seq: u32) -> Result<(), AllocError>
    ensures { OnOk result (string_bytes text.new ≡ string_bytes text.old ++ header_text hash.now seq) }
{
    text.push_str("whole ")?;
    push_hash(text, hash)?;
    write!(text, " seq {seq}")
}

// Appends how many items the state has, and its root.
fn push_state(text: &mut String, objects: u64, root: &Hash32) -> Result<(), AllocError>
    ensures { OnOk result (string_bytes text.new ≡ string_bytes text.old ++ state_text objects root.now) }
{
    write!(text, " objects {objects} root ")?;
    push_hash(text, root)
}

// Appends how many transactions there are, or that they weren't given.
fn push_txs(text: &mut String, txs: Option<u64>) -> Result<(), AllocError>
    ensures { OnOk result (string_bytes text.new ≡ string_bytes text.old ++ txs_text txs) }
{
    match txs {
        None => text.push_str(" transactions unchecked"),
        Some(n) => write!(text, " transactions {n}"),
    }
}

// Appends why a line is refused.
fn push_cause(text: &mut String, cause: &Cause) -> Result<(), AllocError>
    ensures { OnOk result (string_bytes text.new ≡ string_bytes text.old ++ cause_text cause.now) }
{
    match cause {
        Cause::TooLong => text.push_str("toolong"),
        Cause::Unended => text.push_str("unended"),
        Cause::NoHeader => text.push_str("noheader"),
        Cause::Header => text.push_str("header"),
        Cause::Form => text.push_str("form"),
        Cause::Key => text.push_str("key"),
        Cause::Data => text.push_str("data"),
        Cause::ZeroKey => text.push_str("zerokey"),
        Cause::TooMuch => text.push_str("toomuch"),
        Cause::Late => text.push_str("late"),
        Cause::NoJson => text.push_str("nojson"),
        Cause::Hash => text.push_str("hash"),
        Cause::Index => text.push_str("index"),
        Cause::OtherLedger => text.push_str("otherledger"),
        Cause::State => text.push_str("state"),
        Cause::Item => text.push_str("item"),
        Cause::Extra => text.push_str("extra"),
        Cause::Unfinished => text.push_str("unfinished"),
        Cause::NotBehind { before, key } => push_two(text, "notbehind ", before, key),
    }
}
