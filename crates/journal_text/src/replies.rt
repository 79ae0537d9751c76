//! A command's word, and the answer to any command.
ghost use Rattle.std.specs.Prelude.{◌≡◌, ◌++◌, OnOk};
ghost use Rattle.std.specs.String.{string_bytes};
ghost use Rattle.ledger_machine.specs.Commands.{word_of};
ghost use Rattle.journal_text.specs.Text.{reply_text, hash_text, bytes_text};

use crate::acquire::{peer_words, push_check, push_tick, push_want};
use crate::offers::{push_base, push_node};
use crate::reads::{push_get, push_page, unview_words, view_words};
use crate::sessions::{del_words, edit_words, push_begin, push_close, push_swap, session_words};
use crate::words::{push_bytes, push_hash};
use half_hash::{Blob, Hash32};
use ledger_machine::{Command, Reply};
use std::alloc::AllocError;

/// The command's word.
pub(crate) fn word(command: &Command) -> &'static str
    ensures { result.now ≡ word_of command.now }
{
    match command {
        Command::Want { .. } => "want",
        Command::Peer { .. } => "peer",
        Command::Base { .. } => "base",
        Command::Node { .. } => "node",
        Command::Check { .. } => "check",
        Command::Tick { .. } => "tick",
        Command::View { .. } => "view",
        Command::Unview { .. } => "unview",
        Command::Get { .. } => "get",
        Command::Page { .. } => "page",
        Command::Edit { .. } => "edit",
        Command::Put { .. } => "put",
        Command::Del { .. } => "del",
        Command::Tx { .. } => "tx",
        Command::Close { .. } => "close",
        Command::Abandon { .. } => "abandon",
        Command::Begin => "begin",
        Command::Swap => "swap",
    }
}

/// Appends the answer.
pub(crate) fn push_reply(text: &mut String, reply: &Reply) -> Result<(), AllocError>
    ensures { OnOk result (string_bytes text.new ≡ string_bytes text.old ++ reply_text reply.now) }
{
    match reply {
        Reply::Fault => text.push_str("fault"),
        Reply::Memory => text.push_str("memory"),
        Reply::Clash { hash, old, new } => push_clash(text, hash, old, new),
        Reply::ZeroHash(form) => push_zero_hash(text, form),
        Reply::Want(reply) => push_want(text, reply),
        Reply::Peer(reply) => text.push_str(peer_words(reply)),
        Reply::Base(reply) => push_base(text, reply.get()),
        Reply::Node(reply) => push_node(text, reply),
        Reply::Check(reply) => push_check(text, reply),
        Reply::Tick(reply) => push_tick(text, reply),
        Reply::View(reply) => text.push_str(view_words(reply)),
        Reply::Unview(done) => text.push_str(unview_words(*done)),
        Reply::Get(reply) => push_get(text, reply),
        Reply::Page(reply) => push_page(text, reply),
        Reply::Edit(reply) => text.push_str(edit_words(reply)),
        Reply::Put(done) | Reply::Tx(done) | Reply::Abandon(done) => {
            text.push_str(session_words(*done))
        }
        Reply::Del(reply) => text.push_str(del_words(reply)),
        Reply::Close(reply) => push_close(text, reply),
        Reply::Begin(reply) => push_begin(text, reply),
        Reply::Swap(reply) => push_swap(text, reply),
    }
}

fn push_clash(text: &mut String, hash: &Hash32, old: &Blob, new: &Blob) -> Result<(), AllocError>
    ensures { OnOk result (string_bytes text.new ≡ string_bytes text.old ++ reply_text (Reply.Clash hash.now old.now new.now)) }
{
    text.push_str("clash ")?;
    push_hash(text, hash)?;
    text.push_str(" ")?;
    push_bytes(text, old.bytes())?;
    text.push_str(" ")?;
    push_bytes(text, new.bytes())
}

fn push_zero_hash(text: &mut String, form: &Blob) -> Result<(), AllocError>
    ensures { OnOk result (string_bytes text.new ≡ string_bytes text.old ++ reply_text (Reply.ZeroHash form.now)) }
{
    text.push_str("zerohash ")?;
    push_bytes(text, form.bytes())
}
