//! The command that the words behind the actor say: the form of its word is found first, and then its arguments are read.
ghost use Rattle.std.specs.Prelude.{◌≡◌, ℕ, List, map, length, IfOk, MatchOption};
ghost use Rattle.ledger_machine.specs.declared.commands.Command.{Command};
ghost use Rattle.script_form.specs.declared.forms.Form.{Form};
ghost use Rattle.script_form.specs.Commands.{arguments_in, CallSays, IsReadAs, SaysHead};

use crate::edit_call::{abandon_of, close_of, del_of, edit_of, put_of, tx_of};
use crate::forms::{Form, form_of};
use crate::words::{blob_word, count, hash_word, id_word, kind_word, number, target_word};
use half_hash::{Blob, Memory};
use ledger_machine::Command;
use std::alloc::Global;

/// The command that a command's word and its arguments say.
pub(crate) fn command_of(alloc: Global, call: &[&[u8]]) -> Result<Option<Command>, Memory>
    ensures { IfOk result (λ found.
        MatchOption found ((c : Command) → CallSays (map (λ w. w.now) call.now) c → ⊥) (CallSays (map (λ w. w.now) call.now))) }
{
    let [word, arguments @ ..] = call else {
        return Ok(None);
    };
    match form_of(word, arguments.len()) {
        Some(form) => said_by(alloc, form, arguments),
        None => Ok(None),
    }
}

// The command that a form's arguments say.
fn said_by(alloc: Global, form: Form, arguments: &[&[u8]]) -> Result<Option<Command>, Memory>
    requires { length arguments.now ≡ length (arguments_in form) }
    ensures { IfOk result (IsReadAs form (map (λ w. w.now) arguments.now)) }
{
    match form {
        Form::Want => Ok(want_of(arguments)),
        Form::Peer => Ok(peer_of(arguments)),
        Form::Base => base_of(alloc, arguments, None, None),
        Form::BaseState => base_state_of(alloc, arguments),
        Form::BaseTx => base_tx_of(alloc, arguments),
        Form::Node => node_of(alloc, arguments),
        Form::Check => Ok(check_of(arguments)),
        Form::Tick => Ok(tick_of(arguments)),
        Form::View => Ok(view_of(arguments)),
        Form::Unview => Ok(unview_of(arguments)),
        Form::Get => Ok(get_of(arguments)),
        Form::Page => Ok(page_of(arguments)),
        Form::Edit => Ok(edit_of(arguments)),
        Form::Put => put_of(alloc, arguments),
        Form::Del => Ok(del_of(arguments)),
        Form::Tx => tx_of(alloc, arguments),
        Form::Close => Ok(close_of(arguments)),
        Form::Abandon => Ok(abandon_of(arguments)),
        Form::Begin => Ok(Some(Command::Begin)),
        Form::Swap => Ok(Some(Command::Swap)),
    }
}

fn want_of(arguments: &[&[u8]]) -> Option<Command>
    ensures { IsReadAs Form.Want (map (λ w. w.now) arguments.now) result }
{
    let [target, seq] = arguments else {
        return None;
    };
    let target = target_word(target)?;
    let seq = number(seq, 4_294_967_295)?;
    Some(Command::Want {
        target,
        seq: seq as u32,
    })
}

fn peer_of(arguments: &[&[u8]]) -> Option<Command>
    ensures { IsReadAs Form.Peer (map (λ w. w.now) arguments.now) result }
{
    let [peer, target] = arguments else {
        return None;
    };
    let peer = number(peer, 65_535)?;
    let target = target_word(target)?;
    Some(Command::Peer {
        peer: peer as u16,
        target,
    })
}

fn check_of(arguments: &[&[u8]]) -> Option<Command>
    ensures { IsReadAs Form.Check (map (λ w. w.now) arguments.now) result }
{
    let [target] = arguments else {
        return None;
    };
    let target = target_word(target)?;
    Some(Command::Check { target })
}

fn tick_of(arguments: &[&[u8]]) -> Option<Command>
    ensures { IsReadAs Form.Tick (map (λ w. w.now) arguments.now) result }
{
    let [target] = arguments else {
        return None;
    };
    let target = target_word(target)?;
    Some(Command::Tick { target })
}

fn view_of(arguments: &[&[u8]]) -> Option<Command>
    ensures { IsReadAs Form.View (map (λ w. w.now) arguments.now) result }
{
    let [view, target] = arguments else {
        return None;
    };
    let view = number(view, 65_535)?;
    let target = target_word(target)?;
    Some(Command::View {
        view: view as u16,
        target,
    })
}

fn unview_of(arguments: &[&[u8]]) -> Option<Command>
    ensures { IsReadAs Form.Unview (map (λ w. w.now) arguments.now) result }
{
    let [view] = arguments else {
        return None;
    };
    let view = number(view, 65_535)?;
    Some(Command::Unview { view: view as u16 })
}

fn get_of(arguments: &[&[u8]]) -> Option<Command>
    ensures { IsReadAs Form.Get (map (λ w. w.now) arguments.now) result }
{
    let [view, kind, key] = arguments else {
        return None;
    };
    let view = number(view, 65_535)?;
    let kind = kind_word(kind)?;
    let key = target_word(key)?;
    Some(Command::Get {
        view: view as u16,
        kind,
        key,
    })
}

fn page_of(arguments: &[&[u8]]) -> Option<Command>
    ensures { IsReadAs Form.Page (map (λ w. w.now) arguments.now) result }
{
    let [view, kind, after, n] = arguments else {
        return None;
    };
    let view = number(view, 65_535)?;
    let kind = kind_word(kind)?;
    let after = hash_word(after)?;
    let Some(n) = count(n, 256) else {
        return None;
    };
    Some(Command::Page {
        view: view as u16,
        kind,
        after,
        n: n as u16,
    })
}

// The base reply of a peer, a target and a header, with these roots.
fn base_of(
    alloc: Global,
    arguments: &[&[u8]],
    state: Option<Blob>,
    tx: Option<Blob>,
) -> Result<Option<Command>, Memory>
    ensures { IfOk result (λ found. MatchOption found
        ((p : ℕ) (t head : List ℕ) → SaysHead (map (λ w. w.now) arguments.now) p t head → ⊥)
        (λ c. (p : ℕ) × (t : List ℕ) × (head : List ℕ) × SaysHead (map (λ w. w.now) arguments.now) p t head
        × (c ≡ Command.Base p t head state tx))) }
{
    let [peer, target, header, ..] = arguments else {
        return Ok(None);
    };
    let Some(peer) = number(peer, 65_535) else {
        return Ok(None);
    };
    let Some(target) = target_word(target) else {
        return Ok(None);
    };
    let Some(header) = blob_word(alloc, header)? else {
        return Ok(None);
    };
    Ok(Some(Command::Base {
        peer: peer as u16,
        target,
        header,
        state,
        tx,
    }))
}

fn base_state_of(alloc: Global, arguments: &[&[u8]]) -> Result<Option<Command>, Memory>
    ensures { IfOk result (IsReadAs Form.BaseState (map (λ w. w.now) arguments.now)) }
{
    let [_, _, _, state] = arguments else {
        return Ok(None);
    };
    match blob_word(alloc, state)? {
        Some(state) => base_of(alloc, arguments, Some(state), None),
        None => Ok(None),
    }
}

fn base_tx_of(alloc: Global, arguments: &[&[u8]]) -> Result<Option<Command>, Memory>
    ensures { IfOk result (IsReadAs Form.BaseTx (map (λ w. w.now) arguments.now)) }
{
    let [_, _, _, state, tx] = arguments else {
        return Ok(None);
    };
    let Some(state) = blob_word(alloc, state)? else {
        return Ok(None);
    };
    match blob_word(alloc, tx)? {
        Some(tx) => base_of(alloc, arguments, Some(state), Some(tx)),
        None => Ok(None),
    }
}

fn node_of(alloc: Global, arguments: &[&[u8]]) -> Result<Option<Command>, Memory>
    ensures { IfOk result (IsReadAs Form.Node (map (λ w. w.now) arguments.now)) }
{
    let [peer, target, kind, id, blob] = arguments else {
        return Ok(None);
    };
    let Some(peer) = number(peer, 65_535) else {
        return Ok(None);
    };
    let Some(target) = target_word(target) else {
        return Ok(None);
    };
    let Some(kind) = kind_word(kind) else {
        return Ok(None);
    };
    let Some(id) = id_word(id) else {
        return Ok(None);
    };
    let Some(blob) = blob_word(alloc, blob)? else {
        return Ok(None);
    };
    Ok(Some(Command::Node {
        peer: peer as u16,
        target,
        kind,
        id,
        blob,
    }))
}
