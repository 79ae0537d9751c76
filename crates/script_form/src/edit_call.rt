//! The commands of edit sessions, read from their arguments: `edit`, `put`, `tx`, `del`, `close` and `abandon`.
ghost use Rattle.std.specs.Prelude.{◌≡◌, ℕ, List, map, IfOk, MatchOption};
ghost use Rattle.ledger_spec.specs.Forms.{IsItem};
ghost use Rattle.script_form.specs.declared.forms.Form.{Form};
ghost use Rattle.script_form.specs.Commands.{IsReadAs, SaysItem};

use crate::forms::Form;
use crate::words::{data_word, number, target_word};
use half_hash::Memory;
use ledger_machine::Command;
use shamap_node::Item;
use std::alloc::Global;

pub(crate) fn edit_of(arguments: &[&[u8]]) -> Option<Command>
    ensures { IsReadAs Form.Edit (map (λ w. w.now) arguments.now) result }
{
    let [session, target] = arguments else {
        return None;
    };
    let session = number(session, 65_535)?;
    let target = target_word(target)?;
    Some(Command::Edit {
        session: session as u16,
        target,
    })
}

pub(crate) fn put_of(alloc: Global, arguments: &[&[u8]]) -> Result<Option<Command>, Memory>
    ensures { IfOk result (IsReadAs Form.Put (map (λ w. w.now) arguments.now)) }
{
    match item_of(alloc, arguments)? {
        Some((session, item)) => Ok(Some(Command::Put { session, item })),
        None => Ok(None),
    }
}

pub(crate) fn tx_of(alloc: Global, arguments: &[&[u8]]) -> Result<Option<Command>, Memory>
    ensures { IfOk result (IsReadAs Form.Tx (map (λ w. w.now) arguments.now)) }
{
    match item_of(alloc, arguments)? {
        Some((session, item)) => Ok(Some(Command::Tx { session, item })),
        None => Ok(None),
    }
}

// A session's number and an item, of three words.
fn item_of(alloc: Global, arguments: &[&[u8]]) -> Result<Option<(u16, Item)>, Memory>
    ensures { IfOk result (λ found. MatchOption found
        ((x : ℕ) (key bytes : List ℕ) → SaysItem (map (λ w. w.now) arguments.now) x key bytes → ⊥)
        (λ e. SaysItem (map (λ w. w.now) arguments.now) e.0 e.1.key e.1.value)) }
{
    let [session, key, data] = arguments else {
        return Ok(None);
    };
    let Some(session) = number(session, 65_535) else {
        return Ok(None);
    };
    let Some(key) = target_word(key) else {
        return Ok(None);
    };
    let Some(data) = data_word(alloc, data)? else {
        return Ok(None);
    };
    match Item::new(key, data) {
        Ok(item) => Ok(Some((session as u16, item))),
        Err(_) => Ok(None),
    }
}

pub(crate) fn del_of(arguments: &[&[u8]]) -> Option<Command>
    ensures { IsReadAs Form.Del (map (λ w. w.now) arguments.now) result }
{
    let [session, key] = arguments else {
        return None;
    };
    let session = number(session, 65_535)?;
    let key = target_word(key)?;
    Some(Command::Del {
        session: session as u16,
        key,
    })
}

pub(crate) fn close_of(arguments: &[&[u8]]) -> Option<Command>
    ensures { IsReadAs Form.Close (map (λ w. w.now) arguments.now) result }
{
    let [session, drops, time, resolution, flags] = arguments else {
        return None;
    };
    let session = number(session, 65_535)?;
    let drops = number(drops, u64::MAX)?;
    let time = number(time, 4_294_967_295)?;
    let resolution = number(resolution, 255)?;
    let flags = number(flags, 255)?;
    Some(Command::Close {
        session: session as u16,
        fields: [drops, time, resolution, flags],
    })
}

pub(crate) fn abandon_of(arguments: &[&[u8]]) -> Option<Command>
    ensures { IsReadAs Form.Abandon (map (λ w. w.now) arguments.now) result }
{
    let [session] = arguments else {
        return None;
    };
    let session = number(session, 65_535)?;
    Some(Command::Abandon {
        session: session as u16,
    })
}
