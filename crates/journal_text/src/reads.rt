//! The answers to `view`, `unview`, `get` and `page`.
ghost use Rattle.std.specs.Prelude.{◌≡◌, ◌++◌, OnOk, flat_map};
ghost use Rattle.std.specs.String.{string_bytes};
ghost use Rattle.shamap_node.specs.Nodes.{held};
ghost use Rattle.journal_text.specs.Text.{view_text, unview_text, get_text, page_text, value_text, item_text};

use crate::words::{push_bytes, push_key};
use ledger_machine::{GetReply, PageReply, ViewReply};
use shamap_node::Node;
use std::alloc::AllocError;
use std::fmt::Write;
use std::sync::Arc;

/// The answer to `view`.
pub(crate) fn view_words(reply: &ViewReply) -> &'static str
    ensures { result.now ≡ view_text reply.now }
{
    match reply {
        ViewReply::Fine => "ok",
        ViewReply::NotRetained => "notretained",
        ViewReply::InUse => "inuse",
        ViewReply::TooMany => "toomany 1024",
    }
}

/// The answer to `unview`.
pub(crate) fn unview_words(done: bool) -> &'static str
    ensures { result.now ≡ unview_text done }
{
    if done { "ok" } else { "noview" }
}

/// Appends the answer to `get`.
pub(crate) fn push_get(text: &mut String, reply: &GetReply) -> Result<(), AllocError>
    ensures { OnOk result (string_bytes text.new ≡ string_bytes text.old ++ get_text reply.now) }
{
    match reply {
        GetReply::Value(node) => push_value(text, node),
        GetReply::Nothing => text.push_str("none"),
        GetReply::NoView => text.push_str("noview"),
    }
}

/// Appends the answer to `page`.
pub(crate) fn push_page(text: &mut String, reply: &PageReply) -> Result<(), AllocError>
    ensures { OnOk result (string_bytes text.new ≡ string_bytes text.old ++ page_text reply.now) }
{
    match reply {
        PageReply::Items(leaves) => {
            let count = leaves.len();
            write!(text, "items {count}")?;
            push_items(text, leaves)
        }
        PageReply::NoView => text.push_str("noview"),
    }
}

fn push_items(text: &mut String, leaves: &[Arc<Node>]) -> Result<(), AllocError>
    ensures { OnOk result (string_bytes text.new ≡ string_bytes text.old ++ flat_map (λ l. item_text (held l.value)) leaves.now) }
{
    for leaf in leaves {
        push_item(text, leaf)?;
    }
    Ok(())
}

fn push_value(text: &mut String, node: &Node) -> Result<(), AllocError>
    ensures { OnOk result (string_bytes text.new ≡ string_bytes text.old ++ value_text (held node.now)) }
{
    match node {
        Node::Leaf(leaf) => {
            text.push_str("value ")?;
            push_bytes(text, leaf.item.data())
        }
        Node::Inner(_) => text.push_str("value -"),
    }
}

#[tactic(auto, unfolding(hex::specs::Hex::encode_with))]
fn push_item(text: &mut String, node: &Node) -> Result<(), AllocError>
    ensures { OnOk result (string_bytes text.new ≡ string_bytes text.old ++ item_text (held node.now)) }
{
    match node {
        Node::Leaf(leaf) => {
            push_key(text, leaf.item.key())?;
            push_bytes(text, leaf.item.data())
        }
        Node::Inner(_) => text.push_str(" =-"),
    }
}
