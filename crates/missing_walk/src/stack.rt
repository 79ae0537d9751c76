//! The stack of a search: the places to look at, the next one last, and the inner nodes below which they lie.
ghost use Rattle.std.specs.Prelude.{◌≡◌, ◌+◌, ◌++◌, ◌∷◌, ◌<◌, ◌≤◌, List, [], Some, IfOk, OnOk, OnErr, length, reverse, vec_len};
ghost use Rattle.ledger_spec.specs.Bytes.{Half, Lookup};
ghost use Rattle.full_below.specs.Marking.{AreMarked};
ghost use Rattle.missing_walk.specs.Pending.{Pending, branches_in, kid, kids_from, kids_of, IsFull, Within, Around};
ghost use Rattle.missing_walk.specs.Stacks.{Pushes, Extends, Opens, is_topped};

use crate::todo::{Open, Todo};
use full_below::{MarkKey, Marks};
use half_hash::Memory;
use shamap_node::{Inner, Node};
use std::alloc::AllocError;
use std::sync::Arc;

/// Notes the place on top as missing. Where memory is refused nothing changes.
pub(crate) fn note(stack: &mut Vec<Todo>, missing: &mut Vec<Todo>) -> Result<(), Memory>
    ensures ok { (rest : List Todo) (top : Todo) → stack.old.items ≡ rest ++ top ∷ [] → OnOk result
        ((stack.new.items ≡ rest) × (missing.new.items ≡ missing.old.items ++ top ∷ [])) }
    ensures err { OnErr result ((stack.new.items ≡ stack.old.items) × (missing.new.items ≡ missing.old.items)) }
    ensures few { length missing.new.items ≤ length missing.old.items + 1 }
{
    missing.reserve(1)?;
    let Some(top) = stack.pop() else {
        return Ok(());
    };
    let Ok(()) = missing.push(top) else {
        unreachable!();
    };
    Ok(())
}

/// Puts noted places on top of the stack, the first of them on top. Where memory is refused they stay noted.
pub(crate) fn put_back(stack: &mut Vec<Todo>, missing: &mut Vec<Todo>) -> Result<(), Memory>
    ensures ok { OnOk result ((stack.new.items ≡ stack.old.items ++ reverse missing.old.items) × (missing.new.items ≡ [])) }
    ensures err { OnErr result ((stack.new.items ≡ stack.old.items) × (missing.new.items ≡ missing.old.items)) }
{
    missing.reverse();
    if stack.append(missing).is_err() {
        missing.reverse();
        return Err(Memory);
    }
    Ok(())
}

/// Takes the place on top away.
pub(crate) fn skip(stack: &mut Vec<Todo>)
    ensures { (rest : List Todo) (top : Todo) → stack.old.items ≡ rest ++ top ∷ [] → stack.new.items ≡ rest }
{
    drop(stack.pop());
}

/// Goes below the inner node of the place on top: the places below it take its place, the lowest branch on top. Where memory is refused
/// nothing changes.
pub(crate) fn go_below(
    stack: &mut Vec<Todo>,
    opened: &mut Vec<Open>,
    node: Arc<Node>,
) -> Result<(), Memory>
    requires some { 0 < vec_len stack.old }
    requires levels { (rest : List Todo) (top : Todo) → stack.old.items ≡ rest ++ top ∷ [] → length top.at.id < 64 }
    ensures ok { (rest : List Todo) (top : Todo) → stack.old.items ≡ rest ++ top ∷ [] → OnOk result
        (Opens rest top node.value stack.new.items opened.old.items opened.new.items) }
    ensures err { OnErr result ((stack.new.items ≡ stack.old.items) × (opened.new.items ≡ opened.old.items)) }
{
    opened.reserve(1)?;
    let height = stack.len() - 1;
    let at = stack[height].at;
    if push_kids(stack, &node, &at).is_err() {
        stack.truncate(height + 1);
        return Err(Memory);
    }
    drop(stack.remove(height));
    let Ok(()) = opened.push(Open { at, height, node }) else {
        unreachable!();
    };
    Ok(())
}

// Puts the places below a node on the stack. Where memory is refused some of them are there.
fn push_kids(stack: &mut Vec<Todo>, node: &Arc<Node>, at: &MarkKey) -> Result<(), Memory>
    requires { length at.now.id < 64 }
    ensures ok { OnOk result (Pushes stack.old.items stack.new.items (kids_of at.now.kind at.now.id node.now.value)) }
    ensures err { OnErr result (Extends stack.old.items stack.new.items) }
{
    match &**node {
        Node::Inner(inner) => Ok(push_branches(stack, node, inner, at)?),
        Node::Leaf(_) => Ok(()),
    }
}

// Puts the places of the branches on the stack, the highest first.
fn push_branches(
    stack: &mut Vec<Todo>,
    node: &Arc<Node>,
    inner: &Inner,
    at: &MarkKey,
) -> Result<(), Memory>
    requires levels { length at.now.id < 64 }
    requires inner { branches_in node.now.value ≡ Some inner.now.hashes }
    ensures ok { OnOk result (Pushes stack.old.items stack.new.items (kids_from at.now.kind at.now.id inner.now.hashes 0 16)) }
    ensures err { OnErr result (Extends stack.old.items stack.new.items) }
{
    for i in 0..16u8 {
        push_branch(stack, node, inner, at, 15 - i)?;
    }
    Ok(())
}

// Puts the place of a branch on the stack, unless it is empty. Where memory is refused nothing changes.
fn push_branch(
    stack: &mut Vec<Todo>,
    node: &Arc<Node>,
    inner: &Inner,
    at: &MarkKey,
    b: u8,
) -> Result<(), Memory>
    requires branch { b < 16 }
    requires levels { length at.now.id < 64 }
    requires inner { branches_in node.now.value ≡ Some inner.now.hashes }
    ensures ok { OnOk result (Pushes stack.old.items stack.new.items (kid at.now.kind at.now.id inner.now.hashes b)) }
    ensures err { OnErr result (stack.new.items ≡ stack.old.items) }
{
    let hash = inner.branch(b);
    if hash.is_zero() {
        return Ok(());
    }
    let Some(id) = at.id.child(b) else {
        unreachable!();
    };
    let parent = another(node)?;
    let at = MarkKey {
        hash,
        kind: at.kind,
        id,
    };
    stack.push(Todo {
        at,
        parent: Some(parent),
    })?;
    Ok(())
}

// Another owner of the node.
fn another(node: &Arc<Node>) -> Result<Arc<Node>, Memory>
    ensures { IfOk result (λ again. again.value ≡ node.now.value) }
{
    match Arc::try_clone(node) {
        Ok(again) => Ok(again),
        Err(AllocError) => Err(Memory),
    }
}

/// Marks the inner nodes above whose height no place is left, and closes them.
pub(crate) fn settle(opened: &mut Vec<Open>, height: usize, marks: &mut Marks)
    ensures within { (half : Half) (nodes : Lookup) (ps : List Pending) → length ps ≡ height
        → Around half nodes (reverse opened.old.items) ps
        → Within half nodes (reverse opened.new.items) ps }
    ensures marks { (half : Half) (nodes : Lookup) (ps : List Pending) → length ps ≡ height
        → Around half nodes (reverse opened.old.items) ps
        → AreMarked (IsFull half nodes) marks.old → AreMarked (IsFull half nodes) marks.new }
    ensures generation { marks.new.generation ≡ marks.old.generation }
    ensures room { marks.new.entries.cap ≡ marks.old.entries.cap }
    ensures idle { opened.old.items ≡ [] → (marks.new ≡ marks.old) × (opened.new.items ≡ []) }
{
    while is_closing(opened, height) {
        let Some(done) = opened.pop() else {
            return;
        };
        let generation = marks.generation();
        let _marked = marks.mark(done.at, generation);
    }
}

// Whether no place is left above the last inner node's height.
fn is_closing(opened: &[Open], height: usize) -> bool
    ensures { result ≡ is_topped (reverse opened.now) height }
{
    match opened.last() {
        Some(top) => top.height == height,
        None => false,
    }
}
