use super::*;
use half_hash::Hash32;
use ledger_spec::Kind;
use nib_path::NodeId;
use std::test::Fail;

/// The hash of this byte and 31 zeros.
fn hash(first: u8) -> Hash32 {
    let mut bytes = [0; 32];
    bytes[0] = first;
    Hash32 { bytes }
}

fn key(first: u8, kind: Kind, id: NodeId) -> MarkKey {
    MarkKey {
        hash: hash(first),
        kind,
        id,
    }
}

#[test]
fn a_mark_belongs_to_its_place_and_generation(rt: HostRuntime) -> Result<(), Fail> {
    let mut marks = Marks::new(rt.alloc(), 2)?;
    let root = key(0xDE, Kind::State, NodeId::root());
    assert!(rt; !marks.is_full(&root));
    assert!(rt; marks.mark(root, 0)?);
    assert!(rt; marks.is_full(&root));
    let below = NodeId::root().child(1).ok_or("child")?;
    assert!(rt; !marks.is_full(&key(0xDE, Kind::State, below)));
    assert!(rt; !marks.is_full(&key(0xDE, Kind::Tx, NodeId::root())));
    assert!(rt; !marks.is_full(&key(0xDF, Kind::State, NodeId::root())));
    marks.turn();
    assert!(rt; !marks.is_full(&root));
    assert!(rt; !marks.mark(root, 0)?);
    assert!(rt; !marks.is_full(&root));
    assert!(rt; marks.mark(root, 1)? && marks.generation() == 1);
    Ok(())
}

#[test]
fn the_one_used_longest_ago_goes(rt: HostRuntime) -> Result<(), Fail> {
    let mut marks = Marks::new(rt.alloc(), 2)?;
    let [a, b, c] = [1, 2, 3].map(|n| key(n, Kind::Tx, NodeId::root()));
    assert!(rt; marks.mark(a, 0)? && marks.mark(b, 0)?);
    assert!(rt; marks.is_full(&a));
    assert!(rt; marks.mark(c, 0)?);
    assert!(rt; marks.is_full(&a) && marks.is_full(&c) && !marks.is_full(&b));
    Ok(())
}
