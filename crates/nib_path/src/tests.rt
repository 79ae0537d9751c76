//! Wire forms that are read and refused, the way down to a key, and the texts of the faults.
use super::*;
use std::test::Fail;

// 0x12, 0x34 and zeros: its nibbles are 1, 2, 3, 4 and zeros
fn key() -> [u8; 32] {
    let mut key = [0; 32];
    key[0] = 0x12;
    key[1] = 0x34;
    key
}

#[test]
fn reads_wire_forms(rt: HostRuntime) {
    for (first, last, depth, want) in [
        (0x00, 0x00, 0, Ok(0)),
        (0x10, 0x00, 1, Ok(1)),
        (0x12, 0x34, 64, Ok(64)),
        (0x10, 0x00, 0x41, Err(IdFault::Depth(65))),
        (0x11, 0x00, 1, Err(IdFault::Tail(1))),
        (0x10, 0x04, 1, Err(IdFault::Tail(63))),
    ] {
        let mut bytes = [0; 33];
        bytes[0] = first;
        bytes[31] = last;
        bytes[32] = depth;
        let read = NodeId::from_wire(&bytes);
        assert_eq!(rt;
            read.map(|id| id.depth()),
            want,
            "at {first}, {last} and depth {depth}"
        );
    }
    assert_eq!(rt; NodeId::from_wire(&[0; 32]), Err(IdFault::Length(32)));
}

#[test]
fn goes_down(rt: HostRuntime) {
    let key = key();
    let mut place = NodeId::root();
    for (i, want) in [(0, 1), (1, 2), (2, 3), (3, 4), (4, 0)] {
        assert_eq!(rt; nibble(&key, i), want, "nibble {i}");
        assert_eq!(rt; NodeId::of_key(&key, i), place, "at {i}");
        assert!(rt; place.holds(&key), "at {i}");
        let away = place.child(7);
        assert!(rt; away.is_some_and(|p| !p.holds(&key)), "away at {i}");
        let below = place.child(want);
        assert!(rt; below.is_some(), "below {i}");
        place = below.unwrap_or(place);
    }
    assert_eq!(rt; place.id(), key);
    assert_eq!(rt; place.depth(), 5);
    let mut wire = [0; 33];
    wire[0] = 0x12;
    wire[1] = 0x34;
    wire[32] = 5;
    assert_eq!(rt; place.to_wire(), wire);
    assert_eq!(rt; NodeId::of_key(&key, 64).child(0), None);
}

#[test]
fn names_faults(rt: HostRuntime) -> Result<(), Fail> {
    let alloc = rt.alloc();
    for (fault, want) in [
        (IdFault::Length(32), "not 33 bytes long"),
        (IdFault::Depth(65), "the depth is above 64"),
        (IdFault::Tail(1), "a nibble past the depth is not zero"),
    ] {
        let text = format!(in alloc; "{fault}")?;
        assert_eq!(rt; text.as_str(), want);
    }
    Ok(())
}
