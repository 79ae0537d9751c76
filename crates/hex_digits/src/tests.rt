//! Each byte, alone and among others.

use super::*;
use std::test::Fail;

#[test]
fn each_byte_as_the_kit_reads_it(rt: HostRuntime) -> Result<(), Fail> {
    let alloc = rt.alloc();
    for byte in 0..=255u8 {
        let text = [b'7', byte, byte, b'c'];
        let mut ours = [1u8, 2];
        let mut theirs = [1u8, 2];
        let is_read = decode_to_slice(&text, &mut ours);
        assert_eq!(rt; is_read, hex::decode_to_slice(&text, &mut theirs).is_ok());
        if is_read {
            assert_eq!(rt; ours, theirs);
            assert_eq!(rt;
                decode(alloc, &text)?.ok_or("bytes")?.as_slice(),
                theirs.as_slice()
            );
        } else {
            assert_eq!(rt; ours, [1, 2]);
            assert!(rt; decode(alloc, &text)?.is_none());
        }
    }
    Ok(())
}

#[test]
fn each_byte_among_many(rt: HostRuntime) -> Result<(), Fail> {
    for byte in 0..=255u8 {
        for place in [0, 13, 31, 32, 66, 71usize] {
            let mut text =
                *b"00112233445566778899aAbBcCdDeEfF0f1e2d3c4b5a69788796a5b4c3d2e1f0FEDCBA98";
            text[place] = byte;
            let mut ours = [1u8; 36];
            let mut theirs = [1u8; 36];
            let is_read = decode_over(&text, &mut ours);
            assert_eq!(rt; is_read, hex::decode_to_slice(&text, &mut theirs).is_ok());
            assert!(rt; !is_read || ours == theirs);
        }
    }
    Ok(())
}
