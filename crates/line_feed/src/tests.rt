//! Lines in pieces of any size.

use super::*;
use run_io::MemSource;
use std::test::Fail;

#[test]
fn lines_and_the_rest(rt: HostRuntime) -> Result<(), Fail> {
    let alloc = rt.alloc();
    for piece in [1, 2, 3, 100] {
        let bytes = Vec::from_slice(alloc, b"one\n\nthree\nrest")?;
        let mut source = MemSource::new(bytes, piece, Vec::new(alloc));
        let mut feed = Feed::new(alloc)?;
        let mut line = Vec::new(alloc);
        for want in [b"one".as_slice(), b"", b"three"] {
            let fed = feed
                .next_line(&mut source, 5, &mut line)
                .ok()
                .ok_or("line")?;
            assert!(rt; fed == Fed::Line && line.as_slice() == want);
        }
        let fed = feed
            .next_line(&mut source, 3, &mut line)
            .ok()
            .ok_or("long")?;
        assert!(rt; fed == Fed::TooLong);
    }
    Ok(())
}
