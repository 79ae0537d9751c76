//! A rotation with a pinned ledger.
use super::*;
use std::test::Fail;

const FIRST: Hash32 = Hash32 { bytes: [1; 32] };

const SECOND: Hash32 = Hash32 { bytes: [2; 32] };

const THIRD: Hash32 = Hash32 { bytes: [3; 32] };

#[test]
fn a_pinned_ledger_stays(rt: HostRuntime) -> Result<(), Fail> {
    let alloc = rt.alloc();
    let mut book = Book::new(alloc, 4);
    book.list(&FIRST, 10)?;
    book.list(&SECOND, 13)?;
    assert!(rt; book.due().is_none() && book.last() == Some(10));
    book.list(&THIRD, 14)?;
    assert_eq!(rt; book.due(), Some(14));
    assert!(rt; book.is_retained(&FIRST));
    book.pin(&FIRST)?;
    assert_eq!(rt; book.roots(alloc, 11)?.len(), 3);
    book.begin();
    assert!(rt; book.floor() == 11 && book.count() == 2);
    assert!(rt; !book.is_listed(&FIRST) && book.is_retained(&FIRST));
    book.finish();
    assert_eq!(rt; book.last(), Some(14));
    book.unpin(&FIRST);
    assert!(rt; !book.is_retained(&FIRST));
    assert_eq!(rt; book.roots(alloc, 11)?.len(), 2);
    Ok(())
}
