//! Backends, which hold forms under their hashes and may fail, and shelves, which make them. The traits say what a failed call may leave;
//! the backend and the shelf in memory fail where a test wants it.
#![tactic(auto)]

mod back;
mod memory;
mod shelf;
mod table;

pub use back::{BackFault, Backend, Shelf};
pub use memory::MemBackend;
pub use shelf::MemShelf;

#[cfg(test)]
mod tests {
    use super::*;
    use half_hash::Hash32;
    use std::test::Fail;

    /// A hash with this first byte, and zeros.
    fn hash(first: u8) -> Hash32 {
        let mut bytes = [0; 32];
        bytes[0] = first;
        Hash32 { bytes }
    }

    #[test]
    fn a_backend_answers_what_was_put(rt: HostRuntime) -> Result<(), Fail> {
        let alloc = rt.alloc();
        let mut backend = MemBackend::new(alloc, Vec::new(alloc));
        let key = hash(0xFA);
        backend.put(alloc, &key, b"form")?;
        let held = backend.get(alloc, &key)?;
        assert!(rt; held.is_some());
        if let Some(form) = held {
            assert_eq!(rt; form.bytes(), b"form".as_slice());
        }
        assert_eq!(rt; backend.next(alloc, None)?, Some(key));
        assert_eq!(rt; backend.next(alloc, Some(&key))?, None);
        let mut room = Vec::from_slice(alloc, b"other")?;
        assert!(rt; backend.get_into(alloc, &key, &mut room)?);
        assert_eq!(rt; room.as_slice(), b"form".as_slice());
        assert_eq!(rt; backend.gets(), 2);
        assert_eq!(rt; backend.faults(), 0);
        Ok(())
    }

    #[test]
    fn the_next_hash_comes_after_the_last(rt: HostRuntime) -> Result<(), Fail> {
        let alloc = rt.alloc();
        let (low, high) = (hash(1), hash(2));
        let mut backend = MemBackend::new(alloc, Vec::new(alloc));
        backend.put(alloc, &high, b"high")?;
        backend.put(alloc, &low, b"low")?;
        assert_eq!(rt; backend.next(alloc, None)?, Some(low));
        assert_eq!(rt; backend.next(alloc, Some(&low))?, Some(high));
        assert_eq!(rt; backend.next(alloc, Some(&high))?, None);
        Ok(())
    }

    #[test]
    fn a_shelf_numbers_its_backends_and_fails_by_plan(rt: HostRuntime) -> Result<(), Fail> {
        let alloc = rt.alloc();
        let mut plans = Vec::new(alloc);
        plans.push(Vec::from_slice(alloc, &[1])?)?;
        let mut shelf = MemShelf::new(alloc, plans, Vec::from_slice(alloc, &[2])?);
        let mut first = shelf.fresh(alloc)?;
        assert_eq!(rt; first.next(alloc, None), Err(BackFault::Fault));
        assert_eq!(rt; first.faults(), 1);
        assert_eq!(rt; shelf.discard(first), Err(BackFault::Fault));
        let mut second = shelf.fresh(alloc)?;
        assert_eq!(rt; second.next(alloc, None)?, None);
        assert_eq!(rt; shelf.discard(second), Ok(()));
        assert_eq!(rt; shelf.faults(), 1);
        Ok(())
    }
}
