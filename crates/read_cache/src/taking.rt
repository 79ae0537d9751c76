//! Locks round short sections.

use std::sync::{Mutex, MutexGuard, Wait};
use std::thread;

/// How often a thread gives way before it sleeps for a lock.
const ROUNDS: u32 = 20_000;

/// Takes a lock. A section behind it takes less than a sleep, so it is tried for a while first: a lock for which a thread sleeps is handed
/// to it as it wakes, and all others wait for that.
pub fn take_lock<'a, R: Wait, T>(rt: &R, lock: &'a Mutex<T>) -> MutexGuard<'a, T> {
    for _ in 0..ROUNDS {
        if let Some(guard) = lock.try_lock() {
            return guard;
        }
        thread::yield_now();
    }
    lock.lock(rt)
}
