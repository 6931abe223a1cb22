//! A value that counts its callers. So a test can check that nobody is inside when the value is returned.

use kf_registry::{Published, Taken};
use std::sync::atomic::{AtomicU64, Ordering};

/// A value: its number, how often it was called, and how many are inside.
#[derive(Drop)]
pub(crate) struct Counted {
    number: u64,
    calls: AtomicU64,
    inside: AtomicU64,
}

impl Published for Counted {}

impl Counted {
    pub(crate) fn new(number: u64) -> Counted {
        Counted {
            number,
            calls: AtomicU64::new(0),
            inside: AtomicU64::new(0),
        }
    }

    /// Goes in and out, and returns the value's number.
    pub(crate) fn call(&self) -> u64 {
        self.enter();
        self.leave();
        self.number
    }

    /// Goes in.
    pub(crate) fn enter(&self) {
        self.inside.fetch_add(1, Ordering::SeqCst);
        self.calls.fetch_add(1, Ordering::SeqCst);
    }

    /// Goes out.
    pub(crate) fn leave(&self) {
        self.inside.fetch_sub(1, Ordering::SeqCst);
    }
}

/// The number of a returned value, and how often it was called. None if somebody is inside.
pub(crate) fn counts_of(value: Counted) -> Option<(u64, u64)> {
    if value.inside.load(Ordering::SeqCst) != 0 {
        return None;
    }
    Some((value.number, value.calls.load(Ordering::SeqCst)))
}

/// The same for a value that was taken.
pub(crate) fn back(taken: Taken<Counted>) -> Option<(u64, u64)> {
    counts_of(taken.into_value())
}
