//! Waiting for the first of several slots to change.
//!
//! Numbers are raised often, and few threads wait for several slots at once. So a notify loads one count, and
//! does more only if that count is not zero. A thread that watches first (1) adds itself to the count. Then
//! it repeats three steps: it (2) loads the number of changes, (3) looks at its slots, and (4) sleeps if the
//! number of changes is still the same. A notify (5) raises the number of its slot and (6) loads the count.
//! If the count is not zero, the notify (7) raises the number of changes and wakes all threads that sleep on
//! that number. Each of these steps is sequentially consistent.
//!
//! If (3) does not find the raise, then (3) comes before (5). So (1) comes before (6), which finds the thread
//! counted. And (2) comes before (7). So either (4) finds that the number of changes is different and does
//! not sleep, or the thread is in the kernel's queue when (7) wakes all. But if 2^32 changes came between (2)
//! and (4), then (4) would take them for none.
//!
//! The rule of the table does not mention these two words. `tools/unseen_steps` lists the places that may
//! load them, and `tests/models/watch.py` tries each order of these steps.

use crate::posts::Posts;
use std::sync::Wait;
use std::sync::atomic::AtomicU64;
use std::sync::atomic::Ordering::SeqCst;
use std::time::Duration;

/// How many threads watch the slots of a table, and how often a notify found such a thread.
#[derive(Drop)]
pub(crate) struct Watchers {
    watching: AtomicU64,
    changes: AtomicU64,
}

impl Watchers {
    /// The counts while nobody watches.
    pub(crate) fn new() -> Watchers {
        Watchers {
            watching: AtomicU64::new(0),
            changes: AtomicU64::new(0),
        }
    }

    /// Makes each thread that watches look at its slots again. The caller has raised a number.
    pub(crate) fn wake(&self) {
        if self.watching.load(SeqCst) != 0 {
            self.changes.fetch_add(1, SeqCst);
            self.changes.wake_all();
        }
    }
}

/// A wait by one thread for the first of several slots to change, as `poll(2)` waits for several files. A
/// notify of any slot of the same numbers ends its [`Watch::rest`], unless it is a `Post::notify_quiet`.
///
/// Call `seen`, look at each slot, and if none has changed, call `rest`. A change that comes after a look is
/// not missed.
///
/// ```text
/// let watch = posts.watch();
/// for _ in rt.forever() {
///     let seen = watch.seen();
///     if fan.poll() || disk.poll() {
///         return;
///     }
///     watch.rest(rt, seen);
/// }
/// ```
///
/// As long as a `Watch` exists, each notify of these numbers makes a system call. So drop it when the wait is
/// over.
pub struct Watch<'a> {
    watchers: &'a Watchers,
}

impl Posts {
    /// Begins a wait for the first of several of these slots to change. Other threads may have a watch too.
    pub fn watch(&self) -> Watch<'_> {
        let watchers = self.watchers();
        watchers.watching.fetch_add(1, SeqCst);
        Watch { watchers }
    }
}

impl Watch<'_> {
    /// Returns how many changes there were. Call this before you look at the slots.
    pub fn seen(&self) -> u64 {
        self.watchers.changes.load(SeqCst)
    }

    /// Sleeps until a notify of any slot, if there was none since [`Watch::seen`] returned `seen`. It may
    /// also return for no reason: no clause says why it returned.
    ///
    /// Context: sleeps; takes no lock.
    pub fn rest<R: Wait>(&self, rt: &R, seen: u64) {
        self.watchers.changes.park(rt, (seen & 0xffff_ffff) as u32);
    }

    /// Like [`Watch::rest`], but sleeps for at most `limit`.
    ///
    /// Context: sleeps; takes no lock.
    pub fn rest_for<R: Wait>(&self, rt: &R, seen: u64, limit: Duration) {
        self.watchers
            .changes
            .park_timeout(rt, (seen & 0xffff_ffff) as u32, limit);
    }
}

impl Drop for Watch<'_> {
    /// Takes the thread off the count, so that notifies no longer have to wake it.
    fn drop(self) {
        let Watch { watchers } = self;
        watchers.watching.fetch_sub(1, SeqCst);
    }
}
