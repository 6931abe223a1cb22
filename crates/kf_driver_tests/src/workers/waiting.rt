//! Callbacks of a run, which count texts and wait for one another. The text that is stored says what a store
//! waits for.

use kf_files::{Fault, Page};
use kf_shared::{Naming, SharedTree};
use kf_words::Call;
use kf_workers::ScriptOps;
use std::sync::Wait;
use std::sync::atomic::{AtomicU64, Ordering};

/// A show spins until `told` is stored. So does the callback for the first text of a file, if that text is
/// `late`.
#[derive(Drop)]
pub(crate) struct Waiting {
    /// How many callbacks have begun to spin until `told` is stored.
    inside: AtomicU64,
    told: AtomicU64,
    /// How many texts were begun.
    pub(crate) begun: AtomicU64,
    /// How many of them were dropped, because an empty text took their place.
    pub(crate) let_go: AtomicU64,
}

pub(crate) fn new_waiting() -> Waiting {
    Waiting {
        inside: AtomicU64::new(0),
        told: AtomicU64::new(0),
        begun: AtomicU64::new(0),
        let_go: AtomicU64::new(0),
    }
}

/// Spins until the counter has reached this count. Fails with Fault 16 if this takes too long.
fn turn_until(count: u64, counter: &AtomicU64) -> Result<(), Fault> {
    for _ in 0..1_000_000_000u64 {
        if counter.load(Ordering::SeqCst) >= count {
            return Ok(());
        }
    }
    Err(Fault { number: 16 })
}

/// Spins until the removal of `/x` has begun. Fails with Fault 16 if this takes too long.
fn turn_until_doomed<N: Naming, R: Wait>(rt: &R, tree: &SharedTree<N>) -> Result<(), Fault> {
    for _ in 0..1_000_000_000u64 {
        if tree.read(rt).state().lookup(b"/x").is_err() {
            return Ok(());
        }
    }
    Err(Fault { number: 16 })
}

impl ScriptOps for Waiting {
    ghost may_show = { λ _ _ _. Unit {0} };

    ghost may_store = { λ _ _ _ _. Unit {0} };

    ghost may_begin = { λ _ _ _ _. Unit {0} };

    fn show<N: Naming, R: Wait>(
        &self,
        _rt: &R,
        _tree: &SharedTree<N>,
        _call: &mut Call,
        _tag: u64,
        page: &mut Page,
    ) -> Result<(), Fault> {
        self.inside.fetch_add(1, Ordering::SeqCst);
        turn_until(1, &self.told)?;
        let _ = page.try_extend_from_slice(b"a");
        Ok(())
    }

    /// A store of `inside` spins until another callback is inside, a store of `sixteen` until sixteen are,
    /// and a store of `doomed` until the file `/x` is no longer a live node.
    fn store<N: Naming, R: Wait>(
        &self,
        rt: &R,
        tree: &SharedTree<N>,
        _call: &mut Call,
        _tag: u64,
        bytes: &[u8],
    ) -> Result<usize, Fault> {
        if bytes == b"inside".as_slice() {
            turn_until(1, &self.inside)?;
        } else if bytes == b"sixteen".as_slice() {
            turn_until(16, &self.inside)?;
        } else if bytes == b"doomed".as_slice() {
            turn_until_doomed(rt, tree)?;
        } else {
            self.told.store(1, Ordering::SeqCst);
        }
        Ok(bytes.len())
    }

    fn first<R: Wait>(&self, _rt: &R, _tag: u64, bytes: &[u8]) -> Result<(), Fault> {
        if bytes.is_empty() {
            self.let_go.fetch_add(1, Ordering::SeqCst);
            return Ok(());
        }
        self.begun.fetch_add(1, Ordering::SeqCst);
        if bytes == b"late".as_slice() {
            self.inside.fetch_add(1, Ordering::SeqCst);
            turn_until(1, &self.told)?;
        }
        Ok(())
    }
}
