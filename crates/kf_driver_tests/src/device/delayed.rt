//! The callbacks of a bus, delayed: they wait for other threads before they go on or return.

use crate::device::fixtures::{count_of, wait_for};
use kf_device::Bus;
use kf_files::{Fault, Page, WaitOps};
use kf_shared::{Naming, SharedTree};
use kf_words::Call;
use std::sync::Wait;
use std::sync::atomic::{AtomicU64, Ordering};

#[derive(Drop)]
pub(crate) struct Delayed<'a, N: Naming> {
    bus: &'a Bus<N>,
    /// How often `d0` was plugged again, as reported by the thread that plugs it.
    pub(crate) plugged: AtomicU64,
    /// How many callbacks have begun. A store calls the bus only once two have begun.
    pub(crate) begun: AtomicU64,
    /// How many removals have returned.
    pub(crate) answered: AtomicU64,
    /// How many looks of a show found that a removal had already returned. A show that has its text stays
    /// inside until the value of `d0` is marked, and then looks 10,000 times.
    pub(crate) early: AtomicU64,
}

pub(crate) fn new_delayed<N: Naming>(bus: &Bus<N>) -> Delayed<'_, N> {
    Delayed {
        bus,
        plugged: AtomicU64::new(0),
        begun: AtomicU64::new(0),
        answered: AtomicU64::new(0),
        early: AtomicU64::new(0),
    }
}

impl<'a, N: Naming> Delayed<'a, N> {
    fn stay<R: Wait>(&self, rt: &R, tree: &SharedTree<N>) {
        for _ in 0..100_000_000u64 {
            if tree.edit(rt).state().lookup(b"/devices/d0/value").is_err() {
                break;
            }
        }
        for _ in 0..10_000 {
            if count_of(&self.answered) > 0 {
                self.early.fetch_add(1, Ordering::SeqCst);
            }
        }
    }
}

impl<'a, N: Naming> WaitOps<N> for Delayed<'a, N> {
    ghost may_show = { λ _ _ _. Unit {0} };

    ghost may_store = { λ _ _ _ _. Unit {0} };

    fn show<R: Wait>(
        &self,
        rt: &R,
        tree: &SharedTree<N>,
        call: &mut Call,
        tag: u64,
        page: &mut Page,
    ) -> Result<(), Fault> {
        let shown = self.bus.show(rt, tree, call, tag, page);
        self.begun.fetch_add(1, Ordering::SeqCst);
        self.stay(rt, tree);
        shown
    }

    fn store<R: Wait>(
        &self,
        rt: &R,
        tree: &SharedTree<N>,
        call: &mut Call,
        tag: u64,
        bytes: &[u8],
    ) -> Result<usize, Fault> {
        self.begun.fetch_add(1, Ordering::SeqCst);
        if !wait_for(2, &self.begun) {
            return Err(Fault { number: 16 });
        }
        self.bus.store(rt, tree, call, tag, bytes)
    }
}
