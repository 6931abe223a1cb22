//! Waits of threads, each with an end: for what other threads count, and for calls.
ghost use Rattle.std.specs.Prelude.{◌≡◌};

use crate::fixtures::is_linked;
use crate::roles::{Counts, Inside};
use kf_core::{Key, Phase};
use kf_shared::{Naming, SharedTree};
use kf_words::{Call, Hold};
use std::sync::Wait;
use std::sync::atomic::{AtomicU64, Ordering};
use std::thread;
use std::time::{Clock, Duration};

pub(crate) const LOOKS: u64 = 1_000_000_000;

/// Waits until this many threads have counted themselves, and returns whether they did.
pub(crate) fn wait_for(count: u64, counter: &AtomicU64) -> bool {
    for _ in 0..LOOKS {
        if counter.load(Ordering::SeqCst) >= count {
            return true;
        }
    }
    false
}

/// Whether a counter stays zero for this many looks.
fn stays_zero(looks: u64, counter: &AtomicU64) -> bool {
    for _ in 0..looks {
        if counter.load(Ordering::SeqCst) != 0 {
            return false;
        }
    }
    true
}

/// Waits until the node is doomed or gone, and returns whether it is doomed.
fn wait_for_mark<N: Naming, R: Wait>(rt: &R, tree: &SharedTree<N>, key: Key) -> bool {
    for _ in 0..100_000_000u64 {
        match tree.read(rt).state().stat(key) {
            Ok(stat) if stat.doomed => return true,
            Ok(_) => {}
            Err(_) => return false,
        }
    }
    false
}

/// Ends the call that a removal waits for. Returns true if the removal did not return before that, and did
/// return after it.
pub(crate) fn end_call<N: Naming, R: Wait>(
    rt: &R,
    tree: &SharedTree<N>,
    key: Key,
    inside: Inside<N>,
    counts: &Counts,
) -> bool {
    let marked = wait_for_mark(rt, tree, key);
    let waits = stays_zero(10_000, &counts.answered) && is_linked(rt, tree, key);
    let Inside { call, name: _ } = inside;
    call.leave().release();
    marked && waits && wait_for(1, &counts.answered)
}

// ---- a finish beside a call that has taken its reference again

fn leave(mut call: Call) {
    match call.phase() {
        Phase::Broken => {
            call.restore();
            call.leave().release();
        }
        Phase::Running => call.leave().release(),
        Phase::Restored => call.leave().release(),
        _ => unreachable!(),
    }
}

/// Lets the finish begin while the lock is held, and restores the call before the unlock. By then the finish
/// has seen the node drained, so its unlink finds the node in use.
fn restored_under_the_lock<N: Naming, R: Wait + Clock>(
    rt: &R,
    tree: &SharedTree<N>,
    mut call: Call,
    counts: &Counts,
) -> Call {
    let _editor = tree.edit(rt);
    counts.begun.store(1, Ordering::SeqCst);
    thread::sleep(rt, Duration::from_millis(20));
    if call.phase() == Phase::Broken {
        call.restore();
    }
    call
}

/// Restores the call under the lock, checks that the finish does not return, and ends the call.
pub(crate) fn restore_and_end<N: Naming, R: Wait + Clock>(
    rt: &R,
    tree: &SharedTree<N>,
    key: Key,
    call: Call,
    counts: &Counts,
) -> bool {
    let call = restored_under_the_lock(rt, tree, call, counts);
    let waits = stays_zero(10_000, &counts.answered);
    thread::sleep(rt, Duration::from_millis(20));
    let still = stays_zero(1, &counts.answered);
    let linked = is_linked(rt, tree, key); // the finish sleeps without the lock
    leave(call);
    waits && still && linked && wait_for(1, &counts.answered)
}

/// Takes the node out of the tree, once the other thread has begun.
pub(crate) fn finish<N: Naming, R: Wait>(
    rt: &R,
    tree: &SharedTree<N>,
    hold: Hold,
    counts: &Counts,
) -> bool
    requires { hold.table ≡ N.table }
{
    let begun = wait_for(1, &counts.begun);
    tree.finish(rt, hold).release();
    counts.answered.fetch_add(1, Ordering::SeqCst);
    begun
}

// ---- two threads that read at once, and one that looks under the lock

/// Locks the tree for reading, and waits until two threads have done so.
pub(crate) fn meet_reading<N: Naming, R: Wait>(
    rt: &R,
    tree: &SharedTree<N>,
    counts: &Counts,
) -> bool {
    let _reader = tree.read(rt);
    counts.begun.fetch_add(1, Ordering::SeqCst);
    wait_for(2, &counts.begun)
}

/// Whether nobody uses the node of a hold. Releases the hold.
fn is_unused(hold: Hold) -> bool {
    match hold.look() {
        Ok(drained) => {
            drained.release();
            true
        }
        Err(back) => {
            back.release();
            false
        }
    }
}

/// Takes the lock again and again until the node is gone. Then, under one lock, it looks twice whether the
/// call of the self-removal has its reference. Returns true if the call does not get its reference back in
/// between. (It may leave in between, since that takes no lock.)
pub(crate) fn same_under_the_lock<N: Naming, R: Wait + Clock>(
    rt: &R,
    tree: &SharedTree<N>,
    one: Hold,
    other: Hold,
) -> bool {
    let key = one.key();
    for _ in 0..LOOKS {
        let editor = tree.edit(rt);
        if editor.state().stat(key).is_err() {
            let unused = is_unused(one);
            thread::sleep(rt, Duration::from_millis(1));
            return is_unused(other) || !unused;
        }
    }
    one.release();
    other.release();
    false
}
