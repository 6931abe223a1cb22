//! Four threads that wait for the drain of a node that nobody uses and that is not marked yet.

use crate::clock::{Seat, make_round};
use crate::grown::{Bench, LEAF, hold_of, key_in};
use crate::turns::Turn;
use kf_core::Refusal;
use kf_shared::{Naming, SharedTree, release_all};
use kf_words::{Hidden, wait_drained, wait_hidden};
use std::sync::Wait;
use std::thread::{self, Threads};
use std::time::{Clock, Duration};

/// Waits for the drain of the node in a slot.
pub(crate) fn wait_in<N: Naming, R: Wait>(
    rt: &R,
    tree: &SharedTree<N>,
    slot: u32,
) -> Result<(), Refusal> {
    let hold = hold_of(rt, tree, slot)?;
    wait_drained(rt, hold).release();
    Ok(())
}

/// Hides the node in a slot.
fn hide<N: Naming, R: Wait>(rt: &R, tree: &SharedTree<N>, slot: u32) -> Result<Hidden, Refusal> {
    match hold_of(rt, tree, slot)?.hide() {
        Ok(hiding) => Ok(wait_hidden(rt, hiding)),
        Err(hold) => {
            hold.release();
            Err(Refusal::Busy)
        }
    }
}

/// Removes the node in a slot after one second.
pub(crate) fn remove<N: Naming, R: Wait + Clock>(
    rt: &R,
    tree: &SharedTree<N>,
    slot: u32,
) -> Result<(), Refusal> {
    thread::sleep(rt, Duration::from_secs(1));
    release_all(tree.edit(rt).remove_key(rt, key_in(slot))?);
    Ok(())
}

/// Four threads wait for the drain of a hidden node that nobody uses, until it is marked one second later.
/// (If the mark is refused, they wait forever.)
pub(crate) fn wait<N: Naming + Send + Sync, R: Threads + Wait + Clock + Sync>(
    rt: &R,
    bench: &Bench<N>,
) -> Result<(), Refusal> {
    let mut seats = Vec::new(bench.alloc);
    for _ in 0..4 {
        seats.push(Seat::new(Turn::WaitDrained, LEAF))?;
    }
    seats.push(Seat::new(Turn::Remove, LEAF))?;
    let hidden = hide(rt, &bench.tree, LEAF)?;
    make_round(rt, bench, seats.as_mut_slice(), 1);
    hidden.show().release();
    for seat in seats {
        seat.worked?;
    }
    Ok(())
}
