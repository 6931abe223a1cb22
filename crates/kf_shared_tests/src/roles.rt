//! What each thread of a test has, does, and counts.
ghost use Rattle.std.specs.Prelude.{◌≡◌};
ghost use Rattle.kf_core.specs.declared.caller.Phase.TheVariants as phase_of;

use crate::crowd::{call, create, hide_on};
use crate::fixtures::{enter, hold};
use crate::lookers::{change, held_as_it_changes, keep_looking};
use crate::turns::{leave_after, watch_turns};
use crate::waits::{
    end_call, finish, meet_reading, restore_and_end, same_under_the_lock, wait_for,
};
use kf_core::Key;
use kf_live::Lookup;
use kf_shared::{Naming, PathHolder, SharedTree, release_all};
use kf_words::{Call, Hold, Parted};
use std::marker::PhantomData;
use std::process::Abort;
use std::sync::Wait;
use std::sync::atomic::{AtomicU64, Ordering};
use std::time::Clock;

/// What the threads of a test count.
#[derive(Drop)]
pub(crate) struct Counts {
    /// Threads that have begun.
    pub(crate) begun: AtomicU64,
    /// Removals, finishes and hidings that returned.
    pub(crate) answered: AtomicU64,
    /// Self-removals that were the first of their node, and hidings that were accepted.
    pub(crate) first: AtomicU64,
    /// Threads that found everything as it must be.
    pub(crate) good: AtomicU64,
}

/// A hold of the tree.
pub(crate) struct Held<N: Naming> {
    pub(crate) hold: Hold,
    pub(crate) name: PhantomData<N>,
    ghost of_table: { hold.table ≡ N.table },
}

/// A running call of the tree.
pub(crate) struct Inside<N: Naming> {
    pub(crate) call: Call,
    pub(crate) name: PhantomData<N>,
    ghost of_table: { call.table ≡ N.table },
    ghost running: { call.phase ≡ phase_of.Running },
}

pub(crate) fn held_by<N: Naming>(_tree: &SharedTree<N>, hold: Hold) -> Held<N>
    requires { hold.table ≡ N.table }
{
    Held {
        hold,
        name: PhantomData,
    }
}

pub(crate) fn hold_of<N: Naming, R: Abort + Wait>(
    rt: &R,
    tree: &SharedTree<N>,
    key: Key,
) -> Held<N> {
    held_by(tree, hold(rt, tree, key))
}

pub(crate) fn call_of<N: Naming, R: Abort + Wait>(
    rt: &R,
    tree: &SharedTree<N>,
    key: Key,
) -> Inside<N> {
    Inside {
        call: enter(rt, hold(rt, tree, key)),
        name: PhantomData,
    }
}

/// What one thread does, and what it needs for that.
pub(crate) enum Role<N: Naming> {
    Remove(Held<N>),
    RemoveItself(Inside<N>),
    Call(Hold),
    Create(Key),
    HideOn(Key),
    HideOnce(Held<N>),
    EndCall(Key, Inside<N>),
    Finish(Held<N>),
    RestoreAndEnd(Key, Call),
    LookUnderLock(Hold, Hold),
    Read,
    SeeEachChange(PathHolder<N>),
    Look(Lookup, PathHolder<N>, bool),
    Change,
    WatchTurns(Vec<Key>),
    LeaveAfter(Key, Inside<N>),
}

fn some_released(receipts: Vec<Parted>) -> bool {
    let some = !receipts.is_empty();
    release_all(receipts);
    some
}

/// Removes the node. Returns whether there were receipts.
fn remove<N: Naming, R: Wait>(
    rt: &R,
    tree: &SharedTree<N>,
    held: Held<N>,
    counts: &Counts,
) -> bool {
    let Held { hold, name: _ } = held;
    let removed = match tree.remove(rt, hold) {
        Ok(receipts) => some_released(receipts),
        Err((hold, _)) => {
            hold.release();
            false
        }
    };
    counts.answered.fetch_add(1, Ordering::SeqCst);
    removed
}

fn remove_itself<N: Naming, R: Wait>(
    rt: &R,
    tree: &SharedTree<N>,
    inside: Inside<N>,
    counts: &Counts,
) -> bool {
    let Inside { mut call, name: _ } = inside;
    match tree.remove_self(rt, &mut call) {
        Ok((first, receipts)) => {
            if first {
                counts.first.fetch_add(1, Ordering::SeqCst);
            }
            call.leave().release();
            some_released(receipts)
        }
        Err(_) => {
            call.leave().release();
            false
        }
    }
}

/// Hides the file, and shows it once the other thread has returned too.
fn hide_once<N: Naming, R: Wait>(
    rt: &R,
    tree: &SharedTree<N>,
    held: Held<N>,
    counts: &Counts,
) -> bool {
    let Held { hold, name: _ } = held;
    match tree.hide(rt, hold) {
        Ok(hidden) => {
            counts.first.fetch_add(1, Ordering::SeqCst);
            counts.answered.fetch_add(1, Ordering::SeqCst);
            let both = wait_for(2, &counts.answered);
            tree.show(rt, hidden).release();
            both
        }
        Err((hold, _)) => {
            hold.release();
            counts.answered.fetch_add(1, Ordering::SeqCst);
            true
        }
    }
}

/// Plays the role. Returns whether the thread found everything as it must be.
pub(crate) fn act<N: Naming, R: Abort + Wait + Clock>(
    rt: &R,
    tree: &SharedTree<N>,
    role: Role<N>,
    counts: &Counts,
) -> bool {
    match role {
        Role::Remove(held) => remove(rt, tree, held, counts),
        Role::RemoveItself(inside) => remove_itself(rt, tree, inside, counts),
        Role::Call(hold) => call(rt, tree, hold),
        Role::Create(dir) => create(rt, tree, dir),
        Role::HideOn(key) => hide_on(rt, tree, key),
        Role::HideOnce(held) => hide_once(rt, tree, held, counts),
        Role::EndCall(key, inside) => end_call(rt, tree, key, inside, counts),
        Role::Finish(held) => {
            let Held { hold, name: _ } = held;
            finish(rt, tree, hold, counts)
        }
        Role::RestoreAndEnd(key, call) => restore_and_end(rt, tree, key, call, counts),
        Role::LookUnderLock(one, other) => same_under_the_lock(rt, tree, one, other),
        Role::Read => meet_reading(rt, tree, counts),
        Role::SeeEachChange(mut by) => {
            held_as_it_changes(rt, tree, &mut by);
            by.end().release();
            true
        }
        Role::Look(mut looker, mut by, opens) => {
            let found = keep_looking(&mut looker, &mut by, opens);
            by.end().release();
            found
        }
        Role::Change => {
            change(rt, tree);
            true
        }
        Role::WatchTurns(keys) => watch_turns(rt, tree, keys.as_slice()),
        Role::LeaveAfter(earlier, inside) => leave_after(rt, tree, earlier, inside),
    }
}

/// Takes the role from its place and plays it. The thread counts itself if it found everything as it must be.
pub(crate) fn act_in<N: Naming, R: Abort + Wait + Clock>(
    rt: &R,
    tree: &SharedTree<N>,
    place: &mut Option<Role<N>>,
    counts: &Counts,
) {
    if let Some(role) = place.take() {
        if act(rt, tree, role, counts) {
            counts.good.fetch_add(1, Ordering::SeqCst);
        }
    }
}
