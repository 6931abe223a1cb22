//! What a thread does again and again in a round. Each of these turns is a column of a table, or runs beside
//! one.

use crate::files::{read, visit};
use crate::gates::pass_through;
use crate::grown::{ASIDE, Bench, LINE, hold_of, key_in, maker, path_of};
use crate::waiters::{remove, wait_in};
use kf_core::Refusal;
use kf_shared::{Naming, SharedTree};
use std::alloc::Global;
use std::sync::atomic::{AtomicU64, Ordering};
use std::sync::{Arc, Wait};
use std::thread;
use std::time::{Clock, Duration};

/// What a thread does.
#[derive(Clone, Copy)]
pub(crate) enum Turn {
    /// Enters its slot's node with a hold, and leaves it.
    Enter,
    /// Goes in and out through the gate of a hot node.
    Gate,
    /// Adds one to the first word of its slot's line, and subtracts it again.
    Add,
    /// Locks the first lock of its slot's line for reading and unlocks it.
    Lock,
    /// Clones and drops the object that all threads share.
    Clone,
    /// Looks up the path of its slot's file without the lock, or under it if a change came between.
    Look,
    /// Looks up the same path under the lock.
    LookLocked,
    /// Takes a hold of its slot's node without the lock, and releases it.
    Pin,
    /// Takes the same hold under the lock, and releases it.
    HoldLocked,
    /// Reads its slot's file, which it keeps open.
    Read,
    /// Opens its slot's file by its path, which it looks up without the lock, and reads and closes the file.
    Visit,
    /// Does the same with a path that it looks up under the lock.
    VisitLocked,
    /// Changes the tree until all others have ended.
    Change,
    /// Waits for the drain of its slot's node.
    WaitDrained,
    /// Removes its slot's node after one second.
    Remove,
}

impl Turn {
    /// What the turn is called if it is reported by itself.
    pub(crate) fn name(self) -> &'static str {
        match self {
            Turn::Enter => "enter and leave",
            Turn::Gate => "gate",
            Turn::Add => "two additions",
            Turn::Lock => "RwLock",
            Turn::Clone => "Arc",
            Turn::Look => "look-up",
            Turn::LookLocked => "look-up, locked",
            Turn::Pin => "hold and release",
            Turn::HoldLocked => "hold and release, locked",
            Turn::Read => "read",
            Turn::Visit => "open, read, close",
            Turn::VisitLocked => "open, read, close, locked",
            Turn::Change => "change",
            Turn::WaitDrained => "wait",
            Turn::Remove => "remove",
        }
    }
}

/// The pause after each change of the tree, in microseconds.
const PAUSE: u64 = 50;

fn enter<N: Naming, R: Wait>(
    rt: &R,
    tree: &SharedTree<N>,
    slot: u32,
    turns: u32,
) -> Result<(), Refusal> {
    let mut hold = hold_of(rt, tree, slot)?;
    for _ in 0..turns {
        match hold.enter() {
            Ok(call) => hold = call.leave(),
            Err(refused) => {
                refused.release();
                return Err(Refusal::NoDevice);
            }
        }
    }
    hold.release();
    Ok(())
}

fn add<N: Naming>(bench: &Bench<N>, slot: u32, turns: u32) -> Result<(), Refusal> {
    let place = slot.saturating_mul(LINE) as usize;
    let plain = bench.plain.get(place).ok_or(Refusal::NoSpace)?;
    for _ in 0..turns {
        plain.word.fetch_add(1, Ordering::SeqCst);
        plain.word.fetch_sub(1, Ordering::SeqCst);
    }
    Ok(())
}

fn lock<N: Naming, R: Wait>(
    rt: &R,
    bench: &Bench<N>,
    slot: u32,
    turns: u32,
) -> Result<(), Refusal> {
    let place = slot.saturating_mul(LINE) as usize;
    let plain = bench.plain.get(place).ok_or(Refusal::NoSpace)?;
    for _ in 0..turns {
        let _guard = plain.lock.read(rt);
    }
    Ok(())
}

/// Clones the object that all threads share, and drops the clone.
fn clone<N: Naming>(bench: &Bench<N>, turns: u32) -> Result<(), Refusal> {
    for _ in 0..turns {
        let _clone = Arc::try_clone(&bench.counted).or(Err(Refusal::NoMemory))?;
    }
    Ok(())
}

/// Looks a path up without the lock, or under it if `locked` is set or that look-up fails.
fn look<N: Naming, R: Wait>(
    rt: &R,
    tree: &SharedTree<N>,
    locked: bool,
    slot: u32,
    turns: u32,
) -> Result<(), Refusal> {
    let mut looker = tree.edit(rt).looker()?;
    let path = path_of(slot);
    for _ in 0..turns {
        if locked || looker.look(path).is_none() {
            tree.read(rt).state().lookup(path)?;
        }
    }
    Ok(())
}

/// Takes holds without the lock, or under it if `locked` is set, and releases them.
fn hold<N: Naming, R: Wait>(
    rt: &R,
    alloc: Global,
    tree: &SharedTree<N>,
    locked: bool,
    slot: u32,
    turns: u32,
) -> Result<(), Refusal> {
    let mut holds = maker(rt, alloc, tree)?;
    let mut told = Ok(());
    for _ in 0..turns {
        let taken = if locked {
            hold_of(rt, tree, slot)
        } else {
            holds.pin(key_in(slot))
        };
        match taken {
            Ok(hold) => holds.release(hold),
            Err(refusal) => told = Err(refusal),
        }
    }
    holds.end().release();
    told
}

/// Renames a directory that is on no measured path, and renames it back, until only this thread is busy.
fn change<N: Naming, R: Wait + Clock>(
    rt: &R,
    tree: &SharedTree<N>,
    busy: &AtomicU64,
) -> Result<(), Refusal> {
    for _ in 0..2_000_000_000u64 {
        if busy.load(Ordering::SeqCst) <= 1 {
            break;
        }
        for name in [b"elsewhere".as_slice(), b"virtual".as_slice()] {
            let mut editor = tree.edit(rt);
            let root = editor.state().root();
            editor.rename(key_in(ASIDE), root, name)?;
            editor.compact()?;
            drop(editor);
            thread::sleep(rt, Duration::from_micros(PAUSE));
        }
    }
    Ok(())
}

/// Makes a turn this many times.
pub(crate) fn make<N: Naming, R: Wait + Clock>(
    rt: &R,
    bench: &Bench<N>,
    turn: Turn,
    slot: u32,
    turns: u32,
) -> Result<(), Refusal> {
    match turn {
        Turn::Enter => enter(rt, &bench.tree, slot, turns),
        Turn::Gate => pass_through(rt, bench, turns),
        Turn::Add => add(bench, slot, turns),
        Turn::Lock => lock(rt, bench, slot, turns),
        Turn::Clone => clone(bench, turns),
        Turn::Look => look(rt, &bench.tree, false, slot, turns),
        Turn::LookLocked => look(rt, &bench.tree, true, slot, turns),
        Turn::Pin => hold(rt, bench.alloc, &bench.tree, false, slot, turns),
        Turn::HoldLocked => hold(rt, bench.alloc, &bench.tree, true, slot, turns),
        Turn::Read => read(rt, bench.alloc, &bench.tree, slot, turns),
        Turn::Visit => visit(rt, bench.alloc, &bench.tree, false, slot, turns),
        Turn::VisitLocked => visit(rt, bench.alloc, &bench.tree, true, slot, turns),
        Turn::Change => change(rt, &bench.tree, &bench.busy),
        Turn::WaitDrained => wait_in(rt, &bench.tree, slot),
        Turn::Remove => remove(rt, &bench.tree, slot),
    }
}
