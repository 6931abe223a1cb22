//! A listener sleeps until there is an event, 10,000 times, and uses no processor time while it sleeps.
ghost use Rattle.std.specs.Prelude.{◌≡◌};

use crate::fixtures::made;
use kf_core::Refusal;
use kf_notify::Posts;
use kf_shared::{Naming, NewTree, SharedTree};
use kf_uevents::{Listener, Reading, UeventLog, tell_change};
use std::alloc::Global;
use std::marker::Brand;
use std::process::Abort;
use std::sync::atomic::{AtomicU64, Ordering};
use std::sync::{RwLock, Wait};
use std::thread::{Threads, join, sleep};
use std::time::{Clock, CpuClock, Duration};

const EVENTS: u64 = 10_000;

/// Waits and reads in turn. Returns how often there was an event after a wait.
fn reads<R: Wait>(
    rt: &R,
    log: &RwLock<UeventLog>,
    listener: &mut Listener,
    turns: &AtomicU64,
) -> u64 {
    let mut events = 0u64;
    for _ in 0..EVENTS {
        let guard = listener.wait(rt, log);
        if matches!(listener.read(&*guard), Reading::Next { .. }) {
            events = events.saturating_add(1);
        }
        drop(guard);
        turns.fetch_add(1, Ordering::SeqCst);
    }
    events
}

/// Whether the process uses hardly any processor time in a second.
fn are_asleep<R: Wait + Clock + CpuClock>(rt: &R) -> bool {
    sleep(rt, Duration::from_millis(10));
    let before = rt.process_cpu_time();
    sleep(rt, Duration::from_secs(1));
    match (before, rt.process_cpu_time()) {
        (Ok(before), Ok(after)) => after.saturating_sub(before) < Duration::from_millis(100),
        _ => false,
    }
}

/// Adds one event, and raises the number on which the listener sleeps.
pub(super) fn adds<N: Naming, R: Wait>(
    rt: &R,
    tree: &SharedTree<N>,
    log: &RwLock<UeventLog>,
    posts: &mut Posts,
) -> bool {
    let editor = tree.edit(rt);
    let is_added = tell_change(&editor, &mut *log.write(rt), editor.state().root()).is_ok();
    is_added && 0 < posts.slots() && posts.notify(0).is_ok()
}

/// Adds each event once the one before it was read, with a short delay that differs from event to event.
fn adds_all<N: Naming, R: Wait + Clock + CpuClock>(
    rt: &R,
    tree: &SharedTree<N>,
    log: &RwLock<UeventLog>,
    posts: &mut Posts,
    turns: &AtomicU64,
) -> bool {
    let mut is_right = are_asleep(rt);
    for number in 0..EVENTS {
        for _ in rt.forever() {
            if turns.load(Ordering::SeqCst) >= number {
                break;
            }
        }
        for _ in 0..number % 100 {
            turns.load(Ordering::SeqCst);
        }
        is_right &= adds(rt, tree, log, posts);
    }
    is_right
}

fn sleeps<N: Naming + Send + Sync, R: Abort + Threads + Wait + Clock + CpuClock + Sync>(
    rt: &R,
    alloc: Global,
    new: NewTree,
) -> Result<(), Refusal>
    requires { new.master.table ≡ N.table }
{
    let tree = new.named::<N>();
    let log = RwLock::new(UeventLog::new(alloc, 16)?);
    let mut posts = Posts::new(alloc, 1)?;
    let mut listener = Listener::new(posts.post(0)?, 0);
    let turns = AtomicU64::new(0);
    let (events, is_right) = join(
        rt,
        || reads(rt, &log, &mut listener, &turns),
        || adds_all(rt, &tree, &log, &mut posts, &turns),
    );
    assert!(rt; is_right && events == EVENTS);
    Ok(())
}

#[test]
fn a_listener_sleeps_until_there_is_an_event(rt: HostRuntime) -> Result<(), Refusal> {
    sleeps::<Brand, _>(&rt, rt.alloc(), made(&rt, rt.alloc(), 4, 9))
}
