//! A listener misses no event that comes between its look at the list and its sleep.
ghost use Rattle.std.specs.Prelude.{◌≡◌};

use super::sleeping_tests::adds;
use crate::fixtures::made;
use kf_core::Refusal;
use kf_notify::Posts;
use kf_shared::{Naming, NewTree, SharedTree};
use kf_uevents::{Listener, Look, UeventLog};
use std::alloc::Global;
use std::marker::Brand;
use std::process::Abort;
use std::sync::atomic::{AtomicU64, Ordering};
use std::sync::{Mutex, RwLock, RwLockReadGuard, Wait};
use std::thread::{Threads, join, sleep};
use std::time::{Clock, Duration};

/// A list to which the first event is added right after the first look, so the first look does not find it.
#[derive(Drop)]
struct Late<'t, N: Naming> {
    tree: &'t SharedTree<N>,
    log: RwLock<UeventLog>,
    /// The empty list, which the first look finds.
    none: RwLock<UeventLog>,
    posts: Mutex<Posts>,
    looks: AtomicU64,
}

impl<N: Naming> Look for Late<'_, N> {
    fn look<'a, R: Wait>(&'a self, rt: &R) -> RwLockReadGuard<'a, UeventLog> {
        if self.looks.fetch_add(1, Ordering::SeqCst) == 0 {
            let _ = adds(rt, self.tree, &self.log, &mut *self.posts.lock(rt));
            return self.none.read(rt);
        }
        self.log.read(rt)
    }
}

/// Wakes a listener that still sleeps after a second, although there is an event. Returns whether that was
/// necessary.
fn wakes<N: Naming, R: Wait + Clock>(rt: &R, late: &Late<'_, N>, is_done: &AtomicU64) -> bool {
    for _ in 0..1000 {
        if is_done.load(Ordering::SeqCst) != 0 {
            return false;
        }
        sleep(rt, Duration::from_millis(1));
    }
    let _ = adds(rt, late.tree, &late.log, &mut *late.posts.lock(rt));
    true
}

fn looks<N: Naming + Send + Sync, R: Abort + Threads + Wait + Clock + Sync>(
    rt: &R,
    alloc: Global,
    new: NewTree,
) -> Result<(), Refusal>
    requires { new.master.table ≡ N.table }
{
    let tree = new.named::<N>();
    let mut posts = Posts::new(alloc, 1)?;
    let mut listener = Listener::new(posts.post(0)?, 0);
    let late = Late {
        tree: &tree,
        log: RwLock::new(UeventLog::new(alloc, 16)?),
        none: RwLock::new(UeventLog::new(alloc, 16)?),
        posts: Mutex::new(posts),
        looks: AtomicU64::new(0),
    };
    let is_done = AtomicU64::new(0);
    let ((), is_late) = join(
        rt,
        || {
            drop(listener.wait(rt, &late));
            is_done.store(1, Ordering::SeqCst);
        },
        || wakes(rt, &late, &is_done),
    );
    assert!(rt; !is_late && late.looks.load(Ordering::SeqCst) == 2);
    Ok(())
}

#[test]
fn an_event_after_a_look_ends_the_wait(rt: HostRuntime) -> Result<(), Refusal> {
    looks::<Brand, _>(&rt, rt.alloc(), made(&rt, rt.alloc(), 4, 9))
}
