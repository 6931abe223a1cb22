//! Waiting for a change: a thread that waits sleeps, and a notify, a removal or a hiding wakes it.
ghost use Rattle.std.specs.Prelude.{◌≡◌};

use super::driver::{Plan, driver_of};
use crate::device::fixtures::{READ, made, opened_by, plants, post_at, posts_of};
use kf_core::Key;
use kf_files::{WaitingFile, hide_and_tell, remove_and_tell};
use kf_notify::{Post, Posts};
use kf_shared::{Naming, NewTree, SharedTree, release_all};
use std::alloc::Global;
use std::marker::Brand;
use std::process::Abort;
use std::sync::Wait;
use std::sync::atomic::{AtomicU64, Ordering};
use std::thread::{Threads, for_each_mut, sleep};
use std::time::{Clock, CpuClock, Duration};

/// How often four threads wait for a notify, for a hiding, and for a removal.
const ROUNDS: u64 = 10_000;

/// What happens to a file.
#[derive(Clone, Copy)]
enum Change {
    Told,
    /// It is hidden, and shown again.
    Hidden,
    Removed,
}

pub(super) fn tells(posts: &mut Posts, slot: u32) -> bool {
    slot < posts.slots() && posts.notify(slot).is_ok()
}

fn hides<N: Naming, R: Wait>(rt: &R, tree: &SharedTree<N>, posts: &mut Posts, key: Key) -> bool {
    let held = tree.edit(rt).hold(key);
    let Ok(hold) = held else {
        return false;
    };
    match hide_and_tell(tree.edit(rt), rt, posts, hold) {
        Ok(hidden) => {
            tree.show(rt, hidden).release();
            true
        }
        Err((hold, _)) => {
            hold.release();
            false
        }
    }
}

pub(super) fn removes<N: Naming, R: Wait>(
    rt: &R,
    tree: &SharedTree<N>,
    posts: &mut Posts,
    key: Key,
) -> bool {
    match remove_and_tell(tree.edit(rt), rt, posts, key) {
        Ok(receipts) => {
            let one = receipts.len() == 1;
            release_all(receipts);
            one
        }
        Err(_) => false,
    }
}

/// Makes this change to the live file at a path. Returns whether the file was there and was changed.
fn changes<N: Naming, R: Wait>(
    rt: &R,
    tree: &SharedTree<N>,
    posts: &mut Posts,
    path: &[u8],
    change: Change,
) -> bool {
    let found = tree.edit(rt).state().lookup(path);
    let Ok(key) = found else {
        return false;
    };
    match change {
        Change::Told => tells(posts, key.slot),
        Change::Hidden => hides(rt, tree, posts, key),
        Change::Removed => removes(rt, tree, posts, key),
    }
}

/// Whether a read of the file returns one byte.
pub(super) fn reads<N: Naming, R: Wait>(
    rt: &R,
    tree: &SharedTree<N>,
    file: &mut WaitingFile<N>,
) -> bool {
    let quiet = driver_of(Plan::Shows(b"v"));
    file.read(rt, tree, &quiet, 0, &mut [0u8; 4]) == Ok(1)
}

// ---- one thread

/// A call on a file in slot 1, or on a post of that slot, and what the call must return. A wait has a limit
/// of 2 ms, unless the step says otherwise.
#[derive(Clone, Copy)]
enum Step {
    Reads,
    /// Whether a wait for the file ends because the file has changed.
    Changes(bool),
    /// What a wait for a number other than this one returns.
    Passes(u64, Option<u64>),
    /// What a wait for a number other than this one returns, if it has no limit.
    PassesAtLast(u64, u64),
    Is(Change),
}

/// If nothing changes, each wait ends at its limit. After a notify or a removal, no call waits.
const STEPS: [Step; 13] = [
    Step::Changes(true),
    Step::Reads,
    Step::Changes(false),
    Step::Passes(1, None),
    Step::PassesAtLast(7, 1),
    Step::Is(Change::Told),
    Step::PassesAtLast(1, 2),
    Step::Passes(1, Some(2)),
    Step::Changes(true),
    Step::Reads,
    Step::Is(Change::Removed),
    Step::PassesAtLast(2, 3),
    Step::Changes(true),
];

fn is_right<N: Naming, R: Wait + Clock>(
    rt: &R,
    tree: &SharedTree<N>,
    file: &mut WaitingFile<N>,
    (posts, post): (&mut Posts, &mut Post),
    step: Step,
) -> bool {
    let limit = Duration::from_millis(2);
    match step {
        Step::Reads => reads(rt, tree, file),
        Step::Changes(told) => file.wait_changed_for(rt, limit) == told,
        Step::Passes(seen, told) => post.wait_past_for(rt, seen, limit) == told,
        Step::PassesAtLast(seen, told) => post.wait_past(rt, seen) == told,
        Step::Is(change) => changes(rt, tree, posts, b"/t", change),
    }
}

/// Takes the steps. The first step that returns something other than it must stops the test.
fn walk<N: Naming, R: Abort + Wait + Clock>(rt: &R, alloc: Global, tree: &SharedTree<N>) {
    let mut posts = posts_of(rt, alloc);
    let mut post = post_at(rt, &mut posts, 1);
    let Some(mut file) = opened_by(rt, tree, &mut posts, b"/t", READ) else {
        panic!(rt; "not opened")
    };
    let mut place = 0usize;
    for step in STEPS {
        if !is_right(rt, tree, &mut file, (&mut posts, &mut post), step) {
            panic!(rt; "step {place}");
        }
        place = place.saturating_add(1);
    }
}

fn ends_by_a_limit<N: Naming, R: Abort + Wait + Clock>(rt: &R, alloc: Global, new: NewTree)
    requires { new.master.table ≡ N.table }
{
    let tree = new.named::<N>();
    assert!(rt; plants(rt, &tree, b"t", 7));
    walk(rt, alloc, &tree);
}

#[test]
fn a_wait_ends_by_its_limit_or_by_a_change(rt: HostRuntime) {
    let new = made(&rt, rt.alloc(), 8);
    ends_by_a_limit::<Brand, _>(&rt, rt.alloc(), new);
}

// ---- four wait while a fifth changes the file: each notify, hiding and removal wakes them all

/// What one of five threads has.
#[derive(Drop)]
struct Reader {
    posts: Posts,
    /// Whether the thread begins only once the others have slept for a second.
    comes_last: bool,
    /// How often the thread has seen the change that it waited for, and no change before it. Nothing is
    /// counted if the others used processor time while they slept.
    seen: u64,
}

/// Opens the file at a path, reads it, and sleeps until it has changed. The last of the five threads to read
/// the file changes it, while four wait. A file that is removed is made again.
fn sees<N: Naming, R: Abort + Wait>(
    rt: &R,
    tree: &SharedTree<N>,
    posts: &mut Posts,
    (path, name): (&[u8], &[u8]),
    (change, count): (Change, &AtomicU64),
) -> bool {
    let Some(mut file) = opened_by(rt, tree, posts, path, READ) else {
        panic!(rt; "not opened")
    };
    let mut right = reads(rt, tree, &mut file) && !file.poll();
    if count.fetch_add(1, Ordering::SeqCst) % 5 == 4 {
        right = changes(rt, tree, posts, path, change) && right;
        if matches!(change, Change::Removed) {
            right = plants(rt, tree, name, 7) && right;
        }
    }
    file.wait_changed(rt);
    right && file.poll()
}

/// Whether the process uses hardly any processor time in a second in which four threads wait.
fn are_asleep<R: Wait + Clock + CpuClock>(rt: &R, count: &AtomicU64) -> bool {
    for _ in rt.forever() {
        if count.load(Ordering::SeqCst) == 4 {
            break;
        }
        sleep(rt, Duration::from_millis(1));
    }
    let before = rt.process_cpu_time();
    sleep(rt, Duration::from_secs(1));
    match (before, rt.process_cpu_time()) {
        (Ok(before), Ok(after)) => after.saturating_sub(before) < Duration::from_millis(100),
        _ => false,
    }
}

/// One of five threads sees changes of `s` and `t` in turn. A change of one file is complete before all
/// threads have read the other.
fn takes_part<N: Naming, R: Abort + Wait + Clock + CpuClock>(
    rt: &R,
    tree: &SharedTree<N>,
    reader: &mut Reader,
    change: (Change, &AtomicU64),
) {
    let are_others_asleep = !reader.comes_last || are_asleep(rt, change.1);
    for round in 0..ROUNDS {
        let file: (&[u8], &[u8]) = if round % 2 == 0 {
            (b"/s", b"s")
        } else {
            (b"/t", b"t")
        };
        if sees(rt, tree, &mut reader.posts, file, change) && are_others_asleep {
            reader.seen = reader.seen.saturating_add(1);
        }
    }
}

/// Five readers, of which the last begins last.
fn readers_of<R: Abort>(rt: &R, alloc: Global) -> Vec<Reader> {
    let mut posts = posts_of(rt, alloc);
    let mut readers = Vec::new(alloc);
    for number in 0..5u32 {
        let Ok(own) = posts.another() else {
            panic!(rt; "no memory")
        };
        let reader = Reader {
            posts: own,
            comes_last: number == 4,
            seen: 0,
        };
        assert!(rt; readers.push(reader).is_ok(), "no memory");
    }
    readers
}

/// All five see each change. (If one were not woken, they would wait forever.)
fn all_see<N: Naming + Send + Sync, R: Abort + Threads + Wait + Clock + CpuClock + Sync>(
    rt: &R,
    alloc: Global,
    tree: &SharedTree<N>,
    change: Change,
) {
    let count = AtomicU64::new(0);
    let mut readers = readers_of(rt, alloc);
    for_each_mut(
        rt,
        readers.as_mut_slice(),
        5,
        &|_, reader| takes_part(rt, tree, reader, (change, &count)),
    );
    for reader in readers.as_slice() {
        assert!(rt; reader.seen == ROUNDS, "each saw each change");
    }
}

fn four_are_woken<N: Naming + Send + Sync, R: Abort + Threads + Wait + Clock + CpuClock + Sync>(
    rt: &R,
    alloc: Global,
    new: NewTree,
    change: Change,
)
    requires { new.master.table ≡ N.table }
{
    let tree = new.named::<N>();
    assert!(rt; plants(rt, &tree, b"s", 7) && plants(rt, &tree, b"t", 7));
    all_see(rt, alloc, &tree, change);
}

#[test]
fn four_threads_sleep_and_each_notify_wakes_them_all(rt: HostRuntime) {
    let new = made(&rt, rt.alloc(), 8);
    four_are_woken::<Brand, _>(&rt, rt.alloc(), new, Change::Told);
}

#[test]
fn four_threads_sleep_and_each_hiding_wakes_them_all(rt: HostRuntime) {
    let new = made(&rt, rt.alloc(), 8);
    four_are_woken::<Brand, _>(&rt, rt.alloc(), new, Change::Hidden);
}

#[test]
fn four_threads_sleep_and_each_removal_wakes_them_all(rt: HostRuntime) {
    let new = made(&rt, rt.alloc(), 8);
    four_are_woken::<Brand, _>(&rt, rt.alloc(), new, Change::Removed);
}
