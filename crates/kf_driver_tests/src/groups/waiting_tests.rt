//! A removal of a group waits for a call that runs on one of its files.
ghost use Rattle.std.specs.Prelude.{◌≡◌};

use super::tests::{BARE, OWN, ROOT};
use crate::fixtures::made;
use kf_core::{Key, Refusal};
use kf_groups::{Group, create_group, remove_group};
use kf_shared::{Naming, NewTree, SharedTree};
use std::alloc::Global;
use std::marker::Brand;
use std::process::Abort;
use std::sync::Wait;
use std::sync::atomic::{AtomicU64, Ordering};
use std::thread::{Threads, join};

/// Whether the node is marked, and the count is still 1 after more than 10,000 looks since then.
fn is_waited_for<N: Naming, R: Wait>(
    rt: &R,
    tree: &SharedTree<N>,
    key: Key,
    count: &AtomicU64,
) -> bool {
    let mut looks = 0u64;
    for _ in 0..100_000_000u64 {
        let told = tree.read(rt).state().stat(key);
        if matches!(told, Ok(stat) if stat.doomed) {
            looks = looks.saturating_add(1);
        }
        if looks > 10_000 || count.load(Ordering::SeqCst) > 1 {
            break;
        }
    }
    looks > 10_000 && count.load(Ordering::SeqCst) == 1
}

/// Enters the live file at this path, counts itself, and leaves after the removal has begun. Returns whether
/// the removal had not returned before that.
fn calls<N: Naming, R: Wait>(
    rt: &R,
    tree: &SharedTree<N>,
    path: &[u8],
    count: &AtomicU64,
) -> Result<bool, Refusal> {
    let key = tree.read(rt).state().lookup(path)?;
    let hold = tree.edit(rt).hold(key)?;
    match hold.enter() {
        Ok(call) => {
            count.fetch_add(1, Ordering::SeqCst);
            let waits = is_waited_for(rt, tree, key, count);
            call.leave().release();
            Ok(waits)
        }
        Err(hold) => {
            hold.release();
            Ok(false)
        }
    }
}

/// Removes the group once the call runs, and then counts itself.
fn removes<N: Naming, R: Wait>(
    rt: &R,
    alloc: Global,
    tree: &SharedTree<N>,
    group: &Group,
    count: &AtomicU64,
) -> Result<(), Refusal> {
    for _ in 0..1_000_000_000u64 {
        if count.load(Ordering::SeqCst) != 0 {
            break;
        }
    }
    let told = remove_group(rt, tree, alloc, ROOT, group);
    count.fetch_add(1, Ordering::SeqCst);
    told
}

/// The removal of a group returns only after the call on the file at this path has ended, and then the file
/// is gone.
fn waits<N: Naming + Send + Sync, R: Abort + Threads + Wait + Sync>(
    rt: &R,
    alloc: Global,
    tree: &SharedTree<N>,
    group: &Group,
    path: &[u8],
) {
    assert!(rt; create_group(&mut tree.edit(rt), ROOT, group).is_ok());
    let count = AtomicU64::new(0);
    let (told, waited) = join(
        rt,
        || removes(rt, alloc, tree, group, &count),
        || calls(rt, tree, path, &count),
    );
    assert!(rt;
        told == Ok(()) && waited == Ok(true),
        "the removal answered while the call ran"
    );
    assert!(rt; tree.read(rt).state().walk(path).is_err());
}

fn both_wait<N: Naming + Send + Sync, R: Abort + Threads + Wait + Sync>(
    rt: &R,
    alloc: Global,
    new: NewTree,
)
    requires { new.master.table ≡ N.table }
{
    let tree = new.named::<N>();
    waits(rt, alloc, &tree, &OWN, b"/g/a");
    waits(rt, alloc, &tree, &BARE, b"/b");
}

#[test]
fn a_removal_of_a_group_waits_for_a_call(rt: HostRuntime) {
    both_wait::<Brand, _>(&rt, rt.alloc(), made(&rt, rt.alloc(), 4, 9));
}
