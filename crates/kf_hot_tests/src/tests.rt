//! Gates and passes in one thread, and removals of hot nodes while threads call them.
ghost use Rattle.std.specs.Prelude.{◌≡◌};

use crate::gates::{another, broken, gate, lanes, openings};
use crate::nodes::{
    call, close_once_doomed, create, no_counts, release_once_doomed, remove, remove_plainly, stay,
    wait_for,
};
use crate::passes::guarded;
use kf_core::Limits;
use kf_shared::{Naming, NewTree, SharedTree};
use std::alloc::Global;
use std::marker::Brand;
use std::process::Abort;
use std::sync::Wait;
use std::sync::atomic::Ordering;
use std::thread::{Threads, join};

/// A tree of 8 slots, each of which may have 16 holds.
pub(crate) fn made<R: Abort>(rt: &R, alloc: Global) -> NewTree {
    let Some(limits) = Limits::new(8, 16) else {
        panic!(rt; "no such limits")
    };
    match SharedTree::<Brand>::new(alloc, limits) {
        Ok(tree) => tree,
        Err(_) => panic!(rt; "no memory"),
    }
}

/// A hundred nodes behind one gate, one after the other. Each is called by two threads and removed.
fn histories<N: Naming + Send + Sync, R: Threads + Abort + Wait + Sync>(
    rt: &R,
    alloc: Global,
    tree: &SharedTree<N>,
) {
    let counts = no_counts();
    let (mut closed, mut pass) = gate(rt, alloc, 2);
    for number in 1..101u64 {
        let key = create(rt, tree, b"hot");
        let one = another(rt, &mut pass, 0);
        let two = another(rt, &mut pass, 1);
        let callers = number * 2;
        let (_, (_, back)) = join(
            rt,
            || call(rt, one, number, &counts),
            || {
                join(
                    rt,
                    || call(rt, two, number, &counts),
                    || remove(rt, alloc, tree, key, closed, callers, &counts),
                )
            },
        );
        closed = back;
        assert!(rt; closed.number() == number);
        assert!(rt; tree.read(rt).state().stat(key).is_err());
    }
    assert!(rt; counts.wrong.load(Ordering::SeqCst) == 0);
}

/// One caller stays inside until the node is doomed, and the removal waits for it.
fn in_use<N: Naming + Send + Sync, R: Threads + Abort + Wait + Sync>(
    rt: &R,
    alloc: Global,
    tree: &SharedTree<N>,
) {
    let counts = no_counts();
    let key = create(rt, tree, b"used");
    let (closed, pass) = gate(rt, alloc, 4);
    join(
        rt,
        || stay(pass, 1, &counts),
        || {
            join(
                rt,
                || release_once_doomed(rt, tree, key, &counts),
                || remove(rt, alloc, tree, key, closed, 1, &counts),
            )
        },
    );
    assert!(rt; counts.wrong.load(Ordering::SeqCst) == 0);
}

fn removals<N: Naming + Send + Sync, R: Threads + Abort + Wait + Sync>(
    rt: &R,
    alloc: Global,
    new: NewTree,
)
    requires { new.master.table ≡ N.table }
{
    let tree = new.named::<N>();
    histories(rt, alloc, &tree);
    in_use(rt, alloc, &tree);
}

/// A removal that does not know of the gate waits until the gate is closed.
fn unknown<N: Naming + Send + Sync, R: Threads + Abort + Wait + Sync>(
    rt: &R,
    alloc: Global,
    new: NewTree,
)
    requires { new.master.table ≡ N.table }
{
    let tree = new.named::<N>();
    let counts = no_counts();
    let key = create(rt, &tree, b"unknown");
    let (closed, _) = gate(rt, alloc, 2);
    let (_, removed) = join(
        rt,
        || close_once_doomed(rt, &tree, key, closed, &counts),
        || {
            let _ = wait_for(&counts.opened, 1);
            remove_plainly(rt, &tree, key, &counts)
        },
    );
    assert!(rt; removed == Ok(1));
    assert!(rt; counts.wrong.load(Ordering::SeqCst) == 0);
}

#[test]
fn gates_by_one_thread(rt: HostRuntime) {
    lanes(&rt, rt.alloc());
    openings(&rt, rt.alloc());
    broken(&rt, rt.alloc());
}

#[test]
fn passes_by_their_guard(rt: HostRuntime) {
    let new = made(&rt, rt.alloc());
    guarded::<Brand, _>(&rt, rt.alloc(), new);
}

#[test]
fn removals_of_hot_nodes(rt: HostRuntime) {
    let new = made(&rt, rt.alloc());
    removals::<Brand, _>(&rt, rt.alloc(), new);
}

#[test]
fn a_removal_that_does_not_know(rt: HostRuntime) {
    let new = made(&rt, rt.alloc());
    unknown::<Brand, _>(&rt, rt.alloc(), new);
}
