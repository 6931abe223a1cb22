//! Before it unlocks, a removal takes the first of its nodes out of the tree, as long as nobody uses them.
ghost use Rattle.std.specs.Prelude.{◌≡◌};

use crate::fixtures::{FILE, add, enter, hold, is_bare, is_linked};
use kf_core::{Key, Limits, Node};
use kf_shared::{Draining, Naming, NewTree, SharedTree, release_all};
use std::alloc::Global;
use std::process::Abort;
use std::sync::Wait;

/// How many files the directory has: more than a removal unlinks at once. `STAYS` is the first one that then
/// stays.
pub(crate) const FILES: u8 = 70;

const STAYS: u8 = 64;

/// Makes a tree of this many slots.
pub(crate) fn made_wide<R: Abort>(rt: &R, alloc: Global, slots: u32) -> NewTree {
    let Some(limits) = Limits::new(slots, 2) else {
        panic!(rt; "no such limits")
    };
    match SharedTree::new(alloc, limits) {
        Ok(tree) => tree,
        Err(_) => panic!(rt; "no memory"),
    }
}

/// Begins the removal of a node, and unlocks the tree.
fn begun<'a, N: Naming, R: Abort + Wait>(
    rt: &R,
    tree: &'a SharedTree<N>,
    key: Key,
) -> Draining<'a, N> {
    let mut editor = tree.edit(rt);
    match editor.begin_removal_of(key) {
        Ok(removing) => editor.end_removal(removing),
        Err(_) => panic!(rt; "not begun"),
    }
}

/// Waits for the nodes that are left, and checks that this many nodes were removed.
fn ended<N: Naming, R: Abort + Wait>(rt: &R, draining: Draining<'_, N>, count: usize) {
    let receipts = draining.finish(rt);
    assert!(rt; receipts.len() == count);
    release_all(receipts);
}

/// If the second of three files is in use, the first has left, and the others stay until the caller has left.
fn up_to_the_first_in_use<N: Naming, R: Abort + Wait>(rt: &R, tree: &SharedTree<N>) {
    let top = add(rt, tree, b"/t", Node::Dir, true);
    let first = add(rt, tree, b"/t/a", FILE, true);
    let used = add(rt, tree, b"/t/b", FILE, true);
    let last = add(rt, tree, b"/t/c", FILE, true);
    let call = enter(rt, hold(rt, tree, used));
    let draining = begun(rt, tree, top);
    let gone = !is_linked(rt, tree, first);
    let stay = is_linked(rt, tree, used) && is_linked(rt, tree, last) && is_linked(rt, tree, top);
    call.leave().release();
    ended(rt, draining, 4);
    assert!(rt; gone && stay && is_bare(rt, tree));
}

/// If nobody uses any of the files, 64 have left at once.
fn at_most_64<N: Naming, R: Abort + Wait>(rt: &R, tree: &SharedTree<N>) {
    let top = add(rt, tree, b"/t", Node::Dir, true);
    let (mut last, mut next) = (top, top);
    for file in 0..FILES {
        let key = add(rt, tree, &[b'/', b't', b'/', b'0' + file], FILE, true);
        if file + 1 == STAYS {
            last = key;
        }
        if file == STAYS {
            next = key;
        }
    }
    let draining = begun(rt, tree, top);
    let gone = !is_linked(rt, tree, last);
    let stay = is_linked(rt, tree, next) && is_linked(rt, tree, top);
    ended(rt, draining, FILES as usize + 1);
    assert!(rt; gone && stay && is_bare(rt, tree));
}

/// If nobody uses the file, it has left at once.
fn all_of_one<N: Naming, R: Abort + Wait>(rt: &R, tree: &SharedTree<N>) {
    let file = add(rt, tree, b"/t", FILE, true);
    let draining = begun(rt, tree, file);
    let gone = !is_linked(rt, tree, file);
    ended(rt, draining, 1);
    assert!(rt; gone && is_bare(rt, tree));
}

/// Runs these tests in a tree that has enough slots.
pub(crate) fn unused_nodes<N: Naming, R: Abort + Wait>(rt: &R, new: NewTree)
    requires { new.master.table ≡ N.table }
{
    let tree = new.named::<N>();
    up_to_the_first_in_use(rt, &tree);
    at_most_64(rt, &tree);
    all_of_one(rt, &tree);
}
