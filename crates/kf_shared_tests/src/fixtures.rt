//! Helpers for the tests of the shared tree. Each stops the test if the call that it makes does not return
//! what it must.
ghost use Rattle.std.specs.Prelude.{◌≡◌};
ghost use Rattle.kf_core.specs.declared.caller.Phase.TheVariants as phase_of;
ghost use Rattle.kf_words.specs.Callers.{IsSameSeat};

use kf_core::{Key, Limits, MOST_SLOTS, Node};
use kf_shared::{Naming, NewTree, SharedTree, release_all};
use kf_words::{Call, Hold};
use std::alloc::Global;
use std::process::Abort;
use std::sync::Wait;

pub(crate) const FILE: Node = Node::File {
    mode: 0o644,
    tag: 7,
};

/// How many slots a tree has, including the root's. All of them have words for look-ups.
const SLOTS: u32 = 16;

pub(crate) fn made<R: Abort>(rt: &R, alloc: Global, holds: u32) -> NewTree {
    let Some(limits) = Limits::new(SLOTS, holds) else {
        panic!(rt; "no such limits")
    };
    assert!(rt; SLOTS <= MOST_SLOTS);
    match SharedTree::with_looks(alloc, limits, 0, SLOTS) {
        Ok(tree) => tree,
        Err(_) => panic!(rt; "no memory"),
    }
}

/// Like `made`, but without words for look-ups, and with generations that need all 32 bits.
pub(crate) fn made_late<R: Abort>(rt: &R, alloc: Global, holds: u32) -> NewTree {
    let Some(limits) = Limits::new(SLOTS, holds) else {
        panic!(rt; "no such limits")
    };
    match SharedTree::new_at(alloc, limits, 4_294_960_000) {
        Ok(tree) => tree,
        Err(_) => panic!(rt; "no memory"),
    }
}

// ---- commands, each of which takes the lock

/// Creates a node at a path whose directory exists.
pub(crate) fn add<N: Naming, R: Abort + Wait>(
    rt: &R,
    tree: &SharedTree<N>,
    path: &[u8],
    node: Node,
    live: bool,
) -> Key {
    let mut editor = tree.edit(rt);
    let Ok((dir, name)) = editor.state().walk_parent(path) else {
        panic!(rt; "no such directory")
    };
    match editor.create(dir, name, node, live) {
        Ok(key) => key,
        Err(_) => panic!(rt; "not created"),
    }
}

/// How many commands are stored.
pub(crate) fn commands<N: Naming, R: Wait>(rt: &R, tree: &SharedTree<N>) -> usize {
    tree.read(rt).state().commands().len()
}

pub(crate) fn is_linked<N: Naming, R: Wait>(rt: &R, tree: &SharedTree<N>, key: Key) -> bool {
    tree.read(rt).state().stat(key).is_ok()
}

/// Whether the root has no child at all, live or not.
pub(crate) fn is_bare<N: Naming, R: Wait>(rt: &R, tree: &SharedTree<N>) -> bool {
    let reader = tree.read(rt);
    let state = reader.state();
    match state.post_order(state.root()) {
        Ok(keys) => keys.len() == 1,
        Err(_) => false,
    }
}

pub(crate) fn hold<N: Naming, R: Abort + Wait>(rt: &R, tree: &SharedTree<N>, key: Key) -> Hold
    ensures { result.table ≡ N.table }
{
    match tree.edit(rt).hold(key) {
        Ok(hold) => hold,
        Err(_) => panic!(rt; "no hold"),
    }
}

pub(crate) fn enter<R: Abort>(rt: &R, hold: Hold) -> Call
    ensures same { IsSameSeat hold result }
    ensures running { result.phase ≡ phase_of.Running }
{
    match hold.enter() {
        Ok(call) => call,
        Err(back) => {
            back.release();
            panic!(rt; "a live node refused a try")
        }
    }
}

/// Removes the node at a path and those below it, and checks that there are this many.
pub(crate) fn removed<N: Naming, R: Abort + Wait>(
    rt: &R,
    tree: &SharedTree<N>,
    path: &[u8],
    count: usize,
) {
    match tree.edit(rt).remove_path(rt, path) {
        Ok(receipts) => {
            assert!(rt; receipts.len() == count);
            release_all(receipts);
        }
        Err(_) => panic!(rt; "not removed"),
    }
}
