//! What the tests build on: trees, buses, event numbers, holds and files, and how threads wait.
ghost use Rattle.std.specs.Prelude.{◌≡◌, IfSome};

use kf_core::{Limits, Node};
use kf_device::Bus;
use kf_files::{WaitingFile, Want};
use kf_notify::{Post, Posts};
use kf_shared::{Naming, NewTree, SharedTree};
use kf_words::Hold;
use std::alloc::Global;
use std::marker::Brand;
use std::process::Abort;
use std::sync::Wait;
use std::sync::atomic::{AtomicU64, Ordering};

pub(crate) const BOTH: Want = Want {
    read: true,
    write: true,
};

pub(crate) const READ: Want = Want {
    read: true,
    write: false,
};

pub(crate) const WRITE: Want = Want {
    read: false,
    write: true,
};

/// A tree with 64 slots, each of which may have at most this many holds.
pub(crate) fn made<R: Abort>(rt: &R, alloc: Global, holds: u32) -> NewTree {
    let Some(limits) = Limits::new(64, holds) else {
        panic!(rt; "no such limits")
    };
    match SharedTree::<Brand>::new(alloc, limits) {
        Ok(tree) => tree,
        Err(_) => panic!(rt; "no memory"),
    }
}

pub(crate) fn new_bus<N: Naming, R: Abort>(rt: &R, alloc: Global) -> Bus<N> {
    match Bus::new(alloc) {
        Ok(bus) => bus,
        Err(_) => panic!(rt; "no memory"),
    }
}

pub(crate) fn count_of(counter: &AtomicU64) -> u64 {
    counter.load(Ordering::SeqCst)
}

/// Waits until the counter has reached this count. Returns whether it has.
pub(crate) fn wait_for(count: u64, counter: &AtomicU64) -> bool {
    for _ in 0..1_000_000_000u64 {
        if count_of(counter) >= count {
            return true;
        }
    }
    false
}

/// Event numbers of the 64 slots.
pub(crate) fn posts_of<R: Abort>(rt: &R, alloc: Global) -> Posts {
    match Posts::new(alloc, 64) {
        Ok(posts) => posts,
        Err(_) => panic!(rt; "no memory"),
    }
}

pub(crate) fn post_at<R: Abort>(rt: &R, posts: &mut Posts, slot: u32) -> Post
    ensures { result.slot ≡ slot }
{
    assert!(rt; slot < posts.slots(), "the slot has a number");
    match posts.post(slot) {
        Ok(post) => post,
        Err(_) => panic!(rt; "no memory"),
    }
}

/// Makes a live file with this tag in the root directory.
pub(crate) fn plants<N: Naming, R: Wait>(
    rt: &R,
    tree: &SharedTree<N>,
    name: &[u8],
    tag: u64,
) -> bool {
    let mut editor = tree.edit(rt);
    let root = editor.state().root();
    let file = Node::File { mode: 0o666, tag };
    editor.create(root, name, file, true).is_ok()
}

/// A hold of the live node at a path, if there is one.
pub(crate) fn held<N: Naming, R: Wait>(rt: &R, tree: &SharedTree<N>, path: &[u8]) -> Option<Hold>
    ensures { IfSome result (λ hold. hold.table ≡ N.table) }
{
    let mut editor = tree.edit(rt);
    let key = editor.state().lookup(path).ok()?;
    match editor.hold(key) {
        Ok(hold) => Some(hold),
        Err(_) => None,
    }
}

/// The live file at a path, opened with a post of these numbers, if there is one.
pub(crate) fn opened_by<N: Naming, R: Abort + Wait>(
    rt: &R,
    tree: &SharedTree<N>,
    posts: &mut Posts,
    path: &[u8],
    want: Want,
) -> Option<WaitingFile<N>> {
    let hold = held(rt, tree, path)?;
    let node = hold.node();
    let post = post_at(rt, posts, hold.key().slot);
    match WaitingFile::open(hold, node, want, post) {
        Ok(file) => Some(file),
        Err((hold, _, _)) => {
            hold.release();
            None
        }
    }
}

/// The live file at a path, opened with a post of new event numbers, if there is one.
pub(crate) fn opened<N: Naming, R: Abort + Wait>(
    rt: &R,
    alloc: Global,
    tree: &SharedTree<N>,
    path: &[u8],
    want: Want,
) -> Option<WaitingFile<N>> {
    opened_by(rt, tree, &mut posts_of(rt, alloc), path, want)
}
