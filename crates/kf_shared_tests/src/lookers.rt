//! Look-ups and holds of paths without the tree's lock: after each command, and in threads beside one that
//! changes the tree.

use crate::fixtures::{FILE, add, enter, hold, removed};
use kf_core::{Key, Node};
use kf_live::Lookup;
use kf_shared::{Naming, PathHolder, SharedTree};
use std::alloc::Global;
use std::process::Abort;
use std::sync::Wait;

pub(crate) fn looker_of<N: Naming, R: Abort + Wait>(rt: &R, tree: &SharedTree<N>) -> Lookup {
    match tree.edit(rt).looker() {
        Ok(looker) => looker,
        Err(_) => panic!(rt; "no looker"),
    }
}

/// Makes a holder of paths in the tree.
pub(crate) fn holder_of<N: Naming, R: Abort + Wait>(
    rt: &R,
    alloc: Global,
    tree: &SharedTree<N>,
) -> PathHolder<N> {
    match PathHolder::new(alloc, &mut tree.edit(rt)) {
        Ok(holder) => holder,
        Err(_) => panic!(rt; "no holder"),
    }
}

// ---- after each command

/// Checks, three times, that the path gives a hold of the live file.
fn holds<N: Naming, R: Abort>(rt: &R, by: &mut PathHolder<N>, path: &[u8], key: Key) {
    for _ in 0..3 {
        match by.try_hold(path) {
            Some(held) => {
                assert!(rt; held.key() == key);
                enter(rt, held).leave().release();
            }
            None => panic!(rt; "no hold"),
        }
    }
}

/// Checks, three times, that the path gives no hold, so that its caller is sent to the lock.
fn is_sent<N: Naming, R: Abort>(rt: &R, by: &mut PathHolder<N>, path: &[u8]) {
    for _ in 0..3 {
        if let Some(held) = by.try_hold(path) {
            by.release(held);
            panic!(rt; "a hold of what is not there")
        }
    }
}

/// Hides the file, checks that its path gives no hold, and shows the file again.
fn not_held_while_hidden<N: Naming, R: Abort + Wait>(
    rt: &R,
    tree: &SharedTree<N>,
    by: &mut PathHolder<N>,
    file: Key,
) {
    match tree.hide(rt, hold(rt, tree, file)) {
        Ok(token) => {
            is_sent(rt, by, b"/t/g");
            tree.show(rt, token).release();
        }
        Err((back, _)) => {
            back.release();
            panic!(rt; "not hidden")
        }
    }
}

/// Activates the directory and the file in it.
fn activated<N: Naming, R: Abort + Wait>(rt: &R, tree: &SharedTree<N>, dir: Key) {
    assert!(rt; tree.edit(rt).activate(dir).is_ok());
}

fn renamed<N: Naming, R: Abort + Wait>(rt: &R, tree: &SharedTree<N>, file: Key, dir: Key) {
    assert!(rt; tree.edit(rt).rename(file, dir, b"g").is_ok());
}

/// Creates, activates, moves, hides, shows and removes a file, and then creates the next one under its name.
/// It looks for the file after each change.
pub(crate) fn held_as_it_changes<N: Naming, R: Abort + Wait>(
    rt: &R,
    tree: &SharedTree<N>,
    by: &mut PathHolder<N>,
) {
    let dir = add(rt, tree, b"/t", Node::Dir, true);
    let file = add(rt, tree, b"/t/f", FILE, false);
    is_sent(rt, by, b"/t/f");
    activated(rt, tree, dir);
    holds(rt, by, b"/t/f", file);
    renamed(rt, tree, file, dir);
    is_sent(rt, by, b"/t/f");
    not_held_while_hidden(rt, tree, by, file);
    holds(rt, by, b"/t/g", file);
    removed(rt, tree, b"/t/g", 1);
    is_sent(rt, by, b"/t/g");
    let next = add(rt, tree, b"/t/g", FILE, true);
    holds(rt, by, b"/t/g", next);
    removed(rt, tree, b"/t", 2);
}

// ---- beside a thread that changes the tree

/// The tag of the last of the files that come one after the other under one name.
const LAST: u64 = 3_000;

fn file_of(tag: u64) -> Node {
    Node::File { mode: 0o644, tag }
}

/// Makes a file with each tag and removes it, except for the last one.
pub(crate) fn change<N: Naming, R: Abort + Wait>(rt: &R, tree: &SharedTree<N>) {
    for tag in 1..LAST {
        let _key = add(rt, tree, b"/t/f", file_of(tag), true);
        removed(rt, tree, b"/t/f", 1);
        let answer = tree.edit(rt).compact();
        assert!(rt; answer.is_ok());
    }
    let _key = add(rt, tree, b"/t/f", file_of(LAST), true);
}

/// The tag of a file; 0, which no file has, if this is none of the files.
fn tag_of(node: Node) -> u64 {
    match node {
        Node::File { mode: 0o644, tag } => tag,
        _ => 0,
    }
}

/// The tag of the file that is found, or held, at the path, if there is one.
fn tag_there<N: Naming>(looker: &mut Lookup, by: &mut PathHolder<N>, opens: bool) -> Option<u64> {
    if !opens {
        let sight = looker.look(b"/t/f")?;
        return Some(tag_of(sight.found.node));
    }
    let held = by.try_hold(b"/t/f")?;
    let node = held.node();
    by.release(held);
    Some(tag_of(node))
}

/// Looks up the path, or takes holds of it, until it gets the file with the last tag. Returns whether it
/// gets there, with no file older than the one before.
pub(crate) fn keep_looking<N: Naming>(
    looker: &mut Lookup,
    by: &mut PathHolder<N>,
    opens: bool,
) -> bool {
    let mut before = 1;
    'looks: for _ in 0..4_000_000_000u64 {
        if let Some(tag) = tag_there(looker, by, opens) {
            if tag < before || tag >= LAST {
                return tag == LAST;
            }
            before = tag;
        }
    }
    false
}
