//! Removals that have to wait. They work in turns of the lock, and wait for no node before the earlier ones
//! are gone.

use crate::crowd::letter;
use crate::fixtures::{FILE, add, is_linked};
use crate::roles::Inside;
use crate::waits::LOOKS;
use kf_core::{Key, Node};
use kf_shared::{Naming, SharedTree};
use kf_tree::State;
use std::alloc::Global;
use std::process::Abort;
use std::sync::Wait;

/// How many nodes one removal has: the directory and the files in it.
pub(crate) const NODES: u32 = 1_000;

/// How many of these leave the tree in one turn of the lock, if nobody uses any of them.
const TURN: usize = 64;

/// Adds a file to the directory at `/t`. A file with a lower number comes first in byte order.
fn add_file<N: Naming, R: Abort + Wait>(
    rt: &R,
    tree: &SharedTree<N>,
    dir: Key,
    number: u32,
) -> Key {
    let name = [letter(number, 256), letter(number, 16), letter(number, 1)];
    match tree.edit(rt).create(dir, &name, FILE, true) {
        Ok(key) => key,
        Err(_) => panic!(rt; "no room for a file"),
    }
}

/// Adds the directory and its files. Returns their keys in the order in which a removal takes them out of the
/// tree.
pub(crate) fn add_files<N: Naming, R: Abort + Wait>(
    rt: &R,
    alloc: Global,
    tree: &SharedTree<N>,
) -> Vec<Key> {
    let dir = add(rt, tree, b"/t", Node::Dir, true);
    let mut keys = Vec::new(alloc);
    for number in 0..NODES - 1 {
        let file = add_file(rt, tree, dir, number);
        assert!(rt; keys.push(file).is_ok());
    }
    assert!(rt; keys.push(dir).is_ok());
    keys
}

/// Whether the first and the last node of each turn are both linked, or neither is.
fn no_turn_is_half_done(state: &State, keys: &[Key]) -> bool {
    for turn in keys.chunks(TURN) {
        if let (Some(first), Some(last)) = (turn.first(), turn.last()) {
            if state.stat(*first).is_ok() != state.stat(*last).is_ok() {
                return false;
            }
        }
    }
    true
}

/// Watches until all the nodes are gone. Returns true if no turn was ever half done when it had the lock.
pub(crate) fn watch_turns<N: Naming, R: Wait>(rt: &R, tree: &SharedTree<N>, keys: &[Key]) -> bool {
    for _ in 0..LOOKS {
        let reader = tree.read(rt);
        let state = reader.state();
        if !no_turn_is_half_done(state, keys) {
            return false;
        }
        match keys.last() {
            Some(last) if state.stat(*last).is_ok() => {}
            _ => return true,
        }
    }
    false
}

/// Ends the call once the earlier node has left the tree. Returns true if that node ever leaves.
pub(crate) fn leave_after<N: Naming, R: Wait>(
    rt: &R,
    tree: &SharedTree<N>,
    earlier: Key,
    inside: Inside<N>,
) -> bool {
    let mut gone = false;
    for _ in 0..LOOKS {
        if !is_linked(rt, tree, earlier) {
            gone = true;
            break;
        }
    }
    let Inside { call, name: _ } = inside;
    call.leave().release();
    gone
}
