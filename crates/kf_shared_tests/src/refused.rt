//! Removals that are refused since a node below already has the greatest number of holds. Nothing is stored,
//! and all holds are released.
ghost use Rattle.std.specs.Prelude.{◌≡◌};

use crate::fixtures::{FILE, add, commands, enter, hold, removed};
use kf_core::{Key, Node, Refusal};
use kf_shared::{Naming, SharedTree, release_all};
use kf_words::Hold;
use std::process::Abort;
use std::sync::Wait;

/// Checks that a removal of the node, and then one from within a call of it, are refused because of a node
/// below.
fn not_removed<N: Naming, R: Abort + Wait>(rt: &R, tree: &SharedTree<N>, top: Hold) -> Hold
    requires { top.table ≡ N.table }
    ensures { result.table ≡ N.table }
{
    let top = match tree.remove(rt, top) {
        Ok(receipts) => {
            release_all(receipts);
            panic!(rt; "a removal that should be refused")
        }
        Err((top, refusal)) => {
            assert!(rt; refusal == Refusal::TooManyHolds);
            top
        }
    };
    let mut call = enter(rt, top);
    match tree.remove_self(rt, &mut call) {
        Ok((_, receipts)) => {
            release_all(receipts);
            panic!(rt; "a self-removal that should be refused")
        }
        Err(refusal) => assert!(rt; refusal == Refusal::TooManyHolds),
    }
    call.leave()
}

/// Makes two holds of the node, which are all that it may have, and releases them.
fn has_room_for_two<N: Naming, R: Abort + Wait>(rt: &R, tree: &SharedTree<N>, key: Key) {
    let one = hold(rt, tree, key);
    hold(rt, tree, key).release();
    one.release();
}

/// Runs this test in a tree whose slots may have two holds each.
pub(crate) fn refused_below<N: Naming, R: Abort + Wait>(rt: &R, tree: &SharedTree<N>) {
    let top = add(rt, tree, b"/t", Node::Dir, true);
    let first = add(rt, tree, b"/t/a", FILE, true);
    let full = add(rt, tree, b"/t/b", FILE, true);
    let one = hold(rt, tree, full);
    let other = hold(rt, tree, full);
    let before = commands(rt, tree);
    not_removed(rt, tree, hold(rt, tree, top)).release();
    assert!(rt; commands(rt, tree) == before);
    has_room_for_two(rt, tree, top);
    has_room_for_two(rt, tree, first);
    one.release();
    other.release();
    removed(rt, tree, b"/t", 3);
}
