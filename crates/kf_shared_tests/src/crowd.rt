//! What each thread of a crowd does beside the threads that remove: one calls, one creates, and two hide and
//! show.
ghost use Rattle.std.specs.Prelude.{◌<◌};

use crate::fixtures::{FILE, add, removed};
use crate::waits::LOOKS;
use kf_core::{Key, Node, Refusal};
use kf_shared::{Naming, SharedTree};
use kf_words::Hold;
use std::process::Abort;
use std::sync::Wait;

/// Whether the node is doomed or gone.
fn is_over<N: Naming, R: Wait>(rt: &R, tree: &SharedTree<N>, key: Key) -> bool {
    match tree.read(rt).state().stat(key) {
        Ok(stat) => stat.doomed,
        Err(_) => true,
    }
}

/// Enters and leaves until it is refused for good.
pub(crate) fn call<N: Naming, R: Wait>(rt: &R, tree: &SharedTree<N>, first: Hold) -> bool {
    let key = first.key();
    let mut hold = first;
    for _ in 0..LOOKS {
        hold = match hold.enter() {
            Ok(call) => call.leave(),
            Err(back) => {
                if is_over(rt, tree, key) {
                    back.release();
                    return true;
                }
                back
            }
        };
    }
    hold.release();
    false
}

/// A letter for one digit of the number.
pub(crate) fn letter(turn: u32, unit: u32) -> u8
    requires { 0 < unit }
{
    (turn / unit % 16) as u8 + 97
}

/// Creates files in the directory, each under another name, until the directory is doomed or gone.
pub(crate) fn create<N: Naming, R: Wait>(rt: &R, tree: &SharedTree<N>, dir: Key) -> bool {
    for turn in 0..1_000_000u32 {
        let name = [
            letter(turn, 1),
            letter(turn, 16),
            letter(turn, 256),
            letter(turn, 4096),
            letter(turn, 65536),
        ];
        match tree.edit(rt).create(dir, &name, FILE, true) {
            Ok(_) | Err(Refusal::NoSpace) => {}
            Err(refusal) => return refusal == Refusal::NoEntry,
        }
    }
    false
}

/// Hides the file once, and shows it again. Returns why that was refused, except if another thread hides the
/// file.
fn hide_once<N: Naming, R: Wait>(rt: &R, tree: &SharedTree<N>, key: Key) -> Option<Refusal> {
    let hold = match tree.edit(rt).hold(key) {
        Ok(hold) => hold,
        Err(refusal) => return Some(refusal),
    };
    match tree.hide(rt, hold) {
        Ok(hidden) => {
            tree.show(rt, hidden).release();
            None
        }
        Err((hold, refusal)) => {
            hold.release();
            if refusal == Refusal::Busy {
                None
            } else {
                Some(refusal)
            }
        }
    }
}

/// Hides and shows the file again and again until it is refused. If another thread hides the file, it goes
/// on.
pub(crate) fn hide_on<N: Naming, R: Wait>(rt: &R, tree: &SharedTree<N>, key: Key) -> bool {
    for _ in 0..LOOKS {
        if let Some(refusal) = hide_once(rt, tree, key) {
            return refusal == Refusal::NoEntry;
        }
    }
    false
}

/// Gives each slot except the root's to a node, and checks that no further one is free. Then it removes these
/// nodes.
pub(crate) fn every_slot_is_free<N: Naming, R: Abort + Wait>(rt: &R, tree: &SharedTree<N>) {
    let _all = add(rt, tree, b"/all", Node::Dir, true);
    for slot in 2..16u32 {
        let path = [b'/', b'a', b'l', b'l', b'/', letter(slot, 1)];
        let key = add(rt, tree, &path, FILE, true);
        assert!(rt; key.slot == slot);
    }
    let root = tree.read(rt).state().root();
    let beyond = tree.edit(rt).create(root, b"one more", FILE, true);
    assert!(rt; beyond == Err(Refusal::NoSpace));
    removed(rt, tree, b"/all", 15);
}
