//! What the tests of the words build on. Each helper stops the test if its call does not return what it must.

use kf_core::{Key, Limits, Node, NodeFlags};
use kf_words::{Call, Hiding, Hold, Master, Words, try_drained};
use std::alloc::Global;
use std::process::Abort;

/// Makes the Master of two slots, each with room for 16 holds.
pub(crate) fn made<R: Abort>(rt: &R, alloc: Global) -> Master {
    made_for(rt, alloc, 16)
}

/// Makes the Master of two slots, each with room for this many holds.
pub(crate) fn made_for<R: Abort>(rt: &R, alloc: Global, holds: u32) -> Master {
    let Some(limits) = Limits::new(2, holds) else {
        panic!(rt; "no such limits")
    };
    match Words::new(alloc, limits) {
        Ok((_, master)) => master,
        Err(_) => panic!(rt; "no memory"),
    }
}

/// Makes a node with the next free key, and returns this key.
pub(crate) fn born<R: Abort>(rt: &R, master: &mut Master) -> Key {
    match master.free_key() {
        Some(key) => {
            master.born(
                key,
                Node::File {
                    mode: 0o444,
                    tag: 7,
                },
            );
            key
        }
        None => panic!(rt; "no free slot"),
    }
}

pub(crate) fn activate<R: Abort>(rt: &R, master: &mut Master, key: Key) {
    match master.marks(key) {
        Some(
            NodeFlags {
                activated: false,
                doomed: false,
            },
        ) => master.activate(key),
        _ => panic!(rt; "not as new"),
    }
}

pub(crate) fn doom<R: Abort>(rt: &R, master: &mut Master, key: Key) {
    match master.marks(key) {
        Some(
            NodeFlags {
                activated: _,
                doomed: false,
            },
        ) => master.doom(key),
        _ => panic!(rt; "not linked, or doomed before"),
    }
}

pub(crate) fn pin<R: Abort>(rt: &R, master: &mut Master, key: Key) -> Hold {
    assert!(rt; master.marks(key).is_some());
    match master.pin(key) {
        Ok(hold) => hold,
        Err(_) => panic!(rt; "no hold"),
    }
}

pub(crate) fn enter<R: Abort>(rt: &R, hold: Hold) -> Call {
    match hold.enter() {
        Ok(call) => call,
        Err(back) => {
            back.release();
            panic!(rt; "a live node refused a try")
        }
    }
}

pub(crate) fn hide<R: Abort>(rt: &R, hold: Hold) -> Hiding {
    match hold.hide() {
        Ok(hiding) => hiding,
        Err(back) => {
            back.release();
            panic!(rt; "a key was hidden before")
        }
    }
}

/// Checks that the hold sees the node drained, and releases the hold.
pub(crate) fn see_drained<R: Abort>(rt: &R, hold: Hold) {
    match hold.look() {
        Ok(drained) => drained.release(),
        Err(back) => {
            back.release();
            panic!(rt; "a drained node looked used")
        }
    }
}

/// Checks that the hold sees the node still in use.
pub(crate) fn see_used<R: Abort>(rt: &R, hold: Hold) -> Hold {
    match try_drained(hold) {
        Ok(drained) => {
            drained.release();
            panic!(rt; "a node in use looked drained")
        }
        Err(back) => back,
    }
}

/// Checks that one look sees the node drained, and releases the hold.
pub(crate) fn see_drained_at_once<R: Abort>(rt: &R, hold: Hold) {
    match try_drained(hold) {
        Ok(drained) => drained.release(),
        Err(back) => {
            back.release();
            panic!(rt; "a drained node looked used")
        }
    }
}

/// Checks that the words of a node have this many holds and users.
pub(crate) fn counted<R: Abort>(rt: &R, master: &mut Master, key: Key, holds: u32, users: u32) {
    match master.counts(key) {
        Some(counts) => {
            assert_eq!(rt; counts.holds, holds);
            assert_eq!(rt; counts.users, users);
        }
        None => panic!(rt; "not linked"),
    }
}
