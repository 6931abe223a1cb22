//! The atomic steps, as the model sees them.

use crate::key::{Key, Node};
use crate::name_bytes::NameBytes;

/// One atomic step of the model. It is made by a caller, which is given by its number, or by the thread that
/// has the tree's lock.
#[derive(Drop)]
pub enum Event {
    /// A new node is linked. It is neither activated nor doomed.
    Born {
        key: Key,
        parent: Key,
        name: NameBytes,
        node: Node,
    },
    /// A node is activated.
    Rise {
        key: Key,
    },
    /// A node is doomed.
    Mark {
        key: Key,
    },
    /// A node moves to this directory, under this name.
    Move {
        key: Key,
        dir: Key,
        name: NameBytes,
    },
    /// A new caller holds the key.
    Pin {
        caller: usize,
        key: Key,
    },
    /// A try for an active reference.
    Enter {
        caller: usize,
    },
    /// The call ends, and its reference is released.
    Leave {
        caller: usize,
    },
    /// The reference is released inside the callback.
    Break {
        caller: usize,
    },
    /// A reference is taken again inside the callback.
    Restore {
        caller: usize,
    },
    /// The caller sees that its node is doomed and that nobody has a reference to it.
    Look {
        caller: usize,
    },
    /// The node of the caller leaves the tree.
    Unlink {
        caller: usize,
    },
    /// The caller sees that its node has left the tree.
    Part {
        caller: usize,
    },
    /// The caller hides its node: it is not live until the caller shows it again.
    Hide {
        caller: usize,
    },
    /// The caller sees that nobody has a reference to the node that it hides.
    LookHidden {
        caller: usize,
    },
    /// The caller shows its node again.
    Show {
        caller: usize,
    },
    /// The caller releases its hold.
    Release {
        caller: usize,
    },
    /// The second step of a refused try, which undoes the first.
    Undo {
        caller: usize,
    },
}
