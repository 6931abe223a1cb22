//! A tour of a subtree in post-order.

use kf_core::Key;

/// A place on a tour of a subtree in post-order: each node after all nodes below it, siblings in byte order
/// of names, the top last. It does not borrow the tree. `State::tour_on` moves it to the next node.
#[derive(Clone, Copy, Debug, PartialEq, Eq)]
pub struct Tour {
    /// The node whose subtree is toured.
    pub top: Key,
    /// The node that the tour is at.
    pub key: Key,
    /// How many nodes the tour has passed.
    pub passed: u32,
}
