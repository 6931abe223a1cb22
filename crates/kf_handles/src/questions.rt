//! What the owner of a tree may ask it to do, and what the tree returns.
use crate::holds::Held;
use kf_core::{Key, Node, Refusal};
use kf_words::Counts;

/// A question to a tree.
#[derive(Clone, Copy)]
pub enum Question<'a> {
    /// Create a node in a directory.
    Create {
        parent: Key,
        name: &'a [u8],
        node: Node,
        live: bool,
    },
    /// Take a hold of a node.
    Hold(Key),
    /// Activate a subtree.
    Activate(Key),
    /// Move a node into a directory, under a name.
    Rename {
        key: Key,
        dir: Key,
        name: &'a [u8],
    },
    /// Replace the stored commands by the tree's canonical list of commands.
    Compact,
    /// Mark a node and all nodes below it, and claim the node's removal.
    Claim(Key),
    /// Count the holds and the users of a node.
    Counts(Key),
}

/// A task for a tree, which may have to be asked for again because somebody is inside.
#[derive(Clone, Copy)]
pub enum Task {
    /// Mark a node and all nodes below it, and take out of the tree those that nobody uses and that no longer
    /// have a node below them.
    Remove(Key),
    /// Hide a file, and see that nobody is inside.
    Hide(Key),
    /// Show a hidden file again.
    Unhide(Key),
}

/// What a tree returns.
#[derive(Drop)]
pub enum TreeReply {
    /// The key that was asked for.
    Named(Key),
    Held(Held),
    Counted(Counts),
    /// It is done.
    Done,
    /// The node had already left the tree.
    Gone,
    /// It had been done before, or somebody is inside.
    Not,
    Refused(Refusal),
    /// The question went to something that is not a tree.
    Wrong,
}
