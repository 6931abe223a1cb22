//! What a look-up finds.
use kf_core::{Key, Node};

/// A node that a name led to: its key, and what it is. That is what `stat`, `readlink` and `open` need of a
/// node: its kind, a file's mode and tag, a link's target.
#[derive(Clone, Copy, Debug, PartialEq, Eq)]
pub struct Found {
    pub key: Key,
    pub node: Node,
}

/// What was found, and the version of the words in which it was found.
#[derive(Clone, Copy, Debug)]
pub struct FoundAt {
    pub found: Found,
    pub(crate) version: u64,
}
