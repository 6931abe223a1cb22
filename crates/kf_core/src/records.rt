//! What a tree records about one node.

use crate::key::{Key, Node};
use crate::name_bytes::NameBytes;
use crate::slot::NodeFlags;

/// A linked node: its key and directory, its marks, whether it is hidden, what it is, and its name. The name
/// is the last field, so that the fields that a walk reads are next to each other.
#[derive(Drop)]
pub struct Record {
    pub key: Key,
    /// Its directory. The root has none.
    pub parent: Option<Key>,
    pub marks: NodeFlags,
    /// Whether a caller hides it. A hidden node is not live.
    pub hidden: bool,
    pub node: Node,
    /// Its name in that directory. The root's is empty.
    pub name: NameBytes,
}
