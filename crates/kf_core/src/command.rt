//! The commands that change a tree, as they are stored.

use crate::key::{Key, Node};
use crate::name_bytes::NameBytes;

/// An accepted change of the tree. Applying a stored command never fails.
#[derive(Drop)]
pub enum Command {
    /// A new record. If `live`, it is activated at once.
    Create {
        key: Key,
        parent: Key,
        name: NameBytes,
        node: Node,
        live: bool,
    },
    /// Every node of the subtree that is not doomed is activated.
    Activate {
        key: Key,
    },
    /// Every node of the subtree is doomed.
    Doom {
        key: Key,
    },
    /// The record is taken out of the tree.
    Unlink {
        key: Key,
    },
    /// The record moves to this directory, under this name.
    Rename {
        key: Key,
        dir: Key,
        name: NameBytes,
    },
    /// The record is hidden.
    Hide {
        key: Key,
    },
    /// The record is no longer hidden.
    Show {
        key: Key,
    },
}
