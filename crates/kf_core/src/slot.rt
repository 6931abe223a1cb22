//! The marks of a node, and the state of a slot.

/// The marks of a linked node. A node is live if it is linked, activated, not doomed and not hidden.
#[derive(Clone, Copy, Debug, PartialEq, Eq)]
pub struct NodeFlags {
    /// The node was activated, at its creation or later (`KERNFS_ACTIVATED`).
    pub activated: bool,
    /// A removal of the node has begun. This mark is never cleared (`KERNFS_REMOVING`).
    pub doomed: bool,
}

/// A slot: the generation of its last node, and the marks of that node if it is linked.
#[derive(Clone, Copy, Debug, PartialEq, Eq)]
pub struct SlotState {
    pub generation: u32,
    pub marks: Option<NodeFlags>,
}
