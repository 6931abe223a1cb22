//! What names a node, and what kinds of node there are.

/// The name of one node for all time: a slot of the table, and the node's generation in that slot. Each birth
/// takes the slot's next generation, so no key is used twice.
#[derive(Clone, Copy, Debug, PartialEq, Eq)]
pub struct Key {
    /// The place in the table. The root has slot 0.
    pub slot: u32,
    /// One more than the generation before it in the same slot. A tree begins at 1 unless it is made with a
    /// different start.
    pub generation: u32,
}

/// What a node is (`kernfs_node`'s type).
#[derive(Clone, Copy, Debug, PartialEq, Eq)]
pub enum Node {
    /// A directory (`KERNFS_DIR`).
    Dir,
    /// An attribute file (`KERNFS_FILE`), with its permission bits (scripts use at most 0o777) and a tag.
    /// From the tag its callbacks know which file they serve.
    File { mode: u16, tag: u64 },
    /// A symbolic link (`KERNFS_LINK`) to a node.
    Link { target: Key },
}
