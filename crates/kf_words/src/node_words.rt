//! A node as three words of its slot, which are stored before the node is linked. So a caller that counts a
//! hold of the node without the tree's lock can read what the node is.
ghost use Rattle.std.specs.Prelude.{◌≡◌};
ghost use Rattle.kf_words.specs.NodeWords.{kind_word, first_word, second_word, node_in};

use kf_core::{Key, Node};

/// The three words of a node. The first is 0 for a directory, 1 for a file and 2 for a link. The others are a
/// file's mode and tag, or the slot and generation of a link's target; for a directory both are 0.
pub(crate) fn words_of(node: Node) -> (u64, u64, u64)
    ensures kind { result.0 ≡ kind_word node }
    ensures first { result.1 ≡ first_word node }
    ensures second { result.2 ≡ second_word node }
{
    match node {
        Node::Dir => (0, 0, 0),
        Node::File { mode, tag } => (1, mode as u64, tag),
        Node::Link { target } => (2, target.slot as u64, target.generation as u64),
    }
}

/// The node that three words describe. A mode is taken modulo 2^16, and the slot and generation of a target
/// modulo 2^32. If the first word is neither 1 nor 2, it is a directory.
pub(crate) fn node_of(kind: u64, first: u64, second: u64) -> Node
    ensures { result ≡ node_in kind first second }
{
    if kind == 1 {
        return Node::File {
            mode: (first % 0x1_0000) as u16,
            tag: second,
        };
    }
    if kind == 2 {
        return Node::Link {
            target: Key {
                slot: (first % 0x1_0000_0000) as u32,
                generation: (second % 0x1_0000_0000) as u32,
            },
        };
    }
    Node::Dir
}
