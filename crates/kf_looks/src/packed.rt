//! Keys and nodes as words.
ghost use Rattle.std.specs.Prelude.{◌≡◌, ◌≢◌, ◌+◌, ◌*◌, Some, None};
ghost use Rattle.kf_looks.specs.Packed.{key_of, node_of, child_by};

use crate::found::Found;
use kf_core::{Key, Node};

/// One above the largest slot.
const HALF: u64 = 4294967296;

/// The shapes of nodes. Shape 0 is that of no node.
pub(crate) const DIR: u64 = 1;

const LINK: u64 = 2;

const FILE: u64 = 3;

/// The word of a key.
pub(crate) fn key_word(key: Key) -> u64
    ensures same { key_of result ≡ key }
{
    key.generation as u64 * HALF + key.slot as u64
}

/// The key of a word.
pub(crate) fn key_in(word: u64) -> Key
    ensures same { result ≡ key_of word }
{
    Key {
        slot: (word % HALF) as u32,
        generation: (word / HALF) as u32,
    }
}

/// The shape of a node, and the word beside it: a link's target or a file's tag.
pub(crate) fn node_words(node: Node) -> (u64, u64)
    ensures same { node_of result.0 result.1 ≡ node }
    ensures some { result.0 ≢ 0 }
{
    match node {
        Node::Dir => (DIR, 0),
        Node::Link { target } => (LINK, key_word(target)),
        Node::File { mode, tag } => (FILE + mode as u64, tag),
    }
}

/// The node of a shape and the word beside it.
pub(crate) fn node_in(shape: u64, more: u64) -> Node
    requires some { shape ≢ 0 }
    ensures same { result ≡ node_of shape more }
{
    if shape == DIR {
        return Node::Dir;
    }
    if shape == LINK {
        return Node::Link {
            target: key_in(more),
        };
    }
    Node::File {
        mode: ((shape - FILE) % 65536) as u16,
        tag: more,
    }
}

/// The child that three words describe; None if the shape is 0.
pub(crate) fn child_in(key: u64, more: u64, shape: u64) -> Option<Found>
    ensures same { result ≡ child_by key more shape }
{
    if shape == 0 {
        return None;
    }
    Some(Found {
        key: key_in(key),
        node: node_in(shape, more),
    })
}

/// The three words of a child: its key, its link target or file tag, and its shape.
pub(crate) fn child_words(child: Option<Found>) -> (u64, u64, u64)
    ensures same { child_by result.0 result.1 result.2 ≡ child }
{
    let Some(found) = child else {
        return (0, 0, 0);
    };
    let (shape, more) = node_words(found.node);
    (key_word(found.key), more, shape)
}
