//! Tests of a record: whether it is a directory, whether it is live, and whether it is in a given directory.

ghost use Rattle.std.specs.Prelude.{◌≡◌, ◌&&◌, false};
ghost use Rattle.std.specs.Str.{bytes_eq};
ghost use Rattle.std.specs.Option.{option_copied, option_map_or};
ghost use Rattle.kf_core.specs.Tree.{is_dir};
ghost use Rattle.kf_table.specs.Children.{is_key};
ghost use Rattle.kf_table.specs.Live.{lives};

use kf_core::{Key, Node, Record};

/// Whether a node is a directory.
pub fn is_directory(node: &Node) -> bool
    ensures known { result ≡ is_dir node.now }
{
    match node {
        Node::Dir => true,
        _ => false,
    }
}

/// Whether a record is live: activated, not doomed and not hidden.
#[inline(always)]
pub fn is_live(entry: &Record) -> bool
    ensures known { result ≡ lives entry.now }
{
    entry.marks.activated && !entry.marks.doomed && !entry.hidden
}

/// Whether a record is in this directory.
pub fn is_in(entry: &Record, dir: Key) -> bool
    ensures known { result ≡ is_key dir entry.now.parent }
{
    match entry.parent {
        Some(parent) => parent == dir,
        None => false,
    }
}

/// Whether a record is in this directory under this name.
#[inline(always)]
pub(crate) fn is_child(entry: &Record, dir: Key, name: &[u8]) -> bool
    ensures known { result ≡ (is_key dir entry.now.parent && bytes_eq entry.now.name name.now) }
{
    is_in(entry, dir) && entry.name.bytes() == name
}

/// Whether there is a record, and it is a directory.
pub fn is_directory_record(entry: Option<&Record>) -> bool
    ensures known { result ≡ option_map_or (λ r. is_dir r.node) (option_copied entry.entry) false }
{
    match entry {
        Some(found) => is_directory(&found.node),
        None => false,
    }
}
