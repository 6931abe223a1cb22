//! What is reported of a node.

ghost use Rattle.std.specs.Prelude.{◌≡◌, ◌≤◌, length};
ghost use Rattle.kf_core.specs.Limits.{most_slots};
ghost use Rattle.kf_core.specs.declared.key.Key.{Key};
ghost use Rattle.kf_core.specs.Lawful.{Lawful};
ghost use Rattle.kf_tree.specs.Stat.{stat_of};

use kf_core::{Node, Record};
use kf_table::Table;

/// A node's kind and marks, its number of child directories, and its number of links.
#[derive(Clone, Copy, Debug, PartialEq, Eq)]
pub struct Stat {
    pub node: Node,
    /// The number of child directories, live or not. It is 0 for a file or a link.
    pub subdirs: u32,
    /// The number of links: two more than `subdirs` for a directory, 1 for a file or a link.
    pub links: u32,
    pub activated: bool,
    pub doomed: bool,
    pub hidden: bool,
}

/// What is reported of a record.
pub(crate) fn stat_of(table: &Table, entry: &Record) -> Stat
    requires lawful { (root : Key) × Lawful table.now root }
    requires few { length table.now ≤ most_slots }
    ensures told { result ≡ stat_of table.now entry.now }
{
    let (subdirs, links) = match entry.node {
        Node::Dir => {
            let count = table.subdirs(entry.key);
            (count, count + 2)
        }
        Node::File { .. } | Node::Link { .. } => (0, 1),
    };
    Stat {
        node: entry.node,
        subdirs,
        links,
        activated: entry.marks.activated,
        doomed: entry.marks.doomed,
        hidden: entry.hidden,
    }
}
