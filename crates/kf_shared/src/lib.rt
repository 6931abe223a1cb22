//! The tree behind one lock, and removals that wait for the callers of the removed nodes.
//!
//! - `SharedTree::new` makes a `NewTree`. `named` turns it into a `SharedTree<N>`: by the name `N: Naming`
//!   the checker knows which tree a hold belongs to. `edit` locks the tree for one `Editor`, and `read`
//!   shares it among `Reader`s.
//! - `Editor` has the commands of `kf_tree`, `hold` for holds of a node, and removals. `remove`, `remove_key`
//!   and `remove_path` mark the nodes, unlink the first of them as long as nobody uses them, at most 64, and
//!   unlock. Then they wait for the rest and unlink it, up to 64 nodes in a turn of the lock. They return a
//!   receipt (`Parted`) for each node. After `begin_removal`, `end_removal` unlocks and `Draining::finish`
//!   waits. A callback removes its own node with `remove_self`.
//! - `Locked` is the same tree for a program that has a lock of another kind.
//! - `SharedTree::with_looks` makes a tree that also keeps words for look-ups. `Editor::looker` returns a
//!   `Lookup`, with which a thread finds names without the lock (`kf_live`). A `PathHolder` finds nodes in
//!   the same way, and takes holds of them. Other trees store no such words.
//!
//! A caller proves that the holds, calls, receipts and tokens that it passes are of this tree (the condition
//! `table`; the types ensure it if only one name `N` is used). For a self-removal, the caller also proves
//! that the call is Running. `running_tree` is the law about words, tree and lock together.
#![tactic(auto)]

mod by_path;
mod closing;
mod doom;
mod draining;
mod editor;
mod hide;
mod hide_and_wait;
mod laws;
mod locked;
mod marking;
mod naming;
mod noting;
mod pinning;
mod reader;
mod remove;
mod remove_by_key;
mod removing;
mod tree;
mod unlinking;

pub use by_path::PathHolder;
pub use draining::Draining;
pub use editor::Editor;
pub use laws::{look_ups_are_of_run, running_tree};
pub use locked::Locked;
pub use naming::Naming;
pub use reader::Reader;
pub use removing::{Removing, release_all};
pub use tree::{NewTree, SharedTree};
