//! A tree that publishes its live names to look-ups. Each command writes what it changed to the words of
//! `kf_looks`, which look-ups read.
//!
//! - `LiveTree` is a `State` with those words. It has `new`, the commands of `State` under the same names,
//!   and `state` for everything that only looks. After each command the words say about the live nodes what
//!   the tree says about them. Each node is published in a separate change. A doom publishes only its top,
//!   and an unlink withdraws the name of a node that was below the top.
//! - `Lookup` is for one thread that works beside the tree's owner. `LiveTree::looker` makes one, and
//!   `another` makes another one from it. `look` takes a path and returns the key of a node and what the node
//!   is. Both are as they were at one moment, after everything that the looker has seen. If `look` returns
//!   None, ask the owner. `again` returns, after one load, whether what was found still stands.
//!
//! Begin with `lookup.rt`. A caller must prove what the commands of `State` require. For `again` it must
//! prove that the sight is the last one of this looker's `look`. A `SharedTree` that was made `with_looks`
//! has such a tree behind its lock.
#![tactic(auto)]

mod laws;
mod live_tree;
mod lookup;
mod publishing;
mod reads;
mod telling;

pub use laws::look_ups_tell;
pub use live_tree::LiveTree;
pub use lookup::Lookup;
