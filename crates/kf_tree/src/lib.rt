//! The plain attribute tree: linked records by slot, and the stored commands. One owner changes it.
//!
//! - `State::new` makes a tree of only the root. Its commands are `create`, `activate`, `rename`, `doom`,
//!   `unlink`, `hide` and `show`. Each does what its definition says (`accepted`), or changes nothing and
//!   returns the first cause in its order (`refused`). Each accepted command is stored: the tree is the
//!   replay of `commands`. `compact` makes that list as short as it can be.
//! - `lookup`, `stat`, `names`, `list`, `path_of`, `post_order` and others only read. A `Tour` goes through a
//!   subtree in post-order and allocates nothing.
//!
//! A caller has little to prove: that the root's slot is in the table, and that a key that it passes to
//! `create` has a vacant slot. The tree does not know who runs in a node: `kf_shared` adds that.
#![tactic(auto)]

mod canonical;
mod causes;
mod find;
mod growth;
mod laws;
mod links;
mod listing;
mod marks;
mod orders;
mod paths;
mod post_order;
mod stat;
mod state;
mod tour;

pub use laws::{answers_are_unique, renames_have_one_rule};
pub use listing::Names;
pub use stat::Stat;
pub use state::State;
pub use tour::Tour;
