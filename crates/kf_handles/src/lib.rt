//! The attribute tree behind handles, for programs in C: what the calls of the static library `kernfs_tree`
//! do. Behind each handle is nothing, a tree, a hold or a call of a node, a post, an open file, a looker, a
//! gate, or a pass.
#![tactic(auto)]

mod another;
mod answers;
mod counting;
mod errors;
mod file;
mod file_steps;
mod gating;
mod handle;
mod hiding;
mod holds;
mod looking;
mod marking;
mod numbers;
mod object;
mod questions;
mod removal;
mod replies;
mod stepping;
mod steps;
mod tasks;
mod telling;
mod texts;
mod token;
mod tokens;
mod tree;
mod tree_looker;

pub use another::dup;
pub use counting::{KtCounts, counts};
pub use file_steps::{begin_read, begin_write, changed, copy, open, shown};
pub use gating::{gate, pass, pass_enter, pass_leave, shut};
pub use handle::{KtGiven, KtHandle};
pub use looking::{look, looker, pin};
pub use numbers::{notify, number, post};
pub use questions::Question;
pub use replies::{
    KtCommands, KtKey, KtStat, change, claim, clear, create, create_file, delete, hold, key_of,
    make, make_tree,
};
pub use stepping::{break_off, enter, leave, restore};
pub use tasks::{hide, remove, unhide};
pub use telling::{commands, find, parent, root, tell, walk};
pub use texts::{link_text, name, next, path};
