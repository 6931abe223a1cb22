//! Replies that report nodes of a tree, and what reads and writes of files returned. They are for every board
//! whose nodes and files are of these types.
#![tactic(auto)]

mod files;
mod nodes;
mod part;

pub use files::{tell_count, tell_error};
pub use nodes::{tell_names, tell_stat};
