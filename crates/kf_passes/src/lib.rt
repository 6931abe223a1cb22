//! A gate and its passes as a program in C keeps them, each behind its own handle. No step sleeps, and none
//! wakes anybody: if a step owes sleepers a wake, its result says so.
//!
//! - `gate_of` makes a gate, which keeps a call of a node, and the gate's first pass.
//! - `Way::another` makes a pass for another thread.
//! - `Way::enter` goes through the gate with a pass, and `Way::leave` goes out again.
//! - `Gate::shut` shuts the gate, and looks for callers inside. If there is none, the gate is closed, and its
//!   call leaves the node.
//!
//! Such a gate is opened once, so its passes enter under the number 1.
#![tactic(auto)]

mod entered;
mod gate;
mod way;

pub use entered::{Entered, Through};
pub use gate::{Gate, Keeping, gate_of};
pub use way::Way;
