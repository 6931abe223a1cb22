//! Runs scripts: reads their lines, has a board carry out the requests, and writes the replies.
//!
//! - `run_script` reads lines, parses each into a `Request` (`parse`), has the `Board` fill in the `Reply`,
//!   and writes that. The replies are written before it waits for more of the script. The run ends at the
//!   first fault of a read, a write or memory (`RunFault`).
//! - You write the `Board`. Its relation says what a request may do to it and what it may reply. It fills in
//!   a `Reply` with `set_done`, `set_key`, `set_refusal` and the other functions of that type.
//!   `use_tree/src/board.rt` is an example.
//! - A line may have at most 8,192 bytes (`LINE_LIMIT`).
//!
//! If you write a board, you prove its relation for each reply. The contract of `run_script` then says what
//! the whole output is, byte by byte.
#![tactic(auto)]

mod behind;
mod board;
mod fault;
mod grammar;
mod kinds;
mod line;
mod output;
mod reply;
mod request;
mod rows;
mod script;
mod search;
mod spelling;
mod streams;
mod words;

pub use board::Board;
pub use fault::RunFault;
pub use grammar::parse;
pub use line::LINE_LIMIT;
pub use output::write_whole;
pub use reply::{NodeState, Reply, SHORT_REPLY};
pub use request::Request;
pub use script::run_script;
