//! Rounds: an owner and its workers run a script, each in a thread and with a board that nobody else changes.
//!
//! - `run_rounds` takes a whole script, a `Runner` (a board and a reply) for the owner, and one for each of
//!   at most 16 workers. It returns the replies in the order of the lines. A round ends with a `wait`, or at
//!   the end of the script.
//! - A board is any `Board` of `kf_script` that may be lent to a thread.
//!
//! The caller must prove that there is one seat for the owner and one for each worker. Each line that is not
//! empty has one reply, in its place. The reply to a command comes from the board of the command's seat.
#![tactic(auto)]

mod command;
mod cut;
mod kind;
mod replies;
mod round;
mod rounds;
mod runner;

pub use rounds::run_rounds;
pub use runner::Runner;
