//! Each slot of a table has two words, which any number of threads change in single atomic steps. The active
//! word counts the active references, and the refused tries that are not yet undone. The hold word counts the
//! holds that keep the slot.
//!
//! - `Words::new` makes the words and their one `Master`. The Master makes (`born`), activates, dooms and
//!   unlinks nodes, and gives out holds (`pin`). It belongs behind a lock. `kf_shared` keeps it there, and
//!   most programs begin with that crate.
//! - A `Hold` keeps a slot. `another` makes one more hold of the same key, without the Master. `enter` turns
//!   a hold into a `Call`, which has an active reference, and `leave` turns the call back into the hold.
//!   After the mark, `wait_drained` turns a hold into a receipt, `Drained`. After the unlink, `parted` turns
//!   a `Drained` into the second receipt, `Parted`. None of these values can be dropped or copied, so the
//!   value that a thread has in hand says what the thread may do next.
//! - `Hiding` and `Hidden` are the tokens of a file that is hidden for a while and then shown again.
//!
//! Code that calls `leave` must prove that the call has its reference. Code that calls `unlink` must prove
//! that the drained node is of this table, and is linked. The laws `words_kept` and `words_run` hold for
//! every program that uses these words.
#![tactic(auto)]

mod blocks;
mod call;
mod counts;
mod drain;
mod hiding;
mod hold;
mod holds;
mod joins;
mod laws;
mod layout;
mod master;
mod master_plays;
mod master_seat;
mod master_steps;
mod master_token;
mod meeting;
mod node_words;
mod nodes;
mod note;
mod plays;
mod quiet;
mod receipt;
mod search;
mod seat;
mod seats;
mod sight;
mod table;
mod view;
mod wake_due;
mod words;

pub use call::Call;
pub use counts::Counts;
pub use drain::{try_drained, wait_drained};
pub use hiding::{Hidden, Hiding, wait_hidden};
pub use hold::Hold;
pub use holds::Holds;
pub use laws::{words_kept, words_life, words_run, words_step, words_tell};
pub use master::Master;
pub use note::{Note, Said};
pub use receipt::{Drained, Parted};
pub use seat::{CallerSeat, release_seat};
pub use seats::Seats;
pub use wake_due::{Wake, WakeDue};
pub use words::Words;
