//! Open files of attributes: their pages, the callbacks that show and store, and how to wait for a change.
//!
//! - `WaitingFile` is a file over the words, for many threads. It has `open`, `read`, `write`, `poll`,
//!   `wait_changed` (`wait_changed_for` with a time limit) and, for binary attributes, `read_at` and
//!   `write_at`. You write its callbacks: a type with `WaitOps` (or `WaitBinaryOps`). They borrow the tree
//!   and the runtime, and return bytes or a `Fault`.
//! - `OpenFile` is the same over any `Guard`, for one owner. `HeldFile` is an `OpenFile` without its own
//!   event numbers.
//! - `Contents` is what a file keeps, for a program that makes each show in two halves.
//! - A `Page` has 4,096 bytes. A program that opens many files can lend its own pages (`PageHolder`).
//! - `remove_and_tell` removes nodes and `hide_and_tell` hides a file. Both raise the event numbers of what
//!   they removed or hid, so that threads that sleep there wake.
//!
//! A caller that opens a file must prove that the hold is of the tree, that the node is the hold's, and that
//! the event counter is that of its slot. A callback runs only in a call that began in that very read or
//! write.
#![tactic(auto)]

mod open_file;
mod own_post;
mod telling;
mod tree_seats;
mod wait_binary_ops;
mod wait_ops;
mod waiting_file;

pub use kf_pages::{
    BinaryOps, Contents, EventNumbers, Fault, FileError, HeldFile, Ops, Page, PageApart,
    PageHolder, Want,
};
pub use open_file::OpenFile;
pub use telling::{hide_and_tell, remove_and_tell, tell_hidden, tell_removed};
pub use wait_binary_ops::WaitBinaryOps;
pub use wait_ops::WaitOps;
pub use waiting_file::{BoxedFile, WaitingFile};
