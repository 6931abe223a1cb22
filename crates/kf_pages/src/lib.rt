//! Files that are opened with a hold, over any guard: their pages, and the callbacks that show and store.
//!
//! - `HeldFile` is an open file. It keeps its hold and its `Contents`, and makes each callback under a call
//!   that it gets from the guard. The source of its slot's event numbers (`EventNumbers`) lies outside the
//!   file, which borrows it.
//! - `Contents` is what a file keeps. It is public for programs that make each show in two halves.
//! - `Ops` and `BinaryOps` are the callbacks, which you write. They return bytes or a `Fault`.
//! - A `Page` has room for 4,096 bytes. A program that opens many files can pass in its own pages
//!   (`PageHolder`), and gets them back when it closes the files.
//!
//! Nothing here knows of threads. `kf_files` has such files over the atomic words, for many threads, and
//! re-exports all of this.
#![tactic(auto)]

mod binary_ops;
mod contents;
mod event_numbers;
mod held_binary;
mod held_file;
mod hold;
mod ops;
mod page_holder;

pub use binary_ops::BinaryOps;
pub use contents::{Contents, Want};
pub use event_numbers::EventNumbers;
pub use held_file::HeldFile;
pub use ops::{Fault, FileError, Ops, Page};
pub use page_holder::{PageApart, PageHolder};
