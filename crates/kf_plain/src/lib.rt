//! The board of one caller: a tree with its callers, open files, texts, event numbers and tokens.
#![tactic(auto)]

mod board;
mod events;
mod nodes;
mod text_table;

pub use board::PlainBoard;
