//! Many threads on one tree: the owner of a script and its workers run it, round by round.
//!
//! They find the files that they open without taking the tree's lock. If such a look-up gives no hold, they
//! look the path up under the lock. That is always so for names of more than 24 bytes, and for nodes in slots
//! from 65,536 on, which have no words for look-ups. If a node may have fewer than 64 holds, they always look
//! up under the lock.
#![tactic(auto)]

mod board;
mod common;
mod hidden_file;
mod reading;
mod run;
mod script_ops;
mod serving;
mod tags;
mod tell;
mod texts;
mod whole;

pub use reading::read_script;
pub use run::run_workers;
pub use script_ops::ScriptOps;
pub use tags::seats_share_no_tag;
pub use texts::Texts;
pub use whole::run_whole;
