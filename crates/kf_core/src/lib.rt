//! What every layer of the attribute tree has in common: keys, nodes, records, commands, refusals, limits,
//! the callers of a node and their phases, the atomic steps, and the laws that hold in every run.
//!
//! - A `Key` names a node for all time (a slot and a generation). A `Node` says what a node is: a directory,
//!   a file with a mode and a tag, or a link. A `Record` is a node in a tree. A `Command` is a change, as a
//!   tree stores it.
//! - A `Refusal` says why a call did nothing, and has Linux's error number for it. `Limits::new` takes the
//!   number of slots of a tree, and the number of holds that each slot may have. Most programs need only
//!   these two types.
//! - A `Guard` gives a caller a reference (`enter`) and takes it back (`leave`). `kf_world` has the guard for
//!   a single caller, and `kf_words` the one for threads.
//! - The laws (`no_call_after_removal`, `no_call_after_drain`, `slots_kept`) hold in every run. A run is a
//!   list of events, each of which is allowed after the events before it.
//! - `SlotList` and `SlotMap` keep an item for each slot. `lowest_bit`, `without_bit`, `with_low_bits` and
//!   `other_bits` treat 64-bit words as sets of bits, for searches.
#![tactic(auto)]

mod bits;
mod caller;
mod command;
mod event;
mod guard;
mod key;
mod laws;
mod limits;
mod name_bytes;
mod records;
mod refusal;
mod slot;
mod slot_list;
mod slot_map;

pub use bits::{lowest_bit, other_bits, with_low_bits, without_bit};
pub use caller::{Caller, Phase};
pub use command::Command;
pub use event::Event;
pub use guard::{ActiveCall, Guard};
pub use key::{Key, Node};
pub use laws::{
    a_life, no_call_after_drain, no_call_after_removal, slots_kept, subtrees_are_by_steps,
};
pub use limits::{Limits, MOST_SLOTS};
pub use name_bytes::NameBytes;
pub use records::Record;
pub use refusal::Refusal;
pub use slot::{NodeFlags, SlotState};
pub use slot_list::SlotList;
pub use slot_map::SlotMap;
