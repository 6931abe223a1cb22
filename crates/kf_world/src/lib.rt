//! The world of a script that has a single caller. It has every slot with its last generation and marks, and
//! every caller of the model with its key and phase. Its methods are the atomic steps of the model, one after
//! another. It needs no lock, since it has one owner. Programs with threads use `kf_words` instead.
//!
//! - `World::new_at` opens a world with only its root. `born`, `activate`, `doom` and `unlink` are the steps
//!   of nodes. `pin`, `enter`, `leave`, `break_at`, `restore`, `look`, `part`, `hide`, `look_hidden`, `show`
//!   and `release` are the steps of callers.
//! - Most steps have a condition: the code that makes the step must prove that its event may happen (`May`).
//!   `pin`, `hide`, `look`, `part` and `look_hidden` check this themselves, and report whether the event has
//!   happened. (Of these only `hide` has a condition: the caller is Still or Turned.)
//! - `free_key` finds the lowest free slot. It looks at words that have a bit for each of 64 slots, and
//!   passes over slots that are known to be taken.
//! - `World` is a `Guard`, so code that runs callbacks under a guard works with it and with `kf_words`.
#![tactic(auto)]

mod count_list;
mod counts;
mod world;
mod world_guard;

pub use world::World;
pub use world_guard::WorldCall;
