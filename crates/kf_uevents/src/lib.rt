//! The ordered list of a tree's uevents: which nodes were activated, changed, moved and removed, and the
//! paths that they had.
//!
//! - `UeventLog` keeps the last events, as many as it has room for. An event's number is its place among all
//!   events that were ever reported.
//! - `activate_and_tell`, `begin_removal_and_tell` and `rename_and_tell` make a change under a borrowed
//!   `Editor`, and report it in the list. `tell_change` only reports that a node has changed. After a refusal
//!   nothing is reported.
//! - `add_device`, `activate_device` and `begin_device_removal` report only the directory of a device, and
//!   not the files in it. So a device gets one `add` and one `remove`. `remove_device` does the whole removal
//!   in one call.
//! - A `Listener` reads on from a number. It gets the next event, or `Lost` and where to go on, or nothing
//!   yet. `wait` sleeps until there is something to read.
//!
//! Begin with `devices.rt`, or with `telling.rt` if each node is to be reported. A caller need not prove
//! anything. If threads share a list, put it behind your own lock. Take that lock under the tree's lock, and
//! never the other way round. A thread that has reported an event must raise the event number of the slot
//! whose posts the listeners have (`notify_listeners`). Otherwise the listeners sleep on.
#![tactic(auto)]

mod devices;
mod laws;
mod listener;
mod log;
mod moving;
mod news;
mod removing_devices;
mod telling;
mod uevent;

pub use devices::{activate_device, add_device, begin_device_removal};
pub use laws::devices_report_once;
pub use listener::{Listener, Look};
pub use log::{Reading, UeventLog};
pub use moving::rename_and_tell;
pub use removing_devices::{notify_listeners, remove_device};
pub use telling::{activate_and_tell, begin_removal_and_tell, tell_change};
pub use uevent::{Action, Uevent};
