//! Devices on a bus: directories of attributes that drivers plug and unplug, on a tree that threads share.
//!
//! - `Bus::new` makes a bus without devices. `plug` makes a device's directory, with its files `value`,
//!   `serial` and `delete`, and a link to it. `unplug` removes both and waits. A store to `delete` unplugs
//!   the device from within its own callback.
//! - `plug_in` and `unplug_in` do the same under an `Editor` that the caller lends. If `plug_in` is refused,
//!   it returns a `RefusedPlug`. `unplug_in` returns an `Unplugging`. Neither can be forgotten: once the tree
//!   is unlocked, a `RefusedPlug` must be passed to `take_back`, and an `Unplugging` to `finish`.
//! - `Bus` itself has the callbacks of its devices' files (it implements `WaitOps`).
//!
//! A caller need prove only that the tree is the one that the bus names in its type.
#![tactic(auto)]

mod bus;
mod callbacks;
mod claim;
mod deleting;
mod devices;
mod faults;
mod making;
mod removal;
mod sweeping;
mod tags;

pub use bus::Bus;
pub use making::RefusedPlug;
pub use removal::Unplugging;
