//! Groups of attributes: files that are made all or none, in a directory or in a new subdirectory.
//!
//! - `Attribute` is a name, a mode, and the tag by which callbacks know the file. `read_only`, `read_write`
//!   and `write_only` make attributes with the most common modes, and `attribute!` makes constants. `Group`
//!   is a slice of attributes, with or without its own directory.
//! - `create_group` and `create_groups` make groups under an `Editor` that the caller lends. No file of a
//!   group is live before all of them exist. If no attribute of a group has a file, no directory is made.
//!   `create_directory` makes the directory of a device with its groups, and `take_back` undoes that under
//!   the same lock.
//! - `remove_group` takes the lock itself. `remove_group_in` begins a removal under an `Editor` that the
//!   caller lends, and returns a `GroupRemoval`, which must be finished.
//!
//! Code that makes an attribute must prove that its mode has no bit outside 0o666. `Editor` and `SharedTree`
//! are those of `kf_shared`.
#![tactic(auto)]

mod attribute;
mod checks;
mod directory;
mod groups;
mod leaving;
mod making;
mod removal;
mod taking_back;

pub use attribute::{Attribute, Group};
pub use directory::create_directory;
pub use groups::create_groups;
pub use leaving::{GroupRemoval, remove_group_in};
pub use making::create_group;
pub use removal::{remove_group, remove_groups};
pub use taking_back::take_back;
