//! The table of a tree: its records by slot, and beside each the index of its children.
//!
//! - `Table::new` makes a table that has only the root. `record`, `child`, `children_above`, `parent` and
//!   `subdirs` look; `add`, `take_out`, `move_to` and the marks (`doom`, `hide`, `show`, `activate`) change
//!   it. The memory in use grows with the highest slot that ever had a record.
//! - Contracts see a list of records by slot, so tables with equal lists are equal values.
//!
//! The table does not check its changes. A caller that changes it must prove that the tree is lawful
//! afterwards (`Lawful`: each parent is a directory that exists, and names are lawful and differ within a
//! directory). `kf_tree` makes these checks and returns refusals: begin there.
#![tactic(auto)]

mod children;
mod directories;
mod directory;
mod hints;
mod records;
mod slots;
mod table;

pub use children::{is_directory, is_directory_record, is_in, is_live};
pub use table::Table;
