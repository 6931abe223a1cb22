//! Look-ups that take no lock and write no shared word: they find the node to which a path leads in one
//! version of the words. The version works as in a seqlock.
//!
//! - `LookupTable::new` makes words for a number of slots, and their one `Writer`. A change is a `Section`:
//!   `start`, then `give` and `take` for each name that came or went, then `publish`. The version is odd
//!   between `start` and `publish`. A look-up that finds an odd version, or another one at its end, tries
//!   again.
//! - A `Looker` is what one thread has seen. It allocates nothing and is registered nowhere. `look` returns
//!   the node to which a path led at one moment after all that the looker had seen. If it returns None, ask
//!   the owner of the tree. If `again`, which is one load, returns true, what was found is still true.
//!
//! The caller proves that a name which it gives or takes has no child, or one in the given slot (`of_slot`).
//! Names of more than 24 bytes have no words.
#![tactic(auto)]

mod found;
mod hint;
mod laws;
mod lookup_table;
mod packed;
mod path;
mod plays;
mod reader;
mod recall;
mod short_name;
mod table;
mod view;
mod walk;
mod writer;
mod writer_token;

pub use found::{Found, FoundAt};
pub use laws::links_tell;
pub use lookup_table::LookupTable;
pub use reader::Looker;
pub use short_name::ShortName;
pub use writer::{Section, Writer};
