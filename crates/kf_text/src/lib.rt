//! Writes and reads the texts of attributes. It fills a page with parts, as `sysfs_emit` does, and reads
//! numbers, words and lines from what was stored, as `kstrtol`, `match_string` and `sysfs_streq` do.
//!
//! - `emit(&mut page, &[Part::Number(1200), Part::Text(b"\n")])` appends a text to a page. It never fills the
//!   page's last byte.
//! - `read_unsigned` and `read_signed` (base 10), and `read_unsigned_in` and `read_signed_in` (any `Base`),
//!   read a whole store as a number within bounds. `read_flag` reads a switch, and `read_word` one of several
//!   words. `line_of` removes one newline from the end.
//! - `NotRead` says why a store could not be read, with the kernel's error number.
//!
//! A caller has nothing to prove. A number that was emitted on its own line is read back unchanged
//! (`emitted_is_read`).
#![tactic(auto)]

mod base;
mod hex;
mod laws;
mod line;
mod not_read;
mod numbers;
mod numeral;
mod page;
mod part;
mod words;

pub use base::Base;
pub use laws::emitted_is_read;
pub use line::line_of;
pub use not_read::NotRead;
pub use numbers::{read_signed, read_signed_in, read_unsigned, read_unsigned_in};
pub use page::{emit, emit_at};
pub use part::Part;
pub use words::{is_same_text, read_flag, read_word};
