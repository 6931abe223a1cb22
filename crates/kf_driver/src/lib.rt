//! What a driver writes: a table of its attributes with their callbacks, in place of a `match` on tags.
//!
//!     impl Show for Sensor {
//!         fn show(&self, page: &mut Page) -> Result<(), Fault> {
//!             emit_line(page, Part::Signed(self.millidegrees()));
//!             Ok(())
//!         }
//!     }
//!
//!     let rows = rows! {
//!         Row(attribute!(b"temp1_input", 0o444), ReadOnly(sensor)),
//!         Row(attribute!(b"temp1_max", 0o644), Signed::new(90_000, -50_000, 150_000)),
//!         Row(attribute!(b"temp1_fault", 0o444), ReadOnly(Switch::new(false))) if can_fail,
//!         BinaryRow(attribute!(b"registers", 0o400), 64, Bytes(&registers)),
//!     };
//!     let device = editor.create(root, b"hwmon0", Node::Dir, false)?;
//!     create_rows(&mut editor, device, None, &rows)?;
//!     editor.activate(device)?; // from here on paths lead to the files
//!     drop(editor); // what follows may take the lock
//!     let driver = Driver::new(rows);
//!     let mut limit = opener.open(rt, tree, b"/hwmon0/temp1_max", Want::BOTH)?;
//!     limit.write(rt, tree, &driver, b"85000\n")?;
//!
//! - The rows are the only list. `create_rows` makes the files of their attributes, all or none (unless
//!   memory runs out). The row at place `i` serves the file with the tag `i`, so you never write a tag.
//! - The callbacks of an attribute are a type that implements `Show` and `Store`. If the attribute is only
//!   read, wrap the type in `ReadOnly(..)`. If it is only written, wrap the type in `WriteOnly(..)`.
//!   `Number`, `Signed`, `Switch` and `Text` are ready to use.
//! - `BinaryRow` is the row of a binary attribute of a given size. `Bytes` are only read; a `Buffer` is also
//!   written. If you implement `BinaryCallbacks` over other memory, use `read_from_buffer` and
//!   `write_to_buffer`.
//! - `Driver` turns the rows into the callbacks with which a file is read and written. Each group has its own
//!   table and its own driver. `Lines` serves several lines that are alike, each with its own table.
//!   `LineTags` numbers their files.
//! - An `Opener` opens files by their paths without the tree's lock. Each thread has its own. If the opener
//!   finds nothing without the lock, it takes the lock. This is always so for names of more than 24 bytes,
//!   and for files in slots that have no words for look-ups. An open is refused only under the lock, unless
//!   there is no memory for a page. `open_path` always opens under the lock. Given a directory and a name,
//!   `post_of` makes a post of the file, and `notify` raises the file's event number.
//! - `Notifying` wraps callbacks, and notifies the pollers of the file after each successful store. Its
//!   `Notifier` gets the post once the file exists. `fault_of` makes the fault of a store whose bytes could
//!   not be read.
//!
//! Code that makes a row must prove that the mode lets somebody read if and only if the callbacks show, and
//! lets somebody write if and only if the callbacks take stores. (For a `BinaryRow` it must prove only the
//! second.) `crates/use_driver` and `crates/use_gpio` are examples of drivers.
//!
//! | What a driver calls in the kernel | Here |
//! |---|---|
//! | `sysfs_create_group(s)`, `device_add_groups` | `create_rows`; `create_group(s)` (`kf_groups`) |
//! | `is_visible` | a row with `if`: `Row::visible`; mode 0 (`kf_groups`) |
//! | `sysfs_remove_group(s)` | `remove_group(s)`, `remove_group_in` (`kf_groups`) |
//! | `__ATTR`, `DEVICE_ATTR_RW` | `attribute!` (`kf_groups`) and `Row` |
//! | `DEVICE_ATTR_RO`, `DEVICE_ATTR_WO` | the same with `ReadOnly`, `WriteOnly` |
//! | `VERIFY_OCTAL_PERMISSIONS` | `attribute!`, `Attribute::new` (`kf_groups`) |
//! | `DEVICE_ULONG_ATTR`, `_INT_`, `_BOOL_`, `_STRING_` | `Number`, `Signed`, `Switch`, `Text` |
//! | rows whose number is known only at run time (`temp1_input`) | `Lines`, `LineTags` |
//! | `sysfs_emit`, `sysfs_emit_at` | `emit`, `emit_at` (`kf_text`) |
//! | `kstrtoul`, `kstrtol`, `kstrtobool` | `read_unsigned`, `read_signed`, `read_flag` (`kf_text`) |
//! | `sysfs_match_string` | `read_word` (`kf_text`) |
//! | `struct bin_attribute`, `memory_read_from_buffer` | `BinaryRow`; `Bytes`, `Buffer`, `read_from_buffer` |
//! | `sysfs_notify`, `sysfs_notify_dirent` | `notify`, `Notifier`, `Post::notify` (`kf_notify`) |
//! | `poll` | `WaitingFile::wait_changed` (`kf_files`) |
//! | `kobject_uevent` | `activate_and_tell`, `rename_and_tell`, `tell_change` and others (`kf_uevents`) |
//! | a listener's netlink socket | `Listener` (`kf_uevents`) |
//! | `device_add`, `device_del` | `add_device`, `remove_device` (`kf_uevents`) |
//! | the same for a device on a bus | `Bus::plug`, `unplug` (`kf_device`) |
#![tactic(auto)]

mod binary;
mod buffers;
mod callbacks;
mod driver;
mod fault;
mod files;
mod line_tags;
mod lines;
mod notifier;
mod opener;
mod publishing;
mod ready;
mod table;

pub use binary::{BinaryCallbacks, BinaryRow, Buffer, Bytes};
pub use buffers::{read_from_buffer, write_to_buffer};
pub use callbacks::{ReadOnly, Show, Store, WriteOnly};
pub use driver::Driver;
pub use fault::fault_of;
pub use files::{notify, open_path, open_path_on, post_of};
pub use line_tags::LineTags;
pub use lines::Lines;
pub use notifier::{Notifier, Notifying};
pub use opener::Opener;
pub use publishing::create_rows;
pub use ready::{Number, Signed, Switch, Text, emit_line};
pub use table::{DriverTable, End, Row, Rows};
