//! The attribute tree for C programs, as a static library. `kernfs_tree.h` declares the calls. Each call,
//! except `kt_version`, makes one call of `kf_handles`, and states the clauses of that call again.
#![tactic(auto)]

mod calls;
mod file_calls;
mod gate_calls;
mod hold_calls;
mod look_calls;
mod task_calls;

pub use calls::{
    kt_activate, kt_clear, kt_commands, kt_compact, kt_create_dir, kt_create_file, kt_create_link,
    kt_create_root, kt_delete, kt_event, kt_event_open, kt_find, kt_hold, kt_name, kt_new, kt_next,
    kt_notify, kt_parent, kt_path, kt_readlink, kt_rename, kt_root, kt_stat, kt_version, kt_walk,
};
pub use file_calls::{kt_begin_read, kt_begin_write, kt_changed, kt_copy, kt_open, kt_shown};
pub use gate_calls::{kt_gate, kt_pass, kt_pass_enter, kt_pass_leave, kt_shut};
pub use hold_calls::{kt_break, kt_dup, kt_enter, kt_leave, kt_restore};
pub use look_calls::{kt_create_root_with_looks, kt_look, kt_looker, kt_pin};
pub use task_calls::{kt_claim, kt_hide, kt_remove, kt_unhide};
