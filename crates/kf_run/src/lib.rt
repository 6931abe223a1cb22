//! Runs scripts on an attribute tree: the body of the program `kernfs_run`, and the back ends that it runs
//! scripts on.
#![tactic(auto)]

mod arguments;
mod host;
mod opened;
mod program;

pub use arguments::{Asked, read_words};
pub use host::run_host;
pub use kf_plain::PlainBoard;
pub use kf_script::{RunFault, run_script};
pub use kf_workers::{Texts, read_script, run_workers};
pub use program::run_asked;
