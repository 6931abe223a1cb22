//! Hot nodes: nodes that many threads call. A gate (`kf_gates`) keeps one call of the node while anybody is
//! inside. So whatever the tree promises about callers of the node also holds of the callers inside the gate.
//! Callers of different lanes write no word that they share.
//!
//! - `open_gate` takes a hold of a node and makes the node hot. `close_gate` returns the hold.
//! - A `HotPass` is a pass with the node's key, and `HotPasses` is the guard for such passes. With this
//!   guard `kf_files::OpenFile` opens and reads a hot attribute.
//! - `remove_gated` removes hot nodes. A removal that does not know of a gate waits until the gate's owner
//!   closes it, and no clause says that the owner ever does.
//!
//! `hot_tells` is the law.
#![tactic(auto)]

mod gate;
mod guard;
mod laws;
mod removal;

pub use gate::{close_gate, open_gate};
pub use guard::{HotCall, HotPass, HotPasses};
pub use laws::hot_tells;
pub use removal::{close_gates, remove_gated};
