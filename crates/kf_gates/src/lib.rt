//! Gates: a gate keeps a value while callers are inside, whatever threads they run on (the kernel's
//! percpu_ref). Callers are counted in lanes, each in its own cache line. Callers of different lanes write to
//! no cache line that they share.
//!
//! - `Closed::new` makes a gate and its first `Pass`. `Pass::another` makes one for each further thread.
//! - `Closed::open` puts a value into the gate, usually a call of a node, and returns the gate's `Keeper`.
//! - `Pass::enter` goes inside and returns a `GateCall`. It adds one to the lane, and then loads the gate's
//!   word. `GateCall::leave` goes out again. It subtracts one from the lane.
//! - `Keeper::shut` shuts the gate: from then on nobody is let in. `Keeper::wait_closed` sleeps until it has
//!   seen each lane empty, one after another. Then nobody is inside, and it returns the value.
//! - `Pass::enter_quiet`, `GateCall::leave_quiet` and `Keeper::try_close` are for keepers that do not sleep
//!   on the lanes, such as those of the library for C.
//!
//! A gate has one keeper: `Closed` and `Keeper` cannot be copied, and each becomes the other. A pass belongs
//! to its gate, and no call moves it to another gate. The laws are the clauses of `gates_tell`.
#![tactic(auto)]

mod board;
mod call;
mod closed;
mod keeper;
mod laws;
mod pass;
mod plays;
mod quiet;
mod table;
mod view;

pub use board::{MOST_LANES, MOST_PASSES};
pub use call::GateCall;
pub use closed::Closed;
pub use keeper::Keeper;
pub use laws::gates_tell;
pub use pass::Pass;
pub use view::{GatePlan, GateView};
