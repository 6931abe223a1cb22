//! Named values that any thread can call while their owner may take them back or swap them: a registry of a
//! program's services, drivers or plug-ins.
//!
//! - `NewRegistry::new` makes a registry, and `named` gives it the name `N: Naming` of its tree's table.
//! - `Registry::publish` publishes a value under a path, `take` takes it back, and `swap` replaces it. `take`
//!   and `swap` return the old value (in a `Taken`) once nobody is inside it. A `publish` or `swap` that is
//!   refused returns the new value.
//! - `Registry::publish_hot` publishes a value that many threads call at once. Each thread has a `HotCaller`,
//!   which enters the value's gate through a lane. The owner of the value has a `Hot`. With it, `swap_hot`
//!   replaces the value, and `take_hot` takes it back.
//! - Each thread has a `ValueCaller`. Its `call` lends the value to a closure, if possible without taking the
//!   tree's lock. Nobody gets the value back while the closure runs.
//! - `Published` is the trait of the values. With its ghost member `suits` a program says which values may be
//!   published under which path. Each value that is lent or returned then suits its path.
#![tactic(auto)]

mod caller;
mod hot;
mod hot_caller;
mod hot_swapping;
mod lanes;
mod nodes;
mod published;
mod registry;
mod swapping;
mod taking;

pub use caller::ValueCaller;
pub use hot::Hot;
pub use hot_caller::HotCaller;
pub use published::Published;
pub use registry::{NewRegistry, Registry};
pub use taking::Taken;
