//! The tree with which the tests begin.

ghost use Rattle.std.specs.Prelude.{◌≤◌};

use kf_core::Limits;
use kf_shared::{NewTree, SharedTree};
use std::alloc::Global;
use std::marker::Brand;
use std::process::Abort;

/// A tree with `slots` slots, with at most `holds` holds of each, and with words for look-ups in eight slots.
pub(crate) fn made<R: Abort>(rt: &R, alloc: Global, slots: u32, holds: u32) -> NewTree {
    made_with(rt, alloc, slots, holds, 8)
}

/// The same tree, but with words for look-ups in `looks` slots.
///
/// Condition: `looks` is at most 8.
pub(crate) fn made_with<R: Abort>(
    rt: &R,
    alloc: Global,
    slots: u32,
    holds: u32,
    looks: u32,
) -> NewTree
    requires few { looks ≤ 8 }
{
    let Some(limits) = Limits::new(slots, holds) else {
        panic!(rt; "no such limits")
    };
    match SharedTree::<Brand>::with_looks(alloc, limits, 0, looks) {
        Ok(tree) => tree,
        Err(_) => panic!(rt; "no memory"),
    }
}
