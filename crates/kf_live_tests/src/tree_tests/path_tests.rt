//! Tests a path of many names, which is longer than a line of a script can be. (tests/program/sizes.py makes
//! trees of the greatest size by scripts.)

use super::planting::{add, new_state};
use kf_core::{Node, Refusal};
use kf_tree::State;
use std::alloc::Global;

/// A path of 400,000 names, all of them `a`.
fn long_path(alloc: Global) -> Result<Vec<u8>, Refusal> {
    let mut path = Vec::new(alloc);
    for _ in 0..400_000 {
        path.extend_from_slice(b"/a")?;
    }
    Ok(path)
}

/// Whether every call that walks this path finds that it leads nowhere.
fn is_nowhere(state: &State, path: &[u8]) -> bool {
    state.walk(path) == Err(Refusal::NoEntry)
        && state.lookup(path) == Err(Refusal::NoEntry)
        && state.walk_parent(path).err() == Some(Refusal::NoEntry)
}

/// Whether this path leads nowhere, both before `/a` is created and after.
fn leads_nowhere(state: &mut State, path: &[u8]) -> Result<bool, Refusal> {
    let without = is_nowhere(state, path);
    add(state, b"/a", Node::Dir, true, 1)?;
    Ok(without && is_nowhere(state, path))
}

fn walks_long_path(alloc: Global) -> Result<bool, Refusal> {
    let mut state = new_state(alloc, 1024)?;
    let path = long_path(alloc)?;
    leads_nowhere(&mut state, &path)
}

#[test]
fn walks_long_paths_without_stack(rt: HostRuntime) {
    assert!(rt; walks_long_path(rt.alloc()) == Ok(true));
}
