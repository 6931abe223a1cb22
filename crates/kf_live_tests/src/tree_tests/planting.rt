//! Makes the trees that the tests begin with, and adds and removes nodes in them.

ghost use Rattle.std.specs.Prelude.{◌≡◌, slice_get, IfSome, Some, None};

use kf_core::{Key, Limits, Node, Refusal};
use kf_tree::State;
use std::alloc::Global;

pub(super) const TEXT: Node = Node::File {
    mode: 0o644,
    tag: 1,
};

const ROOT: Key = Key {
    slot: 0,
    generation: 1,
};

/// The first key of a slot.
pub(super) fn key(slot: u32) -> Key {
    Key {
        slot,
        generation: 1,
    }
}

/// A tree whose root has slot 0.
pub(super) fn new_state(alloc: Global, slots: u32) -> Result<State, Refusal> {
    match Limits::new(slots, 1) {
        Some(limits) => State::new(alloc, limits, ROOT),
        None => Err(Refusal::Invalid),
    }
}

/// The first key of this slot, if the slot is vacant.
fn vacant(state: &State, slot: u32) -> Option<Key>
    ensures vacant { IfSome result (λ key. slice_get state.now.tree key.slot ≡ Some None) }
{
    if state.is_vacant(slot) {
        Some(Key {
            slot,
            generation: 1,
        })
    } else {
        None
    }
}

/// Adds a node at a path, in this slot if the slot is vacant.
pub(super) fn add(
    state: &mut State,
    path: &[u8],
    node: Node,
    live: bool,
    slot: u32,
) -> Result<Key, Refusal> {
    let (parent, name) = state.walk_parent(path)?;
    let next = vacant(state, slot);
    state.create(parent, name, node, live, next)
}

/// Removes the node at a path and everything below it.
pub(super) fn remove(state: &mut State, path: &[u8]) -> Result<(), Refusal> {
    let top = state.walk(path)?;
    let keys = state.doom(top)?;
    for key in &keys {
        state.unlink(*key)?;
    }
    Ok(())
}
