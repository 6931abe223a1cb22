//! The events of a change, with the paths of its nodes.
ghost use Rattle.std.specs.Prelude.{◌≡◌, ◌++◌, ◌∷◌, [], List, None, IfErr, IfOk, OnOk};
ghost use Rattle.kf_core.specs.declared.key.Key.{Key};
ghost use Rattle.kf_core.specs.declared.refusal.Refusal.TheVariants as refusal_of;
ghost use Rattle.kf_core.specs.Tree.{marks_of};
ghost use Rattle.kf_tree.specs.Causes.{Refuses, linked_cause};
ghost use Rattle.kf_uevents.specs.News.{AreNews, IsEventOf, is_told, tells};

use crate::uevent::{Action, Uevent};
use kf_core::{Key, NodeFlags, Refusal};
use kf_tree::State;
use std::alloc::Global;

// The marks of a key, if it is linked.
fn marks_of(state: &State, key: Key) -> Option<NodeFlags>
    ensures known { result ≡ marks_of state.now.tree key }
{
    match state.stat(key) {
        Ok(stat) => Some(NodeFlags {
            activated: stat.activated,
            doomed: stat.doomed,
        }),
        Err(_) => None,
    }
}

// Whether a node with these marks is reported for this action.
fn tells(action: Action, marks: NodeFlags) -> bool
    ensures known { result ≡ tells action marks }
{
    match action {
        Action::Add => !marks.activated && !marks.doomed,
        Action::Remove => marks.activated && !marks.doomed,
        Action::Change | Action::Move => true,
    }
}

/// Whether the tree has the key, and its node is reported for this action.
pub(crate) fn is_told(state: &State, action: Action, key: Key) -> bool
    ensures known { result ≡ is_told state.now.tree action key }
{
    match marks_of(state, key) {
        Some(marks) => tells(action, marks),
        None => false,
    }
}

/// Makes the event of a node, with the path that the node has.
pub(crate) fn event_of(state: &State, action: Action, key: Key) -> Result<Uevent, Refusal>
    ensures no_cause { OnOk result (linked_cause state.now.tree key ≡ None) }
    ensures keyed { IfOk result (λ event. event.key ≡ key) }
    ensures event { IfOk result (λ event. IsEventOf state.now.tree state.now.root action event) }
    ensures refused { IfErr result (λ refusal. Refuses (linked_cause state.now.tree key) refusal) }
{
    let path = state.path_of(key)?;
    Ok(Uevent {
        action,
        key,
        path,
        from: None,
    })
}

// Adds the event of a node, if the node is reported.
fn add_event(
    state: &State,
    action: Action,
    key: Key,
    events: &mut Vec<Uevent>,
) -> Result<(), Refusal>
    ensures added { OnOk result ((keys : List Key)
        → AreNews state.now.tree state.now.root action keys events.old.items
        → AreNews state.now.tree state.now.root action (keys ++ key ∷ []) events.new.items) }
    ensures refused { IfErr result (λ refusal. refusal ≡ refusal_of.NoMemory) }
{
    if !is_told(state, action, key) {
        return Ok(());
    }
    let event = event_of(state, action, key)?;
    events.push(event)?;
    Ok(())
}

/// Makes an event for each of these keys that is reported, in their order.
///
/// Refusal: NoMemory.
pub(crate) fn events_of(
    state: &State,
    alloc: Global,
    action: Action,
    keys: &[Key],
) -> Result<Vec<Uevent>, Refusal>
    ensures news { IfOk result
        (λ events. AreNews state.now.tree state.now.root action keys.now events.items) }
    ensures refused { IfErr result (λ refusal. refusal ≡ refusal_of.NoMemory) }
{
    let mut events = Vec::new(alloc);
    for key in keys {
        add_event(state, action, *key, &mut events)?;
    }
    Ok(events)
}
