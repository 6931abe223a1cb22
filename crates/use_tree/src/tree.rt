//! The plain tree with keys that its owner chooses: fans that come and go, each in the slot for its number.

use anyhow::Context;
use kf_core::{Key, Limits, Node, Refusal};
use kf_tree::State;
use std::alloc::Global;

/// The root's key. The owner chooses slot and generation, as long as it uses no key twice.
const ROOT: Key = Key {
    slot: 0,
    generation: 1,
};

/// Adds a fan that was added `times` times before. Its attribute is live at once. `create` needs a key whose
/// slot is vacant.
fn come(state: &mut State, name: &[u8], fan: u32, times: u32) -> Result<Key, Refusal> {
    let slot = 1 + fan % 8;
    if !state.is_vacant(slot) {
        return Err(Refusal::NoSpace);
    }
    let attribute = Node::File {
        mode: 0o644,
        tag: u64::from(fan),
    };
    let key = Key {
        slot,
        generation: 1 + times % 1000,
    };
    state.create(ROOT, name, attribute, true, Some(key))
}

/// Removes a node and all nodes below it: dooms all of them at once, and unlinks each after the nodes below
/// it.
fn go(state: &mut State, key: Key) -> Result<(), Refusal> {
    for doomed in state.doom(key)? {
        state.unlink(doomed)?;
    }
    Ok(())
}

/// Adds two fans. A third one, whose name is taken, is refused.
fn two_come(rt: &impl Print, state: &mut State) -> anyhow::Result<Key> {
    let fan1 = come(state, b"fan1", 1, 0)?;
    come(state, b"fan0", 0, 0)?;
    if let Err(refusal) = come(state, b"fan1", 2, 0) {
        println!(rt; "fan1 again: {refusal}")?;
    }
    Ok(fan1)
}

/// Removes a fan and adds it again, under a new key of the same slot.
fn come_again(rt: &impl Print, state: &mut State, fan1: Key) -> anyhow::Result<()> {
    go(state, fan1)?;
    come(state, b"fan1", 1, 1)?;
    let again = state
        .key_in(fan1.slot)
        .context("the fan is in its slot again")?;
    println!(rt; "fan1 came again as {}.{}", again.slot, again.generation)?;
    Ok(())
}

fn print_names(rt: &impl Print, state: &State) -> anyhow::Result<()> {
    for name in state.list(ROOT, None, 10)? {
        rt.write_all(name.bytes())?;
        rt.write_all(b"\n")?;
    }
    Ok(())
}

/// Prints how many commands are stored, before and after they are compacted. Both lists make the same tree.
fn compact(rt: &impl Print, state: &mut State) -> anyhow::Result<()> {
    println!(rt; "{} commands make this tree", state.commands().len())?;
    state.compact()?;
    println!(rt; "{} commands make it too", state.commands().len())?;
    Ok(())
}

/// Adds fans, removes one of them, and adds it again.
pub(crate) fn start(rt: &impl Print, alloc: Global) -> anyhow::Result<()> {
    let limits = Limits::new(16, 100).context("16 slots and 100 holds are within the limits")?;
    let mut state = State::new(alloc, limits, ROOT)?;
    let fan1 = two_come(rt, &mut state)?;
    come_again(rt, &mut state, fan1)?;
    print_names(rt, &state)?;
    compact(rt, &mut state)
}
