//! Steps of a worked example. Each is a call, with what the call must return. A node is named by its slot,
//! and has the first key of that slot.

use super::planting::{TEXT, add, key, new_state, remove};
use kf_core::{Command, Key, Node, Refusal};
use kf_tree::State;
use std::alloc::Global;

#[derive(Clone, Copy)]
pub(super) enum Step {
    /// Makes a live directory at the path, in this slot.
    Directory(&'static [u8], u32),
    /// Makes a live file at the path, in this slot.
    File(&'static [u8], u32),
    /// Makes a directory that is not activated. If there is a reason here, the call is refused for it.
    Off(&'static [u8], u32, Option<Refusal>),
    /// Makes a file that is not activated.
    OffFile(&'static [u8], u32),
    Activate(u32),
    /// Dooms a subtree: the nodes in these slots, in this order.
    Doom(u32, &'static [u32]),
    /// Unlinks a node. The call returns whether the node was linked, or this refusal.
    Unlink(u32, Result<bool, Refusal>),
    Remove(&'static [u8], Option<Refusal>),
    Hide(u32, Option<Refusal>),
    /// Shows a file again. The call returns whether the file was hidden.
    Show(u32, bool),
    Compact,
    Is(Look),
}

/// A look at the tree, which changes nothing, with what it must find.
#[derive(Clone, Copy)]
pub(super) enum Look {
    /// The path leads to a live node in this slot.
    Live(&'static [u8], u32),
    /// The path leads to no live node.
    Absent(&'static [u8]),
    /// Whether the node is activated, doomed and hidden, as `stat` reports.
    Marks(u32, (bool, bool, bool)),
    /// The names that a listing of the directory returns.
    Shows(u32, &'static [&'static [u8]]),
    /// The stored commands, each as the letter of its kind.
    Stored(&'static [u8]),
    /// The slots that the stored commands are about.
    About(&'static [u32]),
    /// How many commands are stored, and how many a compaction leaves at most.
    Counts(usize, usize),
}

/// Runs the steps on a new tree with this many slots. Returns the place of the first step that does not
/// return what it must, if there is one.
pub(super) fn first_wrong(
    alloc: Global,
    slots: u32,
    steps: &[Step],
) -> Result<Option<usize>, Refusal> {
    let mut state = new_state(alloc, slots)?;
    let mut place = 0;
    for step in steps {
        if !is_right(&mut state, *step) {
            return Ok(Some(place));
        }
        place = place.saturating_add(1);
    }
    Ok(None)
}

fn is_right(state: &mut State, step: Step) -> bool {
    match step {
        Step::Directory(path, slot) => add(state, path, Node::Dir, true, slot) == Ok(key(slot)),
        Step::File(path, slot) => add(state, path, TEXT, true, slot) == Ok(key(slot)),
        Step::Off(path, slot, why) => add(state, path, Node::Dir, false, slot).err() == why,
        Step::OffFile(path, slot) => add(state, path, TEXT, false, slot) == Ok(key(slot)),
        Step::Activate(slot) => state.activate(key(slot)).is_ok(),
        Step::Doom(slot, slots) => dooms(state, slot, slots),
        Step::Unlink(slot, told) => state.unlink(key(slot)) == told,
        Step::Remove(path, why) => remove(state, path).err() == why,
        Step::Hide(slot, why) => hide(state, slot).err() == why,
        Step::Show(slot, told) => state.show(key(slot)) == told,
        Step::Compact => state.compact().is_ok(),
        Step::Is(look) => is_seen(state, look),
    }
}

fn is_seen(state: &State, look: Look) -> bool {
    match look {
        Look::Live(path, slot) => state.lookup(path) == Ok(key(slot)),
        Look::Absent(path) => state.lookup(path) == Err(Refusal::NoEntry),
        Look::Marks(slot, marks) => has_marks(state, slot, marks),
        Look::Shows(slot, names) => shows(state, slot, names),
        Look::Stored(letters) => has_stored(state, letters),
        Look::About(slots) => has_slots(state, slots),
        Look::Counts(stored, left) => state.stored() == stored && state.compacted() == left,
    }
}

fn hide(state: &mut State, slot: u32) -> Result<(), Refusal> {
    let key = key(slot);
    state.may_hide(key)?;
    state.hide(key);
    Ok(())
}

/// Whether these are the first keys of these slots, in this order.
fn are(keys: &[Key], slots: &[u32]) -> bool {
    for (found, slot) in keys.iter().zip(slots) {
        if *found != key(*slot) {
            return false;
        }
    }
    keys.len() == slots.len()
}

fn dooms(state: &mut State, slot: u32, slots: &[u32]) -> bool {
    match state.doom(key(slot)) {
        Ok(keys) => are(keys.as_slice(), slots),
        Err(_) => false,
    }
}

fn has_marks(state: &State, slot: u32, marks: (bool, bool, bool)) -> bool {
    match state.stat(key(slot)) {
        Ok(told) => (told.activated, told.doomed, told.hidden) == marks,
        Err(_) => false,
    }
}

fn shows(state: &State, slot: u32, names: &[&[u8]]) -> bool {
    let Ok(list) = state.list(key(slot), None, 10) else {
        return false;
    };
    for (shown, name) in list.iter().zip(names) {
        if shown.bytes() != *name {
            return false;
        }
    }
    list.len() == names.len()
}

/// The first letter of a stored command: Create, Activate, Doom, Unlink, Rename, Hide or Show.
fn letter(command: &Command) -> u8 {
    match command {
        Command::Create { .. } => b'C',
        Command::Activate { .. } => b'A',
        Command::Doom { .. } => b'D',
        Command::Unlink { .. } => b'U',
        Command::Rename { .. } => b'R',
        Command::Hide { .. } => b'H',
        Command::Show { .. } => b'S',
    }
}

/// The slot that a stored command is about.
fn slot_of(command: &Command) -> u32 {
    match command {
        Command::Create { key, .. }
        | Command::Activate { key }
        | Command::Doom { key }
        | Command::Unlink { key }
        | Command::Rename { key, .. }
        | Command::Hide { key }
        | Command::Show { key } => key.slot,
    }
}

fn has_stored(state: &State, letters: &[u8]) -> bool {
    for (command, expected) in state.commands().iter().zip(letters) {
        if letter(command) != *expected {
            return false;
        }
    }
    state.commands().len() == letters.len()
}

fn has_slots(state: &State, slots: &[u32]) -> bool {
    for (command, slot) in state.commands().iter().zip(slots) {
        if slot_of(command) != *slot {
            return false;
        }
    }
    state.commands().len() == slots.len()
}
