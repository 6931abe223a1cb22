//! Changes to the records of a list of keys, one after another.

ghost use Rattle.std.specs.Prelude.{◌≡◌, ◌+◌, ◌≤◌, length, if◌then◌else◌};
ghost use Rattle.kf_core.specs.Commands.{doomed_record};
ghost use Rattle.kf_tree.specs.Causes.{hidden_in};
ghost use Rattle.kf_tree.specs.Subtrees.{with_changed_slots, doomed_count, undoomed_count};
ghost use Rattle.kf_table.specs.Changes.{activated_unless_doomed};

use kf_core::Key;
use kf_table::Table;

pub(crate) fn is_hidden(table: &Table, key: Key) -> bool
    ensures known { result ≡ hidden_in table.now key }
{
    match table.record(key) {
        Some(found) => found.hidden,
        None => false,
    }
}

/// How many commands are owed for a doomed key: its unlink, and its show if it is hidden.
pub(crate) fn owed_for(table: &Table, key: Key) -> usize
    ensures value { result ≡ (if hidden_in table.now key then 2 else 1) }
{
    if is_hidden(table, key) { 2 } else { 1 }
}

/// How many of the keys have a record that is not doomed.
pub(crate) fn count_undoomed(table: &Table, keys: &[Key]) -> usize
    ensures value { result ≡ undoomed_count table.now keys.now }
    ensures few { result ≤ length keys.now }
{
    keys.iter()
        .filter(|key| table.is_undoomed(key.slot))
        .count()
}

/// Dooms the record of each key, and returns how many were not doomed before.
pub(crate) fn doom_each(table: &mut Table, keys: &[Key]) -> usize
    ensures changed { table.new ≡ with_changed_slots doomed_record table.old keys.now }
    ensures counted { doomed_count table.new ≡ doomed_count table.old + result }
{
    let mut newly = 0;
    for key in keys {
        if table.doom(key.slot) {
            newly += 1;
        }
    }
    newly
}

/// Activates the record of each key, if it is not doomed.
pub(crate) fn activate_each(table: &mut Table, keys: &[Key])
    ensures changed { table.new ≡ with_changed_slots activated_unless_doomed table.old keys.now }
{
    for key in keys {
        table.activate(key.slot);
    }
}
