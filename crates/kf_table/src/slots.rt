//! Changes of the record in one slot.

ghost use Rattle.std.specs.Prelude.{◌≡◌};
ghost use Rattle.kf_core.specs.Commands.{doomed_record, hidden_record, moved_record};
ghost use Rattle.kf_table.specs.Changes.{with_changed_slot, activated_unless_doomed};

use kf_core::{Key, NameBytes, Record, SlotMap};

/// Dooms the record in a slot.
pub(crate) fn doom_slot(records: &mut SlotMap<Record>, slot: u32)
    ensures changed { records.new ≡ with_changed_slot doomed_record records.old slot }
{
    if let Some(mut found) = records.take(slot as usize) {
        found.marks.doomed = true;
        records.put(slot as usize, found);
    }
}

fn activate(found: &mut Record)
    ensures changed { found.new ≡ activated_unless_doomed found.old }
{
    if !found.marks.doomed {
        found.marks.activated = true;
    }
}

/// Activates the record in a slot, unless it is doomed.
pub(crate) fn activate_slot(records: &mut SlotMap<Record>, slot: u32)
    ensures changed { records.new ≡ with_changed_slot activated_unless_doomed records.old slot }
{
    if let Some(mut found) = records.take(slot as usize) {
        activate(&mut found);
        records.put(slot as usize, found);
    }
}

/// Hides the record in a slot, or shows it.
pub(crate) fn set_hidden_slot(records: &mut SlotMap<Record>, slot: u32, hidden: bool)
    ensures changed { records.new ≡ with_changed_slot (hidden_record hidden) records.old slot }
{
    if let Some(mut found) = records.take(slot as usize) {
        found.hidden = hidden;
        records.put(slot as usize, found);
    }
}

/// Moves the record in a slot into a directory, under a name.
pub(crate) fn move_slot(records: &mut SlotMap<Record>, slot: u32, dir: Key, name: NameBytes)
    ensures changed { records.new ≡ with_changed_slot (moved_record dir name) records.old slot }
{
    if let Some(mut found) = records.take(slot as usize) {
        found.parent = Some(dir);
        found.name = name;
        records.put(slot as usize, found);
    }
}
