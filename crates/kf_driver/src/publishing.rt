//! Makes the files of a table's attributes.
ghost use Rattle.std.specs.Prelude.{◌≡◌, ◌+◌, ◌-◌, ◌^◌, ◌≤◌, length, IfErr, IfOk};
ghost use Rattle.kf_groups.specs.declared.attribute.Group.{Group};
ghost use Rattle.kf_groups.specs.Keeps.{Keeps};
ghost use Rattle.kf_groups.specs.Making.{GroupMade};
ghost use Rattle.kf_groups.specs.TakenBack.{GroupRefused};
ghost use Rattle.kf_driver.specs.Tables.{IsGroup, numbered};

use crate::table::Rows;
use arrayvec::ArrayVec;
use kf_core::{Key, Refusal};
use kf_groups::{Group, create_group};
use kf_shared::{Editor, Naming};

// Makes the files of the rows' attributes, with tags from `first` on.
#[tactic(auto, using(crate::proofs::Makings::made, crate::proofs::Makings::refused))]
pub(crate) fn create_from<N: Naming, T: Rows>(
    editor: &mut Editor<'_, N>,
    dir: Key,
    name: Option<&[u8]>,
    first: u64,
    rows: &T,
) -> Result<Key, Refusal>
    requires few { length (T.attributes rows.now) ≤ 64 }
    requires tags { first + length (T.attributes rows.now) ≤ 2 ^ 64 - 1 }
    ensures made { IfOk result (λ key. (group : Group)
        × IsGroup name.entry (numbered first (T.attributes rows.now)) group
        × GroupMade editor.old.state editor.new.state dir group key) }
    ensures refused { IfErr result (λ refusal. (group : Group)
        × IsGroup name.entry (numbered first (T.attributes rows.now)) group
        × GroupRefused editor.old editor.new dir group refusal) }
    ensures others { Keeps editor.old.state.tree editor.new.state.tree }
    ensures claims { editor.new.claims ≡ editor.old.claims }
{
    let mut attributes = ArrayVec::new();
    rows.push_attributes(first, &mut attributes);
    let group = Group::new(name, attributes.as_slice());
    create_group(editor, dir, &group)
}

/// Makes the files of a table's attributes, all or none, in a directory or, if a name is given, in a new
/// subdirectory of that name (`sysfs_create_group`, `device_add_groups`). It makes the files of exactly these
/// rows, in their order. The row at place `i`, counted from 0, serves the file with the tag `i`. Returns the
/// key of the directory that has the files.
///
/// Condition: there are at most 64 rows.
///
/// Refusals, in order: those of [`create_group`], which says what each of them leaves behind.
pub fn create_rows<N: Naming, T: Rows>(
    editor: &mut Editor<'_, N>,
    dir: Key,
    name: Option<&[u8]>,
    rows: &T,
) -> Result<Key, Refusal>
    requires few { length (T.attributes rows.now) ≤ 64 }
    ensures made { IfOk result (λ key. (group : Group)
        × IsGroup name.entry (numbered 0 (T.attributes rows.now)) group
        × GroupMade editor.old.state editor.new.state dir group key) }
    ensures refused { IfErr result (λ refusal. (group : Group)
        × IsGroup name.entry (numbered 0 (T.attributes rows.now)) group
        × GroupRefused editor.old editor.new dir group refusal) }
    ensures others { Keeps editor.old.state.tree editor.new.state.tree }
    ensures claims { editor.new.claims ≡ editor.old.claims }
{
    create_from(editor, dir, name, 0, rows)
}
