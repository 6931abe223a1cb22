//! Making several groups, all or none.
ghost use Rattle.std.specs.Prelude.{◌≡◌, ◌+◌, true, length, suc, IfErr, None, OnOk};
ghost use Rattle.kf_core.specs.declared.refusal.Refusal.{Refusal};
ghost use Rattle.kf_core.specs.declared.key.Key.{Key};
ghost use Rattle.kf_core.specs.Lawful.{Lawful};
ghost use Rattle.kf_core.specs.Tree.{Tree};
ghost use Rattle.kf_groups.specs.Attributes.{group_size, own_name, shown};
ghost use Rattle.kf_groups.specs.Groups.{groups_cause, groups_size, GroupTakenBack, GroupsMade, GroupsRefused, GroupsTakenBack, IsWithout};
ghost use Rattle.kf_groups.specs.Keeps.{Keeps, KeepsOlder};
ghost use Rattle.kf_tree.specs.Subtrees.{linked_count};
ghost use Rattle.kf_groups.specs.TakenBack.{EachTookBack, GaveUp, LacksRoom, TookBack};
ghost use Rattle.kf_shared.specs.Locked.{Locked};

use crate::attribute::{Attribute, Group};
use crate::checks::{groups_cause, own_name};
use crate::making::create_group;
use crate::taking_back::{take_back, take_back_files};
use kf_core::{Key, Refusal};
use kf_shared::{Editor, Naming};

// Takes back the directory of a group, its files first. Returns whether all of its nodes were taken out of
// the tree.
fn take_back_directory<N: Naming>(
    editor: &mut Editor<'_, N>,
    key: Key,
    attributes: &[Attribute],
) -> bool
    ensures took { (between : Locked)
        × EachTookBack editor.old between key (shown attributes.now) × TookBack between editor.new key }
    ensures older { KeepsOlder key editor.old.state.tree editor.new.state.tree }
    ensures counted { result ≡ true → linked_count editor.new.state.tree + suc (length (shown attributes.now))
        ≡ linked_count editor.old.state.tree }
    ensures claims { editor.new.claims ≡ editor.old.claims }
{
    let files = take_back_files(editor, key, attributes);
    let one = take_back(editor, key);
    files & one
}

// Takes back a group that was made in this critical section. Returns whether all of its nodes were taken out
// of the tree.
fn take_back_group<N: Naming>(editor: &mut Editor<'_, N>, dir: Key, group: &Group, key: Key) -> bool
    ensures took { GroupTakenBack editor.old editor.new dir key (shown group.now.attributes.now)
        (own_name group.now) }
    ensures older { (base : Tree) (root : Key) → Lawful base root
        → IsWithout base dir key (shown group.now.attributes.now) (own_name group.now)
        → Keeps base editor.old.state.tree → Keeps base editor.new.state.tree }
    ensures counted { result ≡ true →
        linked_count editor.new.state.tree + group_size group.now ≡ linked_count editor.old.state.tree }
    ensures claims { editor.new.claims ≡ editor.old.claims }
{
    match own_name(group) {
        Some(_) => take_back_directory(editor, key, group.attributes),
        None => take_back_files(editor, dir, group.attributes),
    }
}

// Takes back a group. Returns the given refusal, or NoMemory if a node of the group stays.
fn give_up_group<N: Naming>(
    editor: &mut Editor<'_, N>,
    dir: Key,
    group: &Group,
    key: Key,
    refusal: Refusal,
) -> Refusal
    ensures took { GroupTakenBack editor.old editor.new dir key (shown group.now.attributes.now)
        (own_name group.now) }
    ensures older { (base : Tree) (root : Key) → Lawful base root
        → IsWithout base dir key (shown group.now.attributes.now) (own_name group.now)
        → Keeps base editor.old.state.tree → Keeps base editor.new.state.tree }
    ensures counted { GaveUp (group_size group.now) editor.old.state.tree editor.new.state.tree refusal
        result }
    ensures claims { editor.new.claims ≡ editor.old.claims }
{
    if take_back_group(editor, dir, group, key) {
        refusal
    } else {
        Refusal::NoMemory
    }
}

// Makes the groups, one after another. If one is refused, the groups before it are taken back.
fn make_groups<N: Naming>(
    editor: &mut Editor<'_, N>,
    dir: Key,
    groups: &[Group],
) -> Result<(), Refusal>
    requires free { groups_cause editor.old.state.tree editor.old.state.root dir groups.now ≡ None }
    ensures made { OnOk result (GroupsMade editor.old.state editor.new.state dir groups.now) }
    ensures refused { IfErr result (λ refusal. (why : Refusal)
        × LacksRoom editor.old.state.tree editor.new.state.tree why refusal
        × GroupsTakenBack editor.old editor.new dir groups.now why) }
    ensures others { Keeps editor.old.state.tree editor.new.state.tree }
    ensures counted { OnOk result (linked_count editor.new.state.tree
        ≡ linked_count editor.old.state.tree + groups_size groups.now) }
    ensures claims { editor.new.claims ≡ editor.old.claims }
{
    let [first, rest @ ..] = groups else {
        return Ok(());
    };
    let _ = editor.state();
    let key = match create_group(editor, dir, first) {
        Ok(key) => key,
        Err(refusal) => return Err(refusal),
    };
    if let Err(refusal) = make_groups(editor, dir, rest) {
        return Err(give_up_group(editor, dir, first, key, refusal));
    }
    Ok(())
}

/// Makes several groups in a directory, all or none, in this critical section (`sysfs_create_groups`). Each
/// group may have a name or not.
///
/// Refusals, in order: for one group after another, those of [`create_group`], and Exists if a later group
/// makes an entry of the same name. After these nothing has changed. Then NoSpace (a search found no free
/// slot), which leaves the tree as it was, but with more commands stored and more generations used. Last
/// NoMemory, which is also returned if memory runs out while nodes are taken back. Nodes that cannot be taken
/// back for lack of memory stay, and may be live.
///
/// Whatever the result, each node that was there before is as it was.
pub fn create_groups<N: Naming>(
    editor: &mut Editor<'_, N>,
    dir: Key,
    groups: &[Group],
) -> Result<(), Refusal>
    ensures made { OnOk result (GroupsMade editor.old.state editor.new.state dir groups.now) }
    ensures refused { IfErr result
        (λ refusal. GroupsRefused editor.old editor.new dir groups.now refusal) }
    ensures others { Keeps editor.old.state.tree editor.new.state.tree }
    ensures counted { OnOk result (linked_count editor.new.state.tree
        ≡ linked_count editor.old.state.tree + groups_size groups.now) }
    ensures claims { editor.new.claims ≡ editor.old.claims }
{
    if let Some(refusal) = groups_cause(editor.state(), dir, groups) {
        return Err(refusal);
    }
    make_groups(editor, dir, groups)
}
