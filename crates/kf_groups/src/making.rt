//! Making a group, all or none.
ghost use Rattle.std.specs.Prelude.{◌≡◌, ◌+◌, suc, false, List, length, IfOk, IfErr, OnOk, None, Some};
ghost use Rattle.kf_core.specs.declared.key.Key.{Key};
ghost use Rattle.kf_core.specs.declared.key.Node.TheVariants.{Dir};
ghost use Rattle.kf_core.specs.declared.refusal.Refusal.{Refusal};
ghost use Rattle.kf_core.specs.Tree.{is_linked};
ghost use Rattle.kf_tree.specs.Causes.{create_fault};
ghost use Rattle.kf_tree.specs.TreeLogs.{Stores};
ghost use Rattle.kf_groups.specs.Attributes.{file_fault, files_cause, group_size, has_files, shown};
ghost use Rattle.kf_groups.specs.Making.{creations, live_creations, named_creations, GroupMade};
ghost use Rattle.kf_groups.specs.Keeps.{Keeps};
ghost use Rattle.kf_tree.specs.Subtrees.{linked_count};
ghost use Rattle.kf_groups.specs.TakenBack.{DirectoryTakenBack, FilesTakenBack, GroupRefused, LacksRoom};

use crate::attribute::{Attribute, Group};
use crate::checks::{file_of, group_cause, own_name};
use crate::taking_back::{give_up, take_back, take_back_files};
use kf_core::{Key, Node, Refusal};
use kf_shared::{Editor, Naming};

// Makes the files, one after another, not yet live. If one is refused, the files before it are taken back.
fn fill<N: Naming>(
    editor: &mut Editor<'_, N>,
    dir: Key,
    attributes: &[Attribute],
) -> Result<(), Refusal>
    requires free { files_cause (file_fault editor.old.state.tree editor.old.state.root (Some dir))
        (shown attributes.now) ≡ None }
    ensures made { OnOk result ((keys : List Key) × (length keys ≡ length (shown attributes.now))
        × Stores editor.old.state editor.new.state (creations dir (shown attributes.now) keys)) }
    ensures refused { IfErr result (λ refusal. (why : Refusal)
        × LacksRoom editor.old.state.tree editor.new.state.tree why refusal
        × FilesTakenBack editor.old editor.new dir (shown attributes.now) why) }
    ensures others { Keeps editor.old.state.tree editor.new.state.tree }
    ensures counted { OnOk result (linked_count editor.new.state.tree
        ≡ linked_count editor.old.state.tree + length (shown attributes.now)) }
    ensures claims { editor.new.claims ≡ editor.old.claims }
{
    let [first, rest @ ..] = attributes else {
        return Ok(());
    };
    if first.mode == 0 {
        return fill(editor, dir, rest);
    }
    let _ = editor.state();
    let node = file_of(first);
    let key = editor.create(dir, first.name, node, false)?;
    if let Err(refusal) = fill(editor, dir, rest) {
        return Err(give_up(editor, key, refusal));
    }
    Ok(())
}

// Makes the files, one after another, not yet live, and then activates each. If one is refused or not
// activated, all files that were made are taken back.
fn make_files<N: Naming>(
    editor: &mut Editor<'_, N>,
    dir: Key,
    attributes: &[Attribute],
) -> Result<(), Refusal>
    requires free { files_cause (file_fault editor.old.state.tree editor.old.state.root (Some dir))
        (shown attributes.now) ≡ None }
    ensures made { OnOk result ((keys : List Key) × (length keys ≡ length (shown attributes.now))
        × Stores editor.old.state editor.new.state (live_creations dir (shown attributes.now) keys)) }
    ensures refused { IfErr result (λ refusal. (why : Refusal)
        × LacksRoom editor.old.state.tree editor.new.state.tree why refusal
        × FilesTakenBack editor.old editor.new dir (shown attributes.now) why) }
    ensures others { Keeps editor.old.state.tree editor.new.state.tree }
    ensures counted { OnOk result (linked_count editor.new.state.tree
        ≡ linked_count editor.old.state.tree + length (shown attributes.now)) }
    ensures claims { editor.new.claims ≡ editor.old.claims }
{
    let [first, rest @ ..] = attributes else {
        return Ok(());
    };
    if first.mode == 0 {
        return make_files(editor, dir, rest);
    }
    let _ = editor.state();
    let key = editor.create(dir, first.name, file_of(first), false)?;
    if let Err(refusal) = make_files(editor, dir, rest) {
        return Err(give_up(editor, key, refusal));
    }
    if let Err(refusal) = editor.activate(key) {
        take_back_files(editor, dir, rest);
        take_back(editor, key);
        return Err(refusal);
    }
    Ok(())
}

// Makes a directory with the files in it, not yet live, and then activates all of them. If a file is refused
// or the directory is not activated, the directory is taken back.
fn make_directory<N: Naming>(
    editor: &mut Editor<'_, N>,
    dir: Key,
    name: &[u8],
    attributes: &[Attribute],
) -> Result<Key, Refusal>
    requires directory_free { create_fault editor.old.state.tree editor.old.state.root dir name.now Dir
        ≡ None }
    requires files_free { files_cause (file_fault editor.old.state.tree editor.old.state.root None)
        (shown attributes.now) ≡ None }
    ensures made { IfOk result (λ key. (keys : List Key) × (length keys ≡ length (shown attributes.now))
        × Stores editor.old.state editor.new.state
        (named_creations dir name.now (shown attributes.now) key keys)) }
    ensures refused { IfErr result (λ refusal. (why : Refusal)
        × LacksRoom editor.old.state.tree editor.new.state.tree why refusal
        × DirectoryTakenBack editor.old editor.new dir name.now (shown attributes.now) why) }
    ensures fresh { IfOk result (λ key. is_linked editor.old.state.tree key ≡ false) }
    ensures others { Keeps editor.old.state.tree editor.new.state.tree }
    ensures counted { OnOk result (linked_count editor.new.state.tree
        ≡ linked_count editor.old.state.tree + suc (length (shown attributes.now))) }
    ensures claims { editor.new.claims ≡ editor.old.claims }
{
    let _ = editor.state();
    let key = editor.create(dir, name, Node::Dir, false)?;
    if let Err(refusal) = fill(editor, key, attributes) {
        return Err(give_up(editor, key, refusal));
    }
    if let Err(refusal) = editor.activate(key) {
        take_back(editor, key);
        return Err(refusal);
    }
    Ok(key)
}

/// Makes a group of attributes in a directory, all or none, in this critical section (`sysfs_create_group`).
/// Nothing of the group is live before all of it exists. Returns the key of the directory that has its files.
/// If no attribute of the group has a file, nothing is made, not even a directory (`SYSFS_GROUP_INVISIBLE`),
/// and the key is that of `dir`.
///
/// Refusals, in order: those of [`Editor::create`] for the group's own directory, if it makes one, and
/// otherwise NoEntry (`dir` is not linked) and NotDir; then, for one attribute after another, what is wrong
/// with its file, and Exists if a later file has the same name. After these nothing has changed. Then NoSpace
/// (a search found no free slot): what was made is taken back under the same lock, so the tree is as it was,
/// but with more commands stored and more generations used. Last NoMemory, which is also returned if memory
/// runs out while nodes are taken back. Nodes that cannot be taken back for lack of memory stay, and may be
/// live.
///
/// Whatever the result, each node that was there before is as it was.
pub fn create_group<N: Naming>(
    editor: &mut Editor<'_, N>,
    dir: Key,
    group: &Group,
) -> Result<Key, Refusal>
    ensures made { IfOk result (λ key. GroupMade editor.old.state editor.new.state dir group.now key) }
    ensures invisible { IfOk result (λ key. has_files group.now.attributes.now ≡ false →
        (key ≡ dir) × (editor.new.state.tree ≡ editor.old.state.tree)) }
    ensures refused { IfErr result
        (λ refusal. GroupRefused editor.old editor.new dir group.now refusal) }
    ensures others { Keeps editor.old.state.tree editor.new.state.tree }
    ensures counted { OnOk result (linked_count editor.new.state.tree
        ≡ linked_count editor.old.state.tree + group_size group.now) }
    ensures claims { editor.new.claims ≡ editor.old.claims }
{
    if let Some(refusal) = group_cause(editor.state(), dir, group) {
        return Err(refusal);
    }
    match own_name(group) {
        Some(name) => make_directory(editor, dir, name, group.attributes),
        None => match make_files(editor, dir, group.attributes) {
            Ok(()) => Ok(dir),
            Err(refusal) => Err(refusal),
        },
    }
}
