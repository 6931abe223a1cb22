//! Making a directory with groups in it, all or none.
ghost use Rattle.std.specs.Prelude.{◌≡◌, ◌⊎◌, false, IfOk, IfErr, Some};
ghost use Rattle.kf_core.specs.declared.refusal.Refusal.TheVariants.{NoMemory};
ghost use Rattle.kf_core.specs.Marks.{fresh_marks};
ghost use Rattle.kf_core.specs.Tree.{marks_of};
ghost use Rattle.kf_groups.specs.Directories.{DirectoryMade, DirectoryRefused};
ghost use Rattle.kf_groups.specs.Keeps.{Keeps};

use crate::attribute::Group;
use crate::groups::create_groups;
use crate::taking_back::give_up;
use kf_core::{Key, Node, Refusal};
use kf_shared::{Editor, Naming};

/// Creates a directory with these groups in it, all or none, in this critical section: the directory of a
/// device (`device_add`). Returns the directory's key. The directory is not live yet, so no path leads to its
/// files. Activate it with [`Editor::activate`] once everything else is there, or take it back with
/// [`crate::take_back`].
///
/// Refusals, in order: those of [`Editor::create`] for the directory, then those of [`create_groups`]. After
/// one of the latter the directory is taken back under the same lock, so the tree is as it was, but with more
/// commands stored and more generations used. Last NoMemory, which is also returned if memory runs out while
/// nodes are taken back. Nodes that cannot be taken back for lack of memory stay.
///
/// Whatever the result, each node that was there before is as it was.
pub fn create_directory<N: Naming>(
    editor: &mut Editor<'_, N>,
    dir: Key,
    name: &[u8],
    groups: &[Group],
) -> Result<Key, Refusal>
    ensures made { IfOk result
        (λ key. DirectoryMade editor.old editor.new dir name.now groups.now key) }
    ensures idle { IfOk result (λ key. marks_of editor.new.state.tree key ≡ Some fresh_marks) }
    ensures refused { IfErr result
        (λ refusal. DirectoryRefused editor.old editor.new dir name.now groups.now refusal) }
    ensures restored { IfErr result
        (λ refusal. (editor.new.state.tree ≡ editor.old.state.tree) ⊎ (refusal ≡ NoMemory)) }
    ensures others { Keeps editor.old.state.tree editor.new.state.tree }
    ensures claims { editor.new.claims ≡ editor.old.claims }
{
    let _ = editor.state();
    let key = editor.create(dir, name, Node::Dir, false)?;
    if let Err(refusal) = create_groups(editor, key, groups) {
        return Err(give_up(editor, key, refusal));
    }
    Ok(key)
}
