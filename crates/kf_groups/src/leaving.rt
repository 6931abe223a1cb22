//! Removing a group: this begins under the lock, and is finished once the tree is unlocked.
ghost use Rattle.std.specs.Prelude.{◌≡◌, ◌+◌, ◌≤◌, ◌++◌, List, length, vec_capacity, IfOk, IfErr, IfSome, OnErr};
ghost use Rattle.kf_tree.specs.Paths.{found};
ghost use Rattle.kf_words.specs.Callers.{Handle};
ghost use Rattle.kf_shared.specs.Locked.{Unchanged};
ghost use Rattle.kf_shared.specs.Receipts.{NamedRefused};
ghost use Rattle.kf_groups.specs.Leavings.{FilesBegun, GroupBegun, GroupStopped, NameBegun, ended, why_ended};
ghost use Rattle.kf_groups.specs.Removals.{EntryRefusal, NameRefusal, RemoveRefusal};

use crate::attribute::{Attribute, Group};
use kf_core::{Key, Refusal};
use kf_shared::{Editor, Naming, Removing, SharedTree, release_all};
use std::alloc::Global;
use std::sync::Wait;

/// A removal of a group that has begun. It must be passed to [`GroupRemoval::finish`] once the tree is
/// unlocked.
pub struct GroupRemoval<N: Naming> {
    /// The removal of the group's own directory, if the group has a name.
    pub directory: Option<Removing<N>>,
    /// The removals of the files of a group without a name, in the order of its attributes.
    pub files: Vec<Removing<N>>,
    /// Why the next file is not removed, if that was refused. The files after it stay, too.
    pub refused: Option<Refusal>,
}

// Begins the removal of the entry with this name in a directory.
fn begin_name<N: Naming>(
    editor: &mut Editor<'_, N>,
    dir: Key,
    name: &[u8],
) -> Result<Removing<N>, Refusal>
    ensures begun { IfOk result
        (λ holds. NameBegun editor.old.state editor.new.state dir name.now holds) }
    ensures refused { IfErr result (λ refusal.
        NamedRefused editor.old.state (found editor.old.state.tree dir name.now) refusal) }
    ensures why { IfErr result (λ refusal. NameRefusal refusal) }
    ensures same { OnErr result (Unchanged editor.old editor.new) }
{
    let key = editor.state().find(dir, name)?;
    editor.begin_removal_of(key)
}

// Begins the removal of the file of each attribute that has one in the directory, one after another.
fn begin_files<N: Naming>(
    editor: &mut Editor<'_, N>,
    dir: Key,
    attributes: &[Attribute],
    files: &mut Vec<Removing<N>>,
) -> Result<(), Refusal>
    requires room { length files.old.items + length attributes.now ≤ vec_capacity files.old }
    ensures begun { (begun : List (List Handle)) × (files.new.items ≡ files.old.items ++ begun)
        × FilesBegun editor.old editor.new dir attributes.now begun (why_ended result) }
    ensures why { IfErr result (λ refusal. EntryRefusal refusal) }
{
    let [first, rest @ ..] = attributes else {
        return Ok(());
    };
    match begin_name(editor, dir, first.name) {
        Ok(removing) => {
            files.push_reserved(removing);
            begin_files(editor, dir, rest, files)
        }
        Err(Refusal::NoEntry) => begin_files(editor, dir, rest, files),
        Err(refusal) => Err(refusal),
    }
}

/// Begins the removal of the entries of a directory that have a group's names, under this lock: the group's
/// own directory with all in it, or each of its files that is there. It marks all of these before it returns,
/// and nothing else.
///
/// Refusals, in order: for a group with a name, NoEntry (`dir` is not linked), NotDir, NoEntry (the group's
/// own directory is not there, as is the case if no attribute had a file), then TooManyHolds or NoMemory,
/// whichever is met first; for a group without a name, NoMemory. After these nothing has changed. If the
/// removal of a file is refused, the result has that refusal, and the removals that were begun before it.
pub fn remove_group_in<N: Naming>(
    editor: &mut Editor<'_, N>,
    alloc: Global,
    dir: Key,
    group: &Group,
) -> Result<GroupRemoval<N>, Refusal>
    ensures begun { IfOk result (λ leaving. GroupBegun editor.old editor.new dir group.now
        leaving.directory leaving.files.items leaving.refused) }
    ensures why { IfOk result (λ leaving.
        IfSome leaving.refused (λ refusal. RemoveRefusal group.now refusal)) }
    ensures refused { IfErr result (λ refusal. GroupStopped editor.old.state dir group.now refusal) }
    ensures same { OnErr result (Unchanged editor.old editor.new) }
{
    match group.name {
        Some(name) => {
            let directory = begin_name(editor, dir, name)?;
            Ok(GroupRemoval {
                directory: Some(directory),
                files: Vec::new(alloc),
                refused: None,
            })
        }
        None => {
            let mut files = Vec::new(alloc);
            if files.reserve_exact(group.attributes.len()).is_err() {
                files.destroy_empty();
                return Err(Refusal::NoMemory);
            }
            let refused = begin_files(editor, dir, group.attributes, &mut files).err();
            Ok(GroupRemoval {
                directory: None,
                files,
                refused,
            })
        }
    }
}

impl<N: Naming> GroupRemoval<N> {
    /// Waits until no callback runs on the nodes that are being removed, and takes them out of the tree.
    ///
    /// Refusal: the one for which the removal of a file was not begun.
    ///
    /// Context: sleeps; takes the tree's lock, which the caller must not hold.
    pub fn finish<R: Wait>(self, rt: &R, tree: &SharedTree<N>) -> Result<(), Refusal>
        ensures told { result ≡ ended self.refused }
    {
        let GroupRemoval {
            directory,
            files,
            refused,
        } = self;
        if let Some(removing) = directory {
            release_all(removing.finish(rt, tree));
        }
        let mut rest = files.into_iter();
        while let Some(removing) = rest.next() {
            release_all(removing.finish(rt, tree));
        }
        rest.destroy_empty();
        match refused {
            Some(refusal) => Err(refusal),
            None => Ok(()),
        }
    }
}
