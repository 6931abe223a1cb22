//! Removing groups, and why that is refused.
ghost use Rattle.std.specs.Prelude.{IfErr};
ghost use Rattle.kf_groups.specs.Removals.{EntryRefusal, NameRefusal, RemoveRefusal};

use crate::attribute::Group;
use crate::leaving::remove_group_in;
use kf_core::{Key, Refusal};
use kf_shared::{Naming, SharedTree};
use std::alloc::Global;
use std::sync::Wait;

// The same result, except that NoEntry becomes Ok: if the entry may be missing, there is nothing to remove.
fn or_away(removed: Result<(), Refusal>) -> Result<(), Refusal>
    requires refused { IfErr removed (λ refusal. NameRefusal refusal) }
    ensures refused { IfErr result (λ refusal. EntryRefusal refusal) }
{
    match removed {
        Err(Refusal::NoEntry) => Ok(()),
        Err(refusal) => Err(refusal),
        Ok(()) => Ok(()),
    }
}

/// Removes the entries of a directory that have a group's names (`sysfs_remove_group`): the group's own
/// directory with all in it, or each of its files that is there. They are all marked in one critical section,
/// by [`remove_group_in`]. Then it waits until no callback runs there.
///
/// Refusals, in order: NoEntry (`dir` is not linked; only for a group with a name), NotDir, NoEntry (the
/// group's own directory is not there, as is the case if no attribute had a file), then TooManyHolds or
/// NoMemory, whichever is met first. A file that is not there is skipped. The first refusal ends the removal:
/// the files before it are removed, and the others stay.
///
/// Context: sleeps; takes the tree's lock, which the caller must not hold.
pub fn remove_group<N: Naming, R: Wait>(
    rt: &R,
    tree: &SharedTree<N>,
    alloc: Global,
    dir: Key,
    group: &Group,
) -> Result<(), Refusal>
    ensures refused { IfErr result (λ refusal. RemoveRefusal group.now refusal) }
{
    let begun = remove_group_in(&mut tree.edit(rt), alloc, dir, group);
    begun?.finish(rt, tree)
}

/// Removes several groups of a directory, one after another, each as [`remove_group`] does
/// (`sysfs_remove_groups`). A group whose own directory is not there is skipped.
///
/// Refusals, of one group after another: NotDir, then TooManyHolds or NoMemory, whichever is met first. The
/// first refusal ends the removal: that group and those after it stay, except for the files of that group
/// that were removed before.
///
/// Context: sleeps; takes the tree's lock, which the caller must not hold.
pub fn remove_groups<N: Naming, R: Wait>(
    rt: &R,
    tree: &SharedTree<N>,
    alloc: Global,
    dir: Key,
    groups: &[Group],
) -> Result<(), Refusal>
    ensures refused { IfErr result (λ refusal. EntryRefusal refusal) }
{
    for group in groups {
        or_away(remove_group(rt, tree, alloc, dir, group))?;
    }
    Ok(())
}
