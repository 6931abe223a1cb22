//! Steps with groups. Each step is one call, and says what it must return.

use kf_core::{Key, Node, Refusal};
use kf_groups::{Group, create_group, create_groups, remove_group, remove_groups};
use kf_shared::{Naming, SharedTree};
use std::alloc::Global;
use std::process::Abort;
use std::sync::Wait;

#[derive(Clone, Copy)]
pub(crate) enum Step {
    /// A live directory of this name is made in the directory.
    Directory(Key, &'static [u8]),
    /// A group is made in the directory, or is refused for this reason.
    Make(Key, Group<'static>, Option<Refusal>),
    MakeAll(Key, &'static [Group<'static>], Option<Refusal>),
    Remove(Key, Group<'static>, Option<Refusal>),
    RemoveAll(Key, &'static [Group<'static>], Option<Refusal>),
    /// The removal of these groups is refused while the file at the path has the greatest number of holds.
    Held(&'static [u8], Key, &'static [Group<'static>]),
    /// The path leads to a live node with this slot.
    At(&'static [u8], u32),
    /// The path leads to no node, live or not.
    Free(&'static [u8]),
}

/// Whether the removal is refused while the file is held. The file may have only one hold.
fn is_refused<N: Naming, R: Wait>(
    rt: &R,
    alloc: Global,
    tree: &SharedTree<N>,
    path: &[u8],
    dir: Key,
    groups: &[Group],
) -> bool {
    let Ok(file) = tree.read(rt).state().lookup(path) else {
        return false;
    };
    let held = tree.edit(rt).hold(file);
    let Ok(hold) = held else {
        return false;
    };
    let told = remove_groups(rt, tree, alloc, dir, groups);
    hold.release();
    told == Err(Refusal::TooManyHolds)
}

fn is_right<N: Naming, R: Wait>(rt: &R, alloc: Global, tree: &SharedTree<N>, step: Step) -> bool {
    match step {
        Step::Directory(dir, name) => tree.edit(rt).create(dir, name, Node::Dir, true).is_ok(),
        Step::Make(dir, group, why) => {
            create_group(&mut tree.edit(rt), dir, &group).err() == why
        }
        Step::MakeAll(dir, groups, why) => {
            create_groups(&mut tree.edit(rt), dir, groups).err() == why
        }
        Step::Remove(dir, group, why) => remove_group(rt, tree, alloc, dir, &group).err() == why,
        Step::RemoveAll(dir, groups, why) => {
            remove_groups(rt, tree, alloc, dir, groups).err() == why
        }
        Step::Held(path, dir, groups) => is_refused(rt, alloc, tree, path, dir, groups),
        Step::At(path, slot) => {
            matches!(tree.read(rt).state().lookup(path), Ok(key) if key.slot == slot)
        }
        Step::Free(path) => tree.read(rt).state().walk(path).is_err(),
    }
}

/// Takes the steps. The first step that does not find what it must find stops the test.
pub(crate) fn walk<N: Naming, R: Abort + Wait>(
    rt: &R,
    alloc: Global,
    tree: &SharedTree<N>,
    steps: &[Step],
) {
    let mut place = 0usize;
    for step in steps {
        if !is_right(rt, alloc, tree, *step) {
            panic!(rt; "step {place}");
        }
        place = place.saturating_add(1);
    }
}
