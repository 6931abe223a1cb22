//! Steps with a tree whose changes are events, and with a listener that reads them.

use kf_core::{Key, Node, Refusal};
use kf_groups::Group;
use kf_notify::Posts;
use kf_shared::{Naming, SharedTree, release_all};
use kf_uevents::{
    Action, Listener, Reading, Uevent, UeventLog, activate_and_tell, activate_device, add_device,
    begin_removal_and_tell, remove_device, rename_and_tell, tell_change,
};
use std::process::Abort;
use std::sync::{RwLock, Wait};

#[derive(Clone, Copy)]
pub(crate) enum Step {
    /// A node with this name is made in the directory, and is not activated yet.
    Makes(Key, &'static [u8], Node),
    Activates(Key),
    /// This number of changes of one node is reported.
    Changes(Key, u32),
    /// The node is moved into the directory, under this name.
    Moves(Key, Key, &'static [u8]),
    Removes(Key),
    /// A device with this name is added in the directory, with these groups, or is refused for this reason.
    Adds(Key, &'static [u8], &'static [Group<'static>], Option<Refusal>),
    /// The device of this directory is activated.
    ActivatesDevice(Key),
    /// A device is removed, or its removal is refused for this reason.
    Unplugs(Key, Option<Refusal>),
    /// The listener sleeps until there is something to read.
    Waits,
    /// The listener reads an event with this action and this path and, for a move, with the path before it.
    Event(Action, &'static [u8], Option<&'static [u8]>),
    /// The listener reads that events were lost, and that it goes on at this number.
    Loss(u64),
    Nothing,
}

fn removes<N: Naming, R: Wait>(
    rt: &R,
    tree: &SharedTree<N>,
    log: &RwLock<UeventLog>,
    key: Key,
) -> Result<(), Refusal> {
    let mut editor = tree.edit(rt);
    let begun = begin_removal_and_tell(&mut editor, &mut *log.write(rt), key);
    drop(editor);
    release_all(begun?.finish(rt, tree));
    Ok(())
}

/// Removes a device. Returns the refusal if it is not removed.
fn unplugs<N: Naming, R: Wait>(
    rt: &R,
    tree: &SharedTree<N>,
    log: &RwLock<UeventLog>,
    posts: &mut Posts,
    key: Key,
) -> Option<Refusal> {
    match remove_device(tree.edit(rt), rt, log, posts, key) {
        Ok(receipts) => {
            release_all(receipts);
            None
        }
        Err(refusal) => Some(refusal),
    }
}

/// Takes one of the steps that are made under one lock of the tree. The list is locked under that lock.
fn makes<N: Naming, R: Wait>(
    rt: &R,
    tree: &SharedTree<N>,
    log: &RwLock<UeventLog>,
    step: Step,
) -> Result<(), Refusal> {
    let mut editor = tree.edit(rt);
    let mut guard = log.write(rt);
    let log = &mut *guard;
    match step {
        Step::Makes(dir, name, node) => {
            editor.create(dir, name, node, false)?;
        }
        Step::Activates(key) => activate_and_tell(&mut editor, log, key)?,
        Step::ActivatesDevice(key) => activate_device(&mut editor, log, key)?,
        Step::Adds(dir, name, groups, _) => {
            add_device(&mut editor, log, dir, name, groups)?;
        }
        Step::Changes(key, times) => {
            for _ in 0..times {
                tell_change(&editor, log, key)?;
            }
        }
        Step::Moves(key, dir, name) => rename_and_tell(&mut editor, log, key, dir, name)?,
        _ => {}
    }
    Ok(())
}

fn is_event(event: &Uevent, action: Action, path: &[u8], from: Option<&[u8]>) -> bool {
    let is_from = match (&event.from, from) {
        (Some(own), Some(from)) => own.as_slice() == from,
        (None, None) => true,
        _ => false,
    };
    event.action == action && event.path.as_slice() == path && is_from
}

/// Whether the listener reads what the step says.
fn reads(listener: &mut Listener, log: &UeventLog, step: Step) -> bool {
    match (listener.read(log), step) {
        (Reading::Next { event, then: _ }, Step::Event(action, path, from)) => {
            is_event(event, action, path, from)
        }
        (Reading::Lost { from }, Step::Loss(first)) => from == first,
        (Reading::NoneYet, Step::Nothing) => true,
        _ => false,
    }
}

fn is_right<N: Naming, R: Wait>(
    rt: &R,
    tree: &SharedTree<N>,
    log: &RwLock<UeventLog>,
    (listener, posts): (&mut Listener, &mut Posts),
    step: Step,
) -> bool {
    match step {
        Step::Waits => {
            drop(listener.wait(rt, log));
            true
        }
        Step::Removes(key) => removes(rt, tree, log, key).is_ok(),
        Step::Unplugs(key, why) => unplugs(rt, tree, log, posts, key) == why,
        Step::Adds(_, _, _, why) => makes(rt, tree, log, step).err() == why,
        Step::Event(..) | Step::Loss(_) | Step::Nothing => reads(listener, &*log.read(rt), step),
        _ => makes(rt, tree, log, step).is_ok(),
    }
}

/// Takes the steps. The first step that does not find what it must find stops the test.
pub(crate) fn walk<N: Naming, R: Abort + Wait>(
    rt: &R,
    tree: &SharedTree<N>,
    log: &RwLock<UeventLog>,
    listener: &mut Listener,
    posts: &mut Posts,
    steps: &[Step],
) {
    let mut place = 0usize;
    for step in steps {
        if !is_right(rt, tree, log, (&mut *listener, &mut *posts), *step) {
            panic!(rt; "step {place}");
        }
        place = place.saturating_add(1);
    }
}
