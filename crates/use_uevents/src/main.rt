//! Devices whose changes are reported as uevents. One thread adds a bus and two fan controllers, reports a
//! change of one, renames the other, and removes them all. Another thread sleeps until there are uevents, and
//! prints each of them.
#![tactic(auto)]

ghost use Rattle.std.specs.Prelude.{◌≡◌};

use anyhow::Context;
use kf_core::{Key, Limits, Refusal};
use kf_groups::{Attribute, Group};
use kf_notify::Posts;
use kf_shared::{Naming, NewTree, SharedTree, release_all};
use kf_uevents::{
    Action, Listener, Reading, Uevent, UeventLog, add_device, notify_listeners, remove_device,
    rename_and_tell, tell_change,
};
use std::alloc::Global;
use std::marker::Brand;
use std::sync::{RwLock, Wait};
use std::thread::{Threads, join};

const SPEED: Attribute<'static> = Attribute {
    name: b"fan1_input",
    mode: 0o444,
    tag: 1,
};

const GROUPS: [Group<'static>; 1] = [Group {
    name: Some(b"fans"),
    attributes: &[SPEED],
}];

fn text_of(path: &[u8]) -> anyhow::Result<&str> {
    str::from_utf8(path).ok().context("the names are text")
}

/// Prints what happened to which device and, after a move, the path that the device had before.
fn print<R: Print>(rt: &R, event: &Uevent) -> anyhow::Result<()> {
    let action = event.action;
    let path = text_of(&event.path)?;
    match &event.from {
        Some(from) => println!(rt; "{action} {path}, which was {}", text_of(from)?)?,
        None => println!(rt; "{action} {path}")?,
    }
    Ok(())
}

/// Prints each event until the bus is removed.
fn listens<R: Wait + Print>(
    rt: &R,
    log: &RwLock<UeventLog>,
    listener: &mut Listener,
) -> anyhow::Result<()> {
    for _ in rt.forever() {
        let list = listener.wait(rt, log); // sleeps without a lock, and returns the list locked
        if let Reading::Next { event, then: _ } = listener.read(&*list) {
            print(rt, event)?;
            if event.action == Action::Remove && event.path.as_slice() == b"/bus".as_slice() {
                return Ok(());
            }
        }
    }
    unreachable!()
}

/// Adds a device in a directory, and wakes the listener.
fn adds<N: Naming, R: Wait>(
    rt: &R,
    (tree, log): (&SharedTree<N>, &RwLock<UeventLog>),
    posts: &mut Posts,
    dir: Key,
    name: &[u8],
    groups: &[Group],
) -> Result<Key, Refusal> {
    let mut editor = tree.edit(rt);
    let root = editor.state().root();
    let key = add_device(&mut editor, &mut *log.write(rt), dir, name, groups);
    drop(editor);
    notify_listeners(posts, root);
    key
}

/// Adds the bus and its devices, reports a change of one, renames the other, and removes them all, the bus
/// last.
fn plugs<N: Naming, R: Wait>(
    rt: &R,
    tree: &SharedTree<N>,
    log: &RwLock<UeventLog>,
    posts: &mut Posts,
) -> Result<(), Refusal> {
    let root = tree.read(rt).state().root();
    let bus = adds(rt, (tree, log), posts, root, b"bus", &[])?;
    let first = adds(rt, (tree, log), posts, bus, b"fans0", &GROUPS)?;
    let second = adds(rt, (tree, log), posts, bus, b"fans1", &GROUPS)?;
    let mut editor = tree.edit(rt);
    tell_change(&editor, &mut *log.write(rt), first)?;
    rename_and_tell(&mut editor, &mut *log.write(rt), second, bus, b"fans2")?;
    drop(editor);
    for key in [second, first, bus] {
        release_all(remove_device(tree.edit(rt), rt, log, posts, key)?);
    }
    Ok(())
}

fn run<N: Naming + Send + Sync, R: Threads + Wait + Print + Sync>(
    rt: &R,
    alloc: Global,
    new: NewTree,
) -> anyhow::Result<()>
    requires { new.master.table ≡ N.table }
{
    let tree = new.named::<N>();
    let log = RwLock::new(UeventLog::new(alloc, 64)?);
    let mut posts = Posts::new(alloc, 16)?;
    let mut listener = Listener::new(posts.post(0)?, 0); // the root has slot 0
    let (printed, plugged) = join(
        rt,
        || listens(rt, &log, &mut listener),
        || plugs(rt, &tree, &log, &mut posts),
    );
    printed?;
    Ok(plugged?)
}

fn main(rt: HostRuntime) -> anyhow::Result<()> {
    let limits = Limits::new(16, 100).context("16 slots and 100 holds are within the limits")?;
    run::<Brand, _>(&rt, rt.alloc(), SharedTree::new(rt.alloc(), limits)?)
}
