//! Two threads add and remove devices: each has its own device, and there is one whose name they share. A
//! listener reads as many adds as removes, and reads each remove after the add of the same directory.
ghost use Rattle.std.specs.Prelude.{◌≡◌};

use crate::fixtures::made;
use kf_core::{Key, Refusal};
use kf_groups::{Attribute, Group};
use kf_notify::Posts;
use kf_shared::{Naming, NewTree, SharedTree, release_all};
use kf_uevents::{
    Action, Listener, Reading, Uevent, UeventLog, add_device, notify_listeners, remove_device,
    tell_change,
};
use std::alloc::Global;
use std::marker::Brand;
use std::process::Abort;
use std::sync::{RwLock, Wait};
use std::thread::{Threads, join};

const ROOT: Key = Key {
    slot: 0,
    generation: 1,
};

/// The paths of all devices.
const DEVICES: [&[u8]; 3] = [b"/a", b"/b", b"/shared"];

/// How often each thread adds and removes its own device.
const ROUNDS: u64 = 1000;

const TEMP: Attribute<'static> = Attribute {
    name: b"temp",
    mode: 0o444,
    tag: 1,
};

const GROUPS: [Group<'static>; 2] = [
    Group {
        name: None,
        attributes: &[TEMP],
    },
    Group {
        name: Some(b"power"),
        attributes: &[TEMP],
    },
];

/// Adds a device, and wakes the listener. Returns whether the device was added, since its name may be taken.
fn adds<N: Naming, R: Wait>(
    rt: &R,
    tree: &SharedTree<N>,
    log: &RwLock<UeventLog>,
    posts: &mut Posts,
    name: &[u8],
) -> Result<bool, Refusal> {
    let mut editor = tree.edit(rt);
    let added = add_device(&mut editor, &mut *log.write(rt), ROOT, name, &GROUPS);
    drop(editor);
    notify_listeners(posts, ROOT);
    match added {
        Ok(_) => Ok(true),
        Err(Refusal::Exists) => Ok(false),
        Err(refusal) => Err(refusal),
    }
}

/// Removes the node with this name, if there is one, even if the other thread is already removing it.
fn removes<N: Naming, R: Wait>(
    rt: &R,
    tree: &SharedTree<N>,
    log: &RwLock<UeventLog>,
    posts: &mut Posts,
    name: &[u8],
) -> Result<(), Refusal> {
    let editor = tree.edit(rt);
    let found = editor.state().find(ROOT, name);
    if let Ok(key) = found {
        release_all(remove_device(editor, rt, log, posts, key)?);
    }
    Ok(())
}

/// Adds and removes the thread's own device and the shared one, in turn. Returns how many were added.
fn plugs<N: Naming, R: Wait>(
    rt: &R,
    tree: &SharedTree<N>,
    log: &RwLock<UeventLog>,
    posts: &mut Posts,
    own: &[u8],
) -> Result<u64, Refusal> {
    let mut added = 0u64;
    for _ in 0..ROUNDS {
        let is_own = adds(rt, tree, log, posts, own)?;
        let is_shared = adds(rt, tree, log, posts, b"shared")?;
        removes(rt, tree, log, posts, own)?;
        removes(rt, tree, log, posts, b"shared")?;
        added = added.saturating_add(u64::from(is_own));
        added = added.saturating_add(u64::from(is_shared));
    }
    Ok(added)
}

/// The directories that were reported as added and not yet as removed, and how many were added and removed.
#[derive(Drop)]
struct Seen {
    present: Vec<Key>,
    adds: u64,
    removes: u64,
    is_right: bool,
}

impl Seen {
    /// Takes note of an event. An add must be of a directory that is not present, and a remove of one that
    /// is.
    fn note(&mut self, event: &Uevent) {
        let is_device = DEVICES.iter().any(|path| *path == event.path.as_slice());
        let place = self.present.iter().position(|key| *key == event.key);
        match (event.action, place) {
            (Action::Add, None) => {
                self.adds = self.adds.saturating_add(1);
                self.is_right &= is_device && self.present.push(event.key).is_ok();
            }
            (Action::Remove, Some(place)) => {
                self.removes = self.removes.saturating_add(1);
                self.is_right &= is_device && place < self.present.len();
                if place < self.present.len() {
                    self.present.swap_remove(place);
                }
            }
            _ => self.is_right = false,
        }
    }
}

/// Reads until the root is reported as changed, which is the last event.
fn listens<R: Wait>(rt: &R, log: &RwLock<UeventLog>, listener: &mut Listener, seen: &mut Seen) {
    for _ in rt.forever() {
        let guard = listener.wait(rt, log);
        match listener.read(&*guard) {
            Reading::Next { event, then: _ } => {
                if event.action == Action::Change {
                    return;
                }
                seen.note(event);
            }
            Reading::Lost { from: _ } => seen.is_right = false,
            Reading::NoneYet => {}
        }
    }
}

/// Lets both threads add and remove devices, and then reports the change of the root. Returns how many
/// devices they added.
fn plugs_both<N: Naming + Send + Sync, R: Threads + Wait + Sync>(
    rt: &R,
    tree: &SharedTree<N>,
    log: &RwLock<UeventLog>,
    (posts, others): (&mut Posts, &mut Posts),
) -> Result<u64, Refusal> {
    let (first, second) = join(
        rt,
        || plugs(rt, tree, log, &mut *posts, b"a"),
        || plugs(rt, tree, log, others, b"b"),
    );
    let editor = tree.edit(rt);
    let last = tell_change(&editor, &mut *log.write(rt), ROOT);
    drop(editor);
    notify_listeners(posts, ROOT);
    last?;
    Ok(first?.saturating_add(second?))
}

fn balances<N: Naming + Send + Sync, R: Abort + Threads + Wait + Sync>(
    rt: &R,
    alloc: Global,
    new: NewTree,
) -> Result<(), Refusal>
    requires { new.master.table ≡ N.table }
{
    let tree = new.named::<N>();
    let log = RwLock::new(UeventLog::new(alloc, 10_000)?);
    let mut posts = Posts::new(alloc, 32)?;
    let mut others = posts.another()?;
    let mut listener = Listener::new(posts.post(0)?, 0);
    let mut seen = Seen {
        present: Vec::new(alloc),
        adds: 0,
        removes: 0,
        is_right: true,
    };
    let (_, added) = join(
        rt,
        || listens(rt, &log, &mut listener, &mut seen),
        || plugs_both(rt, &tree, &log, (&mut posts, &mut others)),
    );
    assert!(rt; seen.is_right && seen.present.is_empty());
    assert!(rt; added == Ok(seen.adds) && seen.adds == seen.removes && 2 * ROUNDS < seen.adds);
    Ok(())
}

#[test]
fn adds_and_removes_of_devices_are_equal_in_number(rt: HostRuntime) -> Result<(), Refusal> {
    balances::<Brand, _>(&rt, rt.alloc(), made(&rt, rt.alloc(), 32, 9))
}
