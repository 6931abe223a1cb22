//! A listener reads each activation, change, move and removal once, in order. A listener that is behind reads
//! how much it has lost.
ghost use Rattle.std.specs.Prelude.{◌≡◌};

use super::steps::{Step, walk};
use crate::fixtures::made;
use kf_core::{Key, Node, Refusal};
use kf_groups::{Attribute, Group};
use kf_notify::Posts;
use kf_shared::{Naming, NewTree};
use kf_uevents::{Action, Listener, UeventLog};
use std::alloc::Global;
use std::marker::Brand;
use std::process::Abort;
use std::sync::{RwLock, Wait};

const ROOT: Key = Key {
    slot: 0,
    generation: 1,
};

/// The directory `/d`, and its file `/d/a`.
const D: Key = Key {
    slot: 1,
    generation: 1,
};

const A: Key = Key {
    slot: 2,
    generation: 1,
};

/// The second directory in the slot of `D`.
const LATER_D: Key = Key {
    slot: 1,
    generation: 2,
};

/// The third directory in the slot of `D`.
const LAST_D: Key = Key {
    slot: 1,
    generation: 3,
};

const FILE: Node = Node::File {
    mode: 0o644,
    tag: 1,
};

static STEPS: [Step; 34] = [
    Step::Makes(ROOT, b"d", Node::Dir),
    Step::Makes(D, b"a", FILE),
    Step::Makes(D, b"b", FILE),
    Step::Nothing,
    Step::Activates(A),
    Step::Waits,
    Step::Event(Action::Add, b"/d/a", None),
    Step::Nothing,
    Step::Activates(D),
    Step::Activates(D),
    Step::Event(Action::Add, b"/d", None),
    Step::Waits,
    Step::Event(Action::Add, b"/d/b", None),
    Step::Nothing,
    Step::Changes(A, 1),
    Step::Event(Action::Change, b"/d/a", None),
    Step::Moves(A, ROOT, b"x"),
    Step::Moves(D, ROOT, b"e"),
    Step::Moves(A, D, b"y"),
    Step::Moves(A, D, b"y"),
    Step::Event(Action::Move, b"/x", Some(b"/d/a")),
    Step::Event(Action::Move, b"/e", Some(b"/d")),
    Step::Event(Action::Move, b"/e/y", Some(b"/x")),
    Step::Nothing,
    Step::Removes(D),
    Step::Event(Action::Remove, b"/e/b", None),
    Step::Event(Action::Remove, b"/e/y", None),
    Step::Event(Action::Remove, b"/e", None),
    Step::Nothing,
    // There is room for 16 events. Ten were added before.
    Step::Changes(ROOT, 300),
    Step::Waits,
    Step::Loss(294),
    Step::Waits,
    Step::Event(Action::Change, b"/", None),
];

const TEMP: Attribute<'static> = Attribute {
    name: b"temp",
    mode: 0o444,
    tag: 1,
};

const FAN: Attribute<'static> = Attribute {
    name: b"fan",
    mode: 0,
    tag: 2,
};

/// Groups that make four nodes, with the directory of their device. The group `fans` has no file, and so no
/// directory.
const GROUPS: [Group<'static>; 3] = [
    Group {
        name: None,
        attributes: &[TEMP, FAN],
    },
    Group {
        name: Some(b"fans"),
        attributes: &[FAN, FAN],
    },
    Group {
        name: Some(b"power"),
        attributes: &[TEMP],
    },
];

/// A device is reported once, and so is its removal, however often either is requested. A device that is
/// refused, because its name is taken or slots are lacking, is not reported and leaves nothing behind. There
/// are eight slots.
static DEVICES: [Step; 24] = [
    Step::Adds(ROOT, b"d", &GROUPS, None),
    Step::Waits,
    Step::Event(Action::Add, b"/d", None),
    Step::Nothing,
    Step::Adds(ROOT, b"d", &GROUPS, Some(Refusal::Exists)),
    Step::Adds(ROOT, b"e", &GROUPS, Some(Refusal::NoSpace)),
    Step::Adds(D, b"power", &[], Some(Refusal::Exists)),
    Step::ActivatesDevice(D),
    Step::Nothing,
    Step::Moves(D, ROOT, b"f"),
    Step::Event(Action::Move, b"/f", Some(b"/d")),
    Step::Unplugs(ROOT, Some(Refusal::Invalid)),
    Step::Unplugs(D, None),
    Step::Waits,
    Step::Event(Action::Remove, b"/f", None),
    Step::Nothing,
    Step::Unplugs(D, Some(Refusal::NoEntry)),
    Step::Adds(ROOT, b"f", &GROUPS, None),
    Step::Event(Action::Add, b"/f", None),
    Step::Unplugs(LATER_D, None),
    Step::Event(Action::Remove, b"/f", None),
    // If a directory was not activated, its removal is not reported.
    Step::Makes(ROOT, b"idle", Node::Dir),
    Step::Unplugs(LAST_D, None),
    Step::Nothing,
];

/// Takes these steps with a new tree and a list that keeps 16 events.
fn events<N: Naming, R: Abort + Wait>(
    rt: &R,
    alloc: Global,
    new: NewTree,
    steps: &[Step],
) -> Result<(), Refusal>
    requires { new.master.table ≡ N.table }
{
    let log = RwLock::new(UeventLog::new(alloc, 16)?);
    let mut posts = Posts::new(alloc, 1)?;
    let mut listener = Listener::new(posts.post(0)?, 0);
    walk(
        rt,
        &new.named::<N>(),
        &log,
        &mut listener,
        &mut posts,
        steps,
    );
    Ok(())
}

#[test]
fn events_are_read_in_order(rt: HostRuntime) -> Result<(), Refusal> {
    events::<Brand, _>(&rt, rt.alloc(), made(&rt, rt.alloc(), 12, 9), &STEPS)
}

#[test]
fn a_device_is_one_event(rt: HostRuntime) -> Result<(), Refusal> {
    events::<Brand, _>(&rt, rt.alloc(), made(&rt, rt.alloc(), 8, 9), &DEVICES)
}
