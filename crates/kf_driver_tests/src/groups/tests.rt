//! Groups that are made in a directory below the root, taken back, and removed. The root has other groups
//! with the same names.
ghost use Rattle.std.specs.Prelude.{◌≡◌};

use super::steps::{Step, walk};
use crate::fixtures::made;
use kf_core::{Key, Refusal};
use kf_groups::{Attribute, Group};
use kf_shared::{Naming, NewTree};
use std::alloc::Global;
use std::marker::Brand;
use std::process::Abort;
use std::sync::Wait;

pub(crate) const ROOT: Key = Key {
    slot: 0,
    generation: 1,
};

/// The directory `/d`.
const D: Key = Key {
    slot: 1,
    generation: 1,
};

/// The file `/a`.
const FILE: Key = Key {
    slot: 5,
    generation: 1,
};

const A: Attribute<'static> = Attribute {
    name: b"a",
    mode: 0o444,
    tag: 1,
};

const B: Attribute<'static> = Attribute {
    name: b"b",
    mode: 0o644,
    tag: 2,
};

const C: Attribute<'static> = Attribute {
    name: b"c",
    mode: 0o644,
    tag: 3,
};

/// A group with the name of `/d`, which would make no directory.
const OF_D: Group<'static> = Group {
    name: Some(b"d"),
    attributes: &[],
};

pub(crate) const OWN: Group<'static> = Group {
    name: Some(b"g"),
    attributes: &[A, B],
};

pub(crate) const BARE: Group<'static> = Group {
    name: None,
    attributes: &[A, B],
};

/// A group that is not there at first.
const ABSENT: Group<'static> = Group {
    name: Some(b"h"),
    attributes: &[A, B],
};

/// A group of the same name, none of whose attributes has a file.
const HIDDEN: Group<'static> = Group {
    name: Some(b"h"),
    attributes: &[Attribute {
        name: b"a",
        mode: 0,
        tag: 1,
    }],
};

/// A group that needs one slot more than there are.
const THREE: Group<'static> = Group {
    name: None,
    attributes: &[A, B, C],
};

/// The root directory has a group of each kind. If slots are lacking, nothing that was made stays, however
/// often this is tried. So both groups have room in `/d` afterwards. The removal of a group ends at a file
/// that cannot be held. It skips what is not there, except for the directory of a group that is removed by
/// itself. A group without a file makes no directory. So a group of the same name has room beside it, and its
/// removal finds nothing.
static STEPS: [Step; 46] = [
    Step::Directory(ROOT, b"d"),
    Step::Make(ROOT, OWN, None),
    Step::Make(ROOT, BARE, None),
    Step::MakeAll(D, &[OWN, THREE], Some(Refusal::NoSpace)),
    Step::MakeAll(D, &[OWN, THREE], Some(Refusal::NoSpace)),
    Step::MakeAll(D, &[OWN, THREE], Some(Refusal::NoSpace)),
    Step::Free(b"/d/g"),
    Step::Make(D, OWN, None),
    Step::Make(D, THREE, Some(Refusal::NoSpace)),
    Step::Make(D, THREE, Some(Refusal::NoSpace)),
    Step::Make(D, THREE, Some(Refusal::NoSpace)),
    Step::Free(b"/d/a"),
    Step::Make(D, BARE, None),
    Step::At(b"/d/b", 11),
    Step::Held(b"/d/g/b", D, &[OWN, BARE]),
    Step::At(b"/d/g/a", 8),
    Step::At(b"/d/a", 10),
    Step::Held(b"/d/b", D, &[ABSENT, BARE, OWN]),
    Step::Free(b"/d/a"),
    Step::At(b"/d/b", 11),
    Step::At(b"/d/g/a", 8),
    Step::Remove(D, BARE, None),
    Step::Free(b"/d/b"),
    Step::Remove(D, BARE, None),
    Step::Remove(D, OWN, None),
    Step::Free(b"/d/g"),
    Step::Remove(D, OWN, Some(Refusal::NoEntry)),
    Step::MakeAll(D, &[OWN, BARE], None),
    Step::RemoveAll(D, &[ABSENT, BARE, OWN], None),
    Step::Free(b"/d/a"),
    Step::Free(b"/d/g"),
    Step::Make(D, HIDDEN, None),
    Step::Free(b"/d/h"),
    Step::Remove(D, HIDDEN, Some(Refusal::NoEntry)),
    Step::RemoveAll(D, &[HIDDEN], None),
    Step::Make(FILE, HIDDEN, Some(Refusal::NotDir)),
    Step::MakeAll(D, &[HIDDEN, ABSENT], None),
    Step::At(b"/d/h/a", 8),
    Step::RemoveAll(D, &[ABSENT], None),
    Step::Remove(FILE, OWN, Some(Refusal::NotDir)),
    Step::RemoveAll(FILE, &[ABSENT, BARE], Some(Refusal::NotDir)),
    Step::At(b"/b", 6),
    Step::At(b"/g/b", 4),
    Step::Remove(ROOT, OF_D, None),
    Step::Remove(D, OWN, Some(Refusal::NoEntry)),
    Step::Remove(D, BARE, None),
];

fn steps<N: Naming, R: Abort + Wait>(rt: &R, alloc: Global, new: NewTree)
    requires { new.master.table ≡ N.table }
{
    walk(rt, alloc, &new.named::<N>(), &STEPS);
}

#[test]
fn groups_are_made_and_removed(rt: HostRuntime) {
    steps::<Brand, _>(&rt, rt.alloc(), made(&rt, rt.alloc(), 12, 1));
}
