//! Four threads on one device: they read it, delete or unplug it, plug another device with its name, or look
//! at what is there.
ghost use Rattle.std.specs.Prelude.{◌≡◌};

use crate::device::delayed::{Delayed, new_delayed};
use crate::device::fixtures::{READ, WRITE, count_of, made, new_bus, opened, wait_for};
use crate::device::steps::{Step, shows, stores, take};
use kf_core::Refusal;
use kf_device::Bus;
use kf_files::FileError;
use kf_shared::{Naming, NewTree, SharedTree};
use std::alloc::Global;
use std::marker::Brand;
use std::process::Abort;
use std::sync::Wait;
use std::sync::atomic::Ordering;
use std::thread::{Threads, for_each_mut};

const VALUE: &[u8] = b"/devices/d0/value";

const DELETE: &[u8] = b"/devices/d0/delete";

/// How often a device is followed by a later one with its name.
const ROUNDS: u64 = 500;

/// What a thread does.
#[derive(Clone, Copy)]
enum Part {
    /// It reads the value of `d0`, with a show that stays inside until a removal has begun.
    Reads,
    /// It stores to `delete` of `d0`, with a store that goes on once another callback is inside.
    Deletes,
    /// It unplugs `d0` once a show is inside.
    Unplugs,
    /// Many times, it unplugs `d0` and plugs a second device with that name, while another thread deletes the
    /// first.
    Replugs,
    /// It deletes the first of each two devices, and no later one.
    DeletesFirst,
    /// Again and again, it plugs `d0`, reads the value that is there, and unplugs `d0`.
    Renews,
    /// It looks at what is there, again and again.
    Looks,
}

/// Crowds on a device that is there. Neither an unplug nor a `delete` returns before a show has ended. Two
/// stores to one `delete` meet in their callbacks. A `delete` does not remove a later device with the same
/// name. A device has its text as soon as it is plugged.
const CROWDS: [[Part; 4]; 5] = [
    [Part::Reads, Part::Unplugs, Part::Looks, Part::Looks],
    [Part::Reads, Part::Deletes, Part::Looks, Part::Looks],
    [Part::Deletes, Part::Deletes, Part::Looks, Part::Looks],
    [Part::Replugs, Part::DeletesFirst, Part::Looks, Part::Looks],
    [Part::Renews, Part::Renews, Part::Renews, Part::Renews],
];

// Whether the name has a live directory, a live link and a value, or none of them.
fn is_whole<N: Naming, R: Wait>(rt: &R, tree: &SharedTree<N>) -> bool {
    let editor = tree.edit(rt);
    let is_there = editor.state().lookup(b"/devices/d0").is_ok();
    is_there == editor.state().lookup(b"/bus/devices/d0").is_ok()
        && is_there == editor.state().lookup(VALUE).is_ok()
}

fn looks<N: Naming, R: Wait>(rt: &R, tree: &SharedTree<N>) -> bool {
    for _ in 0..1_000 {
        if !is_whole(rt, tree) {
            return false;
        }
    }
    true
}

// Whether the device that is there has its text. This is also true if no device is there, or if the device
// has gone by the time of the read.
fn has_text<N: Naming, R: Abort + Wait>(
    rt: &R,
    alloc: Global,
    tree: &SharedTree<N>,
    bus: &Bus<N>,
) -> bool {
    let Some(mut file) = opened(rt, alloc, tree, VALUE, READ) else {
        return true;
    };
    let told = file.read(rt, tree, bus, 0, &mut [0u8; 4]);
    told == Ok(2) || told == Err(FileError::Refused(Refusal::NoDevice))
}

fn renews<N: Naming, R: Abort + Wait>(
    rt: &R,
    alloc: Global,
    tree: &SharedTree<N>,
    bus: &Bus<N>,
) -> bool {
    for _ in 0..300 {
        let plugged = bus.plug(rt, tree, b"d0", b"on");
        let is_right = matches!(plugged, Ok(_) | Err(Refusal::Exists))
            && has_text(rt, alloc, tree, bus)
            && is_whole(rt, tree);
        let unplugged = bus.unplug(rt, tree, b"d0");
        if !is_right || !matches!(unplugged, Ok(()) | Err(Refusal::NoEntry)) {
            return false;
        }
    }
    true
}

// Unplugs the first device, and plugs a second one with its name once the first is gone.
fn replug<N: Naming, R: Wait>(rt: &R, tree: &SharedTree<N>, bus: &Bus<N>) {
    let _ = bus.unplug(rt, tree, b"d0");
    for _ in 0..1_000_000 {
        if bus.plug(rt, tree, b"d0", b"second").is_ok() {
            return;
        }
    }
}

// Whether each second device is still there, with its value and its link, once the store has returned.
fn replugs<N: Naming, R: Abort + Wait>(
    rt: &R,
    alloc: Global,
    tree: &SharedTree<N>,
    (bus, ops): (&Bus<N>, &Delayed<'_, N>),
) -> bool {
    for round in 1..=ROUNDS {
        ops.plugged.store(round, Ordering::SeqCst);
        wait_for(round, &ops.begun);
        replug(rt, tree, bus);
        wait_for(round, &ops.answered);
        let is_there = shows(rt, alloc, tree, bus, (VALUE, b"second")) && is_whole(rt, tree);
        let is_unplugged = bus.unplug(rt, tree, b"d0") == Ok(());
        if !is_there || !is_unplugged || bus.plug(rt, tree, b"d0", b"on").is_err() {
            return false;
        }
    }
    bus.unplug(rt, tree, b"d0") == Ok(())
}

// Opens `delete` of each first device, allows another thread to go on, and stores to the file.
fn deletes_first<N: Naming, R: Abort + Wait>(
    rt: &R,
    alloc: Global,
    tree: &SharedTree<N>,
    (bus, ops): (&Bus<N>, &Delayed<'_, N>),
) -> bool {
    for round in 1..=ROUNDS {
        wait_for(round, &ops.plugged);
        let file = opened(rt, alloc, tree, DELETE, WRITE);
        ops.begun.store(round, Ordering::SeqCst);
        let Some(mut file) = file else {
            return false;
        };
        let _ = file.write(rt, tree, bus, b"1");
        ops.answered.store(round, Ordering::SeqCst);
    }
    true
}

fn unplugs<N: Naming, R: Wait>(
    rt: &R,
    tree: &SharedTree<N>,
    bus: &Bus<N>,
    ops: &Delayed<'_, N>,
) -> bool {
    let is_inside = wait_for(1, &ops.begun);
    let is_unplugged = bus.unplug(rt, tree, b"d0") == Ok(());
    ops.answered.fetch_add(1, Ordering::SeqCst);
    is_inside && is_unplugged
}

fn deletes<N: Naming, R: Abort + Wait>(
    rt: &R,
    alloc: Global,
    tree: &SharedTree<N>,
    ops: &Delayed<'_, N>,
) -> bool {
    let told = stores(rt, alloc, tree, ops, (DELETE, b"1"));
    ops.answered.fetch_add(1, Ordering::SeqCst);
    told == Some(Ok(1))
}

fn takes_part<N: Naming, R: Abort + Wait>(
    rt: &R,
    alloc: Global,
    tree: &SharedTree<N>,
    (bus, ops): (&Bus<N>, &Delayed<'_, N>),
    part: Part,
) {
    let is_right = match part {
        Part::Reads => shows(rt, alloc, tree, ops, (VALUE, b"on")),
        Part::Deletes => deletes(rt, alloc, tree, ops),
        Part::Unplugs => unplugs(rt, tree, bus, ops),
        Part::Replugs => replugs(rt, alloc, tree, (bus, ops)),
        Part::DeletesFirst => deletes_first(rt, alloc, tree, (bus, ops)),
        Part::Renews => renews(rt, alloc, tree, bus),
        Part::Looks => looks(rt, tree),
    };
    assert!(rt; is_right);
}

const THERE: [Step; 1] = [Step::Plugs(b"d0", b"on", None)];

const GONE: [Step; 3] = [
    Step::Has(b"/devices", 0),
    Step::Has(b"/bus/devices", 0),
    Step::Keeps(0, 0),
];

fn meet<N: Naming + Send + Sync, R: Abort + Threads + Wait + Sync>(
    rt: &R,
    alloc: Global,
    tree: &SharedTree<N>,
    bus: &Bus<N>,
    mut parts: [Part; 4],
) {
    take(rt, alloc, tree, bus, &THERE);
    let ops = new_delayed(bus);
    for_each_mut(
        rt,
        &mut parts,
        4,
        &|_, part| takes_part(rt, alloc, tree, (bus, &ops), *part),
    );
    assert!(rt; count_of(&ops.early) == 0);
    take(rt, alloc, tree, bus, &GONE);
}

fn crowds_meet<N: Naming + Send + Sync, R: Abort + Threads + Wait + Sync>(
    rt: &R,
    alloc: Global,
    new: NewTree,
)
    requires { new.master.table ≡ N.table }
{
    let tree = new.named::<N>();
    let bus = new_bus(rt, alloc);
    for parts in CROWDS {
        meet(rt, alloc, &tree, &bus, parts);
    }
}

#[test]
fn threads_meet_on_one_device(rt: HostRuntime) {
    let new = made(&rt, rt.alloc(), 100);
    crowds_meet::<Brand, _>(&rt, rt.alloc(), new);
}
