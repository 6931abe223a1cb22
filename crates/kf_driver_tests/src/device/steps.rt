//! Steps with a bus. Each step is one call, and says what it must return.
ghost use Rattle.std.specs.Prelude.{◌≡◌};

use crate::device::fixtures::{BOTH, READ, WRITE, held, new_bus, opened, plants};
use kf_core::Refusal;
use kf_device::Bus;
use kf_files::{Fault, FileError, WaitOps};
use kf_shared::{Naming, NewTree, SharedTree, release_all};
use std::alloc::Global;
use std::process::Abort;
use std::sync::Wait;

#[derive(Clone, Copy)]
pub(crate) enum Step {
    /// A device with this name and value is plugged, or is refused for this reason.
    Plugs(&'static [u8], &'static [u8], Option<Refusal>),
    Unplugs(&'static [u8], Option<Refusal>),
    /// A read of the file at a path returns this text.
    Shows(&'static [u8], &'static [u8]),
    /// What a store of these bytes into the file at a path returns.
    Stores(&'static [u8], &'static [u8], Result<usize, FileError>),
    /// While the nodes at these two paths are held, a store to `delete` of `d0` fails, because a node has no
    /// room for another hold.
    Refuses(&'static [u8], &'static [u8]),
    /// How many live children a directory has.
    Has(&'static [u8], usize),
    /// The bus keeps texts of at least and at most this many devices.
    Keeps(usize, usize),
    /// The live node at a path is removed with all below it, without the bus.
    Removes(&'static [u8]),
    Compacts,
    /// A file with this tag that is not on the bus takes and shows nothing.
    IsUnknown(u64),
}

pub(crate) fn shows<N: Naming, R: Abort + Wait, W: WaitOps<N>>(
    rt: &R,
    alloc: Global,
    tree: &SharedTree<N>,
    ops: &W,
    (path, text): (&[u8], &[u8]),
) -> bool {
    let Some(mut file) = opened(rt, alloc, tree, path, READ) else {
        return false;
    };
    let mut out = [0u8; 64];
    match file.read(rt, tree, ops, 0, &mut out) {
        Ok(count) => &out[..count] == text,
        Err(_) => false,
    }
}

pub(crate) fn stores<N: Naming, R: Abort + Wait, W: WaitOps<N>>(
    rt: &R,
    alloc: Global,
    tree: &SharedTree<N>,
    ops: &W,
    (path, bytes): (&[u8], &[u8]),
) -> Option<Result<usize, FileError>> {
    let mut file = opened(rt, alloc, tree, path, WRITE)?;
    Some(file.write(rt, tree, ops, bytes))
}

fn refuses<N: Naming, R: Abort + Wait>(
    rt: &R,
    alloc: Global,
    tree: &SharedTree<N>,
    bus: &Bus<N>,
    (one, other): (&[u8], &[u8]),
) -> bool {
    let Some(one) = held(rt, tree, one) else {
        return false;
    };
    let other = held(rt, tree, other);
    let told = stores(rt, alloc, tree, bus, (b"/devices/d0/delete", b"1"));
    one.release();
    if let Some(other) = other {
        other.release();
    }
    told == Some(Err(FileError::Callback(Fault { number: 24 })))
}

fn has<N: Naming, R: Wait>(rt: &R, tree: &SharedTree<N>, path: &[u8], count: usize) -> bool {
    let editor = tree.edit(rt);
    let Ok(dir) = editor.state().lookup(path) else {
        return false;
    };
    match editor.state().list(dir, None, 100) {
        Ok(names) => names.len() == count,
        Err(_) => false,
    }
}

fn removes<N: Naming, R: Wait>(rt: &R, tree: &SharedTree<N>, path: &[u8]) -> bool {
    let Some(hold) = held(rt, tree, path) else {
        return false;
    };
    match tree.remove(rt, hold) {
        Ok(receipts) => {
            release_all(receipts);
            true
        }
        Err((hold, _)) => {
            hold.release();
            false
        }
    }
}

// This is a function because an editor within a longer expression would keep the lock.
fn compacts<N: Naming, R: Wait>(rt: &R, tree: &SharedTree<N>) -> bool {
    tree.edit(rt).compact() == Ok(())
}

fn is_unknown<N: Naming, R: Abort + Wait>(
    rt: &R,
    alloc: Global,
    tree: &SharedTree<N>,
    bus: &Bus<N>,
    tag: u64,
) -> bool {
    let is_planted = plants(rt, tree, b"odd", tag);
    let Some(mut file) = opened(rt, alloc, tree, b"/odd", BOTH) else {
        return false;
    };
    let unknown = Err(FileError::Callback(Fault { number: 22 }));
    let is_read = file.read(rt, tree, bus, 0, &mut [0u8; 9]) == unknown;
    let is_written = file.write(rt, tree, bus, b"x") == unknown;
    drop(file);
    is_planted && is_read && is_written && removes(rt, tree, b"/odd")
}

fn is_right<N: Naming, R: Abort + Wait>(
    rt: &R,
    alloc: Global,
    tree: &SharedTree<N>,
    bus: &Bus<N>,
    step: Step,
) -> bool {
    match step {
        Step::Plugs(name, value, told) => bus.plug(rt, tree, name, value).err() == told,
        Step::Unplugs(name, told) => bus.unplug(rt, tree, name).err() == told,
        Step::Shows(path, text) => shows(rt, alloc, tree, bus, (path, text)),
        Step::Stores(path, bytes, told) => {
            stores(rt, alloc, tree, bus, (path, bytes)) == Some(told)
        }
        Step::Refuses(one, other) => refuses(rt, alloc, tree, bus, (one, other)),
        Step::Has(path, count) => has(rt, tree, path, count),
        Step::Keeps(least, most) => {
            let kept = bus.kept(rt);
            least <= kept && kept <= most
        }
        Step::Removes(path) => removes(rt, tree, path),
        Step::Compacts => compacts(rt, tree),
        Step::IsUnknown(tag) => is_unknown(rt, alloc, tree, bus, tag),
    }
}

/// Takes the steps. The first step that returns something other than it must stops the test.
pub(crate) fn take<N: Naming, R: Abort + Wait>(
    rt: &R,
    alloc: Global,
    tree: &SharedTree<N>,
    bus: &Bus<N>,
    steps: &[Step],
) {
    let mut place = 0usize;
    for step in steps {
        if !is_right(rt, alloc, tree, bus, *step) {
            panic!(rt; "step {place}");
        }
        place = place.saturating_add(1);
    }
}

/// Takes these lists of steps on a new bus, each list as often as its number says.
pub(crate) fn walk<N: Naming, R: Abort + Wait>(
    rt: &R,
    alloc: Global,
    new: NewTree,
    lists: &[(u32, &'static [Step])],
)
    requires { new.master.table ≡ N.table }
{
    let tree = new.named::<N>();
    let bus = new_bus(rt, alloc);
    for (times, steps) in lists {
        for _ in 0..*times {
            take(rt, alloc, &tree, &bus, steps);
        }
    }
}
