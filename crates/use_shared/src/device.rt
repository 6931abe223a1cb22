//! Devices on a bus: two are plugged in; one is unplugged by its name, and the other through its own
//! attribute `delete`.

ghost use Rattle.std.specs.Prelude.{◌≡◌};

use anyhow::Context;
use kf_core::{Key, Limits, Refusal};
use kf_device::Bus;
use kf_files::{PageApart, WaitingFile, Want};
use kf_notify::Posts;
use kf_shared::{Naming, NewTree, SharedTree};
use std::alloc::Global;
use std::marker::Brand;
use std::sync::Wait;

const SLOTS: u32 = 32;

/// Prints the names in a directory.
fn print_names<N: Naming, R: Wait + Print>(
    rt: &R,
    tree: &SharedTree<N>,
    path: &str,
) -> anyhow::Result<()> {
    let reader = tree.read(rt);
    let dir = reader.state().lookup(path.as_bytes())?;
    let names = reader.state().list(dir, None, 100)?;
    drop(reader);
    println!(rt; "{} in {path}", names.len())?;
    for name in names {
        rt.write_all(b"  ")?;
        rt.write_all(name.bytes())?;
        rt.write_all(b"\n")?;
    }
    Ok(())
}

/// Writes `1` to the `delete` file of a device. The callback of this file removes the device.
fn delete<N: Naming, R: Wait>(
    rt: &R,
    alloc: Global,
    posts: &mut Posts,
    tree: &SharedTree<N>,
    bus: &Bus<N>,
    path: &[u8],
) -> Result<usize, Refusal>
    requires { posts.old.slots ≡ 32 }
{
    let page = Box::new(alloc, PageApart::new())?;
    let mut editor = tree.edit(rt);
    let key: Key = editor.state().lookup(path)?;
    // only this many slots have event numbers
    if key.slot >= SLOTS {
        return Err(Refusal::NoSpace);
    }
    let hold = editor.hold(key)?;
    drop(editor);
    let node = hold.node();
    let post = match posts.post(key.slot) {
        Ok(post) => post,
        Err(refusal) => {
            hold.release();
            return Err(refusal);
        }
    };
    let mut file = match WaitingFile::<N, _>::open_on(hold, node, Want::WRITE, post, page) {
        Ok(file) => file,
        Err((hold, _, _, refusal)) => {
            hold.release();
            return Err(refusal);
        }
    };
    let taken = file.write(rt, tree, bus, b"1");
    let (hold, _, _) = file.into_parts();
    hold.release();
    taken.ok().ok_or(Refusal::NoDevice)
}

/// Plugs in two devices, and removes one by its name and one through its file.
fn use_bus<N: Naming, R: Wait + Print>(
    rt: &R,
    alloc: Global,
    tree: &SharedTree<N>,
    bus: &Bus<N>,
    posts: &mut Posts,
) -> anyhow::Result<()>
    requires { posts.old.slots ≡ 32 }
{
    bus.plug(rt, tree, b"fan0", b"on")?;
    bus.plug(rt, tree, b"fan1", b"off")?;
    print_names(rt, tree, "/bus/devices")?;
    print_names(rt, tree, "/devices/fan0")?;
    bus.unplug(rt, tree, b"fan0")?;
    print_names(rt, tree, "/devices")?;
    let taken = delete(rt, alloc, posts, tree, bus, b"/devices/fan1/delete")?;
    println!(rt; "a store of {taken} byte deleted fan1")?;
    print_names(rt, tree, "/devices")
}

fn run<N: Naming, R: Wait + Print>(rt: &R, alloc: Global, new: NewTree) -> anyhow::Result<()>
    requires { new.master.table ≡ N.table }
{
    let tree = new.named::<N>();
    let bus = Bus::new(alloc)?;
    let mut posts = Posts::new(alloc, SLOTS)?;
    use_bus(rt, alloc, &tree, &bus, &mut posts)
}

/// Makes a tree, and a bus in it.
pub(crate) fn start<R: Wait + Print>(rt: &R, alloc: Global) -> anyhow::Result<()> {
    let limits = Limits::new(SLOTS, 100).context("32 slots and 100 holds are within the limits")?;
    run::<Brand, _>(rt, alloc, SharedTree::<Brand>::new(alloc, limits)?)
}
