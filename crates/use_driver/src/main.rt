//! A hardware monitor, as a driver writes it: `/hwmon0` has the files of a temperature, and the group
//! `power`. One thread reads while another writes, until the device is removed under both.
#![tactic(auto)]

ghost use Rattle.std.specs.Prelude.{◌≡◌};

use anyhow::Context;
use kf_core::{Limits, Node, Refusal};
use kf_driver::{
    Driver, DriverTable, Opener, ReadOnly, Show, Signed, Switch, create_rows, emit_line, notify,
    rows,
};
use kf_files::{BoxedFile, Fault, FileError, Page, Want};
use kf_groups::attribute;
use kf_notify::Posts;
use kf_shared::{Naming, NewTree, SharedTree, release_all};
use kf_text::{Part, read_signed};
use std::alloc::Global;
use std::marker::Brand;
use std::sync::Wait;
use std::thread::{Threads, join};

/// A sensor with its register, in eighths of a degree.
#[derive(Clone, Copy)]
struct Sensor(u16);

impl Show for Sensor {
    fn show(&self, page: &mut Page) -> Result<(), Fault> {
        emit_line(page, Part::Number(u64::from(self.0) * 125));
        Ok(())
    }
}

/// Reads until the device is gone, and returns how many of the texts were not a temperature.
fn reads<N: Naming, T: DriverTable, R: Wait>(
    rt: &R,
    tree: &SharedTree<N>,
    driver: &Driver<T>,
    file: &mut BoxedFile<N>,
) -> u64 {
    let mut wrong = 0u64;
    let mut out = [0u8; 32];
    for _ in rt.forever() {
        match file.read(rt, tree, driver, 0, &mut out) {
            Ok(count) if read_signed(&out[..count], -50_000, 150_000).is_ok() => {}
            Err(FileError::Refused(_)) => break,
            _ => wrong = wrong.saturating_add(1),
        }
    }
    wrong
}

/// Writes a thousand times, removes the device while the other thread reads, and writes once more. Returns
/// whether every write succeeded except the last one.
fn removes<N: Naming, T: DriverTable, R: Wait>(
    rt: &R,
    tree: &SharedTree<N>,
    driver: &Driver<T>,
    file: &mut BoxedFile<N>,
) -> Result<bool, Refusal> {
    let mut taken = true;
    for _ in 0..1000 {
        taken &= matches!(file.write(rt, tree, driver, b"85000\n"), Ok(6));
    }
    release_all(tree.edit(rt).remove_path(rt, b"/hwmon0")?);
    Ok(taken && file.write(rt, tree, driver, b"1\n").is_err())
}

/// Reads a file in one thread and writes it in another, until its device is removed.
fn use_limit<N: Naming + Send + Sync, T: DriverTable + Sync, R: Threads + Wait + Sync>(
    rt: &R,
    tree: &SharedTree<N>,
    driver: &Driver<T>,
    opener: &mut Opener<N>,
) -> Result<(u64, bool), Refusal> {
    let mut read = opener.open(rt, tree, b"/hwmon0/temp1_max", Want::BOTH)?;
    let mut written = opener.open(rt, tree, b"/hwmon0/temp1_max", Want::BOTH)?;
    let (wrong, taken) = join(
        rt,
        || reads(rt, tree, driver, &mut read),
        || removes(rt, tree, driver, &mut written),
    );
    Ok((wrong, taken?))
}

/// Makes the device's files, which become live all at once. Raises the event number of one of them, and uses
/// that file.
fn run<N: Naming + Send + Sync, R: Threads + Wait + Print + Sync>(
    rt: &R,
    alloc: Global,
    new: NewTree,
) -> anyhow::Result<()>
    requires { new.master.table ≡ N.table }
{
    let tree = new.named::<N>();
    let limits = rows! {
        Row(attribute!(b"temp1_input", 0o444), ReadOnly(Sensor(328))),
        Row(attribute!(b"temp1_max", 0o644), Signed::new(90_000, -50_000, 150_000)),
    };
    let power = rows! { Row(attribute!(b"async", 0o644), Switch::new(true)) };
    let mut posts = Posts::new(alloc, 8)?;
    let mut editor = tree.edit(rt);
    let root = editor.state().root();
    let device = editor.create(root, b"hwmon0", Node::Dir, false)?;
    create_rows(&mut editor, device, None, &limits)?;
    create_rows(&mut editor, device, Some(b"power"), &power)?;
    editor.activate(device)?; // now all of it is live
    let numbers = posts.another()?;
    let mut opener = Opener::new(alloc, &mut editor, numbers)?;
    let (raised, _) = notify(editor.state(), &mut posts, device, b"temp1_max")?;
    drop(editor);
    let event = raised.ok().context("no event number is left")?;
    let (wrong, taken) = use_limit(rt, &tree, &Driver::new(limits), &mut opener)?;
    Ok(println!(rt; "event {event}, wrong texts: {wrong}, all taken until gone: {taken}")?)
}

fn main(rt: HostRuntime) -> anyhow::Result<()> {
    let limits = Limits::new(8, 100).context("8 slots and 100 holds are within the limits")?;
    let new = SharedTree::<Brand>::with_looks(rt.alloc(), limits, 0, 8)?;
    run::<Brand, _>(&rt, rt.alloc(), new)
}
