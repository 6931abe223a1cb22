//! A chip with eight lines, as a driver writes it. `/gpio0` has a directory for each line, with the switch
//! `value`, the number `debounce`, the text `label` and the binary attribute `config`. One thread waits for a
//! line's `value` to change, while another stores to it, until the chip is removed under both.
#![tactic(auto)]

ghost use Rattle.std.specs.Prelude.{◌≡◌};

use anyhow::Context;
use kf_core::{Limits, Node, Refusal};
use kf_driver::{
    Buffer, Driver, DriverTable, End, LineTags, Lines, Notifying, Number, Opener, ReadOnly, Switch,
    Text, post_of, rows,
};
use kf_files::{BoxedFile, FileError, Want, remove_and_tell};
use kf_groups::attribute;
use kf_notify::Posts;
use kf_shared::{Naming, NewTree, SharedTree, release_all};
use std::alloc::Global;
use std::marker::Brand;
use std::sync::Wait;
use std::thread::{Threads, join};

const NAMES: [&[u8]; 8] = [b"l0", b"l1", b"l2", b"l3", b"l4", b"l5", b"l6", b"l7"];

/// Waits for changes until the chip is gone, and returns whether each text was a level.
fn waits<N: Naming, T: DriverTable, R: Wait>(
    rt: &R,
    tree: &SharedTree<N>,
    driver: &Driver<T>,
    file: &mut BoxedFile<N>,
) -> bool {
    let mut right = true;
    let mut out = [0u8; 2];
    for _ in rt.forever() {
        file.wait_changed(rt); // sleeps without a reference, so no removal waits for it
        match file.read(rt, tree, driver, 0, &mut out) {
            Err(FileError::Refused(_)) => break,
            Ok(2) => right &= out == *b"0\n" || out == *b"1\n",
            _ => right = false,
        }
    }
    right
}

/// Stores a thousand levels and writes some registers. Then it removes the chip, which wakes the thread that
/// waits.
fn stores<N: Naming, T: DriverTable, R: Wait>(
    rt: &R,
    tree: &SharedTree<N>,
    driver: &Driver<T>,
    opener: &mut Opener<N>,
    posts: &mut Posts,
) -> Result<bool, Refusal> {
    let mut value = opener.open(rt, tree, b"/gpio0/l3/value", Want::BOTH)?; // without the lock
    let mut config = opener.open(rt, tree, b"/gpio0/l3/config", Want::BOTH)?;
    let mut right = true;
    for _ in 0..500u32 {
        right &= matches!(value.write(rt, tree, driver, b"1\n"), Ok(2));
        right &= matches!(value.write(rt, tree, driver, b"0\n"), Ok(2));
    }
    let mut out = [0u8; 8];
    right &= matches!(config.write_at(rt, tree, driver, 60, b"abcdef"), Ok(4));
    right &= matches!(config.read_at(rt, tree, driver, 58, &mut out), Ok(6));
    right &= out == *b"\0\0abcd\0\0";
    let editor = tree.edit(rt);
    let chip = editor.state().walk(b"/gpio0")?;
    release_all(remove_and_tell(editor, rt, posts, chip)?);
    Ok(right && value.write(rt, tree, driver, b"1\n").is_err())
}

/// Uses the fourth line in two threads until the chip is gone. Returns whether each text was a level, and
/// whether everything was stored.
fn uses<N: Naming + Send + Sync, T: DriverTable + Sync, R: Threads + Wait + Sync>(
    rt: &R,
    alloc: Global,
    tree: &SharedTree<N>,
    driver: &Driver<T>,
    posts: &mut Posts,
) -> Result<(bool, bool), Refusal> {
    let mut opener = Opener::new(alloc, &mut tree.edit(rt), posts.another()?)?;
    let mut watched = opener.open(rt, tree, b"/gpio0/l3/value", Want::BOTH)?;
    let (levels, stored) = join(
        rt,
        || waits(rt, tree, driver, &mut watched),
        || stores(rt, tree, driver, &mut opener, posts),
    );
    Ok((levels, stored?))
}

/// Makes the chip's files, which become live all at once, and uses them until the chip is gone.
fn run<N: Naming + Send + Sync, R: Threads + Wait + Print + Sync>(
    rt: &R,
    alloc: Global,
    new: NewTree,
) -> anyhow::Result<()>
    requires { new.master.table ≡ N.table }
{
    let tree = new.named::<N>();
    let mut posts = Posts::new(alloc, 64)?;
    let tags = LineTags::new(0, 4);
    let mut lines = Vec::new(alloc);
    let mut editor = tree.edit(rt);
    let root = editor.state().root();
    let chip = editor.create(root, b"gpio0", Node::Dir, false)?;
    for line in 0..8u32 {
        let name = NAMES[line as usize];
        let registers = vec![in alloc; 0; 64]?;
        let rows = rows! {
            Row(attribute!(b"value", 0o644), Notifying::new(rt, Switch::new(false))),
            Row(attribute!(b"debounce", 0o644), Number::new(5, 1000)),
            Row(attribute!(b"label", 0o444), ReadOnly(Text(name))),
            BinaryRow(attribute!(b"config", 0o644), 64, Buffer::new(rt, registers)),
        };
        let dir = tags.create_rows(&mut editor, chip, Some(name), line, &rows)?;
        let value = post_of(editor.state(), &mut posts, dir, b"value")?;
        rows.callbacks().notifier.set(value);
        lines.push(rows)?;
    }
    editor.activate(chip)?; // now all of it is live
    drop(editor);
    let driver = Driver::new(Lines::new(tags, lines.as_slice(), End));
    let (levels, stored) = uses(rt, alloc, &tree, &driver, &mut posts)?;
    Ok(println!(rt; "levels alone: {levels}, all stored until gone: {stored}")?)
}

fn main(rt: HostRuntime) -> anyhow::Result<()> {
    let limits = Limits::new(64, 100).context("64 slots and 100 holds are within the limits")?;
    let new = SharedTree::<Brand>::with_looks(rt.alloc(), limits, 0, 64)?;
    run::<Brand, _>(&rt, rt.alloc(), new)
}
