//! Removal among threads: a reader enters an attribute again and again until it is refused, while its
//! directory is removed. Once `remove_key` has returned, no reader is inside, and none gets in any more.

ghost use Rattle.std.specs.Prelude.{◌≡◌};

use anyhow::Context;
use kf_core::{Key, Limits, Node, Refusal};
use kf_shared::{Naming, NewTree, SharedTree, release_all};
use std::alloc::Global;
use std::marker::Brand;
use std::sync::Wait;
use std::sync::atomic::{AtomicU64, Ordering};
use std::thread::{Threads, join};

/// Creates the directory `/fan` with its attribute `speed`, both live.
fn publish<N: Naming, R: Wait>(rt: &R, tree: &SharedTree<N>) -> Result<(Key, Key), Refusal> {
    let mut editor = tree.edit(rt);
    let root = editor.state().root();
    let fan = editor.create(root, b"fan", Node::Dir, true)?;
    let speed = Node::File {
        mode: 0o444,
        tag: 1,
    };
    let speed = editor.create(fan, b"speed", speed, true)?;
    Ok((fan, speed))
}

/// Enters and leaves with a hold until it is refused. The driver's callback would run in between.
fn read_until_refused<N: Naming, R: Wait>(
    rt: &R,
    tree: &SharedTree<N>,
    file: Key,
    reads: &AtomicU64,
) -> Result<(), Refusal> {
    let mut hold = tree.edit(rt).hold(file)?;
    for _ in rt.forever() {
        hold = match hold.enter() {
            Ok(call) => {
                reads.fetch_add(1, Ordering::SeqCst);
                call.leave()
            }
            Err(refused) => {
                refused.release();
                return Ok(());
            }
        };
    }
    unreachable!()
}

/// Removes the directory once the reader has been inside. Returns how many nodes were removed.
fn remove_under_use<N: Naming, R: Wait>(
    rt: &R,
    tree: &SharedTree<N>,
    dir: Key,
    reads: &AtomicU64,
) -> Result<usize, Refusal> {
    while_unused(reads);
    let receipts = tree.edit(rt).remove_key(rt, dir)?;
    let count = receipts.len();
    release_all(receipts);
    Ok(count)
}

/// Waits until the reader has been inside; gives up after a while.
fn while_unused(reads: &AtomicU64) {
    for _ in 0..1_000_000_000u64 {
        if reads.load(Ordering::SeqCst) != 0 {
            return;
        }
    }
}

/// Reads in one thread and removes in another.
fn remove_while_read<N: Naming + Send + Sync, R: Threads + Wait + Sync + Print>(
    rt: &R,
    tree: &SharedTree<N>,
) -> anyhow::Result<()> {
    let (fan, speed) = publish(rt, tree)?;
    let reads = AtomicU64::new(0);
    let (read, gone) = join(
        rt,
        || read_until_refused(rt, tree, speed, &reads),
        || remove_under_use(rt, tree, fan, &reads),
    );
    read?;
    let gone = gone?;
    let was_read = reads.load(Ordering::SeqCst) > 0;
    println!(rt; "{gone} nodes went, and the attribute was read before: {was_read}")?;
    Ok(())
}

fn run<N: Naming + Send + Sync, R: Threads + Wait + Sync + Print>(
    rt: &R,
    new: NewTree,
) -> anyhow::Result<()>
    requires { new.master.table ≡ N.table }
{
    remove_while_read(rt, &new.named::<N>())
}

/// Makes a tree, and removes a directory in it while its file is in use.
pub(crate) fn start<R: Threads + Wait + Sync + Print>(rt: &R, alloc: Global) -> anyhow::Result<()> {
    let limits = Limits::new(16, 100).context("16 slots and 100 holds are within the limits")?;
    run::<Brand, _>(rt, SharedTree::<Brand>::new(alloc, limits)?)
}
