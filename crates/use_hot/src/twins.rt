//! Twins: an object is a directory that is not activated, with a live file for each thread. Each thread
//! enters and leaves its own file, so no thread writes what another one reads. One removal of the directory
//! removes and drains all the files. Threads enter the files through holds: no listing or path of a reader
//! leads to them.

ghost use Rattle.std.specs.Prelude.{◌≡◌};

use anyhow::Context;
use kf_core::{Key, Limits, Node, Refusal};
use kf_shared::{Naming, NewTree, SharedTree, release_all};
use std::alloc::Global;
use std::marker::Brand;
use std::sync::Wait;
use std::sync::atomic::{AtomicU64, Ordering};
use std::thread::{Threads, join};

/// One twin of the object.
const TWIN: Node = Node::File {
    mode: 0o444,
    tag: 1,
};

/// Creates the object, which is not activated, and its two live twins.
fn publish<N: Naming, R: Wait>(rt: &R, tree: &SharedTree<N>) -> Result<(Key, Key, Key), Refusal> {
    let mut editor = tree.edit(rt);
    let root = editor.state().root();
    let object = editor.create(root, b"object", Node::Dir, false)?;
    let first = editor.create(object, b"0", TWIN, true)?;
    let second = editor.create(object, b"1", TWIN, true)?;
    Ok((object, first, second))
}

/// Enters and leaves the thread's twin by a hold, until a try is refused. A callback would run inside.
fn call_until_refused<N: Naming, R: Wait>(
    rt: &R,
    tree: &SharedTree<N>,
    twin: Key,
    calls: &AtomicU64,
) -> Result<(), Refusal> {
    let mut hold = match tree.edit(rt).hold(twin) {
        Ok(hold) => hold,
        Err(why) => {
            calls.fetch_add(1, Ordering::SeqCst); // the remover waits for this
            return Err(why);
        }
    };
    for _ in rt.forever() {
        hold = match hold.enter() {
            Ok(call) => {
                calls.fetch_add(1, Ordering::SeqCst);
                call.leave()
            }
            Err(refused) => {
                refused.release();
                return Ok(());
            }
        };
    }
    unreachable!()
}

/// Waits until each of the two threads has been inside, or could not get a hold.
fn wait_for_both<R: Wait>(rt: &R, first: &AtomicU64, second: &AtomicU64) {
    for _ in rt.forever() {
        if first.load(Ordering::SeqCst) != 0 && second.load(Ordering::SeqCst) != 0 {
            return;
        }
    }
}

/// Removes the object with its twins. Returns how many nodes were removed.
fn remove_under_use<N: Naming, R: Wait>(
    rt: &R,
    tree: &SharedTree<N>,
    object: Key,
    first: &AtomicU64,
    second: &AtomicU64,
) -> Result<usize, Refusal> {
    wait_for_both(rt, first, second);
    let receipts = tree.edit(rt).remove_key(rt, object)?;
    let removed = receipts.len();
    release_all(receipts);
    Ok(removed)
}

/// Runs three threads: two call, and one removes.
fn remove_while_called<N: Naming + Send + Sync, R: Threads + Wait + Sync + Print>(
    rt: &R,
    tree: &SharedTree<N>,
) -> anyhow::Result<()> {
    let (object, first, second) = publish(rt, tree)?;
    let (one, two) = (AtomicU64::new(0), AtomicU64::new(0));
    let (done, (also, gone)) = join(
        rt,
        || call_until_refused(rt, tree, first, &one),
        || {
            join(
                rt,
                || call_until_refused(rt, tree, second, &two),
                || remove_under_use(rt, tree, object, &one, &two),
            )
        },
    );
    done?;
    also?;
    let gone = gone?;
    let both = one.load(Ordering::SeqCst) > 0 && two.load(Ordering::SeqCst) > 0;
    println!(rt; "{gone} nodes went, and both twins were called before: {both}")?;
    Ok(())
}

fn run<N: Naming + Send + Sync, R: Threads + Wait + Sync + Print>(
    rt: &R,
    new: NewTree,
) -> anyhow::Result<()>
    requires { new.master.table ≡ N.table }
{
    remove_while_called(rt, &new.named::<N>())
}

/// Makes the tree, and removes an object with two twins while it is in use.
pub(crate) fn start<R: Threads + Wait + Sync + Print>(rt: &R, alloc: Global) -> anyhow::Result<()> {
    let limits = Limits::new(16, 100).context("16 slots and 100 holds are within the limits")?;
    run::<Brand, _>(rt, SharedTree::<Brand>::new(alloc, limits)?)
}
