//! The first program: one thread calls into a file again and again, while another thread removes it.
#![tactic(auto)]

ghost use Rattle.std.specs.Prelude.{◌≡◌};

use anyhow::Context;
use kf_core::{Key, Limits, Node, Refusal};
use kf_shared::{Naming, NewTree, SharedTree, release_all};
use std::marker::Brand;
use std::sync::Wait;
use std::sync::atomic::{AtomicU64, Ordering};
use std::thread::{Threads, join};

/// Publishes the directory `/fan0` with the file `speed`, and returns the file's key.
fn publish<N: Naming, R: Wait>(rt: &R, tree: &SharedTree<N>) -> Result<Key, Refusal> {
    let mut editor = tree.edit(rt); // locks the tree until the editor is dropped
    let root = editor.state().root();
    let fan = editor.create(root, b"fan0", Node::Dir, false)?;
    let file = Node::File {
        mode: 0o444,
        tag: 1,
    };
    let speed = editor.create(fan, b"speed", file, false)?;
    editor.activate(fan)?; // both appear at once
    Ok(speed)
}

/// Calls into the file, until a call is refused because the file was removed.
fn call<N: Naming, R: Wait>(
    rt: &R,
    tree: &SharedTree<N>,
    file: Key,
    calls: &AtomicU64,
) -> Result<(), Refusal> {
    let mut hold = tree.edit(rt).hold(file)?;
    for _ in rt.forever() {
        hold = match hold.enter() {
            Ok(call) => {
                calls.fetch_add(1, Ordering::SeqCst); // here your callback runs, without a lock
                call.leave()
            }
            Err(refused) => return Ok(refused.release()),
        };
    }
    unreachable!()
}

/// Removes the fan while another thread calls its file. Returns how many calls ran after the removal: none.
fn run<N: Naming + Send + Sync, R: Threads + Wait + Sync>(
    rt: &R,
    new: NewTree,
) -> Result<u64, Refusal>
    requires { new.master.table ≡ N.table }
{
    let tree = new.named::<N>();
    let speed = publish(rt, &tree)?;
    let calls = AtomicU64::new(0);
    let (_, removed) = join(
        rt,
        || call(rt, &tree, speed, &calls),
        || -> Result<u64, Refusal> {
            let receipts = tree.edit(rt).remove_path(rt, b"/fan0")?; // unlocks, waits for the calls
            // Now no call runs, and none will ever start. Here you free what the calls used.
            let before = calls.load(Ordering::SeqCst);
            release_all(receipts);
            Ok(before)
        },
    );
    Ok(calls.load(Ordering::SeqCst).wrapping_sub(removed?))
}

fn main(rt: HostRuntime) -> anyhow::Result<()> {
    let limits = Limits::new(16, 100).context("16 slots and 100 holds are within the limits")?;
    let late = run::<Brand, _>(&rt, SharedTree::<Brand>::new(rt.alloc(), limits)?)?;
    println!(rt; "{late} calls ran after the removal")?;
    Ok(())
}
