//! A hot node: threads go in and out through its gate, each in its own lane, while the node is removed.
//! When the removal returns, nobody is inside, and nobody can get in.

ghost use Rattle.std.specs.Prelude.{◌≡◌, IfOk};
ghost use Rattle.kf_core.specs.declared.caller.Phase.TheVariants as phase_of;

use anyhow::Context;
use kf_core::{Key, Limits, Node, Refusal};
use kf_gates::{Closed, Keeper, Pass};
use kf_hot::{close_gate, close_gates, open_gate, remove_gated};
use kf_shared::{Naming, NewTree, SharedTree, release_all};
use kf_words::Call;
use std::alloc::Global;
use std::marker::Brand;
use std::sync::Wait;
use std::sync::atomic::{AtomicU64, Ordering};
use std::thread::{Threads, join};

/// The number of a new gate's first opening.
const FIRST: u64 = 1;

/// What the threads share: whether the gate was opened (or could not be), and how often each thread was
/// inside.
#[derive(Drop)]
struct Counts {
    opened: AtomicU64,
    first: AtomicU64,
    second: AtomicU64,
}

/// Waits until the count is no longer 0.
fn wait_for<R: Wait>(rt: &R, count: &AtomicU64) {
    for _ in rt.forever() {
        if count.load(Ordering::SeqCst) != 0 {
            return;
        }
    }
}

/// Goes in and out by a pass until the pass is refused. In between, a callback would run.
fn call_until_refused<R: Wait>(rt: &R, mut pass: Pass, opened: &AtomicU64, calls: &AtomicU64) {
    wait_for(rt, opened);
    for _ in rt.forever() {
        pass = match pass.enter(FIRST) {
            Ok(call) => {
                calls.fetch_add(1, Ordering::SeqCst);
                call.leave()
            }
            Err(_) => return,
        };
    }
}

/// Makes the node hot.
fn make_hot<N: Naming, R: Wait>(
    rt: &R,
    tree: &SharedTree<N>,
    node: Key,
    closed: Closed,
) -> Result<Keeper<Call>, Refusal>
    ensures running { IfOk result (λ keeper. keeper.kept.phase ≡ phase_of.Running) }
{
    let hold = tree.edit(rt).hold(node)?;
    match open_gate(closed, hold) {
        Ok(keeper) => Ok(keeper),
        Err((_, hold)) => {
            hold.release();
            Err(Refusal::NoDevice)
        }
    }
}

/// Removes the node and closes its gate. Returns how many nodes were removed.
fn remove_hot<N: Naming, R: Wait>(
    rt: &R,
    alloc: Global,
    tree: &SharedTree<N>,
    node: Key,
    keeper: Keeper<Call>,
) -> Result<usize, Refusal>
    requires running { keeper.kept.phase ≡ phase_of.Running }
{
    let mut editor = tree.edit(rt);
    let hold = match editor.hold(node) {
        Ok(hold) => hold,
        Err(refusal) => {
            editor.let_go();
            close_gate(rt, keeper).1.release();
            return Err(refusal);
        }
    };
    let Ok(mut gates) = Vec::with_capacity(alloc, 1) else {
        editor.let_go();
        hold.release();
        close_gate(rt, keeper).1.release();
        return Err(Refusal::NoMemory);
    };
    gates.push_reserved(keeper);
    match remove_gated(rt, alloc, editor, hold, gates) {
        Ok((receipts, _)) => {
            let removed = receipts.len();
            release_all(receipts);
            Ok(removed)
        }
        Err((hold, gates, refusal)) => {
            hold.release();
            close_gates(rt, gates);
            Err(refusal)
        }
    }
}

/// Opens the gate, and removes the node once both threads have been inside.
fn remove_under_use<N: Naming, R: Wait>(
    rt: &R,
    alloc: Global,
    tree: &SharedTree<N>,
    node: Key,
    closed: Closed,
    counts: &Counts,
) -> Result<usize, Refusal> {
    let opened = make_hot(rt, tree, node, closed);
    counts.opened.fetch_add(1, Ordering::SeqCst);
    let keeper = opened?;
    wait_for(rt, &counts.first);
    wait_for(rt, &counts.second);
    remove_hot(rt, alloc, tree, node, keeper)
}

/// Runs three threads: two call, and one removes.
fn remove_while_called<N: Naming + Send + Sync, R: Threads + Wait + Sync + Print>(
    rt: &R,
    alloc: Global,
    tree: &SharedTree<N>,
) -> anyhow::Result<()> {
    let mut editor = tree.edit(rt);
    let root = editor.state().root();
    let node = editor.create(root, b"plugin", Node::Dir, true)?;
    editor.let_go();
    let (closed, mut first) = Closed::new(alloc, 2)?;
    let second = first.another(1)?;
    let counts = Counts {
        opened: AtomicU64::new(0),
        first: AtomicU64::new(0),
        second: AtomicU64::new(0),
    };
    let (_, (_, gone)) = join(
        rt,
        || call_until_refused(rt, first, &counts.opened, &counts.first),
        || {
            join(
                rt,
                || call_until_refused(rt, second, &counts.opened, &counts.second),
                || remove_under_use(rt, alloc, tree, node, closed, &counts),
            )
        },
    );
    let gone = gone?;
    let both = counts.first.load(Ordering::SeqCst) > 0 && counts.second.load(Ordering::SeqCst) > 0;
    println!(rt; "{gone} hot node went, and both threads were inside before: {both}")?;
    Ok(())
}

fn run<N: Naming + Send + Sync, R: Threads + Wait + Sync + Print>(
    rt: &R,
    alloc: Global,
    new: NewTree,
) -> anyhow::Result<()>
    requires { new.master.table ≡ N.table }
{
    remove_while_called(rt, alloc, &new.named::<N>())
}

/// Makes the tree, and removes a hot node while it is in use.
pub(crate) fn start<R: Threads + Wait + Sync + Print>(rt: &R, alloc: Global) -> anyhow::Result<()> {
    let limits = Limits::new(16, 100).context("16 slots and 100 holds are within the limits")?;
    run::<Brand, _>(rt, alloc, SharedTree::<Brand>::new(alloc, limits)?)
}
