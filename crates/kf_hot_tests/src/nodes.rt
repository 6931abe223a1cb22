//! What each thread does in the tests of hot nodes.
ghost use Rattle.std.specs.Prelude.{◌≡◌, true};
ghost use Rattle.kf_core.specs.Phases.{has_reference};
ghost use Rattle.kf_core.specs.declared.caller.Phase.TheVariants as phase_of;

use kf_core::{Key, Node, Refusal};
use kf_gates::{Closed, Keeper, Pass};
use kf_hot::{close_gate, close_gates, open_gate, remove_gated};
use kf_shared::{Naming, SharedTree, release_all};
use kf_words::{Call, Hold};
use std::alloc::Global;
use std::process::Abort;
use std::sync::Wait;
use std::sync::atomic::{AtomicU64, Ordering};

/// The counters that the threads share.
#[derive(Drop)]
pub(crate) struct Counts {
    /// How often a gate was opened.
    pub(crate) opened: AtomicU64,
    /// How many callers have been inside, each counted once.
    pub(crate) inside: AtomicU64,
    /// Not 0 once the caller that stays inside may leave.
    pub(crate) released: AtomicU64,
    /// How many removals have returned.
    pub(crate) removed: AtomicU64,
    /// How many errors were found.
    pub(crate) wrong: AtomicU64,
}

pub(crate) fn no_counts() -> Counts {
    Counts {
        opened: AtomicU64::new(0),
        inside: AtomicU64::new(0),
        released: AtomicU64::new(0),
        removed: AtomicU64::new(0),
        wrong: AtomicU64::new(0),
    }
}

/// Waits until the count has reached this number. Returns false if that takes too long.
pub(crate) fn wait_for(count: &AtomicU64, wanted: u64) -> bool {
    for _ in 0..4_000_000_000u64 {
        if count.load(Ordering::SeqCst) >= wanted {
            return true;
        }
    }
    false
}

pub(crate) fn add(count: &AtomicU64) {
    count.fetch_add(1, Ordering::SeqCst);
}

pub(crate) fn add_if(wrong: bool, count: &AtomicU64) {
    if wrong {
        add(count);
    }
}

/// Creates a live node of this name in the root.
pub(crate) fn create_node<N: Naming, R: Abort + Wait>(
    rt: &R,
    tree: &SharedTree<N>,
    name: &[u8],
    node: Node,
) -> Key {
    let mut editor = tree.edit(rt);
    let root = editor.state().root();
    match editor.create(root, name, node, true) {
        Ok(key) => key,
        Err(_) => panic!(rt; "not created"),
    }
}

/// Creates a live directory of this name in the root.
pub(crate) fn create<N: Naming, R: Abort + Wait>(rt: &R, tree: &SharedTree<N>, name: &[u8]) -> Key {
    create_node(rt, tree, name, Node::Dir)
}

pub(crate) fn hold<N: Naming, R: Abort + Wait>(rt: &R, tree: &SharedTree<N>, key: Key) -> Hold
    ensures { result.table ≡ N.table }
{
    match tree.edit(rt).hold(key) {
        Ok(hold) => hold,
        Err(_) => panic!(rt; "no hold"),
    }
}

/// Opens the gate of a node.
pub(crate) fn opened<N: Naming, R: Abort + Wait>(
    rt: &R,
    tree: &SharedTree<N>,
    key: Key,
    closed: Closed,
) -> Keeper<Call>
    ensures running { result.kept.phase ≡ phase_of.Running }
    ensures gate { result.seat ≡ closed.seat }
{
    match open_gate(closed, hold(rt, tree, key)) {
        Ok(keeper) => keeper,
        Err((_, hold)) => {
            hold.release();
            panic!(rt; "a live node is not hot")
        }
    }
}

/// Goes in and out until the pass is refused. Once the removal has returned, the pass must not get in.
pub(crate) fn call<R: Wait>(rt: &R, mut pass: Pass, number: u64, counts: &Counts) {
    add_if(!wait_for(&counts.opened, number), &counts.wrong);
    let mut first = true;
    for _ in rt.forever() {
        let over = counts.removed.load(Ordering::SeqCst) >= number;
        pass = match pass.enter(number) {
            Ok(call) => {
                add_if(over, &counts.wrong);
                if first {
                    add(&counts.inside);
                    first = false;
                }
                call.leave()
            }
            Err(_) => return,
        };
    }
}

/// Stays inside until it may leave. No removal may return before that.
pub(crate) fn stay(pass: Pass, number: u64, counts: &Counts) {
    add_if(!wait_for(&counts.opened, number), &counts.wrong);
    match pass.enter(number) {
        Ok(call) => {
            add(&counts.inside);
            add_if(!wait_for(&counts.released, 1), &counts.wrong);
            add_if(counts.removed.load(Ordering::SeqCst) != 0, &counts.wrong);
            call.leave();
        }
        Err(_) => add(&counts.wrong),
    }
}

/// Opens the gate, waits until this number of callers have been inside, and removes the node. Returns the
/// closed gate.
pub(crate) fn remove<N: Naming, R: Abort + Wait>(
    rt: &R,
    alloc: Global,
    tree: &SharedTree<N>,
    key: Key,
    closed: Closed,
    callers: u64,
    counts: &Counts,
) -> Closed {
    let keeper = opened(rt, tree, key, closed);
    add(&counts.opened);
    add_if(!wait_for(&counts.inside, callers), &counts.wrong);
    remove_by_gate(rt, alloc, tree, key, keeper, counts)
}

/// Removes the node of an open gate by `remove_gated`. Returns the closed gate.
pub(crate) fn remove_by_gate<N: Naming, R: Abort + Wait>(
    rt: &R,
    alloc: Global,
    tree: &SharedTree<N>,
    key: Key,
    keeper: Keeper<Call>,
    counts: &Counts,
) -> Closed
    requires inside { has_reference keeper.kept.phase ≡ true }
{
    let hold = hold(rt, tree, key);
    let Ok(mut gates) = Vec::with_capacity(alloc, 1) else {
        hold.release();
        close_gate(rt, keeper).1.release();
        panic!(rt; "no memory")
    };
    gates.push_reserved(keeper);
    match remove_gated(rt, alloc, tree.edit(rt), hold, gates) {
        Ok((receipts, mut closed)) => {
            add(&counts.removed);
            add_if(receipts.len() != 1, &counts.wrong);
            release_all(receipts);
            match closed.pop() {
                Some(gate) => gate,
                None => panic!(rt; "no gate came back"),
            }
        }
        Err((hold, gates, _)) => {
            hold.release();
            close_gates(rt, gates);
            panic!(rt; "not removed")
        }
    }
}

/// Lets the caller that stays inside leave, once the node is doomed.
pub(crate) fn release_once_doomed<N: Naming, R: Wait>(
    rt: &R,
    tree: &SharedTree<N>,
    key: Key,
    counts: &Counts,
) {
    add_if(!is_doomed_soon(rt, tree, key), &counts.wrong);
    add_if(counts.removed.load(Ordering::SeqCst) != 0, &counts.wrong);
    add(&counts.released);
}

pub(crate) fn is_doomed_soon<N: Naming, R: Wait>(rt: &R, tree: &SharedTree<N>, key: Key) -> bool {
    for _ in 0..1_000_000_000u64 {
        match tree.read(rt).state().stat(key) {
            Ok(stat) => {
                if stat.doomed {
                    return true;
                }
            }
            Err(_) => return false,
        }
    }
    false
}

/// Removes a node as if it had no gate.
pub(crate) fn remove_plainly<N: Naming, R: Wait>(
    rt: &R,
    tree: &SharedTree<N>,
    key: Key,
    counts: &Counts,
) -> Result<usize, Refusal> {
    let removed = tree.edit(rt).remove_key(rt, key);
    add(&counts.removed);
    let receipts = removed?;
    let count = receipts.len();
    release_all(receipts);
    Ok(count)
}

/// Closes the gate once the node is doomed. The removal must wait for that, although nobody is inside.
pub(crate) fn close_once_doomed<N: Naming, R: Abort + Wait>(
    rt: &R,
    tree: &SharedTree<N>,
    key: Key,
    closed: Closed,
    counts: &Counts,
) {
    let keeper = opened(rt, tree, key, closed);
    add(&counts.opened);
    add_if(!is_doomed_soon(rt, tree, key), &counts.wrong);
    for _ in 0..100_000u64 {
        add_if(counts.removed.load(Ordering::SeqCst) != 0, &counts.wrong);
    }
    close_gate(rt, keeper).1.release();
}
