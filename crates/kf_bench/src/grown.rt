//! What is measured: a tree of nested directories, with four files in the last of them. Lines of words and of
//! locks are there to compare it with.

ghost use Rattle.std.specs.Prelude.{◌≡◌, IfOk};

use crate::clock::now;
use crate::gates::Gate;
use kf_core::{Key, Node, Refusal};
use kf_shared::{Editor, Naming, SharedTree};
use kf_words::{Hold, Holds};
use std::alloc::Global;
use std::sync::atomic::AtomicU64;
use std::sync::{Arc, RwLock, Wait};
use std::time::{Clock, Instant};

/// Many more slots than nodes: the words of a small tree would lie among other memory, and share cache lines
/// with it.
pub(crate) const SLOTS: u32 = 8192;

/// The slot of a directory that is on no measured path.
pub(crate) const ASIDE: u32 = 2;

/// The slot of an empty directory.
pub(crate) const LEAF: u32 = 63;

/// A line is this many words and locks. Each slot has a line, as it has a cache line for its own words.
pub(crate) const LINE: u32 = 8;

/// The names of the nested directories. All directories are in the slots from 1 up.
const NAMES: [&[u8]; 8] = [
    b"devices", b"virtual", b"network", b"adapter", b"queues0", b"streams", b"monitor", b"current",
];

/// What the word of a node is compared with: a word and a lock.
#[derive(Drop)]
pub(crate) struct Plain {
    pub(crate) word: AtomicU64,
    pub(crate) lock: RwLock<u64>,
}

/// What a measurement uses: the tree, a line of words and of locks for each slot, a gate, and an object that
/// threads share by a reference count. It also has how many threads have come to a round, how many have not
/// ended it, whether the thread that changes the tree has ended, and the moment from which times are counted.
#[derive(Drop)]
pub(crate) struct Bench<N: Naming> {
    pub(crate) alloc: Global,
    pub(crate) tree: SharedTree<N>,
    pub(crate) plain: Vec<Plain>,
    pub(crate) gate: Gate,
    pub(crate) counted: Arc<AtomicU64>,
    pub(crate) come: AtomicU64,
    pub(crate) busy: AtomicU64,
    pub(crate) over: AtomicU64,
    pub(crate) origin: Instant,
}

/// Makes a directory of each name in this directory.
fn fill<N: Naming>(editor: &mut Editor<'_, N>, dir: Key) -> Result<(), Refusal> {
    for name in NAMES {
        editor.create(dir, name, Node::Dir, true)?;
    }
    Ok(())
}

/// Makes a directory of each name in the root, then in the first of these, then in the second of those, and
/// so on. The files go into the last directory of the last level.
fn grow<N: Naming, R: Wait>(rt: &R, tree: &SharedTree<N>) -> Result<(), Refusal> {
    let mut editor = tree.edit(rt);
    let mut dir = editor.state().root();
    for level in 0..8u32 {
        fill(&mut editor, dir)?;
        dir = key_in(9 * level + 1);
    }
    let file = Node::File {
        mode: 0o666,
        tag: 0,
    };
    for name in [b"a", b"b", b"c", b"d"] {
        editor.create(dir, name, file, true)?;
    }
    Ok(())
}

impl<N: Naming> Bench<N> {
    /// Sets up what is measured, in a new tree.
    pub(crate) fn new<R: Wait + Clock>(
        rt: &R,
        alloc: Global,
        tree: SharedTree<N>,
    ) -> Result<Bench<N>, Refusal> {
        grow(rt, &tree)?;
        let mut plain = Vec::new(alloc);
        for _ in 0..SLOTS * LINE {
            plain.push(Plain {
                word: AtomicU64::new(0),
                lock: RwLock::new(0),
            })?;
        }
        Ok(Bench {
            alloc,
            tree,
            plain,
            gate: Gate::new(alloc)?,
            counted: Arc::new(alloc, AtomicU64::new(0))?,
            come: AtomicU64::new(0),
            busy: AtomicU64::new(0),
            over: AtomicU64::new(0),
            origin: now(rt)?,
        })
    }
}

/// The key of the first node of a slot.
pub(crate) fn key_in(slot: u32) -> Key
    ensures slot { result.slot ≡ slot }
{
    Key {
        slot,
        generation: 1,
    }
}

/// The path of the file in a slot. For a slot that has none of these files, it is the path of the first of
/// them.
pub(crate) fn path_of(slot: u32) -> &'static [u8] {
    match slot {
        66 => b"/devices/virtual/network/adapter/queues0/streams/monitor/current/b",
        67 => b"/devices/virtual/network/adapter/queues0/streams/monitor/current/c",
        68 => b"/devices/virtual/network/adapter/queues0/streams/monitor/current/d",
        _ => b"/devices/virtual/network/adapter/queues0/streams/monitor/current/a",
    }
}

/// A hold of the first node of a slot.
pub(crate) fn hold_of<N: Naming, R: Wait>(
    rt: &R,
    tree: &SharedTree<N>,
    slot: u32,
) -> Result<Hold, Refusal>
    ensures table { IfOk result (λ hold. hold.table ≡ N.table) }
    ensures slot { IfOk result (λ hold. hold.key.slot ≡ slot) }
{
    let mut editor = tree.edit(rt);
    editor.hold(key_in(slot))
}

/// A maker of a tree's holds, made from a hold of the root.
pub(crate) fn maker<N: Naming, R: Wait>(
    rt: &R,
    alloc: Global,
    tree: &SharedTree<N>,
) -> Result<Holds, Refusal>
    ensures table { IfOk result (λ holds. holds.by.table ≡ N.table) }
{
    match Holds::new(alloc, hold_of(rt, tree, 0)?) {
        Ok(holds) => Ok(holds),
        Err((hold, refusal)) => {
            hold.release();
            Err(refusal)
        }
    }
}
