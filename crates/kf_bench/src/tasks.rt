//! What the threads of a scene do, and how long each of their calls takes.

use crate::clock::{now, since};
use crate::files::{keep, visit_once};
use crate::gates::{remove_hot, use_hot};
use crate::growing::grow_and_remove;
use crate::grown::{ASIDE, Bench, key_in, path_of};
use crate::hist::Histogram;
use kf_core::{Key, Node, Refusal};
use kf_shared::{Naming, PathHolder, SharedTree, release_all};
use kf_words::Hold;
use std::alloc::Global;
use std::sync::Wait;
use std::sync::atomic::Ordering;
use std::thread;
use std::time::{Clock, Duration, Instant};

/// The slot of the file that is looked up and opened.
const FILE: u32 = 65;

/// The slot of the directory in which a file comes and goes. The path of that file is `BUSY_PATH`.
const BUSY_DIR: u32 = 4;

const BUSY_PATH: &[u8] = b"/adapter/busy";

const BUSY_FILE: Node = Node::File {
    mode: 0o666,
    tag: 0,
};

/// What one thread does.
#[derive(Clone, Copy, PartialEq, Eq)]
pub(crate) enum Task {
    /// Looks up a path without the lock, and under it if that fails.
    Look,
    /// Opens a file by its path, reads it and closes it.
    Open,
    /// Enters and leaves the file that comes and goes, for as long as it is there.
    Use,
    /// Renames a directory that is on no measured path.
    Rename,
    /// Creates a file that nobody uses, and removes it.
    Edit,
    /// Creates a file, and removes it a little later. Only the removal is measured.
    Remove,
    /// Goes through the gate of the hot file that comes and goes, for as long as it is open.
    UseHot,
    /// Like `Remove`, but removes a hot file together with its gate.
    RemoveHot,
    /// Makes 100,000 nodes under one lock, and removes them. Only the removal is measured.
    Grow,
}

impl Task {
    pub(crate) fn name(self) -> &'static str {
        match self {
            Task::Look => "look-up",
            Task::Open => "open, read, close",
            Task::Use => "use",
            Task::Rename => "rename",
            Task::Edit => "create and remove",
            Task::Remove => "removal",
            Task::UseHot => "use of a hot file",
            Task::RemoveHot => "removal of a hot file",
            Task::Grow => "removal of 100,000 nodes",
        }
    }

    /// How often the task is done, unless the thread that changes the tree ends first.
    pub(crate) fn turns(self) -> u32 {
        match self {
            Task::Look | Task::Open | Task::Use | Task::UseHot => 2_000_000,
            Task::Rename | Task::Edit => 50_000,
            Task::Remove | Task::RemoveHot => 1_000,
            Task::Grow => 1,
        }
    }

    fn changes_the_tree(self) -> bool {
        match self {
            Task::Look | Task::Open | Task::Use | Task::UseHot => false,
            _ => true,
        }
    }

    /// Whether the task is not measured, but is only there for another thread to meet.
    pub(crate) fn is_aside(self) -> bool {
        matches!(self, Task::Use | Task::UseHot)
    }
}

/// A thread: its task, how long each of its calls took, how many of these took the lock, and how it ended.
#[derive(Drop)]
pub(crate) struct Worker {
    pub(crate) task: Task,
    pub(crate) times: Histogram,
    pub(crate) locked: u64,
    pub(crate) result: Result<(), Refusal>,
}

impl Worker {
    pub(crate) fn new(alloc: Global, task: Task) -> Result<Worker, Refusal> {
        Ok(Worker {
            task,
            times: Histogram::new(alloc)?,
            locked: 0,
            result: Ok(()),
        })
    }

    /// Counts a call that began at this moment and ends now.
    pub(crate) fn count<R: Clock>(&mut self, rt: &R, begun: Instant) -> Result<(), Refusal> {
        let took = since(rt, begun)?;
        self.times.add(took.min(1_000_000_000_000) as u64);
        Ok(())
    }
}

/// Whether the thread that changes the tree has ended.
pub(crate) fn is_over<N: Naming>(bench: &Bench<N>) -> bool {
    bench.over.load(Ordering::SeqCst) != 0
}

fn look<N: Naming, R: Wait + Clock>(
    rt: &R,
    bench: &Bench<N>,
    worker: &mut Worker,
) -> Result<(), Refusal> {
    let mut looker = bench.tree.edit(rt).looker()?;
    let path = path_of(FILE);
    for _ in 0..worker.task.turns() {
        if is_over(bench) {
            break;
        }
        let begun = now(rt)?;
        if looker.look(path).is_none() {
            bench.tree.read(rt).state().lookup(path)?;
            worker.locked = worker.locked.saturating_add(1);
        }
        worker.count(rt, begun)?;
    }
    Ok(())
}

fn open_by<N: Naming, R: Wait + Clock>(
    rt: &R,
    bench: &Bench<N>,
    holder: &mut PathHolder<N>,
    worker: &mut Worker,
) -> Result<(), Refusal> {
    let mut kept = keep(bench.alloc, FILE)?;
    for _ in 0..worker.task.turns() {
        if is_over(bench) {
            break;
        }
        let begun = now(rt)?;
        let (next, locked) = visit_once(rt, &bench.tree, holder, false, FILE, kept)?;
        kept = next;
        worker.locked = worker.locked.saturating_add(locked as u64);
        worker.count(rt, begun)?;
    }
    Ok(())
}

fn open<N: Naming, R: Wait + Clock>(
    rt: &R,
    bench: &Bench<N>,
    worker: &mut Worker,
) -> Result<(), Refusal> {
    let mut holder = PathHolder::new(bench.alloc, &mut bench.tree.edit(rt))?;
    let result = open_by(rt, bench, &mut holder, worker);
    holder.end().release();
    result
}

/// Enters and leaves until a try is refused, and then releases the hold.
fn use_up(mut hold: Hold) {
    for _ in 0..u32::MAX {
        match hold.enter() {
            Ok(call) => hold = call.leave(),
            Err(refused) => {
                hold = refused;
                break;
            }
        }
    }
    hold.release();
}

fn use_each<N: Naming, R: Wait + Clock>(
    rt: &R,
    bench: &Bench<N>,
    worker: &Worker,
) -> Result<(), Refusal> {
    let mut holder = PathHolder::new(bench.alloc, &mut bench.tree.edit(rt))?;
    for _ in 0..worker.task.turns() {
        if is_over(bench) {
            break;
        }
        match holder.try_hold(BUSY_PATH) {
            Some(hold) => use_up(hold),
            None => thread::sleep(rt, Duration::from_micros(20)),
        }
    }
    holder.end().release();
    Ok(())
}

fn rename<N: Naming, R: Wait + Clock>(
    rt: &R,
    bench: &Bench<N>,
    worker: &mut Worker,
) -> Result<(), Refusal> {
    for _ in 0..worker.task.turns() {
        for name in [b"elsewhere".as_slice(), b"virtual".as_slice()] {
            let begun = now(rt)?;
            let mut editor = bench.tree.edit(rt);
            let root = editor.state().root();
            editor.rename(key_in(ASIDE), root, name)?;
            drop(editor);
            worker.count(rt, begun)?;
        }
    }
    Ok(())
}

/// Creates the file that comes and goes.
pub(crate) fn create<N: Naming, R: Wait>(rt: &R, tree: &SharedTree<N>) -> Result<Key, Refusal> {
    tree.edit(rt)
        .create(key_in(BUSY_DIR), b"busy", BUSY_FILE, true)
}

fn edit<N: Naming, R: Wait + Clock>(
    rt: &R,
    bench: &Bench<N>,
    worker: &mut Worker,
) -> Result<(), Refusal> {
    for _ in 0..worker.task.turns() {
        let begun = now(rt)?;
        let key = create(rt, &bench.tree)?;
        release_all(bench.tree.edit(rt).remove_key(rt, key)?);
        worker.count(rt, begun)?;
    }
    Ok(())
}

fn remove<N: Naming, R: Wait + Clock>(
    rt: &R,
    bench: &Bench<N>,
    worker: &mut Worker,
) -> Result<(), Refusal> {
    for _ in 0..worker.task.turns() {
        let key = create(rt, &bench.tree)?;
        thread::sleep(rt, Duration::from_micros(300));
        let begun = now(rt)?;
        release_all(bench.tree.edit(rt).remove_key(rt, key)?);
        worker.count(rt, begun)?;
    }
    Ok(())
}

fn grow<N: Naming, R: Wait + Clock>(
    rt: &R,
    bench: &Bench<N>,
    worker: &mut Worker,
) -> Result<(), Refusal> {
    for _ in 0..worker.task.turns() {
        let begun = grow_and_remove(rt, bench.alloc, &bench.tree, key_in(BUSY_DIR), 10_000)?;
        worker.count(rt, begun)?;
    }
    bench.tree.edit(rt).compact()
}

/// Does the task of a worker.
pub(crate) fn work<N: Naming, R: Wait + Clock>(rt: &R, bench: &Bench<N>, worker: &mut Worker) {
    worker.result = match worker.task {
        Task::Look => look(rt, bench, worker),
        Task::Open => open(rt, bench, worker),
        Task::Use => use_each(rt, bench, worker),
        Task::Rename => rename(rt, bench, worker),
        Task::Edit => edit(rt, bench, worker),
        Task::Remove => remove(rt, bench, worker),
        Task::UseHot => use_hot(rt, bench, worker),
        Task::RemoveHot => remove_hot(rt, bench, worker),
        Task::Grow => grow(rt, bench, worker),
    };
    if worker.task.changes_the_tree() {
        bench.over.store(1, Ordering::SeqCst);
    }
}
