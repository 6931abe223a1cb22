//! Two threads read a hot file, each by its own pass, while the owner of the gate removes the node.
ghost use Rattle.std.specs.Prelude.{◌≡◌};

use crate::files::{FILE, GONE, opened_by, post_at, posts_of};
use crate::gates::{another, gate};
use crate::nodes::{
    Counts, add, add_if, create_node, is_doomed_soon, no_counts, opened, remove_by_gate, wait_for,
};
use crate::passes::refused;
use crate::tests::made;
use kf_core::Key;
use kf_files::{Fault, FileError, OpenFile, Ops, Page};
use kf_hot::{HotCall, HotPass, HotPasses};
use kf_notify::Posts;
use kf_shared::{Naming, NewTree, SharedTree};
use std::alloc::Global;
use std::marker::Brand;
use std::process::Abort;
use std::sync::atomic::{AtomicU64, Ordering};
use std::sync::{Mutex, Wait};
use std::thread::{Threads, join};

/// How many files are read and removed, one after the other.
const LIVES: u64 = 100;

/// What the threads share during one file's life.
#[derive(Drop)]
struct Life {
    /// The node of the file.
    key: Key,
    counts: Counts,
    /// How many shows are running.
    shows: AtomicU64,
    /// The file that was opened for each reader, until the reader takes it.
    one: Mutex<Option<OpenFile<HotPasses>>>,
    two: Mutex<Option<OpenFile<HotPasses>>>,
}

/// The callbacks of one thread. Its first show can stay inside until the node is doomed.
#[derive(Drop)]
struct Shows<'a, N: Naming, R: Wait> {
    rt: &'a R,
    tree: &'a SharedTree<N>,
    life: &'a Life,
    stays: bool,
    is_first: bool,
}

impl<'a, N: Naming, R: Wait> Shows<'a, N, R> {
    /// Counts the first show. If `stays` is set, it stays in this show until the node is doomed, and a little
    /// longer.
    fn first(&self) {
        let counts = &self.life.counts;
        add(&counts.inside);
        if self.stays {
            add_if(
                !is_doomed_soon(self.rt, self.tree, self.life.key),
                &counts.wrong,
            );
            for _ in 0..10_000u64 {
                add_if(is_removed(self.life), &counts.wrong);
            }
        }
    }
}

fn is_removed(life: &Life) -> bool {
    life.counts.removed.load(Ordering::SeqCst) != 0
}

impl<'a, N: Naming, R: Wait> Ops<HotCall> for Shows<'a, N, R> {
    ghost shows = { λ _ _ _ _. Unit {0} };

    ghost stores = { λ _ _ _ _ _. Unit {0} };

    // No removal may return while the show runs.
    fn show(&mut self, _call: &mut HotCall, _tag: u64, page: &mut Page) -> Result<(), Fault> {
        self.life.shows.fetch_add(1, Ordering::SeqCst);
        add_if(is_removed(self.life), &self.life.counts.wrong);
        let _ = page.try_extend_from_slice(b"hot");
        if self.is_first {
            self.is_first = false;
            self.first();
        }
        add_if(is_removed(self.life), &self.life.counts.wrong);
        self.life.shows.fetch_sub(1, Ordering::SeqCst);
        Ok(())
    }

    fn store(&mut self, _call: &mut HotCall, _tag: u64, bytes: &[u8]) -> Result<usize, Fault> {
        add(&self.life.counts.wrong);
        Ok(bytes.len())
    }
}

/// Reads the file again and again, and once more after the removal has returned. Returns the result of that
/// last read. Once a read was refused, each later read must be refused too.
fn read_until_removed<N: Naming, R: Wait>(
    rt: &R,
    ops: &mut Shows<'_, N, R>,
    file: &mut OpenFile<HotPasses>,
) -> Result<usize, FileError> {
    let life = ops.life;
    let mut out = [0u8; 4];
    let mut last = Ok(0);
    for _ in rt.forever() {
        let is_over = is_removed(life);
        let was_refused = last.is_err();
        last = file.read(&mut HotPasses, ops, 0, &mut out);
        match last {
            Ok(count) => add_if(
                was_refused || count != 3 || out != *b"hot\0",
                &life.counts.wrong,
            ),
            Err(why) => add_if(why != GONE, &life.counts.wrong),
        }
        if is_over {
            break;
        }
    }
    last
}

/// Waits until the file of one reader has been opened, and takes it.
fn taken<R: Abort + Wait>(
    rt: &R,
    opened: &AtomicU64,
    file: &Mutex<Option<OpenFile<HotPasses>>>,
) -> OpenFile<HotPasses> {
    assert!(rt; wait_for(opened, 1));
    match file.lock(rt).take() {
        Some(file) => file,
        None => panic!(rt; "no file"),
    }
}

/// Reads the file until its node has been removed. Then each call on the file is refused, and so is its pass.
fn reads_to_the_end<N: Naming, R: Abort + Wait>(
    rt: &R,
    tree: &SharedTree<N>,
    life: &Life,
    file: &Mutex<Option<OpenFile<HotPasses>>>,
    stays: bool,
) {
    let mut file = taken(rt, &life.counts.opened, file);
    let mut ops = Shows {
        rt,
        tree,
        life,
        stays,
        is_first: true,
    };
    assert!(rt; read_until_removed(rt, &mut ops, &mut file) == Err(GONE));
    assert!(rt; file.write(&mut HotPasses, &mut ops, b"x") == Err(GONE));
    assert!(rt; file.poll(&mut HotPasses));
    let (pass, mut post) = file.close();
    assert!(rt; post.now() == 1);
    refused(rt, &mut HotPasses, pass);
}

/// Makes the node hot, and opens the file by a pass for each reader. Once a show of each reader has begun, it
/// removes the node through its gate. From then on no show may run.
fn opens_and_removes<N: Naming, R: Abort + Wait>(
    rt: &R,
    alloc: Global,
    tree: &SharedTree<N>,
    posts: &mut Posts,
    life: &Life,
) {
    let (closed, mut first) = gate(rt, alloc, 2);
    let second = another(rt, &mut first, 1);
    let keeper = opened(rt, tree, life.key, closed);
    let post = post_at(rt, posts, life.key.slot);
    *life.one.lock(rt) = Some(opened_by(rt, HotPass::new(&keeper, first), post));
    let post = post_at(rt, posts, life.key.slot);
    *life.two.lock(rt) = Some(opened_by(rt, HotPass::new(&keeper, second), post));
    add(&life.counts.opened);
    add_if(!wait_for(&life.counts.inside, 2), &life.counts.wrong);
    remove_by_gate(rt, alloc, tree, life.key, keeper, &life.counts);
    for _ in 0..10_000u64 {
        add_if(life.shows.load(Ordering::SeqCst) != 0, &life.counts.wrong);
    }
}

/// One file's life: two threads read it, in two lanes, and a third thread removes it.
fn live<N: Naming + Send + Sync, R: Threads + Abort + Wait + Sync>(
    rt: &R,
    alloc: Global,
    tree: &SharedTree<N>,
    posts: &mut Posts,
    stays: bool,
) {
    let life = Life {
        key: create_node(rt, tree, b"hot", FILE),
        counts: no_counts(),
        shows: AtomicU64::new(0),
        one: Mutex::new(None),
        two: Mutex::new(None),
    };
    join(
        rt,
        || reads_to_the_end(rt, tree, &life, &life.one, stays),
        || {
            join(
                rt,
                || reads_to_the_end(rt, tree, &life, &life.two, false),
                || opens_and_removes(rt, alloc, tree, posts, &life),
            )
        },
    );
    assert!(rt; life.counts.removed.load(Ordering::SeqCst) == 1);
    assert!(rt; life.counts.wrong.load(Ordering::SeqCst) == 0);
    assert!(rt; tree.read(rt).state().stat(life.key).is_err());
}

fn lives<N: Naming + Send + Sync, R: Threads + Abort + Wait + Sync>(
    rt: &R,
    alloc: Global,
    new: NewTree,
)
    requires { new.master.table ≡ N.table }
{
    let tree = new.named::<N>();
    let mut posts = posts_of(rt, alloc);
    for number in 0..LIVES {
        live(rt, alloc, &tree, &mut posts, number % 2 == 1);
    }
}

#[test]
fn two_read_a_hot_file_that_is_removed(rt: HostRuntime) {
    let new = made(&rt, rt.alloc());
    lives::<Brand, _>(&rt, rt.alloc(), new);
}
