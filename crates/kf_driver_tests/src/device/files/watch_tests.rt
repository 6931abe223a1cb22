//! Waiting for the first of three files to change, while another thread raises their numbers one at a time,
//! and finally removes a file. No wake is lost, and the watcher finds the file that has changed and no other.
ghost use Rattle.std.specs.Prelude.{◌≡◌};

use super::wait_tests::{reads, removes, tells};
use crate::device::fixtures::{READ, count_of, made, opened_by, plants, posts_of, wait_for};
use kf_core::Key;
use kf_files::WaitingFile;
use kf_notify::Posts;
use kf_shared::{Naming, NewTree, SharedTree};
use std::alloc::Global;
use std::marker::Brand;
use std::process::Abort;
use std::sync::Wait;
use std::sync::atomic::{AtomicU64, Ordering};
use std::thread::{Threads, join};

/// How often the files are created and one of them is removed.
const LIVES: usize = 60;

/// How often each file changes in a life.
const ROUNDS: u64 = 50;

/// The files, each with its name and its path.
const FILES: [(&[u8], &[u8]); 3] = [(b"a", b"/a"), (b"b", b"/b"), (b"c", b"/c")];

/// What the watcher has found.
#[derive(Drop)]
struct Found {
    /// How often each file was found changed.
    changes: [AtomicU64; 3],
    /// 1 once the watcher has opened the files and read each of them.
    ready: AtomicU64,
    /// 1 while the watcher rests, or is about to.
    rests: AtomicU64,
    /// One more than the place of the file that was found gone, once there is one.
    gone: AtomicU64,
}

fn nothing() -> Found {
    Found {
        changes: [AtomicU64::new(0), AtomicU64::new(0), AtomicU64::new(0)],
        ready: AtomicU64::new(0),
        rests: AtomicU64::new(0),
        gone: AtomicU64::new(0),
    }
}

/// What a look at the files found first.
enum Look {
    Nothing,
    Changed,
    Gone,
}

/// Looks for the first file that has changed, and reads it.
fn look_at<N: Naming, R: Wait>(
    rt: &R,
    tree: &SharedTree<N>,
    files: &mut [WaitingFile<N>],
    found: &Found,
) -> Look {
    for (place, file) in files.iter_mut().enumerate() {
        if file.poll() {
            if !reads(rt, tree, file) {
                let number = (place as u64).wrapping_add(1);
                found.gone.store(number, Ordering::SeqCst);
                return Look::Gone;
            }
            if let Some(changes) = found.changes.get(place) {
                changes.fetch_add(1, Ordering::SeqCst);
            }
            return Look::Changed;
        }
    }
    Look::Nothing
}

/// The file at a path, opened and read once.
fn opened<N: Naming, R: Abort + Wait>(
    rt: &R,
    tree: &SharedTree<N>,
    posts: &mut Posts,
    path: &[u8],
) -> WaitingFile<N> {
    let Some(mut file) = opened_by(rt, tree, posts, path, READ) else {
        panic!(rt; "not opened")
    };
    assert!(rt; reads(rt, tree, &mut file));
    file
}

/// Opens the files, and waits for the first of them to change, again and again, until one is gone.
fn watches<N: Naming, R: Abort + Wait>(
    rt: &R,
    tree: &SharedTree<N>,
    posts: &mut Posts,
    found: &Found,
) {
    let mut files = [
        opened(rt, tree, posts, b"/a"),
        opened(rt, tree, posts, b"/b"),
        opened(rt, tree, posts, b"/c"),
    ];
    found.ready.store(1, Ordering::SeqCst);
    let watch = posts.watch();
    for _ in rt.forever() {
        let seen = watch.seen();
        match look_at(rt, tree, &mut files, found) {
            Look::Nothing => {
                found.rests.store(1, Ordering::SeqCst);
                watch.rest(rt, seen);
                found.rests.store(0, Ordering::SeqCst);
            }
            Look::Changed => {}
            Look::Gone => return,
        }
    }
}

/// Raises the number of one file. This is done right after the watcher has found the change before or, in
/// every second round, once the watcher rests or is about to. Returns whether the watcher found the change.
fn raises(posts: &mut Posts, key: Key, place: usize, round: u64, found: &Found) -> bool {
    if round % 2 == 1 && !wait_for(1, &found.rests) {
        return false;
    }
    if !tells(posts, key.slot) {
        return false;
    }
    match found.changes.get(place) {
        Some(changes) => wait_for(round.wrapping_add(1), changes),
        None => false,
    }
}

/// Raises the number of each file in turn, and then removes one. Returns whether the watcher found all of
/// this.
fn changes<N: Naming, R: Wait>(
    rt: &R,
    tree: &SharedTree<N>,
    posts: &mut Posts,
    keys: &[Key],
    last: usize,
    found: &Found,
) -> bool {
    let mut all = wait_for(1, &found.ready);
    for round in 0..ROUNDS {
        for (place, key) in keys.iter().enumerate() {
            all = all && raises(posts, *key, place, round, found);
        }
    }
    let removed = match keys.get(last) {
        Some(key) => removes(rt, tree, posts, *key),
        None => false,
    };
    removed && all && wait_for((last as u64).wrapping_add(1), &found.gone)
}

/// Makes the files. Returns their keys.
fn planted<N: Naming, R: Abort + Wait>(rt: &R, alloc: Global, tree: &SharedTree<N>) -> Vec<Key> {
    let mut keys = Vec::new(alloc);
    for (name, path) in FILES {
        assert!(rt; plants(rt, tree, name, 1));
        let Ok(key) = tree.edit(rt).state().lookup(path) else {
            panic!(rt; "it is there")
        };
        assert!(rt; keys.push(key).is_ok(), "no memory");
    }
    keys
}

/// One life of the three files: the watcher finds each change, and the removal of the file at this place.
fn life<N: Naming + Send + Sync, R: Threads + Abort + Wait + Sync>(
    rt: &R,
    alloc: Global,
    tree: &SharedTree<N>,
    posts: &mut Posts,
    last: usize,
) {
    let keys = planted(rt, alloc, tree);
    let Ok(mut watching) = posts.another() else {
        panic!(rt; "no memory")
    };
    let found = nothing();
    let (_, all) = join(
        rt,
        || watches(rt, tree, &mut watching, &found),
        || changes(rt, tree, posts, keys.as_slice(), last, &found),
    );
    assert!(rt; all);
    for times in found.changes.iter() {
        assert!(rt; count_of(times) == ROUNDS);
    }
    for (place, key) in keys.iter().enumerate() {
        assert!(rt; place == last || removes(rt, tree, posts, *key));
    }
}

fn lives<N: Naming + Send + Sync, R: Threads + Abort + Wait + Sync>(
    rt: &R,
    alloc: Global,
    new: NewTree,
)
    requires { new.master.table ≡ N.table }
{
    let tree = new.named::<N>();
    let mut posts = posts_of(rt, alloc);
    for number in 0..LIVES {
        life(rt, alloc, &tree, &mut posts, number % 3);
    }
}

#[test]
fn the_first_of_three_files_wakes(rt: HostRuntime) {
    let new = made(&rt, rt.alloc(), 8);
    lives::<Brand, _>(&rt, rt.alloc(), new);
}
