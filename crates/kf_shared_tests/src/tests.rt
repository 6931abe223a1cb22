//! Removals, calls, hidings, creations and look-ups at once, in threads, and what they leave behind: a bare
//! tree, and slots that are free again.
ghost use Rattle.std.specs.Prelude.{◌≡◌};

use crate::crowd::every_slot_is_free;
use crate::fixtures::{FILE, add, commands, hold, is_bare, made, made_late};
use crate::lookers::{holder_of, looker_of};
use crate::refused::refused_below;
use crate::roles::{Counts, Inside, Role, act, act_in, call_of, held_by, hold_of};
use crate::turns::{NODES, add_files};
use crate::unused::{FILES, made_wide, unused_nodes};
use kf_core::{Key, Node};
use kf_shared::{Naming, NewTree, SharedTree, release_all};
use kf_words::{Call, Hold};
use std::alloc::Global;
use std::marker::Brand;
use std::process::Abort;
use std::sync::Wait;
use std::sync::atomic::{AtomicU64, Ordering};
use std::thread::{Threads, for_each_mut};
use std::time::Clock;

/// The threads of a test, over a tree that is made for them.
#[derive(Clone, Copy)]
enum Course {
    /// Four threads that remove (if true, by self-removals), one that calls, one that creates, and two that
    /// hide.
    Crowd(bool),
    /// Two that remove one file from within their calls of it.
    TwoSelves,
    /// One that removes a file, and one in a call of it.
    UnderACall,
    /// Two that hide one file.
    TwoHide,
    /// One that finishes a removal, and one whose call has taken its reference again.
    Restored,
    /// One that removes a file from within a call, and one that looks at it under the lock.
    UnderTheLock,
    /// Two that read.
    Readers,
    /// One that removes many nodes, one in a call of the first, and one that watches.
    ManyNodes,
    /// One that removes a directory, one in a call of its first file, and one in a call of a later file,
    /// which ends once the first file is gone.
    LaterCall,
    /// Two that look up and one that takes holds without the lock, and one that changes the tree.
    Lookers,
    /// One that takes holds without the lock, after each change.
    EachChange,
}

fn add_role<N: Naming, R: Abort + Wait + Clock>(
    rt: &R,
    tree: &SharedTree<N>,
    roles: &mut Vec<Option<Role<N>>>,
    role: Role<N>,
) {
    if let Err(full) = roles.push(Some(role)) {
        if let Some(role) = full.value {
            act(rt, tree, role, &counts());
        }
        panic!(rt; "no memory");
    }
}

fn add_remover<N: Naming, R: Abort + Wait + Clock>(
    rt: &R,
    tree: &SharedTree<N>,
    roles: &mut Vec<Option<Role<N>>>,
    by_itself: bool,
    key: Key,
) {
    let role = if by_itself {
        Role::RemoveItself(call_of(rt, tree, key))
    } else {
        Role::Remove(hold_of(rt, tree, key))
    };
    add_role(rt, tree, roles, role);
}

/// Adds four directories, a file in the third, and the roles of a crowd.
fn add_crowd<N: Naming, R: Abort + Wait + Clock>(
    rt: &R,
    tree: &SharedTree<N>,
    roles: &mut Vec<Option<Role<N>>>,
    by_themselves: bool,
) {
    let p = add(rt, tree, b"/t", Node::Dir, true);
    let a = add(rt, tree, b"/t/a", Node::Dir, true);
    let b = add(rt, tree, b"/t/a/b", Node::Dir, true);
    let c = add(rt, tree, b"/t/c", Node::Dir, true);
    let x = add(rt, tree, b"/t/a/b/x", FILE, true);
    for key in [p, a, b, c] {
        add_remover(rt, tree, roles, by_themselves, key);
    }
    add_role(rt, tree, roles, Role::Call(hold(rt, tree, x)));
    add_role(rt, tree, roles, Role::Create(a));
    add_role(rt, tree, roles, Role::HideOn(x));
    add_role(rt, tree, roles, Role::HideOn(x));
}

/// Makes a call that broke its protection.
fn broken_call<N: Naming, R: Abort + Wait>(rt: &R, tree: &SharedTree<N>, key: Key) -> Call {
    let Inside { mut call, name: _ } = call_of(rt, tree, key);
    call.break_protection();
    call
}

/// Marks a file, and returns a hold of it.
fn doomed<N: Naming, R: Abort + Wait>(rt: &R, tree: &SharedTree<N>, key: Key) -> Hold
    ensures { result.table ≡ N.table }
{
    let top = hold(rt, tree, key);
    let mut holds = match tree.edit(rt).doom(top) {
        Ok(holds) => holds,
        Err((hold, _)) => {
            hold.release();
            panic!(rt; "not doomed")
        }
    };
    match holds.pop() {
        Some(top) => {
            assert!(rt; holds.is_empty());
            holds.destroy_empty();
            top
        }
        None => panic!(rt; "a hold is missing"),
    }
}

/// Adds the two roles for one file.
fn add_two<N: Naming, R: Abort + Wait + Clock>(
    rt: &R,
    tree: &SharedTree<N>,
    roles: &mut Vec<Option<Role<N>>>,
    course: Course,
) {
    let key = add(rt, tree, b"/t", FILE, true);
    let (one, other) = match course {
        Course::TwoSelves => (
            Role::RemoveItself(call_of(rt, tree, key)),
            Role::RemoveItself(call_of(rt, tree, key)),
        ),
        Course::UnderACall => (
            Role::EndCall(key, call_of(rt, tree, key)),
            Role::Remove(hold_of(rt, tree, key)),
        ),
        Course::TwoHide => (
            Role::HideOnce(hold_of(rt, tree, key)),
            Role::HideOnce(hold_of(rt, tree, key)),
        ),
        Course::Restored => (
            Role::RestoreAndEnd(key, broken_call(rt, tree, key)),
            Role::Finish(held_by(tree, doomed(rt, tree, key))),
        ),
        Course::UnderTheLock => (
            Role::RemoveItself(call_of(rt, tree, key)),
            Role::LookUnderLock(hold(rt, tree, key), hold(rt, tree, key)),
        ),
        _ => (Role::Read, Role::Read),
    };
    add_role(rt, tree, roles, one);
    add_role(rt, tree, roles, other);
}

/// Adds a thread that looks up, or takes holds.
fn add_looker<N: Naming, R: Abort + Wait + Clock>(
    rt: &R,
    alloc: Global,
    tree: &SharedTree<N>,
    roles: &mut Vec<Option<Role<N>>>,
    opens: bool,
) {
    let role = Role::Look(looker_of(rt, tree), holder_of(rt, alloc, tree), opens);
    add_role(rt, tree, roles, role);
}

/// Adds the roles for the removal of many nodes.
fn add_many<N: Naming, R: Abort + Wait + Clock>(
    rt: &R,
    alloc: Global,
    tree: &SharedTree<N>,
    roles: &mut Vec<Option<Role<N>>>,
) {
    let keys = add_files(rt, alloc, tree);
    if let (Some(first), Some(dir)) = (keys.first(), keys.last()) {
        let (first, dir) = (*first, *dir);
        add_role(
            rt,
            tree,
            roles,
            Role::EndCall(first, call_of(rt, tree, first)),
        );
        add_role(rt, tree, roles, Role::Remove(hold_of(rt, tree, dir)));
    }
    add_role(rt, tree, roles, Role::WatchTurns(keys));
}

/// Adds the roles for a directory of three files.
fn add_later<N: Naming, R: Abort + Wait + Clock>(
    rt: &R,
    tree: &SharedTree<N>,
    roles: &mut Vec<Option<Role<N>>>,
) {
    let dir = add(rt, tree, b"/t", Node::Dir, true);
    let first = add(rt, tree, b"/t/a", FILE, true);
    let _between = add(rt, tree, b"/t/b", FILE, true);
    let later = add(rt, tree, b"/t/c", FILE, true);
    add_role(
        rt,
        tree,
        roles,
        Role::EndCall(first, call_of(rt, tree, first)),
    );
    add_role(
        rt,
        tree,
        roles,
        Role::LeaveAfter(first, call_of(rt, tree, later)),
    );
    add_role(rt, tree, roles, Role::Remove(hold_of(rt, tree, dir)));
}

fn gathered<N: Naming, R: Abort + Wait + Clock>(
    rt: &R,
    alloc: Global,
    tree: &SharedTree<N>,
    course: Course,
) -> Vec<Option<Role<N>>> {
    let mut roles = Vec::new(alloc);
    match course {
        Course::Crowd(by_themselves) => add_crowd(rt, tree, &mut roles, by_themselves),
        Course::Lookers => {
            let _dir = add(rt, tree, b"/t", Node::Dir, true);
            for opens in [false, false, true] {
                add_looker(rt, alloc, tree, &mut roles, opens);
            }
            add_role(rt, tree, &mut roles, Role::Change);
        }
        Course::EachChange => {
            let role = Role::SeeEachChange(holder_of(rt, alloc, tree));
            add_role(rt, tree, &mut roles, role);
        }
        Course::ManyNodes => add_many(rt, alloc, tree, &mut roles),
        Course::LaterCall => add_later(rt, tree, &mut roles),
        _ => add_two(rt, tree, &mut roles, course),
    }
    roles
}

fn counts() -> Counts {
    Counts {
        begun: AtomicU64::new(0),
        answered: AtomicU64::new(0),
        first: AtomicU64::new(0),
        good: AtomicU64::new(0),
    }
}

/// Plays all roles at once.
fn all_act<N: Naming + Send + Sync, R: Abort + Threads + Wait + Clock + Sync>(
    rt: &R,
    tree: &SharedTree<N>,
    roles: &mut Vec<Option<Role<N>>>,
    counts: &Counts,
) {
    for_each_mut(
        rt,
        roles.as_mut_slice(),
        8,
        &|_, place| act_in(rt, tree, place, counts),
    );
}

/// Checks that each thread found everything as it must be.
fn all_good<N: Naming, R: Abort + Wait + Clock>(
    rt: &R,
    tree: &SharedTree<N>,
    mut roles: Vec<Option<Role<N>>>,
    counts: &Counts,
) {
    let all = roles.len() as u64;
    assert!(rt; counts.good.load(Ordering::SeqCst) == all);
    while let Some(place) = roles.pop() {
        if let Some(role) = place {
            act(rt, tree, role, counts);
            panic!(rt; "a thread did not act");
        }
    }
    roles.destroy_empty();
}

/// Removes what is left. Then the tree is bare, its slots are free, and it has stored each command.
fn leaves_nothing<N: Naming, R: Abort + Wait>(rt: &R, tree: &SharedTree<N>) {
    let root = tree.read(rt).state().root();
    if let Ok(receipts) = tree.edit(rt).remove_name(rt, root, b"t") {
        release_all(receipts);
    }
    assert!(rt; is_bare(rt, tree));
    every_slot_is_free(rt, tree);
    assert!(rt; commands(rt, tree) >= 31, "an edit alone changes nothing");
}

/// Runs one course. Returns how many threads were the first.
fn run<N: Naming + Send + Sync, R: Abort + Threads + Wait + Clock + Sync>(
    rt: &R,
    alloc: Global,
    new: NewTree,
    course: Course,
) -> u64
    requires { new.master.table ≡ N.table }
{
    let tree = new.named::<N>();
    let mut roles = gathered(rt, alloc, &tree, course);
    let counts = counts();
    all_act(rt, &tree, &mut roles, &counts);
    all_good(rt, &tree, roles, &counts);
    leaves_nothing(rt, &tree);
    counts.first.load(Ordering::SeqCst)
}

/// Courses under the lock, how many times each is run, and how many threads must be the first.
const COURSES: [(Course, u32, u64); 9] = [
    (Course::Crowd(false), 20, 0),
    (Course::Crowd(true), 20, 4),
    (Course::TwoSelves, 200, 1),
    (Course::UnderACall, 20, 0),
    (Course::TwoHide, 20, 1),
    (Course::Restored, 5, 0),
    (Course::UnderTheLock, 20, 1),
    (Course::Readers, 20, 0),
    (Course::LaterCall, 20, 0),
];

/// Courses of threads that look up, or take holds, without the lock.
const WITHOUT_THE_LOCK: [Course; 2] = [Course::EachChange, Course::Lookers];

#[test]
fn threads_on_one_tree(rt: HostRuntime) {
    for (course, times, first) in COURSES {
        for _ in 0..times {
            let new = made(&rt, rt.alloc(), 16);
            let found = run::<Brand, _>(&rt, rt.alloc(), new, course);
            assert!(&rt; found == first);
        }
    }
}

#[test]
fn look_ups_and_holds_of_paths(rt: HostRuntime) {
    for course in WITHOUT_THE_LOCK {
        let new = made(&rt, rt.alloc(), 16);
        let _none = run::<Brand, _>(&rt, rt.alloc(), new, course);
    }
}

/// Runs the course of many nodes.
fn run_many<N: Naming + Send + Sync, R: Abort + Threads + Wait + Clock + Sync>(
    rt: &R,
    alloc: Global,
    new: NewTree,
)
    requires { new.master.table ≡ N.table }
{
    let tree = new.named::<N>();
    let mut roles = gathered(rt, alloc, &tree, Course::ManyNodes);
    let counts = counts();
    all_act(rt, &tree, &mut roles, &counts);
    all_good(rt, &tree, roles, &counts);
    assert!(rt; is_bare(rt, &tree));
}

#[test]
fn turns_of_a_removal(rt: HostRuntime) {
    for _ in 0..5 {
        run_many::<Brand, _>(&rt, rt.alloc(), made_wide(&rt, rt.alloc(), NODES + 1));
    }
}

fn run_alone<N: Naming, R: Abort + Wait>(rt: &R, new: NewTree)
    requires { new.master.table ≡ N.table }
{
    let tree = new.named::<N>();
    refused_below(rt, &tree);
    leaves_nothing(rt, &tree);
}

#[test]
fn removals_that_are_refused(rt: HostRuntime) {
    run_alone::<Brand, _>(&rt, made_late(&rt, rt.alloc(), 2));
}

#[test]
fn removals_of_unused_nodes(rt: HostRuntime) {
    unused_nodes::<Brand, _>(&rt, made_wide(&rt, rt.alloc(), FILES as u32 + 2));
}
