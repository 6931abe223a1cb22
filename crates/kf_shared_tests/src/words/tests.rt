//! Threads that wait for a drain, or until nobody uses a hidden key, among threads that call, try and hide.

use crate::words::fixtures::{
    activate, born, counted, doom, enter, hide, made, made_for, pin, see_drained_at_once, see_used,
};
use crate::words::roles::{
    Counts, Course, Ending, Mark, Role, TOKENS, act_in, end_call, give_back, leave,
};
use kf_core::Key;
use kf_words::Master;
use std::alloc::Global;
use std::process::Abort;
use std::sync::Wait;
use std::sync::atomic::{AtomicU64, Ordering};
use std::thread::{Threads, for_each_mut};
use std::time::{Clock, CpuClock};

/// Four threads wait for a drain, and the last step of the call wakes all of them.
const MARKED: Course = Course {
    drain: 4,
    hide: 0,
    try_on: 0,
    hide_on: 0,
    call: true,
    breaks: false,
    mark: Mark::BeforeTheyWait,
    tries: 0,
    measured: false,
};

/// Two threads wait for a drain and one hides, all on one word. The end of the call wakes the one that hides.
/// The others come through once the node is marked.
const HIDDEN: Course = Course {
    drain: 2,
    hide: 1,
    mark: Mark::AfterTheCall,
    ..MARKED
};

const WOKEN: [Course; 7] = [
    MARKED,
    Course {
        breaks: true,
        ..MARKED
    },
    Course {
        mark: Mark::BeforeTheCallEnds,
        ..MARKED
    },
    Course {
        mark: Mark::AfterTheCall,
        ..MARKED
    },
    HIDDEN,
    Course {
        mark: Mark::BeforeTheyWait,
        measured: true,
        ..HIDDEN
    },
    Course {
        mark: Mark::BeforeTheyWait,
        breaks: true,
        ..HIDDEN
    },
];

/// One thread waits for a drain, and the call ends among refused tries. If a try is not yet undone when the
/// call ends, its undo must wake the thread, since nothing else does.
const AMONG_TRIES: Course = Course {
    drain: 1,
    try_on: 1,
    tries: 1_000,
    ..MARKED
};

/// One thread begins to wait for a node that nobody uses, and may fall asleep just as the node is marked. The
/// mark wakes nobody, so the sleep ends by itself.
const NAP: Course = Course {
    drain: 1,
    call: false,
    mark: Mark::BeforeTheCallEnds,
    ..MARKED
};

/// Eight threads go in and out beside two that hide, and all see the drain.
const CROWD: Course = Course {
    drain: 0,
    try_on: 8,
    hide_on: 2,
    call: false,
    mark: Mark::BeforeTheCallEnds,
    ..MARKED
};

fn counts() -> Counts {
    Counts {
        begun: AtomicU64::new(0),
        through: AtomicU64::new(0),
        tries: AtomicU64::new(0),
        calls: AtomicU64::new(0),
        running: AtomicU64::new(0),
        tokens: AtomicU64::new(0),
        wrong: AtomicU64::new(0),
        done: AtomicU64::new(0),
    }
}

fn add<R: Abort + Wait + Clock>(rt: &R, roles: &mut Vec<Option<Role>>, role: Role) {
    if let Err(full) = roles.push(Some(role)) {
        if let Some(role) = full.value {
            give_back(rt, role);
        }
        panic!(rt; "no memory");
    }
}

/// The roles of all threads except the one that ends the test.
fn gathered<R: Abort + Wait + Clock>(
    rt: &R,
    alloc: Global,
    master: &mut Master,
    key: Key,
    course: Course,
) -> Vec<Option<Role>> {
    let mut roles = Vec::new(alloc);
    for _ in 0..course.drain {
        add(rt, &mut roles, Role::Drain(pin(rt, master, key)));
    }
    for _ in 0..course.hide {
        add(rt, &mut roles, Role::Hide(hide(rt, pin(rt, master, key))));
    }
    let all = course.hide_on.saturating_add(1);
    for _ in 0..course.try_on {
        add(rt, &mut roles, Role::TryOn(all, pin(rt, master, key)));
    }
    for _ in 0..course.hide_on {
        add(rt, &mut roles, Role::HideOn(pin(rt, master, key)));
    }
    roles
}

/// Plays all roles at once.
fn all_act<R: Abort + Threads + Wait + Clock + CpuClock + Sync>(
    rt: &R,
    roles: &mut Vec<Option<Role>>,
    counts: &Counts,
) {
    for_each_mut(
        rt,
        roles.as_mut_slice(),
        16,
        &|_, place| act_in(rt, place, counts),
    );
}

fn give_all_back<R: Abort + Wait + Clock>(rt: &R, mut roles: Vec<Option<Role>>) {
    while let Some(place) = roles.pop() {
        if let Some(role) = place {
            give_back(rt, role);
        }
    }
    roles.destroy_empty();
}

/// Runs one course on a live node. Returns what was counted.
fn run<R: Abort + Threads + Wait + Clock + CpuClock + Sync>(
    rt: &R,
    alloc: Global,
    course: Course,
    looks: u64,
) -> Counts {
    let mut master = made(rt, alloc);
    let key = born(rt, &mut master);
    activate(rt, &mut master, key);
    let call = if course.call {
        Some(enter(rt, pin(rt, &mut master, key)))
    } else {
        None
    };
    let mut roles = gathered(rt, alloc, &mut master, key, course);
    let other = pin(rt, &mut master, key);
    if let Mark::BeforeTheyWait = course.mark {
        doom(rt, &mut master, key);
    }
    let ending = Ending {
        master,
        key,
        call,
        other,
        course,
        looks,
        good: false,
    };
    add(rt, &mut roles, Role::End(ending));
    let counts = counts();
    all_act(rt, &mut roles, &counts);
    give_all_back(rt, roles);
    counts
}

#[test]
fn those_who_wait_sleep_and_are_woken(rt: HostRuntime) {
    for course in WOKEN {
        for _ in 0..5 {
            run(&rt, rt.alloc(), course, 0);
        }
    }
    for _ in 0..100 {
        run(&rt, rt.alloc(), AMONG_TRIES, 0);
    }
}

#[test]
fn a_sleep_where_nobody_is_ends_by_itself(rt: HostRuntime) {
    for looks in 0..2_000u64 {
        run(&rt, rt.alloc(), NAP, looks % 800);
    }
}

#[test]
fn no_call_runs_while_a_token_is_out(rt: HostRuntime) {
    let counts = run(&rt, rt.alloc(), CROWD, 0);
    assert_eq!(&rt; counts.wrong.load(Ordering::SeqCst), 0);
    assert!(&rt; counts.tokens.load(Ordering::SeqCst) >= TOKENS);
    assert!(&rt; counts.calls.load(Ordering::SeqCst) > 0);
}

#[test]
fn one_look_sees_whether_a_node_is_in_use(rt: HostRuntime) {
    let mut master = made(&rt, rt.alloc());
    let key = born(&rt, &mut master);
    activate(&rt, &mut master, key);
    let remover = pin(&rt, &mut master, key);
    let caller = pin(&rt, &mut master, key);
    let call = enter(&rt, caller);
    let remover = see_used(&rt, remover);
    doom(&rt, &mut master, key);
    let remover = see_used(&rt, remover);
    end_call(&rt, call, false, 0, &AtomicU64::new(0));
    see_drained_at_once(&rt, remover);
}

#[test]
fn a_release_says_whether_it_had_the_last_place(rt: HostRuntime) {
    let mut master = made_for(&rt, rt.alloc(), 3);
    let key = born(&rt, &mut master);
    activate(&rt, &mut master, key);
    let one = pin(&rt, &mut master, key);
    let two = pin(&rt, &mut master, key);
    let three = pin(&rt, &mut master, key);
    let call = enter(&rt, three);
    counted(&rt, &mut master, key, 3, 1);
    assert!(&rt; two.release_place());
    counted(&rt, &mut master, key, 2, 1);
    assert!(&rt; !one.release_place());
    let hold = leave(call);
    counted(&rt, &mut master, key, 1, 0);
    assert!(&rt; !hold.release_place());
    counted(&rt, &mut master, key, 0, 0);
    let gone = Key {
        slot: key.slot,
        generation: key.generation.wrapping_add(1),
    };
    assert!(&rt; master.counts(gone).is_none());
}
