//! What each thread of a test does, and what the threads count. Each wait of a test ends, so a lost wake
//! makes the test fail.

use crate::words::fixtures::{doom, see_drained};
use kf_core::{Key, Phase};
use kf_words::{Call, Drained, Hidden, Hiding, Hold, Master, wait_drained, wait_hidden};
use std::process::Abort;
use std::sync::Wait;
use std::sync::atomic::{AtomicU64, Ordering};
use std::thread;
use std::time::{Clock, CpuClock, Duration};

/// What the threads of a test count.
#[derive(Drop)]
pub(crate) struct Counts {
    /// Threads that begin to wait.
    pub(crate) begun: AtomicU64,
    /// Threads that waited and are through.
    pub(crate) through: AtomicU64,
    /// Tries, also those that were refused.
    pub(crate) tries: AtomicU64,
    /// Calls of the threads that try.
    pub(crate) calls: AtomicU64,
    /// Those of these calls that are between their enter and their leave.
    pub(crate) running: AtomicU64,
    /// Tokens of the threads that hide and show.
    pub(crate) tokens: AtomicU64,
    /// Looks that found a call running while a token was out.
    pub(crate) wrong: AtomicU64,
    /// Threads that hid and showed, and the one that ends the test, once they are done.
    pub(crate) done: AtomicU64,
}

/// When the node is marked.
#[derive(Clone, Copy)]
pub(crate) enum Mark {
    BeforeTheyWait,
    BeforeTheCallEnds,
    AfterTheCall,
}

/// Which threads there are beside the one that ends the test, and what that one does.
#[derive(Clone, Copy)]
pub(crate) struct Course {
    /// How many threads wait for the drain.
    pub(crate) drain: u64,
    /// How many threads wait until nobody uses the key that they hide: one at most.
    pub(crate) hide: u64,
    /// How many threads try until the end.
    pub(crate) try_on: u64,
    /// How many threads hide and show, some times each.
    pub(crate) hide_on: u64,
    /// Whether a call runs, which is then ended.
    pub(crate) call: bool,
    /// Whether the call breaks its protection, so that all waiting threads come through before it ends.
    pub(crate) breaks: bool,
    pub(crate) mark: Mark,
    /// How many tries are made before the call ends. Three times as many are made after that.
    pub(crate) tries: u64,
    /// Whether the CPU time of the waiting threads is measured.
    pub(crate) measured: bool,
}

/// What the thread has that ends the call, marks the node, and checks that all waiting threads come through.
pub(crate) struct Ending {
    pub(crate) master: Master,
    pub(crate) key: Key,
    pub(crate) call: Option<Call>,
    pub(crate) other: Hold,
    pub(crate) course: Course,
    /// How many looks come between the moment when a thread begins to wait and the mark.
    pub(crate) looks: u64,
    /// Whether everything was as it must be.
    pub(crate) good: bool,
}

/// What one thread has.
pub(crate) enum Role {
    Drain(Hold),
    Drained(Drained),
    Hide(Hiding),
    Hidden(Hidden),
    TryOn(u64, Hold),
    HideOn(Hold),
    End(Ending),
}

/// How many tokens all the threads that hide and show have together.
pub(crate) const TOKENS: u64 = 20;

/// Whether a counter reaches this count, for which it waits half a minute at most.
fn comes<R: Clock>(rt: &R, count: u64, counter: &AtomicU64) -> bool {
    for turn in 0..35_000u32 {
        if counter.load(Ordering::SeqCst) >= count {
            return true;
        }
        if turn >= 10_000 {
            thread::sleep(rt, Duration::from_millis(1));
        }
    }
    false
}

/// Looks at a counter this many times, which takes a moment.
fn linger(looks: u64, counter: &AtomicU64) {
    for _ in 0..looks {
        let _ = counter.load(Ordering::SeqCst);
    }
}

// ---- threads that try, and threads that hide and show

/// Makes one try, and ends the call if the try succeeds.
fn in_and_out(hold: Hold, counts: &Counts) -> Hold {
    counts.tries.fetch_add(1, Ordering::SeqCst);
    match hold.enter() {
        Ok(call) => {
            counts.running.fetch_add(1, Ordering::SeqCst);
            counts.calls.fetch_add(1, Ordering::SeqCst);
            counts.running.fetch_sub(1, Ordering::SeqCst);
            call.leave()
        }
        Err(back) => back,
    }
}

/// Tries until this many threads are done.
fn try_on(until: u64, first: Hold, counts: &Counts) -> Hold {
    let mut hold = first;
    for _ in 0..1_000_000_000u64 {
        if counts.done.load(Ordering::SeqCst) >= until {
            return hold;
        }
        hold = in_and_out(hold, counts);
    }
    hold
}

/// Looks at the running calls many times while a token is out.
fn look_while_hidden(counts: &Counts) {
    counts.tokens.fetch_add(1, Ordering::SeqCst);
    for _ in 0..200 {
        if counts.running.load(Ordering::SeqCst) != 0 {
            counts.wrong.fetch_add(1, Ordering::SeqCst);
        }
    }
}

/// Hides and shows once, if no other thread hides. First it waits until a call has come through.
fn hide_and_show<R: Wait + Clock>(rt: &R, hold: Hold, counts: &Counts) -> Hold {
    let calls = counts.calls.load(Ordering::SeqCst);
    comes(rt, calls.saturating_add(1), &counts.calls);
    match hold.hide() {
        Ok(hiding) => {
            let hidden = wait_hidden(rt, hiding);
            look_while_hidden(counts);
            hidden.show()
        }
        Err(back) => back,
    }
}

/// Hides and shows until all tokens have been out.
fn hide_on<R: Wait + Clock>(rt: &R, first: Hold, counts: &Counts) -> Hold {
    let mut hold = first;
    for _ in 0..1_000_000u64 {
        if counts.tokens.load(Ordering::SeqCst) >= TOKENS {
            break;
        }
        hold = hide_and_show(rt, hold, counts);
    }
    counts.done.fetch_add(1, Ordering::SeqCst);
    hold
}

// ---- the thread that ends the test

/// Whether the waiting threads use no CPU: the process uses less than 100 ms of CPU time in half a second.
fn they_sleep<R: Clock + CpuClock>(rt: &R) -> bool {
    thread::sleep(rt, Duration::from_millis(50));
    let Ok(before) = rt.process_cpu_time() else {
        return false;
    };
    thread::sleep(rt, Duration::from_millis(500));
    let Ok(after) = rt.process_cpu_time() else {
        return false;
    };
    match after.checked_sub(before) {
        Some(used) => used < Duration::from_millis(100),
        None => false,
    }
}

/// Ends a call, whatever its phase is, and returns its hold.
pub(crate) fn leave(mut call: Call) -> Hold {
    match call.phase() {
        Phase::Running => call.leave(),
        Phase::Broken => {
            call.restore();
            call.leave()
        }
        Phase::Restored => call.leave(),
        _ => unreachable!(),
    }
}

/// Ends the call. If `breaks` is set and the call is Running, it breaks its protection first. Returns false
/// if this many threads did not come through between that and the end of the call.
pub(crate) fn end_call<R: Clock>(
    rt: &R,
    mut call: Call,
    breaks: bool,
    count: u64,
    through: &AtomicU64,
) -> bool {
    let mut enough = true;
    match call.phase() {
        Phase::Running => {
            if breaks {
                call.break_protection();
                enough = comes(rt, count, through);
                call.restore();
            }
            call.leave().release();
        }
        Phase::Broken => {
            call.restore();
            call.leave().release();
        }
        Phase::Restored => call.leave().release(),
        _ => unreachable!(),
    }
    enough
}

/// If fewer threads than this came through, frees the rest by refused tries, each of which wakes all when it
/// is undone.
fn free_the_rest(first: Hold, count: u64, through: &AtomicU64) -> Hold {
    let mut hold = first;
    for _ in 0..1_000_000u32 {
        if through.load(Ordering::SeqCst) >= count {
            return hold;
        }
        hold = match hold.enter() {
            Ok(call) => call.leave(),
            Err(back) => back,
        };
    }
    hold
}

/// Waits until all threads are there, and returns whether those that wait for the call do not come through
/// meanwhile.
fn before_the_end<R: Clock + CpuClock>(
    rt: &R,
    course: Course,
    looks: u64,
    counts: &Counts,
) -> bool {
    if !course.call {
        let ready = comes(rt, course.hide_on, &counts.done)
            && comes(rt, course.drain, &counts.begun);
        linger(looks, &counts.begun);
        return ready;
    }
    thread::sleep(rt, Duration::from_millis(10));
    let asleep = !course.measured || they_sleep(rt);
    asleep && comes(rt, course.tries, &counts.tries) && counts.through.load(Ordering::SeqCst) == 0
}

/// Ends the call, and marks the node. Each waiting thread must come through: one that hides, once the call
/// has ended; and one that waits for the drain, once the node is marked as well.
fn end_all<R: Abort + Clock + CpuClock>(rt: &R, ending: Ending, counts: &Counts) -> Ending {
    let Ending {
        mut master,
        key,
        call,
        other,
        course,
        looks,
        good: _,
    } = ending;
    let waiters = course.drain.saturating_add(course.hide);
    let mut good = before_the_end(rt, course, looks, counts);
    if let Mark::BeforeTheCallEnds = course.mark {
        doom(rt, &mut master, key);
    }
    if let Some(call) = call {
        good = end_call(rt, call, course.breaks, waiters, &counts.through) && good;
    }
    if let Mark::AfterTheCall = course.mark {
        good = comes(rt, course.hide, &counts.through) && good;
        doom(rt, &mut master, key);
    }
    good = comes(rt, course.tries.saturating_mul(4), &counts.tries) && good;
    counts.done.fetch_add(1, Ordering::SeqCst);
    good = comes(rt, waiters, &counts.through) && good;
    let other = free_the_rest(other, waiters, &counts.through);
    Ending {
        master,
        key,
        call: None,
        other,
        course,
        looks,
        good,
    }
}

// ---- all of the threads

/// Plays a role, and returns what the thread has after that.
fn act<R: Abort + Wait + Clock + CpuClock>(rt: &R, role: Role, counts: &Counts) -> Role {
    match role {
        Role::Drain(hold) => {
            counts.begun.fetch_add(1, Ordering::SeqCst);
            let drained = wait_drained(rt, hold);
            counts.through.fetch_add(1, Ordering::SeqCst);
            Role::Drained(drained)
        }
        Role::Hide(hiding) => {
            let hidden = wait_hidden(rt, hiding);
            counts.through.fetch_add(1, Ordering::SeqCst);
            Role::Hidden(hidden)
        }
        Role::TryOn(until, hold) => Role::TryOn(until, try_on(until, hold, counts)),
        Role::HideOn(hold) => Role::HideOn(hide_on(rt, hold, counts)),
        Role::End(ending) => Role::End(end_all(rt, ending, counts)),
        done => done,
    }
}

/// Releases what a thread has when all are through. Each hold sees that the node is drained.
pub(crate) fn give_back<R: Abort + Wait + Clock>(rt: &R, role: Role) {
    match role {
        Role::Drain(hold) | Role::TryOn(_, hold) | Role::HideOn(hold) => see_drained(rt, hold),
        Role::Drained(mut drained) => {
            drained.rest(rt); // nobody uses the node, so it ends by itself
            drained.release();
        }
        Role::Hide(hiding) => wait_hidden(rt, hiding).show().release(),
        Role::Hidden(hidden) => hidden.show().release(),
        Role::End(ending) => ended(rt, ending),
    }
}

fn ended<R: Abort + Clock>(rt: &R, ending: Ending) {
    let Ending {
        master: _,
        key: _,
        call,
        other,
        course: _,
        looks: _,
        good,
    } = ending;
    if let Some(call) = call {
        end_call(rt, call, false, 0, &AtomicU64::new(0));
    }
    see_drained(rt, other);
    assert!(rt; good, "all come through when they have to");
}

/// Takes the role from its place, plays it, and puts back what the thread has then.
pub(crate) fn act_in<R: Abort + Wait + Clock + CpuClock>(
    rt: &R,
    place: &mut Option<Role>,
    counts: &Counts,
) {
    if let Some(role) = place.take() {
        let role = act(rt, role, counts);
        if let Some(other) = place.replace(role) {
            give_back(rt, other);
        }
    }
}
