//! Measures how long a turn takes, at best, for each of several threads that run at the same time.

use crate::grown::{ASIDE, Bench};
use crate::turns::{Turn, make};
use kf_core::Refusal;
use kf_shared::Naming;
use std::sync::Wait;
use std::sync::atomic::{AtomicU64, Ordering};
use std::thread::{Threads, for_each_mut};
use std::time::{Clock, Instant};

/// A figure is the best of this many rounds. A round counts if its threads worked at the same time. The
/// figure of a round is the mean of their times.
const ROUNDS: u32 = 25;

/// At most this many rounds are made. (On a busy machine few of them count.)
const MOST_ROUNDS: u32 = 100;

/// The greatest number of threads in a round: four, and one that changes the tree meanwhile.
const THREADS: usize = 5;

/// How often a thread checks whether the others have come, before it begins without them.
const LOOKS: u32 = 10_000_000;

/// When a thread began and ended its work, in nanoseconds of one clock.
#[derive(Clone, Copy)]
pub(crate) struct Span {
    start: u128,
    end: u128,
}

/// A thread: what it does at which slot, and when it worked in the last round.
#[derive(Clone, Copy)]
pub(crate) struct Seat {
    turn: Turn,
    slot: u32,
    pub(crate) worked: Result<Span, Refusal>,
}

impl Seat {
    pub(crate) fn new(turn: Turn, slot: u32) -> Seat {
        let worked = Ok(Span { start: 0, end: 0 });
        Seat { turn, slot, worked }
    }
}

/// The time now. It fails if the clock cannot be read.
pub(crate) fn now<R: Clock>(rt: &R) -> Result<Instant, Refusal> {
    Instant::now(rt).or(Err(Refusal::NoDevice))
}

/// How many nanoseconds have passed since this moment.
pub(crate) fn since<R: Clock>(rt: &R, moment: Instant) -> Result<u128, Refusal> {
    Ok(now(rt)?.saturating_duration_since(moment).as_nanos())
}

/// Counts this thread as one that has come, and waits until this many threads have.
fn meet(come: &AtomicU64, threads: u64) {
    come.fetch_add(1, Ordering::SeqCst);
    for _ in 0..LOOKS {
        if come.load(Ordering::SeqCst) >= threads {
            return;
        }
    }
}

/// Makes this many turns, and returns when they began and ended.
fn time<N: Naming, R: Wait + Clock>(
    rt: &R,
    bench: &Bench<N>,
    seat: &Seat,
    turns: u32,
) -> Result<Span, Refusal> {
    let start = since(rt, bench.origin)?;
    make(rt, bench, seat.turn, seat.slot, turns)?;
    let end = since(rt, bench.origin)?;
    Ok(Span { start, end })
}

/// Lets a thread work once this many threads have come.
fn work<N: Naming, R: Wait + Clock>(
    rt: &R,
    bench: &Bench<N>,
    seat: &mut Seat,
    threads: u64,
    turns: u32,
) {
    meet(&bench.come, threads);
    seat.worked = time(rt, bench, seat, turns);
    bench.busy.fetch_sub(1, Ordering::SeqCst);
}

/// Makes one round, with a thread for each seat. The threads begin at the same time, unless one comes too
/// late (see `meet`).
pub(crate) fn make_round<N: Naming + Send + Sync, R: Threads + Wait + Clock + Sync>(
    rt: &R,
    bench: &Bench<N>,
    seats: &mut [Seat],
    turns: u32,
) {
    let threads = seats.len() as u64;
    bench.come.store(0, Ordering::SeqCst);
    bench.busy.store(threads, Ordering::SeqCst);
    for_each_mut(
        rt,
        seats,
        THREADS,
        &|_, seat| work(rt, bench, seat, threads, turns),
    );
}

/// The mean of the times of the first `counted` threads. It is `None` unless all threads of the round worked
/// at the same time for at least three quarters of the longest of these times.
fn mean(seats: &[Seat], counted: usize) -> Result<Option<u128>, Refusal> {
    let (mut all, mut longest, mut last_start, mut first_end) = (0u128, 0u128, 0u128, u128::MAX);
    let mut left = counted;
    for seat in seats {
        let span = seat.worked?;
        last_start = last_start.max(span.start);
        first_end = first_end.min(span.end);
        if left > 0 {
            let took = span.end.saturating_sub(span.start);
            all = all.saturating_add(took);
            longest = longest.max(took);
            left = left.saturating_sub(1);
        }
    }
    let at_once = first_end.saturating_sub(last_start);
    if at_once.saturating_mul(4) < longest.saturating_mul(3) {
        return Ok(None);
    }
    Ok(Some(all / counted.max(1) as u128))
}

/// The best time of the rounds that count, or `None` if no round counted.
fn best<N: Naming + Send + Sync, R: Threads + Wait + Clock + Sync>(
    rt: &R,
    bench: &Bench<N>,
    seats: &mut [Seat],
    counted: usize,
    turns: u32,
) -> Result<Option<u128>, Refusal> {
    let (mut best, mut good) = (None, 0u32);
    for _ in 0..MOST_ROUNDS {
        if good >= ROUNDS {
            break;
        }
        make_round(rt, bench, seats, turns);
        if let Some(time) = mean(seats, counted)? {
            best = Some(time.min(best.unwrap_or(time)));
            good = good.saturating_add(1);
        }
    }
    Ok(best)
}

/// How long a turn takes for each of the threads at these slots, in tenths of a nanosecond. It is `None` if
/// no round counted.
pub(crate) fn tenths<N: Naming + Send + Sync, R: Threads + Wait + Clock + Sync>(
    rt: &R,
    bench: &Bench<N>,
    turn: Turn,
    slots: &[u32],
    turns: u32,
    beside_changes: bool,
) -> Result<Option<u128>, Refusal> {
    let mut seats = Vec::new(bench.alloc);
    for slot in slots {
        seats.push(Seat::new(turn, *slot))?;
    }
    if beside_changes {
        seats.push(Seat::new(Turn::Change, ASIDE))?;
    }
    match best(rt, bench, seats.as_mut_slice(), slots.len(), turns)? {
        Some(time) => Ok(Some(time.saturating_mul(10) / turns.max(1) as u128)),
        None => Ok(None),
    }
}
