//! Hot values, in one thread and under four callers, each in its lane.
ghost use Rattle.std.specs.Prelude.{◌≡◌};

use crate::registry::counted::{Counted, back, counts_of};
use crate::registry::crowd::own_caller;
use kf_core::Refusal;
use kf_gates::MOST_LANES;
use kf_registry::{Hot, HotCaller, NewRegistry, Registry, ValueCaller};
use kf_shared::Naming;
use std::alloc::Global;
use std::process::Abort;
use std::sync::Wait;
use std::sync::atomic::{AtomicBool, AtomicU64, Ordering};
use std::thread::{Threads, for_each_mut, join};

const PATH: &[u8] = b"/hot";

/// Publishes a hot value, which must be refused. Returns the number of the returned value, and the refusal.
fn refused_of<N: Naming, R: Abort + Wait>(
    rt: &R,
    registry: &Registry<N, Counted>,
    own: &mut ValueCaller<N>,
    path: &[u8],
    number: u64,
    lanes: u64,
) -> (u64, Refusal) {
    match registry.publish_hot(rt, own, path, Counted::new(number), lanes) {
        Ok(hot) => {
            takes_back(rt, registry, own, hot);
            panic!(rt; "published")
        }
        Err((value, why)) => (value.call(), why),
    }
}

fn published<N: Naming, R: Abort + Wait>(
    rt: &R,
    registry: &Registry<N, Counted>,
    own: &mut ValueCaller<N>,
    number: u64,
    lanes: u64,
) -> Hot<N, Counted> {
    match registry.publish_hot(rt, own, PATH, Counted::new(number), lanes) {
        Ok(hot) => hot,
        Err(_) => panic!(rt; "not published"),
    }
}

/// Takes the value back. Returns its number, and how often it was called, or None if somebody is inside.
fn takes_back<N: Naming, R: Abort + Wait>(
    rt: &R,
    registry: &Registry<N, Counted>,
    own: &mut ValueCaller<N>,
    hot: Hot<N, Counted>,
) -> Option<(u64, u64)> {
    let mut rest = hot;
    for _ in rt.forever() {
        match registry.take_hot(rt, own, rest) {
            Ok(taken) => return back(taken),
            Err((hot, _)) => rest = hot,
        }
    }
    unreachable!()
}

/// Swaps the value. Returns the number of the former value, and how often that one was called, or None if the
/// swap was refused or somebody is inside.
fn swapped<N: Naming, R: Wait>(
    rt: &R,
    registry: &Registry<N, Counted>,
    hot: &mut Hot<N, Counted>,
    number: u64,
) -> Option<(u64, u64)> {
    match registry.swap_hot(rt, hot, Counted::new(number)) {
        Ok(before) => counts_of(before),
        Err(_) => None,
    }
}

fn called<R: Wait>(rt: &R, caller: &mut HotCaller<Counted>) -> Option<u64> {
    caller.call(rt, |value| value.call()).ok()
}

/// Each refusal returns the value. The refusals come in the documented order.
fn refusals<N: Naming, R: Abort + Wait>(
    rt: &R,
    registry: &Registry<N, Counted>,
    own: &mut ValueCaller<N>,
) {
    let long = [b'/'; 257];
    assert!(rt; refused_of(rt, registry, own, b"hot", 1, 0) == (1, Refusal::Invalid));
    assert!(rt; refused_of(rt, registry, own, &long, 1, 0) == (1, Refusal::NameTooLong));
    assert!(rt; refused_of(rt, registry, own, PATH, 2, 0) == (2, Refusal::Invalid));
    assert!(rt; refused_of(rt, registry, own, PATH, 3, MOST_LANES + 1) == (3, Refusal::Invalid));
    assert!(rt; refused_of(rt, registry, own, PATH, 4, u64::MAX) == (4, Refusal::Invalid));
    assert!(rt; refused_of(rt, registry, own, b"/hot/one", 5, 1) == (5, Refusal::Invalid));
    assert!(rt;
        registry
            .publish(rt, own, b"/plain", Counted::new(6))
            .is_ok()
    );
    assert!(rt; refused_of(rt, registry, own, b"/plain", 7, 1) == (7, Refusal::Exists));
    assert!(rt;
        registry
            .publish(rt, own, b"/other", Counted::new(8))
            .is_ok()
    );
    assert!(rt; refused_of(rt, registry, own, PATH, 9, 1) == (9, Refusal::NoSpace));
    assert!(rt;
        registry
            .hot_caller(rt, own, b"/plain", 0)
            .is_err_and(|why| why == Refusal::Invalid)
    );
    assert!(rt;
        registry
            .hot_caller(rt, own, PATH, 0)
            .is_err_and(|why| why == Refusal::NoEntry)
    );
    assert!(rt; registry.take(rt, own, b"/plain").ok().and_then(back) == Some((6, 0)));
    assert!(rt; registry.take(rt, own, b"/other").ok().and_then(back) == Some((8, 0)));
}

/// A hot value is called through its gate and by any caller, only its owner takes it, and after that its path
/// is free.
fn life<N: Naming, R: Abort + Wait>(
    rt: &R,
    registry: &Registry<N, Counted>,
    own: &mut ValueCaller<N>,
    lanes: u64,
) {
    let mut hot = published(rt, registry, own, 9, lanes);
    let Ok(mut first) = registry.hot_caller(rt, own, PATH, 0) else {
        panic!(rt; "no caller")
    };
    let Ok(mut second) = registry.hot_caller(rt, own, PATH, u64::MAX) else {
        panic!(rt; "no caller")
    };
    assert!(rt; called(rt, &mut first) == Some(9));
    assert!(rt; swapped(rt, registry, &mut hot, 10) == Some((9, 1)));
    assert!(rt; called(rt, &mut second) == Some(10));
    assert!(rt; called(rt, &mut first) == Some(10));
    assert!(rt; called(rt, &mut second) == Some(10));
    assert!(rt; own.call(rt, registry, PATH, |value| value.call()) == Ok(10));
    assert!(rt;
        registry
            .take(rt, own, PATH)
            .is_err_and(|why| why == Refusal::Busy)
    );
    match registry.swap(rt, own, PATH, Counted::new(11)) {
        Ok(_) => panic!(rt; "a hot value was swapped"),
        Err((value, why)) => assert!(rt; (value.call(), why) == (11, Refusal::Busy)),
    }
    assert!(rt; takes_back(rt, registry, own, hot) == Some((10, 4)));
    assert!(rt; called(rt, &mut first).is_none());
    let again = published(rt, registry, own, 12, lanes);
    assert!(rt; called(rt, &mut first).is_none());
    assert!(rt; called(rt, &mut second).is_none());
    assert!(rt; own.call(rt, registry, PATH, |value| value.call()) == Ok(12));
    assert!(rt; takes_back(rt, registry, own, again) == Some((12, 1)));
    assert!(rt; own.call(rt, registry, PATH, |value| value.call()) == Err(Refusal::NoEntry));
}

/// The tests of one thread, in a registry that may have two values at once.
pub(crate) fn alone<N: Naming, R: Abort + Wait>(rt: &R, new: NewRegistry<Counted>)
    requires { new.tree.master.table ≡ N.table }
{
    let registry = new.named::<N>();
    let mut own = own_caller(rt, &registry);
    refusals(rt, &registry, &mut own);
    for lanes in [1, 2, 3, MOST_LANES] {
        life(rt, &registry, &mut own, lanes);
    }
}

/// A thread's caller, its lane, and how many of its calls found the value.
#[derive(Drop)]
struct Job<N: Naming> {
    own: ValueCaller<N>,
    lane: u64,
    found: u64,
}

/// Calls each value through its gate until that value is taken, and stops once the owner is done. A thread
/// that comes too late for a value finds nothing.
fn calls<N: Naming, R: Wait>(
    rt: &R,
    registry: &Registry<N, Counted>,
    job: &mut Job<N>,
    done: &AtomicBool,
    begun: &AtomicU64,
) {
    let mut counted = false;
    for _ in rt.forever() {
        if let Ok(mut caller) = registry.hot_caller(rt, &mut job.own, PATH, job.lane) {
            for _ in rt.forever() {
                if called(rt, &mut caller).is_none() {
                    break;
                }
                job.found = job.found.saturating_add(1);
                if !counted {
                    begun.fetch_add(1, Ordering::SeqCst);
                    counted = true;
                }
            }
        }
        if done.load(Ordering::SeqCst) {
            return;
        }
    }
}

/// Swaps a hot value ten times for the next one. Returns how many calls the returned values had, or None if
/// one of them was not the previous value, or had somebody inside.
fn swaps<N: Naming, R: Wait>(
    rt: &R,
    registry: &Registry<N, Counted>,
    hot: &mut Hot<N, Counted>,
    first: u64,
) -> Option<u64> {
    let mut all = 0u64;
    for number in first..first.saturating_add(10) {
        let (version, calls) = swapped(rt, registry, hot, number.saturating_add(1))?;
        if version != number {
            return None;
        }
        all = all.saturating_add(calls);
    }
    Some(all)
}

/// Publishes a hundred values one after the other, swaps each ten times, and takes it. Returns how many calls
/// all returned values had, or None if one of them was not the expected value, or had somebody inside.
fn renews<N: Naming, R: Abort + Wait>(
    rt: &R,
    registry: &Registry<N, Counted>,
    own: &mut ValueCaller<N>,
    begun: &AtomicU64,
) -> Option<u64> {
    let mut all = 0u64;
    for round in 0..100u64 {
        let first = round * 11;
        let mut hot = published(rt, registry, own, first, 4);
        for _ in rt.forever() {
            if begun.load(Ordering::SeqCst) == 4 {
                break;
            }
        }
        for _ in 0..2000 {
            begun.load(Ordering::SeqCst);
        }
        let swapped = swaps(rt, registry, &mut hot, first);
        let (version, calls) = takes_back(rt, registry, own, hot)?;
        if version != first + 10 {
            return None;
        }
        all = all.saturating_add(swapped?).saturating_add(calls);
    }
    Some(all)
}

/// A hundred hot values under four callers, each swapped ten times. Each value is returned with all its calls
/// counted, and with nobody inside.
pub(crate) fn under_calls<N: Naming + Send + Sync, R: Threads + Abort + Wait + Sync>(
    rt: &R,
    alloc: Global,
    new: NewRegistry<Counted>,
)
    requires { new.tree.master.table ≡ N.table }
{
    let registry = new.named::<N>();
    let mut own = own_caller(rt, &registry);
    let mut jobs = Vec::new(alloc);
    for lane in 0..4 {
        let job = Job {
            own: own_caller(rt, &registry),
            lane,
            found: 0,
        };
        if jobs.push(job).is_err() {
            panic!(rt; "no memory");
        }
    }
    let done = AtomicBool::new(false);
    let begun = AtomicU64::new(0);
    let (_, all) = join(
        rt,
        || for_each_mut(
            rt,
            jobs.as_mut_slice(),
            4,
            &|_, job| calls(rt, &registry, job, &done, &begun),
        ),
        || {
            let all = renews(rt, &registry, &mut own, &begun);
            done.store(true, Ordering::SeqCst);
            all
        },
    );
    let found = jobs
        .iter()
        .fold(0u64, |sum, job| sum.saturating_add(job.found));
    assert!(rt; all == Some(found));
}
