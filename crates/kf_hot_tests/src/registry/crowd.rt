//! Values that four threads call while their owner swaps and takes them.
ghost use Rattle.std.specs.Prelude.{◌≡◌};

use crate::registry::counted::{Counted, back};
use kf_registry::{NewRegistry, Registry, ValueCaller};
use kf_shared::Naming;
use std::alloc::Global;
use std::process::Abort;
use std::sync::Wait;
use std::sync::atomic::{AtomicBool, AtomicU64, Ordering};
use std::thread::{Threads, for_each_mut, join};

const PATH: &[u8] = b"/one";

/// A thread's caller, how many of its calls found a value, and how many did not.
#[derive(Drop)]
struct Job<N: Naming> {
    caller: ValueCaller<N>,
    found: u64,
    missed: u64,
}

/// What the threads share: whether the owner is done, and how many threads have begun.
#[derive(Drop)]
struct Signals {
    done: AtomicBool,
    begun: AtomicU64,
}

fn calls<N: Naming, R: Wait>(
    rt: &R,
    registry: &Registry<N, Counted>,
    job: &mut Job<N>,
    signals: &Signals,
) {
    signals.begun.fetch_add(1, Ordering::SeqCst);
    for _ in rt.forever() {
        match job.caller.call(rt, registry, PATH, |value| value.call()) {
            Ok(_) => job.found = job.found.saturating_add(1),
            Err(_) => job.missed = job.missed.saturating_add(1),
        }
        if signals.done.load(Ordering::SeqCst) {
            return;
        }
    }
}

/// Swaps a thousand times, once all four threads have begun. Returns how many calls the returned values had,
/// or None if one of them was not the previous value, or had somebody inside.
fn swaps<N: Naming, R: Wait>(
    rt: &R,
    registry: &Registry<N, Counted>,
    own: &mut ValueCaller<N>,
    signals: &Signals,
) -> Option<u64> {
    for _ in rt.forever() {
        if signals.begun.load(Ordering::SeqCst) == 4 {
            break;
        }
    }
    let mut all = 0u64;
    for number in 1..1001u64 {
        let before = registry.swap(rt, own, PATH, Counted::new(number)).ok()?;
        let (version, calls) = back(before)?;
        if version != number - 1 {
            return None;
        }
        all = all.saturating_add(calls);
    }
    Some(all)
}

/// A caller, by which a thread calls, publishes and takes values.
pub(crate) fn own_caller<N: Naming, R: Abort + Wait>(
    rt: &R,
    registry: &Registry<N, Counted>,
) -> ValueCaller<N> {
    match registry.caller(rt) {
        Ok(caller) => caller,
        Err(_) => panic!(rt; "no memory"),
    }
}

fn jobs<N: Naming, R: Abort + Wait>(
    rt: &R,
    alloc: Global,
    registry: &Registry<N, Counted>,
) -> Vec<Job<N>> {
    let mut jobs = Vec::new(alloc);
    for _ in 0..4 {
        let job = Job {
            caller: own_caller(rt, registry),
            found: 0,
            missed: 0,
        };
        if jobs.push(job).is_err() {
            panic!(rt; "no memory");
        }
    }
    jobs
}

/// A thousand swaps while four threads call: each call finds a value, and each value is returned with all its
/// calls counted.
pub(crate) fn under_swaps<N: Naming + Send + Sync, R: Threads + Abort + Wait + Sync>(
    rt: &R,
    alloc: Global,
    new: NewRegistry<Counted>,
)
    requires { new.tree.master.table ≡ N.table }
{
    let registry = new.named::<N>();
    let mut own = own_caller(rt, &registry);
    let first = registry.publish(rt, &mut own, PATH, Counted::new(0));
    assert!(rt; first.is_ok());
    let mut jobs = jobs(rt, alloc, &registry);
    let signals = Signals {
        done: AtomicBool::new(false),
        begun: AtomicU64::new(0),
    };
    let (_, swapped) = join(
        rt,
        || for_each_mut(
            rt,
            jobs.as_mut_slice(),
            4,
            &|_, job| calls(rt, &registry, job, &signals),
        ),
        || {
            let swapped = swaps(rt, &registry, &mut own, &signals);
            signals.done.store(true, Ordering::SeqCst);
            swapped
        },
    );
    let last = registry.take(rt, &mut own, PATH).ok().and_then(back);
    let found = jobs
        .iter()
        .fold(0u64, |sum, job| sum.saturating_add(job.found));
    assert!(rt; jobs.iter().all(|job| job.missed == 0));
    match (swapped, last) {
        (Some(all), Some((1000, calls))) => assert!(rt; all.saturating_add(calls) == found),
        _ => panic!(rt; "a value that came back was not the one before, or somebody was inside"),
    }
}

/// Stays inside until the owner begins to take the value, and a little longer.
fn stays<N: Naming, R: Wait>(
    rt: &R,
    registry: &Registry<N, Counted>,
    caller: &mut ValueCaller<N>,
    signals: &Signals,
) -> bool {
    let stayed = caller.call(rt, registry, PATH, |value| {
        value.enter();
        signals.begun.fetch_add(1, Ordering::SeqCst);
        for _ in rt.forever() {
            if signals.done.load(Ordering::SeqCst) {
                break;
            }
        }
        for _ in 0..10000 {
            signals.begun.load(Ordering::SeqCst);
        }
        value.leave();
    });
    stayed.is_ok()
}

/// Takes the value once a call is inside. Returns true if the value was returned with nobody inside.
fn takes<N: Naming, R: Wait>(
    rt: &R,
    registry: &Registry<N, Counted>,
    own: &mut ValueCaller<N>,
    signals: &Signals,
) -> bool {
    for _ in rt.forever() {
        if signals.begun.load(Ordering::SeqCst) != 0 {
            break;
        }
    }
    signals.done.store(true, Ordering::SeqCst);
    match registry.take(rt, own, PATH) {
        Ok(taken) => back(taken) == Some((7, 1)),
        Err(_) => false,
    }
}

/// A value that is taken while a call is inside is returned only after the call.
pub(crate) fn taken_in_use<N: Naming + Send + Sync, R: Threads + Abort + Wait + Sync>(
    rt: &R,
    new: NewRegistry<Counted>,
)
    requires { new.tree.master.table ≡ N.table }
{
    let registry = new.named::<N>();
    let mut own = own_caller(rt, &registry);
    assert!(rt;
        registry
            .publish(rt, &mut own, PATH, Counted::new(7))
            .is_ok()
    );
    let mut caller = own_caller(rt, &registry);
    let signals = Signals {
        done: AtomicBool::new(false),
        begun: AtomicU64::new(0),
    };
    let (stayed, right) = join(
        rt,
        || stays(rt, &registry, &mut caller, &signals),
        || takes(rt, &registry, &mut own, &signals),
    );
    assert!(rt; stayed && right);
    assert!(rt;
        caller
            .call(rt, &registry, PATH, |value| value.call())
            .is_err()
    );
}
