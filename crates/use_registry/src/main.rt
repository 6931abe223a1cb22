//! A registry of plug-ins: four threads call the plug-in `/adder` by its path, while its owner swaps it a
//! thousand times for another, and then takes the last one back. Each plug-in is returned by value, and has
//! counted all its calls.
#![tactic(auto)]

ghost use Rattle.std.specs.Prelude.{◌≡◌};

use kf_core::Refusal;
use kf_registry::{NewRegistry, Published, Registry, ValueCaller};
use kf_shared::Naming;
use std::alloc::Global;
use std::marker::Brand;
use std::sync::Wait;
use std::sync::atomic::{AtomicU64, Ordering};
use std::thread::{Threads, for_each_mut, join};

const ADDER: &[u8] = b"/adder";

/// A plug-in that counts how often it was called.
#[derive(Drop)]
struct Adder(AtomicU64);

impl Published for Adder {}

impl Adder {
    fn new() -> Adder {
        Adder(AtomicU64::new(0))
    }

    fn call(&self) -> u64 {
        self.0.fetch_add(1, Ordering::SeqCst)
    }
}

/// A thread's caller, and how often the thread called the plug-in.
#[derive(Drop)]
struct Job<N: Naming>(ValueCaller<N>, u64);

/// Calls the plug-in until a call is refused.
fn call<N: Naming, R: Wait>(rt: &R, registry: &Registry<N, Adder>, job: &mut Job<N>) {
    for _ in rt.forever() {
        match job.0.call(rt, registry, ADDER, |adder| adder.call()) {
            Ok(_) => job.1 = job.1.saturating_add(1),
            Err(_) => return,
        }
    }
}

/// Swaps the plug-in a thousand times, and returns how often the old ones were called.
fn swap<N: Naming, R: Wait>(
    rt: &R,
    registry: &Registry<N, Adder>,
    own: &mut ValueCaller<N>,
) -> Result<u64, Refusal> {
    let mut calls = 0u64;
    for _ in 0..1000 {
        let before = registry.swap(rt, own, ADDER, Adder::new());
        let before = before.map_err(|refused| refused.1)?;
        calls = calls.saturating_add(before.into_value().0.load(Ordering::SeqCst));
    }
    Ok(calls)
}

fn run<N: Naming + Send + Sync, R: Threads + Wait + Print + Sync>(
    rt: &R,
    alloc: Global,
    new: NewRegistry<Adder>,
) -> anyhow::Result<()>
    requires { new.tree.master.table ≡ N.table }
{
    let registry = new.named::<N>();
    let mut own = registry.caller(rt)?;
    let published = registry.publish(rt, &mut own, ADDER, Adder::new());
    published.map_err(|refused| refused.1)?;
    let mut jobs = Vec::new(alloc);
    for _ in 0..4 {
        jobs.push(Job(registry.caller(rt)?, 0))?;
    }
    let each = |_: usize, job: &mut Job<N>| call(rt, &registry, job);
    let (_, (swapped, last)) = join(
        rt,
        || for_each_mut(rt, jobs.as_mut_slice(), 4, &each),
        || (
            swap(rt, &registry, &mut own),
            registry.take(rt, &mut own, ADDER),
        ),
    );
    let last = last?.into_value(); // nobody is inside, and nobody will enter
    let all = swapped?.saturating_add(last.0.load(Ordering::SeqCst));
    let called = jobs.iter().fold(0u64, |sum, job| sum.saturating_add(job.1));
    println!(rt;
        "each call was of a plug-in that came back: {}",
        called == all
    )?;
    Ok(())
}

fn main(rt: HostRuntime) -> anyhow::Result<()> {
    run::<Brand, _>(&rt, rt.alloc(), NewRegistry::new(rt.alloc(), 2, 5)?)
}
