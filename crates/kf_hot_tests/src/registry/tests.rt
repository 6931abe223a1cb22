//! The registry in one thread, and under four callers.

use crate::registry::counted::Counted;
use crate::registry::crowd::{taken_in_use, under_swaps};
use crate::registry::hot;
use crate::registry::steps::alone;
use kf_registry::NewRegistry;
use std::alloc::Global;
use std::marker::Brand;
use std::process::Abort;

fn made<R: Abort>(rt: &R, alloc: Global, values: u16, callers: u16) -> NewRegistry<Counted> {
    match NewRegistry::new(alloc, values, callers) {
        Ok(new) => new,
        Err(_) => panic!(rt; "no memory"),
    }
}

#[test]
fn one_thread(rt: HostRuntime) {
    let new = made(&rt, rt.alloc(), 3, 0);
    alone::<Brand, _>(&rt, new);
}

#[test]
fn a_thousand_swaps(rt: HostRuntime) {
    let new = made(&rt, rt.alloc(), 2, 5);
    under_swaps::<Brand, _>(&rt, rt.alloc(), new);
}

#[test]
fn a_take_that_waits(rt: HostRuntime) {
    let new = made(&rt, rt.alloc(), 1, 2);
    taken_in_use::<Brand, _>(&rt, new);
}

#[test]
fn a_hot_value(rt: HostRuntime) {
    let new = made(&rt, rt.alloc(), 2, 0);
    hot::alone::<Brand, _>(&rt, new);
}

#[test]
fn a_hundred_hot_values(rt: HostRuntime) {
    let new = made(&rt, rt.alloc(), 1, 5);
    hot::under_calls::<Brand, _>(&rt, rt.alloc(), new);
}
