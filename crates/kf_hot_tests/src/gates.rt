//! Gates in one thread: lanes, passes, openings, and a protection that is broken.
ghost use Rattle.std.specs.Prelude.{◌≡◌, false, true};
ghost use Rattle.kf_core.specs.declared.caller.Phase.TheVariants as phase_of;

use kf_core::Refusal;
use kf_gates::{Closed, GateCall, Keeper, MOST_LANES, Pass};
use std::alloc::Global;
use std::process::Abort;

fn refused(alloc: Global, lanes: u64) -> bool {
    match Closed::new(alloc, lanes) {
        Ok(_) => false,
        Err(why) => why == Refusal::Invalid,
    }
}

/// A gate with this number of lanes, and its first pass.
pub(crate) fn gate<R: Abort>(rt: &R, alloc: Global, lanes: u64) -> (Closed, Pass)
    ensures gate { result.1.seat.gate ≡ result.0.seat.gate }
{
    match Closed::new(alloc, lanes) {
        Ok(made) => made,
        Err(_) => panic!(rt; "no gate"),
    }
}

/// Another pass of the same gate, in this lane.
pub(crate) fn another<R: Abort>(rt: &R, pass: &mut Pass, lane: u64) -> Pass
    ensures same { pass.new.seat ≡ pass.old.seat }
    ensures gate { result.seat.gate ≡ pass.old.seat.gate }
{
    match pass.another(lane) {
        Ok(other) => other,
        Err(_) => panic!(rt; "no pass"),
    }
}

pub(crate) fn enter<R: Abort>(rt: &R, pass: Pass, number: u64) -> GateCall
    ensures running { result.phase ≡ phase_of.Running }
{
    match pass.enter(number) {
        Ok(call) => call,
        Err(_) => panic!(rt; "an open gate refused a pass"),
    }
}

fn turned_away<R: Abort>(rt: &R, pass: Pass, number: u64) -> Pass {
    match pass.enter(number) {
        Ok(call) => {
            call.leave();
            panic!(rt; "a pass was let in")
        }
        Err(pass) => pass,
    }
}

fn open<R: Abort>(rt: &R, closed: Closed, kept: u64) -> Keeper<u64>
    ensures open { result.plan.shut ≡ false }
{
    match closed.open(kept) {
        Ok(keeper) => keeper,
        Err(_) => panic!(rt; "not opened"),
    }
}

/// Tries to close the gate, which must fail since somebody is inside.
fn not_closed<R: Abort>(rt: &R, keeper: Keeper<u64>) -> Keeper<u64>
    requires shut { keeper.plan.shut ≡ true }
    ensures shut { result.plan.shut ≡ true }
{
    match keeper.try_close() {
        Ok(_) => panic!(rt; "closed too early"),
        Err(keeper) => keeper,
    }
}

/// Closes the gate, which must succeed since nobody is inside, and must return this value.
fn closed_with<R: Abort>(rt: &R, keeper: Keeper<u64>, kept: u64) -> Closed
    requires shut { keeper.plan.shut ≡ true }
{
    match keeper.try_close() {
        Ok((closed, value)) => {
            assert!(rt; value == kept);
            closed
        }
        Err(_) => panic!(rt; "not closed"),
    }
}

/// Gates with the least and the greatest number of lanes, and refusals just outside these bounds.
pub(crate) fn lanes<R: Abort>(rt: &R, alloc: Global) {
    assert!(rt; refused(alloc, 0) && refused(alloc, MOST_LANES + 1) && refused(alloc, u64::MAX));
    let (closed, _) = gate(rt, alloc, 1);
    assert!(rt; closed.number() == 0);
    let (most, mut pass) = gate(rt, alloc, MOST_LANES);
    let mut keeper = open(rt, most, 3);
    let last = another(rt, &mut pass, MOST_LANES - 1);
    let call = enter(rt, last, 1);
    keeper.shut();
    let keeper = not_closed(rt, keeper);
    call.leave();
    closed_with(rt, keeper, 3);
}

/// Two callers are inside, in two lanes, and the gate is closed once both have left. Then it opens under the
/// next number.
pub(crate) fn openings<R: Abort>(rt: &R, alloc: Global) {
    let (closed, mut first) = gate(rt, alloc, 2);
    let second = another(rt, &mut first, 7);
    let first = turned_away(rt, first, 0); // a new gate is shut
    let mut keeper = open(rt, closed, 11);
    assert!(rt; keeper.number() == 1 && !keeper.is_shut() && *keeper.kept() == 11);
    let first = turned_away(rt, first, 2); // the gate is not open under this number
    let first = enter(rt, first, 1);
    let second = enter(rt, second, 1);
    keeper.shut();
    keeper.shut();
    let keeper = not_closed(rt, keeper);
    let first = turned_away(rt, first.leave(), 1);
    let keeper = not_closed(rt, keeper);
    let second = second.leave();
    let closed = closed_with(rt, keeper, 11);
    assert!(rt; closed.number() == 1);
    let first = turned_away(rt, first, 1);
    let mut keeper = open(rt, closed, 12);
    let first = turned_away(rt, first, 1); // the number of the previous opening
    let call = enter(rt, first, 2);
    call.leave();
    turned_away(rt, second, 1);
    keeper.shut();
    closed_with(rt, keeper, 12);
}

/// A caller that broke its protection does not keep the gate from being closed. It counts again once it is
/// restored.
pub(crate) fn broken<R: Abort>(rt: &R, alloc: Global) {
    let (closed, pass) = gate(rt, alloc, 3);
    let mut keeper = open(rt, closed, 5);
    let mut call = enter(rt, pass, 1);
    keeper.shut();
    let keeper = not_closed(rt, keeper);
    call.break_protection();
    let closed = closed_with(rt, keeper, 5);
    call.restore();
    let mut keeper = open(rt, closed, 6);
    keeper.shut();
    let keeper = not_closed(rt, keeper);
    let pass = call.leave();
    let closed = closed_with(rt, keeper, 6);
    turned_away(rt, pass, 2);
    assert!(rt; closed.number() == 2);
}
