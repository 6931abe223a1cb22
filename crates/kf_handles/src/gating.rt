//! A gate of a node, and passes of the gate, behind handles. Their steps take no lock and wake nobody.
ghost use Rattle.std.specs.Prelude.{◌≡◌, ◌≢◌, ◌⊎◌, false, true, pos, negsuc, IfErr, IfOk};
ghost use Rattle.kf_gates.specs.States.{IsLanes};
ghost use Rattle.kf_handles.specs.Calls.{IsNothing, is_nothing};
ghost use Rattle.kf_handles.specs.Gating.{IsNoGate, IsNoHold, IsNotWithin, MadeGate, MadePass, NoPass, NotGated, NotPassed, PassedIn, PassedOut, StaysPass, StaysShut, WasGated, WasShut};
ghost use Rattle.kf_handles.specs.LookUps.{IsRefusal};
ghost use Rattle.kf_handles.specs.declared.object.Object.TheVariants as behind;
ghost use Rattle.kf_handles.specs.declared.object.Seat.TheVariants as seat_of;

use crate::errors::{AGAIN, INVALID, NO_MEMORY, error_of};
use crate::handle::KtHandle;
use crate::holds::Held;
use crate::object::{Object, Place, Seat};
use crate::replies::put;
use crate::steps::{no_device, wake_status};
use crate::telling::is_nothing;
use core::mem::replace;
use kf_core::Refusal;
use kf_gates::MOST_LANES;
use kf_passes::{Gate, Way, gate_of};
use kf_words::Wake;
use std::alloc::Global;

/// Returns -ENOMEM after a call was left again, whether or not that owes a wake: the caller in C wakes the
/// threads that wait.
fn no_memory(wake: Wake) -> i32
    ensures { result ≡ negsuc 11 }
{
    match wake {
        Wake::Wanted | Wake::Unwanted => NO_MEMORY,
    }
}

/// Enters by a hold, and makes a gate that keeps the call. Returns the gate and its first pass.
fn gated(seat: Seat, alloc: Global, lanes: u64) -> Result<(Box<Gate>, Way), (Seat, i32)>
    requires lanes { IsLanes lanes }
    ensures made { IfOk result (λ r. WasGated seat lanes r.0.value r.1) }
    ensures not { IfErr result (λ r. NotGated seat r.0 r.1) }
{
    let held = match seat {
        Seat::Hold(held) => held,
        other => return Err((other, INVALID)),
    };
    match held.into_hold().enter_quiet() {
        Err((hold, due)) => Err((Seat::Hold(Held::new(hold)), no_device(due.must_wake()))),
        Ok(call) => match gate_of(alloc, lanes, call) {
            Ok(made) => Ok(made),
            Err(call) => {
                let (hold, due) = call.leave_quiet();
                Err((Seat::Hold(Held::new(hold)), no_memory(due.must_wake())))
            }
        },
    }
}

/// Whether there is a hold with nothing beside it.
fn is_hold(place: &Place) -> bool
    ensures none { result ≡ false → IsNoHold place.now.seat place.now.object }
    ensures hold { result ≡ true → IsNoHold place.now.seat place.now.object → ⊥ }
{
    match (&place.seat, &place.object) {
        (Seat::Hold(_), Object::Empty) => true,
        _ => false,
    }
}

/// Makes a gate of a hold's node, and puts it behind the handle of the hold. The gate's first pass is put
/// behind a handle with nothing behind it.
pub fn gate(alloc: Global, hold: &mut KtHandle, lanes: u32, pass: &mut KtHandle) -> i32
    ensures made { result ≡ pos 0 → MadeGate hold.old.place.seat lanes hold.new.place.object
        pass.new.place.object × (hold.new.place.seat ≡ seat_of.None) × (pass.new.place.seat ≡ seat_of.None) }
    ensures was { result ≡ pos 0 → IsNothing pass.old.place }
    ensures taken { is_nothing pass.old.place ≡ false → result ≡ negsuc 21 }
    ensures unlawful { (¬ IsLanes lanes) → result ≡ negsuc 21 }
    ensures unfit { IsNoHold hold.old.place.seat hold.old.place.object → result ≡ negsuc 21 }
    ensures invalid { result ≡ negsuc 21 → (is_nothing pass.old.place ≡ false) ⊎ (¬ IsLanes lanes)
        ⊎ IsNoHold hold.old.place.seat hold.old.place.object }
    ensures kept { result ≡ negsuc 21 → hold.new.place ≡ hold.old.place }
    ensures same { result ≢ pos 0 → pass.new.place ≡ pass.old.place }
    ensures why { result ≢ pos 0 → result ≢ negsuc 21 →
        NotGated hold.old.place.seat hold.new.place.seat result
        × (hold.new.place.object ≡ hold.old.place.object) }
{
    if lanes == 0 || u64::from(lanes) > MOST_LANES {
        return INVALID;
    }
    if !is_nothing(pass) {
        return INVALID;
    }
    let place = hold.place_mut();
    if !is_hold(place) {
        return INVALID;
    }
    match gated(
        replace(&mut place.seat, Seat::None),
        alloc,
        u64::from(lanes),
    ) {
        Ok((gate, way)) => {
            place.object = Object::Gate(gate);
            put(pass.place_mut(), Seat::None, Object::Pass(way))
        }
        Err((seat, why)) => {
            place.seat = seat;
            why
        }
    }
}

/// Shuts the gate, if the object is a gate that is not closed, and ends its call if nobody is inside.
fn shut_in(place: &mut Place) -> i32
    ensures shut { (result ≡ pos 0) ⊎ (result ≡ pos 1) → WasShut place.old.object place.new.seat result
        × (place.new.object ≡ behind.Empty) }
    ensures not_yet { result ≡ negsuc 10 → StaysShut place.old.object place.new.object
        × (place.new.seat ≡ place.old.seat) }
    ensures kept { result ≢ pos 0 → result ≢ pos 1 → result ≢ negsuc 10 → place.new ≡ place.old }
    ensures why { result ≢ pos 0 → result ≢ pos 1 → result ≢ negsuc 10 →
        (result ≡ negsuc 21) × IsNoGate place.old.object }
{
    let ended = match &mut place.object {
        Object::Gate(gate) if gate.is_open() => gate.as_mut().shut(),
        _ => return INVALID,
    };
    match ended {
        Some((hold, due)) => {
            place.object = Object::Empty;
            place.seat = Seat::Hold(Held::new(hold));
            wake_status(due.must_wake())
        }
        None => AGAIN,
    }
}

/// Shuts a gate, and looks whether anybody is inside. If nobody is, the gate's handle has the hold again.
pub fn shut(gate: &mut KtHandle) -> i32
    ensures shut { (result ≡ pos 0) ⊎ (result ≡ pos 1) →
        WasShut gate.old.place.object gate.new.place.seat result
        × (gate.new.place.object ≡ behind.Empty) }
    ensures not_yet { result ≡ negsuc 10 → StaysShut gate.old.place.object gate.new.place.object
        × (gate.new.place.seat ≡ gate.old.place.seat) }
    ensures kept { result ≢ pos 0 → result ≢ pos 1 → result ≢ negsuc 10 → gate.new.place ≡ gate.old.place }
    ensures why { result ≢ pos 0 → result ≢ pos 1 → result ≢ negsuc 10 →
        (result ≡ negsuc 21) × IsNoGate gate.old.place.object }
{
    shut_in(gate.place_mut())
}

/// Another pass of the same gate, if the object is a pass.
fn another_in(object: &mut Object, lane: u64) -> Result<Way, Refusal>
    ensures made { IfOk result (λ other. MadePass object.old lane (behind.Pass other)) }
    ensures same { StaysPass object.old object.new }
    ensures refused { IfErr result (λ why. NoPass object.old object.new why) }
{
    match object {
        Object::Pass(way) => way.another(lane),
        _ => Err(Refusal::Invalid),
    }
}

/// Makes another pass of a pass's gate, and puts it behind a handle with nothing behind it.
pub fn pass(pass: &mut KtHandle, lane: u32, other: &mut KtHandle) -> i32
    ensures made { result ≡ pos 0 → MadePass pass.old.place.object lane other.new.place.object
        × (other.new.place.seat ≡ seat_of.None) }
    ensures was { result ≡ pos 0 → IsNothing other.old.place }
    ensures taken { is_nothing other.old.place ≡ false → result ≡ negsuc 21 }
    ensures stays { StaysPass pass.old.place.object pass.new.place.object }
    ensures kept { is_nothing other.old.place ≡ false → pass.new.place ≡ pass.old.place }
    ensures beside { pass.new.place.seat ≡ pass.old.place.seat }
    ensures same { result ≢ pos 0 → other.new.place ≡ other.old.place }
    ensures why { is_nothing other.old.place ≡ true → result ≢ pos 0 →
        IsRefusal (NoPass pass.old.place.object pass.new.place.object) result }
{
    if !is_nothing(other) {
        return INVALID;
    }
    match another_in(&mut pass.place_mut().object, u64::from(lane)) {
        Ok(way) => put(other.place_mut(), Seat::None, Object::Pass(way)),
        Err(refusal) => error_of(refusal),
    }
}

/// Goes inside, if the object is a pass.
#[inline(always)]
fn enter_in(object: &mut Object) -> i32
    ensures entered { result ≡ pos 0 → PassedIn object.old object.new }
    ensures refused { result ≢ pos 0 → NotPassed object.old object.new result }
{
    match object {
        Object::Pass(way) => match way.enter() {
            Ok(()) => 0,
            Err(refusal) => error_of(refusal),
        },
        _ => INVALID,
    }
}

/// Goes inside by a pass.
#[inline(always)]
pub fn pass_enter(pass: &mut KtHandle) -> i32
    ensures entered { result ≡ pos 0 → PassedIn pass.old.place.object pass.new.place.object }
    ensures refused { result ≢ pos 0 → NotPassed pass.old.place.object pass.new.place.object result }
    ensures beside { pass.new.place.seat ≡ pass.old.place.seat }
{
    enter_in(&mut pass.place_mut().object)
}

/// Goes out, if the object is a pass that is inside. Returns 1 if the gate was found shut after that, 0 if
/// not, and -EINVAL if the object is not such a pass.
#[inline(always)]
fn leave_in(object: &mut Object) -> i32
    ensures left { (result ≡ pos 0) ⊎ (result ≡ pos 1) → PassedOut object.old object.new result }
    ensures same { result ≢ pos 0 → result ≢ pos 1 → object.new ≡ object.old }
    ensures why { result ≢ pos 0 → result ≢ pos 1 → (result ≡ negsuc 21) × IsNotWithin object.old }
{
    match object {
        Object::Pass(way) => match way.leave() {
            Some(true) => 1,
            Some(false) => 0,
            None => INVALID,
        },
        _ => INVALID,
    }
}

/// Goes out by a pass. Returns 1 if the gate was found shut after that, 0 if not, and -EINVAL if there is no
/// pass that is inside.
#[inline(always)]
pub fn pass_leave(pass: &mut KtHandle) -> i32
    ensures left { (result ≡ pos 0) ⊎ (result ≡ pos 1) →
        PassedOut pass.old.place.object pass.new.place.object result }
    ensures same { result ≢ pos 0 → result ≢ pos 1 → pass.new.place.object ≡ pass.old.place.object }
    ensures why { result ≢ pos 0 → result ≢ pos 1 →
        (result ≡ negsuc 21) × IsNotWithin pass.old.place.object }
    ensures beside { pass.new.place.seat ≡ pass.old.place.seat }
{
    leave_in(&mut pass.place_mut().object)
}
