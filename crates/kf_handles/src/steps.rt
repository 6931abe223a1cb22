//! The steps of a hold and a call behind a handle. They take no lock and wake nobody.
ghost use Rattle.std.specs.Prelude.{◌≡◌, ◌≢◌, ◌⊎◌, pos, negsuc, if◌then◌else◌};
ghost use Rattle.kf_core.specs.declared.caller.Phase.TheVariants.{Running, Broken};
ghost use Rattle.kf_words.specs.Callers.{is_wanted};
ghost use Rattle.kf_handles.specs.Steps.{WasEntered, WasEnteredToShow, WasRefused, enter_error, WasLeft, HasBroken, WasBroken, HasRestored, WasRestored, HasNoReference, IsNotRunning, IsNotBroken, wake_after, wake_of};

use crate::errors::{INVALID, NO_DEVICE};
use crate::holds::{Held, Inside};
use crate::object::Seat;
use kf_core::Phase;
use kf_words::Wake;

/// 1 if a sleeper may be waiting for the step that was made, else 0.
pub fn wake_status(wake: Wake) -> i32
    ensures value { result ≡ pos (if is_wanted wake then 1 else 0) }
    ensures range { (result ≡ pos 0) ⊎ (result ≡ pos 1) }
{
    match wake {
        Wake::Wanted => 1,
        Wake::Unwanted => 0,
    }
}

/// Returns -ENODEV after a refused try, whether or not undoing the try owes a wake: the caller in C wakes the
/// threads that wait.
pub fn no_device(wake: Wake) -> i32
    ensures { result ≡ negsuc 18 }
{
    match wake {
        Wake::Wanted | Wake::Unwanted => NO_DEVICE,
    }
}

/// Tries for an active reference.
#[inline(always)]
pub fn enter(seat: Seat, _nothing: ()) -> (Seat, i32)
    ensures entered { result.1 ≡ pos 0 → WasEntered seat result.0 }
    ensures refused { result.1 ≢ pos 0 → WasRefused seat result.0 }
    ensures why { result.1 ≢ pos 0 → result.1 ≡ enter_error seat }
    ensures range { result.1 ≢ pos 1 }
{
    match seat {
        Seat::Hold(held) => match held.into_hold().enter_quiet() {
            Ok(call) => (Seat::Call(Inside::new(call)), 0),
            Err((hold, due)) => (Seat::Hold(Held::new(hold)), no_device(due.must_wake())),
        },
        other => (other, INVALID),
    }
}

/// Tries for an active reference for a show.
#[inline(always)]
pub fn enter_to_show(seat: Seat, _nothing: ()) -> (Seat, i32)
    ensures entered { result.1 ≡ pos 0 → WasEnteredToShow seat result.0 }
    ensures refused { result.1 ≢ pos 0 → WasRefused seat result.0 }
    ensures why { result.1 ≢ pos 0 → result.1 ≡ enter_error seat }
    ensures range { result.1 ≢ pos 1 }
{
    match seat {
        Seat::Hold(held) => match held.into_hold().enter_quiet() {
            Ok(call) => (Seat::Show(Inside::new(call)), 0),
            Err((back, due)) => (Seat::Hold(Held::new(back)), no_device(due.must_wake())),
        },
        other => (other, INVALID),
    }
}

/// Ends the call and releases its reference, if the seat is a call that has one.
#[inline(always)]
pub fn leave(seat: Seat, _nothing: ()) -> (Seat, i32)
    ensures left { (result.1 ≡ pos 0) ⊎ (result.1 ≡ pos 1) → WasLeft seat result.0 }
    ensures owed { (result.1 ≡ pos 0) ⊎ (result.1 ≡ pos 1) → result.1 ≡ wake_of result.0 }
    ensures same { result.1 ≢ pos 0 → result.1 ≢ pos 1 → result.0 ≡ seat }
    ensures why { result.1 ≢ pos 0 → result.1 ≢ pos 1 → (result.1 ≡ negsuc 21) × HasNoReference seat }
{
    match seat {
        Seat::Call(inside) => {
            let call = inside.into_call();
            if call.phase() == Phase::Broken {
                return (Seat::Call(Inside::new(call)), INVALID);
            }
            let (hold, due) = call.leave_quiet();
            (Seat::Hold(Held::new(hold)), wake_status(due.must_wake()))
        }
        Seat::Show(inside) => {
            let call = inside.into_call();
            if call.phase() == Phase::Broken {
                return (Seat::Show(Inside::new(call)), INVALID);
            }
            let (back, due) = call.leave_quiet();
            (Seat::Hold(Held::new(back)), wake_status(due.must_wake()))
        }
        other => (other, INVALID),
    }
}

/// Gives up the reference of a call, if the call still has the one with which it entered.
#[inline(always)]
fn break_inside(inside: &mut Inside) -> i32
    ensures broken { (result ≡ pos 0) ⊎ (result ≡ pos 1) → HasBroken inside.old.call inside.new.call }
    ensures owed { (result ≡ pos 0) ⊎ (result ≡ pos 1) → result ≡ wake_after inside.new.call.found }
    ensures same { result ≢ pos 0 → result ≢ pos 1 → inside.new ≡ inside.old }
    ensures why { result ≢ pos 0 → result ≢ pos 1 →
        (result ≡ negsuc 21) × (inside.old.call.phase ≢ Running) }
{
    if !inside.is_running() {
        return INVALID;
    }
    wake_status(inside.call.break_quiet().must_wake())
}

/// Gives up the reference inside the callback, if the seat is a call that still has the one with which it
/// entered.
#[inline(always)]
pub fn break_off(seat: &mut Seat) -> i32
    ensures broken { (result ≡ pos 0) ⊎ (result ≡ pos 1) → WasBroken seat.old seat.new }
    ensures owed { (result ≡ pos 0) ⊎ (result ≡ pos 1) → result ≡ wake_of seat.new }
    ensures same { result ≢ pos 0 → result ≢ pos 1 → seat.new ≡ seat.old }
    ensures why { result ≢ pos 0 → result ≢ pos 1 → (result ≡ negsuc 21) × IsNotRunning seat.old }
{
    match seat {
        Seat::Call(inside) => break_inside(inside),
        Seat::Show(inside) => break_inside(inside),
        _ => INVALID,
    }
}

/// Takes a reference again, if the call gave its reference up.
#[inline(always)]
fn restore_inside(inside: &mut Inside) -> i32
    ensures restored { result ≡ pos 0 → HasRestored inside.old.call inside.new.call }
    ensures same { result ≢ pos 0 → inside.new ≡ inside.old }
    ensures why { result ≢ pos 0 → (result ≡ negsuc 21) × (inside.old.call.phase ≢ Broken) }
{
    if inside.call.phase() != Phase::Broken {
        return INVALID;
    }
    inside.call.restore();
    0
}

/// Takes a reference again, if the call gave its reference up.
#[inline(always)]
pub fn restore(seat: &mut Seat) -> i32
    ensures restored { result ≡ pos 0 → WasRestored seat.old seat.new }
    ensures same { result ≢ pos 0 → seat.new ≡ seat.old }
    ensures why { result ≢ pos 0 → (result ≡ negsuc 21) × IsNotBroken seat.old }
{
    match seat {
        Seat::Call(inside) => restore_inside(inside),
        Seat::Show(inside) => restore_inside(inside),
        _ => INVALID,
    }
}
