//! The steps of a hold and a call, made in place: a program's handle is only read.
ghost use Rattle.std.specs.Prelude.{◌≡◌, ◌≢◌, ◌⊎◌, pos, negsuc};
ghost use Rattle.kf_handles.specs.Steps.{WasEntered, WasRefused, WasLeft, WasBroken, WasRestored, HasNoReference, IsNotRunning, IsNotBroken, enter_error, wake_of};

use crate::handle::KtHandle;
use crate::steps;
use core::mem::replace_with;

/// Tries for an active reference.
#[inline(always)]
pub fn enter(hold: &mut KtHandle) -> i32
    ensures entered { result ≡ pos 0 → WasEntered hold.old.place.seat hold.new.place.seat }
    ensures refused { result ≢ pos 0 → WasRefused hold.old.place.seat hold.new.place.seat }
    ensures why { result ≢ pos 0 → result ≡ enter_error hold.old.place.seat }
    ensures beside { hold.new.place.object ≡ hold.old.place.object }
{
    replace_with(&mut hold.place_mut().seat, (), steps::enter)
}

/// Ends the call and releases its reference. Returns 1 if a sleeper may be waiting for that, 0 if not, and
/// -EINVAL if there is no call with a reference.
#[inline(always)]
pub fn leave(call: &mut KtHandle) -> i32
    ensures left { (result ≡ pos 0) ⊎ (result ≡ pos 1) →
        WasLeft call.old.place.seat call.new.place.seat }
    ensures owed { (result ≡ pos 0) ⊎ (result ≡ pos 1) → result ≡ wake_of call.new.place.seat }
    ensures same { result ≢ pos 0 → result ≢ pos 1 → call.new.place.seat ≡ call.old.place.seat }
    ensures why { result ≢ pos 0 → result ≢ pos 1 →
        (result ≡ negsuc 21) × HasNoReference call.old.place.seat }
    ensures beside { call.new.place.object ≡ call.old.place.object }
{
    replace_with(&mut call.place_mut().seat, (), steps::leave)
}

/// Gives up the reference inside the callback. Returns 1 if a sleeper may be waiting for that, 0 if not, and
/// -EINVAL if there is no running call.
pub fn break_off(call: &mut KtHandle) -> i32
    ensures broken { (result ≡ pos 0) ⊎ (result ≡ pos 1) →
        WasBroken call.old.place.seat call.new.place.seat }
    ensures owed { (result ≡ pos 0) ⊎ (result ≡ pos 1) → result ≡ wake_of call.new.place.seat }
    ensures same { result ≢ pos 0 → result ≢ pos 1 → call.new.place.seat ≡ call.old.place.seat }
    ensures why { result ≢ pos 0 → result ≢ pos 1 →
        (result ≡ negsuc 21) × IsNotRunning call.old.place.seat }
    ensures beside { call.new.place.object ≡ call.old.place.object }
{
    steps::break_off(&mut call.place_mut().seat)
}

/// Takes a reference again, if the call gave its reference up.
pub fn restore(call: &mut KtHandle) -> i32
    ensures restored { result ≡ pos 0 → WasRestored call.old.place.seat call.new.place.seat }
    ensures same { result ≢ pos 0 → call.new.place.seat ≡ call.old.place.seat }
    ensures why { result ≢ pos 0 →
        (result ≡ negsuc 21) × IsNotBroken call.old.place.seat }
    ensures beside { call.new.place.object ≡ call.old.place.object }
{
    steps::restore(&mut call.place_mut().seat)
}
