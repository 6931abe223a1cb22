//! The calls on a hold, which make another hold of its node, and take and release its active reference.
ghost use Rattle.std.specs.Prelude.{◌≡◌, ◌≢◌, ◌⊎◌, pos, negsuc, true, false};
ghost use Rattle.kf_handles.specs.declared.object.Object.TheVariants as behind;
ghost use Rattle.kf_handles.specs.Calls.{IsNothing, is_nothing};
ghost use Rattle.kf_handles.specs.Another.{GaveAnother, GaveNoOther, WhyNoOther};
ghost use Rattle.kf_handles.specs.Steps.{WasEntered, WasRefused, WasLeft, WasBroken, WasRestored, HasNoReference, IsNotRunning, IsNotBroken, enter_error, wake_of};

use kf_handles::KtHandle;

/// Takes another hold of a hold's node, behind a handle with nothing behind it. The node may have left the
/// tree. The call does not need the tree.
#[unsafe(no_mangle)]
pub extern "C" fn kt_dup(hold: &mut KtHandle, out: &mut KtHandle) -> i32
    ensures another { result ≡ pos 0 → GaveAnother hold.old.place.seat hold.new.place.seat out.new.place.seat
        × (out.new.place.object ≡ behind.Empty) }
    ensures taken { is_nothing out.old.place ≡ false → result ≡ negsuc 21 }
    ensures was { result ≡ pos 0 → IsNothing out.old.place }
    ensures none { result ≢ pos 0 → is_nothing out.old.place ≡ true →
        GaveNoOther hold.old.place.seat hold.new.place.seat }
    ensures same { result ≢ pos 0 → out.new.place ≡ out.old.place }
    ensures kept { is_nothing out.old.place ≡ false → hold.new.place ≡ hold.old.place }
    ensures beside { hold.new.place.object ≡ hold.old.place.object }
    ensures why { is_nothing out.old.place ≡ true → result ≢ pos 0 →
        WhyNoOther hold.old.place.seat hold.new.place.seat result }
{
    kf_handles::dup(hold, out)
}

/// Tries to take an active reference (`kernfs_get_active`). Returns 0, or -ENODEV if the node is not live.
#[unsafe(no_mangle)]
pub extern "C" fn kt_enter(hold: &mut KtHandle) -> i32
    ensures entered { result ≡ pos 0 → WasEntered hold.old.place.seat hold.new.place.seat }
    ensures refused { result ≢ pos 0 → WasRefused hold.old.place.seat hold.new.place.seat }
    ensures why { result ≢ pos 0 → result ≡ enter_error hold.old.place.seat }
    ensures beside { hold.new.place.object ≡ hold.old.place.object }
{
    kf_handles::enter(hold)
}

/// Releases the reference (`kernfs_put_active`). Returns 0, or 1 if a removal or a hiding may be waiting for
/// that.
#[unsafe(no_mangle)]
pub extern "C" fn kt_leave(call: &mut KtHandle) -> i32
    ensures left { (result ≡ pos 0) ⊎ (result ≡ pos 1) →
        WasLeft call.old.place.seat call.new.place.seat }
    ensures owed { (result ≡ pos 0) ⊎ (result ≡ pos 1) → result ≡ wake_of call.new.place.seat }
    ensures same { result ≢ pos 0 → result ≢ pos 1 → call.new.place.seat ≡ call.old.place.seat }
    ensures why { result ≢ pos 0 → result ≢ pos 1 →
        (result ≡ negsuc 21) × HasNoReference call.old.place.seat }
    ensures beside { call.new.place.object ≡ call.old.place.object }
{
    kf_handles::leave(call)
}

/// Gives the reference up inside the callback (`kernfs_break_active_protection`). Returns 0, or 1 if a
/// removal or a hiding may be waiting for that.
#[unsafe(no_mangle)]
pub extern "C" fn kt_break(call: &mut KtHandle) -> i32
    ensures broken { (result ≡ pos 0) ⊎ (result ≡ pos 1) →
        WasBroken call.old.place.seat call.new.place.seat }
    ensures owed { (result ≡ pos 0) ⊎ (result ≡ pos 1) → result ≡ wake_of call.new.place.seat }
    ensures same { result ≢ pos 0 → result ≢ pos 1 → call.new.place.seat ≡ call.old.place.seat }
    ensures why { result ≢ pos 0 → result ≢ pos 1 →
        (result ≡ negsuc 21) × IsNotRunning call.old.place.seat }
    ensures beside { call.new.place.object ≡ call.old.place.object }
{
    kf_handles::break_off(call)
}

/// Takes a reference again after `kt_break` (`kernfs_unbreak_active_protection`).
#[unsafe(no_mangle)]
pub extern "C" fn kt_restore(call: &mut KtHandle) -> i32
    ensures restored { result ≡ pos 0 → WasRestored call.old.place.seat call.new.place.seat }
    ensures same { result ≢ pos 0 → call.new.place.seat ≡ call.old.place.seat }
    ensures why { result ≢ pos 0 →
        (result ≡ negsuc 21) × IsNotBroken call.old.place.seat }
    ensures beside { call.new.place.object ≡ call.old.place.object }
{
    kf_handles::restore(call)
}
