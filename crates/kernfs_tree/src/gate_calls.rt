//! The calls on gates and passes, for a node that many threads call.
ghost use Rattle.std.specs.Prelude.{◌≡◌, ◌≢◌, ◌⊎◌, false, true, pos, negsuc};
ghost use Rattle.kf_gates.specs.States.{IsLanes};
ghost use Rattle.kf_handles.specs.declared.object.Object.TheVariants as behind;
ghost use Rattle.kf_handles.specs.declared.object.Seat.TheVariants as seat_of;
ghost use Rattle.kf_handles.specs.Calls.{IsNothing, is_nothing};
ghost use Rattle.kf_handles.specs.Gating.{IsNoGate, IsNoHold, IsNotWithin, MadeGate, MadePass, NoPass, NotGated, NotPassed, PassedIn, PassedOut, StaysPass, StaysShut, WasShut};
ghost use Rattle.kf_handles.specs.LookUps.{IsRefusal};

use kf_handles::KtHandle;
use std::alloc::Global;

/// Makes a gate of a hold's node: the hold becomes a call, which the gate keeps. After that the hold's handle
/// has the gate. The handle `pass`, which has nothing behind it, gets the gate's first pass.
#[unsafe(no_mangle)]
pub extern "C" fn kt_gate(
    alloc: Global,
    hold: &mut KtHandle,
    lanes: u32,
    pass: &mut KtHandle,
) -> i32
    ensures made { result ≡ pos 0 → MadeGate hold.old.place.seat lanes hold.new.place.object
        pass.new.place.object × (hold.new.place.seat ≡ seat_of.None) × (pass.new.place.seat ≡ seat_of.None) }
    ensures was { result ≡ pos 0 → IsNothing pass.old.place }
    ensures taken { is_nothing pass.old.place ≡ false → result ≡ negsuc 21 }
    ensures unlawful { (¬ IsLanes lanes) → result ≡ negsuc 21 }
    ensures unfit { IsNoHold hold.old.place.seat hold.old.place.object → result ≡ negsuc 21 }
    ensures invalid { result ≡ negsuc 21 → (is_nothing pass.old.place ≡ false) ⊎ (¬ IsLanes lanes)
        ⊎ IsNoHold hold.old.place.seat hold.old.place.object }
    ensures kept { result ≡ negsuc 21 → hold.new.place ≡ hold.old.place }
    ensures same { result ≢ pos 0 → pass.new.place ≡ pass.old.place }
    ensures why { result ≢ pos 0 → result ≢ negsuc 21 →
        NotGated hold.old.place.seat hold.new.place.seat result
        × (hold.new.place.object ≡ hold.old.place.object) }
{
    kf_handles::gate(alloc, hold, lanes, pass)
}

/// Makes another pass of a pass's gate, behind a handle with nothing behind it. Its lane is the one with this
/// number, modulo the number of lanes.
#[unsafe(no_mangle)]
pub extern "C" fn kt_pass(pass: &mut KtHandle, lane: u32, other: &mut KtHandle) -> i32
    ensures made { result ≡ pos 0 → MadePass pass.old.place.object lane other.new.place.object
        × (other.new.place.seat ≡ seat_of.None) }
    ensures was { result ≡ pos 0 → IsNothing other.old.place }
    ensures taken { is_nothing other.old.place ≡ false → result ≡ negsuc 21 }
    ensures stays { StaysPass pass.old.place.object pass.new.place.object }
    ensures kept { is_nothing other.old.place ≡ false → pass.new.place ≡ pass.old.place }
    ensures beside { pass.new.place.seat ≡ pass.old.place.seat }
    ensures same { result ≢ pos 0 → other.new.place ≡ other.old.place }
    ensures why { is_nothing other.old.place ≡ true → result ≢ pos 0 →
        IsRefusal (NoPass pass.old.place.object pass.new.place.object) result }
{
    kf_handles::pass(pass, lane, other)
}

/// Goes inside by a pass (`percpu_ref_tryget_live`). Returns 0, or -ENODEV if the gate is shut.
#[unsafe(no_mangle)]
pub extern "C" fn kt_pass_enter(pass: &mut KtHandle) -> i32
    ensures entered { result ≡ pos 0 → PassedIn pass.old.place.object pass.new.place.object }
    ensures refused { result ≢ pos 0 → NotPassed pass.old.place.object pass.new.place.object result }
    ensures beside { pass.new.place.seat ≡ pass.old.place.seat }
{
    kf_handles::pass_enter(pass)
}

/// Leaves by a pass (`percpu_ref_put`). Returns 1 if the gate was found shut after that, since the gate's
/// owner may be waiting for callers to leave, and 0 otherwise.
#[unsafe(no_mangle)]
pub extern "C" fn kt_pass_leave(pass: &mut KtHandle) -> i32
    ensures left { (result ≡ pos 0) ⊎ (result ≡ pos 1) →
        PassedOut pass.old.place.object pass.new.place.object result }
    ensures same { result ≢ pos 0 → result ≢ pos 1 → pass.new.place.object ≡ pass.old.place.object }
    ensures why { result ≢ pos 0 → result ≢ pos 1 →
        (result ≡ negsuc 21) × IsNotWithin pass.old.place.object }
    ensures beside { pass.new.place.seat ≡ pass.old.place.seat }
{
    kf_handles::pass_leave(pass)
}

/// Shuts a gate (`percpu_ref_kill`), and looks whether anybody is inside. If nobody is, it ends the gate's
/// call, and the handle has the hold again. It then returns 1 if a removal or a hiding may be waiting for
/// that, and 0 otherwise. If it found somebody inside, it returns -EAGAIN: the gate is shut, and the caller
/// must call `kt_shut` again.
#[unsafe(no_mangle)]
pub extern "C" fn kt_shut(gate: &mut KtHandle) -> i32
    ensures shut { (result ≡ pos 0) ⊎ (result ≡ pos 1) →
        WasShut gate.old.place.object gate.new.place.seat result
        × (gate.new.place.object ≡ behind.Empty) }
    ensures not_yet { result ≡ negsuc 10 → StaysShut gate.old.place.object gate.new.place.object
        × (gate.new.place.seat ≡ gate.old.place.seat) }
    ensures kept { result ≢ pos 0 → result ≢ pos 1 → result ≢ negsuc 10 → gate.new.place ≡ gate.old.place }
    ensures why { result ≢ pos 0 → result ≢ pos 1 → result ≢ negsuc 10 →
        (result ≡ negsuc 21) × IsNoGate gate.old.place.object }
{
    kf_handles::shut(gate)
}
