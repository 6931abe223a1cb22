//! Making another hold from a hold, which needs neither the tree nor its lock.
ghost use Rattle.std.specs.Prelude.{◌≡◌, ◌≢◌, false, true, pos, negsuc, IfErr, IfOk, OnErr};
ghost use Rattle.kf_handles.specs.Calls.{IsNothing, is_nothing};
ghost use Rattle.kf_handles.specs.Another.{GaveAnother, GaveNoOther, WhyNoOther};
ghost use Rattle.kf_handles.specs.LookUps.{error_in_c};
ghost use Rattle.kf_handles.specs.declared.object.Object.TheVariants as behind;
ghost use Rattle.kf_handles.specs.declared.object.Seat.TheVariants as seat_of;

use crate::errors::{INVALID, error_of};
use crate::handle::KtHandle;
use crate::holds::Held;
use crate::object::{Object, Seat};
use crate::replies::put;
use crate::telling::is_nothing;
use kf_core::Refusal;

/// Another hold of the node, if the seat is a hold.
fn another_of(seat: &mut Seat) -> Result<Held, Refusal>
    ensures made { IfOk result (λ other. GaveAnother seat.old seat.new (seat_of.Hold other)) }
    ensures none { OnErr result (GaveNoOther seat.old seat.new) }
    ensures why { IfErr result (λ why. WhyNoOther seat.old seat.new (error_in_c why)) }
{
    match seat {
        Seat::Hold(held) => match held.hold.another() {
            Ok(hold) => Ok(Held::new(hold)),
            Err(refusal) => Err(refusal),
        },
        _ => Err(Refusal::Invalid),
    }
}

/// Makes another hold of a hold's node, and puts it behind a handle with nothing behind it. It needs neither
/// the tree nor its lock.
pub fn dup(hold: &mut KtHandle, out: &mut KtHandle) -> i32
    ensures another { result ≡ pos 0 → GaveAnother hold.old.place.seat hold.new.place.seat out.new.place.seat
        × (out.new.place.object ≡ behind.Empty) }
    ensures taken { is_nothing out.old.place ≡ false → result ≡ negsuc 21 }
    ensures was { result ≡ pos 0 → IsNothing out.old.place }
    ensures none { result ≢ pos 0 → is_nothing out.old.place ≡ true →
        GaveNoOther hold.old.place.seat hold.new.place.seat }
    ensures same { result ≢ pos 0 → out.new.place ≡ out.old.place }
    ensures kept { is_nothing out.old.place ≡ false → hold.new.place ≡ hold.old.place }
    ensures beside { hold.new.place.object ≡ hold.old.place.object }
    ensures why { is_nothing out.old.place ≡ true → result ≢ pos 0 →
        WhyNoOther hold.old.place.seat hold.new.place.seat result }
{
    if !is_nothing(out) {
        return INVALID;
    }
    match another_of(&mut hold.place_mut().seat) {
        Ok(held) => { put(out.place_mut(), Seat::Hold(held), Object::Empty) }
        Err(refusal) => error_of(refusal),
    }
}
