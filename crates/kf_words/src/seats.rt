//! The guard (`kf_core::Guard`) that enters and leaves nodes by their words.
ghost use Rattle.std.specs.Prelude.{◌≡◌, true};

use crate::call::Call;
use crate::hold::Hold;
use kf_core::{ActiveCall, Guard, Key, Phase};

/// The guard for holds and calls of tables of words. It has no state: each hold and each call has its own
/// seat.
#[derive(Drop)]
pub struct Seats;

impl ActiveCall for Call {
    ghost use Rattle.kf_words.specs.Callers.{SeatId, id_of};

    ghost CallerId = { SeatId };

    ghost view_of = { λ call. record { caller = id_of call; key = call.key; phase = call.phase } };

    fn key(&self) -> Key {
        Call::key(self)
    }

    fn phase(&self) -> Phase {
        Call::phase(self)
    }
}

impl Guard for Seats {
    ghost use Rattle.std.specs.Prelude.{◌≡◌, true};
    ghost use Rattle.kf_core.specs.Phases.{has_reference};
    ghost use Rattle.kf_words.specs.Callers.{IsSameSeat, Entered, WasTurned, WasLeft, seat_view};
    ghost use Rattle.kf_words.specs.Made.{WasLetInLive, WasATryUndoneThenWake, WasALeaveThenWake};

    type Hold = Hold;

    type Call = Call;

    ghost may_enter = { λ _ _. Unit {0} };

    ghost enters = { λ _ hold call _. IsSameSeat hold call × Entered hold call
        × WasLetInLive (seat_view hold) (seat_view call) };

    ghost refuses = { λ _ hold back _. IsSameSeat hold back × WasTurned hold back
        × WasATryUndoneThenWake (seat_view hold) (seat_view back) };

    ghost may_leave = { λ _ call. has_reference call.phase ≡ true };

    ghost leaves = { λ _ call hold _. IsSameSeat call hold × WasLeft call hold
        × WasALeaveThenWake (seat_view call) (seat_view hold) };

    fn enter(&mut self, hold: Hold) -> Result<Call, Hold> {
        hold.enter()
    }

    fn leave(&mut self, call: Call) -> Hold {
        call.leave()
    }
}
