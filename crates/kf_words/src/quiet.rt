//! Steps of a hold and of a call that wake nobody, for a caller that wakes its sleepers itself or has none.
//! Their results say what is owed to the sleepers. `enter`, `leave` and `break_protection` make these steps,
//! and then the wake.
ghost use Rattle.std.specs.Prelude.{◌≡◌, true, IfOk, IfErr, MatchResult};
ghost use Rattle.kf_core.specs.Phases.{has_reference};
ghost use Rattle.kf_core.specs.declared.caller.Phase.TheVariants as phase_of;
ghost use Rattle.kf_words.specs.Callers.{IsSameSeat, Entered, WasTurned, WasLeft, WasBroken, owed, seat_view};
ghost use Rattle.kf_words.specs.Made.{FoundThere, WasATry, WasATryUndone, OwedForUndo, WasALeave, WasABreak, WasLetInLive};

use crate::call::Call;
use crate::hold::Hold;
use crate::layout::keeps_out;
use crate::wake_due::WakeDue;
use kf_core::Phase;

impl Hold {
    /// Like `enter`, but it wakes nobody. If it returns the hold, it also returns the wake that the second of
    /// its two steps owes.
    ///
    /// The caller first counts itself, and then looks at the word that this same step found. If it looked
    /// first, a mark and a whole drain could fit between the look and the count. So a try that fails was
    /// counted for a moment, and a caller that waits for the drain may have seen it. That is why the step
    /// that undoes the try may owe a wake.
    pub fn enter_quiet(self) -> Result<Call, (Hold, WakeDue)>
        ensures same { MatchResult result (λ call. IsSameSeat self call) (λ back. IsSameSeat self back.0) }
        ensures call { IfOk result (λ call. Entered self call) }
        ensures refused { IfErr result (λ back. WasTurned self back.0) }
        ensures found { MatchResult result (λ call. FoundThere self call)
            (λ back. FoundThere self back.0) }
        ensures made { MatchResult result (λ call. WasATry (seat_view self) (seat_view call))
            (λ back. WasATryUndone (seat_view self) (seat_view back.0)) }
        ensures live { IfOk result (λ call. WasLetInLive (seat_view self) (seat_view call)) }
        ensures due { IfErr result (λ back. OwedForUndo self back.0 back.1) }
    {
        let Hold { mut seat } = self;
        if !keeps_out(seat.try_reference()) {
            return Ok(Call {
                seat: seat.moved(),
                phase: Phase::Running,
            });
        }
        let due = seat.undo();
        Err((Hold { seat }, due))
    }
}

impl Call {
    /// Like `leave`, but it wakes nobody, and also returns the wake that its step owes.
    ///
    /// Condition: the call is Running or Restored.
    pub fn leave_quiet(self) -> (Hold, WakeDue)
        requires { has_reference self.phase ≡ true }
        ensures same { IsSameSeat self result.0 }
        ensures hold { WasLeft self result.0 }
        ensures made { WasALeave (seat_view self) (seat_view result.0) }
        ensures due { result.1 ≡ owed result.0 }
    {
        let Call { mut seat, phase: _ } = self;
        let due = seat.drop_reference();
        (Hold { seat: seat.moved() }, due)
    }

    /// Like `break_protection`, but it wakes nobody, and returns the wake that its step owes.
    ///
    /// Condition: the call is Running.
    pub fn break_quiet(&mut self) -> WakeDue
        requires { self.old.phase ≡ phase_of.Running }
        ensures same { IsSameSeat self.old self.new }
        ensures call { WasBroken self.old self.new }
        ensures made { WasABreak (seat_view self.old) (seat_view self.new) }
        ensures due { result ≡ owed self.new }
    {
        let due = self.seat.break_off();
        self.phase = Phase::Broken;
        due
    }
}
