//! Going through a gate by steps that wake nobody. They are for keepers that sleep elsewhere: whoever makes
//! such a step must wake them, so that they look again.
ghost use Rattle.std.specs.Prelude.{◌≡◌, ◌%◌, ◌==◌, ℕ, true, IfOk, IfErr, MatchResult};
ghost use Rattle.kf_core.specs.Phases.{has_reference};
ghost use Rattle.kf_core.specs.declared.caller.Phase.TheVariants as phase_of;
ghost use Rattle.kf_gates.specs.declared.view.GateView.TheVariants as seat_of;
ghost use Rattle.kf_gates.specs.States.{WasRefused};

use crate::call::GateCall;
use crate::pass::Pass;
use kf_core::Phase;

impl Pass {
    /// Like `enter`, but a refusal wakes nobody, although the keeper may have seen the pass counted in its
    /// lane.
    pub fn enter_quiet(self, number: u64) -> Result<GateCall, Pass>
        ensures same { MatchResult result
            (λ call. (call.seat ≡ self.seat) × (call.lane ≡ self.lane))
            (λ back. (back.seat ≡ self.seat) × (back.lane ≡ self.lane)) }
        ensures inside { IfOk result
            (λ call. (call.number ≡ number) × (call.view ≡ seat_of.Inside self.lane number)) }
        ensures running { IfOk result (λ call. call.phase ≡ phase_of.Running) }
        ensures refused { IfErr result (λ back. WasRefused number back) }
    {
        let Pass {
            board,
            mut seat,
            lane,
        } = self;
        let found = board.knock(&mut seat, lane);
        if found % 2 == 0 && found / 2 == number {
            return Ok(GateCall {
                board,
                seat,
                lane,
                phase: Phase::Running,
                number,
            });
        }
        board.step_back(&mut seat, lane);
        Err(Pass { board, seat, lane })
    }
}

impl GateCall {
    /// Like `leave`, but wakes nobody. It returns true if the gate was found shut after the caller had left
    /// its lane. Then the keeper may be waiting for that.
    ///
    /// Condition: Running or Restored.
    pub fn leave_quiet(self) -> (Pass, bool)
        requires reference { has_reference self.phase ≡ true }
        ensures same { (result.0.seat ≡ self.seat) × (result.0.lane ≡ self.lane) }
        ensures looked { (word : ℕ) × (result.0.view ≡ seat_of.Left word) × (result.1 ≡ (word % 2 == 1)) }
    {
        let GateCall {
            board,
            mut seat,
            lane,
            number: _,
            phase: _,
        } = self;
        let found = board.step_away(&mut seat, lane);
        (Pass { board, seat, lane }, found % 2 == 1)
    }
}
