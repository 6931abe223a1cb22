//! A call through a gate.
ghost use Rattle.std.specs.Prelude.{◌≡◌, true};
ghost use Rattle.kf_core.specs.Phases.{has_reference};
ghost use Rattle.kf_core.specs.declared.caller.Phase.TheVariants as phase_of;
ghost use Rattle.kf_gates.specs.declared.view.GateView.TheVariants as seat_of;
ghost use Rattle.kf_gates.specs.Steps.{stepped_off};
ghost use Rattle.kf_gates.specs.States.{IsSameCall};

use crate::board::{Board, GateSeat};
use crate::pass::Pass;
use kf_core::Phase;
use std::marker::Model;
use std::sync::Arc;

/// A call through a gate: its caller is inside, or was inside and broke its protection. The gate was open
/// under the call's number when the caller looked. While the call is Running, the keeper does not get its
/// value back. The call must be passed to `leave`.
pub struct GateCall {
    pub(crate) board: Arc<Board>,
    pub(crate) seat: GateSeat,
    pub(crate) lane: u32,
    pub(crate) phase: Phase,
    pub(crate) number: u64,
}

impl Model for GateCall {
    ghost use Rattle.std.specs.Prelude.{◌≡◌, ◌<◌};
    ghost use Rattle.std.specs.Arc.{arc_value};
    ghost use Rattle.kf_gates.specs.States.{CallState, IsInCall, call_view};

    ghost Value = { CallState };

    ghost view = { λ c. record {
      seat = record {
        gate = record { table = c.seat.table_id; lanes = (arc_value c.board).lanes };
        number = c.seat.id;
      };
      lane = c.lane;
      number = c.number;
      phase = c.phase;
      view = c.seat.me.0;
    } };

    ghost invariant = { λ c. (c.seat.table_id ≡ (arc_value c.board).table.shared.table_id)
        × (c.lane < (arc_value c.board).lanes) × IsInCall c.phase
        × (c.seat.me.0 ≡ call_view c.phase c.lane c.number) };
}

impl GateCall {
    /// Returns the number of the opening under which the call entered.
    pub fn number(&self) -> u64
        ensures { result ≡ self.now.number }
    {
        self.number
    }

    /// Returns the call's phase, which is Running, Broken or Restored.
    pub fn phase(&self) -> Phase
        ensures { result ≡ self.now.phase }
    {
        self.phase
    }

    /// Goes out of the gate again, and returns the pass (`percpu_ref_put`).
    ///
    /// Condition: Running or Restored.
    pub fn leave(self) -> Pass
        requires reference { has_reference self.phase ≡ true }
        ensures same { (result.seat ≡ self.seat) × (result.lane ≡ self.lane) }
        ensures view { result.view ≡ stepped_off self.view }
    {
        let GateCall {
            board,
            mut seat,
            lane,
            number: _,
            phase: _,
        } = self;
        board.step_off(&mut seat, lane);
        Pass { board, seat, lane }
    }

    /// Breaks the call's protection, in one step. The call is no longer inside, and no keeper waits for it
    /// (`kernfs_break_active_protection`).
    ///
    /// Condition: Running.
    pub fn break_protection(&mut self)
        requires running { self.old.phase ≡ phase_of.Running }
        ensures same { IsSameCall self.old self.new }
        ensures broken { (self.new.phase ≡ phase_of.Broken)
            × (self.new.view ≡ seat_of.Broken self.old.lane self.old.number) }
    {
        self.board.break_off(&mut self.seat, self.lane);
        self.phase = Phase::Broken;
    }

    /// Counts the call in its lane again, in one step, whatever has become of the gate
    /// (`kernfs_unbreak_active_protection`). The call is not inside, since the gate may have been closed in
    /// the meantime.
    ///
    /// Condition: Broken.
    pub fn restore(&mut self)
        requires broken { self.old.phase ≡ phase_of.Broken }
        ensures same { IsSameCall self.old self.new }
        ensures restored { (self.new.phase ≡ phase_of.Restored)
            × (self.new.view ≡ seat_of.Restored self.old.lane self.old.number) }
    {
        self.board.restore(&mut self.seat, self.lane);
        self.phase = Phase::Restored;
    }
}
