//! A thread's pass through a gate.
ghost use Rattle.std.specs.Prelude.{◌≡◌, ◌%◌, ◌<◌, IfOk, IfErr, MatchResult};
ghost use Rattle.kf_core.specs.declared.caller.Phase.TheVariants as phase_of;
ghost use Rattle.kf_gates.specs.declared.view.GateView.TheVariants as seat_of;
ghost use Rattle.kf_gates.specs.States.{PassRefused, WasRefused};

use crate::board::{Board, GateSeat, MOST_PASSES};
use crate::call::GateCall;
use kf_core::{Phase, Refusal};
use std::marker::Model;
use std::sync::Arc;

/// Lets a thread through a gate, by its lane. A pass does not stop the keeper from closing the gate.
#[derive(Drop)]
pub struct Pass {
    pub(crate) board: Arc<Board>,
    pub(crate) seat: GateSeat,
    pub(crate) lane: u32,
}

impl Model for Pass {
    ghost use Rattle.std.specs.Prelude.{◌≡◌, ◌<◌};
    ghost use Rattle.std.specs.Arc.{arc_value};
    ghost use Rattle.kf_gates.specs.Rule.{IsPass};
    ghost use Rattle.kf_gates.specs.States.{PassState};

    ghost Value = { PassState };

    ghost view = { λ p. record {
      seat = record {
        gate = record { table = p.seat.table_id; lanes = (arc_value p.board).lanes };
        number = p.seat.id;
      };
      lane = p.lane;
      view = p.seat.me.0;
    } };

    ghost invariant = { λ p. (p.seat.table_id ≡ (arc_value p.board).table.shared.table_id)
        × (p.lane < (arc_value p.board).lanes) × IsPass p.seat.me.0 };
}

impl Pass {
    /// Tries to go inside, under the number of an opening (`percpu_ref_tryget_live`). It writes only the word
    /// of its lane. If its look found that the gate was not open under this number, the pass is returned.
    pub fn enter(self, number: u64) -> Result<GateCall, Pass>
        ensures same { MatchResult result
            (λ call. (call.seat ≡ self.seat) × (call.lane ≡ self.lane))
            (λ back. (back.seat ≡ self.seat) × (back.lane ≡ self.lane)) }
        ensures inside { IfOk result
            (λ call. (call.number ≡ number) × (call.view ≡ seat_of.Inside self.lane number)) }
        ensures running { IfOk result (λ call. call.phase ≡ phase_of.Running) }
        ensures refused { IfErr result (λ back. WasRefused number back) }
    {
        let Pass {
            board,
            mut seat,
            lane,
        } = self;
        let found = board.knock(&mut seat, lane);
        if found % 2 == 0 && found / 2 == number {
            return Ok(GateCall {
                board,
                seat,
                lane,
                phase: Phase::Running,
                number,
            });
        }
        board.step_off(&mut seat, lane);
        Err(Pass { board, seat, lane })
    }

    /// Makes another pass of the same gate. Its lane is `lane` modulo the number of lanes, counted from 0.
    ///
    /// Refusals, in order: TooManyHolds (the gate has had 2^32 - 1 passes, including those that other threads
    /// are trying to make), NoMemory (its words can have no further owner). After a refusal the gate has had
    /// as many passes as before.
    pub fn another(&mut self, lane: u64) -> Result<Pass, Refusal>
        ensures same { (self.new.seat ≡ self.old.seat) × (self.new.lane ≡ self.old.lane) }
        ensures gate { IfOk result (λ other. other.seat.gate ≡ self.old.seat.gate) }
        ensures lane { IfOk result (λ other. other.lane ≡ lane % self.old.seat.gate.lanes) }
        ensures refused { IfErr result (λ why. PassRefused self.new why) }
    {
        let found = self.board.count(&mut self.seat);
        if found >= MOST_PASSES {
            self.board.uncount(&mut self.seat);
            return Err(Refusal::TooManyHolds);
        }
        let Ok(board) = Arc::try_clone(&self.board) else {
            self.board.uncount(&mut self.seat);
            return Err(Refusal::NoMemory);
        };
        let seat = board.make_pass(&mut self.seat);
        let lane = (lane % board.lanes) as u32;
        Ok(Pass { board, seat, lane })
    }
}
