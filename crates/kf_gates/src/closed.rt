//! A closed gate: nobody is inside.
ghost use Rattle.std.specs.Prelude.{◌≡◌, ◌⊎◌, ◌+◌, ◌<◌, ◌≤◌, false, IfOk, IfErr};
ghost use Rattle.kf_core.specs.declared.refusal.Refusal.TheVariants as refusal_of;
ghost use Rattle.kf_gates.specs.Laws.{IsOver};
ghost use Rattle.kf_gates.specs.States.{IsLanes};

use crate::board::{Board, GateSeat, MOST_LANES};
use crate::keeper::Keeper;
use crate::pass::Pass;
use crate::view::GatePlan;
use kf_core::Refusal;
use std::alloc::Global;
use std::marker::Model;
use std::sync::Arc;

/// The keeper of a closed gate. The gate is new, or the keeper has seen each lane empty since the gate was
/// shut. Either way nobody is inside.
#[derive(Drop)]
pub struct Closed {
    pub(crate) board: Arc<Board>,
    pub(crate) seat: GateSeat,
    pub(crate) plan: GatePlan,
}

impl Model for Closed {
    ghost use Rattle.std.specs.Prelude.{◌≡◌, ◌≤◌, false};
    ghost use Rattle.std.specs.Arc.{arc_value};
    ghost use Rattle.kf_gates.specs.Board.{HasPlan};
    ghost use Rattle.kf_gates.specs.Laws.{IsOver};
    ghost use Rattle.kf_gates.specs.States.{ClosedState};

    ghost Value = { ClosedState };

    ghost view = { λ c. record {
      seat = record {
        gate = record { table = c.seat.table_id; lanes = (arc_value c.board).lanes };
        number = c.seat.id;
      };
      plan = c.plan;
    } };

    ghost invariant = { λ c. (c.seat.table_id ≡ (arc_value c.board).table.shared.table_id)
        × HasPlan c.plan c.seat.me.0 × IsOver (arc_value c.board).lanes c.plan
        × (c.plan.number ≤ 4294967296) × (c.plan.spare ≡ false) };
}

impl Closed {
    /// Makes a closed gate with this number of lanes, which was never opened, and the gate's first pass, by
    /// lane 0. All other passes come from that one ([`Pass::another`]).
    ///
    /// Refusals, in order: Invalid (no lane, or more than 65,535), NoMemory.
    pub fn new(alloc: Global, lanes: u64) -> Result<(Closed, Pass), Refusal>
        ensures lanes { IfOk result (λ r. (0 < lanes) × (r.0.seat.gate.lanes ≡ lanes)) }
        ensures new { IfOk result (λ r. r.0.plan.number ≡ 0) }
        ensures over { IfOk result (λ r. IsOver lanes r.0.plan) }
        ensures pass { IfOk result (λ r. (r.1.seat.gate ≡ r.0.seat.gate) × (r.1.lane ≡ 0)) }
        ensures refused { IfErr result (λ why. ((why ≡ refusal_of.Invalid) × (IsLanes lanes → ⊥))
            ⊎ ((why ≡ refusal_of.NoMemory) × IsLanes lanes)) }
    {
        if lanes == 0 || lanes > MOST_LANES {
            return Err(Refusal::Invalid);
        }
        let (board, mut seat, plan) = Board::new(alloc, lanes)?;
        let board = Arc::new(alloc, board)?;
        let Ok(own) = Arc::try_clone(&board) else {
            return Err(Refusal::NoMemory);
        };
        let outside = board.make_pass(&mut seat);
        let plan = GatePlan {
            spare: false,
            ..plan
        };
        let closed = Closed { board, seat, plan };
        let pass = Pass {
            board: own,
            seat: outside,
            lane: 0,
        };
        Ok((closed, pass))
    }

    /// Opens the gate under the next number, with a value that the gate keeps while anybody may be inside
    /// (`percpu_ref_resurrect`). If the gate has had 2^32 openings, both are returned.
    pub fn open<T>(self, kept: T) -> Result<Keeper<T>, (Closed, T)>
        ensures kept { IfOk result (λ keeper. keeper.kept ≡ kept) }
        ensures seat { IfOk result (λ keeper. keeper.seat ≡ self.seat) }
        ensures open { IfOk result
            (λ keeper. (keeper.plan.shut ≡ false) × (keeper.plan.number ≡ self.plan.number + 1)) }
        ensures back { IfErr result (λ r. (r.0 ≡ self) × (r.1 ≡ kept)) }
        ensures refused { IfErr result (λ _. self.plan.number ≡ 4294967296) }
    {
        if self.plan.number >= 4294967296 {
            return Err((self, kept));
        }
        let Closed {
            board,
            mut seat,
            plan,
        } = self;
        let plan = board.open(&mut seat, plan);
        Ok(Keeper {
            board,
            seat,
            plan,
            kept,
        })
    }

    /// Returns the number of the gate's last opening, or 0 if the gate was never opened.
    pub fn number(&self) -> u64
        ensures { result ≡ self.now.plan.number }
    {
        self.plan.number
    }
}
