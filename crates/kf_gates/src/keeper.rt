//! The keeper of an open gate, or of one that is being closed.
ghost use Rattle.std.specs.Prelude.{◌≡◌, ◌≤◌, ◌<◌, true, false, IfOk, IfErr};
ghost use Rattle.kf_gates.specs.Laws.{IsOver};
ghost use Rattle.kf_gates.specs.States.{FoundUser, KeepsOn};

use crate::board::{Board, GateSeat};
use crate::closed::Closed;
use crate::view::GatePlan;
use std::marker::Model;
use std::sync::{Arc, Wait};

/// Keeps a value while anybody may be inside its gate. The keeper must be passed to `try_close` or
/// `wait_closed`, since only these return the value.
pub struct Keeper<T> {
    pub(crate) board: Arc<Board>,
    pub(crate) seat: GateSeat,
    pub(crate) plan: GatePlan,
    pub(crate) kept: T,
}

impl<T> Model for Keeper<T> {
    ghost use Rattle.std.specs.Prelude.{◌≡◌, ◌≤◌, ◌<◌, false};
    ghost use Rattle.std.specs.Arc.{arc_value};
    ghost use Rattle.kf_gates.specs.Rule.{looks_of};
    ghost use Rattle.kf_gates.specs.Board.{HasPlan};
    ghost use Rattle.kf_gates.specs.States.{KeeperState};

    ghost Value = { KeeperState T };

    ghost view = { λ k. record {
      seat = record {
        gate = record { table = k.seat.table_id; lanes = (arc_value k.board).lanes };
        number = k.seat.id;
      };
      plan = k.plan;
      looks = looks_of k.seat.me.0;
      kept = k.kept;
    } };

    ghost invariant = { λ k. (k.seat.table_id ≡ (arc_value k.board).table.shared.table_id)
        × HasPlan k.plan k.seat.me.0 × (k.plan.seen < (arc_value k.board).lanes)
        × (k.plan.number ≤ 4294967296) × (k.plan.spare ≡ false) };
}

impl<T> Keeper<T> {
    /// Returns the number under which the gate was opened. Callers enter under this number.
    pub fn number(&self) -> u64
        ensures { result ≡ self.now.plan.number }
    {
        self.plan.number
    }

    /// The value that it keeps.
    pub fn kept(&self) -> &T
        ensures { result.now ≡ self.now.kept }
    {
        &self.kept
    }

    /// Whether the gate is shut.
    pub fn is_shut(&self) -> bool
        ensures { result ≡ self.now.plan.shut }
    {
        self.plan.shut
    }

    /// Shuts the gate in one step (`percpu_ref_kill`), so that from then on nobody is let in. It does not
    /// wait for anybody, and does nothing if the gate is already shut.
    pub fn shut(&mut self)
        ensures shut { self.new.plan.shut ≡ true }
        ensures same { KeepsOn self.old self.new }
        ensures looks { self.new.looks ≡ self.old.looks }
    {
        if self.plan.shut {
            return;
        }
        self.plan = self.board.shut(&mut self.seat, self.plan);
    }

    /// Tries to close the gate: looks at the lanes that the keeper has not seen empty yet, one after another,
    /// up to the first one that is not empty. If all are empty, nobody is inside. Then the closed gate and
    /// the value are returned, and otherwise the keeper.
    ///
    /// Condition: the gate is shut.
    pub fn try_close(self) -> Result<(Closed, T), Keeper<T>>
        requires shut { self.plan.shut ≡ true }
        ensures kept { IfOk result (λ r. r.1 ≡ self.kept) }
        ensures same { IfOk result (λ r. (r.0.seat ≡ self.seat) × (r.0.plan.number ≡ self.plan.number)) }
        ensures closed { IfOk result (λ r. IsOver self.seat.gate.lanes r.0.plan) }
        ensures back { IfErr result (λ keeper. KeepsOn self keeper × (keeper.plan.shut ≡ true)) }
        ensures not_yet { IfErr result (λ keeper. FoundUser self keeper) }
    {
        let Keeper {
            board,
            mut seat,
            mut plan,
            kept,
        } = self;
        while plan.seen < board.lanes {
            plan = board.scan(&mut seat, plan);
            if plan.found != 0 {
                return Err(Keeper {
                    board,
                    seat,
                    plan,
                    kept,
                });
            }
        }
        Ok((Closed { board, seat, plan }, kept))
    }

    /// Sleeps until it has seen each lane empty, one after another, and then returns the closed gate and the
    /// value. Nobody is inside then. It may never return.
    ///
    /// Condition: the gate is shut.
    ///
    /// Context: sleeps.
    pub fn wait_closed<R: Wait>(self, rt: &R) -> (Closed, T)
        requires shut { self.plan.shut ≡ true }
        ensures kept { result.1 ≡ self.kept }
        ensures same { (result.0.seat ≡ self.seat) × (result.0.plan.number ≡ self.plan.number) }
        ensures closed { IsOver self.seat.gate.lanes result.0.plan }
    {
        let Keeper {
            board,
            mut seat,
            mut plan,
            kept,
        } = self;
        for _ in rt.forever() {
            if plan.seen >= board.lanes {
                break;
            }
            plan = board.scan(&mut seat, plan);
            if plan.found != 0 {
                board.rest(rt, &mut seat, plan);
            }
        }
        (Closed { board, seat, plan }, kept)
    }
}
