//! Making a node hot by opening a gate, and ending that by closing the gate.
ghost use Rattle.std.specs.Prelude.{◌≡◌, ◌+◌, true, false, IfErr, IfOk};
ghost use Rattle.kf_core.specs.Phases.{has_reference};
ghost use Rattle.kf_core.specs.declared.caller.Phase.TheVariants as phase_of;
ghost use Rattle.kf_gates.specs.Laws.{IsOver};
ghost use Rattle.kf_gates.specs.States.{last_opening, opening_of};
ghost use Rattle.kf_words.specs.Callers.{IsSameSeat};

use kf_gates::{Closed, Keeper};
use kf_words::{Call, Hold};
use std::sync::Wait;

/// Makes the hold's node hot: opens the gate, which then keeps a call of the node. The gate and the hold are
/// returned if the node is not live (also if its key is hidden), or if the gate has had 2^32 openings.
pub fn open_gate(closed: Closed, hold: Hold) -> Result<Keeper<Call>, (Closed, Hold)>
    ensures kept { IfOk result (λ keeper. IsSameSeat hold keeper.kept) }
    ensures running { IfOk result (λ keeper. keeper.kept.phase ≡ phase_of.Running) }
    ensures open { IfOk result
        (λ keeper. (keeper.plan.shut ≡ false) × (keeper.plan.number ≡ closed.plan.number + 1)) }
    ensures gate { IfOk result (λ keeper. keeper.seat ≡ closed.seat) }
    ensures back { IfErr result (λ r. (r.0 ≡ closed) × IsSameSeat hold r.1) }
{
    match hold.enter() {
        Err(hold) => Err((closed, hold)),
        Ok(call) => match closed.open(call) {
            Ok(keeper) => Ok(keeper),
            Err((closed, call)) => Err((closed, call.leave())),
        },
    }
}

/// Shuts the gate, waits until nobody is inside, and ends the gate's call. Returns the closed gate and the
/// hold.
///
/// Condition: the gate's call is Running or Restored.
///
/// Context: sleeps.
pub fn close_gate<R: Wait>(rt: &R, keeper: Keeper<Call>) -> (Closed, Hold)
    requires inside { has_reference keeper.kept.phase ≡ true }
    ensures same { IsSameSeat keeper.kept result.1 }
    ensures gate { last_opening result.0 ≡ opening_of keeper }
    ensures closed { IsOver keeper.seat.gate.lanes result.0.plan }
{
    let mut keeper = keeper;
    keeper.shut();
    let (closed, call) = keeper.wait_closed(rt);
    (closed, call.leave())
}
