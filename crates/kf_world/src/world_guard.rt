//! The world of a single caller as a guard.

ghost use Rattle.std.specs.Prelude.{◌≡◌, ℕ};
ghost use Rattle.kf_core.specs.declared.caller.Phase.TheVariants.{Running};
ghost use Rattle.kf_core.specs.declared.event.Event.TheVariants.{Enter, Leave};
ghost use Rattle.kf_core.specs.Bare.{IsCaller};
ghost use Rattle.kf_world.specs.Bounded.{Happens, May};
ghost use Rattle.kf_world.specs.WorldGuard.{HasEntered, HasTurned};

use crate::world::World;
use kf_core::{ActiveCall, Guard, Key, Phase};

/// The call of a caller in a `World`. It is Running from its start to its end, because its callback does not
/// have the world and so cannot break its protection.
///
/// Condition on the owner of the world: between `enter` and `leave` nobody calls `break_at`, `restore` or
/// `leave` with this caller's number.
pub struct WorldCall {
    caller: usize,
    key: Key,
}

impl ActiveCall for WorldCall {
    ghost CallerId = { ℕ };

    ghost view_of = { λ call. record { caller = call.caller; key = call.key; phase = Running } };

    fn key(&self) -> Key {
        self.key
    }

    fn phase(&self) -> Phase {
        Phase::Running
    }
}

/// A hold is the caller's number, which `pin` returned.
impl Guard for World {
    type Hold = usize;

    type Call = WorldCall;

    ghost may_enter = { λ w id. May w (Enter id) };

    ghost enters = { λ w id call w'. (call.caller ≡ id) × HasEntered w id call.key w' };

    ghost refuses = { λ w id back w'. (back ≡ id) × HasTurned w id w' };

    ghost may_leave = { λ w call. IsCaller w.world call.caller call.key Running };

    ghost leaves = { λ w call id w'. (id ≡ call.caller) × Happens w (Leave id) w' };

    fn enter(&mut self, id: usize) -> Result<WorldCall, usize> {
        let Some((key, _)) = self.caller(id) else {
            unreachable!();
        };
        if !self.enter(id) {
            return Err(id);
        }
        Ok(WorldCall { caller: id, key })
    }

    #[inline(always)]
    fn leave(&mut self, call: WorldCall) -> usize {
        let WorldCall { caller, key: _ } = call;
        self.leave(caller);
        caller
    }
}
