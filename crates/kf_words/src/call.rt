//! A call: a hold that has an active reference, or gave it up inside its callback.
ghost use Rattle.std.specs.Prelude.{◌≡◌, true};
ghost use Rattle.kf_core.specs.Phases.{has_reference};
ghost use Rattle.kf_core.specs.declared.caller.Phase.TheVariants as phase_of;
ghost use Rattle.kf_words.specs.Callers.{IsSameSeat, WasLeft, WasBroken, WasRestored, is_in_call, seat_view};
ghost use Rattle.kf_words.specs.Made.{WasALeaveThenWake, WasABreakThenWake, WasARestore};

use crate::hold::Hold;
use crate::seat::CallerSeat;
use kf_core::{Key, Node, Phase};
use std::marker::Model;

/// A hold that also has an active reference, or gave it up inside its callback. It must be passed to `leave`
/// or `leave_quiet`.
pub struct Call {
    pub(crate) seat: CallerSeat,
    pub(crate) phase: Phase,
}

impl Model for Call {
    ghost use Rattle.std.specs.Prelude.{◌≡◌, true, false};
    ghost use Rattle.kf_words.specs.Callers.{Handle, handle_of, view_of, is_in_call};

    ghost Value = { Handle };

    ghost view = { λ c. handle_of c.seat };

    ghost invariant = { λ c. ((view_of c.seat).phase ≡ c.phase) × (is_in_call c.phase ≡ true)
        × ((view_of c.seat).undo_due ≡ false) };
}

impl Call {
    /// The key whose slot it holds.
    pub fn key(&self) -> Key
        ensures { result ≡ self.now.key }
    {
        self.seat.key()
    }

    /// The node that was born with the key.
    pub fn node(&self) -> Node
        ensures { result ≡ self.now.node }
    {
        self.seat.node()
    }

    /// The phase of the call: Running, Broken or Restored.
    pub fn phase(&self) -> Phase
        ensures value { result ≡ self.now.phase }
        ensures in_call { is_in_call result ≡ true }
    {
        self.phase
    }

    /// Drops the reference (`kernfs_put_active`), in one word step, and returns the hold.
    ///
    /// Condition: the call is Running or Restored.
    pub fn leave(self) -> Hold
        requires { has_reference self.phase ≡ true }
        ensures same { IsSameSeat self result }
        ensures hold { WasLeft self result }
        ensures made { WasALeaveThenWake (seat_view self) (seat_view result) }
    {
        let (hold, due) = self.leave_quiet();
        let Hold { mut seat } = hold;
        due.spend(&mut seat);
        Hold { seat }
    }

    /// Gives up the reference inside the callback (`kernfs_break_active_protection`), in one word step.
    ///
    /// Condition: the call is Running.
    pub fn break_protection(&mut self)
        requires { self.old.phase ≡ phase_of.Running }
        ensures same { IsSameSeat self.old self.new }
        ensures call { WasBroken self.old self.new }
        ensures made { WasABreakThenWake (seat_view self.old) (seat_view self.new) }
    {
        let due = self.break_quiet();
        due.spend(&mut self.seat);
    }

    /// Takes a reference again, in one word step, whatever has become of the node
    /// (`kernfs_unbreak_active_protection`).
    ///
    /// Condition: the call is Broken.
    pub fn restore(&mut self)
        requires { self.old.phase ≡ phase_of.Broken }
        ensures same { IsSameSeat self.old self.new }
        ensures call { WasRestored self.old self.new }
        ensures made { WasARestore (seat_view self.old) (seat_view self.new) }
    {
        self.seat.take_again();
        self.phase = Phase::Restored;
    }
}
