//! The wake that a step owes to the sleepers of its slot.
ghost use Rattle.std.specs.Prelude.{◌≡◌, ◌-◌, true, false};
ghost use Rattle.kf_words.specs.Callers.{IsSameSeat, handle_of, is_wanted, sight_of, view_of};
ghost use Rattle.kf_words.specs.Layout.{wants_wake};
ghost use Rattle.kf_words.specs.Made.{WakeSpent};

use crate::layout::ends_a_wait;
use crate::seat::CallerSeat;
use std::marker::Model;

/// Whether the sleepers of a slot must be woken. A `Wake` must be consumed by a `match`: code that forgets it
/// does not compile.
pub enum Wake {
    /// One of the sleepers may be waiting for the word that the step left.
    Wanted,
    /// No sleeper can be waiting for that word.
    Unwanted,
}

/// What a step owes to the sleepers at an active word after it took one user off that word. It owes a wake
/// if, by the word that it found, one of them may be waiting for the word that it left. This value must be
/// consumed: by a wake, by `none` if the sleepers need no wake, or by `must_wake`. Code that forgets it does
/// not compile.
pub struct WakeDue {
    slot: u32,
    found: u64,
}

impl Model for WakeDue {
    ghost use Rattle.kf_words.specs.Callers.{Owed};

    ghost Value = { Owed };

    ghost view = { λ d. record { slot = d.slot; found = d.found } };
}

impl WakeDue {
    /// What is owed by a step that found this word and took one user off it.
    pub(crate) fn new(slot: u32, found: u64) -> WakeDue
        ensures slot { result.slot ≡ slot }
        ensures found { result.found ≡ found }
    {
        WakeDue { slot, found }
    }

    /// Whether the sleepers must be woken: the step took off the last user, and the node is doomed or hidden.
    /// The sleepers wait for such a step.
    pub fn is_wanted(&self) -> bool
        ensures { result ≡ wants_wake (self.now.found - 1) }
    {
        ends_a_wait(self.found)
    }

    /// Spends it without a wake.
    ///
    /// Condition: `is_wanted` returns false.
    pub fn none(self)
        requires { wants_wake (self.found - 1) ≡ false }
    {
        let WakeDue { slot: _, found: _ } = self;
    }

    /// Whether a wake is owed, for a caller that wakes its sleepers by its own means. The result must be
    /// matched.
    pub fn must_wake(self) -> Wake
        ensures { is_wanted result ≡ wants_wake (self.found - 1) }
    {
        let WakeDue { slot: _, found } = self;
        if ends_a_wait(found) {
            Wake::Wanted
        } else {
            Wake::Unwanted
        }
    }

    /// Wakes all sleepers of the slot, which is the slot of this seat. It loads their count, and makes a
    /// system call only if there are any.
    fn wake(self, seat: &mut CallerSeat)
        requires { self.slot ≡ seat.old.key.slot }
        ensures same { IsSameSeat (handle_of seat.old) (handle_of seat.new) }
        ensures view { view_of seat.new ≡ view_of seat.old }
        ensures spent { WakeSpent true (sight_of seat.old) (sight_of seat.new) }
    {
        let WakeDue { slot: _, found: _ } = self;
        seat.wake_all();
    }

    /// Wakes all sleepers of the slot, if the step owes them a wake.
    pub(crate) fn spend(self, seat: &mut CallerSeat)
        requires { self.slot ≡ seat.old.key.slot }
        ensures same { IsSameSeat (handle_of seat.old) (handle_of seat.new) }
        ensures view { view_of seat.new ≡ view_of seat.old }
        ensures spent { WakeSpent (wants_wake (self.found - 1)) (sight_of seat.old) (sight_of seat.new) }
    {
        if self.is_wanted() {
            self.wake(seat);
        } else {
            self.none();
        }
    }
}
