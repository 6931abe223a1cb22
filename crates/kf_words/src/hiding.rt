//! Keys that are hidden: one caller hides a key, waits until nobody uses its node, and shows it again.
ghost use Rattle.std.specs.Prelude.{◌≡◌, true, IfOk, IfErr, MatchResult};
ghost use Rattle.kf_core.specs.declared.caller.Phase.TheVariants as phase_of;
ghost use Rattle.kf_words.specs.Callers.{IsSameSeat, SawUnused, SawUser, WasShown, seat_view};
ghost use Rattle.kf_words.specs.Layout.{is_unused};
ghost use Rattle.kf_words.specs.Made.{FoundThere, WaitedForHidden, WasALookHidden, WasAShow};

use crate::hold::Hold;
use crate::layout::is_unused;
use crate::seat::CallerSeat;
use kf_core::Key;
use std::marker::Model;
use std::sync::Wait;

/// A token that hides its key, but calls of the node may still run. It must be passed to `look` or
/// `wait_hidden`.
pub struct Hiding {
    pub(crate) seat: CallerSeat,
}

impl Model for Hiding {
    ghost use Rattle.kf_core.specs.declared.caller.Phase.TheVariants as phase_of;
    ghost use Rattle.kf_words.specs.Callers.{Handle, handle_of, view_of, IsInPhase};

    ghost Value = { Handle };

    ghost view = { λ h. handle_of h.seat };

    ghost invariant = { λ h. IsInPhase phase_of.Hiding (view_of h.seat) };
}

/// A token that hides its key, and whose caller saw that nobody had a reference to the node. As long as it
/// exists, no call of the node is Running. A callback that still runs there gave up its protection before
/// that. The token must be passed to `show`.
pub struct Hidden {
    pub(crate) seat: CallerSeat,
}

impl Model for Hidden {
    ghost use Rattle.kf_core.specs.declared.caller.Phase.TheVariants as phase_of;
    ghost use Rattle.kf_words.specs.Callers.{Handle, handle_of, view_of, IsInPhase};

    ghost Value = { Handle };

    ghost view = { λ h. handle_of h.seat };

    ghost invariant = { λ h. IsInPhase phase_of.Hidden (view_of h.seat) };
}

impl Hiding {
    /// The key that it hides.
    pub fn key(&self) -> Key
        ensures value { result ≡ self.now.key }
        ensures phase { self.now.phase ≡ phase_of.Hiding }
    {
        self.seat.key()
    }

    /// Checks, in one word step, whether nobody uses the node: there is no reference, and no refused try that
    /// is not yet undone. If so, it returns a `Hidden`, and otherwise the `Hiding`.
    pub fn look(self) -> Result<Hidden, Hiding>
        ensures same { MatchResult result (λ saw. IsSameSeat self saw) (λ back. IsSameSeat self back) }
        ensures hidden { IfOk result (λ saw. SawUnused self saw) }
        ensures not_yet { IfErr result (λ back. SawUser self back) }
        ensures found { MatchResult result (λ saw. FoundThere self saw)
            (λ back. FoundThere self back) }
        ensures made { MatchResult result (λ saw. WasALookHidden (seat_view self) (seat_view saw))
            (λ back. WasALookHidden (seat_view self) (seat_view back)) }
    {
        let Hiding { mut seat } = self;
        if is_unused(seat.load_hidden()) {
            Ok(Hidden { seat })
        } else {
            Err(Hiding { seat })
        }
    }
}

impl Hidden {
    /// The key that it hides.
    pub fn key(&self) -> Key
        ensures value { result ≡ self.now.key }
        ensures phase { self.now.phase ≡ phase_of.Hidden }
    {
        self.seat.key()
    }

    /// Shows the key again, in one word step. This step clears the bit HIDE, and leaves all other bits as
    /// they are. A tree calls this while it is locked. If it is called without that lock, the key is shown to
    /// every caller all the same, but a file that the tree has hidden stays hidden in the tree.
    pub fn show(self) -> Hold
        ensures same { IsSameSeat self result }
        ensures hold { WasShown self result }
        ensures made { WasAShow (seat_view self) (seat_view result) }
    {
        let Hidden { mut seat } = self;
        seat.clear_hide();
        Hold { seat }
    }
}

/// Waits until nobody has a reference to the node whose key is hidden. It may never return. Its only steps on
/// the slot's active word and hold word are looks at the active word. After each look except the last, it
/// sleeps.
///
/// Context: sleeps; takes no lock, and the caller must not hold the tree's lock.
pub fn wait_hidden<R: Wait>(rt: &R, hiding: Hiding) -> Hidden
    ensures same { IsSameSeat hiding result }
    ensures hidden { result.phase ≡ phase_of.Hidden }
    ensures found { is_unused result.found ≡ true }
    ensures waited { WaitedForHidden (seat_view hiding) (seat_view result) }
{
    let Hiding { mut seat } = hiding;
    for _ in rt.forever() {
        let seen = seat.load_hidden();
        if is_unused(seen) {
            break;
        }
        seat.park(rt, seen);
    }
    Hidden { seat }
}
