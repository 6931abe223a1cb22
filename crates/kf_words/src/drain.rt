//! Waiting for a drain.
ghost use Rattle.std.specs.Prelude.{◌≡◌, Bool, true, false, IfOk, MatchResult};
ghost use Rattle.kf_core.specs.declared.caller.Phase.TheVariants as phase_of;
ghost use Rattle.kf_words.specs.Callers.{IsSameSeat, having_seen, seat_view};
ghost use Rattle.kf_words.specs.Layout.{is_drained};
ghost use Rattle.kf_words.specs.Made.{Rested, WaitedForDrain, WasALook};

use crate::hold::Hold;
use crate::layout::is_drained;
use crate::receipt::Drained;
use std::sync::Wait;

impl Drained {
    /// Sleeps while a node that was seen drained is in use again. There are two ways in which this happens: a
    /// caller that had broken its protection restores it, or a try was refused and is not yet undone. The
    /// sleep ends when the last user leaves, or after a millisecond if there is no user. It may end earlier.
    /// This function makes no step on the slot's active word or hold word.
    ///
    /// Context: sleeps; takes no lock.
    pub fn rest<R: Wait>(&mut self, rt: &R)
        ensures as_before { self.new ≡ having_seen self.new.seen self.old }
        ensures rested { (counted : Bool) × Rested counted (seat_view self.old) (seat_view self.new) }
    {
        let seen = self.seat.peek();
        self.seat.rest(rt, seen);
    }
}

/// Waits until the node is doomed and nobody has a reference to it (`kernfs_drain`). It may never return. Its
/// only steps on the slot's active word and hold word are looks at the active word. After each look except
/// the last, it rests.
///
/// No callback is missed, because a caller counts itself in the same step that looks for the mark. So the try
/// and the mark are steps on one word, and one of them comes first. If the try comes first, its caller stays
/// counted until it leaves or gives up its reference, and no word is drained before that. If the mark comes
/// first, the try finds BIAS and fails. The failed try still counts for a moment, so a look may see a user
/// that is not a call. But no look misses a call that has a reference.
///
/// Context: sleeps; takes no lock, and the caller must not hold the tree's lock.
pub fn wait_drained<R: Wait>(rt: &R, hold: Hold) -> Drained
    ensures same { IsSameSeat hold result }
    ensures drained { result.phase ≡ phase_of.Drained }
    ensures found { is_drained result.found ≡ true }
    ensures waited { WaitedForDrain (seat_view hold) (seat_view result) }
    ensures untried { result.tries ≡ hold.tries }
{
    let Hold { mut seat } = hold;
    for _ in rt.forever() {
        let seen = seat.load();
        if is_drained(seen) {
            break;
        }
        seat.rest(rt, seen);
    }
    Drained { seat }
}

/// Checks once, in one word step and without waiting, whether the node is doomed and nobody has a reference
/// to it. If so, it returns a `Drained`, and otherwise the hold. A refused try that is not yet undone counts
/// as a reference here. For a drained node, the contract says the same as that of `wait_drained`. So a
/// remover can check each of its nodes once, and wait only for those that are in use.
///
/// Context: neither sleeps nor takes a lock, so the caller may hold the tree's lock.
pub fn try_drained(hold: Hold) -> Result<Drained, Hold>
    ensures same { MatchResult result (λ saw. IsSameSeat hold saw) (λ back. IsSameSeat hold back) }
    ensures drained { IfOk result (λ saw. saw.phase ≡ phase_of.Drained) }
    ensures found { MatchResult result (λ saw. is_drained saw.found ≡ true)
        (λ back. is_drained back.found ≡ false) }
    ensures made { MatchResult result (λ saw. WasALook (seat_view hold) (seat_view saw))
        (λ back. WasALook (seat_view hold) (seat_view back)) }
    ensures waited { IfOk result (λ saw. WaitedForDrain (seat_view hold) (seat_view saw)) }
    ensures untried { MatchResult result (λ saw. saw.tries ≡ hold.tries) (λ back. back.tries ≡ hold.tries) }
{
    let Hold { mut seat } = hold;
    if is_drained(seat.load()) {
        Ok(Drained { seat })
    } else {
        Err(Hold { seat })
    }
}
