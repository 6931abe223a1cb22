//! A hold: it keeps the slot of its node, and has no reference to the node.
ghost use Rattle.std.specs.Prelude.{◌≡◌, true, IfOk, IfErr, MatchResult};
ghost use Rattle.kf_core.specs.Phases.{is_waiting};
ghost use Rattle.kf_words.specs.Callers.{IsSameSeat, Entered, WasTurned, SawDrained, SawUse, WasHidden, FoundHidden, seat_view};
ghost use Rattle.kf_words.specs.Another.{StaysAs, IsAnother, WasCountedFor, AnotherRefused, Missed};
ghost use Rattle.kf_words.specs.Pins.{IsHoldOf, WasHeldFor, IsRefused, HasSlotOf};
ghost use Rattle.kf_words.specs.TableSteps.{sees_holds};
ghost use Rattle.kf_core.specs.declared.refusal.Refusal.TheVariants as refusal_of;
ghost use Rattle.kf_words.specs.Made.{FoundThere, WasATry, WasATryUndoneThenWake, WasALook, WasAHide, WasLetInLive, GavePlaceBack};

use crate::call::Call;
use crate::hiding::Hiding;
use crate::layout::{has_hide, is_drained};
use crate::receipt::Drained;
use crate::seat::{CallerSeat, release_seat};
use kf_core::{Key, Node, Refusal};
use std::marker::Model;

/// Keeps the slot of a node, without an active reference to the node. As long as the hold exists, the slot is
/// not reused. It cannot be dropped: it must be passed to a function that consumes it, such as `enter`,
/// `look`, `hide`, `wait_drained` or `release`.
pub struct Hold {
    pub(crate) seat: CallerSeat,
}

impl Model for Hold {
    ghost use Rattle.kf_words.specs.Callers.{Handle, handle_of, view_of, IsAtRest};

    ghost Value = { Handle };

    ghost view = { λ h. handle_of h.seat };

    ghost invariant = { λ h. IsAtRest (view_of h.seat) };
}

impl Hold {
    /// The key whose slot it holds.
    pub fn key(&self) -> Key
        ensures value { result ≡ self.now.key }
        ensures waits { is_waiting self.now.phase ≡ true }
    {
        self.seat.key()
    }

    /// The node that was born with the key.
    pub fn node(&self) -> Node
        ensures { result ≡ self.now.node }
    {
        self.seat.node()
    }

    /// Tries to take an active reference (`kernfs_get_active`). If it finds the node not live, for example
    /// hidden, it returns the hold. It makes one word step if it returns a call, and two if it returns the
    /// hold.
    pub fn enter(self) -> Result<Call, Hold>
        ensures same { MatchResult result (λ call. IsSameSeat self call) (λ hold. IsSameSeat self hold) }
        ensures call { IfOk result (λ call. Entered self call) }
        ensures refused { IfErr result (λ hold. WasTurned self hold) }
        ensures found { MatchResult result (λ call. FoundThere self call)
            (λ hold. FoundThere self hold) }
        ensures made { MatchResult result (λ call. WasATry (seat_view self) (seat_view call))
            (λ hold. WasATryUndoneThenWake (seat_view self) (seat_view hold)) }
        ensures live { IfOk result (λ call. WasLetInLive (seat_view self) (seat_view call)) }
    {
        match self.enter_quiet() {
            Ok(call) => Ok(call),
            Err((hold, due)) => {
                let Hold { mut seat } = hold;
                due.spend(&mut seat);
                Err(Hold { seat })
            }
        }
    }

    /// Checks, in one word step, whether the node is doomed and nobody uses it (one look of `kernfs_drain`).
    /// If so, it returns a `Drained`, and otherwise the hold. A refused try that is not yet undone counts as
    /// a user.
    pub fn look(self) -> Result<Drained, Hold>
        ensures same { MatchResult result (λ saw. IsSameSeat self saw) (λ hold. IsSameSeat self hold) }
        ensures drained { IfOk result (λ saw. SawDrained self saw) }
        ensures not_yet { IfErr result (λ hold. SawUse self hold) }
        ensures found { MatchResult result (λ saw. FoundThere self saw)
            (λ hold. FoundThere self hold) }
        ensures made { MatchResult result (λ saw. WasALook (seat_view self) (seat_view saw))
            (λ hold. WasALook (seat_view self) (seat_view hold)) }
    {
        let Hold { mut seat } = self;
        if is_drained(seat.load()) {
            Ok(Drained { seat })
        } else {
            Err(Hold { seat })
        }
    }

    /// Hides the key, in one word step. Until the key is shown again, each try is refused. If a caller hides
    /// the key already, the hold is returned.
    ///
    /// A tree calls this while it is locked, once nothing in the tree forbids the hiding. If it is called
    /// without that lock, the key is hidden from every caller all the same, and `wait_hidden` waits for those
    /// that are inside. But the step itself adds no note to the history, so the tree then still has the file
    /// as shown. The tree stores no command, its own `hide` of the file fails with Busy, and its `show` of
    /// the token changes only the word.
    pub fn hide(self) -> Result<Hiding, Hold>
        ensures same { MatchResult result (λ hiding. IsSameSeat self hiding) (λ hold. IsSameSeat self hold) }
        ensures hiding { IfOk result (λ hiding. WasHidden self hiding) }
        ensures already { IfErr result (λ hold. FoundHidden self hold) }
        ensures made { MatchResult result (λ hiding. WasAHide (seat_view self) (seat_view hiding))
            (λ hold. WasAHide (seat_view self) (seat_view hold)) }
    {
        let Hold { mut seat } = self;
        if has_hide(seat.set_hide()) {
            Err(Hold { seat })
        } else {
            Ok(Hiding { seat })
        }
    }

    /// Makes another hold of the same key (`kernfs_get`), without taking the tree's lock. The node may have
    /// left the tree meanwhile, since a slot that is held is not reused. The last place of a slot is not
    /// taken: it is kept for a hold that the tree's Master gives out.
    ///
    /// Refusals, in order: TooManyHolds if the slot already has the greatest number of holds, or one fewer;
    /// Busy if other holds came or went at each of 64 attempts; NoMemory if the table can have no further
    /// owner (its `Arc` is at its last count). A refusal leaves the slot's holds as they were.
    pub fn another(&mut self) -> Result<Hold, Refusal>
        ensures same { IsSameSeat self.old self.new }
        ensures stays { StaysAs self.old self.new }
        ensures other { IfOk result (λ other. IsAnother self.old other) }
        ensures made { IfOk result
            (λ other. WasCountedFor (seat_view self.old) (seat_view self.new) other.seen) }
        ensures refused { IfErr result (λ why. AnotherRefused self.old self.new why) }
        ensures missed { IfErr result
            (λ _. Missed sees_holds 1 64 (seat_view self.old) (seat_view self.new)) }
    {
        let seat = self.seat.another()?;
        Ok(Hold { seat })
    }

    /// Makes a hold of a key's node (`kernfs_get`), without taking the tree's lock. Any hold of the same
    /// table can do this. It counts the new hold by a compare-and-exchange on the hold word of the key's
    /// slot, and changes no other word. The node was linked at the moment when the hold was counted. The node
    /// is then read from the words of the slot, and was still linked after that. The last place of a slot is
    /// not taken: it is kept for a hold that the tree's Master gives out.
    ///
    /// Refusals, in order: NoEntry if the table has no such slot, or the key's node is not linked there;
    /// TooManyHolds if the slot already has the greatest number of holds, or one fewer; Busy if other holds
    /// came or went at each of 64 attempts; NoMemory if the table can have no further owner (its `Arc` is at
    /// its last count). A refusal leaves the slot's holds as they were.
    pub fn pin(&mut self, key: Key) -> Result<Hold, Refusal>
        ensures same { IsSameSeat self.old self.new }
        ensures stays { StaysAs self.old self.new }
        ensures other { IfOk result (λ other. IsHoldOf self.old key other) }
        ensures made { IfOk result
            (λ other. WasHeldFor key (seat_view self.old) (seat_view self.new) other) }
        ensures refused { HasSlotOf self.old key → IfErr result (λ why. IsRefused key self.old self.new why) }
        ensures beyond { (HasSlotOf self.old key → ⊥) → MatchResult result (λ _. ⊥)
            (λ why. (why ≡ refusal_of.NoEntry) × (self.new ≡ self.old)) }
    {
        if !self.seat.has_slot_of(key) {
            return Err(Refusal::NoEntry);
        }
        let seat = self.seat.pin(key)?;
        Ok(Hold { seat })
    }

    /// Releases the hold of the slot (`kernfs_put`), in one word step. The value is gone afterwards, so no
    /// clause here can speak of it. The contract of `release_place` says what the step found.
    pub fn release(self) {
        self.release_place();
    }

    /// Like `release`, and returns whether the slot had the greatest number of holds until then. If so, a
    /// caller whose request for a hold was refused with TooManyHolds may be waiting for this place.
    pub fn release_place(self) -> bool
        ensures { GavePlaceBack (seat_view self) result }
    {
        let Hold { mut seat } = self;
        let found = release_seat(&mut seat);
        let was_full = seat.is_full(found);
        seat.end();
        was_full
    }
}
