//! Makes another hold, from a seat that has one. The slot's hold word counts one more hold, and a new seat
//! gets it. No lock is taken, and the node need not be linked.
ghost use Rattle.std.specs.Prelude.{◌≡◌, ◌≢◌, None, IfOk, IfErr, IfSome};
ghost use Rattle.kf_words.specs.Layout.{HasSpare};
ghost use Rattle.kf_words.specs.Steps.{after_miss};
ghost use Rattle.kf_words.specs.Callers.{IsSameSeat, IsAtRest, handle_of, sight_of, view_of};
ghost use Rattle.kf_words.specs.Made.{WasAMiss, WasDoubled};
ghost use Rattle.kf_words.specs.Another.{IsShared, StaysAs, IsAnother, AnotherRefused, HasNoSpare, WasCountedFor, Missed};
ghost use Rattle.kf_words.specs.TableSteps.{sees_holds};

use crate::layout::has_spare;
use crate::plays::{CountsHold, SeesHolds, SharesHold};
use crate::seat::CallerSeat;
use crate::sight::Sight;
use atomic_table::Seat;
use kf_core::Refusal;
use std::sync::Arc;

/// How often an exchange is attempted if other holds come and go in between.
const TRIES: u32 = 64;

impl CallerSeat {
    /// Loads the hold word as it is now, by a load that the rule does not see.
    pub(crate) fn peek_holds(&self) -> u64 {
        self.table.shared.peek(self.hold_index())
    }

    /// Loads the hold word. The step also names the greatest number of holds of a slot: it is a
    /// compare-and-exchange of that number for itself, which changes no word.
    fn see_holds(&mut self) -> u64
        requires { IsAtRest (view_of self.old) }
        ensures same { IsSameSeat (handle_of self.old) (handle_of self.new) }
        ensures view { view_of self.new ≡ after_miss result (view_of self.old) }
        ensures made { WasAMiss (sight_of self.old) (sight_of self.new) }
        ensures limit { (handle_of self.new).seen.opening.holds ≡ self.new.most }
        ensures most { self.new.most ≡ self.old.most }
    {
        let word = self.hold_index();
        let most = self.most as u64;
        self.table
            .shared
            .compare_exchange::<SeesHolds>(&mut self.token, word, most, most)
    }

    /// Counts one more hold if the hold word is as expected, and gives the hold a new seat. An Err has the
    /// word that was found instead.
    fn exchange(&mut self, expected: u64) -> Result<Seat<(), Sight>, u64>
        requires rests { IsAtRest (view_of self.old) }
        requires spare { HasSpare self.old.most expected }
        ensures same { IsSameSeat (handle_of self.old) (handle_of self.new) }
        ensures stays { StaysAs (handle_of self.old) (handle_of self.new) }
        ensures shared { IfOk result
            (λ token. WasDoubled (sight_of self.old) (sight_of self.new) token.me.0.seen) }
        ensures token { IfOk result (λ token. IsShared (handle_of self.new) token) }
        ensures missed { IfErr result (λ _. WasAMiss (sight_of self.old) (sight_of self.new)) }
        ensures view { IfErr result (λ found. view_of self.new ≡ after_miss found (view_of self.old)) }
        ensures other { IfErr result (λ found. found ≢ expected) }
    {
        let word = self.hold_index();
        let found = self
            .table
            .shared
            .compare_exchange::<CountsHold>(&mut self.token, word, expected, expected + 1);
        if found != expected {
            return Err(found);
        }
        Ok(self.table.shared.split_seat::<SharesHold>(&mut self.token))
    }

    /// Makes one attempt at another hold. It succeeds if the guessed word has a spare place, and the hold
    /// word is as guessed. An Err has the word that was found instead. It may be None if that word has no
    /// spare place.
    fn try_another(&mut self, guess: u64) -> Result<Seat<(), Sight>, Option<u64>>
        requires { IsAtRest (view_of self.old) }
        ensures same { IsSameSeat (handle_of self.old) (handle_of self.new) }
        ensures stays { StaysAs (handle_of self.old) (handle_of self.new) }
        ensures token { IfOk result (λ token. IsShared (handle_of self.new) token) }
        ensures shared { IfOk result
            (λ token. WasDoubled (sight_of self.old) (sight_of self.new) token.me.0.seen) }
        ensures missed { IfErr result (λ _. WasAMiss (sight_of self.old) (sight_of self.new)) }
        ensures outrun { IfErr result (λ why. IfSome why
            (λ found. (found ≡ (view_of self.new).found) × (found ≢ guess))) }
        ensures full { IfErr result (λ why. why ≡ None → HasNoSpare (handle_of self.new)) }
    {
        if has_spare(guess, self.most) {
            return match self.exchange(guess) {
                Ok(token) => Ok(token),
                Err(found) => Err(Some(found)),
            };
        }
        let found = self.see_holds();
        if has_spare(found, self.most) {
            Err(Some(found))
        } else {
            Err(None)
        }
    }

    /// Counts one more hold, and gives the hold a new seat.
    ///
    /// Refusals, in order: TooManyHolds, Busy.
    fn count_another(&mut self) -> Result<Seat<(), Sight>, Refusal>
        requires { IsAtRest (view_of self.old) }
        ensures same { IsSameSeat (handle_of self.old) (handle_of self.new) }
        ensures stays { StaysAs (handle_of self.old) (handle_of self.new) }
        ensures token { IfOk result (λ token. IsShared (handle_of self.new) token) }
        ensures counted { IfOk result
            (λ token. WasCountedFor (sight_of self.old) (sight_of self.new) token.me.0.seen) }
        ensures refused { IfErr result
            (λ why. AnotherRefused (handle_of self.old) (handle_of self.new) why) }
        ensures missed { IfErr result (λ _. Missed sees_holds 1 64 (sight_of self.old) (sight_of self.new)) }
    {
        let mut guess = self.peek_holds();
        for tries in 0..TRIES {
            let _ = tries; // only the proof names it
            match self.try_another(guess) {
                Ok(token) => return Ok(token),
                Err(None) => return Err(Refusal::TooManyHolds),
                Err(Some(found)) => guess = found,
            }
        }
        Err(Refusal::Busy)
    }

    /// Why no other hold is made if the table can have no further owner. It is NoMemory only if the slot has
    /// a spare place.
    fn refuse_another(&mut self) -> Refusal
        requires { IsAtRest (view_of self.old) }
        ensures same { IsSameSeat (handle_of self.old) (handle_of self.new) }
        ensures stays { StaysAs (handle_of self.old) (handle_of self.new) }
        ensures refused { AnotherRefused (handle_of self.old) (handle_of self.new) result }
        ensures missed { Missed sees_holds 1 64 (sight_of self.old) (sight_of self.new) }
    {
        let found = self.see_holds();
        if has_spare(found, self.most) {
            Refusal::NoMemory
        } else {
            Refusal::TooManyHolds
        }
    }

    /// Makes another seat of the same key and node, which has one more hold of the slot.
    pub(crate) fn another(&mut self) -> Result<CallerSeat, Refusal>
        requires { IsAtRest (view_of self.old) }
        ensures same { IsSameSeat (handle_of self.old) (handle_of self.new) }
        ensures stays { StaysAs (handle_of self.old) (handle_of self.new) }
        ensures other { IfOk result (λ seat. IsAnother (handle_of self.old) (handle_of seat)) }
        ensures rests { IfOk result (λ seat. IsAtRest (view_of seat)) }
        ensures counted { IfOk result
            (λ seat. WasCountedFor (sight_of self.old) (sight_of self.new) (handle_of seat).seen) }
        ensures refused { IfErr result
            (λ why. AnotherRefused (handle_of self.old) (handle_of self.new) why) }
        ensures missed { IfErr result (λ _. Missed sees_holds 1 64 (sight_of self.old) (sight_of self.new)) }
    {
        let (key, node, most) = (self.key, self.node(), self.most);
        let Ok(table) = Arc::try_clone(&self.table) else {
            return Err(self.refuse_another());
        };
        let token = self.count_another()?;
        Ok(CallerSeat::new(table, key, node, most, token))
    }
}
