//! The steps of a caller's seat, one by one.
ghost use Rattle.std.specs.Prelude.{◌≡◌, ◌<◌, true, false};
ghost use Rattle.std.specs.Arc.{arc_value};
ghost use Rattle.kf_core.specs.Phases.{may_release};
ghost use Rattle.kf_core.specs.declared.caller.Phase.TheVariants as phase_of;
ghost use Rattle.kf_words.specs.Steps.{after_try, after_undo, after_leave, after_break, after_restore, after_look, after_part, after_hide, after_look_hidden, after_show};
ghost use Rattle.kf_words.specs.Callers.{IsSameSeat, IsAtRest, HasReference, IsInPhase, WasReleased, handle_of, owed, sight_of, view_of};
ghost use Rattle.kf_words.specs.Layout.{active_index, hold_index, has_hide, is_full};
ghost use Rattle.kf_words.specs.Made.{WasATry, WasUndone, WasALeave, WasABreak, WasARestore, WasALook, WasAPart, WasAHide, WasALookHidden, WasAShow, WasReleasedAt};

use crate::layout::{HIDE, active_index, hold_index, is_full};
use crate::plays::{
    Breaks, Hides, Leaves, Looks, LooksHidden, Most, Parts, ReleasesOf, Restores, Shows, Tries,
    Undoes,
};
use crate::seat::CallerSeat;
use crate::wake_due::WakeDue;
use std::marker::Brand;

impl CallerSeat {
    /// The index of its slot's active word in the table.
    pub(crate) fn active_index(&self) -> usize
        ensures here { result ≡ active_index self.now.key.slot }
        ensures within { result < (arc_value self.now.table).shared.table_id.words }
    {
        active_index(self.key.slot)
    }

    /// Counts one more user, and returns the word that it found.
    pub(crate) fn try_reference(&mut self) -> u64
        requires { IsAtRest (view_of self.old) }
        ensures same { IsSameSeat (handle_of self.old) (handle_of self.new) }
        ensures view { view_of self.new ≡ after_try result (view_of self.old) }
        ensures made { WasATry (sight_of self.old) (sight_of self.new) }
    {
        let word = self.active_index();
        self.table
            .shared
            .fetch_add::<Tries>(&mut self.token, word, 1)
    }

    /// Undoes the count of a refused try. The wake that it owes depends on the word that this step found.
    pub(crate) fn undo(&mut self) -> WakeDue
        requires turned { (view_of self.old).phase ≡ phase_of.Turned }
        requires due { (view_of self.old).undo_due ≡ true }
        ensures same { IsSameSeat (handle_of self.old) (handle_of self.new) }
        ensures view { view_of self.new ≡ after_undo (view_of self.old) }
        ensures made { WasUndone (sight_of self.old) (sight_of self.new) result.found }
        ensures slot { result.slot ≡ self.new.key.slot }
    {
        let word = self.active_index();
        let found = self
            .table
            .shared
            .fetch_sub::<Undoes>(&mut self.token, word, 1);
        WakeDue::new(self.key.slot, found)
    }

    /// Takes one user off the count, at the end of a call.
    pub(crate) fn drop_reference(&mut self) -> WakeDue
        requires { HasReference (view_of self.old) }
        ensures same { IsSameSeat (handle_of self.old) (handle_of self.new) }
        ensures view { view_of self.new ≡ after_leave result.found (view_of self.old) }
        ensures made { WasALeave (sight_of self.old) (sight_of self.new) }
        ensures due { result ≡ owed (handle_of self.new) }
    {
        let word = self.active_index();
        let found = self
            .table
            .shared
            .fetch_sub::<Leaves>(&mut self.token, word, 1);
        WakeDue::new(self.key.slot, found)
    }

    /// Takes one user off the count, inside the call.
    pub(crate) fn break_off(&mut self) -> WakeDue
        requires { IsInPhase phase_of.Running (view_of self.old) }
        ensures same { IsSameSeat (handle_of self.old) (handle_of self.new) }
        ensures view { view_of self.new ≡ after_break result.found (view_of self.old) }
        ensures made { WasABreak (sight_of self.old) (sight_of self.new) }
        ensures due { result ≡ owed (handle_of self.new) }
    {
        let word = self.active_index();
        let found = self
            .table
            .shared
            .fetch_sub::<Breaks>(&mut self.token, word, 1);
        WakeDue::new(self.key.slot, found)
    }

    /// Counts one more user inside the call, whatever the word is, and returns the word that it found.
    pub(crate) fn take_again(&mut self) -> u64
        requires { IsInPhase phase_of.Broken (view_of self.old) }
        ensures same { IsSameSeat (handle_of self.old) (handle_of self.new) }
        ensures view { view_of self.new ≡ after_restore result (view_of self.old) }
        ensures made { WasARestore (sight_of self.old) (sight_of self.new) }
    {
        let word = self.active_index();
        self.table
            .shared
            .fetch_add::<Restores>(&mut self.token, word, 1)
    }

    /// Loads the active word.
    pub(crate) fn load(&mut self) -> u64
        requires { IsAtRest (view_of self.old) }
        ensures same { IsSameSeat (handle_of self.old) (handle_of self.new) }
        ensures view { view_of self.new ≡ after_look result (view_of self.old) }
        ensures made { WasALook (sight_of self.old) (sight_of self.new) }
    {
        let word = self.active_index();
        self.table.shared.load::<Looks>(&mut self.token, word)
    }

    /// Sets the bit HIDE, and returns the word that it found.
    pub(crate) fn set_hide(&mut self) -> u64
        requires { IsAtRest (view_of self.old) }
        ensures same { IsSameSeat (handle_of self.old) (handle_of self.new) }
        ensures view { view_of self.new ≡ after_hide result (view_of self.old) }
        ensures made { WasAHide (sight_of self.old) (sight_of self.new) }
    {
        let word = self.active_index();
        self.table
            .shared
            .fetch_or::<Hides>(&mut self.token, word, HIDE)
    }

    /// Loads the active word of the key that it hides.
    pub(crate) fn load_hidden(&mut self) -> u64
        requires { IsInPhase phase_of.Hiding (view_of self.old) }
        ensures same { IsSameSeat (handle_of self.old) (handle_of self.new) }
        ensures view { view_of self.new ≡ after_look_hidden result (view_of self.old) }
        ensures made { WasALookHidden (sight_of self.old) (sight_of self.new) }
    {
        let word = self.active_index();
        self.table.shared.load::<LooksHidden>(&mut self.token, word)
    }

    /// Clears the bit HIDE, and returns the word that it found.
    pub(crate) fn clear_hide(&mut self) -> u64
        requires { IsInPhase phase_of.Hidden (view_of self.old) }
        ensures same { IsSameSeat (handle_of self.old) (handle_of self.new) }
        ensures view { view_of self.new ≡ after_show result (view_of self.old) }
        ensures made { WasAShow (sight_of self.old) (sight_of self.new) }
        ensures set { has_hide result ≡ true }
    {
        let word = self.active_index();
        self.table
            .shared
            .fetch_sub::<Shows>(&mut self.token, word, HIDE)
    }

    /// The index of its slot's hold word in the table.
    pub(crate) fn hold_index(&self) -> usize
        ensures here { result ≡ hold_index self.now.key.slot }
        ensures within { result < (arc_value self.now.table).shared.table_id.words }
    {
        hold_index(self.key.slot)
    }

    /// Loads the hold word.
    pub(crate) fn load_hold(&mut self) -> u64
        requires { IsInPhase phase_of.Drained (view_of self.old) }
        ensures same { IsSameSeat (handle_of self.old) (handle_of self.new) }
        ensures view { view_of self.new ≡ after_part result (view_of self.old) }
        ensures made { WasAPart (sight_of self.old) (sight_of self.new) }
    {
        let word = self.hold_index();
        self.table.shared.load::<Parts>(&mut self.token, word)
    }

    /// Whether this hold word has the greatest number of holds.
    pub(crate) fn is_full(&self, word: u64) -> bool
        ensures { result ≡ is_full self.now.most word }
    {
        is_full(word, self.most)
    }
}

/// Releases a seat's hold of its slot, and names the greatest number of holds of a slot.
fn release_of<E: Most>(seat: &mut CallerSeat) -> u64
    requires idle { may_release (handle_of seat.old).phase ≡ true }
    requires settled { (handle_of seat.old).undo_due ≡ false }
    requires picked { E.most ≡ seat.old.most }
    ensures same { IsSameSeat (handle_of seat.old) (handle_of seat.new) }
    ensures released { WasReleased (handle_of seat.old) (handle_of seat.new) }
    ensures made { WasReleasedAt (sight_of seat.old) (sight_of seat.new) result }
    ensures most { seat.new.most ≡ seat.old.most }
    ensures limit { seat.old.most ≡ (handle_of seat.old).seen.opening.holds }
{
    let word = seat.hold_index();
    seat.table
        .shared
        .fetch_sub::<ReleasesOf<E>>(&mut seat.token, word, 1)
}

/// Releases a seat's hold of its slot, in one word step, and returns the hold word that it found. The
/// `release` of each type that holds a slot calls this.
pub fn release_seat(seat: &mut CallerSeat) -> u64
    requires idle { may_release (handle_of seat.old).phase ≡ true }
    requires settled { (handle_of seat.old).undo_due ≡ false }
    ensures same { IsSameSeat (handle_of seat.old) (handle_of seat.new) }
    ensures released { WasReleased (handle_of seat.old) (handle_of seat.new) }
    ensures made { WasReleasedAt (sight_of seat.old) (sight_of seat.new) result }
    ensures most { seat.new.most ≡ seat.old.most }
    ensures limit { seat.old.most ≡ (handle_of seat.old).seen.opening.holds }
{
    release_of::<Brand>(seat)
}
