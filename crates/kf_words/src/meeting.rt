//! The Master and a hold exchange what they have seen, while one thread has both.
ghost use Rattle.std.specs.Prelude.{◌≡◌, ◌≢◌};
ghost use mathlib.Core.List.{IsPrefix};
ghost use Rattle.kf_core.specs.declared.caller.Phase.TheVariants as phase_of;
ghost use Rattle.kf_words.specs.Callers.{handle_of, having_seen, view_of};
ghost use Rattle.kf_words.specs.Nodes.{KeepsNodes};
ghost use Rattle.kf_words.specs.Notes.{history_of};

use crate::call::Call;
use crate::hiding::{Hidden, Hiding};
use crate::hold::Hold;
use crate::holds::Holds;
use crate::master::Master;
use crate::receipt::{Drained, Parted};
use crate::seat::CallerSeat;
use std::marker::Brand;

impl Master {
    /// Like `meet`, for any seat that holds its slot.
    fn meet_seat(&mut self, seat: &mut CallerSeat)
        requires table { seat.old.token.table_id ≡ self.old.table }
        requires holds { (view_of seat.old).phase ≢ phase_of.Spent }
        ensures kept { KeepsNodes self.old self.new }
        ensures view { self.new.view ≡ self.old.view }
        ensures seat_view { view_of seat.new ≡ view_of seat.old }
        ensures seat { handle_of seat.new ≡ having_seen self.new.seen (handle_of seat.old) }
        ensures met { IsPrefix (handle_of seat.old).seen.steps self.new.seen.steps }
        ensures after { IsPrefix (history_of (handle_of seat.old).seen) (history_of self.old.seen) }
    {
        let report = seat.report();
        self.steps.hear::<Brand>(report);
        self.steps.compare();
        let answer = self.steps.answer();
        seat.take_over::<Brand>(answer);
    }

    /// Compares what a hold has seen with the run so far, and lets the hold see all that the Master has seen.
    /// So what the hold had seen of the history is a beginning of the history that the Master's owner finds.
    /// It makes five steps at the table: two splits, two joins and a load. None of them changes a word.
    ///
    /// Condition: the hold is of this table.
    pub fn meet(&mut self, hold: &mut Hold)
        requires table { hold.old.table ≡ self.old.table }
        ensures kept { KeepsNodes self.old self.new }
        ensures view { self.new.view ≡ self.old.view }
        ensures hold { hold.new ≡ having_seen self.new.seen hold.old }
        ensures met { IsPrefix hold.old.seen.steps self.new.seen.steps }
        ensures after { IsPrefix (history_of hold.old.seen) (history_of self.old.seen) }
    {
        self.meet_seat(&mut hold.seat);
    }

    /// Like `meet`, for a maker's own hold.
    ///
    /// Condition: the maker is of this table.
    pub fn meet_maker(&mut self, holds: &mut Holds)
        requires table { holds.old.by.table ≡ self.old.table }
        ensures kept { KeepsNodes self.old self.new }
        ensures view { self.new.view ≡ self.old.view }
        ensures by { holds.new.by ≡ having_seen self.new.seen holds.old.by }
        ensures spare { holds.new.spare ≡ holds.old.spare }
    {
        self.meet_seat(&mut holds.by);
    }

    /// Like `meet`, for a call.
    ///
    /// Condition: the call is of this table.
    pub fn meet_call(&mut self, call: &mut Call)
        requires table { call.old.table ≡ self.old.table }
        ensures kept { KeepsNodes self.old self.new }
        ensures view { self.new.view ≡ self.old.view }
        ensures call { call.new ≡ having_seen self.new.seen call.old }
        ensures met { IsPrefix call.old.seen.steps self.new.seen.steps }
        ensures after { IsPrefix (history_of call.old.seen) (history_of self.old.seen) }
    {
        self.meet_seat(&mut call.seat);
    }

    /// Like `meet`, for a caller that saw its node drained.
    ///
    /// Condition: the receipt is of this table.
    pub fn meet_drained(&mut self, drained: &mut Drained)
        requires table { drained.old.table ≡ self.old.table }
        ensures kept { KeepsNodes self.old self.new }
        ensures view { self.new.view ≡ self.old.view }
        ensures drained { drained.new ≡ having_seen self.new.seen drained.old }
        ensures met { IsPrefix drained.old.seen.steps self.new.seen.steps }
        ensures after { IsPrefix (history_of drained.old.seen) (history_of self.old.seen) }
    {
        self.meet_seat(&mut drained.seat);
    }

    /// Like `meet`, for a caller that saw its node drained, and then saw it gone from the tree.
    ///
    /// Condition: the receipt is of this table.
    pub fn meet_parted(&mut self, parted: &mut Parted)
        requires table { parted.old.table ≡ self.old.table }
        ensures kept { KeepsNodes self.old self.new }
        ensures view { self.new.view ≡ self.old.view }
        ensures parted { parted.new ≡ having_seen self.new.seen parted.old }
        ensures met { IsPrefix parted.old.seen.steps self.new.seen.steps }
        ensures after { IsPrefix (history_of parted.old.seen) (history_of self.old.seen) }
    {
        self.meet_seat(&mut parted.seat);
    }

    /// Like `meet`, for the token of a hidden file.
    ///
    /// Condition: the token is of this table.
    pub fn meet_hidden(&mut self, hidden: &mut Hidden)
        requires table { hidden.old.table ≡ self.old.table }
        ensures kept { KeepsNodes self.old self.new }
        ensures view { self.new.view ≡ self.old.view }
        ensures hidden { hidden.new ≡ having_seen self.new.seen hidden.old }
        ensures met { IsPrefix hidden.old.seen.steps self.new.seen.steps }
        ensures after { IsPrefix (history_of hidden.old.seen) (history_of self.old.seen) }
    {
        self.meet_seat(&mut hidden.seat);
    }

    /// Like `meet`, for the token of a file that is being hidden.
    ///
    /// Condition: the token is of this table.
    pub fn meet_hiding(&mut self, hiding: &mut Hiding)
        requires table { hiding.old.table ≡ self.old.table }
        ensures kept { KeepsNodes self.old self.new }
        ensures view { self.new.view ≡ self.old.view }
        ensures hiding { hiding.new ≡ having_seen self.new.seen hiding.old }
        ensures met { IsPrefix hiding.old.seen.steps self.new.seen.steps }
        ensures after { IsPrefix (history_of hiding.old.seen) (history_of self.old.seen) }
    {
        self.meet_seat(&mut hiding.seat);
    }
}
