//! The notes at both ends of a critical section. One note says that the lock was taken, and another that it
//! is about to be released, so the notes between them say what was done while the lock was held once. A
//! caller that sees these notes before the unlock has seen them from then on.
ghost use Rattle.std.specs.Prelude.{◌≡◌, [], ◌∷◌, ◌++◌, IfOk};
ghost use mathlib.Core.List.{IsPrefix};
ghost use Rattle.kf_core.specs.declared.caller.Phase.TheVariants as phase_of;
ghost use Rattle.kf_words.specs.declared.note.Note.TheVariants.{LockTaken, LockReleased};
ghost use Rattle.kf_words.specs.declared.sight.StepKind.TheVariants.{Shows as shows};
ghost use Rattle.kf_words.specs.Callers.{IsSameSeat, WasShown, seat_view};
ghost use Rattle.kf_words.specs.Notes.{history_of};
ghost use Rattle.kf_shared.specs.Locked.{Adds, history};
ghost use Rattle.kf_shared.specs.Noted.{KeepsWords};
ghost use Rattle.kf_shared.specs.Removal.{HasHeard};
ghost use Rattle.kf_shared.specs.Sections.{SawMore, WasClosed, WasRestoredAt, WereMadeTold, show_note, unlink_note};

use crate::locked::Locked;
use crate::naming::Naming;
use crate::noting::{note_released, note_taken};
use kf_core::Refusal;
use kf_words::{Call, Drained, Hidden, Hiding, Hold};

impl<N: Naming> Locked<N> {
    /// Notes that the lock was taken.
    pub(crate) fn begin_section(&mut self)
        ensures state { self.new.state ≡ self.old.state }
        ensures words { KeepsWords self.old.master self.new.master }
        ensures claims { self.new.claims ≡ self.old.claims }
        ensures noted { Adds self.old self.new LockTaken }
    {
        note_taken(&mut self.master);
    }

    /// Notes that the lock is about to be released.
    pub(crate) fn end_section(&mut self)
        ensures state { self.new.state ≡ self.old.state }
        ensures words { KeepsWords self.old.master self.new.master }
        ensures claims { self.new.claims ≡ self.old.claims }
        ensures noted { Adds self.old self.new LockReleased }
    {
        note_released(&mut self.master);
    }

    /// Notes that the lock is about to be released, and lets the token of a file that is being hidden see all
    /// that was done until then.
    pub(crate) fn close_hiding(&mut self, hiding: &mut Hiding)
        requires table { hiding.old.table ≡ N.table }
        ensures hiding { WasClosed self.old [] hiding.old hiding.new }
    {
        self.master.meet_hiding(hiding);
        note_released(&mut self.master);
        self.master.meet_hiding(hiding);
    }

    /// Like `close_hiding`, for a call.
    pub(crate) fn close_call(&mut self, call: &mut Call)
        requires table { call.old.table ≡ N.table }
        ensures call { WasClosed self.old [] call.old call.new }
    {
        self.master.meet_call(call);
        note_released(&mut self.master);
        self.master.meet_call(call);
    }

    /// Takes a drained node out of the tree, as `unlink` does, and notes that the lock is about to be
    /// released. Unless the unlink is refused, the receipt has then seen that this is all that was done.
    pub(crate) fn unlink_alone(&mut self, drained: &mut Drained) -> Result<bool, Refusal>
        requires table { drained.old.table ≡ N.table }
        ensures same { HasHeard drained.old drained.new }
        ensures later { SawMore drained.old.seen drained.new.seen }
        ensures told { IfOk result (λ _.
            WasClosed self.old (unlink_note self.old.state.tree drained.old.key) drained.old drained.new) }
    {
        self.master.meet_drained(drained);
        let unlinked = self.unlink(drained);
        note_released(&mut self.master);
        self.master.meet_drained(drained);
        unlinked
    }

    /// Shows a hidden file again, as `show` does, and notes that the lock is about to be released. The hold
    /// has then seen that this is all that was done.
    pub(crate) fn show_alone(&mut self, hidden: Hidden) -> Hold
        requires table { hidden.table ≡ N.table }
        ensures hold { IsSameSeat hidden result × WasShown hidden result }
        ensures made { WereMadeTold shows 1 (seat_view hidden) (seat_view result) }
        ensures came { IsPrefix (history_of hidden.seen) (history self.old) }
        ensures seen { history_of result.seen
            ≡ (history self.old ++ show_note self.old.state.tree hidden.key) ++ LockReleased ∷ [] }
    {
        let mut hidden = hidden;
        self.master.meet_hidden(&mut hidden);
        let mut hold = self.show(hidden);
        note_released(&mut self.master);
        self.master.meet(&mut hold);
        hold
    }

    /// Restores a call, and does nothing else.
    ///
    /// Condition: the call is Broken.
    pub(crate) fn restore_alone(&mut self, call: &mut Call)
        requires table { call.old.table ≡ N.table }
        requires broken { call.old.phase ≡ phase_of.Broken }
        ensures same { IsSameSeat call.old call.new }
        ensures answered { call.new.phase ≡ phase_of.Restored }
        ensures later { SawMore call.old.seen call.new.seen }
        ensures restored { WasRestoredAt (history self.old) (seat_view call.new) }
    {
        self.master.meet_call(call); // the call has now seen all that was done so far
        call.restore();
        self.master.meet_call(call); // and that nothing was done since
    }
}
