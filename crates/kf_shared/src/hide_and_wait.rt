//! Hiding files, with the wait for their callbacks, and showing them again.
ghost use Rattle.std.specs.Prelude.{◌≡◌, true, None, [], ◌∷◌, IfErr, IfOk, OnOk};
ghost use Rattle.kf_core.specs.declared.command.Command.TheVariants.{Hide};
ghost use Rattle.kf_core.specs.declared.caller.Phase.TheVariants as phase_of;
ghost use Rattle.kf_words.specs.Callers.{IsSameSeat, WasShown, seat_view};
ghost use Rattle.kf_words.specs.Layout.{is_unused};
ghost use Rattle.kf_words.specs.declared.note.Note.TheVariants.{Did};
ghost use Rattle.kf_words.specs.declared.sight.StepKind.TheVariants.{Shows as shows};
ghost use Rattle.kf_shared.specs.Locked.{history};
ghost use Rattle.kf_shared.specs.Sections.{HidToldAndLooked, WasAddedLate, WasClosed, WasHiddenAlone, WasShownAlone, WereMadeTold};
ghost use Rattle.kf_shared.specs.Hiding.{HideRefused, HidingRefused, hold_cause, kind_cause};

use crate::editor::Editor;
use crate::naming::Naming;
use crate::tree::SharedTree;
use kf_core::Refusal;
use kf_words::{Hidden, Hiding, Hold, wait_hidden};
use std::sync::Wait;

impl<N: Naming> SharedTree<N> {
    /// Hides a file, and waits, while the tree is unlocked, until nobody has a reference to it. Then no
    /// callback runs on the file, except one that broke its own protection, and none starts until the file is
    /// shown. The hiding is all that is done in its critical section, and the token has seen that. It may
    /// never return: it waits for every callback that runs on the file, its caller's own included, and for
    /// the lock.
    ///
    /// Condition: the hold is of this tree's table.
    ///
    /// Refusals, in order, all before the wait: IsDir, Invalid (a link), both by the kind of the hold's own
    /// node; NoEntry (not linked, or doomed), Busy (hidden), NoMemory. After a refusal the tree is as before,
    /// and the hold is returned. One case differs: if somebody bypassed the tree and hid the key with
    /// [`Hold::hide`], Busy comes after NoMemory, and the hold has made one word step.
    ///
    /// Context: sleeps; takes the tree's lock, which the caller must not hold.
    pub fn hide<R: Wait>(&self, rt: &R, hold: Hold) -> Result<Hidden, (Hold, Refusal)>
        requires table { hold.table ≡ N.table }
        ensures same { IfOk result (λ hidden. IsSameSeat hold hidden) }
        ensures hidden { IfOk result (λ hidden. hidden.phase ≡ phase_of.Hidden) }
        ensures unused { IfOk result (λ hidden. is_unused hidden.found ≡ true) }
        ensures looked { IfOk result (λ hidden. HidToldAndLooked (seat_view hold) (seat_view hidden)) }
        ensures alone { IfOk result (λ hidden. WasHiddenAlone hold hidden) }
        ensures file { OnOk result (kind_cause hold.node ≡ None) }
        ensures refused { IfErr result (λ r. HidingRefused hold r.0 r.1) }
    {
        self.edit(rt).hide_and_wait(rt, hold)
    }

    /// Shows a hidden file again, under the lock. That is all that is done in this critical section, and the
    /// hold has seen that. It refuses nothing and allocates nothing.
    ///
    /// Condition: the token is of this tree's table.
    ///
    /// Context: sleeps; takes the tree's lock, which the caller must not hold.
    pub fn show<R: Wait>(&self, rt: &R, hidden: Hidden) -> Hold
        requires table { hidden.table ≡ N.table }
        ensures hold { IsSameSeat hidden result × WasShown hidden result }
        ensures made { WereMadeTold shows 1 (seat_view hidden) (seat_view result) }
        ensures alone { WasShownAlone hidden result }
    {
        let mut editor = self.edit(rt);
        editor.guard.show_alone(hidden)
    }
}

impl<'a, N: Naming> Editor<'a, N> {
    /// Unlocks after `hide`, and lets the token see all that was done until the lock was released.
    /// [`wait_hidden`] then waits.
    ///
    /// Condition: the token is of this table.
    pub fn end_hiding(self, hiding: &mut Hiding) -> &'a SharedTree<N>
        requires table { hiding.old.table ≡ N.table }
        ensures closed { WasClosed self.entry [] hiding.old hiding.new }
    {
        let mut editor = self;
        let tree = editor.tree;
        editor.guard.close_hiding(hiding);
        drop(editor);
        tree
    }

    /// Like `hide`, but then unlocks the tree and waits until nobody has a reference to the file, as
    /// [`SharedTree::hide`] does.
    ///
    /// Condition: the hold is of this table.
    ///
    /// Refusals: those of `hide`. After a refusal the tree is as before, and unlocked.
    ///
    /// Context: sleeps once it has unlocked the tree.
    pub fn hide_and_wait<R: Wait>(self, rt: &R, hold: Hold) -> Result<Hidden, (Hold, Refusal)>
        requires table { hold.table ≡ N.table }
        ensures same { IfOk result (λ hidden. IsSameSeat hold hidden) }
        ensures hidden { IfOk result (λ hidden. hidden.phase ≡ phase_of.Hidden) }
        ensures unused { IfOk result (λ hidden. is_unused hidden.found ≡ true) }
        ensures looked { IfOk result (λ hidden. HidToldAndLooked (seat_view hold) (seat_view hidden)) }
        ensures alone { IfOk result (λ hidden. WasAddedLate hold.seen hidden.seen (history self.entry)
            (Did (Hide hold.key) ∷ [])) }
        ensures no_cause { OnOk result (hold_cause self.entry.state.tree hold ≡ None) }
        ensures refused { IfErr result (λ r. HideRefused self.entry.state.tree hold r.0 r.1) }
    {
        let mut editor = self;
        let mut hiding = editor.hide(hold)?;
        let _ = editor.end_hiding(&mut hiding);
        Ok(wait_hidden(rt, hiding))
    }
}
