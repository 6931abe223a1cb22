//! Hiding files and showing them again: the tree's part and the words' part of each, under the lock.
ghost use Rattle.std.specs.Prelude.{◌≡◌, IfOk, IfErr, OnOk, OnErr, Option};
ghost use Rattle.kf_core.specs.declared.command.Command.TheVariants.{Hide};
ghost use Rattle.kf_core.specs.declared.refusal.Refusal.TheVariants as refusal_of;
ghost use Rattle.kf_tree.specs.TreeLogs.{IsAccepted, IsCompacted};
ghost use Rattle.kf_words.specs.Callers.{IsSameSeat, WasHidden, WasShown, seat_view};
ghost use Rattle.kf_words.specs.Runs.{WasAHide, WasAShow};
ghost use Rattle.kf_words.specs.declared.note.Note.TheVariants.{Did, Compacted};
ghost use Rattle.kf_shared.specs.Locked.{Adds, Unchanged};
ghost use Rattle.kf_shared.specs.Noted.{KeepsWords};
ghost use Rattle.kf_shared.specs.Hiding.{kind_cause, hold_cause, HideRefused, ShowDone, ShowNoted};

use crate::locked::Locked;
use crate::naming::Naming;
use crate::noting::{note_compaction, note_last};
use kf_core::{Node, Refusal};
use kf_words::{Hidden, Hiding, Hold};

/// Why a node of this kind cannot be hidden; None if it can.
fn kind_fault(node: Node) -> Option<Refusal>
    ensures { result ≡ kind_cause node }
{
    match node {
        Node::Dir => Some(Refusal::IsDir),
        Node::File { .. } => None,
        Node::Link { .. } => Some(Refusal::Invalid),
    }
}

impl<N: Naming> Locked<N> {
    /// Hides the file of a hold: asks the tree first, then changes the word, and then changes the tree.
    ///
    /// Condition: the hold is of this table.
    ///
    /// Refusals, in order: IsDir, Invalid (a link), both by the kind of the hold's own node; NoEntry (not
    /// linked, or doomed), Busy (hidden), NoMemory. After a refusal the tree is as before, and the hold is
    /// returned. If somebody bypassed the tree and hid the key with [`Hold::hide`], Busy comes last, and the
    /// hold has made one word step.
    pub fn hide(&mut self, hold: Hold) -> Result<Hiding, (Hold, Refusal)>
        requires table { hold.table ≡ N.table }
        ensures hiding { IfOk result (λ hiding. IsSameSeat hold hiding × WasHidden hold hiding) }
        ensures made { IfOk result (λ hiding. WasAHide (seat_view hold) (seat_view hiding)) }
        ensures accepted { IfOk result
            (λ _. IsAccepted self.old.state self.new.state (hold_cause self.old.state.tree hold)
            (Hide hold.key)) }
        ensures noted { OnOk result (Adds self.old self.new (Did (Hide hold.key))) }
        ensures refused { IfErr result (λ r. HideRefused self.old.state.tree hold r.0 r.1) }
        ensures same { OnErr result (Unchanged self.old self.new) }
        ensures words { KeepsWords self.old.master self.new.master }
        ensures claims { self.new.claims ≡ self.old.claims }
    {
        if let Some(refusal) = kind_fault(hold.node()) {
            return Err((hold, refusal));
        }
        let key = hold.key();
        if let Err(refusal) = self.state.may_hide(key) {
            return Err((hold, refusal));
        }
        match hold.hide() {
            Ok(hiding) => {
                self.state.hide(key);
                note_last(&mut self.master, &self.state);
                Ok(hiding)
            }
            Err(back) => Err((back, Refusal::Busy)),
        }
    }

    /// Shows a hidden file again: in the words and, if it is linked and hidden in the tree, in the tree too.
    ///
    /// Condition: the token is of this table.
    pub fn show(&mut self, hidden: Hidden) -> Hold
        requires table { hidden.table ≡ N.table }
        ensures hold { IsSameSeat hidden result × WasShown hidden result }
        ensures made { WasAShow (seat_view hidden) (seat_view result) }
        ensures done { ShowDone self.old self.new hidden.key }
        ensures noted { ShowNoted self.old self.new hidden.key }
        ensures words { KeepsWords self.old.master self.new.master }
        ensures claims { self.new.claims ≡ self.old.claims }
    {
        let key = hidden.key();
        let hold = hidden.show();
        if self.state.show(key) {
            note_last(&mut self.master, &self.state);
        }
        hold
    }

    /// Replaces the stored commands with the canonical list of this tree.
    pub fn compact(&mut self) -> Result<(), Refusal>
        ensures compacted { IfOk result (λ _. IsCompacted self.old.state self.new.state) }
        ensures noted { OnOk result (Adds self.old self.new Compacted) }
        ensures refused { IfErr result (λ refusal. refusal ≡ refusal_of.NoMemory) }
        ensures same { OnErr result (self.new ≡ self.old) }
        ensures words { KeepsWords self.old.master self.new.master }
        ensures claims { self.new.claims ≡ self.old.claims }
    {
        self.state.compact()?;
        note_compaction(&mut self.master);
        Ok(())
    }
}
