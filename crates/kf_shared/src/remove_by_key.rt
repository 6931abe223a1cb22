//! Removal of a node by its key, its name or its path, in the tree that an editor has locked.
ghost use Rattle.std.specs.Prelude.{◌≡◌, Ok, IfErr, IfOk, OnErr, OnOk};
ghost use Rattle.kf_core.specs.declared.command.Command.TheVariants.{Doom};
ghost use Rattle.kf_core.specs.declared.key.Key.{Key};
ghost use Rattle.kf_core.specs.PostOrder.{IsPostOrder};
ghost use Rattle.kf_tree.specs.Causes.{doom_cause};
ghost use Rattle.kf_tree.specs.Paths.{found, walked};
ghost use Rattle.kf_tree.specs.TreeLogs.{IsAccepted};
ghost use Rattle.kf_words.specs.declared.note.Note.TheVariants.{Did};
ghost use Rattle.kf_shared.specs.Locked.{Adds, IsWhole, Unchanged, history};
ghost use Rattle.kf_shared.specs.Sections.{Last, SawItsRemoval};
ghost use Rattle.kf_shared.specs.Removal.{keys_of};
ghost use Rattle.kf_shared.specs.Receipts.{AreOf, IsRemovalOf, KeyRefused, NamedRefused};

use crate::editor::Editor;
use crate::naming::Naming;
use crate::removing::Removing;
use kf_core::{Key, Refusal};
use kf_words::Parted;
use std::sync::Wait;

impl<N: Naming> Editor<'_, N> {
    /// Begins the removal of the node with this key, as `begin_removal` does for the node of a hold. The
    /// function itself takes a hold of the node, which is the last of the removal's holds.
    ///
    /// Refusals, in order: NoEntry (not linked), Invalid (the root), TooManyHolds or NoMemory, whichever is
    /// met first. After a refusal nothing is marked.
    pub fn begin_removal_of(&mut self, key: Key) -> Result<Removing<N>, Refusal>
        ensures ordered { IfOk result (λ removing. IsPostOrder self.old.state.tree key (keys_of removing)) }
        ensures done { OnOk result (IsAccepted self.old.state self.new.state
            (doom_cause self.old.state.tree self.old.state.root key) (Doom key)) }
        ensures noted { OnOk result (Adds self.old self.new (Did (Doom key))) }
        ensures last { IfOk result (λ removing. Last (λ hold. hold.key ≡ key) removing) }
        ensures whole { IsWhole N.table self.new }
        ensures refused { IfErr result (λ refusal. KeyRefused self.old.state key refusal) }
        ensures same { OnErr result (Unchanged self.old self.new) }
        ensures claims { self.new.claims ≡ self.old.claims }
    {
        self.state().may_doom(key)?;
        let hold = self.hold(key)?;
        match self.begin_removal(hold) {
            Ok(removing) => Ok(removing),
            Err((hold, refusal)) => {
                hold.release();
                Err(refusal)
            }
        }
    }

    /// Removes the node of a key and all that is below it, as `remove` does. The receipts are in post-order,
    /// with the node's own receipt last. This last receipt has seen that the doom, and the unlinks of the
    /// first of the nodes in their order, are all that came before the lock was released.
    ///
    /// Refusals: those of `begin_removal_of`. After a refusal nothing is marked, and the tree is unlocked.
    ///
    /// Context: as for `remove`.
    pub fn remove_key<R: Wait>(self, rt: &R, key: Key) -> Result<Vec<Parted>, Refusal>
        ensures alone { IfOk result (λ receipts. Last (SawItsRemoval (history self.entry) key
            (keys_of receipts.items)) receipts.items) }
        ensures tables { IfOk result (λ receipts. AreOf N.table receipts.items) }
        ensures listed { IfOk result (λ receipts. IsRemovalOf self.entry.state key (keys_of receipts.items)) }
        ensures refused { IfErr result (λ refusal. KeyRefused self.entry.state key refusal) }
    {
        let mut editor = self;
        let removing = editor.begin_removal_of(key)?;
        let draining = editor.end_removal(removing);
        Ok(draining.finish(rt))
    }

    /// Removes the node that has this name in a directory, whether it is live or not.
    ///
    /// Refusals, in order: NoEntry (the directory is not linked), NotDir, NoEntry (no such child), then those
    /// of `begin_removal_of`. After a refusal nothing is marked, and the tree is unlocked.
    ///
    /// Context: as for `remove_key`.
    pub fn remove_name<R: Wait>(self, rt: &R, dir: Key, name: &[u8]) -> Result<Vec<Parted>, Refusal>
        ensures tables { IfOk result (λ receipts. AreOf N.table receipts.items) }
        ensures listed { IfOk result (λ receipts. (key : Key)
            × (found self.entry.state.tree dir name.now ≡ Ok key)
            × IsRemovalOf self.entry.state key (keys_of receipts.items)) }
        ensures refused { IfErr result (λ refusal.
            NamedRefused self.entry.state (found self.entry.state.tree dir name.now) refusal) }
    {
        let key = self.state().find(dir, name)?;
        self.remove_key(rt, key)
    }

    /// Removes the node that a path names, whether it is live or not. Links are not followed.
    ///
    /// Refusals, in order: those of [`kf_tree::State::walk`], then those of `begin_removal_of`. After a
    /// refusal nothing is marked, and the tree is unlocked.
    ///
    /// Context: as for `remove_key`.
    pub fn remove_path<R: Wait>(self, rt: &R, path: &[u8]) -> Result<Vec<Parted>, Refusal>
        ensures tables { IfOk result (λ receipts. AreOf N.table receipts.items) }
        ensures listed { IfOk result (λ receipts. (key : Key)
            × (walked self.entry.state.tree self.entry.state.root path.now ≡ Ok key)
            × IsRemovalOf self.entry.state key (keys_of receipts.items)) }
        ensures refused { IfErr result (λ refusal. NamedRefused self.entry.state
            (walked self.entry.state.tree self.entry.state.root path.now) refusal) }
    {
        let key = self.state().walk(path)?;
        self.remove_key(rt, key)
    }
}
