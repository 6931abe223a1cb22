//! The request that removes a subtree.

ghost use Rattle.std.specs.Prelude.{◌≡◌, List, Ok, IfOk, IfErr};
ghost use Rattle.kf_core.specs.declared.key.Key.{Key};
ghost use Rattle.kf_core.specs.PostOrder.{IsPostOrder};
ghost use Rattle.kf_plain.specs.Plain.{holder_count};
ghost use Rattle.kf_plain.specs.PlainRemove.{remove_held, removed_key, without};
ghost use Rattle.kf_plain.specs.Settled.{IsRefusedFrom};

use super::PlainBoard;
use kf_core::Refusal;

impl PlainBoard {
    /// Removes the subtree at a path. Files that are open on its nodes stay open.
    pub(super) fn remove(&mut self, path: &[u8]) -> Result<(), Refusal>
        ensures removed { IfOk result
            (λ _. (key : Key) × (removed_key self.old.log (holder_count self.old) self.old.limit path.now
            ≡ Ok key)
            × ((keys : List Key) × IsPostOrder self.old.log.tree key keys
            × (self.new ≡ without self.old key keys))) }
        ensures refused { IfErr result (λ refusal.
            IsRefusedFrom (remove_held self.old.log path.now)
            (removed_key self.old.log
            (holder_count self.old) self.old.limit path.now) self.old refusal self.new) }
    {
        self.nodes.remove_at(path)
    }
}
