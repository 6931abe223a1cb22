//! The requests that hide a file, and show it again.

ghost use Rattle.std.specs.Prelude.{◌≡◌, Ok, Err, IfOk, IfErr};
ghost use Rattle.kf_core.specs.declared.key.Key.{Key};
ghost use Rattle.kf_plain.specs.Plain.{holder_count};
ghost use Rattle.kf_plain.specs.PlainHide.{hide_held, hidden_key, with_hidden, shown_key, with_shown};
ghost use Rattle.kf_plain.specs.Settled.{IsRefusedFrom};

use super::PlainBoard;
use kf_core::Refusal;

impl PlainBoard {
    /// Hides the file at a path, and keeps its token.
    pub(super) fn hide(&mut self, path: &[u8]) -> Result<(), Refusal>
        ensures hidden { IfOk result (λ _. (key : Key)
            × (hidden_key self.old.log (holder_count self.old) self.old.limit path.now ≡ Ok key)
            × (self.new ≡ with_hidden self.old key)) }
        ensures refused { IfErr result (λ refusal.
            IsRefusedFrom (hide_held self.old.log path.now)
            (hidden_key self.old.log
            (holder_count self.old) self.old.limit path.now) self.old refusal self.new) }
    {
        match self.nodes.hide_at(path) {
            Ok(token) => {
                let slot = token.key.slot as usize;
                self.tokens.set(slot, Some(token));
                Ok(())
            }
            Err(refusal) => Err(refusal),
        }
    }

    /// Shows the file at a path again, if the board has its token, and spends the token.
    pub(super) fn show(&mut self, path: &[u8]) -> Result<(), Refusal>
        ensures shown { IfOk result (λ _. (key : Key)
            × (shown_key self.old path.now ≡ Ok key) × (self.new ≡ with_shown self.old key)) }
        ensures refused { IfErr result (λ refusal.
            (shown_key self.old path.now ≡ Err refusal) × (self.new ≡ self.old)) }
    {
        let key = self.nodes.state().walk(path)?;
        let _stat = self.nodes.state().stat(key)?; // the node is linked
        let slot = key.slot as usize;
        let Some(token) = self.tokens.at(slot) else {
            return Err(Refusal::Invalid);
        };
        if token.key != key {
            return Err(Refusal::Invalid);
        }
        self.nodes.show(token);
        self.tokens.set(slot, None);
        Ok(())
    }
}
