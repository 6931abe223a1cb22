//! Hiding a file, and showing it again.

ghost use Rattle.std.specs.Prelude.{◌≡◌, ◌⊎◌, ◌<◌, ◌≤◌, ◌++◌, ◌∷◌, [], List, length, slice_get, slice_set, IfOk, IfErr, None, Some, Ok, true};
ghost use Rattle.kf_core.specs.declared.key.Key.{Key};
ghost use Rattle.kf_core.specs.declared.command.Command.TheVariants.{Hide, Show};
ghost use Rattle.kf_core.specs.declared.refusal.Refusal.TheVariants.{NoMemory, TooManyHolds};
ghost use Rattle.kf_core.specs.Tree.{is_linked};
ghost use Rattle.kf_tree.specs.Causes.{hide_cause};
ghost use Rattle.kf_world.specs.Bounded.{hold_count};
ghost use Rattle.kf_plain.specs.Nodes.{AllIdle, NoneHides, hidden_on, logged, spent_on, with_spent};
ghost use Rattle.kf_plain.specs.PlainHide.{hide_held, hidden_key};
ghost use Rattle.kf_plain.specs.Settled.{IsWhyFrom};

use super::Nodes;
use kf_core::{Key, Refusal};

/// The token that can show a hidden file again: its key, and the number of the caller that hides it.
#[derive(Clone, Copy)]
pub struct BoardToken {
    pub key: Key,
    pub hold: usize,
}

impl Nodes {
    /// Hides a linked file with a new hold of it (`kernfs_show` with false). Since nobody has a reference, it
    /// is hidden at once. Returns the token, without which the file cannot be shown again.
    ///
    /// Refused with `TooManyHolds`, then with what `State::may_hide` refuses, and with `NoMemory`. After a
    /// refusal the hold is released.
    pub fn hide(&mut self, key: Key) -> Result<BoardToken, Refusal>
        requires linked { is_linked self.old.log.tree key ≡ true }
        requires idle { AllIdle self.old.callers }
        ensures token { IfOk result (λ token.
            token ≡ record { key = key; hold = length self.old.callers }) }
        ensures room { IfOk result (λ _. hold_count self.old.callers key.slot < self.old.limit) }
        ensures no_cause { IfOk result (λ _. hide_cause self.old.log.tree key ≡ None) }
        ensures first { IfOk result (λ _. NoneHides self.old.callers key.slot) }
        ensures hidden { IfOk result (λ _. self.new ≡ record self.old {
          log = logged self.old.log (Hide key ∷ []);
          callers = self.old.callers ++ hidden_on key ∷ [];
        }) }
        ensures refused { IfErr result (λ refusal.
            (((refusal ≡ TooManyHolds) × (self.old.limit ≤ hold_count self.old.callers key.slot))
            ⊎ ((hold_count self.old.callers key.slot < self.old.limit)
            × (hide_cause self.old.log.tree key ≡ Some refusal))
            ⊎ (refusal ≡ NoMemory))
            × ((spent : List Key) × (self.new ≡ with_spent self.old spent))) }
    {
        let _has_room = self.world.room(key); // its contract says what holds of every world
        let id = self.world.pin(key)?;
        if let Err(refusal) = self.state.may_hide(key) {
            self.world.release(id);
            return Err(refusal);
        }
        let _hiding = self.world.hide(id);
        let _hidden = self.world.look_hidden(id);
        self.state.hide(key);
        Ok(BoardToken { key, hold: id })
    }

    /// Hides the file at a path.
    pub fn hide_at(&mut self, path: &[u8]) -> Result<BoardToken, Refusal>
        requires idle { AllIdle self.old.callers }
        ensures leads { IfOk result (λ token.
            hidden_key self.old.log (hold_count self.old.callers) self.old.limit path.now ≡ Ok token.key) }
        ensures linked { IfOk result (λ token. is_linked self.old.log.tree token.key ≡ true) }
        ensures hold { IfOk result (λ token. token.hold ≡ length self.old.callers) }
        ensures first { IfOk result (λ token. NoneHides self.old.callers token.key.slot) }
        ensures hidden { IfOk result (λ token. self.new ≡ record self.old {
          log = logged self.old.log (Hide token.key ∷ []);
          callers = self.old.callers ++ hidden_on token.key ∷ [];
        }) }
        ensures refused { IfErr result (λ refusal.
            IsWhyFrom (hide_held self.old.log path.now)
            (hidden_key self.old.log (hold_count self.old.callers) self.old.limit path.now) refusal
            × ((spent : List Key) × (self.new ≡ with_spent self.old spent))) }
    {
        let key = self.state().walk(path)?;
        let _stat = self.state().stat(key)?; // the node is linked
        self.hide(key)
    }

    /// Shows the linked file of a token again (`kernfs_show` with true), and releases the token's hold.
    pub fn show(&mut self, token: BoardToken)
        requires hides { slice_get self.old.callers token.hold ≡ Some (hidden_on token.key) }
        requires linked { is_linked self.old.log.tree token.key ≡ true }
        ensures shown { self.new ≡ record self.old {
          log = logged self.old.log (Show token.key ∷ []);
          callers = slice_set self.old.callers token.hold (spent_on token.key);
        } }
    {
        let BoardToken { key, hold } = token;
        let _has_room = self.world.room(key); // its contract says what holds of every world
        self.world.show(hold);
        let _shown = self.state.show(key);
        self.world.release(hold);
    }
}
