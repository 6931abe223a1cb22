//! The requests that hide a file and that show it again.

ghost use Rattle.std.specs.Prelude.{◌≡◌, IfSome};

use super::WorkerBoard;
use crate::hidden_file::HiddenFile;
use crate::script_ops::ScriptOps;
use kf_core::{Key, Refusal};
use kf_shared::{Editor, Naming};
use std::sync::Wait;

/// Shows the file of a token again, and releases its hold.
fn show_token<N: Naming>(editor: &mut Editor<'_, N>, token: HiddenFile<N>) {
    editor.show(token.into_hidden()).release();
}

impl<W: ScriptOps, N: Naming, R: Wait> WorkerBoard<'_, W, N, R> {
    /// Shows the file of a token again, and releases its hold. It takes the tree's lock once.
    pub(super) fn spend(&self, token: HiddenFile<N>) {
        let mut editor = self.common.tree.edit(self.rt);
        show_token(&mut editor, token);
    }

    /// Keeps a token at the place of its slot. While it is kept, the slot is not used again, so the slot has
    /// no other token. If there were another token at this place, its file would be shown again. If there
    /// were no such place, the file of the new token would be.
    fn keep(&mut self, token: HiddenFile<N>) {
        let slot = token.key().slot as usize;
        while self.tokens.len() <= slot && self.tokens.len() < self.tokens.capacity() {
            self.tokens.push_reserved(None);
        }
        let other = match self.tokens.get_mut(slot) {
            Some(place) => place.replace(token),
            None => Some(token),
        };
        if let Some(other) = other {
            self.spend(other);
        }
    }

    /// Hides the file at a path, waits for its callbacks, and keeps its token. The file is found, held and
    /// hidden in one critical section of the tree.
    pub(super) fn hide(&mut self, path: &[u8]) -> Result<(), Refusal> {
        let mut editor = self.common.tree.edit(self.rt);
        let key = editor.state().walk(path)?;
        let hold = editor.hold(key)?;
        match editor.hide_and_wait(self.rt, hold) {
            Ok(hidden) => {
                self.keep(HiddenFile::new(hidden));
                Ok(())
            }
            Err((hold, refusal)) => {
                hold.release();
                Err(refusal)
            }
        }
    }

    /// Takes out this board's token of a node, if it has one.
    fn take_token(tokens: &mut Vec<Option<HiddenFile<N>>>, key: Key) -> Option<HiddenFile<N>>
        ensures own { IfSome result (λ token. token.key ≡ key) }
    {
        let place = tokens.get_mut(key.slot as usize)?;
        match place {
            Some(token) if token.key() == key => place.take(),
            _ => None,
        }
    }

    /// Shows the file at a path again if this board has its token, and spends the token. It takes the tree's
    /// lock once.
    pub(super) fn show(&mut self, path: &[u8]) -> Result<(), Refusal> {
        let mut editor = self.common.tree.edit(self.rt);
        let key = editor.state().walk(path)?;
        let Some(token) = Self::take_token(&mut self.tokens, key) else {
            return Err(Refusal::Invalid);
        };
        show_token(&mut editor, token);
        Ok(())
    }
}
