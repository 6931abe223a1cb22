//! The request that removes a subtree.

use super::WorkerBoard;
use crate::script_ops::ScriptOps;
use kf_core::Refusal;
use kf_shared::{Naming, release_all};
use std::sync::Wait;

impl<W: ScriptOps, N: Naming, R: Wait> WorkerBoard<'_, W, N, R> {
    /// Removes the subtree at a path, and waits for all callbacks there. Files that are open on its nodes
    /// stay open. The node is found, held and doomed in one critical section of the tree.
    pub(super) fn remove(&self, path: &[u8]) -> Result<(), Refusal> {
        let editor = self.common.tree.edit(self.rt);
        release_all(editor.remove_path(self.rt, path)?);
        Ok(())
    }
}
