//! The requests that only look. Each takes the tree's lock once, for reading.

ghost use Rattle.std.specs.Prelude.{OnOk};
ghost use Rattle.kf_workers.specs.Replies.{AreNames, IsLinkReply};

use super::WorkerBoard;
use crate::script_ops::ScriptOps;
use kf_core::{MOST_SLOTS, Refusal};
use kf_replies::tell_names;
use kf_script::Reply;
use kf_shared::Naming;
use kf_tree::Stat;
use std::sync::Wait;

/// The greatest number of names in a listing: one for each slot.
const MOST_NAMES: usize = MOST_SLOTS as usize;

impl<W: ScriptOps, N: Naming, R: Wait> WorkerBoard<'_, W, N, R> {
    /// What `stat` reports of the node at a path, whether it is live or not.
    pub(super) fn stat(&self, path: &[u8]) -> Result<Stat, Refusal> {
        let reader = self.common.tree.read(self.rt);
        let key = reader.state().walk(path)?;
        reader.state().stat(key)
    }

    /// Writes the names in a live directory. They are copied once, into the memory of the reply, which only
    /// this board uses. So while the lock is held, nothing is written to a stream, and the thread waits for
    /// nobody.
    pub(super) fn list(&self, path: &[u8], reply: &mut Reply) -> Result<(), Refusal>
        ensures { OnOk result (AreNames reply.new) }
    {
        let reader = self.common.tree.read(self.rt);
        let dir = reader.state().lookup(path)?;
        let names = reader.state().names(dir, None, MOST_NAMES)?;
        tell_names(reply, names)
    }

    /// Writes the text of a live link.
    pub(super) fn read_link(&self, path: &[u8], reply: &mut Reply) -> Result<(), Refusal>
        ensures { OnOk result (IsLinkReply reply.new) }
    {
        let reader = self.common.tree.read(self.rt);
        let link = reader.state().lookup(path)?;
        let text = reader.state().target_text(link)?;
        reply.set_text(text.as_slice())
    }

    /// How many commands the tree stores.
    pub(super) fn count_commands(&self) -> usize {
        self.common.tree.read(self.rt).state().commands().len()
    }
}
