//! The requests that only look.

ghost use Rattle.std.specs.Prelude.{◌≡◌, ℕ, List, length, None, IfOk, IfErr};
ghost use Rattle.kf_tree.specs.Links.{HasLinkText};
ghost use Rattle.kf_tree.specs.Listing.{IsListing};
ghost use Rattle.kf_core.specs.declared.key.Key.{Key};
ghost use Rattle.kf_plain.specs.PlainLooks.{told_stat, listed_dir, read_link_key, name_limit};
ghost use Rattle.kf_script.specs.ReplyText.{names_text};
ghost use Rattle.kf_plain.specs.Settled.{IsWhy};

use super::PlainBoard;
use kf_core::{MOST_SLOTS, Refusal};
use kf_replies::tell_names;
use kf_script::Reply;
use kf_tree::Stat;

impl PlainBoard {
    /// What is reported of the node at a path, live or not.
    pub(super) fn stat(&self, path: &[u8]) -> Result<Stat, Refusal>
        ensures told { result ≡ told_stat self.now path.now }
    {
        let state = self.nodes.state();
        let key = state.walk(path)?;
        state.stat(key)
    }

    /// Writes the names of a live directory's live children.
    pub(super) fn list(&self, path: &[u8], reply: &mut Reply) -> Result<(), Refusal>
        ensures listed { IfOk result (λ _. (dir : Key) × (listed_dir self.now path.now ≡ Ok dir)
            × ((names : List (List ℕ)) × IsListing self.now.log.tree dir None name_limit names
            × (reply.new ≡ names_text names))) }
        ensures refused { IfErr result (λ refusal. IsWhy (listed_dir self.now path.now) refusal) }
    {
        let state = self.nodes.state();
        let dir = state.lookup(path)?;
        let names = state.names(dir, None, MOST_SLOTS as usize)?;
        tell_names(reply, names)
    }

    /// Writes the text of a live link.
    pub(super) fn read_link(&self, path: &[u8], reply: &mut Reply) -> Result<(), Refusal>
        ensures read { IfOk result
            (λ _. (link : Key) × (read_link_key self.now path.now ≡ Ok link)
            × HasLinkText self.now.log.tree self.now.log.root link reply.new) }
        ensures refused { IfErr result (λ refusal. IsWhy (read_link_key self.now path.now) refusal) }
    {
        let state = self.nodes.state();
        let link = state.lookup(path)?;
        let text = state.target_text(link)?;
        reply.set_text(text.as_slice())
    }

    /// How many commands are stored.
    pub(super) fn count_commands(&self) -> usize
        ensures count { result ≡ length self.now.log.commands }
    {
        self.nodes.state().commands().len()
    }
}
