//! The requests that make, activate and move nodes.

ghost use Rattle.std.specs.Prelude.{◌≡◌, List, [], ◌∷◌, None, Some, Ok, IfOk, IfErr, Option, true};
ghost use Rattle.kf_core.specs.declared.key.Key.{Key};
ghost use Rattle.kf_core.specs.declared.key.Node.TheVariants.{Dir, Link};
ghost use Rattle.kf_core.specs.declared.command.Command.{Command};
ghost use Rattle.kf_core.specs.declared.command.Command.TheVariants.{Activate};
ghost use Rattle.kf_core.specs.declared.refusal.Refusal.TheVariants.{NoMemory};
ghost use Rattle.kf_tree.specs.Canonical.{IsCanonical};
ghost use Rattle.kf_plain.specs.Plain.{IsFreeKey, with_commands, with_list, with_text};
ghost use Rattle.kf_plain.specs.PlainTree.{Spot, new_spot, new_link_spot, file_node, with_node, activated_key, moved_key, with_move};
ghost use Rattle.kf_plain.specs.Settled.{IsRefusedBy, IsWhy};

use super::PlainBoard;
use kf_core::{Key, Node, Refusal};

impl PlainBoard {
    /// Makes a directory at a path, and activates it if it is to be live.
    pub(super) fn make_directory(&mut self, path: &[u8], is_live: bool) -> Result<Key, Refusal>
        ensures made { IfOk result (λ key. IsFreeKey self.old (Some key)
            × ((spot : Spot) × (new_spot self.old.log path.now Dir (Some key) ≡ Ok spot)
            × (self.new ≡ with_node self.old key spot Dir is_live))) }
        ensures refused { IfErr result
            (λ refusal. (next : Option Key) × IsFreeKey self.old next
            × IsRefusedBy (new_spot self.old.log path.now Dir next) self.old refusal self.new) }
    {
        let next = self.nodes.next_key();
        self.nodes.create_at(path, Node::Dir, is_live, next)
    }

    /// Makes a live file of this mode and text at a path.
    pub(super) fn make_file(&mut self, path: &[u8], mode: u16, text: &[u8]) -> Result<Key, Refusal>
        ensures made { IfOk result (λ key. IsFreeKey self.old (Some key)
            × ((spot : Spot) × (new_spot self.old.log path.now (file_node mode (Some key)) (Some key)
            ≡ Ok spot)
            × (self.new ≡ with_text
            (with_node self.old key spot (file_node mode (Some key)) true) key.slot text.now))) }
        ensures refused { IfErr result
            (λ refusal. (next : Option Key) × IsFreeKey self.old next × IsRefusedBy
            (new_spot self.old.log path.now (file_node mode next) next) self.old refusal self.new) }
    {
        let next = self.nodes.next_key();
        let copy = self.copy_text(path, file_node(mode, next), next, text)?;
        let key = self
            .nodes
            .create_at(path, file_node(mode, next), true, next)?;
        self.texts.put(key.slot, copy);
        Ok(key)
    }

    /// A copy of a new file's text, made before anything is changed. If there is no memory for it, any other
    /// cause against the file comes first.
    fn copy_text(
        &self,
        path: &[u8],
        node: Node,
        next: Option<Key>,
        text: &[u8],
    ) -> Result<Vec<u8>, Refusal>
        ensures same { IfOk result (λ copy. copy.items ≡ text.now) }
        ensures refused { IfErr result (λ refusal. IsWhy (new_spot self.now.log path.now node next) refusal) }
    {
        match self.texts.copy(text) {
            Ok(copy) => Ok(copy),
            Err(refusal) => {
                self.nodes.may_create_at(path, node, next)?;
                Err(refusal)
            }
        }
    }

    /// Makes a live link at a path to the node at another path.
    pub(super) fn make_link(&mut self, path: &[u8], target: &[u8]) -> Result<Key, Refusal>
        ensures made { IfOk result (λ key. IsFreeKey self.old (Some key)
            × ((link : Key × Spot) × (new_link_spot self.old.log path.now target.now (Some key) ≡ Ok link)
            × (self.new ≡ with_node self.old key link.1 (Link link.0) true))) }
        ensures refused { IfErr result
            (λ refusal. (next : Option Key) × IsFreeKey self.old next
            × IsRefusedBy (new_link_spot self.old.log path.now target.now next) self.old refusal self.new) }
    {
        let next = self.nodes.next_key();
        self.nodes.link_at(path, target, next)
    }

    /// Activates the subtree at a path.
    pub(super) fn activate(&mut self, path: &[u8]) -> Result<(), Refusal>
        ensures activated { IfOk result
            (λ _. (key : Key) × (activated_key self.old.log path.now ≡ Ok key)
            × (self.new ≡ with_commands self.old (Activate key ∷ []))) }
        ensures refused { IfErr result
            (λ refusal. IsRefusedBy (activated_key self.old.log path.now) self.old refusal self.new) }
    {
        self.nodes.activate_at(path)
    }

    /// Moves the node at a path into the directory at another path, under a name.
    pub(super) fn move_node(&mut self, path: &[u8], dir: &[u8], name: &[u8]) -> Result<(), Refusal>
        ensures moved { IfOk result
            (λ _. (keys : Key × Key) × (moved_key self.old.log path.now dir.now name.now ≡ Ok keys)
            × (self.new ≡ with_move self.old keys.0 keys.1 name.now)) }
        ensures refused { IfErr result
            (λ refusal. IsRefusedBy
            (moved_key self.old.log path.now dir.now name.now) self.old refusal self.new) }
    {
        self.nodes.move_at(path, dir, name)
    }

    /// Replaces the stored commands with the canonical list of the tree.
    pub(super) fn compact(&mut self) -> Result<(), Refusal>
        ensures compacted { IfOk result
            (λ _. (commands : List Command) × IsCanonical self.old.log.tree commands
            × (self.new ≡ with_list self.old commands)) }
        ensures refused { IfErr result (λ refusal. (refusal ≡ NoMemory) × (self.new ≡ self.old)) }
    {
        self.nodes.compact()
    }
}

/// The node of a new file under the next key: its tag is the number of its slot.
fn file_node(mode: u16, next: Option<Key>) -> Node
    ensures node { result ≡ file_node mode next }
{
    let tag = match next {
        Some(key) => u64::from(key.slot),
        None => 0,
    };
    Node::File { mode, tag }
}
