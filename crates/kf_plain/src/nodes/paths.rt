//! The tree commands by paths.

ghost use Rattle.std.specs.Prelude.{◌≡◌, ◌++◌, [], ◌∷◌, List, map, IsTrue, Ok, Err, IfOk, IfErr, MatchResult, true};
ghost use Rattle.kf_core.specs.declared.key.Key.{Key};
ghost use Rattle.kf_core.specs.declared.key.Node.TheVariants.{Link};
ghost use Rattle.kf_core.specs.declared.command.Command.TheVariants.{Activate, Doom, Unlink};
ghost use Rattle.kf_core.specs.declared.caller.Phase.{Phase};
ghost use Rattle.kf_core.specs.Phases.{is_waiting};
ghost use Rattle.kf_core.specs.PostOrder.{IsPostOrder};
ghost use Rattle.kf_tree.specs.Paths.{seen};
ghost use Rattle.kf_plain.specs.PlainRemove.{remove_held, removed_key};
ghost use Rattle.kf_plain.specs.PlainFiles.{opened_node};
ghost use Rattle.kf_plain.specs.PlainInside.{IsOpened};
ghost use Rattle.kf_world.specs.Bounded.{hold_count};
ghost use Rattle.kf_plain.specs.Nodes.{AllIdle, IsFreeKeyOf, logged, with_spent};
ghost use Rattle.kf_plain.specs.PlainTree.{Spot, activated_key, moved_key, new_link_spot, new_spot, moved_nodes, with_born};
ghost use Rattle.kf_plain.specs.Settled.{IsWhy, IsWhyFrom, Leads};

use super::{BoardFile, Nodes};
use kf_core::{Key, Node, Refusal};
use kf_pages::Want;

impl Nodes {
    /// Links a new node at a path, under the next key.
    pub fn create_at(
        &mut self,
        path: &[u8],
        node: Node,
        is_live: bool,
        next: Option<Key>,
    ) -> Result<Key, Refusal>
        requires next { IsFreeKeyOf self.old.log.tree self.old.last (hold_count self.old.callers) next }
        ensures given { IfOk result (λ key. next ≡ Some key) }
        ensures made { IfOk result
            (λ key. (spot : Spot) × (new_spot self.old.log path.now node next ≡ Ok spot)
            × (self.new ≡ with_born self.old key spot node is_live)) }
        ensures refused { IfErr result
            (λ refusal. IsWhy (new_spot self.old.log path.now node next) refusal × (self.new ≡ self.old)) }
    {
        let (dir, name) = self.state().walk_parent(path)?;
        self.create(dir, name, node, is_live, next)
    }

    /// Whether a new node can be linked at a path under the next key, lack of memory aside. This allocates
    /// nothing.
    pub fn may_create_at(&self, path: &[u8], node: Node, next: Option<Key>) -> Result<(), Refusal>
        ensures checked { MatchResult result (λ _. Leads (new_spot self.now.log path.now node next))
            (λ refusal. new_spot self.now.log path.now node next ≡ Err refusal) }
    {
        let (dir, name) = self.state().walk_parent(path)?;
        self.state().may_create(dir, name, node, next)
    }

    /// Makes a live link at a path to the node at another path, under the next key.
    pub fn link_at(&mut self, path: &[u8], target: &[u8], next: Option<Key>) -> Result<Key, Refusal>
        requires next { IsFreeKeyOf self.old.log.tree self.old.last (hold_count self.old.callers) next }
        ensures given { IfOk result (λ key. next ≡ Some key) }
        ensures made { IfOk result
            (λ key. (link : Key × Spot) × (new_link_spot self.old.log path.now target.now next ≡ Ok link)
            × (self.new ≡ with_born self.old key link.1 (Link link.0) true)) }
        ensures refused { IfErr result
            (λ refusal. IsWhy (new_link_spot self.old.log path.now target.now next) refusal
            × (self.new ≡ self.old)) }
    {
        let (dir, name) = self.state().walk_parent(path)?;
        let target = self.state().walk(target)?;
        self.create(dir, name, Node::Link { target }, true, next)
    }

    /// Activates the subtree at a path.
    pub fn activate_at(&mut self, path: &[u8]) -> Result<(), Refusal>
        ensures activated { IfOk result
            (λ _. (key : Key) × (activated_key self.old.log path.now ≡ Ok key)
            × (self.new ≡ record self.old { log = logged self.old.log (Activate key ∷ []) })) }
        ensures refused { IfErr result
            (λ refusal. IsWhy (activated_key self.old.log path.now) refusal × (self.new ≡ self.old)) }
    {
        let key = self.state().walk(path)?;
        self.activate(key)
    }

    /// Moves the node at a path into the directory at another path, under a name.
    pub fn move_at(&mut self, path: &[u8], dir: &[u8], name: &[u8]) -> Result<(), Refusal>
        ensures moved { IfOk result
            (λ _. (keys : Key × Key) × (moved_key self.old.log path.now dir.now name.now ≡ Ok keys)
            × (self.new ≡ moved_nodes self.old keys.0 keys.1 name.now)) }
        ensures refused { IfErr result
            (λ refusal. IsWhy (moved_key self.old.log path.now dir.now name.now) refusal
            × (self.new ≡ self.old)) }
    {
        let key = self.state().walk(path)?;
        let into = self.state().walk(dir)?;
        self.rename(key, into, name)
    }

    /// Removes the subtree at a path.
    pub fn remove_at(&mut self, path: &[u8]) -> Result<(), Refusal>
        requires idle { AllIdle self.old.callers }
        ensures removed { IfOk result
            (λ _. (key : Key) × (removed_key self.old.log
            (hold_count self.old.callers) self.old.limit path.now ≡ Ok key)
            × ((keys : List Key) × IsPostOrder self.old.log.tree key keys
            × (self.new ≡ with_spent
            (record self.old { log = logged self.old.log (Doom key ∷ map Unlink keys) }) keys))) }
        ensures refused { IfErr result (λ refusal.
            IsWhyFrom (remove_held self.old.log path.now)
            (removed_key self.old.log (hold_count self.old.callers) self.old.limit path.now) refusal
            × ((spent : List Key) × (self.new ≡ with_spent self.old spent))) }
    {
        let key = self.state().walk(path)?;
        self.remove(key)
    }

    /// Opens the live file at a path.
    pub fn open_at(&mut self, path: &[u8], want: Want) -> Result<BoardFile, Refusal>
        ensures opened { IfOk result (λ f. IsOpened self.old path.now want f) }
        ensures held { IfOk result
            (λ f. (phase : Phase) × IsTrue (is_waiting phase)
            × (self.new ≡ record self.old {
              callers = self.old.callers
                  ++ record { key = f.key; phase = phase } ∷ [];
            })) }
        ensures refused { IfErr result (λ refusal.
            IsWhyFrom (seen self.old.log.tree self.old.log.root path.now)
            (opened_node self.old.log (hold_count self.old.callers) self.old.limit path.now want) refusal
            × ((spent : List Key) × (self.new ≡ with_spent self.old spent))) }
    {
        let key = self.state().lookup(path)?;
        let node = self.state().stat(key)?.node;
        self.open(key, node, want)
    }
}
