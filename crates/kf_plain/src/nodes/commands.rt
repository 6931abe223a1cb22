//! The tree commands, each with the events of the callers' world that go with it.

ghost use Rattle.std.specs.Prelude.{◌≡◌, List, [], ◌∷◌, slice_set, IfOk, IfErr, None, Some, if◌then◌else◌};
ghost use Rattle.kf_core.specs.declared.command.Command.{Command};
ghost use Rattle.kf_core.specs.declared.command.Command.TheVariants.{Create, Rename};
ghost use Rattle.kf_core.specs.declared.refusal.Refusal.TheVariants.{NoMemory};
ghost use Rattle.kf_tree.specs.Canonical.{IsCanonical};
ghost use Rattle.kf_tree.specs.Causes.{Refuses, create_cause, rename_cause};
ghost use Rattle.kf_table.specs.Children.{is_there_already};
ghost use Rattle.kf_world.specs.Bounded.{hold_count};
ghost use Rattle.kf_plain.specs.Nodes.{IsFreeKeyOf, listed, logged};

use super::Nodes;
use kf_core::{Key, Node, Refusal};

impl Nodes {
    /// Links a new node in a directory, under the next key, and activates it if it is to be live.
    /// Refused as `State::create` is; after a refusal nothing is changed.
    pub fn create(
        &mut self,
        parent: Key,
        name: &[u8],
        node: Node,
        is_live: bool,
        next: Option<Key>,
    ) -> Result<Key, Refusal>
        requires next { IsFreeKeyOf self.old.log.tree self.old.last (hold_count self.old.callers) next }
        ensures given { IfOk result (λ key. next ≡ Some key) }
        ensures no_cause { IfOk result
            (λ _. create_cause self.old.log.tree self.old.log.root parent name.now node next ≡ None) }
        ensures made { IfOk result (λ key. self.new ≡ record self.old {
          log = logged self.old.log (Create key parent name.now node is_live ∷ []);
          last = slice_set self.old.last key.slot key.generation;
        }) }
        ensures refused { IfErr result
            (λ refusal. Refuses (create_cause self.old.log.tree self.old.log.root parent name.now node next)
            refusal × (self.new ≡ self.old)) }
    {
        let key = self.state.create(parent, name, node, is_live, next)?;
        self.world.born(key);
        if is_live {
            self.world.activate(key);
        }
        Ok(key)
    }

    /// Moves a node into a directory, under a name.
    /// Refused as `State::rename` is; after a refusal nothing is changed.
    pub fn rename(&mut self, key: Key, dir: Key, name: &[u8]) -> Result<(), Refusal>
        ensures no_cause { IfOk result
            (λ _. rename_cause self.old.log.tree self.old.log.root key dir name.now ≡ None) }
        ensures moved { IfOk result
            (λ _. self.new ≡ if is_there_already self.old.log.tree key dir name.now then self.old
            else record self.old { log = logged self.old.log (Rename key dir name.now ∷ []) }) }
        ensures refused { IfErr result
            (λ refusal. Refuses (rename_cause self.old.log.tree self.old.log.root key dir name.now) refusal
            × (self.new ≡ self.old)) }
    {
        self.state.rename(key, dir, name)
    }

    /// Replaces the stored commands with the canonical list of this tree, as `State::compact` does.
    /// The only refusal is `NoMemory`; after it nothing is changed.
    pub fn compact(&mut self) -> Result<(), Refusal>
        ensures compacted { IfOk result
            (λ _. (commands : List Command) × IsCanonical self.old.log.tree commands
            × (self.new ≡ record self.old { log = listed self.old.log commands })) }
        ensures refused { IfErr result (λ refusal. (refusal ≡ NoMemory) × (self.new ≡ self.old)) }
    {
        self.state.compact()
    }
}
