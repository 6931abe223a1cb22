//! The steps of nodes: births, activations, dooms and unlinks.

ghost use Rattle.std.specs.Prelude.{List, ℕ, ◌≡◌, ◌<◌, length};
ghost use Rattle.kf_core.specs.declared.key.Key.{Key};
ghost use Rattle.kf_core.specs.declared.key.Node.{Node};
ghost use Rattle.kf_core.specs.declared.event.Event.{Event};
ghost use Rattle.kf_core.specs.declared.event.Event.TheVariants.{Born, Rise, Mark, Unlink};
ghost use Rattle.kf_core.specs.Steps.{with_marks, BareStep, MayBeBorn};
ghost use Rattle.kf_world.specs.Bounded.{Happens, IsFree, May, bounded};

use super::{World, marks_at};
use kf_core::{Key, NodeFlags, SlotState};

impl World {
    /// Gives the slot of the key the key's generation and these marks.
    fn put_marks(&mut self, key: Key, marks: Option<NodeFlags>)
        requires within { key.slot < length self.old.world.slots }
        requires step { (event : Event)
            × BareStep self.old.world event (with_marks self.old.world key marks) }
        requires taken { ¬ IsFree (with_marks self.old.world key marks) key.slot }
        ensures { self.new ≡ bounded (with_marks self.old.world key marks) self.old.limit }
    {
        let state = SlotState {
            generation: key.generation,
            marks,
        };
        self.slots.set(key.slot as usize, state);
    }

    /// Links a new node, which is neither activated nor doomed.
    ///
    /// Condition: the slot has no linked node and only spent callers, and the key has its next generation.
    pub fn born(&mut self, key: Key)
        requires may { MayBeBorn self.old.world key }
        ensures step { (parent : Key) (name : List ℕ) (node : Node) →
            Happens self.old (Born key parent name node) self.new }
    {
        self.put_marks(
            key,
            Some(NodeFlags {
                activated: false,
                doomed: false,
            }),
        );
        self.pass_over(key.slot);
    }

    /// Activates a node (`kernfs_activate`). It is then live, unless a caller hides it.
    ///
    /// Condition: the node is linked, and neither activated nor doomed.
    pub fn activate(&mut self, key: Key)
        requires may { May self.old (Rise key) }
        ensures step { Happens self.old (Rise key) self.new }
    {
        self.put_marks(
            key,
            Some(NodeFlags {
                activated: true,
                doomed: false,
            }),
        );
    }

    /// Dooms a node: from now on each try for a reference is refused.
    ///
    /// Condition: the node is linked, and not doomed.
    pub fn doom(&mut self, key: Key)
        requires may { May self.old (Mark key) }
        ensures step { Happens self.old (Mark key) self.new }
    {
        if let Some(marks) = marks_at(&self.slots, key) {
            self.put_marks(
                key,
                Some(NodeFlags {
                    activated: marks.activated,
                    doomed: true,
                }),
            );
        }
    }

    /// Takes the node of a caller out of its slot. The caller still holds the slot.
    ///
    /// Condition: the caller is Drained, and its node is linked.
    pub fn unlink(&mut self, id: usize)
        requires may { May self.old (Unlink id) }
        ensures step { Happens self.old (Unlink id) self.new }
    {
        let key = self.callers[id].key;
        self.put_marks(key, None);
    }
}
