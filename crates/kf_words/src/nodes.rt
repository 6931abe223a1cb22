//! What the Master does with nodes: it makes, activates, dooms and unlinks them.
ghost use Rattle.std.specs.Prelude.{◌≡◌, true, false, Some, None, is_some, slice_set, IfSome, if◌then◌else◌};
ghost use Rattle.std.specs.Option.{option_map};
ghost use Rattle.kf_core.specs.declared.slot.NodeFlags.{NodeFlags};
ghost use Rattle.kf_core.specs.Marks.{fresh_marks, live_marks, are_doomed};
ghost use Rattle.kf_words.specs.Steps.{with_birth, after_store, with_marks, activated_marks, doomed_marks};
ghost use Rattle.kf_words.specs.TableSteps.{takes_bias, marks_node};
ghost use Rattle.kf_words.specs.Made.{WasMadeByMaster, WasBorn, WasUnlinked};
ghost use Rattle.kf_words.specs.Notes.{history_of};
ghost use Rattle.kf_words.specs.Nodes.{KeepsNodes, MayBear, Searched, UnlinkAnswer, marks_of, sight_in, slots_with};

use crate::blocks::{BLOCK, block_of, group_of};
use crate::layout::is_drained;
use crate::master::Master;
use crate::receipt::Drained;
use kf_core::{Key, Node, NodeFlags, SlotState, without_bit};

impl Master {
    /// Finds a key for the next birth: the lowest slot from 1 up that is found free, with its next
    /// generation. Returns None if no slot was found free. For each slot without a linked node, up to the one
    /// that it found, it makes one word step.
    pub fn free_key(&mut self) -> Option<Key>
        ensures kept { KeepsNodes self.old self.new }
        ensures searched { Searched self.old.view (option_map (λ key. key.slot) result) self.new.view }
        ensures may_bear { IfSome result (λ key. MayBear self.new.view key) }
    {
        let slot = self.steps.find_free(
            &self.slots,
            self.full.as_mut_slice(),
            self.full_groups.as_mut_slice(),
        )?;
        Some(Key {
            slot,
            generation: self.slots.at(slot as usize).generation + 1,
        })
    }

    /// Makes a node in a slot that was found free (`kernfs_add_one`). The node is linked, not activated and
    /// not doomed.
    ///
    /// Condition: the last `free_key` returned this key, and there was no birth, pin or unlink since then.
    pub fn born(&mut self, key: Key, node: Node)
        requires { MayBear self.old.view key }
        ensures table { self.new.table ≡ self.old.table }
        ensures nodes { self.new.nodes ≡ slice_set self.old.nodes key.slot node }
        ensures view { self.new.view ≡ with_birth key.slot (after_store key.slot self.old.view) }
        ensures made { WasBorn key.slot node (sight_in self.old) (sight_in self.new) }
        ensures history { history_of self.new.seen ≡ history_of self.old.seen }
        ensures slots { self.new.view.slots ≡ slots_with self.old.view.slots key (Some fresh_marks) }
    {
        self.steps.store_fresh(key.slot);
        self.steps.note_node(key.slot, node);
        self.steps.birth(key.slot);
        self.nodes.set(key.slot as usize, node);
        let state = SlotState {
            generation: key.generation,
            marks: Some(NodeFlags {
                activated: false,
                doomed: false,
            }),
        };
        self.slots.set(key.slot as usize, state);
    }

    /// Activates a node (`kernfs_activate`): callers can take references to it as long as it is live.
    ///
    /// Condition: the node is linked, not activated and not doomed.
    pub fn activate(&mut self, key: Key)
        requires { marks_of self.old.view key ≡ Some fresh_marks }
        ensures table { self.new.table ≡ self.old.table }
        ensures nodes { self.new.nodes ≡ self.old.nodes }
        ensures view { self.new.view ≡ with_marks activated_marks key.slot self.old.view }
        ensures made { WasMadeByMaster (takes_bias key.slot) (sight_in self.old) (sight_in self.new) }
        ensures history { history_of self.new.seen ≡ history_of self.old.seen }
        ensures slots { self.new.view.slots ≡ slots_with self.old.view.slots key (Some live_marks) }
    {
        self.steps.take_bias(key.slot);
        let state = SlotState {
            generation: key.generation,
            marks: Some(NodeFlags {
                activated: true,
                doomed: false,
            }),
        };
        self.slots.set(key.slot as usize, state);
    }

    /// Marks a linked node as doomed: from now on each try for a reference fails (the first half of
    /// `__kernfs_remove`).
    ///
    /// Condition: the node is linked and not doomed.
    pub fn doom(&mut self, key: Key)
        requires { are_doomed (marks_of self.old.view key) ≡ false }
        ensures table { self.new.table ≡ self.old.table }
        ensures nodes { self.new.nodes ≡ self.old.nodes }
        ensures view { self.new.view ≡ with_marks doomed_marks key.slot self.old.view }
        ensures made { WasMadeByMaster (marks_node key.slot) (sight_in self.old) (sight_in self.new) }
        ensures history { history_of self.new.seen ≡ history_of self.old.seen }
        ensures slots { (x : NodeFlags) → marks_of self.old.view key ≡ Some x →
            self.new.view.slots ≡ slots_with self.old.view.slots key (Some (doomed_marks x)) }
    {
        if let Some(marks) = self.marks(key) {
            self.steps.mark_node(key.slot, marks);
            let state = SlotState {
                generation: key.generation,
                marks: Some(NodeFlags {
                    activated: marks.activated,
                    doomed: true,
                }),
            };
            self.slots.set(key.slot as usize, state);
        }
    }

    /// Takes a node out of the tree if its active word is found drained (`kernfs_unlink_sibling`). Otherwise
    /// it returns false: a refused try may be in flight there, or a caller that broke its protection may have
    /// a reference again.
    ///
    /// The receipt shows that the word was drained once, not that it still is. So the word is loaded again
    /// here. Between this load and the next step, nobody can run on the node: only an activation clears BIAS,
    /// and a doomed node is not activated.
    ///
    /// Condition: the receipt is of this table, and its node is linked.
    pub fn unlink(&mut self, drained: &Drained) -> bool
        requires table { drained.now.table ≡ self.old.table }
        requires linked { is_some (marks_of self.old.view drained.now.key) ≡ true }
        ensures table { self.new.table ≡ self.old.table }
        ensures nodes { self.new.nodes ≡ self.old.nodes }
        ensures answer { UnlinkAnswer self.old.view drained.now.key.slot result self.new.view }
        ensures made { WasUnlinked drained.now.key.slot result (sight_in self.old) (sight_in self.new) }
        ensures history { history_of self.new.seen ≡ history_of self.old.seen }
        ensures slots { self.new.view.slots
            ≡ (if result then slots_with self.old.view.slots drained.now.key None else self.old.view.slots) }
    {
        let key = drained.key();
        if !is_drained(self.steps.look_over(key.slot)) {
            return false;
        }
        self.steps.unlink(key.slot);
        let state = SlotState {
            generation: key.generation,
            marks: None,
        };
        self.slots.set(key.slot as usize, state);
        let block = block_of(key.slot);
        self.full[block] = without_bit(self.full[block], key.slot % BLOCK);
        self.full_groups[group_of(key.slot)] = false;
        true
    }
}
