//! The Master: the one seat that makes nodes and takes them out. Only its owner, such as the lock of a tree,
//! can carry out the tree's commands.
ghost use Rattle.std.specs.Prelude.{◌≡◌, ◌<◌, ◌≤◌, [], ◌∷◌, ◌++◌, true, false, length, is_some, IfOk, IfErr, OnOk};
ghost use Rattle.kf_core.specs.declared.refusal.Refusal.TheVariants as refusal_of;
ghost use Rattle.kf_words.specs.Nodes.{KeepsNodes, KeepsRooms, IsNewHold, IsLastKey, WasPinned, PinRefused, HeldPinRefused, RoomFound, FoundRoom, FoundFull, last_of, marks_of, sight_in};
ghost use Rattle.kf_words.specs.Notes.{history_of};
ghost use Rattle.kf_words.specs.Made.{WasCounted, WasMadeByMaster};
ghost use Rattle.kf_words.specs.TableSteps.{notes};

use crate::call::Call;
use crate::hold::Hold;
use crate::layout::has_room;
use crate::master_seat::MasterSeat;
use crate::note::Said;
use crate::seat::CallerSeat;
use kf_core::{Key, Node, NodeFlags, Refusal, SlotList, SlotState};
use std::marker::Model;
use std::sync::Arc;

/// The Master of a table of words, with the state of each slot and the node that was born there last. It
/// keeps both beside the words, so that it can read them without a word step. They use memory only up to the
/// highest slot that has had a node.
#[derive(Drop)]
pub struct Master {
    pub(crate) steps: MasterSeat,
    pub(crate) slots: SlotList<SlotState>,
    pub(crate) nodes: SlotList<Node>,
    pub(crate) holds: u32,
    /// For each block, a word with a bit for each of its slots. If the bit is set, it is known that the slot
    /// has a linked node, or is the root's, or is not in the table.
    pub(crate) full: Vec<u64>,
    /// For each group of blocks, whether all bits of its blocks are known to be set.
    pub(crate) full_groups: Vec<bool>,
}

impl Model for Master {
    ghost use Rattle.kf_words.specs.Nodes.{MasterState, master_view};
    ghost use Rattle.kf_words.specs.Searches.{IsMirrored};

    ghost Value = { MasterState };

    ghost view = { λ m. record {
      table = m.steps.token.table_id;
      view = master_view m.steps;
      nodes = m.nodes;
      seen = m.steps.token.me.0.seen;
    } };

    ghost invariant = { λ m. IsMirrored (master_view m.steps) m.slots m.nodes m.holds
        m.full.items m.full_groups.items };
}

impl Master {
    /// The marks of a node, or None if it is not linked. It makes no word step.
    pub fn marks(&self, key: Key) -> Option<NodeFlags>
        ensures { result ≡ marks_of self.now.view key }
    {
        match self.slots.get(key.slot as usize) {
            Some(state) if state.generation == key.generation => state.marks,
            _ => None,
        }
    }

    /// The last generation of a slot: that of the node there, or of the last node that was there. If the slot
    /// has had no node, it is the generation with which the table was made. Returns None if the table has no
    /// such slot. It makes no word step.
    pub fn last(&self, slot: u32) -> Option<u32>
        ensures { result ≡ last_of self.now.view slot }
    {
        match self.slots.get(slot as usize) {
            Some(state) => Some(state.generation),
            None => None,
        }
    }

    /// Checks, in one word step, whether the slot of a key has room for one more hold. If the table has no
    /// such slot, it returns false and makes no step.
    pub fn room(&mut self, key: Key) -> bool
        ensures kept { KeepsNodes self.old self.new }
        ensures found { key.slot < length self.old.view.slots →
            RoomFound self.old.view key.slot result self.new.view }
        ensures beyond { length self.old.view.slots ≤ key.slot → (result ≡ false)
            × (self.new.view ≡ self.old.view) }
        ensures room { result ≡ true → FoundRoom self.new.view key.slot }
        ensures full { result ≡ false → key.slot < length self.old.view.slots →
            FoundFull self.new.view key.slot }
        ensures rooms { KeepsRooms self.old.view self.new.view }
    {
        if key.slot as usize >= self.slots.len() {
            return false;
        }
        let found = self.steps.load_hold(key.slot);
        has_room(found, self.holds)
    }

    /// Makes a new hold of a linked node (`kernfs_get`).
    ///
    /// Condition: the node is linked.
    ///
    /// Refusals, in order: TooManyHolds if the slot already has the greatest number of holds; NoMemory if the
    /// table can have no further owner (its `Arc` is at its last count). A refusal leaves the slot's holds as
    /// they were.
    pub fn pin(&mut self, key: Key) -> Result<Hold, Refusal>
        requires { is_some (marks_of self.old.view key) ≡ true }
        ensures kept { KeepsNodes self.old self.new }
        ensures hold { IfOk result (λ hold. IsNewHold self.old key hold) }
        ensures pinned { OnOk result (WasPinned self.old.view key.slot self.new.view) }
        ensures made { IfOk result
            (λ hold. WasCounted key.slot (sight_in self.old) hold.seen self.new.seen) }
        ensures refused { IfErr result (λ why. PinRefused self.old.view key.slot why self.new.view) }
        ensures full { IfErr result
            (λ why. why ≡ refusal_of.TooManyHolds → FoundFull self.new.view key.slot) }
    {
        self.pin_last(key)
    }

    /// Makes a new hold of the key of a call, whether or not the node is still linked.
    ///
    /// Condition: the call is of this table.
    ///
    /// Refusals, in order: NoEntry, before any word step, if the slot has had a later node; TooManyHolds and
    /// NoMemory as in `pin`.
    pub fn pin_held(&mut self, call: &Call) -> Result<Hold, Refusal>
        requires { call.now.table ≡ self.old.table }
        ensures kept { KeepsNodes self.old self.new }
        ensures hold { IfOk result (λ hold. IsNewHold self.old call.now.key hold) }
        ensures pinned { OnOk result
            (IsLastKey self.old.view call.now.key × WasPinned self.old.view call.now.key.slot self.new.view) }
        ensures made { IfOk result
            (λ hold. WasCounted call.now.key.slot (sight_in self.old) hold.seen self.new.seen) }
        ensures refused { IfErr result (λ why. HeldPinRefused self.old.view call.now.key why self.new.view) }
        ensures full { IfErr result
            (λ why. why ≡ refusal_of.TooManyHolds → FoundFull self.new.view call.now.key.slot) }
    {
        let key = call.key();
        match self.slots.get(key.slot as usize) {
            Some(state) if state.generation == key.generation => self.pin_last(key),
            _ => Err(Refusal::NoEntry),
        }
    }

    /// Makes a new hold of the last key of a slot.
    ///
    /// Condition: the key is the last key of its slot.
    ///
    /// Refusals, in order: TooManyHolds and NoMemory as in `pin`.
    fn pin_last(&mut self, key: Key) -> Result<Hold, Refusal>
        requires { IsLastKey self.old.view key }
        ensures kept { KeepsNodes self.old self.new }
        ensures hold { IfOk result (λ hold. IsNewHold self.old key hold) }
        ensures pinned { OnOk result (WasPinned self.old.view key.slot self.new.view) }
        ensures made { IfOk result
            (λ hold. WasCounted key.slot (sight_in self.old) hold.seen self.new.seen) }
        ensures refused { IfErr result (λ why. PinRefused self.old.view key.slot why self.new.view) }
        ensures full { IfErr result
            (λ why. why ≡ refusal_of.TooManyHolds → FoundFull self.new.view key.slot) }
    {
        let found = self.steps.load_hold(key.slot);
        if !has_room(found, self.holds) {
            return Err(Refusal::TooManyHolds);
        }
        self.steps.pin_hold(key.slot);
        let most = self.steps.most;
        let Ok(table) = Arc::try_clone(&self.steps.table) else {
            self.steps.unpin_hold(key.slot);
            return Err(Refusal::NoMemory);
        };
        let token = self.steps.give_hold(key.slot);
        let node = self.nodes.at(key.slot as usize);
        Ok(Hold {
            seat: CallerSeat::new(table, key, node, most, token),
        })
    }

    /// Adds a note to the history, which says what the owner of the Master has done. The call picks the note
    /// by `told`, of which nothing is kept. It is one word step, which changes nothing.
    pub fn note<E: Said, T>(&mut self, told: &T)
        ensures table { self.new.table ≡ self.old.table }
        ensures nodes { self.new.nodes ≡ self.old.nodes }
        ensures view { self.new.view ≡ self.old.view }
        ensures made { WasMadeByMaster (notes E.note) (sight_in self.old) (sight_in self.new) }
        ensures history { history_of self.new.seen ≡ history_of self.old.seen ++ E.note ∷ [] }
    {
        let _ = told; // only the pick of the note reads it
        self.steps.note::<E>();
    }
}
