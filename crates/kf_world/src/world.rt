//! The list of slots and callers. Its methods are the atomic steps. All of them take constant time, except
//! the search for a free slot.

ghost use Rattle.std.specs.Prelude.{◌≡◌, ◌+◌, ◌-◌, ◌^◌, ◌≤◌, ◌<◌, not, slice_get, IfOk, IfErr, IsTrue, None};
ghost use Rattle.std.specs.Option.{option_map};
ghost use Rattle.kf_core.specs.declared.refusal.Refusal.TheVariants.{NoMemory};
ghost use Rattle.kf_core.specs.Bare.{marks, marks_in, is_live, is_linked, is_doomed, is_hidden, opening};
ghost use Rattle.kf_core.specs.Marks.{are_live};
ghost use Rattle.kf_core.specs.Safe.{Safe};
ghost use Rattle.kf_world.specs.Bounded.{BoundedWorld, bounded, holds};
ghost use Rattle.kf_world.specs.Counts.{IsSoundWorld, references, hiders};

use crate::count_list::CountList;
use crate::counts::Counts;
use crate::world::hint::Hint;
use kf_core::{Caller, Key, Limits, NodeFlags, Phase, Refusal, SlotList, SlotState};
use std::alloc::Global;
use std::marker::Model;

mod callers;
mod hint;
mod search;
mod slots;
mod taken;

/// A world: each slot with its last generation and marks, and each caller by its number. Only a pin may
/// allocate, for one more caller. All other memory is reserved when the world is made.
#[derive(Drop)]
pub struct World {
    slots: SlotList<SlotState>,
    callers: Vec<Caller>,
    limit: u32,
    /// The counts of each slot, so that no call walks the callers.
    counts: CountList,
    /// Which slots the search for a free one skips.
    hint: Hint,
}

impl Model for World {
    ghost Value = { BoundedWorld };

    ghost view = { λ w. bounded (record { slots = w.slots; callers = w.callers.items }) w.limit };

    ghost invariant = { λ w. IsSoundWorld
        (record { slots = w.slots; callers = w.callers.items }) w.counts w.hint };
}

/// The marks of the node of this key, or None if it is not linked.
fn marks_at(slots: &SlotList<SlotState>, key: Key) -> Option<NodeFlags>
    ensures { result ≡ marks_in (slice_get slots.now key.slot) key.generation }
{
    match slots.get(key.slot as usize) {
        Some(state) if state.generation == key.generation => state.marks,
        _ => None,
    }
}

impl World {
    /// A world with no callers and only the root, which is live, in slot 0. Each slot's last generation is
    /// `start`, except that the root has the next one. Fails with `NoMemory` if there is no memory for all
    /// slots.
    ///
    /// Condition: `start` is at most 2^32 - 2.
    pub fn new_at(alloc: Global, limits: Limits, start: u32) -> Result<World, Refusal>
        requires start { start ≤ 2 ^ 32 - 2 }
        ensures opens { IfOk result (λ world. world ≡ bounded (opening limits.slots start) limits.holds) }
        ensures err { IfErr result (λ refusal. refusal ≡ NoMemory) }
    {
        let count = limits.slots() as usize;
        let empty = SlotState {
            generation: start,
            marks: None,
        };
        let root = SlotState {
            generation: start + 1,
            marks: Some(NodeFlags {
                activated: true,
                doomed: false,
            }),
        };
        let mut slots = SlotList::new(alloc, count, empty)?;
        slots.set(0, root);
        Ok(World {
            slots,
            callers: Vec::new(alloc),
            limit: limits.holds(),
            counts: CountList::new(alloc, count)?,
            hint: Hint::new(alloc, limits.slots())?,
        })
    }

    /// The key and the phase of a caller. Returns None if no pin has returned this number.
    pub fn caller(&self, id: usize) -> Option<(Key, Phase)>
        ensures known { result ≡ option_map (λ c. (c.key, c.phase)) (slice_get self.now.world.callers id) }
        ensures safe { Safe self.now.world }
    {
        match self.callers.get(id) {
            Some(caller) => Some((caller.key, caller.phase)),
            None => None,
        }
    }

    /// Whether a caller hides the node.
    fn is_hidden(&self, key: Key) -> bool
        ensures { result ≡ is_hidden self.now.world key }
    {
        match self.slots.get(key.slot as usize) {
            Some(state) => {
                state.generation == key.generation && self.counts_of(key.slot).hiders > 0
            }
            None => false,
        }
    }

    /// Whether the node is linked, activated, not doomed and not hidden.
    fn is_live(&self, key: Key) -> bool
        ensures { result ≡ is_live self.now.world key }
    {
        self.has_live_marks(key) && self.is_shown(key)
    }

    /// Whether no caller hides the node. Its marks are live.
    fn is_shown(&self, key: Key) -> bool
        requires live { IsTrue (are_live (marks self.now.world key)) }
        ensures { result ≡ not (is_hidden self.now.world key) }
    {
        self.counts_of(key.slot).hiders == 0
    }

    /// Whether the node is linked, activated and not doomed.
    fn has_live_marks(&self, key: Key) -> bool
        ensures { result ≡ are_live (marks self.now.world key) }
    {
        match marks_at(&self.slots, key) {
            Some(marks) => marks.activated && !marks.doomed,
            None => false,
        }
    }

    /// Whether the node is linked.
    fn is_linked(&self, key: Key) -> bool
        ensures { result ≡ is_linked self.now.world key }
    {
        marks_at(&self.slots, key).is_some()
    }

    /// Whether the node is doomed. A node that is not linked counts as doomed.
    fn is_doomed(&self, key: Key) -> bool
        ensures { result ≡ is_doomed self.now.world key }
    {
        match marks_at(&self.slots, key) {
            Some(marks) => marks.doomed,
            None => true,
        }
    }

    /// The counts of a slot. Past the last slot they are 0.
    fn counts_of(&self, slot: u32) -> Counts
        ensures holds { result.holds ≡ holds self.now.world slot }
        ensures references { result.references ≡ references self.now.world slot }
        ensures hiders { result.hiders ≡ hiders self.now.world slot }
        ensures safe { Safe self.now.world }
    {
        match self.counts.get(slot as usize) {
            Some(counts) => counts,
            None => Counts::NONE,
        }
    }
}
