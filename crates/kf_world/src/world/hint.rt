//! Which slots the search for a free one skips: those below the lowest that may be free, those that are
//! marked, and those in marked groups.

ghost use Rattle.std.specs.Prelude.{ℕ, ◌≡◌, ◌<◌, ◌≤◌, ◌⊎◌, IsTrue, IfOk, IfErr};
ghost use Rattle.kf_core.specs.declared.refusal.Refusal.TheVariants.{NoMemory};
ghost use Rattle.kf_world.specs.Hints.{AsMany, Covers, IsMarked, Skips};

use crate::world::taken::Taken;
use kf_core::Refusal;
use std::alloc::Global;

/// Which slots the search skips. None of them is free, except perhaps slot 0.
#[derive(Drop)]
pub(crate) struct Hint {
    // The search begins here.
    pub(super) lowest: u32,
    pub(super) taken: Taken,
    ghost from_one: { 1 ≤ lowest },
}

impl Hint {
    /// The hint of a new world with this many slots. The search looks at each slot from 1 up.
    pub(super) fn new(alloc: Global, slots: u32) -> Result<Hint, Refusal>
        ensures looks { IfOk result (λ hint. (slot : ℕ) → 1 ≤ slot → ¬ Skips hint.lowest hint.taken slot) }
        ensures covered { IfOk result (λ hint. Covers hint.taken slots) }
        ensures err { IfErr result (λ refusal. refusal ≡ NoMemory) }
    {
        let taken = Taken::new(alloc, slots)?;
        Ok(Hint { lowest: 1, taken })
    }

    /// Records a change of one slot. If the slot is free now, the search looks at it.
    pub(super) fn note(&mut self, slot: u32, free: bool)
        requires within { Covers self.old.taken slot }
        ensures looks { IsTrue free → 1 ≤ slot → ¬ Skips self.new.lowest self.new.taken slot }
        ensures skips { (other : ℕ) → Skips self.new.lowest self.new.taken other →
            Skips self.old.lowest self.old.taken other }
        ensures as_many { AsMany self.old.taken self.new.taken }
    {
        if !free {
            return;
        }
        self.taken.unmark(slot);
        if 1 <= slot && slot < self.lowest {
            self.lowest = slot;
        }
    }

    /// Makes the search begin at this slot, and marks each slot from the old beginning up to but not
    /// including this one.
    pub(super) fn raise(&mut self, lowest: u32)
        requires from_one { 1 ≤ lowest }
        ensures skips { (slot : ℕ) → Skips self.new.lowest self.new.taken slot → (slot < lowest)
            ⊎ Skips self.old.lowest self.old.taken slot }
        ensures passes { (slot : ℕ) → self.old.lowest ≤ slot → slot < lowest →
            Covers self.old.taken slot → IsMarked self.new.taken slot }
        ensures as_many { AsMany self.old.taken self.new.taken }
    {
        self.taken.mark_between(self.lowest, lowest);
        self.lowest = lowest;
    }
}
