//! The steps of callers, from the pin to the release.

ghost use Rattle.std.specs.Prelude.{ℕ, ◌≡◌, ◌≢◌, ◌<◌, ◌↔◌, not, IsTrue, IfOk, IfErr, OnOk, OnErr};
ghost use Rattle.std.specs.Bool.{OnTrue, OnFalse};
ghost use Rattle.kf_core.specs.declared.key.Key.{Key};
ghost use Rattle.kf_core.specs.declared.caller.Phase.{Phase};
ghost use Rattle.kf_core.specs.declared.caller.Phase.TheVariants.{Spent};
ghost use Rattle.kf_core.specs.declared.event.Event.{Event};
ghost use Rattle.kf_core.specs.declared.event.Event.TheVariants.{Pin, Enter, Leave, Break, Restore, Look, Part, Hide, LookHidden, Show, Release};
ghost use Rattle.kf_core.specs.Bare.{IsCaller, is_doomed, is_hidden, is_live};
ghost use Rattle.kf_core.specs.Phases.{is_waiting};
ghost use Rattle.kf_core.specs.Safe.{Safe};
ghost use Rattle.kf_core.specs.Steps.{with_caller, with_phase, BareStep, IsHeld, MayLook, MayLookHidden, MayPart, MayPin, NoReference};
ghost use Rattle.kf_world.specs.Bounded.{Happens, May, PinRefused, bounded, holds};
ghost use Rattle.kf_world.specs.Counts.{CountsAs};

use super::World;
use super::search::may_be_given;
use kf_core::{Caller, Key, Phase, Refusal};
use std::alloc::AllocError;

impl World {
    /// Puts a caller into this phase. Until now it was counted like a caller in the phase `from`.
    #[inline(always)]
    fn put_phase(&mut self, id: usize, key: Key, from: Phase, phase: Phase)
        requires there { (was : Phase) × IsCaller self.old.world id key was × CountsAs from was }
        requires holds { from ≢ Spent }
        requires step { (event : Event)
            × BareStep self.old.world event (with_phase self.old.world id key phase) }
        ensures { self.new ≡ bounded (with_phase self.old.world id key phase) self.old.limit }
    {
        let slot = key.slot as usize;
        let counts = self.counts.held(slot).without(from).with(phase);
        self.counts.set_held(slot, counts);
        self.callers[id].phase = phase;
        if phase.is_spent() {
            let free = may_be_given(self.slots.at(slot), counts.holds);
            self.hint.note(key.slot, free);
        }
    }

    /// Whether the slot of the key has fewer holds than the limit, so that a pin does not fail with
    /// `TooManyHolds`. A slot past the last has no holds.
    pub fn room(&self, key: Key) -> bool
        ensures told { IsTrue result ↔ (holds self.now.world key.slot < self.now.limit) }
        ensures safe { Safe self.now.world }
    {
        self.counts_of(key.slot).holds < self.limit as usize
    }

    /// Whether a caller holds the node.
    fn is_held(&self, key: Key) -> bool
        ensures { IsTrue result ↔ IsHeld self.now.world key }
    {
        match self.slots.get(key.slot as usize) {
            Some(state) => {
                state.generation == key.generation && self.counts_of(key.slot).holds > 0
            }
            None => false,
        }
    }

    /// Whether the node is linked, or a caller holds it.
    fn may_pin(&self, key: Key) -> bool
        ensures { IsTrue result ↔ MayPin self.now.world key }
    {
        self.is_linked(key) || self.is_held(key)
    }

    /// Adds a caller that holds the key.
    fn add_caller(&mut self, key: Key) -> Result<(), AllocError>
        requires may { MayPin self.old.world key }
        ensures added { OnOk result (self.new ≡ bounded (with_caller self.old.world key) self.old.limit) }
        ensures err { OnErr result (self.new ≡ self.old) }
    {
        self.callers.push(Caller {
            key,
            phase: Phase::Still,
        })?;
        self.counts.hold(key.slot as usize);
        Ok(())
    }

    /// Adds a caller that holds the key, and returns the caller's number. Numbers begin at 0, and none is
    /// used twice.
    ///
    /// Errors, in this order: `NoEntry` if the node is not linked and no caller holds it; `TooManyHolds` if
    /// its slot already has the greatest number of holds; `NoMemory` if a request for memory was refused.
    /// After an error the world is as before.
    pub fn pin(&mut self, key: Key) -> Result<usize, Refusal>
        ensures step { IfOk result (λ id. Happens self.old (Pin id key) self.new) }
        ensures room { OnOk result (holds self.old.world key.slot < self.old.limit) }
        ensures refused { IfErr result (λ refusal. PinRefused self.old key refusal) }
        ensures err { OnErr result (self.new ≡ self.old) }
    {
        if !self.may_pin(key) {
            return Err(Refusal::NoEntry);
        }
        if !self.room(key) {
            return Err(Refusal::TooManyHolds);
        }
        let id = self.callers.len();
        self.add_caller(key).map_err(|_| Refusal::NoMemory)?;
        Ok(id)
    }

    /// Tries to take an active reference (`kernfs_get_active`). If the node is live, this returns true, and
    /// the caller is then Running. Otherwise it returns false, and the caller is then Turned.
    ///
    /// Condition: the caller is Still or Turned.
    pub fn enter(&mut self, id: usize) -> bool
        requires may { May self.old (Enter id) }
        ensures step { Happens self.old (Enter id) self.new }
        ensures told { (key : Key) (phase : Phase) → IsCaller self.old.world id key phase →
            result ≡ is_live self.old.world key }
    {
        let key = self.callers[id].key;
        if !self.is_live(key) {
            self.put_phase(id, key, Phase::Still, Phase::Turned);
            return false;
        }
        self.put_phase(id, key, Phase::Still, Phase::Running);
        true
    }

    /// Ends a call, and releases its reference (`kernfs_put_active`). The caller is then Still.
    ///
    /// Condition: the caller is Running or Restored.
    pub fn leave(&mut self, id: usize)
        requires may { May self.old (Leave id) }
        ensures step { Happens self.old (Leave id) self.new }
    {
        let key = self.callers[id].key;
        self.put_phase(id, key, Phase::Running, Phase::Still);
    }

    /// Releases the reference inside the call (`kernfs_break_active_protection`). The caller is then Broken.
    ///
    /// Condition: the caller is Running.
    pub fn break_at(&mut self, id: usize)
        requires may { May self.old (Break id) }
        ensures step { Happens self.old (Break id) self.new }
    {
        let key = self.callers[id].key;
        self.put_phase(id, key, Phase::Running, Phase::Broken);
    }

    /// Takes a reference again inside the call (`kernfs_unbreak_active_protection`), even if the node is no
    /// longer live. The caller is then Restored.
    ///
    /// Condition: the caller is Broken.
    pub fn restore(&mut self, id: usize)
        requires may { May self.old (Restore id) }
        ensures step { Happens self.old (Restore id) self.new }
    {
        let key = self.callers[id].key;
        self.put_phase(id, key, Phase::Broken, Phase::Restored);
    }

    /// Checks once whether the node of a caller is drained (`kernfs_drain`). If the caller is Still or
    /// Turned, its node is doomed, and nobody has a reference to the node, this returns true, and the caller
    /// is then Drained. Otherwise it returns false, and nothing changes.
    pub fn look(&mut self, id: usize) -> bool
        ensures step { OnTrue result (Happens self.old (Look id) self.new) }
        ensures same { OnFalse result (self.new ≡ self.old) }
        ensures told { IsTrue result ↔ MayLook self.old.world id }
    {
        let Some((key, phase)) = self.caller(id) else {
            return false;
        };
        if !self.sees_drain(key, phase) {
            return false;
        }
        self.put_phase(id, key, phase, Phase::Drained);
        true
    }

    /// Whether a caller of this key and phase may see the drain.
    fn sees_drain(&self, key: Key, phase: Phase) -> bool
        requires there { (id : ℕ) × IsCaller self.now.world id key phase }
        ensures { IsTrue result
            ↔ (IsTrue (is_waiting phase) × IsTrue (is_doomed self.now.world key)
            × NoReference self.now.world key) }
    {
        if !phase.is_waiting() {
            return false;
        }
        self.is_doomed(key) && self.counts_of(key.slot).references == 0
    }

    /// Checks whether the node of a drained caller has left the tree. If the caller is Drained and its node
    /// is not linked, this returns true, and the caller is then Parted. Otherwise it returns false, and
    /// nothing changes.
    pub fn part(&mut self, id: usize) -> bool
        ensures step { OnTrue result (Happens self.old (Part id) self.new) }
        ensures same { OnFalse result (self.new ≡ self.old) }
        ensures told { IsTrue result ↔ MayPart self.old.world id }
    {
        let Some((key, Phase::Drained)) = self.caller(id) else {
            return false;
        };
        if self.is_linked(key) {
            return false;
        }
        self.put_phase(id, key, Phase::Drained, Phase::Parted);
        true
    }

    /// Hides the node of a caller: the node is not live until the caller shows it again. The caller is then
    /// Hiding, and this returns true. If a caller hides the node already, this returns false, and nothing
    /// changes.
    ///
    /// Condition: the caller is Still or Turned.
    pub fn hide(&mut self, id: usize) -> bool
        requires waits { (key : Key) × (phase : Phase) × IsCaller self.old.world id key phase
            × IsTrue (is_waiting phase) }
        ensures step { OnTrue result (Happens self.old (Hide id) self.new) }
        ensures same { OnFalse result (self.new ≡ self.old) }
        ensures told { (key : Key) (phase : Phase) → IsCaller self.old.world id key phase →
            result ≡ not (is_hidden self.old.world key) }
    {
        let key = self.callers[id].key;
        if self.is_hidden(key) {
            return false;
        }
        self.put_phase(id, key, Phase::Still, Phase::Hiding);
        true
    }

    /// Checks once whether the node that a caller hides has no references. If the caller is Hiding and nobody
    /// has a reference to its node, this returns true, and the caller is then Hidden. Otherwise it returns
    /// false, and nothing changes.
    pub fn look_hidden(&mut self, id: usize) -> bool
        ensures step { OnTrue result (Happens self.old (LookHidden id) self.new) }
        ensures same { OnFalse result (self.new ≡ self.old) }
        ensures told { IsTrue result ↔ MayLookHidden self.old.world id }
    {
        let Some((key, Phase::Hiding)) = self.caller(id) else {
            return false;
        };
        if !self.is_unused(key, Phase::Hiding) {
            return false;
        }
        self.put_phase(id, key, Phase::Hiding, Phase::Hidden);
        true
    }

    /// Whether nobody has a reference to the node that a caller holds.
    fn is_unused(&self, key: Key, phase: Phase) -> bool
        requires there { (id : ℕ) × IsCaller self.now.world id key phase }
        requires holds { phase ≢ Spent }
        ensures { IsTrue result ↔ NoReference self.now.world key }
    {
        let _ = phase;
        let counts = self.counts_of(key.slot);
        counts.references == 0
    }

    /// Shows the node of a caller that hides it. The caller is then Still.
    ///
    /// Condition: the caller is Hidden.
    pub fn show(&mut self, id: usize)
        requires may { May self.old (Show id) }
        ensures step { Happens self.old (Show id) self.new }
    {
        let hider = self.callers[id].key;
        self.put_phase(id, hider, Phase::Hidden, Phase::Still);
    }

    /// Releases the hold. The caller stays in the list, and is then Spent.
    ///
    /// Condition: the caller is Still, Turned, Drained or Parted.
    pub fn release(&mut self, id: usize)
        requires may { May self.old (Release id) }
        ensures step { Happens self.old (Release id) self.new }
    {
        let key = self.callers[id].key;
        self.put_phase(id, key, Phase::Still, Phase::Spent);
    }
}
