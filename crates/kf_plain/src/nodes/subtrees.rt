//! The commands on whole subtrees: activation and removal, with one event per node.

ghost use Rattle.std.specs.Prelude.{◌≡◌, ◌≢◌, ◌⊎◌, ◌∷◌, ◌++◌, [], ◌+◌, ◌^◌, ◌<◌, ◌≤◌, List, map, take, drop, length, IfOk, IfErr, Some, None, IsTrue, All, AllPairs, true, false};
ghost use Rattle.kf_core.specs.declared.key.Key.{Key};
ghost use Rattle.kf_core.specs.declared.caller.Phase.TheVariants.{Still};
ghost use Rattle.kf_core.specs.declared.refusal.Refusal.TheVariants.{NoMemory, TooManyHolds};
ghost use Rattle.kf_core.specs.declared.command.Command.TheVariants.{Activate, Doom, Unlink};
ghost use Rattle.kf_core.specs.Bare.{IsCaller, is_linked as has_node, marks};
ghost use Rattle.kf_core.specs.Marks.{fresh_marks};
ghost use Rattle.kf_core.specs.Phases.{may_release};
ghost use Rattle.kf_core.specs.PostOrder.{IsPostOrder};
ghost use Rattle.kf_core.specs.Steps.{NoReference};
ghost use Rattle.kf_core.specs.Tree.{is_linked};
ghost use Rattle.kf_tree.specs.Causes.{Refuses, doom_cause, linked_cause, unlink_cause};
ghost use Rattle.kf_tree.specs.TreeLogs.{IsAccepted, IsKept};
ghost use Rattle.kf_tree.specs.SlotMarks.{Changed, SameMarks, doomed_if, risen_if};
ghost use Rattle.kf_plain.specs.Fresh.{is_fresh_key};
ghost use Rattle.kf_world.specs.Bounded.{hold_count};
ghost use Rattle.kf_plain.specs.Nodes.{AllIdle, OnlyMarks, has_full_below, last_of, logged, spent_on, with_spent};
ghost use Rattle.kf_plain.specs.Removals.{AreChildrenFirst, Cleared, IsMarkedDoomed, IsMarkedUndoomed, PinsRefused, released, still_on, taken_out, with_callers};

use super::Nodes;
use kf_core::{Key, Refusal};
use kf_tree::State;
use kf_world::World;

/// Whether a linked node is neither activated nor doomed.
fn is_fresh(state: &State, key: Key) -> bool
    ensures fresh { result ≡ is_fresh_key state.now.tree key }
{
    match state.stat(key) {
        Ok(stat) => !stat.activated && !stat.doomed,
        Err(_) => false,
    }
}

/// Activates each of these nodes, none of which is activated or doomed.
fn rise_each(world: &mut World, keys: &[Key])
    requires different { AllPairs (λ a b. a ≢ b) keys.now }
    requires fresh { All (λ key. marks world.old.world key ≡ Some fresh_marks) keys.now }
    ensures risen { Changed risen_if keys.now world.old.world.slots world.new.world.slots }
    ensures only { OnlyMarks world.old world.new }
{
    for key in keys {
        world.activate(*key);
    }
}

/// Releases the holds of this many callers, from the number `first` to the last.
fn release_from(world: &mut World, first: usize, count: usize)
    requires last { first + count ≡ length world.old.world.callers }
    requires fits { first + count ≤ 2 ^ 64 }
    requires held { All (λ c. IsTrue (may_release c.phase)) (drop first world.old.world.callers) }
    ensures released { world.new
        ≡ with_callers world.old
        (take first world.old.world.callers ++ map released (drop first world.old.world.callers)) }
{
    for done in 0..count {
        world.release(first + done);
    }
}

/// Takes a new hold of each of these linked nodes, in this order, and returns the number of the first new
/// caller. After a refusal the holds that were taken are released.
fn pin_each(world: &mut World, keys: &[Key]) -> Result<usize, Refusal>
    requires some { 0 < length keys.now }
    requires linked { All (λ key. IsTrue (has_node world.old.world key)) keys.now }
    requires different { AllPairs (λ a b. a ≢ b) keys.now }
    ensures number { IfOk result (λ first. first ≡ length world.old.world.callers) }
    ensures fits { IfOk result (λ first. first + length keys.now ≤ 2 ^ 64) }
    ensures held { IfOk result
        (λ _. world.new ≡ with_callers world.old (world.old.world.callers ++ map still_on keys.now)) }
    ensures room { IfOk result
        (λ _. All (λ key. hold_count world.old.world.callers key.slot < world.old.limit) keys.now) }
    ensures refused { IfErr result (λ refusal. PinsRefused world.old keys.now refusal
        × ((spent : List Key)
        × (world.new ≡ with_callers world.old (world.old.world.callers ++ map spent_on spent)))) }
{
    let [head, rest @ ..] = keys else {
        return Ok(0);
    };
    let first = world.pin(*head)?;
    for (done, key) in rest.iter().enumerate() {
        if let Err(refusal) = world.pin(*key) {
            release_from(world, first, done + 1);
            return Err(refusal);
        }
    }
    Ok(first)
}

/// Dooms each of these nodes, none of which is doomed.
fn doom_each(world: &mut World, keys: &[Key])
    requires different { AllPairs (λ a b. a ≢ b) keys.now }
    requires undoomed { All (λ key. IsMarkedUndoomed (marks world.old.world key)) keys.now }
    ensures doomed { Changed doomed_if keys.now world.old.world.slots world.new.world.slots }
    ensures only { OnlyMarks world.old world.new }
{
    for key in keys {
        world.doom(*key);
    }
}

/// Takes a doomed node without linked children out of the tree. The caller of this number holds the node, and
/// nobody has a reference to it. So the drain is over at once, and each step succeeds.
fn take_out(state: &mut State, world: &mut World, id: usize, key: Key)
    requires still { IsCaller world.old.world id key Still }
    requires unused { NoReference world.old.world key }
    requires doomed { IsMarkedDoomed (marks world.old.world key) }
    requires linked { is_linked state.old.tree key ≡ true }
    requires no_cause { unlink_cause state.old.tree key ≡ None }
    ensures accepted { IsAccepted state.old state.new (unlink_cause state.old.tree key) (Unlink key) }
    ensures gone { world.new ≡ taken_out world.old id key }
{
    let _drained = world.look(id);
    let _unlinked = state.unlink(key);
    world.unlink(id);
    let _parted = world.part(id);
    world.release(id);
}

/// Takes these doomed nodes out of the tree, each after its children. Each caller from the number `first` on
/// holds one of them.
fn take_out_each(state: &mut State, world: &mut World, first: usize, keys: &[Key])
    requires kept { IsKept state.old }
    requires not_ready { state.old.ready ≡ None }
    requires same { SameMarks world.old.world.slots state.old.tree }
    requires doomed { All (λ key. IsMarkedDoomed (marks world.old.world key)) keys.now }
    requires different { AllPairs (λ a b. a ≢ b) keys.now }
    requires children { AreChildrenFirst state.old.tree keys.now }
    requires idle { AllIdle world.old.world.callers }
    requires held { drop first world.old.world.callers ≡ map still_on keys.now }
    requires fits { first + length keys.now ≤ 2 ^ 64 }
    ensures log { state.new ≡ logged state.old (map Unlink keys.now) }
    ensures kept { IsKept state.new }
    ensures same { SameMarks world.new.world.slots state.new.tree }
    ensures cleared { Cleared keys.now world.old.world world.new.world }
    ensures last { last_of world.new.world.slots ≡ last_of world.old.world.slots }
    ensures limit { world.new.limit ≡ world.old.limit }
    ensures released { world.new.world.callers ≡ take first world.old.world.callers
        ++ map released (drop first world.old.world.callers) }
{
    for (done, key) in keys.iter().enumerate() {
        take_out(state, world, first + done, *key);
    }
}

impl Nodes {
    /// Activates each node of the subtree that is neither activated nor doomed (`kernfs_activate`).
    /// Refused as `State::activate` is; after a refusal nothing is changed.
    pub fn activate(&mut self, key: Key) -> Result<(), Refusal>
        ensures no_cause { IfOk result (λ _. linked_cause self.old.log.tree key ≡ None) }
        ensures activated { IfOk result
            (λ _. self.new ≡ record self.old { log = logged self.old.log (Activate key ∷ []) }) }
        ensures refused { IfErr result
            (λ refusal. Refuses (linked_cause self.old.log.tree key) refusal × (self.new ≡ self.old)) }
    {
        let order = self.state.post_order(key)?;
        let mut risen = Vec::from_slice(*self.pages.allocator(), order.as_slice())?;
        let state = &self.state;
        risen.retain(|key| is_fresh(state, *key));
        self.state.activate_in_order(key, order.as_slice())?;
        rise_each(&mut self.world, risen.as_slice());
        Ok(())
    }

    /// Removes a subtree while nobody has a reference (`kernfs_remove`): pins its nodes, dooms them, and
    /// takes them out one by one, each after all nodes below it. Afterwards no caller holds one of them that
    /// did not hold it before.
    ///
    /// Refused with `NoEntry` (not linked), `Invalid` (the root), `TooManyHolds` if a node already has the
    /// greatest number of holds, or `NoMemory`. After a refusal the tree is as before, and the holds that
    /// were taken are released.
    pub fn remove(&mut self, key: Key) -> Result<(), Refusal>
        requires idle { AllIdle self.old.callers }
        ensures no_cause { IfOk result (λ _. doom_cause self.old.log.tree self.old.log.root key ≡ None) }
        ensures room { IfOk result (λ _. has_full_below self.old key ≡ false) }
        ensures removed { IfOk result (λ _. (keys : List Key) × IsPostOrder self.old.log.tree key keys
            × (self.new ≡ with_spent
            (record self.old { log = logged self.old.log (Doom key ∷ map Unlink keys) }) keys)) }
        ensures refused { IfErr result (λ refusal.
            ((doom_cause self.old.log.tree self.old.log.root key ≡ Some refusal)
            ⊎ ((doom_cause self.old.log.tree self.old.log.root key ≡ None) × (refusal ≡ TooManyHolds)
            × (has_full_below self.old key ≡ true))
            ⊎ ((doom_cause self.old.log.tree self.old.log.root key ≡ None) × (refusal ≡ NoMemory)))
            × ((spent : List Key) × (self.new ≡ with_spent self.old spent))) }
    {
        if key == self.state.root() {
            return Err(Refusal::Invalid);
        }
        let keys = self.state.post_order(key)?;
        let first = pin_each(&mut self.world, keys.as_slice())?;
        if let Err(refusal) = self.state.doom_in_order(key, &keys) {
            release_from(&mut self.world, first, keys.len());
            return Err(refusal);
        }
        doom_each(&mut self.world, keys.as_slice());
        take_out_each(&mut self.state, &mut self.world, first, keys.as_slice());
        Ok(())
    }
}
