//! Holds of several nodes.
ghost use Rattle.std.specs.Prelude.{◌≡◌, ◌⊎◌, ◌<◌, ◌≤◌, ◌+◌, All, is_some, true, [], ◌∷◌, length, IfOk, IfErr, Contains, vec_capacity, vec_len};
ghost use Rattle.kf_core.specs.declared.key.Key.{Key};
ghost use Rattle.kf_core.specs.declared.refusal.Refusal.TheVariants as refusal_of;
ghost use Rattle.kf_words.specs.Nodes.{KeepsNodes, KeepsRooms, FoundFull};
ghost use Rattle.kf_tree.specs.SlotMarks.{marks_at};
ghost use Rattle.kf_shared.specs.Removal.{keys_of, IsNew, HoldsBelowRefused};

use kf_core::{Key, Refusal};
use kf_tree::State;
use kf_words::{Hold, Master, Parted};
use std::alloc::Global;

/// Releases these holds. It has no clauses, since nothing is left of the holds that a clause could speak of.
pub fn release_each(mut holds: Vec<Hold>) {
    while let Some(hold) = holds.pop() {
        hold.release();
    }
    holds.destroy_empty();
}

/// Takes a new hold of each of these linked nodes, in a list with room for one more. After a refusal no new
/// hold is left.
///
/// Condition: each is linked.
///
/// Refusals: TooManyHolds (a node was found with the greatest number of holds), NoMemory.
pub fn pin_each(master: &mut Master, alloc: Global, keys: &[Key]) -> Result<Vec<Hold>, Refusal>
    requires linked { All (λ key. is_some (marks_at master.old.view.slots key) ≡ true) keys.now }
    ensures kept { KeepsNodes master.old master.new }
    ensures keys { IfOk result (λ holds. keys_of holds.items ≡ keys.now) }
    ensures new { IfOk result (λ holds. All (IsNew master.old) holds.items) }
    ensures room { IfOk result (λ holds. vec_len holds < vec_capacity holds) }
    ensures refused { IfErr result
        (λ refusal. (refusal ≡ refusal_of.NoMemory)
        ⊎ ((refusal ≡ refusal_of.TooManyHolds)
        × ((key : Key) × Contains keys.now key × FoundFull master.new.view key.slot))) }
{
    let Ok(mut holds) = Vec::with_capacity(alloc, keys.len() + 1) else {
        return Err(Refusal::NoMemory);
    };
    for key in keys {
        match master.pin(*key) {
            Ok(hold) => holds.push_reserved(hold),
            Err(refusal) => {
                release_each(holds);
                return Err(refusal);
            }
        }
    }
    Ok(holds)
}

/// What a removal returns after memory was refused: TooManyHolds if a node below the top is found full,
/// NoMemory if each is found to have room. It allocates nothing, and looks only at the nodes below the top.
///
/// Condition: the words and the tree have the same number of slots.
pub fn full_or_no_memory(state: &State, master: &mut Master, top: Key) -> Refusal
    requires slots { length master.old.view.slots ≡ length state.now.tree }
    ensures kept { KeepsNodes master.old master.new }
    ensures rooms { KeepsRooms master.old.view master.new.view }
    ensures refused { HoldsBelowRefused state.now.tree top master.new.view result }
{
    let _ = state.root();
    let Some(mut tour) = state.tour(top) else {
        return Refusal::NoMemory;
    };
    'below: while let Some(next) = state.tour_on(tour) {
        if !master.room(tour.key) {
            return Refusal::TooManyHolds;
        }
        tour = next;
    }
    Refusal::NoMemory
}

/// A list with only this hold.
pub fn alone(alloc: Global, hold: Hold) -> Result<Vec<Hold>, (Hold, Refusal)>
    ensures holds { IfOk result (λ holds. holds.items ≡ hold ∷ []) }
    ensures refused { IfErr result (λ r. (r.0 ≡ hold) × (r.1 ≡ refusal_of.NoMemory)) }
{
    match Vec::with_capacity(alloc, 1) {
        Ok(mut holds) => {
            holds.push_reserved(hold);
            Ok(holds)
        }
        Err(_) => Err((hold, Refusal::NoMemory)),
    }
}

/// Like `alone`, but first makes room for one more receipt.
pub fn alone_with_room(
    alloc: Global,
    hold: Hold,
    receipts: &mut Vec<Parted>,
) -> Result<Vec<Hold>, (Hold, Refusal)>
    ensures holds { IfOk result (λ holds. holds.items ≡ hold ∷ []) }
    ensures room { IfOk result
        (λ holds. vec_len receipts.new + vec_len holds ≤ vec_capacity receipts.new) }
    ensures receipts { receipts.new.items ≡ receipts.old.items }
    ensures refused { IfErr result (λ r. (r.0 ≡ hold) × (r.1 ≡ refusal_of.NoMemory)) }
{
    if receipts.reserve(1).is_err() {
        return Err((hold, Refusal::NoMemory));
    }
    alone(alloc, hold)
}
