//! The marks of a removal, which first takes a hold of each node. A refusal for too many holds comes
//! before one for lack of memory.
ghost use Rattle.std.specs.Prelude.{◌≡◌, ◌≢◌, ◌⊎◌, ◌∷◌, [], None, IfErr, IfSome, IfOk, OnOk, OnErr, true, false};
ghost use Rattle.kf_core.specs.declared.command.Command.TheVariants.{Doom};
ghost use Rattle.kf_core.specs.declared.refusal.Refusal.TheVariants as refusal_of;
ghost use Rattle.kf_core.specs.PostOrder.{IsPostOrder};
ghost use Rattle.kf_core.specs.Tree.{is_linked};
ghost use Rattle.kf_tree.specs.Causes.{doomed_in};
ghost use Rattle.kf_tree.specs.TreeLogs.{Stores};
ghost use Rattle.kf_shared.specs.Locked.{Unchanged};
ghost use Rattle.kf_shared.specs.Receipts.{AreOf};
ghost use Rattle.kf_shared.specs.Removal.{FoundFullIn, keys_of};
ghost use Rattle.kf_words.specs.Nodes.{FoundFull};
ghost use Rattle.kf_handles.specs.Removing.{MarkRefused, mark_of};

use kf_core::{Key, Refusal};
use kf_shared::{Locked, Naming};
use kf_words::Hold;

/// Releases these holds.
fn release_each(mut holds: Vec<Hold>) {
    while let Some(hold) = holds.pop() {
        hold.release();
    }
    holds.destroy_empty();
}

/// Whether a node is marked. None if it is not linked.
pub fn is_marked<N: Naming>(locked: &Locked<N>, key: Key) -> Option<bool>
    ensures linked { IfSome result (λ marked. (is_linked locked.now.state.tree key ≡ true)
        × (marked ≡ doomed_in locked.now.state.tree key)) }
    ensures none { result ≡ None → is_linked locked.now.state.tree key ≡ false }
{
    match locked.state().stat(key) {
        Ok(stat) => Some(stat.doomed),
        Err(_) => None,
    }
}

/// Whether a node already has the greatest number of holds.
fn is_full<N: Naming>(locked: &mut Locked<N>, key: Key) -> bool
    ensures same { Unchanged locked.old locked.new }
    ensures full { result ≡ true → FoundFull locked.new.master.view key.slot }
{
    match locked.hold(key) {
        Ok(hold) => {
            hold.release();
            false
        }
        Err(refusal) => refusal == Refusal::TooManyHolds,
    }
}

/// What is returned if a hold of the top is refused: NoMemory only if no node below the top is found full.
/// This function looks only at the nodes below the top.
fn memory_last<N: Naming>(locked: &mut Locked<N>, top: Key, refusal: Refusal) -> Refusal
    ensures same { Unchanged locked.old locked.new }
    ensures other { refusal ≢ refusal_of.NoMemory → (result ≡ refusal) × (locked.new ≡ locked.old) }
    ensures memory { refusal ≡ refusal_of.NoMemory → (result ≡ refusal)
        ⊎ ((result ≡ refusal_of.TooManyHolds)
        × FoundFullIn locked.old.state.tree top locked.new.master.view) }
{
    if refusal != Refusal::NoMemory {
        return refusal;
    }
    let Some(mut tour) = locked.state().tour(top) else {
        return refusal;
    };
    'below: while let Some(next) = locked.state().tour_on(tour) {
        if is_full(locked, tour.key) {
            return Refusal::TooManyHolds;
        }
        tour = next;
    }
    refusal
}

/// Marks a linked node that is not marked yet, and all nodes below it. Returns a hold of each, in post-order.
/// Refusals, in order: Invalid (the root), TooManyHolds, NoMemory.
pub fn mark<N: Naming>(locked: &mut Locked<N>, key: Key) -> Result<Vec<Hold>, Refusal>
    requires { is_linked locked.old.state.tree key ≡ true }
    ensures tables { IfOk result (λ holds. AreOf N.table holds.items) }
    ensures ordered { IfOk result (λ holds. IsPostOrder locked.old.state.tree key (keys_of holds.items)) }
    ensures stored { OnOk result (Stores locked.old.state locked.new.state (Doom key ∷ [])) }
    ensures same { OnErr result (Unchanged locked.old locked.new) }
    ensures refused { IfErr result (λ why. MarkRefused locked.old locked.new key why) }
    ensures claims { locked.new.claims ≡ locked.old.claims }
{
    locked.state().may_doom(key)?;
    let hold = match locked.hold(key) {
        Ok(hold) => hold,
        Err(refusal) => return Err(memory_last(locked, key, refusal)),
    };
    match locked.doom(hold) {
        Ok(holds) => Ok(holds),
        Err((hold, refusal)) => {
            hold.release();
            Err(refusal)
        }
    }
}

/// Marks a linked node and all nodes below it, if the node is not marked yet.
pub fn mark_once<N: Naming>(locked: &mut Locked<N>, key: Key, marked: bool) -> Result<(), Refusal>
    requires { is_linked locked.old.state.tree key ≡ true }
    ensures stored { OnOk result (Stores locked.old.state locked.new.state (mark_of marked key)) }
    ensures same { OnErr result (Unchanged locked.old locked.new) }
    ensures refused { IfErr result (λ why. (marked ≡ false) × MarkRefused locked.old locked.new key why) }
    ensures claims { locked.new.claims ≡ locked.old.claims }
{
    if marked {
        return Ok(());
    }
    let holds = mark(locked, key)?;
    release_each(holds);
    Ok(())
}
