//! Taking back, under the lock, what was made in the same critical section.
ghost use Rattle.std.specs.Prelude.{◌≡◌, ◌+◌, List, length, map, true, false, All, Contains, IfOk, Ok, OnErr};
ghost use Rattle.kf_core.specs.declared.command.Command.TheVariants.{Doom, Unlink};
ghost use Rattle.kf_core.specs.declared.key.Key.{Key};
ghost use Rattle.kf_core.specs.Lawful.{Lawful};
ghost use Rattle.kf_core.specs.PostOrder.{IsPostOrder};
ghost use Rattle.kf_core.specs.Tree.{Tree};
ghost use Rattle.kf_tree.specs.Causes.{doom_cause, has_entry};
ghost use Rattle.kf_tree.specs.TreeLogs.{IsAccepted, Stores};
ghost use Rattle.kf_shared.specs.Receipts.{AreOf};
ghost use Rattle.kf_shared.specs.Removal.{keys_of};
ghost use Rattle.kf_groups.specs.Attributes.{HasNone, shown};
ghost use Rattle.kf_groups.specs.Keeps.{Keeps, KeepsOlder};
ghost use Rattle.kf_tree.specs.Subtrees.{linked_count};
ghost use Rattle.kf_groups.specs.TakenBack.{EachTookBack, GaveUp, NameTookBack, TakeBackRefused, TookBack};

use crate::attribute::Attribute;
use kf_core::{Key, Refusal};
use kf_shared::{Editor, Naming};
use kf_words::Hold;

// Dooms a node and all below it. Returns holds of all of these nodes, in post-order.
fn doom<N: Naming>(editor: &mut Editor<'_, N>, key: Key) -> Result<Vec<Hold>, Refusal>
    ensures tables { IfOk result (λ holds. AreOf N.table holds.items) }
    ensures ordered { IfOk result (λ holds. IsPostOrder editor.old.state.tree key (keys_of holds.items)) }
    ensures done { IfOk result (λ _. IsAccepted editor.old.state editor.new.state
        (doom_cause editor.old.state.tree editor.old.state.root key) (Doom key)) }
    ensures refused { OnErr result (TakeBackRefused editor.old editor.new key) }
    ensures claims { editor.new.claims ≡ editor.old.claims }
{
    let _ = editor.state();
    let hold = editor.hold(key)?;
    match editor.doom(hold) {
        Ok(holds) => Ok(holds),
        Err((hold, refusal)) => {
            hold.release();
            Err(refusal)
        }
    }
}

// Whether a node was taken out of the tree.
fn did_unlink(unlinked: Result<bool, Refusal>) -> bool
    ensures told { result ≡ true → unlinked ≡ Ok true }
{
    match unlinked {
        Ok(did) => did,
        Err(_) => false,
    }
}

// Takes the node of a hold out of the tree, if it is drained. Returns whether it did.
fn unlink<N: Naming>(editor: &mut Editor<'_, N>, hold: Hold) -> bool
    requires table { hold.table ≡ N.table }
    ensures unlinked { (keys : List Key) × All (λ key. key ≡ hold.key) keys
        × Stores editor.old.state editor.new.state (map Unlink keys) }
    ensures counted { result ≡ true →
        linked_count editor.new.state.tree + 1 ≡ linked_count editor.old.state.tree }
    ensures claims { editor.new.claims ≡ editor.old.claims }
{
    match hold.look() {
        Ok(drained) => {
            let unlinked = editor.unlink(&drained);
            drained.release();
            did_unlink(unlinked)
        }
        Err(hold) => {
            hold.release();
            false
        }
    }
}

// Takes the nodes of these holds out of the tree, each if it is drained. Returns whether it took out all of
// them.
fn unlink_each<N: Naming>(editor: &mut Editor<'_, N>, holds: Vec<Hold>) -> bool
    requires tables { AreOf N.table holds.items }
    ensures unlinked { (keys : List Key) × All (Contains (keys_of holds.items)) keys
        × Stores editor.old.state editor.new.state (map Unlink keys) }
    ensures counted { result ≡ true →
        linked_count editor.new.state.tree + length holds.items ≡ linked_count editor.old.state.tree }
    ensures claims { editor.new.claims ≡ editor.old.claims }
{
    let mut rest = holds.into_iter();
    let mut all = true;
    while let Some(hold) = rest.next() {
        let unlinked = unlink(editor, hold);
        all &= unlinked;
    }
    rest.destroy_empty();
    all
}

/// Takes back a node that was made in this critical section, with all below it. It never waits: a node to
/// which somebody has a reference stays, and so do the nodes above it. (Nobody can have a reference to a node
/// that was never live.) If there is no memory to take the node back, it stays, with all below it. Returns
/// whether the given node was taken out of the tree and had no other node below it.
pub fn take_back<N: Naming>(editor: &mut Editor<'_, N>, key: Key) -> bool
    ensures took { TookBack editor.old editor.new key }
    ensures older { KeepsOlder key editor.old.state.tree editor.new.state.tree }
    ensures counted { result ≡ true →
        linked_count editor.new.state.tree + 1 ≡ linked_count editor.old.state.tree }
    ensures claims { editor.new.claims ≡ editor.old.claims }
{
    let Ok(holds) = doom(editor, key) else {
        return false;
    };
    let alone = holds.len() == 1;
    let all = unlink_each(editor, holds);
    alone & all
}

/// Takes back a node, with all below it, and returns the given refusal. But it returns NoMemory if the node
/// stays, or had other nodes below it.
pub(crate) fn give_up<N: Naming>(editor: &mut Editor<'_, N>, key: Key, refusal: Refusal) -> Refusal
    ensures took { TookBack editor.old editor.new key }
    ensures older { KeepsOlder key editor.old.state.tree editor.new.state.tree }
    ensures counted { GaveUp 1 editor.old.state.tree editor.new.state.tree refusal result }
    ensures claims { editor.new.claims ≡ editor.old.claims }
{
    if take_back(editor, key) {
        refusal
    } else {
        Refusal::NoMemory
    }
}

// Takes back the node that has this name in the directory, if there is one. Returns whether a node was taken
// out of the tree and had no other node below it.
fn take_back_name<N: Naming>(editor: &mut Editor<'_, N>, dir: Key, name: &[u8]) -> bool
    ensures took { NameTookBack editor.old editor.new dir name.now }
    ensures older { (base : Tree) (root : Key) → Lawful base root → has_entry base dir name.now ≡ false
        → Keeps base editor.old.state.tree → Keeps base editor.new.state.tree }
    ensures counted { result ≡ true →
        linked_count editor.new.state.tree + 1 ≡ linked_count editor.old.state.tree }
    ensures claims { editor.new.claims ≡ editor.old.claims }
{
    match editor.state().find(dir, name) {
        Ok(key) => take_back(editor, key),
        Err(_) => false,
    }
}

/// Takes back the files of these attributes, all of which were made in this critical section, the last one
/// first. A file stays if there is no memory to take it back. Returns whether as many nodes were taken out of
/// the tree as there are files.
pub(crate) fn take_back_files<N: Naming>(
    editor: &mut Editor<'_, N>,
    dir: Key,
    attributes: &[Attribute],
) -> bool
    ensures took { EachTookBack editor.old editor.new dir (shown attributes.now) }
    ensures older { (base : Tree) (root : Key) → Lawful base root → HasNone base dir (shown attributes.now)
        → Keeps base editor.old.state.tree → Keeps base editor.new.state.tree }
    ensures counted { result ≡ true → linked_count editor.new.state.tree + length (shown attributes.now)
        ≡ linked_count editor.old.state.tree }
    ensures claims { editor.new.claims ≡ editor.old.claims }
{
    let [first, rest @ ..] = attributes else {
        return true;
    };
    let later = take_back_files(editor, dir, rest);
    if first.mode == 0 {
        return later;
    }
    let one = take_back_name(editor, dir, first.name);
    later & one
}
