//! Removal in steps. Each step marks the nodes if they are not marked yet, and takes out those that nobody
//! uses and that no longer have a node below them.
ghost use Rattle.std.specs.Prelude.{◌≡◌, ◌∷◌, [], true, false, IfErr, MatchBool, OnOk, OnErr};
ghost use Rattle.kf_core.specs.declared.refusal.Refusal.TheVariants as refusal_of;
ghost use Rattle.kf_core.specs.Tree.{is_linked};
ghost use Rattle.kf_shared.specs.Locked.{Unchanged, is_claimed};
ghost use Rattle.kf_shared.specs.Receipts.{AreOf};
ghost use Rattle.kf_shared.specs.Removal.{keys_of};
ghost use Rattle.kf_handles.specs.Answers.{ClaimedTo, DoneOr, OutOr};
ghost use Rattle.kf_handles.specs.Kept.{AreTokensOf};
ghost use Rattle.kf_handles.specs.Removing.{ClaimRefused, Ends, IsMarked, IsRemoving, MarkRefused, RemoveRefused, Removes, WasGone};

use crate::hiding::unhide;
use crate::marking::{is_marked, mark, mark_once};
use crate::questions::TreeReply;
use crate::token::Token;
use kf_core::{Key, Refusal};
use kf_shared::{Locked, Naming};
use kf_words::Hold;

/// Shows a marked node again, if it is hidden, so that no token is left when the node leaves the tree.
/// Returns false if somebody is inside.
fn unhide_first<N: Naming>(
    locked: &mut Locked<N>,
    tokens: &mut Vec<Option<Token>>,
    key: Key,
) -> bool
    requires { AreTokensOf N.table tokens.old.items }
    ensures ends { Ends (key ∷ []) locked.old locked.new }
    ensures tokens { AreTokensOf N.table tokens.new.items }
{
    let reply = unhide(locked, tokens, key);
    match reply {
        TreeReply::Not => false,
        _ => true,
    }
}

/// Takes the node of a hold out of the tree, if nobody uses it and no node is below it. Releases the hold.
fn unlink<N: Naming>(locked: &mut Locked<N>, hold: Hold)
    requires { hold.table ≡ N.table }
    ensures { Ends (hold.key ∷ []) locked.old locked.new }
{
    match hold.look() {
        Ok(drained) => {
            let _ = locked.unlink(&drained);
            drained.release();
        }
        Err(hold) => hold.release(),
    }
}

/// Shows the marked node of a hold, if it is hidden, and takes it out of the tree, if nobody uses it and no
/// node is below it. Releases the hold.
fn take_out<N: Naming>(locked: &mut Locked<N>, tokens: &mut Vec<Option<Token>>, hold: Hold)
    requires table { hold.table ≡ N.table }
    requires tokens { AreTokensOf N.table tokens.old.items }
    ensures ends { Ends (hold.key ∷ []) locked.old locked.new }
    ensures tokens { AreTokensOf N.table tokens.new.items }
{
    if !unhide_first(locked, tokens, hold.key()) {
        hold.release();
        return;
    }
    unlink(locked, hold);
}

/// Takes the marked nodes of these holds out of the tree, in their order, except those that somebody uses or
/// that still have a node below them. Releases the holds.
fn take_each<N: Naming>(locked: &mut Locked<N>, tokens: &mut Vec<Option<Token>>, holds: Vec<Hold>)
    requires tables { AreOf N.table holds.items }
    requires tokens { AreTokensOf N.table tokens.old.items }
    ensures ends { Ends (keys_of holds.items) locked.old locked.new }
    ensures tokens { AreTokensOf N.table tokens.new.items }
{
    let mut rest = holds.into_iter();
    while let Some(hold) = rest.next() {
        take_out(locked, tokens, hold);
    }
    rest.destroy_empty();
}

/// Takes a marked node out of the tree, if nobody uses it, no node is below it, and there is room for one
/// more hold. If the node is hidden, it is shown first, because the token that hides it has one of its holds.
fn take_marked<N: Naming>(locked: &mut Locked<N>, tokens: &mut Vec<Option<Token>>, key: Key)
    requires { AreTokensOf N.table tokens.old.items }
    ensures ends { Ends (key ∷ []) locked.old locked.new }
    ensures tokens { AreTokensOf N.table tokens.new.items }
{
    if !unhide_first(locked, tokens, key) {
        return;
    }
    if let Ok(hold) = locked.hold(key) {
        unlink(locked, hold);
    }
}

/// Does what `take_marked` does with each of these nodes, in their order.
fn take_all<N: Naming>(locked: &mut Locked<N>, tokens: &mut Vec<Option<Token>>, keys: &[Key])
    requires { AreTokensOf N.table tokens.old.items }
    ensures ends { Ends keys.now locked.old locked.new }
    ensures tokens { AreTokensOf N.table tokens.new.items }
{
    for key in keys {
        take_marked(locked, tokens, *key);
    }
}

/// Marks a node and all nodes below it, if the node is not marked yet, and claims its removal. The reply is
/// Done the first time, and Not from then on.
pub fn claim<N: Naming>(locked: &mut Locked<N>, key: Key) -> TreeReply
    ensures { DoneOr ((is_claimed locked.old.claims key ≡ false) × ClaimedTo locked.old locked.new key
        × IsMarked locked.old locked.new key)
        ((is_claimed locked.old.claims key ≡ true) × ClaimedTo locked.old locked.new key
        × IsMarked locked.old locked.new key)
        (λ why. ClaimRefused locked.old locked.new key why × Unchanged locked.old locked.new) result }
{
    let Some(marked) = is_marked(locked, key) else {
        return TreeReply::Refused(Refusal::NoEntry);
    };
    if let Err(refusal) = mark_once(locked, key, marked) {
        return TreeReply::Refused(refusal);
    }
    if locked.claim(key) {
        TreeReply::Done
    } else {
        TreeReply::Not
    }
}

/// Marks a node and all nodes below it, if the node is not marked yet, and takes out those of them that
/// nobody uses and that no longer have a node below them.
fn take_up<N: Naming>(
    locked: &mut Locked<N>,
    tokens: &mut Vec<Option<Token>>,
    key: Key,
    marked: bool,
) -> Result<(), Refusal>
    requires linked { is_linked locked.old.state.tree key ≡ true }
    requires tokens { AreTokensOf N.table tokens.old.items }
    ensures removes { OnOk result (Removes marked locked.old locked.new key) }
    ensures same { OnErr result (Unchanged locked.old locked.new × (tokens.new.items ≡ tokens.old.items)) }
    ensures refused { IfErr result (λ why. MatchBool marked
        (why ≡ refusal_of.NoMemory) (MarkRefused locked.old locked.new key why)) }
    ensures tokens { AreTokensOf N.table tokens.new.items }
{
    if marked {
        let keys = locked.state().post_order(key)?;
        take_all(locked, tokens, keys.as_slice());
        return Ok(());
    }
    let holds = mark(locked, key)?;
    take_each(locked, tokens, holds);
    Ok(())
}

/// Whether a node is linked.
fn is_linked<N: Naming>(locked: &Locked<N>, key: Key) -> bool
    ensures { result ≡ is_linked locked.now.state.tree key }
{
    locked.state().stat(key).is_ok()
}

/// Marks a node and all nodes below it, if the node is not marked yet, and takes out those of them that
/// nobody uses and that no longer have a node below them. The reply is Done if this took the node out of the
/// tree, Gone if the node was out before, and Not if the node is still there. A refusal comes before anything
/// is marked or taken out: NoEntry if no node of the tree ever had the key, Invalid if the node is the root,
/// TooManyHolds, NoMemory.
pub fn remove<N: Naming>(
    locked: &mut Locked<N>,
    tokens: &mut Vec<Option<Token>>,
    key: Key,
) -> TreeReply
    requires { AreTokensOf N.table tokens.old.items }
    ensures tokens { AreTokensOf N.table tokens.new.items }
    ensures told { OutOr
        (IsRemoving locked.old locked.new key false)
        (WasGone locked.old locked.new key × (tokens.new.items ≡ tokens.old.items))
        (IsRemoving locked.old locked.new key true)
        (λ why. RemoveRefused locked.old locked.new key why × Unchanged locked.old locked.new
        × (tokens.new.items ≡ tokens.old.items)) result }
{
    let Some(marked) = is_marked(locked, key) else {
        return if locked.was_given(key) {
            TreeReply::Gone
        } else {
            TreeReply::Refused(Refusal::NoEntry)
        };
    };
    if let Err(refusal) = take_up(locked, tokens, key, marked) {
        return TreeReply::Refused(refusal);
    }
    if is_linked(locked, key) {
        TreeReply::Not
    } else {
        TreeReply::Done
    }
}
