//! Removals and hidings that wake the threads that wait for a file to change.
//!
//! A thread that waits has tried, found no change, and sleeps on its slot's event number. A removal marks its
//! nodes, and then raises the number of each, which wakes the sleepers. A wake without a raise would not be
//! enough: a thread that had tried and was not yet asleep would miss it. Nor would a raise before the mark: a
//! thread that it wakes could try before the mark, and sleep again. The same is true of a hiding.
//!
//! Each raise is a step in the one run of the event numbers, after all that the handle had seen. So clauses
//! can say which numbers were raised. No clause says that they were raised after the marks.
ghost use Rattle.std.specs.Prelude.{◌≡◌, [], ◌∷◌, true, None, IfErr, IfOk, OnErr, OnOk};
ghost use Rattle.kf_core.specs.declared.caller.Phase.TheVariants as phase_of;
ghost use Rattle.kf_core.specs.declared.command.Command.TheVariants.{Hide};
ghost use Rattle.kf_files.specs.Telling.{WasTold, WereTold};
ghost use Rattle.kf_notify.specs.PostStates.{id_of};
ghost use Rattle.kf_words.specs.Callers.{IsSameSeat, seat_view};
ghost use Rattle.kf_words.specs.Layout.{is_unused};
ghost use Rattle.kf_words.specs.declared.note.Note.TheVariants.{Did};
ghost use Rattle.kf_shared.specs.Hiding.{HideRefused, hold_cause};
ghost use Rattle.kf_shared.specs.Locked.{history};
ghost use Rattle.kf_shared.specs.Receipts.{AreOf, IsRemovalOf, KeyRefused};
ghost use Rattle.kf_shared.specs.Removal.{keys_of};
ghost use Rattle.kf_shared.specs.Sections.{HidToldAndLooked, Last, SawItsRemoval, WasAddedLate};

use kf_core::{Key, Refusal};
use kf_notify::Posts;
use kf_shared::{Editor, Naming, Removing};
use kf_words::{Hidden, Hiding, Hold, Parted, wait_hidden};
use std::sync::Wait;

/// Raises the event number of a slot, if the posts have one for it.
#[tactic(auto, using(crate::proofs::Told::told_by, crate::proofs::Told::told_nothing))]
fn tell(posts: &mut Posts, slot: u32)
    ensures told { WasTold posts.old slot posts.new }
{
    if slot < posts.slots() {
        let _ = posts.notify(slot);
    }
}

/// Raises the event numbers of the slots of these holds, one after another, as `tell` does.
fn tell_each(posts: &mut Posts, holds: &[Hold])
    ensures told { WereTold posts.old (keys_of holds.now) posts.new }
{
    for hold in holds {
        tell(posts, hold.key().slot);
    }
}

/// Raises the event number of each slot whose node the removal has marked. This wakes the threads that wait
/// for a file there to change: each finds that its node is not live. Call it after `begin_removal`,
/// `begin_removal_of` or `begin_self_removal`, and before [`Editor::end_removal`] or [`Removing::finish`]. It
/// allocates nothing.
pub fn tell_removed<N: Naming>(posts: &mut Posts, removing: &Removing<N>)
    ensures told { WereTold posts.old (keys_of removing.now) posts.new }
    ensures posts { id_of posts.new ≡ id_of posts.old }
{
    tell_each(posts, removing.holds());
}

/// Raises the event number of the file that is being hidden. This wakes the threads that wait for the file to
/// change: each finds that it is not live. It allocates nothing.
pub fn tell_hidden(posts: &mut Posts, hiding: &Hiding)
    ensures told { WasTold posts.old hiding.now.key.slot posts.new }
    ensures posts { id_of posts.new ≡ id_of posts.old }
{
    tell(posts, hiding.key().slot);
}

/// Removes the node of a key and all nodes below it, as [`Editor::remove_key`] does, and wakes the threads
/// that wait for a file there to change. It wakes them once all nodes are marked, and before the tree is
/// unlocked. The receipts are in post-order, the node's own last. This last receipt has seen that the doom,
/// and the unlinks of the first nodes in this order, if any, are all that was done before the lock was
/// released.
///
/// Refusals: those of [`Editor::begin_removal_of`]. After a refusal nothing is marked, and the tree is
/// unlocked.
///
/// Context: that of [`Editor::remove_key`].
pub fn remove_and_tell<N: Naming, R: Wait>(
    editor: Editor<'_, N>,
    rt: &R,
    posts: &mut Posts,
    key: Key,
) -> Result<Vec<Parted>, Refusal>
    ensures alone { IfOk result (λ receipts. Last (SawItsRemoval (history editor.entry) key
        (keys_of receipts.items)) receipts.items) }
    ensures tables { IfOk result (λ receipts. AreOf N.table receipts.items) }
    ensures listed { IfOk result (λ receipts. IsRemovalOf editor.entry.state key (keys_of receipts.items)) }
    ensures refused { IfErr result (λ refusal. KeyRefused editor.entry.state key refusal) }
    ensures told { IfOk result (λ receipts. WereTold posts.old (keys_of receipts.items) posts.new) }
    ensures untold { OnErr result (posts.new ≡ posts.old) }
    ensures posts { id_of posts.new ≡ id_of posts.old }
{
    let mut editor = editor;
    let removing = editor.begin_removal_of(key)?;
    tell_removed(posts, &removing);
    let draining = editor.end_removal(removing);
    Ok(draining.finish(rt))
}

/// Hides a file, as [`Editor::hide_and_wait`] does, and wakes the threads that wait for the file to change.
/// It wakes them once the file is hidden and the tree is unlocked, and then waits for the file's callers. The
/// token has seen that the hiding is all that was done before the lock was released.
///
/// Condition: the hold is of this tree's table.
///
/// Refusals: those of [`Editor::hide`]. After a refusal the tree is as before, and unlocked.
///
/// Context: sleeps, after it has unlocked the tree.
pub fn hide_and_tell<N: Naming, R: Wait>(
    editor: Editor<'_, N>,
    rt: &R,
    posts: &mut Posts,
    hold: Hold,
) -> Result<Hidden, (Hold, Refusal)>
    requires table { hold.table ≡ N.table }
    ensures same { IfOk result (λ hidden. IsSameSeat hold hidden) }
    ensures hidden { IfOk result (λ hidden. hidden.phase ≡ phase_of.Hidden) }
    ensures unused { IfOk result (λ hidden. is_unused hidden.found ≡ true) }
    ensures looked { IfOk result (λ hidden. HidToldAndLooked (seat_view hold) (seat_view hidden)) }
    ensures alone { IfOk result (λ hidden. WasAddedLate hold.seen hidden.seen (history editor.entry)
        (Did (Hide hold.key) ∷ [])) }
    ensures no_cause { OnOk result (hold_cause editor.entry.state.tree hold ≡ None) }
    ensures refused { IfErr result (λ r. HideRefused editor.entry.state.tree hold r.0 r.1) }
    ensures told { OnOk result (WasTold posts.old hold.key.slot posts.new) }
    ensures untold { OnErr result (posts.new ≡ posts.old) }
    ensures posts { id_of posts.new ≡ id_of posts.old }
{
    let mut editor = editor;
    let mut hiding = editor.hide(hold)?;
    let _ = editor.end_hiding(&mut hiding);
    tell_hidden(posts, &hiding);
    Ok(wait_hidden(rt, hiding))
}
