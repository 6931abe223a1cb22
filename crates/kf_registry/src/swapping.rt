//! Swapping a published value for another.
ghost use Rattle.std.specs.Prelude.{◌≡◌, ◌≤◌, ℕ, List, Ok, IfErr, IfOk, length, true};
ghost use Rattle.kf_core.specs.declared.command.Command.TheVariants.{Doom};
ghost use Rattle.kf_tree.specs.Paths.{seen};
ghost use Rattle.kf_words.specs.declared.note.Note.TheVariants.{Did};
ghost use Rattle.kf_shared.specs.Locked.{Adds};
ghost use Rattle.kf_shared.specs.Sections.{Last};
ghost use Rattle.kf_registry.specs.Receipts.{Exchanged, IsLeaving, IsPlain, WasMovedAway, WasSwapped};
ghost use Rattle.kf_registry.specs.Refusals.{SwapCause, SwapRefused};

use crate::caller::ValueCaller;
use crate::nodes::is_hot;
use crate::published::{Published, name_of};
use crate::registry::Registry;
use crate::taking::Taken;
use kf_core::{Key, Refusal};
use kf_shared::{Editor, Naming, Removing};
use std::sync::Wait;

/// The lowest four bits of a number, as one of the letters `a` to `p`.
fn digit(number: u32) -> u8 {
    b'a' + (number % 16) as u8
}

/// The name that the node of a slot gets before it is removed. No path of a registry leads there, and no
/// other linked node has it.
fn leaving_name(slot: u32) -> [u8; 9]
    ensures leaving { IsLeaving result }
{
    [
        b'.',
        digit(slot >> 28),
        digit(slot >> 24),
        digit(slot >> 20),
        digit(slot >> 16),
        digit(slot >> 12),
        digit(slot >> 8),
        digit(slot >> 4),
        digit(slot),
    ]
}

/// Moves the live node that a path names to its leaving name. First it takes a hold of the node and releases
/// it, to test that there is room for one more. The last place for a hold is kept for the tree, so the
/// removal of the node will get that place.
///
/// Refusals, in order: those of [`kf_tree::State::lookup`], Busy (its value is hot), TooManyHolds or
/// NoMemory, those of [`Editor::rename`]. Then nothing is changed.
fn move_away<N: Naming>(editor: &mut Editor<'_, N>, path: &[u8]) -> Result<Key, Refusal>
    ensures moved { IfOk result (λ old.
        (away : List ℕ) × WasMovedAway editor.old editor.new path.now old away) }
    ensures refused { IfErr result (λ why. (name : List ℕ) →
        SwapCause path.now name why editor.old.state.tree editor.old.state.root) }
{
    let old = editor.state().lookup(path)?;
    if is_hot(editor.state(), old) {
        return Err(Refusal::Busy);
    }
    editor.hold(old)?.release();
    let root = editor.state().root();
    editor.rename(old, root, &leaving_name(old.slot))?;
    Ok(old)
}

/// Moves a node back to its name. It retries until there is memory: if it gave up, the path would have lost
/// its value.
fn move_back<N: Naming, R: Wait>(rt: &R, editor: &mut Editor<'_, N>, old: Key, name: &[u8]) {
    let root = editor.state().root();
    for _ in rt.forever() {
        if editor.rename(old, root, name).is_ok() {
            return;
        }
    }
}

/// Dooms a node. It retries until there is memory: if it gave up, nobody could take the value of this node
/// from then on.
fn doom<N: Naming, R: Wait>(rt: &R, editor: &mut Editor<'_, N>, old: Key) -> Removing<N>
    ensures noted { Adds editor.old editor.new (Did (Doom old)) }
    ensures last { Last (λ hold. hold.key ≡ old) result }
{
    for _ in rt.forever() {
        if let Ok(removing) = editor.begin_removal_of(old) {
            return removing;
        }
    }
    unreachable!()
}

impl<N: Naming, T: Published> Registry<N, T> {
    /// Moves the node under a path away, creates one with another value there, and dooms the old one.
    ///
    /// Conditions: the value suits the path, and the path has at most 256 bytes.
    fn exchange<R: Wait>(
        &self,
        rt: &R,
        editor: &mut Editor<'_, N>,
        path: &[u8],
        name: &[u8],
        value: T,
    ) -> Result<(Key, Removing<N>), (T, Refusal)>
        requires suits { T.suits path.now value ≡ true }
        requires fits { length path.now ≤ 256 }
        ensures named { IfOk result (λ r.
            seen editor.old.state.tree editor.old.state.root path.now ≡ Ok r.0) }
        ensures plain { IfOk result (λ r. IsPlain editor.old.state.tree r.0) }
        ensures done { IfOk result (λ r. Exchanged editor.old editor.new r.0 name.now) }
        ensures last { IfOk result (λ r. Last (λ hold. hold.key ≡ r.0) r.1) }
        ensures back { IfErr result (λ r. r.0 ≡ value) }
        ensures refused { IfErr result (λ r.
            SwapCause path.now name.now r.1 editor.old.state.tree editor.old.state.root) }
    {
        let old = match move_away(editor, path) {
            Ok(old) => old,
            Err(why) => return Err((value, why)),
        };
        match self.stand(rt, editor, path, name, value) {
            Ok(_) => Ok((old, doom(rt, editor, old))),
            Err((value, why)) => {
                move_back(rt, editor, old, name);
                Err((value, why))
            }
        }
    }

    /// Swaps the value under a path for another, waits until nobody is inside the old one, and returns the
    /// old one. The values change places in one critical section, so the swap never leaves the path without a
    /// value while the lock is free. A caller that finds neither value without the lock waits for the lock.
    ///
    /// Condition: the value suits the path.
    ///
    /// Refusals, in order: Invalid, NameTooLong (as in [`Registry::publish`]); those of
    /// [`kf_tree::State::lookup`] (NoEntry: nothing is published there, or it is being taken); Busy (the
    /// value is hot, so only its owner swaps it); TooManyHolds or NoMemory; NoSpace (the registry already
    /// has the greatest number of values), NoMemory. After a refusal the old value is published as before,
    /// and the new one is returned.
    ///
    /// Context: as in [`Registry::take`].
    pub fn swap<R: Wait>(
        &self,
        rt: &R,
        by: &mut ValueCaller<N>,
        path: &[u8],
        value: T,
    ) -> Result<Taken<T>, (T, Refusal)>
        requires suits { T.suits path.now value ≡ true }
        ensures suits { IfOk result (λ old. T.suits path.now old.value ≡ true) }
        ensures swapped { IfOk result (λ old. WasSwapped path.now old.receipt) }
        ensures back { IfErr result (λ r. r.0 ≡ value) }
        ensures refused { IfErr result (λ r. SwapRefused path.now by.new.holder.holds.by r.1) }
    {
        let name = match name_of(path) {
            Ok(name) => name,
            Err(why) => return Err((value, why)),
        };
        let mut editor = by.lock(rt, &self.tree);
        match self.exchange(rt, &mut editor, path, name, value) {
            Err(refused) => Err(refused),
            Ok((old, removing)) => Ok(self.take_back(rt, editor, path, old, removing)),
        }
    }
}
