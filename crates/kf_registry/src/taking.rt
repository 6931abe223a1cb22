//! Taking a value back.
ghost use Rattle.std.specs.Prelude.{◌≡◌, ◌∷◌, ◌++◌, [], List, IfErr, IfOk, IfSome, MatchOption, true};
ghost use Rattle.kf_core.specs.declared.caller.Phase.TheVariants as phase_of;
ghost use Rattle.kf_core.specs.declared.command.Command.TheVariants.{Doom};
ghost use Rattle.kf_words.specs.Callers.{Handle};
ghost use Rattle.kf_words.specs.declared.note.Note.TheVariants.{Did};
ghost use Rattle.kf_shared.specs.Locked.{Adds, Locked, history};
ghost use Rattle.kf_shared.specs.Sections.{Last};
ghost use Rattle.kf_registry.specs.Receipts.{IsPlain, WasRemovedAfter, WasTaken};
ghost use Rattle.kf_registry.specs.Refusals.{TakeCause, WasFound};

use crate::caller::ValueCaller;
use crate::nodes::is_hot;
use crate::published::{Published, Stored};
use crate::registry::Registry;
use kf_core::{Key, Refusal};
use kf_gates::Closed;
use kf_shared::{Editor, Naming, Removing, release_all};
use kf_words::Parted;
use std::sync::Wait;

/// A value that was taken back, with the receipt of its node and, if it was hot, its closed gate. Nobody is
/// inside the value, and nobody will enter. The node's slot is not used again until this is passed to
/// `into_value` or dropped.
pub struct Taken<T: Published> {
    pub(crate) value: T,
    pub(crate) receipt: Parted,
    pub(crate) gate: Option<Closed>,
}

impl<T: Published> Taken<T> {
    /// The key that the value's node had.
    pub fn key(&self) -> Key
        ensures { result ≡ self.now.receipt.key }
    {
        self.receipt.key()
    }

    /// Releases the receipt, and returns the value.
    pub fn into_value(self) -> T
        ensures { result ≡ self.value }
    {
        let Taken {
            value,
            receipt,
            gate: _,
        } = self;
        receipt.release();
        value
    }
}

/// Releases the receipt, and drops the value.
impl<T: Published> Drop for Taken<T> {
    fn drop(self) {
        let Taken {
            value: _,
            receipt,
            gate: _,
        } = self;
        receipt.release();
    }
}

/// Returns the last of the receipts, and releases the others.
pub(crate) fn last_of(mut receipts: Vec<Parted>) -> Option<Parted>
    ensures last { MatchOption result (receipts.items ≡ [])
        (λ last. (front : List Handle) × (receipts.items ≡ front ++ last ∷ [])) }
{
    let last = receipts.pop();
    release_all(receipts);
    last
}

/// Takes the value of this key's node, which was published under this path, out of its place. Returns None if
/// the place does not have this value, and then the place stays as it was.
fn out_of<T: Published>(place: &mut Option<Stored<T>>, key: Key, path: &[u8]) -> Option<T>
    ensures suits { IfSome result (λ value. T.suits path.now value ≡ true) }
{
    match std::mem::replace(place, None) {
        Some(Stored::Plain(entry)) => {
            if entry.is_of(key, path) {
                return Some(entry.into_value());
            }
            *place = Some(Stored::Plain(entry));
        }
        Some(Stored::Hot(hot)) => *place = Some(Stored::Hot(hot)),
        None => {}
    }
    None
}

impl<N: Naming, T: Published> Registry<N, T> {
    /// Takes the value of a node that has left the tree out of its place. It waits until the value is there.
    /// That is at once if the node was found under the lock.
    fn value_of<R: Wait>(&self, rt: &R, path: &[u8], receipt: &Parted) -> T
        ensures suits { T.suits path.now result ≡ true }
        ensures parted { receipt.now.phase ≡ phase_of.Parted }
    {
        let key = receipt.key();
        for _ in rt.forever() {
            if let Some(value) = out_of(&mut *self.place(key).write(rt), key, path) {
                return value;
            }
        }
        unreachable!()
    }

    /// Ends a removal whose last hold is of this key: unlocks, waits until nobody is inside, and takes the
    /// value out of its place.
    pub(crate) fn take_back<R: Wait>(
        &self,
        rt: &R,
        editor: Editor<'_, N>,
        path: &[u8],
        key: Key,
        removing: Removing<N>,
    ) -> Taken<T>
        requires last { Last (λ hold. hold.key ≡ key) removing }
        ensures suits { T.suits path.now result.value ≡ true }
        ensures parted { result.receipt.phase ≡ phase_of.Parted }
        ensures key { result.receipt.key ≡ key }
        ensures saw { (mid : Locked) → Adds mid editor.entry (Did (Doom key)) →
            WasRemovedAfter (history mid) result.receipt }
    {
        let receipts = editor.end_removal(removing).finish(rt);
        let Some(receipt) = last_of(receipts) else {
            unreachable!()
        };
        let value = self.value_of(rt, path, &receipt);
        Taken {
            value,
            receipt,
            gate: None,
        }
    }

    /// Takes back the value under a path: waits until nobody is inside, and returns the value. Once the node
    /// is marked, no call begins there. When this function returns, the path is free again.
    ///
    /// Refusals, in order: those of [`kf_tree::State::lookup`] (NoEntry: nothing is published there, or it is
    /// being taken); Busy (the value is hot, so only its owner takes it); Invalid (the root); TooManyHolds or
    /// NoMemory, whichever is met first. After a refusal the value is published as before.
    ///
    /// Context: sleeps; takes the tree's lock; the caller must not hold it. It waits for all calls that are
    /// inside, so a closure that runs inside must not call it.
    pub fn take<R: Wait>(
        &self,
        rt: &R,
        by: &mut ValueCaller<N>,
        path: &[u8],
    ) -> Result<Taken<T>, Refusal>
        ensures suits { IfOk result (λ taken. T.suits path.now taken.value ≡ true) }
        ensures taken { IfOk result (λ taken. WasTaken IsPlain path.now taken.receipt) }
        ensures refused { IfErr result (λ why. WasFound by.new.holder.holds.by (TakeCause path.now why)) }
    {
        let mut editor = by.lock(rt, &self.tree);
        let key = editor.state().lookup(path)?;
        if is_hot(editor.state(), key) {
            return Err(Refusal::Busy);
        }
        let removing = editor.begin_removal_of(key)?;
        Ok(self.take_back(rt, editor, path, key, removing))
    }
}
