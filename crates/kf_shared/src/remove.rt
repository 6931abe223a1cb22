//! Removal that waits until every node that it dooms is drained and out of the tree.
ghost use Rattle.std.specs.Prelude.{◌≡◌, ◌+◌, ◌≤◌, ◌++◌, IfErr, IfOk, OnErr, OnOk, not, vec_capacity, vec_len};
ghost use Rattle.kf_core.specs.declared.caller.Phase.TheVariants as phase_of;
ghost use Rattle.kf_core.specs.declared.refusal.Refusal.TheVariants as refusal_of;
ghost use Rattle.kf_tree.specs.Ends.{EndsWith};
ghost use Rattle.kf_words.specs.Callers.{IsSameSeat, seat_view};
ghost use Rattle.kf_shared.specs.Locked.{is_claimed, history};
ghost use Rattle.kf_shared.specs.Removal.{HasHeard, keys_of};
ghost use Rattle.kf_shared.specs.Receipts.{AllDifferent, AreOf, EndsAt, IsDoomList, MayBeDoomed, RemovalRefusal, RemovalRefused, SelfRefused, SelfRemovalRefusal, owners_of};
ghost use Rattle.kf_shared.specs.Sections.{AreFinished, Last, OnlyRested, OnlyWaited, SawMore, WasAddedLate, WasFinished, WasRemoved, WasRemovedIn, WasRestoredAlone, WasSelfRemoved, self_notes};

use crate::editor::Editor;
use crate::naming::Naming;
use crate::tree::SharedTree;
use kf_core::Refusal;
use kf_words::{Call, Drained, Hold, Parted, wait_drained};
use std::collections::VecDeque;
use std::sync::Wait;

impl<N: Naming> SharedTree<N> {
    /// Waits until the hold's node is drained, takes the node out of the tree under the lock, and returns its
    /// receipt (`kernfs_drain`, then `kernfs_unlink_sibling`). If the unlink is refused, it waits and tries
    /// again. The holds of one doom must be finished in their order: another order may deadlock. The unlink
    /// is all that is done in its critical section, and the receipt has seen that.
    ///
    /// It allocates nothing, and may never return. While the tree is unlocked, it waits for every callback
    /// that runs on the node, its caller's own included. It also waits for the lock.
    ///
    /// Condition: the hold is of this tree's table.
    ///
    /// Context: sleeps; takes the tree's lock, which the caller must not hold.
    pub fn finish<R: Wait>(&self, rt: &R, hold: Hold) -> Parted
        requires table { hold.table ≡ N.table }
        ensures same { IsSameSeat hold result }
        ensures parted { result.phase ≡ phase_of.Parted }
        ensures waited { OnlyWaited (seat_view hold) (seat_view result) }
        ensures later { SawMore hold.seen result.seen }
        ensures finished { WasFinished hold result }
    {
        let drained = wait_drained(rt, hold);
        self.finish_drained(rt, drained)
    }

    /// Like `finish`, for a node that was already seen drained.
    pub(crate) fn finish_drained<R: Wait>(&self, rt: &R, drained: Drained) -> Parted
        requires table { drained.table ≡ N.table }
        ensures same { IsSameSeat drained result }
        ensures parted { result.phase ≡ phase_of.Parted }
        ensures rested { OnlyRested (seat_view drained) (seat_view result) }
        ensures later { SawMore drained.seen result.seen }
        ensures finished { WasFinished drained result }
    {
        let mut drained = drained;
        for _ in rt.forever() {
            let unlinked = self.unlink_alone(rt, &mut drained);
            if unlinked.is_err() {
                drained.rest(rt);
                continue;
            }
            match drained.parted() {
                Ok(parted) => return parted,
                Err(back) => drained = back,
            }
        }
        unreachable!()
    }

    /// Takes a drained node out of the tree, and does nothing else before it unlocks. The receipt has then
    /// seen what was done.
    ///
    /// Refusals: those of `Editor::unlink`.
    fn unlink_alone<R: Wait>(&self, rt: &R, drained: &mut Drained) -> Result<bool, Refusal>
        requires table { drained.old.table ≡ N.table }
        ensures same { HasHeard drained.old drained.new }
        ensures later { SawMore drained.old.seen drained.new.seen }
        ensures done { OnOk result (WasFinished drained.old drained.new) }
    {
        let mut editor = self.edit(rt);
        editor.guard.unlink_alone(drained)
    }

    /// Finishes the holds in their order, and adds the receipt of each to `receipts`. It waits until the
    /// first node is drained. Then, in one turn of the lock, it takes this node and those after it out of the
    /// tree, as long as nobody uses them, at most 64. It repeats this for the nodes that are left. In a turn
    /// nothing else is done. Like `finish`, it allocates nothing and may never return.
    ///
    /// Conditions: all are of this tree's table, and `receipts` has room for one more receipt for each hold.
    ///
    /// Context: sleeps; takes the tree's lock, which the caller must not hold.
    pub fn finish_each<R: Wait>(
        &self,
        rt: &R,
        holds: Vec<Hold>,
        receipts: Vec<Parted>,
    ) -> Vec<Parted>
        requires holds { AreOf N.table holds.items }
        requires receipts { AreOf N.table receipts.items }
        requires room { vec_len receipts + vec_len holds ≤ vec_capacity receipts }
        ensures tables { AreOf N.table result.items }
        ensures owners { owners_of result.items ≡ owners_of receipts.items ++ owners_of holds.items }
        ensures finished { AreFinished receipts.items holds.items result.items }
    {
        self.finish_rest(rt, None, VecDeque::from_vec(holds), receipts)
    }

    /// Dooms the subtree of the hold's node, and waits until each of its nodes is drained and out of the tree
    /// (`kernfs_remove`). The receipts are in the order of the doom: each node comes after all that is below
    /// it, siblings are in byte order of their names, and the given hold's receipt is last. If the node is no
    /// longer linked, its receipt is the only one.
    ///
    /// The subtree is that of the tree at the moment when the lock was taken, after all that the hold had
    /// seen. The doom, and the unlinks of the first of the nodes in their order, are all that came before the
    /// lock was released. The last receipt has seen that.
    ///
    /// It may never return. While the tree is unlocked, it waits for every callback that runs in the subtree,
    /// its caller's own included. It also waits for the lock. A callback that removes its own node must call
    /// `remove_self`.
    ///
    /// Condition: the hold is of this tree's table.
    ///
    /// Refusals, in order: Invalid (the root), TooManyHolds (a node below was found with the greatest number
    /// of holds), NoMemory (each was found to have room, or the node is no longer linked). After a refusal
    /// nothing is marked, and the hold is returned as it was.
    ///
    /// Context: sleeps; takes the tree's lock, which the caller must not hold.
    pub fn remove<R: Wait>(&self, rt: &R, hold: Hold) -> Result<Vec<Parted>, (Hold, Refusal)>
        requires table { hold.table ≡ N.table }
        ensures removed { IfOk result
            (λ receipts. Last (WasRemoved hold (keys_of receipts.items)) receipts.items) }
        ensures tables { IfOk result (λ receipts. AreOf N.table receipts.items) }
        ensures last { IfOk result (λ receipts. EndsAt receipts.items hold) }
        ensures different { IfOk result (λ receipts. AllDifferent (keys_of receipts.items)) }
        ensures back { IfErr result (λ r. r.0 ≡ hold) }
        ensures refused { IfErr result (λ r. RemovalRefusal r.1) }
        ensures root { IfErr result (λ r. r.1 ≡ refusal_of.Invalid → hold.key.slot ≡ 0) }
    {
        let editor = self.edit(rt);
        editor.remove(rt, hold)
    }

    /// Removes the node of a call from within its own callback (`kernfs_remove_self`). Under the lock it
    /// takes new holds of the subtree's nodes, dooms these nodes, claims the call's node, and breaks the
    /// call's protection. Nothing else comes before the lock is released for the wait. It waits as `remove`
    /// does, and then restores the call under the lock.
    ///
    /// The `bool` is true for the first self-removal of the node in the whole history, even if a plain
    /// removal is under way. Every other self-removal gets false, after its own wait. The last receipt is for
    /// the call's node. If this node has already left the tree, its receipt is the only one.
    ///
    /// It may never return: it waits for every other callback that runs in the subtree, and for the lock. A
    /// callback that runs on two nodes, one above the other, deadlocks if it removes the upper one.
    ///
    /// Conditions: the call is Running, and of this tree's table. After an `Ok` it is Restored.
    ///
    /// Refusals, in order: Invalid (the root), NoEntry (the slot has had a later node), TooManyHolds (a node
    /// of the subtree was found without room for a hold), NoMemory (each was found to have room). After a
    /// refusal the call is as it was, nothing is marked, and no claim is made.
    ///
    /// Context: sleeps; takes the tree's lock, which the caller must not hold.
    pub fn remove_self<R: Wait>(
        &self,
        rt: &R,
        call: &mut Call,
    ) -> Result<(bool, Vec<Parted>), Refusal>
        requires table { call.old.table ≡ N.table }
        requires running { call.old.phase ≡ phase_of.Running }
        ensures same { IsSameSeat call.old call.new }
        ensures answered { OnOk result (call.new.phase ≡ phase_of.Restored) }
        ensures kept { OnErr result (call.new ≡ call.old) }
        ensures removed { IfOk result
            (λ r. WasSelfRemoved call.old call.new r.0 (keys_of r.1.items)) }
        ensures restored { OnOk result (WasRestoredAlone (seat_view call.new)) }
        ensures tables { IfOk result (λ r. AreOf N.table r.1.items) }
        ensures last { IfOk result (λ r. EndsWith (keys_of r.1.items) call.old.key) }
        ensures different { IfOk result (λ r. AllDifferent (keys_of r.1.items)) }
        ensures refused { IfErr result (λ refusal. SelfRemovalRefusal refusal) }
        ensures root { IfErr result (λ refusal. refusal ≡ refusal_of.Invalid → call.old.key.slot ≡ 0) }
    {
        self.edit(rt).remove_self(rt, call)
    }
}

impl<N: Naming> Editor<'_, N> {
    /// Dooms the subtree of the hold's node, unlocks as [`Editor::end_removal`] does, and waits until each of
    /// its nodes is drained and out of the tree (`kernfs_remove`). What the caller has looked up under this
    /// lock is what is removed. The receipts are for the subtree as this tree has it, in post-order, with the
    /// given hold's receipt last. If the node is no longer linked, its receipt is the only one. The function
    /// consumes the `Editor` and unlocks the tree itself. Like [`SharedTree::remove`] it may never return.
    ///
    /// Condition: the hold is of this table.
    ///
    /// Refusals: those of `doom`. After a refusal nothing is marked, the tree is unlocked, and the hold is
    /// returned as it was.
    ///
    /// Context: sleeps once it has unlocked the tree, and locks it again unless each node has its receipt by
    /// then.
    pub fn remove<R: Wait>(self, rt: &R, hold: Hold) -> Result<Vec<Parted>, (Hold, Refusal)>
        requires table { hold.table ≡ N.table }
        ensures alone { IfOk result (λ receipts. Last (WasRemovedIn (history self.entry)
            self.entry.state.tree hold (keys_of receipts.items)) receipts.items) }
        ensures tables { IfOk result (λ receipts. AreOf N.table receipts.items) }
        ensures last { IfOk result (λ receipts. EndsAt receipts.items hold) }
        ensures different { IfOk result (λ receipts. AllDifferent (keys_of receipts.items)) }
        ensures listed { IfOk result
            (λ receipts. IsDoomList self.entry.state.tree hold.key (keys_of receipts.items)) }
        ensures no_cause { OnOk result (MayBeDoomed self.entry.state hold.key) }
        ensures back { IfErr result (λ r. r.0 ≡ hold) }
        ensures refused { IfErr result
            (λ r. RemovalRefused self.entry.state.tree self.entry.state.root hold.key r.1) }
    {
        let mut editor = self;
        let removing = editor.begin_removal(hold)?;
        let draining = editor.end_removal(removing);
        Ok(draining.finish(rt))
    }

    /// Removes the node of a call from within its own callback (`kernfs_remove_self`), as
    /// [`SharedTree::remove_self`] does. What is removed is the subtree as this tree has it. The `bool` is
    /// true if the claims under this lock did not have the node yet. It unlocks before it waits, and locks
    /// again to restore the call.
    ///
    /// Conditions: the call is Running, and of this table. After an `Ok` it is Restored.
    ///
    /// Refusals: those of [`SharedTree::remove_self`]. After a refusal the call is as it was, nothing is
    /// marked, no claim is made, and the tree is unlocked.
    ///
    /// Context: sleeps once it has unlocked the tree, and locks it again.
    pub fn remove_self<R: Wait>(
        self,
        rt: &R,
        call: &mut Call,
    ) -> Result<(bool, Vec<Parted>), Refusal>
        requires table { call.old.table ≡ N.table }
        requires running { call.old.phase ≡ phase_of.Running }
        ensures same { IsSameSeat call.old call.new }
        ensures answered { OnOk result (call.new.phase ≡ phase_of.Restored) }
        ensures kept { OnErr result (call.new ≡ call.old) }
        ensures first { IfOk result (λ r. r.0 ≡ not (is_claimed self.entry.claims call.old.key)) }
        ensures alone { OnOk result (WasAddedLate call.old.seen call.new.seen (history self.entry)
            (self_notes self.entry.state.tree call.old.key)) }
        ensures restored { OnOk result (WasRestoredAlone (seat_view call.new)) }
        ensures tables { IfOk result (λ r. AreOf N.table r.1.items) }
        ensures last { IfOk result (λ r. EndsWith (keys_of r.1.items) call.old.key) }
        ensures different { IfOk result (λ r. AllDifferent (keys_of r.1.items)) }
        ensures listed { IfOk result
            (λ r. IsDoomList self.entry.state.tree call.old.key (keys_of r.1.items)) }
        ensures no_cause { OnOk result (MayBeDoomed self.entry.state call.old.key) }
        ensures refused { IfErr result (λ refusal. SelfRefused self.entry call.old.key refusal) }
    {
        let mut editor = self;
        let tree = editor.tree;
        let (first, removing) = editor.begin_self_removal(call)?;
        editor.guard.close_call(call);
        drop(editor);
        let receipts = removing.finish(rt, tree);
        let mut editor = tree.edit(rt);
        editor.guard.restore_alone(call);
        Ok((first, receipts))
    }
}
