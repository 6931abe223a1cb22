//! The turns of the lock in which a removal takes out of the tree the nodes that it had to wait for.
ghost use Rattle.std.specs.Prelude.{◌≡◌, ◌+◌, ◌≤◌, ◌⊎◌, ◌∷◌, ◌++◌, MatchResult, IfNone, length, vec_capacity, vec_len, List};
ghost use Rattle.std.specs.Option.{option_to_list};
ghost use Rattle.std.specs.VecDeque.{deque_len};
ghost use mathlib.Core.List.{IsPrefix};
ghost use Rattle.kf_words.specs.Callers.{IsSameSeat, seat_view};
ghost use Rattle.kf_words.specs.Nodes.{KeepsNodes};
ghost use Rattle.kf_words.specs.Notes.{history_of};
ghost use Rattle.kf_words.specs.declared.note.Note.{Note};
ghost use Rattle.kf_shared.specs.Locked.{history};
ghost use Rattle.kf_shared.specs.Receipts.{AreOf, owners_of};
ghost use Rattle.kf_shared.specs.Sections.{AreFinished, Each, FirstDrained, FirstLearned, IsTaken, Learned, OnlyLooked, WasTurn, WereUnlinked, unlinked};

use crate::locked::Locked;
use crate::naming::Naming;
use crate::tree::SharedTree;
use kf_words::{Drained, Hold, Master, Parted, try_drained, wait_drained};
use std::collections::VecDeque;
use std::sync::Wait;

/// The greatest number of nodes that a removal takes out of the tree before it unlocks.
pub(crate) const MOST_UNLINKED: usize = 64;

/// Lets each of these receipts see the whole history.
fn meet_each(master: &mut Master, receipts: &mut [Parted])
    requires table { AreOf master.old.table receipts.old }
    ensures kept { KeepsNodes master.old master.new }
    ensures met { Each (Learned (history_of master.old.seen)) receipts.old receipts.new }
{
    for receipt in receipts.iter_mut() {
        master.meet_parted(receipt);
    }
}

/// Lets the first hold or `Drained` that is left see the whole history. So its seat waits for nobody before
/// it has seen that all earlier nodes of the removal are done.
fn meet_next(
    master: &mut Master,
    drained: Option<Drained>,
    holds: &mut VecDeque<Hold>,
) -> Option<Drained>
    requires drained { AreOf master.old.table (option_to_list drained) }
    requires holds { AreOf master.old.table holds.old.items }
    ensures kept { KeepsNodes master.old master.new }
    ensures met { FirstLearned (history_of master.old.seen) (option_to_list drained ++ holds.old.items)
        (option_to_list result ++ holds.new.items) }
    ensures len { length (option_to_list result) + deque_len holds.new
        ≡ length (option_to_list drained) + deque_len holds.old }
{
    match drained {
        Some(mut first) => {
            master.meet_drained(&mut first);
            Some(first)
        }
        None => {
            if let Some(mut first) = holds.pop_front() {
                master.meet(&mut first);
                holds.push_front_reserved(first);
            }
            None
        }
    }
}

impl<N: Naming> Locked<N> {
    /// Takes a drained node out of the tree, if it is linked, and returns its receipt. What the given
    /// `Drained` had seen came before the unlink. Returns Err if the unlink was refused, since the node is in
    /// use again or has a linked child.
    fn part_drained(&mut self, drained: Drained) -> Result<Parted, Drained>
        requires table { drained.table ≡ N.table }
        ensures same { MatchResult result (λ parted. IsSameSeat drained parted)
            (λ back. IsSameSeat drained back) }
        ensures looked { MatchResult result (λ parted. OnlyLooked (seat_view drained) (seat_view parted))
            (λ back. OnlyLooked (seat_view drained) (seat_view back)) }
        ensures came { IsPrefix (history_of drained.seen) (history self.old) }
        ensures noted { MatchResult result
            (λ _. history self.new ≡ unlinked (history self.old) drained.key)
            (λ _. (history self.new ≡ history self.old)
            ⊎ (history self.new ≡ unlinked (history self.old) drained.key)) }
    {
        let mut drained = drained;
        self.master.meet_drained(&mut drained); // what it has seen came before the unlink
        let _ = self.state();
        match self.unlink(&drained) {
            Ok(_) => drained.parted(),
            Err(_) => Err(drained),
        }
    }

    /// Takes a drained node and those after it out of the tree, as long as a look finds the next one doomed
    /// and unused, and adds their receipts. It waits for none of them. A node that it returns was seen
    /// drained, but its unlink was refused, or it is one too many for a turn.
    fn unlink_next(
        &mut self,
        first: Drained,
        holds: &mut VecDeque<Hold>,
        receipts: &mut Vec<Parted>,
    ) -> Option<Drained>
        requires table { first.table ≡ N.table }
        requires holds { AreOf N.table holds.old.items }
        requires room { vec_len receipts.old + (1 + deque_len holds.old) ≤ vec_capacity receipts.old }
        ensures turned { WereUnlinked (history self.old) (history self.new) (first ∷ holds.old.items)
            receipts.old.items receipts.new.items (option_to_list result ++ holds.new.items) }
        ensures room { vec_len receipts.new + (length (option_to_list result) + deque_len holds.new)
            ≤ vec_capacity receipts.new }
    {
        let mut next = first;
        for _ in 0..MOST_UNLINKED {
            match self.part_drained(next) {
                Ok(parted) => receipts.push_reserved(parted),
                Err(back) => return Some(back),
            }
            let Some(hold) = holds.pop_front() else {
                return None;
            };
            match try_drained(hold) {
                Ok(drained) => next = drained,
                Err(used) => {
                    holds.push_front_reserved(used);
                    return None;
                }
            }
        }
        Some(next)
    }

    /// What a removal does in one turn of the lock, which is about to be released. The new receipts, and the
    /// first of the nodes that are left, have then seen all of it.
    fn take_turn(
        &mut self,
        first: Drained,
        holds: &mut VecDeque<Hold>,
        receipts: &mut Vec<Parted>,
    ) -> Option<Drained>
        requires table { first.table ≡ N.table }
        requires holds { AreOf N.table holds.old.items }
        requires receipts { AreOf N.table receipts.old.items }
        requires room { vec_len receipts.old + (1 + deque_len holds.old) ≤ vec_capacity receipts.old }
        ensures turned { WasTurn (history self.old) (first ∷ holds.old.items)
            receipts.old.items receipts.new.items (option_to_list result ++ holds.new.items) }
        ensures room { vec_len receipts.new + (length (option_to_list result) + deque_len holds.new)
            ≤ vec_capacity receipts.new }
    {
        let from = receipts.len();
        let left = self.unlink_next(first, holds, receipts);
        self.end_section();
        let (_, made) = receipts.as_mut_slice().split_at_mut(from);
        meet_each(&mut self.master, made);
        meet_next(&mut self.master, left, holds)
    }
}

/// Waits until the first of these nodes is drained. If that node was already seen drained, it rests once, and
/// only if the node was found in use again. Returns None if there is no node.
///
/// Context: sleeps.
fn wait_first<R: Wait>(
    rt: &R,
    drained: Option<Drained>,
    used_again: bool,
    holds: &mut VecDeque<Hold>,
) -> Option<Drained>
    ensures waited { FirstDrained (option_to_list drained ++ holds.old.items)
        (option_to_list result ++ holds.new.items) }
    ensures len { length (option_to_list result) + deque_len holds.new
        ≡ length (option_to_list drained) + deque_len holds.old }
    ensures none { IfNone result (deque_len holds.new ≡ 0) }
{
    match drained {
        Some(mut first) => {
            if !used_again {
                return Some(first);
            }
            first.rest(rt);
            Some(first)
        }
        None => match holds.pop_front() {
            Some(first) => Some(wait_drained(rt, first)),
            None => None,
        },
    }
}

impl<N: Naming> SharedTree<N> {
    /// Takes the lock for one turn.
    fn turn<R: Wait>(
        &self,
        rt: &R,
        first: Drained,
        holds: &mut VecDeque<Hold>,
        receipts: &mut Vec<Parted>,
    ) -> Option<Drained>
        requires table { first.table ≡ N.table }
        requires holds { AreOf N.table holds.old.items }
        requires receipts { AreOf N.table receipts.old.items }
        requires room { vec_len receipts.old + (1 + deque_len holds.old) ≤ vec_capacity receipts.old }
        ensures turned { (found : List Note) × IsTaken found × WasTurn found (first ∷ holds.old.items)
            receipts.old.items receipts.new.items (option_to_list result ++ holds.new.items) }
        ensures room { vec_len receipts.new + (length (option_to_list result) + deque_len holds.new)
            ≤ vec_capacity receipts.new }
    {
        let mut editor = self.edit(rt);
        editor.guard.take_turn(first, holds, receipts)
    }

    /// Takes these nodes out of the tree in their order, and adds their receipts. It waits for the first
    /// node. Then, in one turn of the lock, it takes this node and those after it out of the tree, as long as
    /// nobody uses them, at most 64. It repeats this for the nodes that are left. It waits for a node only
    /// once all earlier nodes are out of the tree, since a caller inside a later node may wait for the
    /// earlier ones to leave. It allocates nothing.
    ///
    /// Conditions: all are of this tree's table, and `receipts` has room for one more receipt for each.
    ///
    /// Context: sleeps; takes the tree's lock, which the caller must not hold.
    pub(crate) fn finish_rest<R: Wait>(
        &self,
        rt: &R,
        mut drained: Option<Drained>,
        mut holds: VecDeque<Hold>,
        mut receipts: Vec<Parted>,
    ) -> Vec<Parted>
        requires drained { AreOf N.table (option_to_list drained) }
        requires holds { AreOf N.table holds.items }
        requires receipts { AreOf N.table receipts.items }
        requires room { vec_len receipts + (length (option_to_list drained) + deque_len holds)
            ≤ vec_capacity receipts }
        ensures tables { AreOf N.table result.items }
        ensures owners { owners_of result.items
            ≡ owners_of receipts.items ++ owners_of (option_to_list drained ++ holds.items) }
        ensures finished { AreFinished receipts.items (option_to_list drained ++ holds.items) result.items }
    {
        let mut used_again = false;
        for _ in rt.forever() {
            let Some(first) = wait_first(rt, drained, used_again, &mut holds) else {
                holds.destroy_empty();
                return receipts;
            };
            let before = receipts.len();
            drained = self.turn(rt, first, &mut holds, &mut receipts);
            used_again = receipts.len() == before;
        }
        unreachable!()
    }
}
