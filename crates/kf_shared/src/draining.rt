//! A removal that has unlocked the tree. The first of its nodes, which nobody used, have already left the
//! tree.
ghost use Rattle.std.specs.Prelude.{◌≡◌, ◌⊎◌, ◌+◌, ◌≤◌, ◌++◌, [], List, MatchResult, length, vec_capacity, vec_len};
ghost use Rattle.std.specs.Option.{option_to_list};
ghost use Rattle.std.specs.VecDeque.{deque_len};
ghost use mathlib.Core.List.{IsPrefix};
ghost use Rattle.kf_core.specs.declared.command.Command.TheVariants.{Unlink};
ghost use Rattle.kf_core.specs.declared.key.Key.{Key};
ghost use Rattle.kf_words.specs.Callers.{IsSameSeat};
ghost use Rattle.kf_words.specs.Nodes.{KeepsNodes};
ghost use Rattle.kf_words.specs.declared.note.Note.TheVariants.{Did};
ghost use Rattle.kf_shared.specs.Locked.{Adds, history};
ghost use Rattle.kf_shared.specs.Receipts.{AreOf, owners_of};
ghost use Rattle.kf_shared.specs.Removal.{keys_of};
ghost use Rattle.kf_shared.specs.Sections.{AllEnded, HasMet, WasEnded, unlinks_of};

use crate::editor::Editor;
use crate::locked::Locked;
use crate::naming::Naming;
use crate::removing::Removing;
use crate::tree::SharedTree;
use crate::unlinking::MOST_UNLINKED;
use kf_core::Key;
use kf_words::{Drained, Hold, Parted, try_drained};
use std::collections::VecDeque;
use std::marker::{Model, PhantomData};
use std::sync::Wait;

/// The nodes of a removal, each after all that is below it. There are receipts of the first nodes, which have
/// left the tree, and holds of the last ones. In between there may be one `Drained`: its unlink was refused,
/// or its node was no longer linked. There is room for the receipts of the nodes that are left.
pub(crate) struct Rest<N: Naming> {
    receipts: Vec<Parted>,
    drained: Option<Drained>,
    holds: VecDeque<Hold>,
    name: PhantomData<N>,
}

impl<N: Naming> Model for Rest<N> {
    ghost use Rattle.std.specs.Prelude.{◌≡◌, ◌+◌, ◌≤◌, ◌++◌, List, length, vec_capacity, vec_len};
    ghost use Rattle.std.specs.Option.{option_to_list};
    ghost use Rattle.std.specs.VecDeque.{deque_len};
    ghost use Rattle.kf_words.specs.Callers.{Handle};
    ghost use Rattle.kf_shared.specs.Receipts.{AreOf};

    ghost Value = { List Handle };

    ghost view = { λ s. s.receipts.items ++ (option_to_list s.drained ++ s.holds.items) };

    ghost invariant = { λ s. AreOf N.table s.receipts.items × AreOf N.table (option_to_list s.drained)
        × AreOf N.table s.holds.items
        × (vec_len s.receipts + (length (option_to_list s.drained) + deque_len s.holds)
        ≤ vec_capacity s.receipts) };
}

impl<N: Naming> Rest<N> {
    fn new(receipts: Vec<Parted>, drained: Option<Drained>, holds: VecDeque<Hold>) -> Rest<N>
        requires receipts { AreOf N.table receipts.items }
        requires drained { AreOf N.table (option_to_list drained) }
        requires holds { AreOf N.table holds.items }
        requires room { vec_len receipts + (length (option_to_list drained) + deque_len holds)
            ≤ vec_capacity receipts }
        ensures same { result ≡ receipts.items ++ (option_to_list drained ++ holds.items) }
    {
        Rest {
            receipts,
            drained,
            holds,
            name: PhantomData,
        }
    }
}

impl<N: Naming> Locked<N> {
    /// Lets the last of these holds see all that was done so far.
    fn meet_back(&mut self, holds: &mut VecDeque<Hold>)
        requires table { AreOf N.table holds.old.items }
        ensures state { self.new.state ≡ self.old.state }
        ensures words { KeepsNodes self.old.master self.new.master }
        ensures claims { self.new.claims ≡ self.old.claims }
        ensures met { HasMet (history self.old) self.new.master.seen holds.old.items holds.new.items }
        ensures len { deque_len holds.new ≡ deque_len holds.old }
    {
        if let Some(last) = holds.back_mut() {
            self.master.meet(last);
        }
    }

    /// The same for the last hold or receipt of a removal.
    fn meet_last(&mut self, rest: Rest<N>) -> Rest<N>
        ensures words { KeepsNodes self.old.master self.new.master }
        ensures met { HasMet (history self.old) self.new.master.seen rest result }
    {
        let Rest {
            mut receipts,
            drained,
            mut holds,
            name: _,
        } = rest;
        if holds.len() > 0 {
            self.meet_back(&mut holds);
            return Rest::new(receipts, drained, holds);
        }
        match drained {
            Some(mut last) => {
                self.master.meet_drained(&mut last);
                Rest::new(receipts, Some(last), holds)
            }
            None => {
                let Some(mut last) = receipts.pop() else {
                    return Rest::new(receipts, None, holds);
                };
                self.master.meet_parted(&mut last);
                receipts.push_reserved(last);
                Rest::new(receipts, None, holds)
            }
        }
    }

    /// Takes a drained node out of the tree, and returns its receipt. Returns Err if the unlink was refused,
    /// or if the node was not linked.
    fn unlink_and_part(&mut self, drained: Drained) -> Result<Parted, Drained>
        requires table { drained.table ≡ N.table }
        ensures same { MatchResult result (λ parted. IsSameSeat drained parted)
            (λ back. IsSameSeat drained back) }
        ensures noted { MatchResult result (λ _. Adds self.old self.new (Did (Unlink drained.key)))
            (λ _. (history self.new ≡ history self.old)
            ⊎ Adds self.old self.new (Did (Unlink drained.key))) }
    {
        match self.unlink(&drained) {
            Ok(true) => drained.parted(),
            Ok(false) | Err(_) => Err(drained),
        }
    }

    /// Takes the first of these nodes out of the tree, as long as a look finds the next one doomed and
    /// unused, at most 64. It waits for none of them, and allocates nothing.
    ///
    /// Conditions: the holds are of this table, there is no receipt yet, and there is room for one receipt
    /// for each hold.
    fn unlink_unused(&mut self, mut holds: VecDeque<Hold>, mut receipts: Vec<Parted>) -> Rest<N>
        requires table { AreOf N.table holds.items }
        requires none { receipts.items ≡ [] }
        requires room { vec_len receipts + deque_len holds ≤ vec_capacity receipts }
        ensures owners { owners_of result ≡ owners_of holds.items }
        ensures noted { (gone : List Key) × IsPrefix gone (keys_of holds.items)
            × (history self.new ≡ history self.old ++ unlinks_of gone) }
    {
        for _ in 0..MOST_UNLINKED {
            let Some(hold) = holds.pop_front() else {
                return Rest::new(receipts, None, holds);
            };
            match try_drained(hold) {
                Ok(drained) => match self.unlink_and_part(drained) {
                    Ok(parted) => receipts.push_reserved(parted),
                    Err(drained) => return Rest::new(receipts, Some(drained), holds),
                },
                Err(hold) => {
                    holds.push_front_reserved(hold);
                    return Rest::new(receipts, None, holds);
                }
            }
        }
        Rest::new(receipts, None, holds)
    }

    /// Does the last part of a removal before the lock is released. It takes the first of the nodes out of
    /// the tree, as long as nobody uses them, at most 64, and lets the last hold or receipt see all that was
    /// done until the lock is released.
    fn close_removal(&mut self, removing: Removing<N>) -> Rest<N>
        ensures ended { WasEnded self.old removing result }
    {
        let (holds, receipts) = removing.into_parts();
        let mut holds = VecDeque::from_vec(holds);
        self.meet_back(&mut holds);
        let rest = self.unlink_unused(holds, receipts);
        self.end_section();
        self.meet_last(rest)
    }
}

/// A removal that has unlocked the tree, and has yet to finish those of its nodes that have no receipt. In
/// contracts it is the list of its receipts and of its holds, each after all that is below it. It must be
/// passed to [`Draining::finish`].
pub struct Draining<'a, N: Naming> {
    tree: &'a SharedTree<N>,
    rest: Rest<N>,
}

impl<'a, N: Naming> Model for Draining<'a, N> {
    ghost use Rattle.std.specs.Prelude.{List};
    ghost use Rattle.kf_words.specs.Callers.{Handle};

    ghost Value = { List Handle };

    ghost view = { λ s. s.rest };
}

impl<N: Naming> Draining<'_, N> {
    /// Waits until the nodes are drained, and takes them out of the tree, as [`Removing::finish`] does. The
    /// receipts are in the order of the removal's holds, each of its hold's own seat. A receipt that the
    /// removal already had stays as it was. It allocates nothing, and may never return: it waits for every
    /// callback that runs on the nodes, its caller's own included, and for the lock.
    ///
    /// Context: sleeps; takes the tree's lock, unless each node already has its receipt. The caller must not
    /// hold the lock.
    pub fn finish<R: Wait>(self, rt: &R) -> Vec<Parted>
        ensures finished { AllEnded self.entry result.items }
        ensures tables { AreOf N.table result.items }
        ensures owners { owners_of result.items ≡ owners_of self.entry }
        ensures keys { keys_of result.items ≡ keys_of self.entry }
    {
        let Draining { tree, rest } = self;
        let Rest {
            receipts,
            drained,
            holds,
            name: _,
        } = rest;
        tree.finish_rest(rt, drained, holds, receipts)
    }
}

impl<'a, N: Naming> Editor<'a, N> {
    /// Unlocks the tree after a removal was begun. Before it unlocks, it takes the first of the nodes out of
    /// the tree, in their order, as long as nobody uses them, at most 64, and waits for none. So the removal
    /// of one unused linked node takes the lock once. The last hold or receipt has then seen all that was
    /// done until the lock was released. [`Editor::remove`] and [`Editor::remove_key`] unlock with this
    /// function.
    pub fn end_removal(self, removing: Removing<N>) -> Draining<'a, N>
        ensures ended { WasEnded self.entry removing result }
    {
        let mut editor = self;
        let tree = editor.tree;
        let rest = editor.guard.close_removal(removing);
        drop(editor);
        Draining { tree, rest }
    }
}
