//! A removal that has marked its nodes and has yet to wait for them, and the release of its receipts.
ghost use Rattle.std.specs.Prelude.{◌≡◌, ◌+◌, ◌≤◌, [], vec_capacity, vec_len};
ghost use Rattle.kf_shared.specs.Receipts.{AreOf, owners_of};
ghost use Rattle.kf_shared.specs.Removal.{keys_of};
ghost use Rattle.kf_shared.specs.Sections.{AllFinished};

use crate::naming::Naming;
use crate::tree::SharedTree;
use kf_words::{Hold, Parted};
use std::marker::{Model, PhantomData};
use std::sync::Wait;

/// The holds of the nodes that a removal of this tree has marked, each after all that is below it, and room
/// for their receipts. In contracts it is the list of the holds. It must be passed to
/// [`Editor::end_removal`](crate::Editor::end_removal) or, while the tree is unlocked, to
/// [`Removing::finish`].
pub struct Removing<N: Naming> {
    holds: Vec<Hold>,
    receipts: Vec<Parted>,
    name: PhantomData<N>,
}

impl<N: Naming> Model for Removing<N> {
    ghost use Rattle.std.specs.Prelude.{◌≡◌, ◌+◌, ◌≤◌, List, [], vec_capacity, vec_len};
    ghost use Rattle.kf_words.specs.Callers.{Handle};
    ghost use Rattle.kf_shared.specs.Receipts.{AreOf};

    ghost Value = { List Handle };

    ghost view = { λ s. s.holds.items };

    ghost invariant = { λ s. AreOf N.table s.holds.items × (s.receipts.items ≡ [])
        × (vec_len s.receipts + vec_len s.holds ≤ vec_capacity s.receipts) };
}

impl<N: Naming> Removing<N> {
    /// The removal of these holds' nodes.
    ///
    /// Conditions: the holds are of this tree's table, there is no receipt yet, and there is room for one
    /// receipt for each hold.
    pub(crate) fn new(holds: Vec<Hold>, receipts: Vec<Parted>) -> Removing<N>
        requires table { AreOf N.table holds.items }
        requires none { receipts.items ≡ [] }
        requires room { vec_len receipts + vec_len holds ≤ vec_capacity receipts }
        ensures same { result ≡ holds.items }
    {
        Removing {
            holds,
            receipts,
            name: PhantomData,
        }
    }

    /// Its holds, and the empty list with room for their receipts.
    pub(crate) fn into_parts(self) -> (Vec<Hold>, Vec<Parted>)
        ensures holds { result.0.items ≡ self }
        ensures tables { AreOf N.table result.0.items }
        ensures none { result.1.items ≡ [] }
        ensures room { vec_len result.1 + vec_len result.0 ≤ vec_capacity result.1 }
    {
        let Removing {
            holds,
            receipts,
            name: _,
        } = self;
        (holds, receipts)
    }

    /// The holds of the nodes that this removal has marked, each after all that is below it. A caller that
    /// reports the removal to others reads the nodes' keys here.
    pub fn holds(&self) -> &[Hold]
        ensures known { result.now ≡ self.now }
    {
        self.holds.as_slice()
    }

    /// Waits, while the tree is unlocked, until the nodes are drained, and takes them out of the tree in
    /// their order. After each wait it takes the lock for one turn. In this turn it unlinks the next nodes as
    /// long as nobody uses them, at most 64, and does nothing else. No node is waited for before all earlier
    /// ones are out of the tree. The receipts are in the order of the holds, each of its hold's own seat.
    /// Each receipt has seen the turn in which its node was unlinked.
    ///
    /// It allocates nothing, and may never return: it waits for every callback that runs on the nodes, its
    /// caller's own included, and for the lock.
    ///
    /// Context: sleeps; takes the tree's lock, which the caller must not hold.
    pub fn finish<R: Wait>(self, rt: &R, tree: &SharedTree<N>) -> Vec<Parted>
        ensures finished { AllFinished self result.items }
        ensures tables { AreOf N.table result.items }
        ensures owners { owners_of result.items ≡ owners_of self }
        ensures keys { keys_of result.items ≡ keys_of self }
    {
        let (holds, receipts) = self.into_parts();
        tree.finish_each(rt, holds, receipts)
    }
}

/// Releases the receipts of a removal. Each one frees its node's slot if nobody holds the slot any longer.
/// There are no clauses, since nothing is left of the receipts that a clause could speak of.
pub fn release_all(mut receipts: Vec<Parted>) {
    while let Some(receipt) = receipts.pop() {
        receipt.release();
    }
    receipts.destroy_empty();
}
