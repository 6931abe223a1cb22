//! A tour of a subtree: from node to node in post-order, without allocating.

ghost use Rattle.std.specs.Prelude.{◌≡◌, ◌≢◌, ◌<◌, ◌++◌, ◌∷◌, [], List, length, false, IfSome, IfNone};
ghost use Rattle.kf_core.specs.declared.key.Key.{Key};
ghost use Rattle.kf_core.specs.Tree.{is_linked};
ghost use Rattle.kf_core.specs.PostOrder.{IsPostOrder};
ghost use Rattle.kf_tree.specs.Tours.{HasPassed};

use super::State;
use crate::orders::{first_below, later_below, next_in_post_order};
use crate::tour::Tour;
use kf_core::Key;
use kf_index::Listed;

impl State {
    /// A tour of a node's subtree, at its first node in post-order (`kernfs_leftmost_descendant`). None if
    /// the node is not linked. This allocates nothing.
    pub fn tour(&self, top: Key) -> Option<Tour>
        ensures top { IfSome result (λ tour. tour.top ≡ top) }
        ensures first { IfSome result (λ tour. HasPassed self.now.tree tour []) }
        ensures absent { IfNone result (is_linked self.now.tree top ≡ false) }
    {
        self.table.record(top)?;
        let (key, _) = first_below(&self.table, top, Listed::none());
        Some(Tour {
            top,
            key,
            passed: 0,
        })
    }

    /// The tour at the node after its current one (`kernfs_next_descendant_post`). None if the tour is at its
    /// top: it has then passed the whole subtree, and ends. This allocates nothing, and takes one search in
    /// an index.
    ///
    /// Condition: it is a tour of the tree as the tree is now.
    pub fn tour_on(&self, tour: Tour) -> Option<Tour>
        requires here { (keys : List Key) × HasPassed self.now.tree tour keys }
        ensures top { IfSome result (λ next. next.top ≡ tour.top) }
        ensures next { IfSome result (λ next. (keys : List Key) → HasPassed self.now.tree tour keys →
            HasPassed self.now.tree next (keys ++ tour.key ∷ [])) }
        ensures few { IfSome result (λ next.
            (tour.passed < next.passed) × (next.passed < length self.now.tree)) }
        ensures inside { IfSome result (λ _. tour.key ≢ tour.top) }
        ensures end { IfNone result (tour.key ≡ tour.top) }
        ensures whole { IfNone result ((keys : List Key) → HasPassed self.now.tree tour keys →
            IsPostOrder self.now.tree tour.top (keys ++ tour.key ∷ [])) }
    {
        let later = later_below(&self.table, tour.top, tour.key);
        match next_in_post_order(&self.table, tour.top, tour.key, later) {
            Some((key, _)) => Some(Tour {
                top: tour.top,
                key,
                passed: tour.passed + 1,
            }),
            None => None,
        }
    }
}
