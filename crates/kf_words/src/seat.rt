//! A caller's seat at the table of words, and an owner of the table that has no seat. Their fields are
//! private: only the files of this module read them. Only `new` and `moved` build a seat from its fields, and
//! only `moved` and `end_to_owner` take one apart.
ghost use Rattle.std.specs.Prelude.{◌≡◌, ◌*◌, ◌<◌, ◌≤◌, None, []};
ghost use Rattle.std.specs.Arc.{arc_value};
ghost use Rattle.kf_words.specs.Layout.{line_words};
ghost use Rattle.kf_words.specs.Steps.{caller_of, plain};
ghost use Rattle.kf_words.specs.declared.view.View.TheVariants as seat_of;

mod owners;
mod parts;
mod pin;
mod reports;
mod share;
mod sleep;
mod steps;

use crate::sight::Sight;
use crate::table::WordTable;
use atomic_table::Seat;
use kf_core::Key;
use std::sync::Arc;
pub use steps::release_seat;

/// What a node is, except a file's tag and a link's target.
#[derive(Clone, Copy)]
enum NodeKind {
    Dir,
    File { mode: u16 },
    Link,
}

/// A caller's seat at the table of words, with the key whose slot it holds and the node of that key. It is
/// inside a `Hold`, `Holds`, `Call`, `Drained`, `Parted`, `Hiding` or `Hidden`, and ends when its hold of the
/// slot is released.
///
/// The node is kept in three fields, since a value of sixteen bytes would go through memory at each atomic
/// step.
pub struct CallerSeat {
    /// The tag, if the node is a file.
    tag: u64,
    table: Arc<WordTable>,
    /// The target, if the node is a link.
    target: Key,
    key: Key,
    kind: NodeKind,
    /// The greatest number of holds of a slot.
    most: u32,
    token: Seat<(), Sight>,
    ghost of_table: { token.table_id ≡ (arc_value table).shared.table_id },
    ghost a_caller: { plain token.me ≡ (seat_of.Caller (caller_of token.me.0.view), []) },
    ghost same_key: { (caller_of token.me.0.view).key ≡ key },
    ghost lines: { (arc_value table).shared.table_id.words
        ≡ (arc_value table).shared.key.slots * line_words },
    ghost in_table: { key.slot < (arc_value table).shared.key.slots },
    ghost limit: { (arc_value table).shared.key.holds ≡ most },
    ghost few: { most ≤ 65535 },
    ghost single: { (caller_of token.me.0.view).pinning ≡ None },
}

/// An owner of the table of words that has no seat, with the greatest number of holds of a slot there. The
/// next seat that is made can take this owner. It then writes nothing to the count of owners, which all
/// threads share.
#[derive(Drop)]
pub struct Owner {
    table: Arc<WordTable>,
    most: u32,
    ghost lines: { (arc_value table).shared.table_id.words
        ≡ (arc_value table).shared.key.slots * line_words },
    ghost limit: { (arc_value table).shared.key.holds ≡ most },
    ghost few: { most ≤ 65535 },
}
