//! The table of words and its rule. Word 0 is the version, which is odd while the writer changes the other
//! words. From word `LINES_AT` on there is a line of eight words for each slot, and one more line that nobody
//! reads. After the lines come the hints.
use crate::view::LookView;
use atomic_table::{Seat, Table, TableRule};
use std::alloc::Global;

/// The word at which the lines begin. An allocator's large blocks begin 16 bytes after the start of a cache
/// line. So each line of the table is one cache line, and the version has a cache line for itself.
pub(crate) const LINES_AT: usize = 6;

/// How the table begins: with lines for this many slots, and at this version.
#[derive(Clone, Copy)]
pub struct LookOpening {
    pub slots: u64,
    pub version: u64,
}

/// The rule of the table, which says how the words and the views of all seats fit together between any two
/// steps.
pub struct LookRule;

impl TableRule<(), LookView, LookOpening> for LookRule {
    ghost use Rattle.kf_looks.specs.Rule.{Kept, opened};

    ghost holds = { λ o. Kept o.slots };

    ghost first = { λ o. opened o.slots o.version };
}

pub(crate) type LookTable = Table<(), LookView, LookOpening, LookRule, Global>;

pub(crate) type LookSeat = Seat<(), LookView>;
