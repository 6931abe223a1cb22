//! The table of words and its rule.
use crate::sight::{Opening, Sight};
use atomic_table::{Table, TableRule};
use std::alloc::Global;

/// The rule of the table, which holds between any two steps. A run of steps of the seats leads from the
/// opening to the table as it is, each seat has seen a beginning of that run, and the words show the views of
/// all seats.
pub struct Rule;

impl TableRule<(), Sight, Opening> for Rule {
    ghost use Rattle.kf_words.specs.History.{Kept, first_sight};

    ghost holds = { Kept };

    ghost first = { first_sight };
}

pub(crate) type WordTable = Table<(), Sight, Opening, Rule, Global>;
