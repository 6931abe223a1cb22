//! The one run of all steps at a table of numbers, and what each seat has seen of it. The rule of the table
//! mentions these types, so the code declares them. But no value of a `NumberSight` or a `NumberStepKind` is
//! ever made.
use crate::view::NumberView;
use std::collections::LinkedList;

/// How the table begins: this many slots, each with this number.
#[derive(Clone, Copy)]
pub struct NumberOpening {
    pub slots: u32,
    pub start: u64,
}

/// What the seat with this number does in one step. It loads the number of a slot, raises the number of its
/// slot to `number`, or makes a new seat.
pub enum NumberStepKind {
    Loads { seat: u64, slot: u32 },
    Raises { seat: u64, slot: u32, number: u64 },
    Doubles { seat: u64 },
}

/// A beginning of the one run: the steps of all seats from the opening on, in their order.
pub struct NumbersSeen {
    pub opening: NumberOpening,
    pub steps: LinkedList<NumberStepKind>,
}

/// What a seat knows: its view, and the beginning of the run that it has seen.
pub struct NumberSight {
    pub view: NumberView,
    pub seen: NumbersSeen,
}
