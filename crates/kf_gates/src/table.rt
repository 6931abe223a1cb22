//! The words of a gate. Word 0 is twice the number of the last opening, plus 1 while the gate is shut. Word 1
//! counts the threads that sleep. Word 2 counts the keeper and all passes, including dropped ones and those
//! that are being made. Word 8 k + 8 counts the callers in lane k, so each lane has its own cache line.
use crate::view::GateView;
use atomic_table::{Table, TableRule};
use std::alloc::Global;

pub struct GateRule;

impl TableRule<(), GateView, u64> for GateRule {
    ghost use Rattle.kf_gates.specs.Rule.{Kept, opened};

    ghost holds = { Kept };

    ghost first = { opened };
}

pub(crate) type GateTable = Table<(), GateView, u64, GateRule, Global>;
