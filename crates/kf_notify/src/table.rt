//! The table of numbers and its rule, and the counts of the threads that sleep.
ghost use Rattle.std.specs.Prelude.{◌≡◌, IfOk, IfErr, vec_len};
ghost use Rattle.kf_core.specs.declared.refusal.Refusal.TheVariants.{NoMemory};

use crate::sight::{NumberOpening, NumberSight};
use crate::watch::Watchers;
use atomic_table::{Table, TableRule};
use kf_core::Refusal;
use std::alloc::Global;
use std::sync::atomic::AtomicU64;

/// The rule of the table, which holds between any two steps. A run of the steps of its seats leads from the
/// opening to the table as it is, and each seat has seen a beginning of that run. No slot's number is below
/// one that a seat has seen or made there.
pub struct NumberRule;

impl TableRule<(), NumberSight, NumberOpening> for NumberRule {
    ghost use Rattle.kf_notify.specs.History.{Kept, first_sight};

    ghost holds = { Kept };

    ghost first = { first_sight };
}

pub(crate) type NumberTable = Table<(), NumberSight, NumberOpening, NumberRule, Global>;

/// The numbers of all slots. Beside each number there is a count of the threads that sleep on it, and beside
/// the table the counts for threads that watch several slots. No clause says what these counts are. Only
/// threads that sleep, watch or wake others use them.
#[derive(Drop)]
pub struct SlotTable {
    pub(crate) numbers: NumberTable,
    pub(crate) sleepers: Vec<AtomicU64>,
    pub(crate) watchers: Watchers,
}

/// Makes a count of sleepers for each of this many slots. Each count is 0.
///
/// Refusal: `NoMemory`.
pub(crate) fn nobody_asleep(alloc: Global, slots: u32) -> Result<Vec<AtomicU64>, Refusal>
    ensures counts { IfOk result (λ sleepers. vec_len sleepers ≡ slots) }
    ensures refused { IfErr result (λ why. why ≡ NoMemory) }
{
    let mut sleepers = Vec::with_capacity(alloc, slots as usize)?;
    for _slot in 0..slots {
        sleepers.push(AtomicU64::new(0))?;
    }
    Ok(sleepers)
}
