//! A seat at the table of numbers, and its steps, one by one.
ghost use Rattle.std.specs.Prelude.{◌≡◌, ◌+◌, ◌<◌, ◌≤◌, [], IfOk, IfErr, vec_len};
ghost use Rattle.std.specs.Arc.{arc_value};
ghost use Rattle.kf_core.specs.declared.refusal.Refusal.TheVariants.{NoMemory};
ghost use Rattle.kf_notify.specs.Steps.{loaded, raised};
ghost use Rattle.kf_notify.specs.History.{given};
ghost use Rattle.kf_notify.specs.Next.{WasLoad, WasRaise};

use crate::plays::{Doubles, Loads, Raises};
use crate::sight::NumberSight;
use crate::table::SlotTable;
use atomic_table::Seat;
use kf_core::Refusal;
use std::sync::Arc;

/// A seat at the table of numbers. The table has at least one word, and one for each slot.
#[derive(Drop)]
pub struct PostSeat {
    pub(crate) table: Arc<SlotTable>,
    pub(crate) token: Seat<(), NumberSight>,
    pub(crate) slots: u32,
    ghost of_table: { token.table_id ≡ (arc_value table).numbers.shared.table_id },
    ghost bare: { token.me ≡ (token.me.0, []) },
    ghost same_slots: { (arc_value table).numbers.shared.key.slots ≡ slots },
    ghost all_slots: { slots ≤ token.table_id.words },
    ghost some: { 0 < token.table_id.words },
    ghost counted: { vec_len (arc_value table).sleepers ≡ slots },
}

impl PostSeat {
    /// Loads the number of a slot.
    pub(crate) fn load(&mut self, slot: u32) -> u64
        requires slot { slot < self.old.slots }
        ensures same { self.new.slots ≡ self.old.slots }
        ensures table { self.new.token.table_id ≡ self.old.token.table_id }
        ensures view { self.new.token.me.0.view ≡ loaded slot result self.old.token.me.0.view }
        ensures start { self.old.token.me.0.view.start ≤ result }
        ensures known { self.old.token.me.0.view.slot ≡ slot → self.old.token.me.0.view.known ≤ result }
        ensures next { WasLoad slot result self.old.token.me.0 self.new.token.me.0 }
    {
        self.table
            .numbers
            .shared
            .load::<Loads>(&mut self.token, slot as usize)
    }

    /// Raises the number of the seat's slot to `number`, if it is below that.
    ///
    /// Condition: the seat's last load was of this slot, and `number` is one more than it found. So no number
    /// is skipped.
    pub(crate) fn raise(&mut self, slot: u32, number: u64)
        requires slot { slot < self.old.slots }
        requires own { self.old.token.me.0.view.slot ≡ slot }
        requires next { number ≡ self.old.token.me.0.view.found + 1 }
        ensures same { self.new.slots ≡ self.old.slots }
        ensures table { self.new.token.table_id ≡ self.old.token.table_id }
        ensures view { self.new.token.me.0.view ≡ raised number self.old.token.me.0.view }
        ensures next { WasRaise slot number self.old.token.me.0 self.new.token.me.0 }
    {
        self.table
            .numbers
            .shared
            .fetch_max::<Raises>(&mut self.token, slot as usize, number);
    }

    /// Makes a new seat, which knows and has seen what this one knows and has seen, but has made no number.
    ///
    /// Refusal: `NoMemory` if sharing the table was refused, and then nothing changes.
    pub(crate) fn another(&mut self) -> Result<PostSeat, Refusal>
        ensures same { self.new.slots ≡ self.old.slots }
        ensures table { self.new.token.table_id ≡ self.old.token.table_id }
        ensures kept { self.new.token.me.0 ≡ self.old.token.me.0 }
        ensures slots { IfOk result (λ seat. seat.slots ≡ self.old.slots) }
        ensures shared { IfOk result (λ seat. seat.token.table_id ≡ self.old.token.table_id) }
        ensures view { IfOk result (λ seat. seat.token.me.0 ≡ given self.old.token.me.0) }
        ensures refused { IfErr result (λ why. why ≡ NoMemory) }
    {
        let table = Arc::try_clone(&self.table)?;
        let token = self
            .table
            .numbers
            .shared
            .split_seat::<Doubles>(&mut self.token);
        Ok(PostSeat {
            table,
            token,
            slots: self.slots,
        })
    }
}
