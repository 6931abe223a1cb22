//! A reader's single steps on the words.
ghost use Rattle.std.specs.Prelude.{◌≡◌, ◌+◌, ◌<◌, []};
ghost use Rattle.kf_looks.specs.Lines.{lines_at, words_for};
ghost use Rattle.kf_looks.specs.Reading.{IsSameSeat};
ghost use Rattle.kf_looks.specs.Steps.{Begun, Passed, grown};

use crate::lookup_table::LookupTable;
use crate::plays::{Begins, Checks, Peeks};
use crate::table::{LINES_AT, LookSeat};

/// A reader of the words for look-ups, which is zero-sized. Contracts see the links that it has seen.
#[derive(Drop)]
pub struct Looker {
    pub seat: LookSeat,
    ghost sized: { seat.table_id.words ≡ words_for seat.me.0.slots + lines_at },
    ghost bare: { seat.me.1 ≡ [] },
}

impl LookupTable {
    /// Loads the version at the start of a try.
    #[inline(always)]
    pub(crate) fn begin(&self, seat: &mut LookSeat) -> u64
        requires table { seat.old.table_id ≡ self.now.table.shared.table_id }
        ensures table { seat.new.table_id ≡ seat.old.table_id }
        ensures begun { Begun result seat.old.me.0 seat.new.me.0 }
        ensures carried { seat.new.me.1 ≡ seat.old.me.1 }
    {
        self.table.shared.load::<Begins>(seat, 0)
    }

    /// Loads one of the words after the version.
    #[inline(always)]
    pub(crate) fn word(&self, seat: &mut LookSeat, index: usize) -> u64
        requires table { seat.old.table_id ≡ self.now.table.shared.table_id }
        requires inside { index < words_for self.now.slots }
        ensures same { IsSameSeat seat.old seat.new }
        ensures read { seat.new.me.0.role ≡ grown index result seat.old.me.0.role }
    {
        self.table.shared.load::<Peeks>(seat, index + LINES_AT)
    }

    /// Loads the version again. If it is the version that was found first, all that was read was there at one
    /// moment.
    #[inline(always)]
    pub(crate) fn check(&self, seat: &mut LookSeat) -> u64
        requires table { seat.old.table_id ≡ self.now.table.shared.table_id }
        ensures table { seat.new.table_id ≡ seat.old.table_id }
        ensures passed { Passed result seat.old.me.0 seat.new.me.0 }
        ensures carried { seat.new.me.1 ≡ seat.old.me.1 }
    {
        self.table.shared.load::<Checks>(seat, 0)
    }
}
