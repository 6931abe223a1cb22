//! The words that hold names, and the seats at them.
ghost use Rattle.std.specs.Prelude.{◌≡◌, ◌+◌, ◌≤◌, [], IfOk};
ghost use Rattle.kf_core.specs.Limits.{most_slots};
ghost use Rattle.kf_looks.specs.Lines.{lines_at, words_for};
ghost use Rattle.kf_looks.specs.Lookers.{seen};
ghost use Rattle.kf_looks.specs.Steps.{told};
ghost use Rattle.kf_looks.specs.Writing.{links_of, IsWriter};

use crate::plays::{Copies, Sits, Tells};
use crate::reader::Looker;
use crate::table::{LINES_AT, LookOpening, LookSeat, LookTable};
use crate::writer::Writer;
use crate::writer_token::WriterToken;
use std::alloc::{AllocError, Global};

/// The words for look-ups. Any number of threads look names up in them, and none of these threads writes.
///
/// They take 88 bytes for each slot and 240 more. With no slot, no look-up finds anything.
#[derive(Drop)]
pub struct LookupTable {
    pub table: LookTable,
    pub slots: u64,
    ghost few: { slots ≤ most_slots },
    ghost wide: { table.shared.table_id.words ≡ words_for slots + lines_at },
    ghost keyed: { table.shared.key.slots ≡ slots },
}

impl LookupTable {
    /// Makes words for the nodes of this many slots, with no name yet. With no slot, the version is always
    /// odd.
    ///
    /// Condition: there are at most [`kf_core::MOST_SLOTS`] slots.
    pub fn new(alloc: Global, slots: u32) -> Result<(LookupTable, Writer), AllocError>
        requires { slots ≤ most_slots }
        ensures table { IfOk result (λ r. r.1.seat.table_id ≡ r.0.table.shared.table_id) }
        ensures room { IfOk result (λ r. r.0.slots ≡ slots) }
        ensures empty { IfOk result (λ r. links_of r.1.seat ≡ []) }
    {
        let version = if slots == 0 { u64::MAX } else { 0 };
        let slots = slots as u64;
        let mut words = vec![in alloc; 0u64; slots as usize * 11 + 24 + LINES_AT]?;
        words[0] = version;
        let opening = LookOpening { slots, version };
        let (table, seat) = LookTable::of_words(alloc, words.as_slice(), &opening)?;
        let seat = WriterToken::new(seat);
        Ok((LookupTable { table, slots }, Writer { seat, version }))
    }

    /// Makes a reader that has seen nothing yet.
    pub fn looker(&self) -> Looker
        ensures table { result.seat.table_id ≡ self.now.table.shared.table_id }
        ensures fresh { seen result ≡ [] }
    {
        Looker {
            seat: self.table.shared.load_new_seat::<Sits>(0).1,
        }
    }

    /// Makes a reader that has now seen all links. None of its look-ups finds an earlier state than theirs.
    ///
    /// Condition: the writer is of this table.
    pub fn looker_after(&self, writer: &mut Writer) -> Looker
        requires table { writer.old.seat.table_id ≡ self.now.table.shared.table_id }
        ensures table { result.seat.table_id ≡ self.now.table.shared.table_id }
        ensures told { seen result ≡ links_of writer.old.seat }
        ensures same { links_of writer.new.seat ≡ links_of writer.old.seat }
        ensures kept { writer.new.seat.table_id ≡ writer.old.seat.table_id }
    {
        let token = &mut writer.seat;
        Looker {
            seat: self.tell(&mut token.seat),
        }
    }

    /// Makes the seat of a reader that has now seen all links.
    fn tell(&self, writer: &mut LookSeat) -> LookSeat
        requires table { writer.old.table_id ≡ self.now.table.shared.table_id }
        requires writes { IsWriter writer.old.me.0 }
        ensures table { result.table_id ≡ writer.old.table_id }
        ensures told { result.me.0 ≡ told writer.old.me.0 }
        ensures bare { result.me.1 ≡ [] }
        ensures same { writer.new.me ≡ writer.old.me }
        ensures kept { writer.new.table_id ≡ writer.old.table_id }
    {
        self.table.shared.split_seat::<Tells>(writer)
    }

    /// Makes a reader that has seen what another reader has, such as the one in a receipt. None of the new
    /// reader's look-ups finds an earlier state than what the other has seen.
    ///
    /// Condition: the other reader is of this table.
    pub fn looker_like(&self, other: &mut Looker) -> Looker
        requires table { other.old.seat.table_id ≡ self.now.table.shared.table_id }
        ensures table { result.seat.table_id ≡ self.now.table.shared.table_id }
        ensures told { seen result ≡ seen other.old }
        ensures same { other.new.seat.me ≡ other.old.seat.me }
        ensures kept { other.new.seat.table_id ≡ other.old.seat.table_id }
    {
        Looker {
            seat: self.table.shared.split_seat::<Copies>(&mut other.seat),
        }
    }
}
