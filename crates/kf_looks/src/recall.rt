//! What the writer reads from the words.
ghost use Rattle.std.specs.Prelude.{◌≡◌, ◌+◌, ◌<◌, ℕ, true, Some, length, slice_index};
ghost use Rattle.kf_looks.specs.Lines.{bytes_in, word_at, words_for};
ghost use Rattle.kf_looks.specs.Links.{child_of};
ghost use Rattle.kf_looks.specs.Writing.{plan, links_of, IsWriter, IsSameWriter};

use crate::found::Found;
use crate::lookup_table::LookupTable;
use crate::packed::key_word;
use crate::plays::Recalls;
use crate::short_name::ShortName;
use crate::table::{LINES_AT, LookSeat};
use crate::walk::child_there;
use crate::writer::Section;
use kf_core::Key;

impl LookupTable {
    /// Loads one of the words after the version, which is the one that the writer planned.
    pub(crate) fn recall(&self, seat: &mut LookSeat, index: usize) -> u64
        requires table { seat.old.table_id ≡ self.now.table.shared.table_id }
        requires inside { index < words_for self.now.slots }
        requires writes { IsWriter seat.old.me.0 }
        ensures same { IsSameWriter seat.old seat.new }
        ensures planned { result ≡ slice_index (plan seat.old).draft index }
    {
        self.table.shared.load::<Recalls>(seat, index + LINES_AT)
    }

    /// Loads the eight words of a line, which are those that the writer planned.
    fn recall_line(&self, seat: &mut LookSeat, line: usize) -> [u64; 8]
        requires table { seat.old.table_id ≡ self.now.table.shared.table_id }
        requires inside { line < self.now.slots }
        requires writes { IsWriter seat.old.me.0 }
        ensures same { IsSameWriter seat.old seat.new }
        ensures long { length result ≡ 8 }
        ensures planned { (k : ℕ) → k < 8 →
            word_at (plan seat.old).draft line k ≡ slice_index result k }
    {
        let mut words = [0u64; 8];
        for k in 0..8 {
            words[k] = self.recall(seat, 8 * line + k);
        }
        words
    }

    /// Whether the child's line already says that the child has this name in this directory. It stores no
    /// word.
    ///
    /// Condition: the section is of this table.
    pub fn says(
        &self,
        section: Section,
        dir: Key,
        name: &ShortName,
        child: Found,
    ) -> (Section, bool)
        requires table { section.seat.table_id ≡ self.now.table.shared.table_id }
        ensures table { result.0.seat.table_id ≡ section.seat.table_id }
        ensures links { links_of result.0.seat ≡ links_of section.seat }
        ensures said { result.1 ≡ true
            → child_of (links_of section.seat) dir (bytes_in name.now) ≡ Some child }
    {
        let Section { mut seat, version } = section;
        if child.key.slot as u64 >= self.slots {
            return (Section { seat, version }, false);
        }
        let line = self.recall_line(&mut seat.seat, child.key.slot as usize);
        let said = child_there(&line, key_word(dir), name) == Some(child);
        (Section { seat, version }, said)
    }
}
