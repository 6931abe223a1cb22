//! The writer, which changes the words.
ghost use Rattle.std.specs.Prelude.{◌≡◌, ◌+◌, ◌*◌, ◌%◌, ◌<◌, ◌∷◌, Some, None, IfSome, ◌≤◌, length};
ghost use Rattle.kf_looks.specs.Lines.{SaysTrue, bytes_in, lines_at, words_for};
ghost use Rattle.kf_looks.specs.Links.{link, IsOfSlot};
ghost use Rattle.kf_looks.specs.Steps.{entered, moved, put};
ghost use Rattle.kf_looks.specs.Writing.{plan, links_of, IsWriter, WritesTrue, Plans, Keeps, IsFilled, SameLines};

use crate::found::Found;
use crate::hint::{Place, WAYS};
use crate::lookup_table::LookupTable;
use crate::packed::{child_words, key_word};
use crate::plays::{Enters, Moves, Puts};
use crate::short_name::ShortName;
use crate::table::{LINES_AT, LookSeat};
use crate::writer_token::WriterToken;
use kf_core::Key;

const HALF: u64 = 4294967296;

/// The one writer of the words, which the tree's lock guards. Contracts see all links.
#[derive(Drop)]
pub struct Writer {
    pub seat: WriterToken,
    pub(crate) version: u64,
    ghost sized: { seat.table_id.words ≡ words_for seat.me.0.slots + lines_at },
    ghost knows: { WritesTrue seat.me.0 version },
    ghost rests: { version % 2 ≡ 1 → version ≡ 18446744073709551615 },
}

/// The words while they are being changed: no look-up succeeds meanwhile.
#[derive(Drop)]
pub struct Section {
    pub seat: WriterToken,
    pub(crate) version: u64,
    ghost sized: { seat.table_id.words ≡ words_for seat.me.0.slots + lines_at },
    ghost knows: { WritesTrue seat.me.0 version },
    ghost odd: { version % 2 ≡ 1 },
}

impl LookupTable {
    /// Stores the next version.
    fn advance(&self, seat: &mut LookSeat, version: u64)
        requires table { seat.old.table_id ≡ self.now.table.shared.table_id }
        requires writes { IsWriter seat.old.me.0 }
        requires next { version ≡ (plan seat.old).version + 1 }
        requires says { version % 2 ≡ 0
            → SaysTrue self.now.slots (plan seat.old).draft (plan seat.old).links }
        ensures made { Plans seat.old seat.new (moved (plan seat.old)) }
    {
        self.table.shared.store::<Moves>(seat, 0, version);
    }

    /// Changes a word.
    fn put(&self, seat: &mut LookSeat, index: usize, value: u64)
        requires table { seat.old.table_id ≡ self.now.table.shared.table_id }
        requires inside { index < words_for self.now.slots }
        requires writes { IsWriter seat.old.me.0 }
        requires odd { (plan seat.old).version % 2 ≡ 1 }
        ensures made { Plans seat.old seat.new (put index value (plan seat.old)) }
    {
        self.table
            .shared
            .store::<Puts>(seat, index + LINES_AT, value);
    }

    /// Changes the last word of a line, which makes the link that the line now says.
    fn enter(&self, seat: &mut LookSeat, index: usize, value: u64)
        requires table { seat.old.table_id ≡ self.now.table.shared.table_id }
        requires inside { index < words_for self.now.slots }
        requires writes { IsWriter seat.old.me.0 }
        requires odd { (plan seat.old).version % 2 ≡ 1 }
        ensures made { Plans seat.old seat.new (entered index value (plan seat.old)) }
    {
        self.table
            .shared
            .store::<Enters>(seat, index + LINES_AT, value);
    }

    /// Changes the words of a line, except the last one.
    fn fill(&self, seat: &mut LookSeat, at: usize, words: &[u64; 7])
        requires table { seat.old.table_id ≡ self.now.table.shared.table_id }
        requires inside { at + 7 < words_for self.now.slots }
        requires writes { IsWriter seat.old.me.0 }
        requires odd { (plan seat.old).version % 2 ≡ 1 }
        requires long { length (plan seat.old).draft ≡ words_for self.now.slots }
        ensures kept { Keeps seat.old seat.new }
        ensures filled { IsFilled (plan seat.old).draft (plan seat.new).draft at words.now 7 }
    {
        for k in 0..7 {
            if self.recall(seat, at + k) != words[k] {
                self.put(seat, at + k, words[k]);
            }
        }
    }

    /// The number of the first hint word that has this hint. If a hint is to be given, a word also counts if
    /// it is free or has the tag.
    fn way(&self, seat: &mut LookSeat, place: Place, hint: u64, given: bool) -> Option<usize>
        requires table { seat.old.table_id ≡ self.now.table.shared.table_id }
        requires inside { place.first + 16 ≤ words_for self.now.slots }
        requires writes { IsWriter seat.old.me.0 }
        ensures kept { Keeps seat.old seat.new }
        ensures draft { (plan seat.new).draft ≡ (plan seat.old).draft }
        ensures within { IfSome result (λ at. (place.first ≤ at) × (at < place.first + 16)) }
    {
        for at in place.first..place.first + WAYS {
            let found = self.word(seat, at);
            if found == hint || given && (found == 0 || found / HALF == place.tag) {
                return Some(at);
            }
        }
        None
    }

    /// Gives a name the hint of a line, if a hint word is free for it, or takes the hint back.
    fn note(&self, seat: &mut LookSeat, place: Place, line: u32, given: bool)
        requires table { seat.old.table_id ≡ self.now.table.shared.table_id }
        requires first { 8 * self.now.slots + 8 ≤ place.first }
        requires inside { place.first + 16 ≤ words_for self.now.slots }
        requires few { place.tag < 4294967296 }
        requires writes { IsWriter seat.old.me.0 }
        requires odd { (plan seat.old).version % 2 ≡ 1 }
        ensures kept { Keeps seat.old seat.new }
        ensures lines { SameLines self.now.slots (plan seat.old).draft (plan seat.new).draft }
    {
        let hint = place.tag * HALF + line as u64;
        if let Some(at) = self.way(seat, place, hint, given) {
            self.put(seat, at, if given { hint } else { 0 });
        }
    }

    /// Begins a change: no look-up succeeds until it is published. It waits for no reader.
    ///
    /// Condition: the writer is of this table.
    pub fn start(&self, writer: Writer) -> Section
        requires table { writer.seat.table_id ≡ self.now.table.shared.table_id }
        ensures table { result.seat.table_id ≡ writer.seat.table_id }
        ensures links { links_of result.seat ≡ links_of writer.seat }
    {
        let Writer { mut seat, version } = writer;
        if version == u64::MAX {
            return Section { seat, version };
        }
        self.advance(&mut seat.seat, version + 1);
        Section {
            seat,
            version: version + 1,
        }
    }

    /// Writes a line, and the hint to it, at this odd version.
    fn write(
        &self,
        seat: &mut LookSeat,
        version: u64,
        dir: Key,
        name: &ShortName,
        slot: u32,
        child: Option<Found>,
    )
        requires table { seat.old.table_id ≡ self.now.table.shared.table_id }
        requires slots { seat.old.me.0.slots ≡ self.now.slots }
        requires knows { WritesTrue seat.old.me.0 version }
        requires odd { version % 2 ≡ 1 }
        requires of_slot { IsOfSlot (links_of seat.old) dir (bytes_in name.now) slot }
        requires placed { IfSome child (λ found. found.key.slot ≡ slot) }
        ensures table { seat.new.table_id ≡ seat.old.table_id }
        ensures slots { seat.new.me.0.slots ≡ seat.old.me.0.slots }
        ensures knows { WritesTrue seat.new.me.0 version }
        ensures linked { links_of seat.new ≡ link dir (bytes_in name.now) child ∷ links_of seat.old }
    {
        let _ = version; // only the contract uses it
        let dir_word = key_word(dir);
        let (key, more, shape) = child_words(child);
        let line = if (slot as u64) < self.slots {
            slot as usize
        } else {
            self.slots as usize
        };
        let (count, first, second, third) = (name.count, name.first, name.second, name.third);
        let words = [dir_word, count, first, second, third, key, more];
        self.fill(seat, 8 * line, &words);
        self.enter(seat, 8 * line + 7, shape);
        let given = shape != 0 && (slot as u64) < self.slots;
        self.note(seat, self.place(dir.slot as u64, name), slot, given);
    }

    /// Makes a link: this name has this child, or none.
    fn change(
        &self,
        section: Section,
        dir: Key,
        name: &ShortName,
        slot: u32,
        child: Option<Found>,
    ) -> Section
        requires table { section.seat.table_id ≡ self.now.table.shared.table_id }
        requires of_slot { IsOfSlot (links_of section.seat) dir (bytes_in name.now) slot }
        requires placed { IfSome child (λ found. found.key.slot ≡ slot) }
        ensures table { result.seat.table_id ≡ section.seat.table_id }
        ensures linked { links_of result.seat ≡ link dir (bytes_in name.now) child
            ∷ links_of section.seat }
    {
        let Section { mut seat, version } = section;
        self.write(&mut seat.seat, version, dir, name, slot, child);
        Section { seat, version }
    }

    /// Gives this child to a name in a directory. At most 9 words are stored.
    ///
    /// Condition: the name has no child, or one in the same slot.
    pub fn give(&self, section: Section, dir: Key, name: &ShortName, child: Found) -> Section
        requires table { section.seat.table_id ≡ self.now.table.shared.table_id }
        requires of_slot { IsOfSlot (links_of section.seat) dir (bytes_in name.now) child.key.slot }
        ensures table { result.seat.table_id ≡ section.seat.table_id }
        ensures linked { links_of result.seat ≡ link dir (bytes_in name.now) (Some child)
            ∷ links_of section.seat }
    {
        self.change(section, dir, name, child.key.slot, Some(child))
    }

    /// Takes a name in a directory away from its child, which has this slot. At most 9 words are stored.
    ///
    /// Condition: the name has no child, or one in this slot.
    pub fn take(&self, section: Section, dir: Key, name: &ShortName, slot: u32) -> Section
        requires table { section.seat.table_id ≡ self.now.table.shared.table_id }
        requires of_slot { IsOfSlot (links_of section.seat) dir (bytes_in name.now) slot }
        ensures table { result.seat.table_id ≡ section.seat.table_id }
        ensures linked { links_of result.seat ≡ link dir (bytes_in name.now) None
            ∷ links_of section.seat }
    {
        self.change(section, dir, name, slot, None)
    }

    /// Publishes the change: look-ups succeed again. After 2^63 changes they no longer do.
    ///
    /// Condition: the section is of this table.
    pub fn publish(&self, section: Section) -> Writer
        requires table { section.seat.table_id ≡ self.now.table.shared.table_id }
        ensures table { result.seat.table_id ≡ section.seat.table_id }
        ensures links { links_of result.seat ≡ links_of section.seat }
    {
        let Section { mut seat, version } = section;
        if version == u64::MAX {
            return Writer { seat, version };
        }
        self.advance(&mut seat.seat, version + 1);
        Writer {
            seat,
            version: version + 1,
        }
    }
}
