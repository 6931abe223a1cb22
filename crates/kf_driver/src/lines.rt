//! Tables of several lines that are alike.
ghost use Rattle.std.specs.Prelude.{◌≡◌, ◌+◌, ◌-◌, ◌*◌, ◌^◌, ◌<◌, ◌≤◌, ℕ, length, IfErr, IfOk, MatchOption, Some, None};
ghost use Rattle.kf_groups.specs.declared.attribute.Group.{Group};
ghost use Rattle.kf_groups.specs.Keeps.{Keeps};
ghost use Rattle.kf_groups.specs.Making.{GroupMade};
ghost use Rattle.kf_groups.specs.TakenBack.{GroupRefused};
ghost use Rattle.kf_driver.specs.Places.{place_of, row_of};
ghost use Rattle.kf_driver.specs.Tables.{IsGroup, numbered};

use crate::line_tags::LineTags;
use crate::publishing::create_from;
use crate::table::{DriverTable, Rows};
use kf_core::{Key, Refusal};
use kf_files::{Fault, Page};
use kf_shared::{Editor, Naming};

impl LineTags {
    // The first tag of a line.
    fn first_of(&self, line: u32) -> u64
        ensures first { result ≡ line * self.now.files + self.now.first }
        ensures room { result + self.now.files ≤ 2 ^ 64 - 1 }
        ensures placed { (file : ℕ) → file < self.now.files
            → place_of self.now (line * self.now.files + self.now.first + file) ≡ Some (line, file) }
    {
        u64::from(line) * u64::from(self.files) + u64::from(self.first)
    }

    /// Makes the files of one line in a directory or, if a name is given, in a new subdirectory, as
    /// [`create_rows`] does. The attribute at place `i` of the rows, counted from 0, gets the tag of this
    /// line's file `i`. No other file of any line has this tag.
    ///
    /// Conditions: there are at most 64 rows, and a line has at least as many files as there are rows.
    ///
    /// Refusals, in order: those of [`kf_groups::create_group`], which says what each of them leaves behind.
    pub fn create_rows<N: Naming, T: Rows>(
        &self,
        editor: &mut Editor<'_, N>,
        dir: Key,
        name: Option<&[u8]>,
        line: u32,
        rows: &T,
    ) -> Result<Key, Refusal>
        requires few { length (T.attributes rows.now) ≤ 64 }
        requires within { length (T.attributes rows.now) ≤ self.now.files }
        ensures made { IfOk result (λ key. (group : Group) × IsGroup name.entry
            (numbered (line * self.now.files + self.now.first) (T.attributes rows.now)) group
            × GroupMade editor.old.state editor.new.state dir group key) }
        ensures placed { (file : ℕ) → file < self.now.files
            → place_of self.now (line * self.now.files + self.now.first + file) ≡ Some (line, file) }
        ensures refused { IfErr result (λ refusal. (group : Group) × IsGroup name.entry
            (numbered (line * self.now.files + self.now.first) (T.attributes rows.now)) group
            × GroupRefused editor.old editor.new dir group refusal) }
        ensures others { Keeps editor.old.state.tree editor.new.state.tree }
        ensures claims { editor.new.claims ≡ editor.old.claims }
    {
        create_from(editor, dir, name, self.first_of(line), rows)
    }

    // The line and the file to which this tag belongs, each counted from 0. None if the tag is below the
    // first one.
    fn place_of(&self, tag: u64) -> Option<(u64, u64)>
        ensures place { result ≡ place_of self.now tag }
    {
        let files = u64::from(self.files);
        let place = tag.checked_sub(u64::from(self.first))?;
        Some((place / files, place % files))
    }
}

/// The rows of several lines that are alike, followed by the rest of the rows. Each line is a table of its
/// own, whose tags begin at 0.
#[derive(Drop)]
pub struct Lines<'a, A, B> {
    tags: LineTags,
    lines: &'a [A],
    others: B,
}

impl<'a, A, B> Lines<'a, A, B> {
    /// The rows of these lines, in front of the other rows.
    pub fn new(tags: LineTags, lines: &'a [A], others: B) -> Lines<'a, A, B>
        ensures tags { result.tags ≡ tags }
        ensures lines { result.lines.now ≡ lines.now }
        ensures others { result.others ≡ others }
    {
        Lines {
            tags,
            lines,
            others,
        }
    }

    // The line that has the file with this tag, and the place of the file in that line.
    fn row_of(&self, tag: u64) -> Option<(&A, u64)>
        ensures row { MatchOption result (row_of self.now.tags self.now.lines.now tag ≡ None)
            (λ row. row_of self.now.tags self.now.lines.now tag ≡ Some (row.0.now, row.1)) }
    {
        let (line, file) = self.tags.place_of(tag)?;
        let line = self.lines.get(line as usize)?;
        Some((line, file))
    }
}

impl<A: DriverTable, B: DriverTable> DriverTable for Lines<'_, A, B> {
    ghost may_show = { λ rows tag filled. MatchOption (row_of rows.tags rows.lines.now tag)
        (B.may_show rows.others tag filled) (λ row. A.may_show row.0 row.1 filled) };

    ghost may_store = { λ rows tag bytes answer. MatchOption (row_of rows.tags rows.lines.now tag)
        (B.may_store rows.others tag bytes answer) (λ row. A.may_store row.0 row.1 bytes answer) };

    ghost may_read_at = { λ rows tag offset room answer. MatchOption (row_of rows.tags rows.lines.now tag)
        (B.may_read_at rows.others tag offset room answer)
        (λ row. A.may_read_at row.0 row.1 offset room answer) };

    ghost may_write_at = { λ rows tag offset bytes answer. MatchOption (row_of rows.tags rows.lines.now tag)
        (B.may_write_at rows.others tag offset bytes answer)
        (λ row. A.may_write_at row.0 row.1 offset bytes answer) };

    fn show(&self, tag: u64, page: &mut Page) -> Result<(), Fault> {
        match self.row_of(tag) {
            Some((line, file)) => line.show(file, page),
            None => self.others.show(tag, page),
        }
    }

    fn store(&self, tag: u64, bytes: &[u8]) -> Result<usize, Fault> {
        match self.row_of(tag) {
            Some((line, file)) => line.store(file, bytes),
            None => self.others.store(tag, bytes),
        }
    }

    fn read_at(&self, tag: u64, offset: u64, out: &mut [u8]) -> Result<usize, Fault> {
        match self.row_of(tag) {
            Some((line, file)) => line.read_at(file, offset, out),
            None => self.others.read_at(tag, offset, out),
        }
    }

    fn write_at(&self, tag: u64, offset: u64, bytes: &[u8]) -> Result<usize, Fault> {
        match self.row_of(tag) {
            Some((line, file)) => line.write_at(file, offset, bytes),
            None => self.others.write_at(tag, offset, bytes),
        }
    }
}
