//! The table of a driver: one row for each attribute, with its callbacks.
ghost use Rattle.std.specs.Prelude.{◌≡◌, ◌==◌, ◌+◌, ◌-◌, ◌^◌, ◌<◌, ◌≤◌, ◌++◌, ℕ, List, [], ◌∷◌, length, Result, Err, IfOk, MatchBool};
ghost use Rattle.kf_pages.specs.declared.ops.Fault.{Fault};
ghost use Rattle.kf_pages.specs.Binary.{front_of};
ghost use Rattle.kf_pages.specs.Files.{filled_by, is_readable, is_writable};
ghost use Rattle.kf_groups.specs.declared.attribute.Attribute.{Attribute};
ghost use Rattle.kf_driver.specs.Tables.{TakesAll, numbered, visible_if};
ghost use Rattle.kf_pages.specs.Files.{unknown_tag};

use crate::callbacks::{Show, Store};
use arrayvec::ArrayVec;
use kf_files::{Fault, Page};
use kf_groups::Attribute;

/// A table of attributes, which finds each attribute by its tag.
pub trait DriverTable {
    /// A show of the attribute with this tag may fill the page with these bytes, or fail with this fault.
    ghost may_show: { Self → ℕ → Result (List ℕ) Fault → Type 0 };

    /// A store of these bytes into the attribute with this tag may return this result.
    ghost may_store: { Self → ℕ → List ℕ → Result ℕ Fault → Type 0 };

    /// A read of the attribute with this tag, from this offset on, into this many bytes of room, may return
    /// these bytes or fail with this fault.
    ghost may_read_at: { Self → ℕ → ℕ → ℕ → Result (List ℕ) Fault → Type 0 };

    /// A write of these bytes at this offset, to the attribute with this tag, may return this result.
    ghost may_write_at: { Self → ℕ → ℕ → List ℕ → Result ℕ Fault → Type 0 };

    /// Fills the empty page with the text of the attribute that has this tag.
    fn show(&self, tag: u64, page: &mut Page) -> Result<(), Fault>
        requires empty { page.old.items ≡ [] }
        ensures shown { may_show self.now tag (filled_by result page.new.items) };

    /// Stores these bytes (1 to 4,096) into the attribute that has this tag.
    fn store(&self, tag: u64, bytes: &[u8]) -> Result<usize, Fault>
        requires some { 0 < length bytes.now }
        requires fits { length bytes.now ≤ 4096 }
        ensures stored { may_store self.now tag bytes.now result };

    /// Reads the binary attribute that has this tag, from the offset on, into the front of `out`. Returns the
    /// number of bytes read. `out` has room for at least one byte.
    fn read_at(&self, tag: u64, offset: u64, out: &mut [u8]) -> Result<usize, Fault>
        requires some { 0 < length out.old }
        ensures fits { IfOk result (λ count. count ≤ length out.new) }
        ensures read { may_read_at self.now tag offset (length out.old) (front_of result out.new) };

    /// Writes these bytes (at least one) at the offset to the binary attribute that has this tag. Returns how
    /// many of them it took.
    fn write_at(&self, tag: u64, offset: u64, bytes: &[u8]) -> Result<usize, Fault>
        requires some { 0 < length bytes.now }
        ensures fits { IfOk result (λ count. count ≤ length bytes.now) }
        ensures written { may_write_at self.now tag offset bytes.now result };
}

/// A table of rows: the list of a device's attributes, each with its callbacks, which ends with [`End`]. Only
/// the row at place `i`, counted from 0, serves the file with the tag `i`.
/// [`create_rows`](crate::create_rows) makes these files, so you never write a tag.
pub trait Rows: DriverTable {
    /// The attributes of the rows, in their order.
    ghost attributes: { Self → List Attribute };

    /// Appends the attributes of the rows to the list, in their order. Their tags are numbered from `first`
    /// on.
    ///
    /// Conditions: the list has room for them, and their tags fit into 64 bits.
    fn push_attributes<'t>(&'t self, first: u64, list: &mut ArrayVec<Attribute<'t>, 64>)
        requires room { length list.old.items + length (attributes self.now) ≤ 64 }
        requires tags { first + length (attributes self.now) ≤ 2 ^ 64 - 1 }
        ensures pushed { list.new.items ≡ list.old.items ++ numbered first (attributes self.now) };
}

/// A row: an attribute with its callbacks, followed by the rest of the rows. [`rows!`](crate::rows) lets you
/// write the rows as a list.
#[derive(Drop)]
pub struct Row<'a, A, B> {
    attribute: Attribute<'a>,
    callbacks: A,
    others: B,
}

/// The end of a table: whatever the tag, each show, store, read and write fails with Fault 22 (`EINVAL`).
#[derive(Clone, Copy)]
pub struct End;

/// The attribute, with its mode set to 0 if it is not visible.
pub(crate) fn visible_if(is_visible: bool, attribute: Attribute) -> Attribute
    ensures mode { result ≡ visible_if is_visible attribute.entry }
{
    let mode = if is_visible { attribute.mode } else { 0 };
    Attribute { mode, ..attribute }
}

impl<'a, A: Show + Store, B> Row<'a, A, B> {
    /// The row of this attribute, in front of the other rows. The attribute's own tag is ignored, because the
    /// table numbers its rows.
    ///
    /// Conditions: the attribute's mode lets somebody read if and only if the callbacks show, and lets
    /// somebody write if and only if they take stores. So wrap the callbacks in [`crate::ReadOnly`] if the
    /// attribute is only read, and in [`crate::WriteOnly`] if it is only written.
    pub fn new(attribute: Attribute<'a>, callbacks: A, others: B) -> Row<'a, A, B>
        requires readable { is_readable attribute.mode ≡ A.can_show callbacks }
        requires writable { is_writable attribute.mode ≡ A.can_store callbacks }
        ensures attribute { result.attribute ≡ attribute.entry }
        ensures callbacks { result.callbacks ≡ callbacks }
        ensures others { result.others ≡ others }
    {
        Row {
            attribute,
            callbacks,
            others,
        }
    }
}

impl<'a, A, B> Row<'a, A, B> {
    /// The same row, but it gets no file if it is not visible on this device (`is_visible`). The rows after
    /// it keep their tags.
    pub fn visible(self, is_visible: bool) -> Row<'a, A, B>
        ensures attribute { result.attribute ≡ visible_if is_visible self.entry.attribute }
        ensures callbacks { result.callbacks ≡ self.entry.callbacks }
        ensures others { result.others ≡ self.entry.others }
    {
        let Row {
            attribute,
            callbacks,
            others,
        } = self;
        Row {
            attribute: visible_if(is_visible, attribute),
            callbacks,
            others,
        }
    }

    /// The callbacks of the row, for example to give a [`crate::Notifier`] its post.
    pub fn callbacks(&self) -> &A
        ensures callbacks { result.now ≡ self.now.callbacks }
    {
        &self.callbacks
    }

    /// The rows after this one.
    pub fn others(&self) -> &B
        ensures others { result.now ≡ self.now.others }
    {
        &self.others
    }
}

impl<A: Show + Store, B: Rows> Rows for Row<'_, A, B> {
    ghost attributes = { λ row. row.attribute ∷ B.attributes row.others };

    fn push_attributes<'t>(&'t self, first: u64, list: &mut ArrayVec<Attribute<'t>, 64>) {
        list.push(Attribute {
            tag: first,
            ..self.attribute
        });
        self.others.push_attributes(first + 1, list);
    }
}

impl<A: Show + Store, B: DriverTable> DriverTable for Row<'_, A, B> {
    ghost may_show = { λ row tag filled. MatchBool (tag == 0)
        (A.shows row.callbacks filled) (B.may_show row.others (tag - 1) filled) };

    ghost may_store = { λ row tag bytes answer. MatchBool (tag == 0)
        (TakesAll (A.takes row.callbacks bytes) bytes answer)
        (B.may_store row.others (tag - 1) bytes answer) };

    ghost may_read_at = { λ row tag offset room answer. MatchBool (tag == 0)
        (answer ≡ Err unknown_tag) (B.may_read_at row.others (tag - 1) offset room answer) };

    ghost may_write_at = { λ row tag offset bytes answer. MatchBool (tag == 0)
        (answer ≡ Err unknown_tag) (B.may_write_at row.others (tag - 1) offset bytes answer) };

    fn show(&self, tag: u64, page: &mut Page) -> Result<(), Fault> {
        if tag == 0 {
            return self.callbacks.show(page);
        }
        self.others.show(tag - 1, page)
    }

    fn store(&self, tag: u64, bytes: &[u8]) -> Result<usize, Fault> {
        if tag == 0 {
            self.callbacks.store(bytes)?;
            return Ok(bytes.len());
        }
        self.others.store(tag - 1, bytes)
    }

    fn read_at(&self, tag: u64, offset: u64, out: &mut [u8]) -> Result<usize, Fault> {
        if tag == 0 {
            return Err(Fault { number: 22 });
        }
        self.others.read_at(tag - 1, offset, out)
    }

    fn write_at(&self, tag: u64, offset: u64, bytes: &[u8]) -> Result<usize, Fault> {
        if tag == 0 {
            return Err(Fault { number: 22 });
        }
        self.others.write_at(tag - 1, offset, bytes)
    }
}

impl DriverTable for End {
    ghost may_show = { λ _ _ filled. filled ≡ Err unknown_tag };

    ghost may_store = { λ _ _ _ answer. answer ≡ Err unknown_tag };

    ghost may_read_at = { λ _ _ _ _ answer. answer ≡ Err unknown_tag };

    ghost may_write_at = { λ _ _ _ _ answer. answer ≡ Err unknown_tag };

    fn show(&self, _tag: u64, _page: &mut Page) -> Result<(), Fault> {
        Err(Fault { number: 22 })
    }

    fn store(&self, _tag: u64, _bytes: &[u8]) -> Result<usize, Fault> {
        Err(Fault { number: 22 })
    }

    fn read_at(&self, _tag: u64, _offset: u64, _out: &mut [u8]) -> Result<usize, Fault> {
        Err(Fault { number: 22 })
    }

    fn write_at(&self, _tag: u64, _offset: u64, _bytes: &[u8]) -> Result<usize, Fault> {
        Err(Fault { number: 22 })
    }
}

impl Rows for End {
    ghost attributes = { λ _. [] };

    fn push_attributes<'t>(&'t self, _first: u64, _list: &mut ArrayVec<Attribute<'t>, 64>) {}
}

/// Writes the rows of a table as a list, in order, and ends the list with [`End`]. So
/// `rows! { Row(MAX, max) if has_max, BinaryRow(DUMP, 64, dump) }` is
/// `Row::new(MAX, max, BinaryRow::new(DUMP, 64, dump, End)).visible(has_max)`. A row with `if` has a file
/// only if its condition is true ([`Row::visible`]).
#[macro_export]
macro_rules! rows {
    () => {
        $crate::End
    };
    ($row:ident($($part:expr),* $(,)?) if $visible:expr $(, $($rest:tt)*)?) => {
        $crate::$row::new($($part,)* $crate::rows!($($($rest)*)?)).visible($visible)
    };
    ($row:ident($($part:expr),* $(,)?) $(, $($rest:tt)*)?) => {
        $crate::$row::new($($part,)* $crate::rows!($($($rest)*)?))
    };
}
