//! Binary attributes with their callbacks, one row for each attribute.
ghost use Rattle.std.specs.Prelude.{◌≡◌, ◌==◌, ◌-◌, ◌<◌, ◌≤◌, ℕ, Bool, true, false, List, ◌∷◌, length, Ok, Err, Result, IfOk, MatchBool};
ghost use Rattle.kf_pages.specs.declared.ops.Fault.{Fault};
ghost use Rattle.kf_pages.specs.Binary.{front_of};
ghost use Rattle.kf_pages.specs.Files.{is_writable, slice};
ghost use Rattle.kf_driver.specs.Buffers.{GivesWithin, TakesWithin};
ghost use Rattle.kf_driver.specs.Tables.{no_callback, visible_if};
ghost use Rattle.kf_pages.specs.Files.{unknown_tag};

use crate::buffers::{read_from_buffer, write_to_buffer};
use crate::table::{DriverTable, Rows, visible_if};
use arrayvec::ArrayVec;
use kf_files::{Fault, Page};
use kf_groups::Attribute;
use std::sync::{Mutex, Wait};

/// What a binary attribute reads and writes: bytes at an offset, without a page (`read` and `write` of
/// `struct bin_attribute`). Any number of threads may call both at once.
pub trait BinaryCallbacks {
    /// A read from this offset on, into this many bytes of room, may return these bytes or fail with this
    /// fault. If a driver does not define this, any result is allowed.
    ghost gives: { Self → ℕ → ℕ → Result (List ℕ) Fault → Type 0 } = { λ _ _ _ _. Unit {0} };

    /// A write of these bytes at this offset may return this result. If a driver does not define this, any
    /// result is allowed.
    ghost takes: { Self → ℕ → List ℕ → Result ℕ Fault → Type 0 } = { λ _ _ _ _. Unit {0} };

    /// Whether the attribute takes writes at all.
    ghost writes: { Self → Bool } = { λ _. true };

    /// Copies the bytes, from the offset on, to the front of `out`, or fails with a fault. Returns how many
    /// it copied, which is 0 past the end. `out` has room for at least one byte.
    fn read_at(&self, offset: u64, out: &mut [u8]) -> Result<usize, Fault>
        requires some { 0 < length out.old }
        ensures fits { IfOk result (λ count. count ≤ length out.new) }
        ensures read { gives self.now offset (length out.old) (front_of result out.new) };

    /// Takes these bytes (at least one) at the offset, or fails with a fault. Returns how many it took from
    /// their front. It is never called for a file that nobody may write.
    fn write_at(&self, offset: u64, bytes: &[u8]) -> Result<usize, Fault>
        requires some { 0 < length bytes.now }
        ensures fits { IfOk result (λ count. count ≤ length bytes.now) }
        ensures written { takes self.now offset bytes.now result };
}

/// A row: a binary attribute of this many bytes with its callbacks, followed by the rest of the rows.
/// [`rows!`](crate::rows) lets you write the rows as a list.
#[derive(Drop)]
pub struct BinaryRow<'a, A, B> {
    attribute: Attribute<'a>,
    size: u64,
    callbacks: A,
    others: B,
}

impl<'a, A: BinaryCallbacks, B> BinaryRow<'a, A, B> {
    /// The row of this attribute, in front of the other rows. The attribute's own tag is ignored, because the
    /// table numbers its rows. The callbacks never see a byte past the size: a read from there on returns no
    /// bytes, and a write there fails with Fault 6 (`ENXIO`). If there is no such end, pass `u64::MAX` as the
    /// size.
    ///
    /// Condition: the attribute's mode lets somebody write if and only if the callbacks take writes.
    pub fn new(attribute: Attribute<'a>, size: u64, callbacks: A, others: B) -> BinaryRow<'a, A, B>
        requires writable { is_writable attribute.mode ≡ A.writes callbacks }
        ensures attribute { result.attribute ≡ attribute.entry }
        ensures size { result.size ≡ size }
        ensures callbacks { result.callbacks ≡ callbacks }
        ensures others { result.others ≡ others }
    {
        BinaryRow {
            attribute,
            size,
            callbacks,
            others,
        }
    }
}

impl<'a, A, B> BinaryRow<'a, A, B> {
    /// The same row, but it gets no file if it is not visible on this device (`is_bin_visible`). The rows
    /// after it keep their tags.
    pub fn visible(self, is_visible: bool) -> BinaryRow<'a, A, B>
        ensures attribute { result.attribute ≡ visible_if is_visible self.entry.attribute }
        ensures size { result.size ≡ self.entry.size }
        ensures callbacks { result.callbacks ≡ self.entry.callbacks }
        ensures others { result.others ≡ self.entry.others }
    {
        let BinaryRow {
            attribute,
            size,
            callbacks,
            others,
        } = self;
        BinaryRow {
            attribute: visible_if(is_visible, attribute),
            size,
            callbacks,
            others,
        }
    }
}

impl<A: BinaryCallbacks, B: Rows> Rows for BinaryRow<'_, A, B> {
    ghost attributes = { λ row. row.attribute ∷ B.attributes row.others };

    fn push_attributes<'t>(&'t self, first: u64, list: &mut ArrayVec<Attribute<'t>, 64>) {
        list.push(Attribute {
            tag: first,
            ..self.attribute
        });
        self.others.push_attributes(first + 1, list);
    }
}

impl<A: BinaryCallbacks, B: DriverTable> DriverTable for BinaryRow<'_, A, B> {
    ghost may_show = { λ row tag filled. MatchBool (tag == 0)
        (filled ≡ Err unknown_tag) (B.may_show row.others (tag - 1) filled) };

    ghost may_store = { λ row tag bytes answer. MatchBool (tag == 0)
        (answer ≡ Err unknown_tag) (B.may_store row.others (tag - 1) bytes answer) };

    ghost may_read_at = { λ row tag offset room answer. MatchBool (tag == 0)
        (GivesWithin (A.gives row.callbacks offset) row.size offset room answer)
        (B.may_read_at row.others (tag - 1) offset room answer) };

    ghost may_write_at = { λ row tag offset bytes answer. MatchBool (tag == 0)
        (TakesWithin (A.takes row.callbacks offset) row.size offset bytes answer)
        (B.may_write_at row.others (tag - 1) offset bytes answer) };

    fn show(&self, tag: u64, page: &mut Page) -> Result<(), Fault> {
        if tag == 0 {
            return Err(Fault { number: 22 });
        }
        self.others.show(tag - 1, page)
    }

    fn store(&self, tag: u64, bytes: &[u8]) -> Result<usize, Fault> {
        if tag == 0 {
            return Err(Fault { number: 22 });
        }
        self.others.store(tag - 1, bytes)
    }

    fn read_at(&self, tag: u64, offset: u64, out: &mut [u8]) -> Result<usize, Fault> {
        if tag != 0 {
            return self.others.read_at(tag - 1, offset, out);
        }
        if offset >= self.size {
            return Ok(0);
        }
        let room = out.len().min((self.size - offset) as usize);
        self.callbacks.read_at(offset, &mut out[..room])
    }

    fn write_at(&self, tag: u64, offset: u64, bytes: &[u8]) -> Result<usize, Fault> {
        if tag != 0 {
            return self.others.write_at(tag - 1, offset, bytes);
        }
        if offset >= self.size {
            return Err(Fault { number: 6 });
        }
        let count = bytes.len().min((self.size - offset) as usize);
        self.callbacks.write_at(offset, &bytes[..count])
    }
}

/// Bytes that are only read (`BIN_ATTR_SIMPLE_RO`). A write fails with Fault 5 (`EIO`), and changes nothing.
#[derive(Clone, Copy)]
pub struct Bytes<'a>(pub &'a [u8]);

impl BinaryCallbacks for Bytes<'_> {
    ghost gives = { λ bytes offset room answer. answer ≡ Ok (slice bytes.0.now offset room) };

    ghost takes = { λ _ _ _ answer. answer ≡ Err no_callback };

    ghost writes = { λ _. false };

    fn read_at(&self, offset: u64, out: &mut [u8]) -> Result<usize, Fault> {
        Ok(read_from_buffer(self.0, offset, out))
    }

    fn write_at(&self, _offset: u64, _bytes: &[u8]) -> Result<usize, Fault> {
        Err(Fault { number: 5 })
    }
}

/// Bytes in memory that are read and written under a lock, so no read sees half of a write. Any thread may
/// write them at any time, so no clause says what they are. The lock is a leaf: a thread that has it takes no
/// other lock and waits for nobody.
#[derive(Drop)]
pub struct Buffer<'a, R> {
    rt: &'a R,
    bytes: Mutex<Vec<u8>>,
}

impl<'a, R> Buffer<'a, R> {
    /// Makes the attribute of these bytes. Their number never changes.
    pub fn new(rt: &'a R, bytes: Vec<u8>) -> Buffer<'a, R> {
        Buffer {
            rt,
            bytes: Mutex::new(bytes),
        }
    }
}

impl<R: Wait> BinaryCallbacks for Buffer<'_, R> {
    fn read_at(&self, offset: u64, out: &mut [u8]) -> Result<usize, Fault> {
        let bytes = self.bytes.lock(self.rt);
        Ok(read_from_buffer(bytes.as_slice(), offset, out))
    }

    fn write_at(&self, offset: u64, bytes: &[u8]) -> Result<usize, Fault> {
        let mut buffer = self.bytes.lock(self.rt);
        Ok(write_to_buffer(buffer.as_mut_slice(), offset, bytes))
    }
}
