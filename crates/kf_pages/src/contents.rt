//! What an open file keeps from one operation to the next, such as the text of its last show.

ghost use Rattle.std.specs.Prelude.{◌≡◌, ◌<◌, ◌≤◌, ℕ, List, Result, None, Some, false, length, ◌⊎◌, IsTrue, IsSome, IfOk};
ghost use Rattle.kf_core.specs.Calls.{GivenBack};
ghost use Rattle.kf_core.specs.declared.caller.Phase.TheVariants.{Running};
ghost use Rattle.kf_pages.specs.declared.ops.Fault.{Fault};
ghost use Rattle.kf_pages.specs.Binary.{ReadAt};
ghost use Rattle.kf_pages.specs.Files.{slice, new_file, file_after, is_changed, text_of, told_of, text_in_file};

use crate::binary_ops::BinaryOps;
use crate::event_numbers::EventNumbers;
use crate::ops::{Fault, FileError, Ops, Page};
use crate::page_holder::PageHolder;
use kf_core::ActiveCall;
use std::marker::Model;

/// What a file is opened for.
#[derive(Clone, Copy, Debug, PartialEq, Eq)]
pub struct Want {
    /// The file is opened for reading. That needs a bit of 0o444 in the node's mode.
    pub read: bool,
    /// The file is opened for writing. That needs a bit of 0o222 in the node's mode.
    pub write: bool,
}

impl Want {
    /// Only reads.
    pub const READ: Want = Want {
        read: true,
        write: false,
    };

    /// Only writes.
    pub const WRITE: Want = Want {
        read: false,
        write: true,
    };

    /// Reads and writes.
    pub const BOTH: Want = Want {
        read: true,
        write: true,
    };
}

/// What an open file keeps (`struct kernfs_open_file`): what it was opened for, its page, and the event
/// number that was taken for its last show, or for its last read of a binary attribute.
#[derive(Drop)]
pub struct Contents<P: PageHolder> {
    want: Want,
    // A show fills the page in place, so a text is copied only into the buffers of its readers.
    page: P,
    has_text: bool,
    number: u64,
}

impl<P: PageHolder> Model for Contents<P> {
    ghost use Rattle.kf_pages.specs.Files.{FileState};
    ghost use Rattle.kf_pages.specs.Held.{text_in};

    ghost Value = { FileState };

    ghost view = { λ c. record {
      want = c.want;
      text = text_in c.has_text (P.bytes c.page);
      number = c.number;
    } };
}

impl<P: PageHolder> Contents<P> {
    /// Makes the contents of a file that was just opened. What is on the page does not matter.
    pub fn new(want: Want, page: P) -> Contents<P>
        ensures new { result ≡ new_file want }
    {
        Contents {
            want,
            page,
            has_text: false,
            number: 0,
        }
    }

    /// What the file was opened for.
    pub fn want(&self) -> Want
        ensures known { result ≡ self.now.want }
    {
        self.want
    }

    /// The event number that was taken for the last show, or for the last read of a binary attribute.
    pub fn number(&self) -> u64
        ensures known { result ≡ self.now.number }
    {
        self.number
    }

    /// Whether a read at this offset is served from the buffered text.
    pub fn serves(&self, offset: u64) -> bool
        ensures serves { IsTrue result → (0 < offset) × IsSome self.now.text }
        ensures shows { result ≡ false → (offset ≡ 0) ⊎ (self.now.text ≡ None) }
    {
        offset != 0 && self.has_text
    }

    /// Whether there is a text.
    pub fn has_text(&self) -> bool
        ensures yes { IsTrue result → IsSome self.now.text }
        ensures no { result ≡ false → self.now.text ≡ None }
    {
        self.has_text
    }

    /// Returns at most `most` bytes of the buffered text, from the offset on.
    ///
    /// Condition: there is a text.
    pub fn text_from(&self, offset: u64, most: usize) -> &[u8]
        requires text { IsSome self.now.text }
        ensures bytes { result.now ≡ slice (text_in_file self.now) offset most }
    {
        let text = self.page.bytes();
        let start = text.len().min(offset as usize);
        let rest = &text[start..];
        &rest[..rest.len().min(most)]
    }

    /// Keeps the event number that was taken for a show, and forgets the text. This is the first half of a
    /// show that the caller makes.
    pub fn begin_show(&mut self, number: u64)
        ensures begun { self.new ≡ record self.old { text = None; number = number } }
    {
        self.number = number;
        self.has_text = false;
    }

    /// Whether the event number `now` differs from the one that the file keeps.
    pub fn is_changed(&self, now: u64) -> bool
        ensures told { result ≡ is_changed self.now (Some now) }
    {
        now != self.number
    }

    /// Returns the page.
    pub(crate) fn into_page(self) -> P {
        let Contents {
            want: _,
            page,
            has_text: _,
            number: _,
        } = self;
        page
    }

    /// Takes the event number, then shows the text anew on the page, and keeps both. After a fault there is
    /// no text.
    pub(crate) fn show<C: ActiveCall, O: Ops<C>, N: EventNumbers<C>>(
        &mut self,
        ops: &mut O,
        numbers: &mut N,
        call: &mut C,
        tag: u64,
    ) -> Result<(), FileError>
        requires running { (C.view_of call.old).phase ≡ Running }
        ensures given { N.gives numbers.old self.new.number numbers.new }
        ensures shown { (filled : Result (List ℕ) Fault) × O.shows ops.old tag filled ops.new
            × (self.new ≡ file_after self.old (Some (record { number = self.new.number; filled = filled })))
            × (result ≡ told_of (λ _. tt) (Some filled)) }
        ensures call { GivenBack (C.view_of call.old) (C.view_of call.new) }
    {
        self.number = numbers.now(call);
        self.has_text = false;
        self.page.show(ops, call, tag)?;
        self.has_text = true;
        Ok(())
    }

    /// Takes the event number and keeps it. Then it reads bytes from the offset on, if `out` has room for
    /// any.
    pub(crate) fn read_at<C: ActiveCall, B: BinaryOps<C>, N: EventNumbers<C>>(
        &mut self,
        ops: &mut B,
        numbers: &mut N,
        call: &mut C,
        tag: u64,
        offset: u64,
        out: &mut [u8],
    ) -> Result<usize, Fault>
        requires running { (C.view_of call.old).phase ≡ Running }
        ensures given { N.gives numbers.old self.new.number numbers.new }
        ensures read { ReadAt B.reads_at ops.old tag offset out.old out.new ops.new result }
        ensures fits { IfOk result (λ count. count ≤ length out.new) }
        ensures kept { self.new ≡ record self.old { number = self.new.number } }
        ensures call { GivenBack (C.view_of call.old) (C.view_of call.new) }
    {
        self.number = numbers.now(call);
        if out.is_empty() {
            return Ok(0);
        }
        ops.read_at(call, tag, offset, out)
    }
}

/// Puts the first 4,095 bytes on the page.
fn put(page: &mut Page, bytes: &[u8])
    ensures { page.new.items ≡ text_of bytes.now }
{
    let end = bytes.len().min(4095);
    page.clear();
    let _ = page.try_extend_from_slice(&bytes[..end]);
}

impl Contents<Page> {
    /// Keeps the first 4,095 bytes of the text that was shown. This is the second half of a show that the
    /// caller made.
    pub fn end_show(&mut self, shown: &[u8])
        ensures shown { self.new ≡ record self.old { text = Some (text_of shown.now) } }
    {
        put(&mut self.page, shown);
        self.has_text = true;
    }
}
