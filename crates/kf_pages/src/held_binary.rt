//! Reads and writes at an offset of a file that was opened with a hold: a binary attribute, which has no
//! page.

ghost use Rattle.std.specs.Prelude.{◌≡◌, ◌≤◌, length, IfOk};
ghost use Rattle.kf_core.specs.Calls.{Visits, GivenBack};
ghost use Rattle.kf_core.specs.declared.caller.Phase.TheVariants.{Running};
ghost use Rattle.kf_pages.specs.Binary.{ReadAt, ReadsAt, WrittenAt};
ghost use Rattle.kf_pages.specs.Files.{Writes};

use crate::binary_ops::BinaryOps;
use crate::event_numbers::EventNumbers;
use crate::held_file::HeldFile;
use crate::hold::put_back;
use crate::ops::{Fault, FileError};
use crate::page_holder::PageHolder;
use kf_core::{ActiveCall, Guard, Refusal};

/// Passes the bytes to one write at the offset, if there are any.
fn write_some<C: ActiveCall, B: BinaryOps<C>>(
    ops: &mut B,
    call: &mut C,
    tag: u64,
    offset: u64,
    bytes: &[u8],
) -> Result<usize, Fault>
    requires running { (C.view_of call.old).phase ≡ Running }
    ensures written { WrittenAt B.writes_at ops.old tag offset bytes.now ops.new result }
    ensures fits { IfOk result (λ count. count ≤ length bytes.now) }
    ensures call { GivenBack (C.view_of call.old) (C.view_of call.new) }
{
    if bytes.is_empty() {
        return Ok(0);
    }
    ops.write_at(call, tag, offset, bytes)
}

impl<G: Guard, P: PageHolder> HeldFile<G, P> {
    /// Reads bytes from the offset on into the front of `out`, by one read of a binary attribute
    /// (`sysfs_kf_bin_read`). It first takes the event number, which the file keeps; both are done under a
    /// call. It returns how many bytes the callback says it read, or the callback's fault as `Callback`. If
    /// `out` has no room, it returns 0 and makes no callback, but it needs a live node too. The text of such
    /// a read is not kept, and a buffered text stays.
    ///
    /// Condition: the file's hold may try for a reference, which `open` and each function here ensure.
    ///
    /// Refusals, in order: `Access` if the file was not opened for reading, `NoDevice` if the node is
    /// not live; both change nothing.
    pub fn read_at<B: BinaryOps<G::Call>, N: EventNumbers<G::Call>>(
        &mut self,
        guard: &mut G,
        ops: &mut B,
        numbers: &mut N,
        offset: u64,
        out: &mut [u8],
    ) -> Result<usize, FileError>
        requires may_enter { G.may_enter guard.old self.old.hold }
        ensures reads { ReadsAt
            (Visits G.enters G.refuses G.leaves G.Call.view_of
            ((ops.new ≡ ops.old) × (numbers.new ≡ numbers.old) × (out.new ≡ out.old))
            (λ read. N.gives numbers.old read.number numbers.new
            × ReadAt B.reads_at ops.old self.old.tag offset out.old out.new ops.new read.answer)
            guard.old self.old.hold guard.new self.new.hold)
            self.old.state result self.new.state }
        ensures fits { IfOk result (λ count. count ≤ length out.new) }
        ensures same { self.new ≡ record self.old { hold = self.new.hold; state = self.new.state } }
        ensures may_enter { G.may_enter guard.new self.new.hold }
    {
        if !self.contents.want().read {
            return Err(FileError::Refused(Refusal::Access));
        }
        let Some(hold) = self.hold.take() else {
            unreachable!()
        };
        match guard.enter(hold) {
            Ok(mut call) => {
                let read = self
                    .contents
                    .read_at(ops, numbers, &mut call, self.tag, offset, out);
                let hold = guard.leave(call);
                put_back(&mut self.hold, hold);
                Ok(read?)
            }
            Err(hold) => {
                put_back(&mut self.hold, hold);
                Err(FileError::Refused(Refusal::NoDevice))
            }
        }
    }

    /// Passes all the bytes to one write of a binary attribute at the offset, under a call. It returns what
    /// the callback returned, a fault as `Callback` (`sysfs_kf_bin_write`). A write of no bytes returns 0 and
    /// makes no callback, but it needs a live node too. The file stays as it was.
    ///
    /// Condition: the file's hold may try for a reference, which `open` and each function here ensure.
    ///
    /// Refusals, in order: `Access` if the file was not opened for writing, `NoDevice` if the node is
    /// not live.
    pub fn write_at<B: BinaryOps<G::Call>>(
        &mut self,
        guard: &mut G,
        ops: &mut B,
        offset: u64,
        bytes: &[u8],
    ) -> Result<usize, FileError>
        requires may_enter { G.may_enter guard.old self.old.hold }
        ensures writes { Writes
            (Visits G.enters G.refuses G.leaves G.Call.view_of (ops.new ≡ ops.old)
            (WrittenAt B.writes_at ops.old self.old.tag offset bytes.now ops.new)
            guard.old self.old.hold guard.new self.new.hold)
            self.old.state result }
        ensures fits { IfOk result (λ count. count ≤ length bytes.now) }
        ensures same { self.new ≡ record self.old { hold = self.new.hold } }
        ensures may_enter { G.may_enter guard.new self.new.hold }
    {
        if !self.contents.want().write {
            return Err(FileError::Refused(Refusal::Access));
        }
        let Some(hold) = self.hold.take() else {
            unreachable!()
        };
        match guard.enter(hold) {
            Ok(mut call) => {
                let written = write_some(ops, &mut call, self.tag, offset, bytes);
                let hold = guard.leave(call);
                put_back(&mut self.hold, hold);
                Ok(written?)
            }
            Err(hold) => {
                put_back(&mut self.hold, hold);
                Err(FileError::Refused(Refusal::NoDevice))
            }
        }
    }
}
