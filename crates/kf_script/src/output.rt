//! The output of a script: the only way to the writer, which is not used again after a fault. Replies are
//! kept until more of the script is read, or until the next reply does not fit.

ghost use Rattle.std.specs.Prelude.{◌≡◌, ◌≤◌, ◌+◌, ◌-◌, ◌<◌, ◌⊎◌, [], true, false, length, take, drop, OnOk, OnErr, IfErr, IsErrOf, vec_len, vec_capacity};
ghost use Rattle.std.specs.Io.KnownBytes.{Appends, append_known};
ghost use Rattle.kf_script.specs.Progress.{GivesOut, WrittenOrCut, Grows, kept_limit, kept_with};

use super::behind::push_all;
use super::fault::RunFault;
use std::io::Write;

/// At most this many bytes of replies are kept: as many as a pipe takes in one piece.
pub const KEPT_LIMIT: usize = 4096;

/// Writes the bytes, and returns how many of them were written. These are fewer than all if a call fails or
/// takes no byte: such a call is not tried again.
fn give<W: Write>(writer: &mut W, bytes: &[u8]) -> usize
    ensures inside { result ≤ length bytes.now }
    ensures written { Appends (W.contents writer.old) (W.contents writer.new) (take result bytes.now) }
{
    let mut given = 0;
    while given < bytes.len() {
        match writer.write(&bytes[given..]) {
            Ok(0) | Err(_) => return given,
            Ok(count) => given += count,
        }
    }
    given
}

/// Writes all of the bytes. A call of write that fails, or that takes no byte, is a fault, and is not tried
/// again.
pub fn write_whole<W: Write>(writer: &mut W, bytes: &[u8]) -> Result<(), RunFault>
    ensures written { WrittenOrCut (W.contents writer.old) (W.contents writer.new) result bytes.now }
    ensures fault { IfErr result (λ fault. fault ≡ RunFault.Write) }
{
    if give(writer, bytes) < bytes.len() {
        return Err(RunFault::Write);
    }
    Ok(())
}

/// Removes this many bytes from the front.
fn remove_front(kept: &mut Vec<u8>, count: usize)
    requires { count ≤ vec_len kept.old }
    ensures items { kept.new.items ≡ drop count kept.old.items }
    ensures len { vec_len kept.new ≡ vec_len kept.old - count }
    ensures capacity { vec_capacity kept.new ≡ vec_capacity kept.old }
{
    let len = kept.len();
    kept.as_mut_slice().copy_within(count..len, 0);
    kept.truncate(len - count);
}

/// Writes the bytes that are kept. After a fault, those that were not written are still kept.
fn write_kept<W: Write>(writer: &mut W, kept: &mut Vec<u8>) -> Result<(), RunFault>
    ensures given { GivesOut (W.contents writer.old) (W.contents writer.new) kept.old.items kept.new.items }
    ensures empty { OnOk result (kept.new.items ≡ []) }
    ensures len { vec_len kept.new ≤ vec_len kept.old }
    ensures capacity { vec_capacity kept.new ≡ vec_capacity kept.old }
    ensures fault { IfErr result (λ fault. fault ≡ RunFault.Write) }
{
    let count = give(writer, kept.as_slice());
    remove_front(kept, count);
    if kept.is_empty() {
        Ok(())
    } else {
        Err(RunFault::Write)
    }
}

/// The writer of one run, and the replies that are not written yet. While this has the writer, nothing else
/// can write, and no write follows one that failed.
#[derive(Drop)]
pub struct Output<'a, W> {
    writer: &'a mut W,
    kept: &'a mut Vec<u8>,
    has_failed: bool,
    ghost few: { vec_len kept.now ≤ 4096 },
    ghost room: { 4096 ≤ vec_capacity kept.now },
}

impl<'a, W: Write> Output<'a, W> {
    /// Borrows the writer for one run, and a buffer for the bytes that are kept.
    ///
    /// Conditions: the buffer is empty, and has room for 4,096 bytes.
    pub fn new(writer: &'a mut W, kept: &'a mut Vec<u8>) -> Output<'a, W>
        requires none { kept.old.items ≡ [] }
        requires room { 4096 ≤ vec_capacity kept.old }
        ensures lent { result.writer.ghost_name ≡ writer.entry.ghost_name }
        ensures writer { result.writer.now ≡ writer.old }
        ensures none { result.kept.now.items ≡ [] }
        ensures works { result.has_failed ≡ false }
    {
        Output {
            writer,
            kept,
            has_failed: false,
        }
    }

    /// Writes the bytes that are kept, in as few calls of write as the writer allows. Once a write has
    /// failed, it writes nothing.
    pub fn flush(&mut self) -> Result<(), RunFault>
        ensures lent { self.new.writer.ghost_name ≡ self.old.writer.ghost_name }
        ensures given { GivesOut (W.contents self.old.writer.now) (W.contents self.new.writer.now)
            self.old.kept.now.items self.new.kept.now.items }
        ensures empty { OnOk result (self.new.kept.now.items ≡ []) }
        ensures fault { IfErr result (λ fault. fault ≡ RunFault.Write) }
        ensures failed { OnErr result (self.new.has_failed ≡ true) }
        ensures unwritten { self.old.has_failed ≡ true →
            IsErrOf result RunFault.Write × (self.new.writer.now ≡ self.old.writer.now) }
    {
        if self.has_failed {
            return Err(RunFault::Write);
        }
        let result = write_kept(self.writer, self.kept);
        self.has_failed = result.is_err();
        result
    }

    /// Whether this many more bytes can be kept: there is room for them, and no write has failed.
    #[inline(always)]
    fn has_room(&self, count: usize) -> bool
        ensures fits { result ≡ true → vec_len self.now.kept.now + count ≤ kept_limit }
        ensures works { result ≡ true → self.now.has_failed ≡ false }
        ensures full { result ≡ false → (self.now.has_failed ≡ true)
            ⊎ (kept_limit < vec_len self.now.kept.now + count) }
    {
        !self.has_failed && count <= KEPT_LIMIT - self.kept.len()
    }

    /// Keeps the bytes, after those that are kept already. If there is no room for the new bytes, those kept
    /// already are written first. Then the new bytes are written too, if they are more than `KEPT_LIMIT`.
    #[inline(always)]
    pub fn write(&mut self, bytes: &[u8]) -> Result<(), RunFault>
        ensures lent { self.new.writer.ghost_name ≡ self.old.writer.ghost_name }
        ensures written { WrittenOrCut (append_known (W.contents self.old.writer.now) self.old.kept.now.items)
            (append_known (W.contents self.new.writer.now) self.new.kept.now.items) result bytes.now }
        ensures whole { OnOk result
            (self.new.kept.now.items ≡ kept_with self.old.kept.now.items bytes.now) }
        ensures grew { Grows (W.contents self.old.writer.now) (W.contents self.new.writer.now) }
        ensures fault { IfErr result (λ fault. fault ≡ RunFault.Write) }
        ensures failed { OnErr result (self.new.has_failed ≡ true) }
        ensures unwritten { self.old.has_failed ≡ true →
            IsErrOf result RunFault.Write × (self.new.writer.now ≡ self.old.writer.now) }
    {
        if !self.has_room(bytes.len()) {
            self.flush()?;
            if bytes.len() > KEPT_LIMIT {
                let result = write_whole(self.writer, bytes);
                self.has_failed = result.is_err();
                return result;
            }
        }
        push_all(self.kept, bytes);
        Ok(())
    }
}
