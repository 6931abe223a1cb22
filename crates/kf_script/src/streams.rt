//! The streams of one run: its reader and its output. They are the only way to the reader, and count each
//! call of read. When such a call is made, no output is kept back.

ghost use Rattle.std.specs.Prelude.{◌≡◌, ◌≤◌, ◌<◌, ◌+◌, [], length, take, MatchResult, OnErr, IfErr, IfOk, IsErrOf};
ghost use Rattle.std.specs.Io.KnownBytes.{Consumes, IsAtEnd, Keeps};

use super::fault::RunFault;
use super::output::Output;
use std::io::Read;

/// How many calls of read one run may make. An attempt to make another one is a read fault.
pub const READ_LIMIT: u32 = 16_777_216;

/// The reader and the output of one run. While this has the reader, nothing else can read. So each call of
/// read is counted, none is made while replies of this run are kept, and none follows a call that failed.
#[derive(Drop)]
pub struct Streams<'a, R, W> {
    reader: &'a mut R,
    /// How many calls of read may still be made: 0 after one that failed.
    left: u32,
    pub output: Output<'a, W>,
}

impl<'a, R: Read, W> Streams<'a, R, W> {
    /// Borrows the reader for one run of at most this many calls of read, and takes the output of the same
    /// run.
    pub fn new(reader: &'a mut R, calls: u32, output: Output<'a, W>) -> Streams<'a, R, W>
        ensures lent { result.reader.ghost_name ≡ reader.entry.ghost_name }
        ensures reader { result.reader.now ≡ reader.old }
        ensures left { result.left ≡ calls }
        ensures output { result.output ≡ output.entry }
    {
        Streams {
            reader,
            left: calls,
            output,
        }
    }

    /// Makes one call of read and counts it, if a call is left, and returns the number of bytes. This number
    /// is 0 only at the end of the input.
    ///
    /// Condition: `chunk` is not empty, and no reply is kept, since a call of read may wait.
    pub fn read(&mut self, chunk: &mut [u8]) -> Result<usize, RunFault>
        requires room { 0 < length chunk.old }
        requires told { self.old.output.kept.now.items ≡ [] }
        ensures lent { self.new.reader.ghost_name ≡ self.old.reader.ghost_name }
        ensures output { self.new.output ≡ self.old.output }
        ensures counted { IfOk result (λ _. self.new.left + 1 ≡ self.old.left) }
        ensures stopped { OnErr result (self.new.left ≡ 0) }
        ensures unread { self.old.left ≡ 0 → IsErrOf result RunFault.Read
            × (self.new.reader.now ≡ self.old.reader.now) }
        ensures inside { IfOk result (λ count. count ≤ length chunk.new) }
        ensures bytes { MatchResult result
            (λ count. Consumes (R.remaining self.old.reader.now) (R.remaining self.new.reader.now)
            (take count chunk.new)
            × (count ≡ 0 → IsAtEnd (R.remaining self.new.reader.now)))
            (λ _. Keeps (R.remaining self.old.reader.now) (R.remaining self.new.reader.now)) }
        ensures fault { IfErr result (λ fault. fault ≡ RunFault.Read) }
    {
        if self.left == 0 {
            return Err(RunFault::Read);
        }
        match self.reader.read(chunk) {
            Ok(count) => {
                self.left -= 1;
                Ok(count)
            }
            Err(_) => {
                self.left = 0;
                Err(RunFault::Read)
            }
        }
    }
}
