//! Reads a whole script before any line runs, as a run with workers needs it.

ghost use Rattle.std.specs.Prelude.{◌≡◌, ◌≢◌, ◌≤◌, ◌++◌, ℕ, List, IfErr, IfOk, OnOk, vec_len};
ghost use Rattle.std.specs.Io.KnownBytes.{Consumes, IsAtEnd};

use kf_script::RunFault;
use std::alloc::Global;
use std::io::Read;

/// The length of the longest script that is read whole, in bytes.
const SCRIPT_LIMIT: usize = 1_048_576;

/// At most this many calls of read are made for one script. If the script is not at its end then, that is a
/// read fault.
const READ_LIMIT: u32 = 16_777_216;

/// How many bytes one call of read may return.
const CHUNK: usize = 16_384;

/// Reads once, and appends the bytes to the script. It returns the number of bytes, which is 0 only at the
/// end of the input.
fn read_more<R: Read>(reader: &mut R, script: &mut Vec<u8>) -> Result<usize, RunFault>
    ensures more { OnOk result ((bytes : List ℕ)
        × Consumes (R.remaining reader.old) (R.remaining reader.new) bytes
        × (script.new.items ≡ script.old.items ++ bytes)) }
    ensures end { IfOk result (λ count. count ≡ 0 → IsAtEnd (R.remaining reader.new)) }
    ensures fits { OnOk result (vec_len script.new ≤ 1048576) }
    ensures fault { IfErr result (λ fault. fault ≢ RunFault.Write) }
{
    let mut chunk = [0u8; CHUNK];
    let Ok(count) = reader.read(&mut chunk) else {
        return Err(RunFault::Read);
    };
    if script.len() > SCRIPT_LIMIT || count > SCRIPT_LIMIT - script.len() {
        return Err(RunFault::Read);
    }
    match script.extend_from_slice(&chunk[..count]) {
        Ok(()) => Ok(count),
        Err(_) => Err(RunFault::Memory),
    }
}

/// Reads a script to its end, and returns all bytes that the reader returned.
///
/// Faults: `Read`, if a call of read failed, if the script has more than 1,048,576 bytes, or if it
/// was not at its end after 16,777,216 calls of read; `Memory`, if memory for it was refused.
pub fn read_script<R: Read>(alloc: Global, reader: &mut R) -> Result<Vec<u8>, RunFault>
    ensures read { IfOk result
        (λ script. Consumes (R.remaining reader.old) (R.remaining reader.new) script.items) }
    ensures end { OnOk result (IsAtEnd (R.remaining reader.new)) }
    ensures fits { IfOk result (λ script. vec_len script ≤ 1048576) }
    ensures fault { IfErr result (λ fault. fault ≢ RunFault.Write) }
{
    let mut script = Vec::new(alloc);
    'reads: for _ in 0..READ_LIMIT {
        if read_more(reader, &mut script)? == 0 {
            return Ok(script);
        }
    }
    Err(RunFault::Read)
}
