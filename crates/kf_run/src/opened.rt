//! Runs the script if it could be opened, and otherwise prints why not.

ghost use Rattle.std.specs.Prelude.{◌≡◌, ◌≢◌, ◌≤◌, ◌⊎◌, IsOkAnd, IsErrAnd};
ghost use Rattle.std.specs.IoError.{error_kind};
ghost use Rattle.std.specs.Io.KnownBytes.{Keeps};
ghost use Rattle.std.specs.declared.io.ErrorKind.{ErrorKind};
ghost use Rattle.kf_script.specs.declared.fault.RunFault.{RunFault};
ghost use Rattle.kf_run.specs.Programs.{Named, RanBy, StoppedBy};

use crate::arguments::Asked;
use crate::program::{run_asked, tell};
use kf_script::{RunFault, write_whole};
use std::alloc::Global;
use std::io::{self, ErrorKind, Read, Write};
use std::sync::Wait;
use std::thread::Threads;

/// Why a script cannot be opened.
fn reason(kind: ErrorKind) -> &'static [u8] {
    match kind {
        ErrorKind::NotFound => b"no such file",
        ErrorKind::PermissionDenied => b"permission denied",
        ErrorKind::IsADirectory => b"is a directory",
        ErrorKind::NotADirectory => b"a part of its path is not a directory",
        ErrorKind::InvalidFilename => b"the name is too long",
        ErrorKind::FilesystemLoop => b"too many symbolic links in its path",
        _ => b"the system refused to open it",
    }
}

/// Prints that the script cannot be opened, and why.
fn refuse<F: Write>(fault: &mut F, name: &str, kind: ErrorKind) {
    let _ = write_whole(fault, b"kernfs_run: cannot open the script ");
    let _ = write_whole(fault, name.as_bytes());
    let _ = write_whole(fault, b": ");
    let _ = write_whole(fault, reason(kind));
    let _ = write_whole(fault, b"\n");
}

/// Runs the opened script as the arguments ask, and returns the program's exit status: that of [`run_asked`].
/// If the script could not be opened, nothing is run, and the status is 2. But if it could not be opened
/// because memory was refused, the status is 1, as for every memory fault.
pub(crate) fn run_opened<H: Threads + Wait + Sync, R: Read, W: Write, F: Write>(
    rt: &H,
    alloc: Global,
    asked: &Asked,
    opened: &mut io::Result<R>,
    out: &mut W,
    fault: &mut F,
) -> u8
    ensures status { result ≤ 2 }
    ensures ran { result ≡ 0 → IsOkAnd opened.old (λ reader. IsOkAnd opened.new (λ left.
        RanBy asked.now.workers asked.now.limits.slots (R.remaining reader) (R.remaining left)
        (W.contents out.old) (W.contents out.new))) }
    ensures quiet { result ≡ 0 → Keeps (F.contents fault.old) (F.contents fault.new) }
    ensures fault { result ≡ 1 → (reason : RunFault)
        × Named reason (F.contents fault.old) (F.contents fault.new)
        × (IsOkAnd opened.old (λ reader. IsOkAnd opened.new (λ left.
        StoppedBy reason asked.now.workers asked.now.limits.slots (R.remaining reader) (R.remaining left)
        (W.contents out.old) (W.contents out.new)))
        ⊎ ((reason ≡ RunFault.Memory)
        × IsErrAnd opened.old (λ error. error_kind error ≡ ErrorKind.OutOfMemory)
        × Keeps (W.contents out.old) (W.contents out.new))) }
    ensures refused { result ≡ 2 → IsErrAnd opened.old (λ error. error_kind error ≢ ErrorKind.OutOfMemory)
        × Keeps (W.contents out.old) (W.contents out.new) }
{
    match opened {
        Ok(reader) => run_asked(rt, alloc, asked, reader, out, fault),
        Err(error) => match error.kind() {
            ErrorKind::OutOfMemory => tell(RunFault::Memory, fault),
            kind => {
                refuse(fault, asked.script.unwrap_or("-"), kind);
                2
            }
        },
    }
}
