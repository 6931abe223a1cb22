//! The program's body: its arguments, its exit status, and what it prints about a fault.

ghost use Rattle.std.specs.Prelude.{◌≡◌, ◌≢◌, ◌≤◌, ◌⊎◌, IfErr, OnOk};
ghost use Rattle.std.specs.Io.KnownBytes.{Keeps};
ghost use Rattle.clap.specs.Words.{kind_of};
ghost use Rattle.clap.specs.declared.error.kind.ErrorKind.{ErrorKind};
ghost use Rattle.kf_run.specs.Asking.{IsMistake};
ghost use Rattle.kf_run.specs.Programs.{Named, Ran, StoppedFor, RanBy, StoppedBy, fault_line as line_of};

use crate::arguments::Asked;
use clap::Error;
use clap::error::ErrorKind;
use kf_core::Limits;
use kf_plain::PlainBoard;
use kf_script::{RunFault, run_script, write_whole};
use kf_workers::run_whole;
use std::alloc::Global;
use std::io::{Read, Write};
use std::sync::Wait;
use std::thread::Threads;

/// Prints why the arguments are refused, or the help or the version that they ask for. It returns the exit
/// status.
pub(crate) fn answer_error<W: Write, F: Write>(
    alloc: Global,
    error: &Error,
    out: &mut W,
    fault: &mut F,
) -> u8
    ensures status { result ≤ 2 }
    ensures shown { result ≡ 0 → (¬ IsMistake (kind_of error.now))
        × Keeps (F.contents fault.old) (F.contents fault.new) }
    ensures fault { result ≡ 1 → (reason : RunFault)
        × Named reason (F.contents fault.old) (F.contents fault.new)
        × (((reason ≡ RunFault.Memory) × Keeps (W.contents out.old) (W.contents out.new))
        ⊎ ((reason ≡ RunFault.Write) × (¬ IsMistake (kind_of error.now)))) }
    ensures refused { result ≡ 2 → IsMistake (kind_of error.now) × (kind_of error.now ≢ ErrorKind.OutOfMemory)
        × Keeps (W.contents out.old) (W.contents out.new) }
{
    if error.kind() == ErrorKind::OutOfMemory {
        return tell(RunFault::Memory, fault);
    }
    let Ok(text) = error.to_string(alloc) else {
        return tell(RunFault::Memory, fault);
    };
    if error.use_stderr() {
        let _ = write_whole(fault, text.as_bytes());
        return 2;
    }
    match write_whole(out, text.as_bytes()) {
        Ok(()) => 0,
        Err(reason) => tell(reason, fault),
    }
}

/// The line that names a fault.
fn fault_line(reason: RunFault) -> &'static [u8]
    ensures { result.now ≡ line_of reason }
{
    match reason {
        RunFault::Read => b"kernfs_run: read\n",
        RunFault::Write => b"kernfs_run: write\n",
        RunFault::Memory => b"kernfs_run: memory\n",
    }
}

/// Prints why the run stopped, and returns the exit status for that. If the reason cannot be written either,
/// only the status shows that the run stopped.
pub(crate) fn tell<F: Write>(reason: RunFault, fault: &mut F) -> u8
    ensures status { result ≡ 1 }
    ensures named { Named reason (F.contents fault.old) (F.contents fault.new) }
{
    let _written = write_whole(fault, fault_line(reason));
    1
}

/// Runs the reader's script with one caller, on a new back end.
fn run_limits<R: Read, W: Write>(
    alloc: Global,
    limits: Limits,
    reader: &mut R,
    out: &mut W,
) -> Result<(), RunFault>
    requires { limits.holds ≡ 65535 }
    ensures ran { OnOk result (Ran limits.slots (R.remaining reader.old) (R.remaining reader.new)
        (W.contents out.old) (W.contents out.new)) }
    ensures stopped { IfErr result (λ reason. StoppedFor reason limits.slots (R.remaining reader.old)
        (R.remaining reader.new) (W.contents out.old) (W.contents out.new)) }
{
    let Ok(mut board) = PlainBoard::new(alloc, limits) else {
        return Err(RunFault::Memory);
    };
    run_script(alloc, &mut board, reader, out)
}

/// Runs the reader's script with one caller or, if there are workers, with its owner and these workers.
fn run_by<H: Threads + Wait + Sync, R: Read, W: Write>(
    rt: &H,
    alloc: Global,
    limits: Limits,
    workers: u32,
    reader: &mut R,
    out: &mut W,
) -> Result<(), RunFault>
    requires holds { limits.holds ≡ 65535 }
    requires few { workers ≤ 16 }
    ensures ran { OnOk result (RanBy workers limits.slots (R.remaining reader.old) (R.remaining reader.new)
        (W.contents out.old) (W.contents out.new)) }
    ensures stopped { IfErr result (λ reason. StoppedBy reason workers limits.slots (R.remaining reader.old)
        (R.remaining reader.new) (W.contents out.old) (W.contents out.new)) }
{
    if workers == 0 {
        run_limits(alloc, limits, reader, out)
    } else {
        run_whole(rt, alloc, limits, workers, reader, out)
    }
}

/// Runs the reader's script as the arguments ask, and returns the program's exit status: 0, or 1 after a
/// fault. The fault is named on `fault`.
pub fn run_asked<H: Threads + Wait + Sync, R: Read, W: Write, F: Write>(
    rt: &H,
    alloc: Global,
    asked: &Asked,
    reader: &mut R,
    out: &mut W,
    fault: &mut F,
) -> u8
    ensures status { result ≤ 1 }
    ensures ran { result ≡ 0 → RanBy asked.now.workers asked.now.limits.slots
        (R.remaining reader.old) (R.remaining reader.new) (W.contents out.old) (W.contents out.new) }
    ensures fault { result ≡ 1 → (reason : RunFault)
        × Named reason (F.contents fault.old) (F.contents fault.new)
        × StoppedBy reason asked.now.workers asked.now.limits.slots (R.remaining reader.old)
        (R.remaining reader.new)
        (W.contents out.old) (W.contents out.new) }
    ensures quiet { result ≡ 0 → Keeps (F.contents fault.old) (F.contents fault.new) }
{
    match run_by(rt, alloc, asked.limits, asked.workers, reader, out) {
        Ok(()) => 0,
        Err(reason) => tell(reason, fault),
    }
}
