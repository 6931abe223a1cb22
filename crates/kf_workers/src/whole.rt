//! Reads a whole script, runs it with workers, and writes its replies.

ghost use Rattle.std.specs.Prelude.{◌≤◌, IfErr, OnOk};
ghost use Rattle.kf_workers.specs.RanWhole.{RanWhole, StoppedWhole};

use crate::reading::read_script;
use crate::run::run_workers;
use crate::texts::Texts;
use kf_core::Limits;
use kf_script::{RunFault, write_whole};
use std::alloc::Global;
use std::io::{Read, Write};
use std::sync::Wait;
use std::thread::Threads;

/// Reads a script to its end, runs it as [`run_workers`] does, and then writes its replies. The run is that
/// of an owner and 1 to 16 workers, on a new tree. [`Texts`] keeps the texts of its files.
///
/// Like `run_workers`, it may never return.
///
/// Condition: there are 1 to 16 workers.
///
/// Faults: `Read`, for the causes that [`read_script`] names; `Memory`, if memory was refused for the script,
/// the texts, the tree, the boards or the replies; `Write`, if a call of write failed or took no byte. Unless
/// the fault is `Write`, nothing was written.
#[tactic(auto, using(crate::proofs::Written::kept_whole))]
pub fn run_whole<H: Threads + Wait + Sync, R: Read, W: Write>(
    rt: &H,
    alloc: Global,
    limits: Limits,
    workers: u32,
    reader: &mut R,
    writer: &mut W,
) -> Result<(), RunFault>
    requires some { 1 ≤ workers }
    requires few { workers ≤ 16 }
    ensures ran { OnOk result (RanWhole workers (R.remaining reader.old) (R.remaining reader.new)
        (W.contents writer.old) (W.contents writer.new)) }
    ensures stopped { IfErr result (λ reason. StoppedWhole reason workers (R.remaining reader.old)
        (R.remaining reader.new) (W.contents writer.old) (W.contents writer.new)) }
{
    let script = read_script(alloc, reader)?;
    let Ok(texts) = Texts::new(alloc) else {
        return Err(RunFault::Memory);
    };
    let replies = run_workers(rt, alloc, &texts, limits, workers, script.as_slice())?;
    write_whole(writer, replies.as_slice())
}
