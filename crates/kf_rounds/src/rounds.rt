//! All rounds of a script.

ghost use Rattle.std.specs.Prelude.{◌≡◌, ◌≤◌, ◌+◌, [], IfOk, length};
ghost use Rattle.kf_script.specs.Lines.{lines_of};
ghost use Rattle.kf_rounds.specs.Kinds.{kinds_by};
ghost use Rattle.kf_rounds.specs.Seats.{boards};
ghost use Rattle.kf_rounds.specs.Turns.{Replied};

use crate::cut::kinds_in;
use crate::replies::put_replies;
use crate::round::{round_at, run_round};
use crate::runner::Runner;
use kf_script::Board;
use std::alloc::{AllocError, Global};
use std::thread::Threads;

/// Runs a script, round by round, on the seats of its owner (the first seat) and its workers. Returns the
/// replies to the lines that are not empty, each with a newline, in the order of the lines.
///
/// A line `@W COMMAND` belongs to worker W, `wait` ends a round, and every other line belongs to the owner.
/// In a round each seat runs its own lines in the order of the script, in a separate thread. If no thread can
/// be made, or at most one seat has lines, the calling thread runs them. A `wait` gets its reply when every
/// line above it has its reply, and no line below it begins before that. Boards stay in their seats between
/// rounds, and after the run.
///
/// Conditions: there are at most 16 workers, and one seat for the owner and one for each worker.
///
/// Returns `Err` if there is no memory for the lines or the replies. Some rounds may have been run by then,
/// and their replies are lost.
pub fn run_rounds<B: Board + Send, R: Threads + Sync>(
    rt: &R,
    alloc: Global,
    seats: &mut [Runner<B>],
    workers: usize,
    script: &[u8],
) -> Result<Vec<u8>, AllocError>
    requires workers { workers ≤ 16 }
    requires seats { length seats.old ≡ workers + 1 }
    ensures replied { IfOk result (λ out. Replied B.step (kinds_by workers (lines_of script.now))
        (boards seats.old) (boards seats.new) [] out.items) }
{
    let kinds = kinds_in(alloc, script, workers)?;
    let mut out = Vec::new(alloc);
    let mut from = 0;
    while from < kinds.len() {
        let round = round_at(kinds.as_slice(), from);
        run_round(rt, seats, round);
        put_replies(&mut out, seats, round)?;
        from += round.len();
    }
    Ok(out)
}
