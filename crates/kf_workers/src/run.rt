//! Runs a whole script, with an owner and workers.

ghost use Rattle.std.specs.Prelude.{◌≡◌, ◌≤◌, ◌+◌, OnOk, IfOk, IfErr, vec_len};
ghost use Rattle.kf_script.specs.Lines.{lines_of};
ghost use Rattle.kf_workers.specs.Replied.{RepliedInForm};
ghost use Rattle.kf_workers.specs.OwnTags.{AddsOwn};

use crate::board::WorkerBoard;
use crate::common::Common;
use crate::script_ops::ScriptOps;
use crate::tags::Tags;
use kf_core::{Limits, Refusal};
use kf_notify::Posts;
use kf_rounds::{Runner, run_rounds};
use kf_script::{Reply, RunFault};
use kf_shared::{Naming, NewTree, SharedTree};
use std::alloc::Global;
use std::marker::Brand;
use std::sync::Wait;
use std::thread::Threads;

/// Words for look-ups are kept for at most this many slots, in 6 MB. Files in higher slots are opened under
/// the tree's lock.
const MOST_LOOKS: u32 = 65_536;

/// Adds a seat with a new board, which has the tags of the seat's number.
fn add_seat<'x, W: ScriptOps, N: Naming, R: Wait>(
    seats: &mut Vec<Runner<WorkerBoard<'x, W, N, R>>>,
    rt: &'x R,
    alloc: Global,
    common: &'x Common<'x, W, N>,
    posts: &mut Posts,
    limits: Limits,
) -> Result<(), Refusal>
    requires few { vec_len seats.old ≤ 16 }
    ensures len { OnOk result (vec_len seats.new ≡ vec_len seats.old + 1) }
    ensures own { OnOk result (AddsOwn seats.old.items seats.new.items (vec_len seats.old)
        (λ board. board.tags)) }
{
    let reply = Reply::new(alloc)?;
    let tags = Tags::of_seat(seats.len() as u64);
    let board = WorkerBoard::new(rt, alloc, common, posts.another()?, tags, limits)?;
    match seats.push(Runner::new(alloc, board, reply)) {
        Ok(()) => Ok(()),
        Err(refused) => {
            refused.value.into_board().end();
            Err(Refusal::NoMemory)
        }
    }
}

/// Adds the owner's seat and one for each worker.
fn add_seats<'x, W: ScriptOps, N: Naming, R: Wait>(
    seats: &mut Vec<Runner<WorkerBoard<'x, W, N, R>>>,
    rt: &'x R,
    alloc: Global,
    common: &'x Common<'x, W, N>,
    limits: Limits,
    workers: u32,
) -> Result<(), Refusal>
    requires none { vec_len seats.old ≡ 0 }
    requires workers { workers ≤ 16 }
    ensures { OnOk result (vec_len seats.new ≡ workers + 1) }
{
    let mut posts = Posts::new(alloc, limits.slots())?;
    for made in 0..workers + 1 {
        prove!(made <= workers);
        add_seat(seats, rt, alloc, common, &mut posts, limits)?;
    }
    Ok(())
}

/// Ends each seat: closes its files, and shows the files that it hid.
fn end_all<W: ScriptOps, N: Naming, R: Wait>(mut seats: Vec<Runner<WorkerBoard<'_, W, N, R>>>) {
    while let Some(seat) = seats.pop() {
        seat.into_board().end();
    }
    seats.destroy_empty();
}

/// Runs a script on new seats, which the caller must end.
fn run_seats<'x, W: ScriptOps + Sync, N: Naming + Send + Sync, R: Threads + Wait + Sync>(
    seats: &mut Vec<Runner<WorkerBoard<'x, W, N, R>>>,
    rt: &'x R,
    alloc: Global,
    common: &'x Common<'x, W, N>,
    limits: Limits,
    workers: u32,
    script: &[u8],
) -> Result<Vec<u8>, Refusal>
    requires none { vec_len seats.old ≡ 0 }
    requires workers { workers ≤ 16 }
    ensures { IfOk result (λ out. RepliedInForm workers (lines_of script.now) out.items) }
{
    add_seats(seats, rt, alloc, common, limits, workers)?;
    let out = run_rounds(rt, alloc, seats.as_mut_slice(), workers as usize, script)?;
    Ok(out)
}

/// Runs a script on a tree, and then ends its boards, which releases all that they had.
fn run_on<'x, W: ScriptOps + Sync, N: Naming + Send + Sync, R: Threads + Wait + Sync>(
    rt: &'x R,
    alloc: Global,
    common: &'x Common<'x, W, N>,
    limits: Limits,
    workers: u32,
    script: &[u8],
) -> Result<Vec<u8>, Refusal>
    requires workers { workers ≤ 16 }
    ensures { IfOk result (λ out. RepliedInForm workers (lines_of script.now) out.items) }
{
    let mut seats = Vec::new(alloc);
    let out = run_seats(&mut seats, rt, alloc, common, limits, workers, script);
    end_all(seats);
    out
}

/// Gives a new tree its name, and runs a script on it.
fn run_named<W: ScriptOps + Sync, N: Naming + Send + Sync, R: Threads + Wait + Sync>(
    rt: &R,
    alloc: Global,
    new: NewTree,
    texts: &W,
    limits: Limits,
    workers: u32,
    script: &[u8],
) -> Result<Vec<u8>, Refusal>
    requires table { new.master.table ≡ N.table }
    requires workers { workers ≤ 16 }
    ensures { IfOk result (λ out. RepliedInForm workers (lines_of script.now) out.items) }
{
    let common = Common::new(alloc, new.named::<N>(), texts, limits)?;
    run_on(rt, alloc, &common, limits, workers, script)
}

/// Runs a script with its owner and 1 to 16 workers, on a new tree with a new bus. It returns the replies to
/// the lines, each with a newline, in the order of the lines.
///
/// - A line `@W COMMAND` is worker W's, `wait` ends a round, and every other line is the owner's.
/// - In a round the owner and each worker run their own lines in the order of the script, each in a separate
///   thread. (If a thread cannot be made, the calling thread runs its lines. If only the owner or one worker
///   has lines in a round, the calling thread runs them.)
/// - A `wait` gets its reply when every line above it has its reply, and no line below it begins before that.
/// - The owner and each worker have 26 files and their own tokens of hidden files, which they keep from round
///   to round. All holds are released at the end.
/// - `texts` serves the files that the script makes, under tags below 2^63. The bus serves the files of its
///   devices.
///
/// It may never return, since a removal waits for the callbacks in its subtree.
///
/// Condition: there are 1 to 16 workers.
///
/// Fault: `Memory`, if memory was refused for the run itself. If memory was refused for a line, the line's
/// reply says so.
pub fn run_workers<W: ScriptOps + Sync, R: Threads + Wait + Sync>(
    rt: &R,
    alloc: Global,
    texts: &W,
    limits: Limits,
    workers: u32,
    script: &[u8],
) -> Result<Vec<u8>, RunFault>
    requires some { 1 ≤ workers }
    requires few { workers ≤ 16 }
    ensures replied { IfOk result (λ out. RepliedInForm workers (lines_of script.now) out.items) }
    ensures fault { IfErr result (λ fault. fault ≡ RunFault.Memory) }
{
    let looks = limits.slots().min(MOST_LOOKS);
    let Ok(new) = SharedTree::<Brand>::with_looks(alloc, limits, 0, looks) else {
        return Err(RunFault::Memory);
    };
    match run_named::<W, Brand, R>(rt, alloc, new, texts, limits, workers, script) {
        Ok(out) => Ok(out),
        Err(_) => Err(RunFault::Memory),
    }
}
