//! A round: the owner and each worker run their lines, each in a separate thread.

ghost use Rattle.std.specs.Prelude.{◌≡◌, ◌≤◌, ◌<◌, ◌+◌, ◌++◌, take, ℕ, map, length, position, slice_index_or};
ghost use Rattle.kf_rounds.specs.Kinds.{commands_of, is_end};
ghost use Rattle.kf_rounds.specs.KindViews.{kind_view};
ghost use Rattle.kf_rounds.specs.Turns.{EachTells, Tells};
ghost use Rattle.kf_rounds.specs.Seats.{board_of, boards, untaken, untakens};

use crate::kind::LineKind;
use crate::runner::Runner;
use kf_script::Board;
use std::thread;
use std::thread::Threads;

/// Whether a line ends a round.
fn ends_round(kind: &LineKind<'_>) -> bool
    ensures { result ≡ is_end (kind_view kind.now) }
{
    match *kind {
        LineKind::EndsRound => true,
        _ => false,
    }
}

/// The position of the first line that ends a round.
fn end_at(kinds: &[LineKind<'_>]) -> Option<usize>
    ensures { result ≡ position (λ kind. is_end (kind_view kind)) kinds.now }
{
    kinds.iter().position(|kind| ends_round(kind))
}

/// The number of lines in the first round: those up to and including the first line that ends a round, or all
/// of them if no line does.
fn round_len(kinds: &[LineKind<'_>]) -> usize
    requires some { 0 < length kinds.now }
    ensures some { 0 < result }
    ensures within { result ≤ length kinds.now }
{
    match end_at(kinds) {
        Some(at) => at + 1,
        None => kinds.len(),
    }
}

/// The round that begins at this line.
pub fn round_at<'b, 'a>(kinds: &'b [LineKind<'a>], from: usize) -> &'b [LineKind<'a>]
    requires some { from < length kinds.now }
    ensures some { 0 < length result.now }
    ensures within { from + length result.now ≤ length kinds.now }
    ensures there { take (from + length result.now) kinds.now ≡ take from kinds.now ++ result.now }
{
    let rest = &kinds[from..];
    &rest[..round_len(rest)]
}

/// Whether at most one seat has lines here, so that no other thread is needed.
fn is_for_one(kinds: &[LineKind<'_>]) -> bool {
    let mut runner = None;
    for kind in kinds {
        if let LineKind::Command { seat, .. } = *kind {
            if runner.is_some_and(|first| first != seat) {
                return false;
            }
            runner = Some(seat);
        }
    }
    true
}

/// Each seat runs its lines. If `threads` is more than 1, each seat runs in a separate thread, as far as
/// threads can be made.
fn run_each<B: Board + Send, R: Threads + Sync>(
    rt: &R,
    seats: &mut [Runner<B>],
    threads: usize,
    kinds: &[LineKind<'_>],
)
    requires threads { 0 < threads }
    ensures tells { (who : ℕ) (d : _) → who < length seats.old →
        Tells B.step (board_of (slice_index_or seats.old who d)) (commands_of who (map kind_view kinds.now))
        (untaken (slice_index_or seats.new who d)) (board_of (slice_index_or seats.new who d)) }
    ensures len { length seats.new ≡ length seats.old }
{
    thread::for_each_mut(rt, seats, threads, &|who, seat| { seat.run(who, kinds) });
}

/// Each seat runs its lines in their order, in a separate thread if one can be made.
/// If at most one seat has lines, the calling thread runs them.
pub fn run_round<B: Board + Send, R: Threads + Sync>(
    rt: &R,
    seats: &mut [Runner<B>],
    kinds: &[LineKind<'_>],
)
    requires seats { 0 < length seats.old }
    ensures told { EachTells B.step (map kind_view kinds.now) (boards seats.old) (untakens seats.new)
        (boards seats.new) }
    ensures len { length seats.new ≡ length seats.old }
{
    let threads = if is_for_one(kinds) { 1 } else { seats.len() };
    run_each(rt, seats, threads, kinds);
}
