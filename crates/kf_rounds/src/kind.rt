//! What a line is for, and which seat it belongs to.

ghost use Rattle.std.specs.Prelude.{◌≡◌, ◌≤◌, IfSome, length, position};
ghost use Rattle.kf_script.specs.Requests.{is_space, first_word as word_of, rest as rest_of};
ghost use Rattle.kf_rounds.specs.Kinds.{kind_by, of_seat, worker_of, seat_in};
ghost use Rattle.kf_script.specs.Lines.{line_limit};
ghost use Rattle.kf_rounds.specs.KindViews.{kind_view};

use crate::command::CommandText;
use kf_script::LINE_LIMIT;

/// What a line is for. A script has one of these for each line that is not empty, so it is kept small: 24
/// bytes.
#[derive(Clone, Copy)]
pub enum LineKind<'a> {
    /// The line is empty or too long, or begins with `@` and is not a command of a worker.
    Bad,
    /// The line is `wait`: it ends a round.
    EndsRound,
    /// A command of the owner (seat 0) or of a worker (its number, from 1, is its seat).
    Command { seat: u8, text: CommandText<'a> },
}

/// Parses a worker's number: 1 to `most`, in decimal without leading zeros.
fn worker(word: &[u8], most: usize) -> Option<u8>
    requires { most ≤ 16 }
    ensures value { result ≡ worker_of most word.now }
    ensures range { IfSome result (λ worker. worker ≤ most) }
{
    let number = match word {
        [a] if (b'1'..=b'9').contains(a) => *a - b'0',
        [a, b] if (b'1'..=b'9').contains(a) && b.is_ascii_digit() => {
            10 * (*a - b'0') + (*b - b'0')
        }
        _ => return None,
    };
    if usize::from(number) <= most {
        Some(number)
    } else {
        None
    }
}

/// The position of the first space.
fn space_at(line: &[u8]) -> Option<usize>
    ensures { result ≡ position is_space line.now }
{
    line.iter().position(|byte| *byte == b' ')
}

/// The word before the first space, and what follows that space.
fn first_word(line: &[u8]) -> (&[u8], &[u8])
    ensures word { result.0.now ≡ word_of line.now }
    ensures rest { result.1.now ≡ rest_of line.now }
    ensures fits { length result.1.now ≤ length line.now }
{
    match space_at(line) {
        Some(at) => (&line[..at], &line[at + 1..]),
        None => (line, &[]),
    }
}

/// A command of this seat.
fn command_of(seat: u8, bytes: &[u8]) -> LineKind<'_>
    requires { length bytes.now ≤ line_limit }
    ensures { kind_view result ≡ of_seat seat bytes.now }
{
    LineKind::Command {
        seat,
        text: CommandText { bytes },
    }
}

/// What a line is for, with this many workers.
pub fn kind_of(line: &[u8], workers: usize) -> LineKind<'_>
    requires { workers ≤ 16 }
    ensures value { kind_view result ≡ kind_by workers line.now }
    ensures range { seat_in (kind_view result) ≤ workers }
{
    if line.len() > LINE_LIMIT {
        return LineKind::Bad;
    }
    let [first, rest @ ..] = line else {
        return LineKind::Bad;
    };
    if *first == b'@' {
        let (word, text) = first_word(rest);
        return match worker(word, workers) {
            Some(seat) if text != b"wait".as_slice() => command_of(seat, text),
            _ => LineKind::Bad,
        };
    }
    if line == b"wait".as_slice() {
        return LineKind::EndsRound;
    }
    command_of(0, line)
}
