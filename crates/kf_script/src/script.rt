//! Runs a script: replies to its lines one by one while it is read.

ghost use Rattle.std.specs.Prelude.{◌≡◌, ◌≤◌, ℕ, List, Bool, [], ◌∷◌, ◌++◌, Option, Some, All, false, length, MatchResult, OnOk, IfErr, IfSome, IsErrOf};
ghost use Rattle.std.specs.Option.{option_map};
ghost use Rattle.std.specs.Io.KnownBytes.{Consumes, IsAtEnd, Keeps, append_known};
ghost use Rattle.kf_script.specs.Lines.{is_newline, kept_line, line_limit, lines_of, ended_lines_of};
ghost use Rattle.kf_script.specs.Requests.{request_of};
ghost use Rattle.kf_script.specs.Answers.{AnswersRequest};
ghost use Rattle.kf_script.specs.Progress.{Answered, CutShort, Grows};
ghost use Rattle.kf_script.specs.SoFar.{AnsweredSoFar, Stopped, AnsweredOrCut, ended_line};

use super::board::Board;
use super::fault::RunFault;
use super::grammar::parse_into;
use super::line::{LINE_LIMIT, LineBuffer};
use super::output::{KEPT_LIMIT, Output};
use super::reply::Reply;
use super::search::newline_in;
use super::streams::{READ_LIMIT, Streams};
use std::alloc::Global;
use std::io::{Read, Write};

/// How many bytes one call of read may return.
const CHUNK: usize = 65_536;

/// Puts the reply to a line into `reply`.
fn answer_line<B: Board>(board: &mut B, reply: &mut Reply, line: &[u8])
    requires { length line.now ≤ line_limit }
    ensures { (starved : Bool)
        × AnswersRequest B.step board.old (request_of line.now) starved reply.new board.new }
{
    let mut asked = None;
    parse_into::<B>(line, &mut asked);
    match &asked {
        Some(request) => board.answer(request, reply),
        None => reply.set_bad_line(),
    }
}

/// Replies to a whole line, unless it is empty.
fn end_whole<B: Board, W: Write>(
    board: &mut B,
    reply: &mut Reply,
    line: &[u8],
    output: &mut Output<'_, W>,
) -> Result<(), RunFault>
    requires { length line.now ≤ line_limit }
    ensures answered { AnsweredOrCut B.step board.old board.new (ended_line line.now)
        (append_known (W.contents output.old.writer.now) output.old.kept.now.items)
        (append_known (W.contents output.new.writer.now) output.new.kept.now.items) result }
    ensures grew { Grows (W.contents output.old.writer.now) (W.contents output.new.writer.now) }
    ensures lent { output.new.writer.ghost_name ≡ output.old.writer.ghost_name }
    ensures fault { IfErr result (λ fault. fault ≡ RunFault.Write) }
{
    if line.is_empty() {
        return Ok(());
    }
    answer_line(board, reply, line);
    reply.write_line(output)
}

/// Replies to a line that has ended, unless it is empty. If `line` is `None`, the line was too long.
fn end_line<B: Board, W: Write>(
    board: &mut B,
    reply: &mut Reply,
    line: Option<&[u8]>,
    output: &mut Output<'_, W>,
) -> Result<(), RunFault>
    requires { IfSome line (λ line. length line.now ≤ line_limit) }
    ensures answered { (bytes : List ℕ) → option_map (λ line. line.now) line.entry ≡ kept_line bytes →
        AnsweredOrCut B.step board.old board.new (ended_line bytes)
        (append_known (W.contents output.old.writer.now) output.old.kept.now.items)
        (append_known (W.contents output.new.writer.now) output.new.kept.now.items) result }
    ensures grew { Grows (W.contents output.old.writer.now) (W.contents output.new.writer.now) }
    ensures lent { output.new.writer.ghost_name ≡ output.old.writer.ghost_name }
    ensures fault { IfErr result (λ fault. fault ≡ RunFault.Write) }
{
    let Some(bytes) = line else {
        reply.set_bad_line();
        return reply.write_line(output);
    };
    end_whole(board, reply, bytes, output)
}

/// Takes the bytes before a newline, and replies to the line that ends with them.
fn take_line<B: Board, W: Write>(
    board: &mut B,
    reply: &mut Reply,
    line: &mut LineBuffer,
    output: &mut Output<'_, W>,
    bytes: &[u8],
) -> Result<(), RunFault>
    requires { All (λ byte. is_newline byte ≡ false) bytes.now }
    ensures runs { (first : B) (read : List ℕ) (start : Option (List ℕ)) →
        AnsweredSoFar B.step first board.old read line.old start
        (append_known (W.contents output.old.writer.now) output.old.kept.now.items) →
        MatchResult result
        (λ _. AnsweredSoFar B.step first board.new (read ++ (bytes.now ++ 10 ∷ [])) line.new start
        (append_known (W.contents output.new.writer.now) output.new.kept.now.items))
        (λ _. Stopped B.step first board.new (read ++ (bytes.now ++ 10 ∷ [])) start
        (append_known (W.contents output.new.writer.now) output.new.kept.now.items)) }
    ensures grew { Grows (W.contents output.old.writer.now) (W.contents output.new.writer.now) }
    ensures lent { output.new.writer.ghost_name ≡ output.old.writer.ghost_name }
    ensures fault { IfErr result (λ fault. fault ≡ RunFault.Write) }
{
    if line.is_empty() && bytes.len() <= LINE_LIMIT {
        return end_whole(board, reply, bytes, output);
    }
    line.extend(bytes);
    let result = end_line(board, reply, line.get(), output);
    line.clear();
    result
}

/// Takes the bytes that one read returned, and replies to each line that ends in them.
fn take_bytes<B: Board, W: Write>(
    board: &mut B,
    reply: &mut Reply,
    line: &mut LineBuffer,
    output: &mut Output<'_, W>,
    bytes: &[u8],
) -> Result<(), RunFault>
    ensures runs { (first : B) (read : List ℕ) (start : Option (List ℕ)) →
        AnsweredSoFar B.step first board.old read line.old start
        (append_known (W.contents output.old.writer.now) output.old.kept.now.items) →
        MatchResult result
        (λ _. AnsweredSoFar B.step first board.new (read ++ bytes.now) line.new start
        (append_known (W.contents output.new.writer.now) output.new.kept.now.items))
        (λ _. Stopped B.step first board.new (read ++ bytes.now) start
        (append_known (W.contents output.new.writer.now) output.new.kept.now.items)) }
    ensures grew { Grows (W.contents output.old.writer.now) (W.contents output.new.writer.now) }
    ensures lent { output.new.writer.ghost_name ≡ output.old.writer.ghost_name }
    ensures fault { IfErr result (λ fault. fault ≡ RunFault.Write) }
{
    let mut rest = bytes;
    while let Some(at) = newline_in(rest) {
        take_line(board, reply, line, output, &rest[..at])?;
        rest = &rest[at + 1..];
    }
    line.extend(rest);
    Ok(())
}

/// Reads to the end of the input and replies to each line.
fn read_lines<B: Board, R: Read, W: Write>(
    board: &mut B,
    reply: &mut Reply,
    line: &mut LineBuffer,
    streams: &mut Streams<'_, R, W>,
) -> Result<(), RunFault>
    requires unread { line.old ≡ Some [] }
    requires unkept { streams.old.output.kept.now.items ≡ [] }
    ensures ok { OnOk result
        ((read : List ℕ)
        × Consumes (R.remaining streams.old.reader.now) (R.remaining streams.new.reader.now) read
        × IsAtEnd (R.remaining streams.new.reader.now)
        × Answered B.step board.old board.new (lines_of read) (W.contents streams.old.output.writer.now)
        (W.contents streams.new.output.writer.now)) }
    ensures read { IsErrOf result RunFault.Read → (read : List ℕ)
        × Consumes (R.remaining streams.old.reader.now) (R.remaining streams.new.reader.now) read
        × Answered B.step board.old board.new (ended_lines_of read) (W.contents streams.old.output.writer.now)
        (W.contents streams.new.output.writer.now) }
    ensures write { IsErrOf result RunFault.Write → (read : List ℕ)
        × Consumes (R.remaining streams.old.reader.now) (R.remaining streams.new.reader.now) read
        × CutShort B.step board.old board.new (lines_of read) (W.contents streams.old.output.writer.now)
        (W.contents streams.new.output.writer.now) }
    ensures lent { (streams.new.reader.ghost_name ≡ streams.old.reader.ghost_name)
        × (streams.new.output.writer.ghost_name ≡ streams.old.output.writer.ghost_name) }
    ensures fault { ¬ IsErrOf result RunFault.Memory }
{
    let mut chunk = [0u8; CHUNK];
    'reads: loop {
        streams.output.flush()?;
        let count = match streams.read(&mut chunk) {
            Ok(0) => {
                end_line(board, reply, line.get(), &mut streams.output)?;
                return streams.output.flush();
            }
            Ok(count) => count,
            Err(_) => return Err(RunFault::Read),
        };
        take_bytes(board, reply, line, &mut streams.output, &chunk[..count])?;
    }
}

/// Runs a script: reads its lines, has the board carry them out, and writes one reply for each line.
///
/// If it returns `Ok`, the script was read to its end and each of its lines has its reply, however the reads
/// cut the script. (An empty line gets no reply.) After [`RunFault::Read`], each line that had ended has its
/// reply. After [`RunFault::Write`], what was written is a prefix of the replies. If it fails with
/// [`RunFault::Memory`], nothing was read, written or changed. It makes at most 16,777,216 calls of read.
///
/// The replies to all lines that were read whole are written before more is read. They are written in batches
/// of whole replies with their newlines, at most 4,096 bytes in a batch. A longer reply is written by itself.
pub fn run_script<B: Board, R: Read, W: Write>(
    alloc: Global,
    board: &mut B,
    reader: &mut R,
    writer: &mut W,
) -> Result<(), RunFault>
    ensures ok { OnOk result
        ((read : List ℕ) × Consumes (R.remaining reader.old) (R.remaining reader.new) read
        × IsAtEnd (R.remaining reader.new)
        × Answered B.step board.old board.new (lines_of read) (W.contents writer.old)
        (W.contents writer.new)) }
    ensures read { IsErrOf result RunFault.Read → (read : List ℕ)
        × Consumes (R.remaining reader.old) (R.remaining reader.new) read
        × Answered B.step board.old board.new (ended_lines_of read) (W.contents writer.old)
        (W.contents writer.new) }
    ensures write { IsErrOf result RunFault.Write → (read : List ℕ)
        × Consumes (R.remaining reader.old) (R.remaining reader.new) read
        × CutShort B.step board.old board.new (lines_of read) (W.contents writer.old)
        (W.contents writer.new) }
    ensures memory { IsErrOf result RunFault.Memory → (board.new ≡ board.old)
        × Keeps (R.remaining reader.old) (R.remaining reader.new)
        × Keeps (W.contents writer.old) (W.contents writer.new) }
{
    let Ok(mut line) = LineBuffer::new(alloc) else {
        return Err(RunFault::Memory);
    };
    let Ok(mut reply) = Reply::new(alloc) else {
        return Err(RunFault::Memory);
    };
    let Ok(mut kept) = Vec::with_capacity(alloc, KEPT_LIMIT) else {
        return Err(RunFault::Memory);
    };
    let output = Output::new(writer, &mut kept);
    let mut streams = Streams::new(reader, READ_LIMIT, output);
    read_lines(board, &mut reply, &mut line, &mut streams)
}
