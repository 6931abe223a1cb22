//! A seat that runs lines, with its replies of a round.

ghost use Rattle.std.specs.Prelude.{◌≡◌, ◌≤◌, ◌∷◌, ◌++◌, [], ℕ, Bool, List, map, length, OnOk, OnErr};
ghost use Rattle.kf_script.specs.Lines.{line_limit};
ghost use Rattle.kf_script.specs.Answers.{AnswersRequest};
ghost use Rattle.kf_script.specs.Requests.{request_of};
ghost use Rattle.kf_rounds.specs.Seats.{board_of, untaken};
ghost use Rattle.kf_rounds.specs.Kinds.{command_in, commands_of, own_command};
ghost use Rattle.kf_rounds.specs.KindViews.{kind_view};
ghost use Rattle.kf_rounds.specs.Turns.{Adds, Tells};

use crate::kind::LineKind;
use crate::replies::Replies;
use kf_script::{Board, Reply, parse};
use std::alloc::{AllocError, Global};

/// The owner (seat 0) or a worker: its board, and its replies to its lines of the round.
///
/// It must be passed to [`Runner::into_board`], which returns the board.
pub struct Runner<B> {
    board: B,
    reply: Reply,
    replies: Replies,
    // Two cache lines between what this seat's thread writes and what the next seat's thread writes.
    apart: [u64; 16],
}

/// Runs a line on the board, which puts its reply into the buffer. If the line is not a request, the board
/// does nothing, and the buffer gets the reply to a bad line.
fn answer_line<B: Board>(board: &mut B, reply: &mut Reply, line: &[u8])
    requires { length line.now ≤ line_limit }
    ensures { (starved : Bool)
        × AnswersRequest B.step board.old (request_of line.now) starved reply.new board.new }
{
    match &parse(line) {
        Some(request) => board.answer(request, reply),
        None => reply.set_bad_line(),
    }
}

impl<B: Board> Runner<B> {
    /// Runs a line, if it belongs to this seat, and keeps the reply.
    fn run_line(&mut self, who: usize, kind: &LineKind<'_>) -> Result<(), AllocError>
        ensures ran { OnOk result (Adds B.step (own_command who (kind_view kind.now))
            (board_of self.old) (untaken self.old) (board_of self.new) (untaken self.new)) }
        ensures stopped { OnErr result ((untaken self.new ≡ untaken self.old)
            × (own_command who (kind_view kind.now) ≡ command_in (kind_view kind.now) ∷ [])) }
    {
        match *kind {
            LineKind::Command { seat, text } if usize::from(seat) == who => {
                answer_line(&mut self.board, &mut self.reply, text.bytes);
                self.replies.add(self.reply.text())
            }
            _ => Ok(()),
        }
    }

    /// Runs this seat's lines in their order. It stops if memory runs out.
    fn run_own(&mut self, who: usize, kinds: &[LineKind<'_>]) -> Result<(), AllocError>
        requires empty { untaken self.old ≡ [] }
        ensures tells { Tells B.step (board_of self.old) (commands_of who (map kind_view kinds.now))
            (untaken self.new) (board_of self.new) }
    {
        for kind in kinds {
            self.run_line(who, kind)?;
        }
        Ok(())
    }

    /// Runs this seat's lines in their order, and keeps only their replies. It stops if memory runs out.
    pub(crate) fn run(&mut self, who: usize, kinds: &[LineKind<'_>])
        ensures tells { Tells B.step (board_of self.old) (commands_of who (map kind_view kinds.now))
            (untaken self.new) (board_of self.new) }
    {
        self.replies.clear();
        let _ = self.run_own(who, kinds);
    }
}

impl<B> Runner<B> {
    /// A seat that has not run a line yet. `reply` is the buffer in which its replies are built.
    pub fn new(alloc: Global, board: B, reply: Reply) -> Runner<B>
        ensures made { board_of result ≡ board }
        ensures empty { untaken result ≡ [] }
    {
        Runner {
            board,
            reply,
            replies: Replies::new(alloc),
            apart: [0; 16],
        }
    }

    /// How many bytes its replies have at most, with a newline each.
    pub(crate) fn reply_size(&self) -> usize {
        self.replies.size()
    }

    /// Moves the next of its replies to the end of `out`, and adds a newline. Returns `Err` if there is no
    /// reply, or no memory.
    pub(crate) fn put_next(&mut self, out: &mut Vec<u8>) -> Result<(), AllocError>
        ensures put { OnOk result ((reply : List ℕ) × (untaken self.old ≡ reply ∷ untaken self.new)
            × (out.new.items ≡ out.old.items ++ reply ++ 10 ∷ [])) }
        ensures board { board_of self.new ≡ board_of self.old }
    {
        self.replies.put_next(out)
    }

    /// The board, as the seat's rounds left it.
    pub fn into_board(self) -> B
        ensures { result ≡ board_of self }
    {
        let Runner {
            board,
            reply: _,
            replies: _,
            apart: _,
        } = self;
        board
    }
}
