//! The board: the back end that carries out the requests of a script.

ghost use Rattle.std.specs.Prelude.{Bool};
ghost use Rattle.kf_script.specs.Answers.{Step};
ghost use Rattle.kf_script.specs.Requests.{IsInRange, request_words};

use super::reply::Reply;
use super::request::Request;

/// A back end: it carries out the requests of a script, one at a time, and replies to each.
pub trait Board {
    /// What the board may reply. This relates the board before, the request, whether memory was lacking for
    /// it, the text of the reply, and the board after.
    ghost step: { Step Self };

    /// Carries out a request, and replaces the text in `reply` with the text of its reply.
    fn answer(&mut self, request: &Request<'_>, reply: &mut Reply)
        requires { IsInRange (request_words request.now) }
        ensures { (starved : Bool) × step self.old (request_words request.now) starved reply.new self.new };
}
