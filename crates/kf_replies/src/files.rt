//! Replies that report what a read or a write of a file returned.

ghost use Rattle.std.specs.Prelude.{◌≡◌};
ghost use Rattle.kf_replies.specs.ReplyParts.{count_text, error_text};

use kf_pages::FileError;
use kf_script::Reply;

/// Writes why a read or a write of a file failed: a refusal, or the fault of a callback.
pub fn tell_error(reply: &mut Reply, error: FileError)
    ensures told { reply.new ≡ error_text error }
{
    match error {
        FileError::Refused(refusal) => reply.set_refusal(refusal),
        FileError::Callback(fault) => reply.set_fault(fault.number),
    }
}

/// Writes the number that a store returned, or why there is none.
pub fn tell_count(reply: &mut Reply, told: Result<usize, FileError>)
    ensures told { reply.new ≡ count_text told }
{
    match told {
        Ok(count) => reply.set_number(count),
        Err(error) => tell_error(reply, error),
    }
}
