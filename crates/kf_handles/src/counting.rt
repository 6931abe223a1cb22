//! Counting the holds and the users of a node in the tree behind a handle.
ghost use Rattle.std.specs.Prelude.{◌≡◌, ◌≢◌, pos};
ghost use Rattle.kf_handles.specs.Answers.{IsAsBefore, ToldWhy};
ghost use Rattle.kf_handles.specs.Calls.{CountedIn, key_in};
ghost use Rattle.kf_handles.specs.declared.questions.Question.TheVariants as asks;

use crate::errors::{INVALID, error_of};
use crate::handle::KtHandle;
use crate::questions::{Question, TreeReply};
use crate::replies::{KtKey, ask_handle, key_of};

/// How many holds and how many users a node has.
#[repr(C)]
#[derive(Clone, Copy)]
pub struct KtCounts {
    /// The node's holds and open files, whether they are inside or not, and the hold that hides the node.
    pub holds: u32,
    /// How many of them are inside. A refused try counts for a moment.
    pub users: u32,
}

/// Counts the holds and the users of a node, by one load of each of the two words of its slot.
pub fn counts(handle: &mut KtHandle, key: KtKey, out: &mut KtCounts) -> i32
    ensures counted { result ≡ pos 0 →
        CountedIn handle.old.place.object handle.new.place.object (key_in key) out.new }
    ensures kept { IsAsBefore handle.old.place.object handle.new.place.object }
    ensures same { result ≢ pos 0 → out.new ≡ out.old }
    ensures beside { handle.new.place.seat ≡ handle.old.place.seat }
    ensures why { result ≢ pos 0 → ToldWhy (asks.Counts (key_in key))
        handle.old.place.object handle.new.place.object result }
{
    match ask_handle(handle, Question::Counts(key_of(key))) {
        TreeReply::Counted(counts) => {
            *out = KtCounts {
                holds: counts.holds,
                users: counts.users,
            };
            0
        }
        TreeReply::Refused(refusal) => error_of(refusal),
        _ => INVALID,
    }
}
