//! Tasks for the tree behind a handle, which a program may have to ask for again, and the numbers that these
//! calls return.
ghost use Rattle.std.specs.Prelude.{◌≡◌, ◌≢◌, true, false, pos, negsuc};
ghost use Rattle.kf_handles.specs.Calls.{key_in};
ghost use Rattle.kf_handles.specs.declared.questions.Task.TheVariants as asks;
ghost use Rattle.kf_handles.specs.Tasks.{SteppedBehind, StepToldWhy, IsRemovingIn, WasGoneIn, IsHiddenIn, IsUnhiddenIn, IsHiddenStillIn};
ghost use Rattle.kf_handles.specs.Answers.{IsAsBefore};
ghost use Rattle.kf_handles.specs.Hiding.{SawNobody, SawSomebody};

use crate::errors::{AGAIN, INVALID, error_of};
use crate::handle::KtHandle;
use crate::object::Object;
use crate::questions::{Task, TreeReply};
use crate::replies::{KtKey, key_of};

/// Makes one step of a task, if the object is a tree.
fn step_object(object: &mut Object, task: Task) -> TreeReply
    ensures { SteppedBehind task object.old object.new result }
{
    match object {
        Object::Tree(tree) => tree.as_mut().step(task),
        _ => TreeReply::Wrong,
    }
}

/// Makes one step of a task, if a tree is behind the handle.
fn step_handle(handle: &mut KtHandle, task: Task) -> TreeReply
    ensures told { SteppedBehind task handle.old.place.object handle.new.place.object result }
    ensures beside { handle.new.place.seat ≡ handle.old.place.seat }
{
    step_object(&mut handle.place_mut().object, task)
}

/// Removes a subtree as far as it can without waiting. Returns 1 if this took the node out, 0 if the node was
/// out before, and -EAGAIN if the node is still in the tree.
pub fn remove(handle: &mut KtHandle, key: KtKey) -> i32
    ensures out { result ≡ pos 1 →
        IsRemovingIn handle.old.place.object handle.new.place.object key false }
    ensures gone { result ≡ pos 0 → WasGoneIn handle.old.place.object handle.new.place.object key }
    ensures not_yet { result ≡ negsuc 10 →
        IsRemovingIn handle.old.place.object handle.new.place.object key true }
    ensures kept { result ≢ pos 0 → result ≢ pos 1 → result ≢ negsuc 10 →
        IsAsBefore handle.old.place.object handle.new.place.object }
    ensures beside { handle.new.place.seat ≡ handle.old.place.seat }
    ensures why { result ≢ pos 0 → result ≢ pos 1 → result ≢ negsuc 10 → StepToldWhy
        (asks.Remove (key_in key)) handle.old.place.object handle.new.place.object result }
{
    let task = Task::Remove(key_of(key));
    match step_handle(handle, task) {
        TreeReply::Done => 1,
        TreeReply::Gone => 0,
        TreeReply::Not => AGAIN,
        TreeReply::Refused(refusal) => error_of(refusal),
        _ => INVALID,
    }
}

/// Hides a file, and looks whether anybody is inside. Returns 0 if nobody is, and -EAGAIN if it saw somebody.
pub fn hide(handle: &mut KtHandle, key: KtKey) -> i32
    ensures hidden { result ≡ pos 0 →
        IsHiddenIn SawNobody handle.old.place.object handle.new.place.object key }
    ensures not_yet { result ≡ negsuc 10 →
        IsHiddenIn SawSomebody handle.old.place.object handle.new.place.object key }
    ensures kept { result ≢ pos 0 → result ≢ negsuc 10 →
        IsAsBefore handle.old.place.object handle.new.place.object }
    ensures beside { handle.new.place.seat ≡ handle.old.place.seat }
    ensures why { result ≢ pos 0 → result ≢ negsuc 10 → StepToldWhy
        (asks.Hide (key_in key)) handle.old.place.object handle.new.place.object result }
{
    let task = Task::Hide(key_of(key));
    match step_handle(handle, task) {
        TreeReply::Done => 0,
        TreeReply::Not => AGAIN,
        TreeReply::Refused(refusal) => error_of(refusal),
        _ => INVALID,
    }
}

/// Shows a hidden file again. Returns 0, or -EAGAIN if it saw somebody still inside.
pub fn unhide(handle: &mut KtHandle, key: KtKey) -> i32
    ensures shown { result ≡ pos 0 →
        IsUnhiddenIn handle.old.place.object handle.new.place.object key }
    ensures not_yet { result ≡ negsuc 10 →
        IsHiddenStillIn handle.old.place.object handle.new.place.object key }
    ensures kept { result ≢ pos 0 → result ≢ negsuc 10 →
        IsAsBefore handle.old.place.object handle.new.place.object }
    ensures beside { handle.new.place.seat ≡ handle.old.place.seat }
    ensures why { result ≢ pos 0 → result ≢ negsuc 10 → StepToldWhy
        (asks.Unhide (key_in key)) handle.old.place.object handle.new.place.object result }
{
    let task = Task::Unhide(key_of(key));
    match step_handle(handle, task) {
        TreeReply::Done => 0,
        TreeReply::Not => AGAIN,
        TreeReply::Refused(refusal) => error_of(refusal),
        _ => INVALID,
    }
}
