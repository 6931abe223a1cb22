//! The calls that remove a node, and that hide a file and show it again. If somebody is inside, `kt_remove`,
//! `kt_hide` and `kt_unhide` return -EAGAIN. The removal or the hiding has then begun, and the caller must
//! call again.
ghost use Rattle.std.specs.Prelude.{◌≡◌, ◌≢◌, pos, negsuc, false, true};
ghost use Rattle.kf_handles.specs.declared.questions.Question.TheVariants as question;
ghost use Rattle.kf_handles.specs.declared.questions.Task.TheVariants as asks;
ghost use Rattle.kf_handles.specs.Tasks.{StepToldWhy, IsRemovingIn, WasGoneIn, IsHiddenIn, IsUnhiddenIn, IsHiddenStillIn};
ghost use Rattle.kf_handles.specs.Answers.{IsAsBefore, ToldWhy};
ghost use Rattle.kf_handles.specs.Calls.{ClaimedIn, key_in};
ghost use Rattle.kf_handles.specs.Hiding.{SawNobody, SawSomebody};

use kf_handles::{KtHandle, KtKey};

/// Marks a node and everything below it, and then claims the self-removal of the node (`kernfs_remove_self`).
/// Returns 0 to the first caller that claims the node, and 1 to each later one.
#[unsafe(no_mangle)]
pub extern "C" fn kt_claim(tree: &mut KtHandle, key: KtKey) -> i32
    ensures first { result ≡ pos 0 → ClaimedIn tree.old.place.object tree.new.place.object key false }
    ensures again { result ≡ pos 1 → ClaimedIn tree.old.place.object tree.new.place.object key true }
    ensures kept { result ≢ pos 0 → result ≢ pos 1 → IsAsBefore tree.old.place.object tree.new.place.object }
    ensures beside { tree.new.place.seat ≡ tree.old.place.seat }
    ensures why { result ≢ pos 0 → result ≢ pos 1 → ToldWhy
        (question.Claim (key_in key)) tree.old.place.object tree.new.place.object result }
{
    kf_handles::claim(tree, key)
}

/// Marks a node and everything below it, and takes out of the tree each of them that nobody uses and that no
/// longer has a node below it (`kernfs_remove`). Returns 1 if this call took the node out, 0 if the node was
/// out before, and -EAGAIN if it is still there: somebody is inside, or a node that was marked before has no
/// room for another hold. Fails with -ENOENT if no node of the tree ever had the key.
#[unsafe(no_mangle)]
pub extern "C" fn kt_remove(tree: &mut KtHandle, key: KtKey) -> i32
    ensures out { result ≡ pos 1 →
        IsRemovingIn tree.old.place.object tree.new.place.object key false }
    ensures gone { result ≡ pos 0 → WasGoneIn tree.old.place.object tree.new.place.object key }
    ensures not_yet { result ≡ negsuc 10 →
        IsRemovingIn tree.old.place.object tree.new.place.object key true }
    ensures kept { result ≢ pos 0 → result ≢ pos 1 → result ≢ negsuc 10 →
        IsAsBefore tree.old.place.object tree.new.place.object }
    ensures beside { tree.new.place.seat ≡ tree.old.place.seat }
    ensures why { result ≢ pos 0 → result ≢ pos 1 → result ≢ negsuc 10 → StepToldWhy
        (asks.Remove (key_in key)) tree.old.place.object tree.new.place.object result }
{
    kf_handles::remove(tree, key)
}

/// Hides a file (`kernfs_show` with `show` false). Returns 0 if it saw that nobody is inside, and -EAGAIN if
/// it saw somebody. The file is hidden in both cases.
#[unsafe(no_mangle)]
pub extern "C" fn kt_hide(tree: &mut KtHandle, key: KtKey) -> i32
    ensures hidden { result ≡ pos 0 →
        IsHiddenIn SawNobody tree.old.place.object tree.new.place.object key }
    ensures not_yet { result ≡ negsuc 10 →
        IsHiddenIn SawSomebody tree.old.place.object tree.new.place.object key }
    ensures kept { result ≢ pos 0 → result ≢ negsuc 10 →
        IsAsBefore tree.old.place.object tree.new.place.object }
    ensures beside { tree.new.place.seat ≡ tree.old.place.seat }
    ensures why { result ≢ pos 0 → result ≢ negsuc 10 → StepToldWhy
        (asks.Hide (key_in key)) tree.old.place.object tree.new.place.object result }
{
    kf_handles::hide(tree, key)
}

/// Shows a hidden file again (`kernfs_show` with `show` true). Returns 0 if the file is shown. Returns
/// -EAGAIN if it saw somebody still inside, and then the file stays hidden.
#[unsafe(no_mangle)]
pub extern "C" fn kt_unhide(tree: &mut KtHandle, key: KtKey) -> i32
    ensures shown { result ≡ pos 0 → IsUnhiddenIn tree.old.place.object tree.new.place.object key }
    ensures not_yet { result ≡ negsuc 10 →
        IsHiddenStillIn tree.old.place.object tree.new.place.object key }
    ensures kept { result ≢ pos 0 → result ≢ negsuc 10 →
        IsAsBefore tree.old.place.object tree.new.place.object }
    ensures beside { tree.new.place.seat ≡ tree.old.place.seat }
    ensures why { result ≢ pos 0 → result ≢ negsuc 10 → StepToldWhy
        (asks.Unhide (key_in key)) tree.old.place.object tree.new.place.object result }
{
    kf_handles::unhide(tree, key)
}
