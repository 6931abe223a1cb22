//! Event numbers: the posts of a tree's slots, and their steps.
ghost use Rattle.std.specs.Prelude.{◌≡◌, ◌≢◌, pos, negsuc, true, false, IfErr, IfOk, IfSome, None};
ghost use Rattle.kf_handles.specs.Calls.{IsNothing, is_nothing};
ghost use Rattle.kf_handles.specs.LookUps.{IsRefusal};
ghost use Rattle.kf_handles.specs.Numbers.{IsPostOf, IsSameTree, HasPostOf, PostRefused, WasNotified, WasFull, TookNumber, IsNoPost, notify_error};

use crate::errors::{INVALID, OVERFLOW, error_of};
use crate::handle::KtHandle;
use crate::object::{Object, Seat};
use crate::replies::{KtKey, key_of, put};
use crate::telling::is_nothing;
use kf_core::{Key, Refusal};
use kf_notify::Post;

/// A post of a node's slot, if the object is a tree that has this node.
pub fn post_of(object: &mut Object, key: Key) -> Result<Post, Refusal>
    ensures made { IfOk result (λ post. IsPostOf object.old key post) }
    ensures refused { IfErr result (λ why. PostRefused object.old key why) }
    ensures tree { IsSameTree object.old object.new }
{
    match object {
        Object::Tree(tree) => {
            if let Err(refusal) = tree.state().stat(key) {
                return Err(refusal);
            }
            tree.as_mut().post(key.slot)
        }
        _ => Err(Refusal::Invalid),
    }
}

/// Makes a post of a node's slot, and puts it behind a handle with nothing behind it.
pub fn post(handle: &mut KtHandle, key: KtKey, out: &mut KtHandle) -> i32
    ensures posted { result ≡ pos 0 →
        HasPostOf handle.old.place.object (record { slot = key.slot; generation = key.generation })
        out.new.place.object }
    ensures tree { IsSameTree handle.old.place.object handle.new.place.object }
    ensures taken { is_nothing out.old.place ≡ false → result ≡ negsuc 21 }
    ensures was { result ≡ pos 0 → IsNothing out.old.place }
    ensures same { result ≢ pos 0 → out.new.place ≡ out.old.place }
    ensures beside { handle.new.place.seat ≡ handle.old.place.seat }
    ensures why { is_nothing out.old.place ≡ true → result ≢ pos 0 → IsRefusal
        (PostRefused handle.old.place.object (record { slot = key.slot; generation = key.generation }))
        result }
{
    if !is_nothing(out) {
        return INVALID;
    }
    match post_of(&mut handle.place_mut().object, key_of(key)) {
        Ok(post) => { put(out.place_mut(), Seat::None, Object::Post(post)) }
        Err(refusal) => error_of(refusal),
    }
}

fn notify_at(object: &mut Object) -> i32
    ensures notified { result ≡ pos 0 → WasNotified object.old object.new }
    ensures full { result ≢ pos 0 → WasFull object.old object.new }
    ensures why { result ≢ pos 0 → result ≡ notify_error object.old }
{
    match object {
        Object::Post(post) => match post.notify_quiet() {
            Ok(_) => 0,
            Err(_) => OVERFLOW,
        },
        _ => INVALID,
    }
}

/// Raises the event number of a post's slot.
pub fn notify(post: &mut KtHandle) -> i32
    ensures notified { result ≡ pos 0 → WasNotified post.old.place.object post.new.place.object }
    ensures full { result ≢ pos 0 → WasFull post.old.place.object post.new.place.object }
    ensures why { result ≢ pos 0 → result ≡ notify_error post.old.place.object }
    ensures beside { post.new.place.seat ≡ post.old.place.seat }
{
    notify_at(&mut post.place_mut().object)
}

fn number_at(object: &mut Object) -> Option<u64>
    ensures took { IfSome result (λ number. TookNumber object.old number object.new) }
    ensures none { result ≡ None → (object.new ≡ object.old) × IsNoPost object.old }
{
    match object {
        Object::Post(post) => Some(post.now()),
        _ => None,
    }
}

/// Loads the event number of a post's slot, and writes it.
pub fn number(post: &mut KtHandle, out: &mut u64) -> i32
    ensures took { result ≡ pos 0 → TookNumber post.old.place.object out.new post.new.place.object }
    ensures same { result ≢ pos 0 →
        (post.new.place.object ≡ post.old.place.object) × (out.new ≡ out.old) }
    ensures why { result ≢ pos 0 → (result ≡ negsuc 21) × IsNoPost post.old.place.object }
    ensures beside { post.new.place.seat ≡ post.old.place.seat }
{
    match number_at(&mut post.place_mut().object) {
        Some(number) => {
            *out = number;
            0
        }
        None => INVALID,
    }
}
