//! Look-ups without the tree's lock, and holds of what they find.
ghost use Rattle.std.specs.Prelude.{◌≡◌, ◌≢◌, false, true, pos, negsuc, IfErr, IfNone, IfOk, IfSome, OnErr};
ghost use Rattle.kf_handles.specs.Answers.{IsAsBefore};
ghost use Rattle.kf_handles.specs.Calls.{IsNothing, is_nothing, key_in};
ghost use Rattle.kf_handles.specs.LookUps.{IsRefusal};
ghost use Rattle.kf_handles.specs.Lookers.{FoundBy, FoundNothing, HoldsPinned, IsLookerIn, LookerRefused, MadeLooker, NotPinned, PinnedBy, PinnedNone, look_error};
ghost use Rattle.kf_handles.specs.declared.object.Object.TheVariants as behind;
ghost use Rattle.kf_handles.specs.declared.object.Seat.TheVariants as seat_of;

use crate::errors::{AGAIN, INVALID, NO_MEMORY, error_of};
use crate::handle::KtHandle;
use crate::holds::Held;
use crate::object::{Object, Seat};
use crate::replies::{KtKey, key_of, put, told_key};
use crate::telling::is_nothing;
use crate::tree_looker::TreeLooker;
use kf_core::{Key, Refusal};
use std::alloc::Global;

/// A looker of the tree, if the object is a tree.
fn looker_of(object: &mut Object, alloc: Global) -> Result<TreeLooker, Refusal>
    ensures made { IfOk result (λ looker. IsLookerIn object.old looker) }
    ensures refused { IfErr result (λ why. LookerRefused object.old object.new why) }
    ensures tree { IsAsBefore object.old object.new }
{
    match object {
        Object::Tree(tree) => tree.as_mut().looker(alloc),
        _ => Err(Refusal::Invalid),
    }
}

/// Makes a looker of a tree, and puts it behind a handle with nothing behind it.
pub fn looker(alloc: Global, handle: &mut KtHandle, out: &mut KtHandle) -> i32
    ensures made { result ≡ pos 0 → MadeLooker handle.old.place.object out.new.place.object
        × (out.new.place.seat ≡ seat_of.None) }
    ensures taken { is_nothing out.old.place ≡ false → result ≡ negsuc 21 }
    ensures was { result ≡ pos 0 → IsNothing out.old.place }
    ensures tree { IsAsBefore handle.old.place.object handle.new.place.object }
    ensures same { result ≢ pos 0 → out.new.place ≡ out.old.place }
    ensures beside { handle.new.place.seat ≡ handle.old.place.seat }
    ensures why { is_nothing out.old.place ≡ true → result ≢ pos 0 → IsRefusal
        (LookerRefused handle.old.place.object handle.new.place.object) result }
{
    if !is_nothing(out) {
        return INVALID;
    }
    let looker = match looker_of(&mut handle.place_mut().object, alloc) {
        Ok(looker) => looker,
        Err(refusal) => return error_of(refusal),
    };
    match Box::new(alloc, looker) {
        Ok(looker) => put(out.place_mut(), Seat::None, Object::Looker(looker)),
        Err(_) => NO_MEMORY,
    }
}

/// The key of the live node to which a path leads, if the object is a looker and finds it.
fn look_in(object: &mut Object, path: &[u8]) -> Option<Key>
    ensures found { IfSome result (λ key. FoundBy object.old path.now key object.new) }
    ensures nothing { IfNone result (FoundNothing object.old object.new) }
{
    match object {
        Object::Looker(looker) => match looker.as_mut().looker.look(path) {
            Some(sight) => Some(sight.found.key),
            None => None,
        },
        _ => None,
    }
}

/// What a look-up that finds nothing returns.
fn look_error(object: &Object) -> i32
    ensures told { result ≡ look_error object.now }
{
    match object {
        Object::Looker(_) => AGAIN,
        _ => INVALID,
    }
}

/// Finds the live node to which a path leads, without the tree's lock, and writes its key.
pub fn look(looker: &mut KtHandle, path: &[u8], out: &mut KtKey) -> i32
    ensures found { result ≡ pos 0 →
        FoundBy looker.old.place.object path.now (key_in out.new) looker.new.place.object }
    ensures nothing { result ≢ pos 0 →
        FoundNothing looker.old.place.object looker.new.place.object × (out.new ≡ out.old) }
    ensures why { result ≢ pos 0 → result ≡ look_error looker.old.place.object }
    ensures beside { looker.new.place.seat ≡ looker.old.place.seat }
{
    let none = look_error(&looker.place_mut().object);
    match look_in(&mut looker.place_mut().object, path) {
        Some(key) => {
            *out = told_key(key);
            0
        }
        None => none,
    }
}

/// A hold of the node of a key, if the object is a looker.
fn pin_by(object: &mut Object, key: Key) -> Result<Held, Refusal>
    ensures held { IfOk result (λ held. PinnedBy object.old key object.new held.hold) }
    ensures none { OnErr result (PinnedNone object.old object.new) }
    ensures refused { IfErr result (λ why. NotPinned object.old key object.new why) }
{
    match object {
        Object::Looker(looker) => match looker.as_mut().holds.pin(key) {
            Ok(hold) => Ok(Held::new(hold)),
            Err(refusal) => Err(refusal),
        },
        _ => Err(Refusal::Invalid),
    }
}

/// Takes a hold of the node of a key without the tree's lock, and puts it behind a handle with nothing behind
/// it.
pub fn pin(looker: &mut KtHandle, key: KtKey, out: &mut KtHandle) -> i32
    ensures held { result ≡ pos 0 →
        HoldsPinned looker.old.place.object (key_in key) looker.new.place.object out.new.place.seat
        × (out.new.place.object ≡ behind.Empty) }
    ensures taken { is_nothing out.old.place ≡ false → result ≡ negsuc 21 }
    ensures was { result ≡ pos 0 → IsNothing out.old.place }
    ensures none { result ≢ pos 0 → is_nothing out.old.place ≡ true →
        PinnedNone looker.old.place.object looker.new.place.object }
    ensures same { result ≢ pos 0 → out.new.place ≡ out.old.place }
    ensures kept { is_nothing out.old.place ≡ false → looker.new.place ≡ looker.old.place }
    ensures beside { looker.new.place.seat ≡ looker.old.place.seat }
    ensures why { is_nothing out.old.place ≡ true → result ≢ pos 0 → IsRefusal
        (NotPinned looker.old.place.object (key_in key) looker.new.place.object) result }
{
    if !is_nothing(out) {
        return INVALID;
    }
    match pin_by(&mut looker.place_mut().object, key_of(key)) {
        Ok(held) => put(out.place_mut(), Seat::Hold(held), Object::Empty),
        Err(refusal) => error_of(refusal),
    }
}
