//! Texts that a tree behind a handle reports: names, paths, and the texts of links.
ghost use Rattle.std.specs.Prelude.{◌≡◌, ◌∷◌, [], IfErr, IfOk};
ghost use Rattle.std.specs.Option.{option_copied};
ghost use Rattle.kf_handles.specs.Calls.{key_in};
ghost use Rattle.kf_handles.specs.LookUps.{bound_of, LinkTextIn, LinkTextRefused, NameIn, NameRefused, NextIn, NextRefused, NextRefusedIn, PathIn, PathRefused, TellsText, WritesText};
ghost use Rattle.kf_tree.specs.Listing.{IsListing};

use crate::errors::{RANGE, error_of};
use crate::handle::KtHandle;
use crate::object::Object;
use crate::replies::{KtKey, key_of};
use kf_core::{Key, Refusal};
use kf_index::Name;
use kf_tree::State;
use std::alloc::Global;

/// Copies the bytes to the front of `out` and returns their number, or returns -ERANGE if they do not fit
/// there.
pub fn copied(bytes: &[u8], out: &mut [u8]) -> i64
    ensures told { WritesText bytes.now result out.old out.new }
{
    if bytes.len() > out.len() {
        return i64::from(RANGE);
    }
    let Ok(count) = i64::try_from(bytes.len()) else {
        return i64::from(RANGE);
    };
    out[..bytes.len()].copy_from_slice(bytes);
    count
}

/// A copy of the name of a node.
fn name_in(object: &Object, key: Key, alloc: Global) -> Result<Vec<u8>, Refusal>
    ensures name { IfOk result (λ name. NameIn object.now key name.items) }
    ensures refused { IfErr result (λ why. NameRefused object.now key why) }
{
    match object {
        Object::Tree(tree) => match tree.state().name_of(key) {
            Ok(name) => match name.to_vec(alloc) {
                Ok(copy) => Ok(copy),
                Err(_) => Err(Refusal::NoMemory),
            },
            Err(refusal) => Err(refusal),
        },
        _ => Err(Refusal::Invalid),
    }
}

/// Writes the name of a node, and returns its length.
pub fn name(alloc: Global, handle: &mut KtHandle, key: KtKey, out: &mut [u8]) -> i64
    ensures same { handle.new.place ≡ handle.old.place }
    ensures told { TellsText
        (NameIn handle.old.place.object (key_in key))
        (NameRefused handle.old.place.object (key_in key))
        result out.old out.new }
{
    match name_in(&handle.place_mut().object, key_of(key), alloc) {
        Ok(name) => copied(name.as_slice(), out),
        Err(refusal) => i64::from(error_of(refusal)),
    }
}

/// The path of a node.
fn path_in(object: &Object, key: Key) -> Result<Vec<u8>, Refusal>
    ensures path { IfOk result (λ path. PathIn object.now key path.items) }
    ensures refused { IfErr result (λ why. PathRefused object.now key why) }
{
    match object {
        Object::Tree(tree) => tree.state().path_of(key),
        _ => Err(Refusal::Invalid),
    }
}

/// Writes the path of a node, and returns its length.
pub fn path(handle: &mut KtHandle, key: KtKey, out: &mut [u8]) -> i64
    ensures same { handle.new.place ≡ handle.old.place }
    ensures told { TellsText
        (PathIn handle.old.place.object (key_in key))
        (PathRefused handle.old.place.object (key_in key))
        result out.old out.new }
{
    match path_in(&handle.place_mut().object, key_of(key)) {
        Ok(path) => copied(path.as_slice(), out),
        Err(refusal) => i64::from(error_of(refusal)),
    }
}

/// The text of a link.
fn link_text_in(object: &Object, key: Key) -> Result<Vec<u8>, Refusal>
    ensures text { IfOk result (λ text. LinkTextIn object.now key text.items) }
    ensures refused { IfErr result (λ why. LinkTextRefused object.now key why) }
{
    match object {
        Object::Tree(tree) => tree.state().target_text(key),
        _ => Err(Refusal::Invalid),
    }
}

/// Writes the text of a link, and returns its length.
pub fn link_text(handle: &mut KtHandle, key: KtKey, out: &mut [u8]) -> i64
    ensures same { handle.new.place ≡ handle.old.place }
    ensures told { TellsText
        (LinkTextIn handle.old.place.object (key_in key))
        (LinkTextRefused handle.old.place.object (key_in key))
        result out.old out.new }
{
    match link_text_in(&handle.place_mut().object, key_of(key)) {
        Ok(text) => copied(text.as_slice(), out),
        Err(refusal) => i64::from(error_of(refusal)),
    }
}

/// The bound of a listing, after which it begins: none if the name is empty.
fn bound(after: &[u8]) -> Option<&[u8]>
    ensures { option_copied result ≡ bound_of after.now }
{
    if after.is_empty() { None } else { Some(after) }
}

/// The name of the first live child after the bound, in byte order.
fn next_after(state: &State, dir: Key, after: &[u8]) -> Result<Name, Refusal>
    ensures name { IfOk result
        (λ name. IsListing state.now.tree dir (bound_of after.now) 1 (name ∷ [])) }
    ensures refused { IfErr result (λ why. NextRefused state.now dir after.now why) }
{
    match state.list(dir, bound(after), 1) {
        Ok(mut names) => match names.pop() {
            Some(name) => Ok(name),
            None => Err(Refusal::NoEntry),
        },
        Err(refusal) => Err(refusal),
    }
}

/// The name of the first live child after the bound, in byte order.
fn next_in(object: &Object, dir: Key, after: &[u8]) -> Result<Name, Refusal>
    ensures name { IfOk result (λ name. NextIn object.now dir after.now name) }
    ensures refused { IfErr result (λ why. NextRefusedIn object.now dir after.now why) }
{
    match object {
        Object::Tree(tree) => next_after(tree.state(), dir, after),
        _ => Err(Refusal::Invalid),
    }
}

/// Writes the name of the first live child after a name, in byte order, and returns the length. An empty
/// `after` comes before each name.
pub fn next(handle: &mut KtHandle, dir: KtKey, after: &[u8], out: &mut [u8]) -> i64
    ensures same { handle.new.place ≡ handle.old.place }
    ensures told { TellsText
        (NextIn handle.old.place.object (key_in dir) after.now)
        (NextRefusedIn handle.old.place.object (key_in dir)
        after.now) result out.old out.new }
{
    match next_in(&handle.place_mut().object, key_of(dir), after) {
        Ok(name) => copied(name.bytes(), out),
        Err(refusal) => i64::from(error_of(refusal)),
    }
}
