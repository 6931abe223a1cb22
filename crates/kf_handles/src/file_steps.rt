//! Open files in halves: the steps before and after the program's own show and store.
ghost use Rattle.std.specs.Prelude.{◌≡◌, ◌≢◌, pos, negsuc, true, false, length, IfErr, IfOk};
ghost use Rattle.kf_handles.specs.Answers.{IsAsBefore};
ghost use Rattle.kf_handles.specs.Calls.{IsNothing, is_nothing, key_in};
ghost use Rattle.kf_handles.specs.Files.{OpenedIn, OpenRefused, Serves, BeganRead, HasShown, TextFrom, MayWrite, WasPolled, ReadRefused, WriteRefused, IsSamePlace, IsNotAsked, IsNotShowing, HasNoText, open_fault, read_error, write_error};
ghost use Rattle.kf_handles.specs.LookUps.{IsRefusal, TellsText};
ghost use Rattle.kf_handles.specs.Steps.{WasEntered};
ghost use Rattle.kf_pages.specs.Files.{allows};

use crate::errors::{ACCESS, INVALID, NO_MEMORY, error_of};
use crate::file::File;
use crate::handle::KtHandle;
use crate::numbers::post_of;
use crate::object::{Object, Place, Seat};
use crate::questions::{Question, TreeReply};
use crate::replies::{KtKey, ask_handle, key_of, put};
use crate::steps;
use crate::telling::{is_nothing, stat_in};
use crate::texts::copied;
use core::mem::replace_with;
use kf_core::{Node, Refusal};
use kf_pages::Want;
use kf_tree::Stat;
use std::alloc::Global;

/// Whether a file of this mode may be opened as wanted.
fn allows(mode: u16, want: Want) -> bool
    ensures { result ≡ allows mode want }
{
    (!want.read || mode & 0o444 != 0) && (!want.write || mode & 0o222 != 0)
}

/// Why a node with this stat may not be opened as wanted. None if it may.
fn open_fault(stat: Stat, want: Want) -> Option<Refusal>
    ensures { result ≡ open_fault stat stat.node want }
{
    match stat.node {
        Node::Dir => Some(Refusal::IsDir),
        Node::Link { target: _ } => Some(Refusal::Invalid),
        Node::File { mode, tag: _ } => {
            if !stat.activated || stat.doomed || stat.hidden {
                Some(Refusal::NoDevice)
            } else if allows(mode, want) {
                None
            } else {
                Some(Refusal::Access)
            }
        }
    }
}

/// Opens a file of the tree, and puts it behind a handle with nothing behind it.
pub fn open(alloc: Global, handle: &mut KtHandle, key: KtKey, want: Want, out: &mut KtHandle) -> i32
    ensures opened { result ≡ pos 0 → OpenedIn handle.old.place.object key want out.new.place }
    ensures taken { is_nothing out.old.place ≡ false → result ≡ negsuc 21 }
    ensures was { result ≡ pos 0 → IsNothing out.old.place }
    ensures tree { IsAsBefore handle.old.place.object handle.new.place.object }
    ensures same { result ≢ pos 0 → out.new.place ≡ out.old.place }
    ensures beside { handle.new.place.seat ≡ handle.old.place.seat }
    ensures why { is_nothing out.old.place ≡ true → result ≢ pos 0 → IsRefusal
        (OpenRefused handle.old.place.object handle.new.place.object (key_in key) want) result }
{
    if !is_nothing(out) {
        return INVALID;
    }
    let key = key_of(key);
    let stat = match stat_in(&handle.place_mut().object, key) {
        Ok(stat) => stat,
        Err(refusal) => return error_of(refusal),
    };
    if let Some(refusal) = open_fault(stat, want) {
        return error_of(refusal);
    }
    let held = match ask_handle(handle, Question::Hold(key)) {
        TreeReply::Held(held) => held,
        TreeReply::Refused(refusal) => return error_of(refusal),
        _ => return INVALID,
    };
    let post = match post_of(&mut handle.place_mut().object, key) {
        Ok(post) => post,
        Err(refusal) => return error_of(refusal),
    };
    match Box::new(alloc, File::new(want, post)) {
        Ok(file) => { put(out.place_mut(), Seat::Hold(held), Object::File(file)) }
        Err(_) => NO_MEMORY,
    }
}

/// Begins a read. Returns 0 if the file's text serves it, and 1 if the node was entered for a show.
fn begin_read_at(place: &mut Place, offset: u64) -> i32
    ensures served { result ≡ pos 0 → Serves offset place.old.object × IsSamePlace place.old place.new }
    ensures begun { result ≡ pos 1 → BeganRead offset place.old place.new }
    ensures refused { result ≢ pos 0 → result ≢ pos 1 → ReadRefused offset place.old place.new }
    ensures why { result ≢ pos 0 → result ≢ pos 1 → result ≡ read_error place.old.object place.old.seat }
{
    match &mut place.object {
        Object::File(file) => {
            if !file.contents.want().read {
                return ACCESS;
            }
            if file.contents.serves(offset) {
                return 0;
            }
            let answer = replace_with(&mut place.seat, (), steps::enter_to_show);
            if answer != 0 {
                return answer;
            }
            file.as_mut().begin_show();
            1
        }
        _ => INVALID,
    }
}

/// Begins a read. Returns 0 if the file's text serves the read, and 1 if the node was entered for a show.
pub fn begin_read(file: &mut KtHandle, offset: u64) -> i32
    ensures served { result ≡ pos 0 →
        Serves offset file.old.place.object × IsSamePlace file.old.place file.new.place }
    ensures begun { result ≡ pos 1 → BeganRead offset file.old.place file.new.place }
    ensures refused { result ≢ pos 0 → result ≢ pos 1 → ReadRefused offset file.old.place file.new.place }
    ensures why { result ≢ pos 0 → result ≢ pos 1 →
        result ≡ read_error file.old.place.object file.old.place.seat }
{
    begin_read_at(file.place_mut(), offset)
}

/// Stores the text that a show made, in the call that began the show.
fn shown_at(place: &mut Place, shown: &[u8]) -> i32
    ensures kept { result ≡ pos 0 → HasShown shown.now place.old place.new }
    ensures same { result ≢ pos 0 → IsSamePlace place.old place.new }
    ensures why { result ≢ pos 0 → (result ≡ negsuc 21) × IsNotShowing place.old.seat place.old.object }
{
    match &mut place.object {
        Object::File(file) => match &place.seat {
            Seat::Show(_) => {
                file.as_mut().contents.end_show(shown);
                0
            }
            _ => INVALID,
        },
        _ => INVALID,
    }
}

/// Stores the text that a show made, in the call that began the show.
pub fn shown(file: &mut KtHandle, shown: &[u8]) -> i32
    ensures kept { result ≡ pos 0 → HasShown shown.now file.old.place file.new.place }
    ensures same { result ≢ pos 0 → IsSamePlace file.old.place file.new.place }
    ensures why { result ≢ pos 0 →
        (result ≡ negsuc 21) × IsNotShowing file.old.place.seat file.old.place.object }
{
    shown_at(file.place_mut(), shown)
}

/// A file's text from the offset on, at most this many bytes. Fails with Invalid unless the object is a file
/// that has a text.
fn text_in(object: &Object, offset: u64, most: usize) -> Result<&[u8], Refusal>
    ensures text { IfOk result (λ text. TextFrom object.now offset most text.now) }
    ensures refused { IfErr result (λ why. HasNoText object.now why) }
{
    match object {
        Object::File(file) => {
            if file.contents.has_text() {
                Ok(file.contents.text_from(offset, most))
            } else {
                Err(Refusal::Invalid)
            }
        }
        _ => Err(Refusal::Invalid),
    }
}

/// Copies a file's text from the offset on. Returns -EINVAL unless the object is a file that has a text.
fn copy_text(object: &Object, offset: u64, out: &mut [u8]) -> i64
    ensures told { TellsText (TextFrom object.now offset (length out.old)) (HasNoText object.now)
        result out.old out.new }
{
    let most = out.len();
    match text_in(object, offset, most) {
        Ok(text) => copied(text, out),
        Err(refusal) => i64::from(error_of(refusal)),
    }
}

/// Copies the text of a file from the offset on, as much as fits into `out`, and returns the number of bytes.
pub fn copy(file: &mut KtHandle, offset: u64, out: &mut [u8]) -> i64
    ensures told { TellsText (TextFrom file.old.place.object offset (length out.old))
        (HasNoText file.old.place.object) result out.old out.new }
    ensures same { IsSamePlace file.old.place file.new.place }
{
    copy_text(&file.place_mut().object, offset, out)
}

/// Begins a write. Returns 0 if the node was entered for a store.
fn begin_write_at(place: &mut Place) -> i32
    ensures entered { result ≡ pos 0 → MayWrite place.old.object
        × WasEntered place.old.seat place.new.seat × (place.new.object ≡ place.old.object) }
    ensures refused { result ≢ pos 0 → WriteRefused place.old place.new }
    ensures why { result ≢ pos 0 → result ≡ write_error place.old.object place.old.seat }
{
    match &place.object {
        Object::File(file) => {
            if !file.contents.want().write {
                return ACCESS;
            }
            replace_with(&mut place.seat, (), steps::enter)
        }
        _ => INVALID,
    }
}

/// Begins a write. Returns 0 if the node was entered for a store.
pub fn begin_write(file: &mut KtHandle) -> i32
    ensures entered { result ≡ pos 0 → MayWrite file.old.place.object
        × WasEntered file.old.place.seat file.new.place.seat
        × (file.new.place.object ≡ file.old.place.object) }
    ensures refused { result ≢ pos 0 → WriteRefused file.old.place file.new.place }
    ensures why { result ≢ pos 0 → result ≡ write_error file.old.place.object file.old.place.seat }
{
    begin_write_at(file.place_mut())
}

/// Whether a file has changed since its last show: 1 or 0. Without a file and a running call it returns
/// -EINVAL.
fn changed_at(place: &mut Place) -> i32
    ensures same { result ≡ pos 0 → WasPolled false place.old place.new }
    ensures changed { result ≡ pos 1 → WasPolled true place.old place.new }
    ensures kept { result ≢ pos 0 → result ≢ pos 1 → IsSamePlace place.old place.new }
    ensures why { result ≢ pos 0 → result ≢ pos 1 →
        (result ≡ negsuc 21) × IsNotAsked place.old.seat place.old.object }
{
    if !place.seat.is_running() {
        return INVALID;
    }
    match &mut place.object {
        Object::File(file) => { if file.as_mut().is_changed() { 1 } else { 0 } }
        _ => INVALID,
    }
}

/// Whether a file has changed since its last show: 1 or 0. Without a file and a running call it returns
/// -EINVAL.
pub fn changed(file: &mut KtHandle) -> i32
    ensures same { result ≡ pos 0 → WasPolled false file.old.place file.new.place }
    ensures changed { result ≡ pos 1 → WasPolled true file.old.place file.new.place }
    ensures kept { result ≢ pos 0 → result ≢ pos 1 → IsSamePlace file.old.place file.new.place }
    ensures why { result ≢ pos 0 → result ≢ pos 1 →
        (result ≡ negsuc 21) × IsNotAsked file.old.place.seat file.old.place.object }
{
    changed_at(file.place_mut())
}
