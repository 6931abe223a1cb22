//! The calls on open files. Each returns 0 or more, or a negative Linux error number.
ghost use Rattle.std.specs.Prelude.{◌≡◌, ◌≢◌, pos, negsuc, true, false, length};
ghost use Rattle.kf_handles.specs.Answers.{IsAsBefore};
ghost use Rattle.kf_handles.specs.Calls.{IsNothing, is_nothing, key_in};
ghost use Rattle.kf_handles.specs.Files.{OpenedIn, OpenRefused, Serves, BeganRead, HasShown, TextFrom, MayWrite, WasPolled, ReadRefused, WriteRefused, IsSamePlace, IsNotAsked, IsNotShowing, HasNoText, read_error, write_error};
ghost use Rattle.kf_handles.specs.LookUps.{IsRefusal, TellsText};
ghost use Rattle.kf_handles.specs.Steps.{WasEntered};

use kf_handles::{KtHandle, KtKey};
use kf_pages::Want;
use std::alloc::Global;

/// Opens a file of the tree (`kernfs_fop_open`), behind a handle with nothing behind it.
#[unsafe(no_mangle)]
pub extern "C" fn kt_open(
    alloc: Global,
    tree: &mut KtHandle,
    key: KtKey,
    read: bool,
    write: bool,
    out: &mut KtHandle,
) -> i32
    ensures opened { result ≡ pos 0 → OpenedIn tree.old.place.object key
        (record { read = read; write = write }) out.new.place }
    ensures taken { is_nothing out.old.place ≡ false → result ≡ negsuc 21 }
    ensures was { result ≡ pos 0 → IsNothing out.old.place }
    ensures tree { IsAsBefore tree.old.place.object tree.new.place.object }
    ensures same { result ≢ pos 0 → out.new.place ≡ out.old.place }
    ensures beside { tree.new.place.seat ≡ tree.old.place.seat }
    ensures why { is_nothing out.old.place ≡ true → result ≢ pos 0 → IsRefusal
        (OpenRefused tree.old.place.object tree.new.place.object (key_in key)
        (record { read = read; write = write })) result }
{
    kf_handles::open(alloc, tree, key, Want { read, write }, out)
}

/// Begins a read (`kernfs_fop_read_iter`). Returns 0 if the file's text serves the read, and 1 if the node
/// was entered, and the event number taken, for a show.
#[unsafe(no_mangle)]
pub extern "C" fn kt_begin_read(file: &mut KtHandle, offset: u64) -> i32
    ensures served { result ≡ pos 0 →
        Serves offset file.old.place.object × IsSamePlace file.old.place file.new.place }
    ensures begun { result ≡ pos 1 → BeganRead offset file.old.place file.new.place }
    ensures refused { result ≢ pos 0 → result ≢ pos 1 → ReadRefused offset file.old.place file.new.place }
    ensures why { result ≢ pos 0 → result ≢ pos 1 →
        result ≡ read_error file.old.place.object file.old.place.seat }
{
    kf_handles::begin_read(file, offset)
}

/// Keeps the text that a show made, at most 4,095 bytes of it, in the call that began the show.
#[unsafe(no_mangle)]
pub extern "C" fn kt_shown(file: &mut KtHandle, text: &[u8]) -> i32
    ensures kept { result ≡ pos 0 → HasShown text.now file.old.place file.new.place }
    ensures same { result ≢ pos 0 → IsSamePlace file.old.place file.new.place }
    ensures why { result ≢ pos 0 →
        (result ≡ negsuc 21) × IsNotShowing file.old.place.seat file.old.place.object }
{
    kf_handles::shown(file, text)
}

/// Copies the text from an offset on, as far as there is room, and returns the number of bytes.
#[unsafe(no_mangle)]
pub extern "C" fn kt_copy(file: &mut KtHandle, offset: u64, out: &mut [u8]) -> i64
    ensures told { TellsText (TextFrom file.old.place.object offset (length out.old))
        (HasNoText file.old.place.object) result out.old out.new }
    ensures same { IsSamePlace file.old.place file.new.place }
{
    kf_handles::copy(file, offset, out)
}

/// Begins a write (`kernfs_fop_write_iter`). Returns 0 if the node was entered for a store.
#[unsafe(no_mangle)]
pub extern "C" fn kt_begin_write(file: &mut KtHandle) -> i32
    ensures entered { result ≡ pos 0 → MayWrite file.old.place.object
        × WasEntered file.old.place.seat file.new.place.seat
        × (file.new.place.object ≡ file.old.place.object) }
    ensures refused { result ≢ pos 0 → WriteRefused file.old.place file.new.place }
    ensures why { result ≢ pos 0 → result ≡ write_error file.old.place.object file.old.place.seat }
{
    kf_handles::begin_write(file)
}

/// Returns 1 if a file has changed since its last show (`kernfs_fop_poll`), and 0 if not. Fails with -EINVAL
/// unless the handle has a file and a running call.
#[unsafe(no_mangle)]
pub extern "C" fn kt_changed(file: &mut KtHandle) -> i32
    ensures same { result ≡ pos 0 → WasPolled false file.old.place file.new.place }
    ensures changed { result ≡ pos 1 → WasPolled true file.old.place file.new.place }
    ensures kept { result ≢ pos 0 → result ≢ pos 1 → IsSamePlace file.old.place file.new.place }
    ensures why { result ≢ pos 0 → result ≢ pos 1 →
        (result ≡ negsuc 21) × IsNotAsked file.old.place.seat file.old.place.object }
{
    kf_handles::changed(file)
}
