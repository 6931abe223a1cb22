//! Steps with files, one after another. Each step opens a file by its path, and says what it must find. The
//! calls of a step are proved only once, however many steps there are.

use kf_core::Refusal;
use kf_driver::{Driver, DriverTable, Opener, notify, open_path};
use kf_files::{FileError, WaitingFile, Want};
use kf_notify::Posts;
use kf_shared::{Naming, SharedTree};
use std::process::Abort;
use std::sync::Wait;

#[derive(Clone, Copy)]
pub(crate) enum Step<'a> {
    /// Whether the file opens for this use without the lock, and the refusal if it does not open at all.
    Opens(Want, bool, Option<Refusal>),
    /// The file that the opener opens shows this text.
    OpensAndShows(&'a [u8]),
    /// What a read returns.
    Shows(Result<&'a [u8], FileError>),
    /// What a write of this text returns.
    Stores(&'a [u8], Result<usize, FileError>),
    /// A poll of the file sees a write of this text, and a poll of the file at the other path does not.
    Tells(&'a [u8], &'a [u8]),
    /// A write of this text is refused, and no poll of either file sees it.
    Refuses(&'a [u8], &'a [u8]),
    /// Three notifies by this name in the root directory: a poll of the file sees them, and a poll of the
    /// file at the other path does not.
    Notifies(&'a [u8], &'a [u8]),
}

/// Opens the file without the lock and closes it. Then does both once more, with the lock if necessary.
fn opens<N: Naming, R: Wait>(
    rt: &R,
    tree: &SharedTree<N>,
    opener: &mut Opener<N>,
    path: &[u8],
    want: Want,
) -> (bool, Option<Refusal>) {
    let found = opener.try_open(path, want);
    let is_found = found.is_some();
    if let Some(file) = found {
        opener.close(file);
    }
    match opener.open(rt, tree, path, want) {
        Ok(file) => {
            opener.close(file);
            (is_found, None)
        }
        Err(refusal) => (is_found, Some(refusal)),
    }
}

/// Whether the opener opens the file, and the file shows this text.
fn opens_and_shows<N: Naming, T: DriverTable, R: Wait>(
    rt: &R,
    tree: &SharedTree<N>,
    driver: &Driver<T>,
    opener: &mut Opener<N>,
    path: &[u8],
    text: &[u8],
) -> bool {
    let Ok(mut file) = opener.open(rt, tree, path, Want::READ) else {
        return false;
    };
    let mut out = [0u8; 32];
    let is_shown = match file.read(rt, tree, driver, 0, &mut out) {
        Ok(count) => match out.get(..count) {
            Some(given) => given == text,
            None => false,
        },
        Err(_) => false,
    };
    opener.close(file);
    is_shown
}

/// Whether a read returns this text, or this error.
fn shows<N: Naming, T: DriverTable, R: Wait>(
    rt: &R,
    tree: &SharedTree<N>,
    driver: &Driver<T>,
    file: &mut WaitingFile<N>,
    told: Result<&[u8], FileError>,
) -> bool {
    let mut out = [0u8; 32];
    match (file.read(rt, tree, driver, 0, &mut out), told) {
        (Ok(count), Ok(text)) => match out.get(..count) {
            Some(given) => given == text,
            None => false,
        },
        (Err(why), Err(wanted)) => why == wanted,
        _ => false,
    }
}

/// Whether each of three notifies raises the number.
fn notifies<N: Naming, R: Wait>(
    rt: &R,
    tree: &SharedTree<N>,
    posts: &mut Posts,
    name: &[u8],
) -> bool {
    let reader = tree.read(rt);
    let root = reader.state().root();
    for _ in 0..3u32 {
        if notify(reader.state(), posts, root, name).is_err() {
            return false;
        }
    }
    true
}

/// Reads both files and takes the step. Returns whether polls then find the first file changed if the step is
/// to change it, and the other file unchanged.
fn is_polled<N: Naming, T: DriverTable, R: Wait>(
    rt: &R,
    tree: &SharedTree<N>,
    driver: &Driver<T>,
    posts: &mut Posts,
    (file, other): (&mut WaitingFile<N>, &mut WaitingFile<N>),
    step: Step<'_>,
) -> bool {
    let mut out = [0u8; 4];
    let are_shown = file.read(rt, tree, driver, 0, &mut out).is_ok()
        && other.read(rt, tree, driver, 0, &mut out).is_ok();
    let are_quiet = !file.poll() && !other.poll();
    let (is_done, changes) = match step {
        Step::Tells(text, _) => (file.write(rt, tree, driver, text).is_ok(), true),
        Step::Refuses(text, _) => (file.write(rt, tree, driver, text).is_err(), false),
        Step::Notifies(name, _) => (notifies(rt, tree, posts, name), true),
        _ => (false, true),
    };
    are_shown && are_quiet && is_done && file.poll() == changes && !other.poll()
}

fn is_right<N: Naming, T: DriverTable, R: Wait>(
    rt: &R,
    tree: &SharedTree<N>,
    driver: &Driver<T>,
    posts: &mut Posts,
    path: &[u8],
    step: Step<'_>,
) -> Result<bool, Refusal> {
    let mut file = open_path(&mut tree.edit(rt), posts, path, Want::BOTH)?;
    match step {
        Step::Opens(..) | Step::OpensAndShows(_) => Ok(false),
        Step::Shows(told) => Ok(shows(rt, tree, driver, &mut file, told)),
        Step::Stores(text, told) => Ok(file.write(rt, tree, driver, text) == told),
        Step::Tells(_, beside) | Step::Refuses(_, beside) | Step::Notifies(_, beside) => {
            let mut other = open_path(&mut tree.edit(rt), posts, beside, Want::BOTH)?;
            Ok(is_polled(rt, tree, driver, posts, (&mut file, &mut other), step))
        }
    }
}

/// Takes the steps. The first step that does not find what it must find stops the test.
pub(crate) fn walk<N: Naming, T: DriverTable, R: Abort + Wait>(
    rt: &R,
    tree: &SharedTree<N>,
    driver: &Driver<T>,
    opener: &mut Opener<N>,
    posts: &mut Posts,
    steps: &[(&[u8], Step<'_>)],
) {
    let mut place = 0usize;
    for (path, step) in steps {
        let is_right = match *step {
            Step::Opens(want, is_found, why) => {
                opens(rt, tree, opener, path, want) == (is_found, why)
            }
            Step::OpensAndShows(text) => opens_and_shows(rt, tree, driver, opener, path, text),
            _ => is_right(rt, tree, driver, posts, path, *step) == Ok(true),
        };
        if !is_right {
            panic!(rt; "step {place}");
        }
        place = place.saturating_add(1);
    }
}
