//! Reads, writes and polls of `/t`, one after another. Each step has its own callbacks, and says what it must
//! return.

use super::driver::{Driver, Plan, driver_of};
use crate::device::fixtures::count_of;
use kf_files::{FileError, WaitingFile};
use kf_shared::{Naming, SharedTree};
use std::process::Abort;
use std::sync::Wait;

#[derive(Clone, Copy)]
pub(crate) enum Step {
    /// A read of 9 bytes at the offset returns these bytes, and makes this many calls.
    Gives(Plan, u64, &'static [u8], u64),
    /// The error with which a read at offset 0 fails, and how many calls it makes.
    Fails(Plan, FileError, u64),
    /// What a write of these bytes returns, and how many calls it makes.
    Writes(Plan, &'static [u8], Result<usize, FileError>, u64),
    /// What a read of 9 bytes of a binary attribute returns, and how many calls it makes.
    ReadsAt(Plan, Result<usize, FileError>, u64),
    /// What a write of these bytes to a binary attribute returns, and how many calls it makes.
    WritesAt(Plan, &'static [u8], Result<usize, FileError>, u64),
    /// Whether a poll says that the file has changed.
    Polls(bool),
}

fn gives<N: Naming, R: Wait>(
    rt: &R,
    tree: &SharedTree<N>,
    file: &mut WaitingFile<N>,
    driver: &Driver,
    (offset, text): (u64, &[u8]),
) -> bool {
    let mut out = [0u8; 9];
    match file.read(rt, tree, driver, offset, &mut out) {
        Ok(count) => &out[..count] == text,
        Err(_) => false,
    }
}

/// Whether the step returns what it must, and makes exactly as many calls as it must.
fn is_right<N: Naming, R: Wait>(
    rt: &R,
    tree: &SharedTree<N>,
    file: &mut WaitingFile<N>,
    step: Step,
) -> bool {
    let (plan, calls) = match step {
        Step::Gives(plan, _, _, calls) | Step::Fails(plan, _, calls) => (plan, calls),
        Step::Writes(plan, _, _, calls) | Step::WritesAt(plan, _, _, calls) => (plan, calls),
        Step::ReadsAt(plan, _, calls) => (plan, calls),
        Step::Polls(_) => (Plan::Takes(0), 0),
    };
    let driver = driver_of(plan);
    let is_answered = match step {
        Step::Gives(_, offset, text, _) => gives(rt, tree, file, &driver, (offset, text)),
        Step::Fails(_, why, _) => file.read(rt, tree, &driver, 0, &mut [0u8; 9]) == Err(why),
        Step::Writes(_, bytes, told, _) => file.write(rt, tree, &driver, bytes) == told,
        Step::ReadsAt(_, told, _) => file.read_at(rt, tree, &driver, 3, &mut [0u8; 9]) == told,
        Step::WritesAt(_, bytes, told, _) => file.write_at(rt, tree, &driver, 3, bytes) == told,
        Step::Polls(told) => file.poll() == told,
    };
    is_answered && count_of(&driver.calls) == calls
}

/// Takes the steps. The first step that returns something other than it must stops the test.
pub(crate) fn walk<N: Naming, R: Abort + Wait>(
    rt: &R,
    tree: &SharedTree<N>,
    file: &mut WaitingFile<N>,
    steps: &[Step],
) {
    let mut place = 0usize;
    for step in steps {
        if !is_right(rt, tree, file, *step) {
            panic!(rt; "step {place}");
        }
        place = place.saturating_add(1);
    }
}
