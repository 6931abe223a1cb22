//! Callbacks that misbehave: they fail, take less than they were given, or remove their own file.
ghost use Rattle.std.specs.Prelude.{◌≡◌};

use super::driver::Plan;
use super::steps::{Step, walk};
use crate::device::fixtures::{BOTH, made, opened, plants};
use kf_core::Refusal;
use kf_files::{Fault, FileError, WaitingFile};
use kf_shared::{Naming, NewTree, SharedTree};
use std::alloc::Global;
use std::marker::Brand;
use std::process::Abort;
use std::sync::Wait;

const FAULT: FileError = FileError::Callback(Fault { number: 5 });

/// A show that fails leaves no text, and a store that fails leaves the text as it was. If a callback takes or
/// gives less than there is, the call says so, and the callback is not called again for the rest.
const FAULTS: [Step; 15] = [
    Step::Polls(true),
    Step::Gives(Plan::Shows(b"abcd"), 0, b"abcd", 1),
    Step::Fails(Plan::Faults(5), FAULT, 1),
    Step::Polls(false),
    Step::Gives(Plan::Shows(b"wxyz"), 2, b"yz", 1),
    Step::Writes(Plan::Faults(5), b"q", Err(FAULT), 1),
    Step::Gives(Plan::Shows(b"abcd"), 2, b"yz", 0),
    Step::Writes(Plan::Takes(1), b"", Ok(0), 0),
    Step::Writes(Plan::Takes(1), b"wxyz", Ok(1), 1),
    Step::Writes(Plan::Takes(9), b"q", Ok(9), 1),
    Step::ReadsAt(Plan::Faults(5), Err(FAULT), 1),
    Step::ReadsAt(Plan::Takes(4), Ok(4), 1),
    Step::WritesAt(Plan::Faults(5), b"q", Err(FAULT), 1),
    Step::WritesAt(Plan::Takes(1), b"", Ok(0), 0),
    Step::WritesAt(Plan::Takes(1), b"wxyz", Ok(1), 1),
];

const GONE: FileError = FileError::Refused(Refusal::NoDevice);

const LEAVES: [Step; 8] = [
    Step::Gives(Plan::Leaves(b"abcd"), 0, b"abcd", 1),
    Step::Gives(Plan::Shows(b"x"), 2, b"cd", 0),
    Step::Fails(Plan::Shows(b"x"), GONE, 0),
    Step::Writes(Plan::Shows(b"x"), b"", Err(GONE), 0),
    Step::Writes(Plan::Shows(b"x"), b"q", Err(GONE), 0),
    Step::ReadsAt(Plan::Shows(b"x"), Err(GONE), 0),
    Step::WritesAt(Plan::Shows(b"x"), b"q", Err(GONE), 0),
    Step::Gives(Plan::Shows(b"x"), 2, b"cd", 0),
];

// If a call on a file took the tree's lock, it would wait here forever.
fn walk_under_an_editor<N: Naming, R: Abort + Wait>(
    rt: &R,
    tree: &SharedTree<N>,
    file: &mut WaitingFile<N>,
) {
    let editor = tree.edit(rt);
    walk(rt, tree, file, &FAULTS);
    drop(editor);
}

fn calls_once<N: Naming, R: Abort + Wait>(rt: &R, alloc: Global, new: NewTree)
    requires { new.master.table ≡ N.table }
{
    let tree = new.named::<N>();
    assert!(rt; plants(rt, &tree, b"t", 7));
    let Some(mut file) = opened(rt, alloc, &tree, b"/t", BOTH) else {
        panic!(rt; "not opened")
    };
    walk_under_an_editor(rt, &tree, &mut file);
    walk(rt, &tree, &mut file, &LEAVES);
}

#[test]
fn callbacks_are_called_once_while_the_tree_is_edited(rt: HostRuntime) {
    let new = made(&rt, rt.alloc(), 8);
    calls_once::<Brand, _>(&rt, rt.alloc(), new);
}
