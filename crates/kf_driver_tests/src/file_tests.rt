//! Files of a group, by their paths: what opens them, what they show and store, how often their callbacks are
//! called, and which polls see a change.
ghost use Rattle.std.specs.Prelude.{◌≡◌, ◌≤◌, length};

use crate::counted::Counted;
use crate::fixtures::made_with;
use crate::steps::{Step, walk};
use kf_core::Refusal;
use kf_driver::{
    Driver, Notifying, Number, Opener, ReadOnly, Rows, Signed, Switch, create_rows, post_of, rows,
};
use kf_files::{Fault, FileError, Want};
use kf_groups::{Attribute, Group, attribute, create_group};
use kf_notify::{Post, Posts};
use kf_shared::{Naming, NewTree, SharedTree};
use std::alloc::Global;
use std::marker::Brand;
use std::process::Abort;
use std::sync::Wait;
use std::sync::atomic::AtomicU64;

const OWN: FileError = FileError::Callback(Fault { number: 5 });

const INVALID: FileError = FileError::Callback(Fault { number: 22 });

const RANGE: FileError = FileError::Callback(Fault { number: 34 });

static STEPS: [(&[u8], Step<'static>); 72] = [
    // A file opens without the lock if its slot has words for look-ups, and not otherwise.
    (b"/c", Step::Opens(Want::BOTH, true, None)),
    (b"/g/r", Step::Opens(Want::READ, true, None)),
    (b"/unknown", Step::Opens(Want::READ, false, None)),
    (
        b"/none",
        Step::Opens(Want::READ, false, Some(Refusal::NoEntry)),
    ),
    (b"/g", Step::Opens(Want::READ, false, Some(Refusal::IsDir))),
    (
        b"/g/r",
        Step::Opens(Want::WRITE, false, Some(Refusal::Access)),
    ),
    (b"/c", Step::Opens(Want::WRITE, true, None)),
    (b"/all_read", Step::Opens(Want::READ, false, None)),
    (
        b"/all_read",
        Step::Opens(Want::WRITE, false, Some(Refusal::Access)),
    ),
    (b"/owner_writes", Step::Opens(Want::WRITE, false, None)),
    (
        b"/owner_writes",
        Step::Opens(Want::READ, false, Some(Refusal::Access)),
    ),
    // What is opened is the file of the whole path, with the lock (for long names) and without it.
    (b"/n", Step::OpensAndShows(b"5\n")),
    (b"/s", Step::OpensAndShows(b"-1\n")),
    (
        b"/temperature_of_the_first_core",
        Step::OpensAndShows(b"1\n"),
    ),
    (
        b"/temperature_of_the_first_coil",
        Step::OpensAndShows(b"2\n"),
    ),
    // One read is one show, and one write is one store, even after a fault.
    (b"/c", Step::Shows(Ok(b"0000"))),
    (b"/c", Step::Shows(Ok(b"0001"))),
    (b"/c", Step::Shows(Err(OWN))),
    (b"/c", Step::Shows(Ok(b"0003"))),
    (b"/c", Step::Stores(b"0x1f\n", Ok(5))),
    (b"/c", Step::Shows(Ok(b"0104"))),
    (b"/c", Step::Stores(b"0X20", Err(RANGE))),
    (b"/c", Step::Shows(Ok(b"0205"))),
    (b"/c", Step::Stores(b"+037", Ok(4))),
    (b"/c", Step::Stores(b"040", Err(RANGE))),
    (b"/c", Step::Stores(b"31", Ok(2))),
    (b"/c", Step::Stores(b"08", Err(INVALID))),
    (b"/c", Step::Stores(b"0x", Err(INVALID))),
    (b"/c", Step::Stores(b"0x0x1", Err(INVALID))),
    (b"/c", Step::Stores(b"1f", Err(INVALID))),
    (b"/c", Step::Stores(b"-1", Err(INVALID))),
    (b"/c", Step::Stores(b"on\n", Ok(3))),
    (b"/c", Step::Stores(b"on \n", Err(INVALID))),
    (b"/c", Step::Shows(Ok(b"0c06"))),
    (b"/unknown", Step::Shows(Err(INVALID))),
    (b"/unknown", Step::Stores(b"1", Err(INVALID))),
    // A show gives what was stored last.
    (b"/n", Step::Shows(Ok(b"5\n"))),
    (b"/n", Step::Stores(b"18446744073709551615\n", Ok(21))),
    (b"/n", Step::Shows(Ok(b"18446744073709551615\n"))),
    (b"/n", Step::Stores(b"18446744073709551616", Err(RANGE))),
    (b"/n", Step::Stores(b"7\n\n", Err(INVALID))),
    (b"/n", Step::Stores(b" 7", Err(INVALID))),
    (b"/n", Step::Stores(b"\n", Err(INVALID))),
    (b"/n", Step::Stores(b"7\n\0\0", Ok(4))),
    (b"/n", Step::Shows(Ok(b"7\n"))),
    (b"/s", Step::Shows(Ok(b"-1\n"))),
    (b"/s", Step::Stores(b"10", Err(RANGE))),
    (b"/s", Step::Stores(b"-9223372036854775809", Err(RANGE))),
    (b"/s", Step::Stores(b"-+5", Err(INVALID))),
    (b"/s", Step::Stores(b"-9223372036854775808", Ok(20))),
    (b"/s", Step::Shows(Ok(b"-9223372036854775808\n"))),
    (b"/w", Step::Shows(Ok(b"0\n"))),
    (b"/w", Step::Stores(b"oN", Ok(2))),
    (b"/w", Step::Shows(Ok(b"1\n"))),
    (b"/w", Step::Stores(b"o", Err(INVALID))),
    (b"/w", Step::Stores(b"2", Err(INVALID))),
    (b"/w", Step::Shows(Ok(b"1\n"))),
    (b"/w", Step::Stores(b"False\n", Ok(6))),
    (b"/w", Step::Shows(Ok(b"0\n"))),
    // A poll sees a store that raises the event number of its file, and sees a notify by name, too.
    (b"/v", Step::Tells(b"1", b"/w")),
    (b"/v", Step::Tells(b"1", b"/n")),
    (b"/v", Step::Tells(b"1", b"/s")),
    (b"/v", Step::Shows(Ok(b"1\n"))),
    // A store that is refused raises no number.
    (b"/v", Step::Refuses(b"2", b"/w")),
    (b"/v", Step::Refuses(b"2", b"/w")),
    (b"/v", Step::Shows(Ok(b"1\n"))),
    (b"/v", Step::Tells(b"0", b"/w")),
    (b"/w", Step::Notifies(b"w", b"/v")),
    (b"/v", Step::Notifies(b"v", b"/w")),
    (b"/n", Step::Notifies(b"n", b"/s")),
    (b"/c", Step::Opens(Want::BOTH, true, None)),
    (b"/w", Step::Shows(Ok(b"0\n"))),
];

/// What opens in a tree that has no words for look-ups.
static WITHOUT_LOOKS: [(&[u8], Step<'static>); 5] = [
    (b"/c", Step::Opens(Want::BOTH, false, None)),
    (
        b"/none",
        Step::Opens(Want::READ, false, Some(Refusal::NoEntry)),
    ),
    (b"/n", Step::OpensAndShows(b"5\n")),
    (
        b"/temperature_of_the_first_core",
        Step::OpensAndShows(b"1\n"),
    ),
    (
        b"/temperature_of_the_first_coil",
        Step::OpensAndShows(b"2\n"),
    ),
];

/// A group whose nodes have the slots 1 and 2.
const GROUP: Group<'static> = Group {
    name: Some(b"g"),
    attributes: &[attribute!(b"r", 0o444, 10)],
};

/// Makes a directory with a file.
fn plant_group<N: Naming, R: Wait>(rt: &R, tree: &SharedTree<N>) -> Result<(), Refusal> {
    let mut editor = tree.edit(rt);
    let root = editor.state().root();
    create_group(&mut editor, root, &GROUP)?;
    Ok(())
}

/// Makes files that have no row. Their slots are 10 to 12.
fn plant_others<N: Naming, R: Wait>(rt: &R, tree: &SharedTree<N>) -> Result<(), Refusal> {
    let others = [
        Attribute::read_write(b"unknown", 7),
        Attribute::read_only(b"all_read", 8),
        Attribute::write_only(b"owner_writes", 9),
    ];
    let mut editor = tree.edit(rt);
    let root = editor.state().root();
    create_group(&mut editor, root, &Group::new(None, &others))?;
    Ok(())
}

/// Makes all files. Those of the table have the slots 3 to 9.
fn plant<N: Naming, T: Rows, R: Wait>(rt: &R, tree: &SharedTree<N>, rows: &T) -> Result<(), Refusal>
    requires few { length (T.attributes rows.now) ≤ 64 }
{
    plant_group(rt, tree)?;
    let mut editor = tree.edit(rt);
    let root = editor.state().root();
    create_rows(&mut editor, root, None, rows)?;
    drop(editor);
    plant_others(rt, tree)
}

/// A post of the file `v`.
fn post_of_v<N: Naming, R: Wait>(
    rt: &R,
    tree: &SharedTree<N>,
    posts: &mut Posts,
) -> Result<Post, Refusal> {
    let reader = tree.read(rt);
    post_of(reader.state(), posts, reader.state().root(), b"v")
}

/// Makes the files and takes the steps. Each store to the switch `v` raises its event number.
fn answer<N: Naming, R: Abort + Wait>(
    rt: &R,
    tree: &SharedTree<N>,
    opener: &mut Opener<N>,
    posts: &mut Posts,
    steps: &[(&[u8], Step<'_>)],
) -> Result<(), Refusal> {
    let rows = rows! {
        Row(attribute!(b"w", 0o644), Switch::new(false)),
        Row(attribute!(b"v", 0o644), Notifying::new(rt, Switch::new(false))),
        Row(attribute!(b"s", 0o644), Signed::new(-1, i64::MIN, 9)),
        Row(attribute!(b"n", 0o644), Number::new(5, u64::MAX)),
        Row(attribute!(b"c", 0o644), Counted { calls: AtomicU64::new(0) }),
        Row(attribute!(b"temperature_of_the_first_core", 0o444), ReadOnly(Number::new(1, 9))),
        Row(attribute!(b"temperature_of_the_first_coil", 0o444), ReadOnly(Number::new(2, 9))),
    };
    plant(rt, tree, &rows)?;
    rows.others()
        .callbacks()
        .notifier
        .set(post_of_v(rt, tree, posts)?);
    walk(rt, tree, &Driver::new(rows), opener, posts, steps);
    Ok(())
}

fn opened<N: Naming, R: Abort + Wait>(
    rt: &R,
    alloc: Global,
    tree: &SharedTree<N>,
    steps: &[(&[u8], Step<'_>)],
) -> Result<(), Refusal> {
    let mut posts = Posts::new(alloc, 13)?;
    let mut opener = Opener::new(alloc, &mut tree.edit(rt), posts.another()?)?;
    answer(rt, tree, &mut opener, &mut posts, steps)
}

fn files<N: Naming, R: Abort + Wait>(
    rt: &R,
    alloc: Global,
    new: NewTree,
    steps: &[(&[u8], Step<'_>)],
) -> Result<(), Refusal>
    requires { new.master.table ≡ N.table }
{
    opened(rt, alloc, &new.named::<N>(), steps)
}

#[test]
fn files_answer_as_their_attributes_do(rt: HostRuntime) -> Result<(), Refusal> {
    let new = made_with(&rt, rt.alloc(), 16, 2, 8);
    files::<Brand, _>(&rt, rt.alloc(), new, &STEPS)
}

#[test]
fn files_open_in_a_tree_without_look_ups(rt: HostRuntime) -> Result<(), Refusal> {
    let new = made_with(&rt, rt.alloc(), 16, 2, 0);
    files::<Brand, _>(&rt, rt.alloc(), new, &WITHOUT_LOOKS)
}
