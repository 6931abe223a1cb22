//! Tables that make the files of their attributes: which row serves which file, what a row without a show or
//! without a store refuses, and what a refused table leaves behind.
ghost use Rattle.std.specs.Prelude.{◌≡◌};

use crate::fixtures::made_with;
use crate::steps::{Step, walk};
use kf_core::Refusal;
use kf_driver::{
    BinaryRow, Bytes, Driver, DriverTable, End, LineTags, Lines, Number, Opener, ReadOnly, Row,
    Show, Store, Text, WriteOnly, create_rows, rows,
};
use kf_files::{Fault, Page, Want};
use kf_groups::{Attribute, attribute};
use kf_notify::Posts;
use kf_shared::{Naming, NewTree, SharedTree};
use std::alloc::Global;
use std::marker::Brand;
use std::process::Abort;
use std::sync::Wait;

const LIMIT: Attribute<'static> = attribute!(b"limit", 0o444, 7);

const X: Attribute<'static> = attribute!(b"x", 0o444);

const Y: Attribute<'static> = attribute!(b"y", 0o444);

const LINES: [&[u8]; 2] = [b"line0", b"line1"];

/// The mode of a constant that a macro made. The checker knows this mode.
fn mode() -> u16
    ensures known { result ≡ 292 }
{
    LIMIT.mode
}

/// The files of the first table have the slots 1 to 3. The two lines, each with its files, have the slots 4
/// to 6 and 7 to 9.
static STEPS: [(&[u8], Step<'static>); 12] = [
    // Each file is served by its own row, whatever tag its attribute had.
    (b"/limit", Step::OpensAndShows(b"7\n")),
    (b"/name", Step::OpensAndShows(b"fan\n")),
    (b"/line0/x", Step::OpensAndShows(b"10\n")),
    (b"/line0/y", Step::OpensAndShows(b"11\n")),
    (b"/line1/x", Step::OpensAndShows(b"20\n")),
    (b"/line1/y", Step::OpensAndShows(b"21\n")),
    // What is only read does not open for writing, and what is only written does not open for reading.
    (
        b"/limit",
        Step::Opens(Want::WRITE, false, Some(Refusal::Access)),
    ),
    (
        b"/reset",
        Step::Opens(Want::READ, false, Some(Refusal::Access)),
    ),
    (b"/reset", Step::Opens(Want::WRITE, true, None)),
    // A row that is not visible has no file, and a refused table has none either.
    (
        b"/hidden",
        Step::Opens(Want::READ, false, Some(Refusal::NoEntry)),
    ),
    (
        b"/one",
        Step::Opens(Want::READ, false, Some(Refusal::NoEntry)),
    ),
    (
        b"/two",
        Step::Opens(Want::READ, false, Some(Refusal::NoEntry)),
    ),
];

/// The row of the number shows what a store wrote.
static AFTER: [(&[u8], Step<'static>); 1] = [(b"/limit", Step::OpensAndShows(b"9\n"))];

/// Whether a table is refused with Exists if a later row has the name of an earlier row, or of a file that is
/// already there.
fn are_refused<N: Naming, R: Wait>(rt: &R, tree: &SharedTree<N>) -> bool {
    let twice = rows! {
        Row(attribute!(b"one", 0o444), ReadOnly(Number::new(0, 9))),
        BinaryRow(attribute!(b"two", 0o444), 2, Bytes(b"ab")),
        Row(attribute!(b"one", 0o444), ReadOnly(Number::new(1, 9))),
    };
    let again = Row::new(LIMIT, ReadOnly(Number::new(1, 9)), End);
    let again = BinaryRow::new(attribute!(b"two", 0o444), 2, Bytes(b"ab"), again);
    let mut editor = tree.edit(rt);
    let root = editor.state().root();
    create_rows(&mut editor, root, None, &twice).err() == Some(Refusal::Exists)
        && create_rows(&mut editor, root, None, &again).err() == Some(Refusal::Exists)
}

/// Opens the files of this driver and takes the steps.
fn serves<N: Naming, T: DriverTable, R: Abort + Wait>(
    rt: &R,
    alloc: Global,
    tree: &SharedTree<N>,
    driver: &Driver<T>,
) -> Result<(), Refusal> {
    let mut posts = Posts::new(alloc, 16)?;
    let mut opener = Opener::new(alloc, &mut tree.edit(rt), posts.another()?)?;
    walk(rt, tree, driver, &mut opener, &mut posts, &STEPS);
    let mut reset = opener.open(rt, tree, b"/reset", Want::WRITE)?;
    assert!(rt;
        reset.write(rt, tree, driver, b"9\n") == Ok(2),
        "the store was taken"
    );
    walk(rt, tree, driver, &mut opener, &mut posts, &AFTER);
    Ok(())
}

/// Makes the files of a table and of two lines, and uses them.
fn published<N: Naming, R: Abort + Wait>(
    rt: &R,
    alloc: Global,
    tree: &SharedTree<N>,
) -> Result<(), Refusal> {
    let limit = Number::new(7, 9);
    let others = rows! {
        Row(LIMIT, ReadOnly(&limit)),
        Row(attribute!(b"hidden", 0o444), ReadOnly(Number::new(1, 9))) if false,
        Row(attribute!(b"reset", 0o200), WriteOnly(&limit)),
        Row(attribute!(b"name", 0o444), ReadOnly(Text(b"fan"))) if true,
    };
    let tags = LineTags::new(4, 2);
    let mut lines = Vec::new(alloc);
    let mut editor = tree.edit(rt);
    let root = editor.state().root();
    create_rows(&mut editor, root, None, &others)?;
    for line in 0..2u32 {
        let name = LINES[line as usize];
        let first = 10u64.saturating_mul(u64::from(line).saturating_add(1));
        let rows = rows! {
            Row(X, ReadOnly(Number::new(first, 99))),
            Row(Y, ReadOnly(Number::new(first.saturating_add(1), 99))),
        };
        tags.create_rows(&mut editor, root, Some(name), line, &rows)?;
        lines.push(rows)?;
    }
    drop(editor);
    assert!(rt; are_refused(rt, tree), "a name stood there twice");
    let driver = Driver::new(Lines::new(tags, lines.as_slice(), others));
    serves(rt, alloc, tree, &driver)
}

fn publishes<N: Naming, R: Abort + Wait>(rt: &R, alloc: Global, new: NewTree) -> Result<(), Refusal>
    requires { new.master.table ≡ N.table }
{
    published(rt, alloc, &new.named::<N>())
}

#[test]
fn a_table_makes_the_files_of_its_attributes(rt: HostRuntime) -> Result<(), Refusal> {
    let new = made_with(&rt, rt.alloc(), 16, 2, 8);
    publishes::<Brand, _>(&rt, rt.alloc(), new)
}

#[test]
fn a_row_without_a_callback_refuses_and_changes_nothing(rt: HostRuntime) {
    let limit = Number::new(7, 9);
    let mut page = Page::new();
    let no_callback = Err(Fault { number: 5 });
    assert!(&rt; ReadOnly(&limit).store(b"8") == no_callback);
    assert!(&rt; WriteOnly(&limit).show(&mut page) == no_callback && page.is_empty());
    assert!(&rt; limit.get() == 7, "nothing changed");
    assert!(&rt; WriteOnly(&limit).store(b"8") == Ok(()));
    assert!(&rt;
        ReadOnly(&limit).show(&mut page) == Ok(()) && page.as_slice() == b"8\n".as_slice()
    );
    assert!(&rt; mode() == 0o444);
}
