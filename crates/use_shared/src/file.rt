//! An open file with your own callbacks: the attribute `limit` of a fan is a number, which a read shows
//! in decimal and a write replaces.

ghost use Rattle.std.specs.Prelude.{◌≡◌, Ok, decimal};

use anyhow::Context;
use itoa::Buffer;
use kf_core::{Limits, Node, Refusal};
use kf_files::{Fault, FileError, OpenFile, Ops, Page, PageApart, Want};
use kf_notify::{Post, Posts};
use kf_shared::{Naming, NewTree, SharedTree};
use kf_words::{Call, Seats};
use std::alloc::Global;
use std::io;
use std::marker::Brand;
use std::sync::Wait;

/// What a store returns if the bytes are no number (`EINVAL`).
const NO_NUMBER: Fault = Fault { number: 22 };

/// The open file. Its page is in a box, so that a move of the file copies none of the page's 4,096 bytes.
type LimitFile = OpenFile<Seats, Box<PageApart>>;

/// What the driver stores: the number that its attribute shows.
#[derive(Drop)]
struct FanDriver {
    limit: u32,
}

impl Ops<Call> for FanDriver {
    ghost shows = { λ before _ filled after. (after ≡ before) × (filled ≡ Ok (decimal before.limit)) };

    ghost stores = { λ _ _ _ _ _. Unit {0} };

    /// Fills the page with the number.
    fn show(&mut self, call: &mut Call, tag: u64, page: &mut Page) -> Result<(), Fault> {
        let _ = call;
        let _ = tag;
        let mut buffer = Buffer::new();
        let _ = page.try_extend_from_slice(buffer.format(self.limit).as_bytes());
        Ok(())
    }

    /// Stores the number, if the bytes spell one.
    fn store(&mut self, call: &mut Call, tag: u64, bytes: &[u8]) -> Result<usize, Fault> {
        let _ = call;
        let _ = tag;
        let text = str::from_utf8(bytes).ok().ok_or(NO_NUMBER)?;
        self.limit = text.parse().ok().ok_or(NO_NUMBER)?;
        Ok(bytes.len())
    }
}

/// Creates the file `/limit` and opens it.
fn open<N: Naming, R: Wait>(
    rt: &R,
    alloc: Global,
    tree: &SharedTree<N>,
    post: Post,
) -> Result<LimitFile, Refusal> {
    let page = Box::new(alloc, PageApart::new())?;
    let mut editor = tree.edit(rt);
    let root = editor.state().root();
    let node = Node::File {
        mode: 0o644,
        tag: 1,
    };
    let key = editor.create(root, b"limit", node, true)?;
    let hold = editor.hold(key)?;
    match OpenFile::open_on(&mut Seats, hold, node, Want::BOTH, post, page) {
        Ok(file) => Ok(file),
        Err((hold, _, _, refusal)) => {
            hold.release();
            Err(refusal)
        }
    }
}

/// Prints why a call failed.
fn print_error<R: Print>(rt: &R, error: FileError) -> io::Result<()> {
    match error {
        FileError::Callback(fault) => println!(rt; "the driver's fault {}", fault.number),
        FileError::Refused(refusal) => println!(rt; "{refusal}"),
    }
}

/// Reads the file, and prints what the read returned.
fn read<R: Print>(rt: &R, file: &mut LimitFile, driver: &mut FanDriver) -> anyhow::Result<()> {
    let mut out = [0u8; 16];
    match file.read(&mut Seats, driver, 0, &mut out) {
        Ok(count) => {
            rt.write_all(b"the limit is ")?;
            rt.write_all(&out[..count])?;
            rt.write_all(b"\n")?;
        }
        Err(error) => print_error(rt, error)?,
    }
    Ok(())
}

/// Writes a text, and prints the result.
fn write<R: Print>(
    rt: &R,
    file: &mut LimitFile,
    driver: &mut FanDriver,
    text: &[u8],
) -> anyhow::Result<()> {
    match file.write(&mut Seats, driver, text) {
        Ok(count) => println!(rt; "a store took {count} bytes")?,
        Err(error) => print_error(rt, error)?,
    }
    Ok(())
}

/// Reads, writes and reads again.
fn try_out<R: Print>(rt: &R, file: &mut LimitFile, driver: &mut FanDriver) -> anyhow::Result<()> {
    read(rt, file, driver)?;
    write(rt, file, driver, b"85")?;
    write(rt, file, driver, b"hot")?;
    read(rt, file, driver)?;
    println!(rt; "changed since: {}", file.poll(&mut Seats))?;
    Ok(())
}

fn run<N: Naming, R: Wait + Print>(rt: &R, alloc: Global, new: NewTree) -> anyhow::Result<()>
    requires { new.master.table ≡ N.table }
{
    let tree = new.named::<N>();
    let post = Posts::new(alloc, 16)?.post(1)?;
    let mut file = open(rt, alloc, &tree, post)?;
    let told = try_out(rt, &mut file, &mut FanDriver { limit: 70 });
    let (hold, _, _) = file.into_parts();
    hold.release();
    told
}

/// Makes a tree, and tries out a file in it.
pub(crate) fn start<R: Wait + Print>(rt: &R, alloc: Global) -> anyhow::Result<()> {
    let limits = Limits::new(16, 100).context("16 slots and 100 holds are within the limits")?;
    run::<Brand, _>(rt, alloc, SharedTree::<Brand>::new(alloc, limits)?)
}
