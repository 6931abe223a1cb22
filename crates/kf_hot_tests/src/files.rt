//! What the tests of a hot node's open files have in common.
ghost use Rattle.std.specs.Prelude.{◌≡◌};

use kf_core::{ActiveCall, Key, Node, Refusal};
use kf_files::{Fault, FileError, OpenFile, Ops, Page, Want};
use kf_hot::{HotCall, HotPass, HotPasses};
use kf_notify::{Post, Posts};
use std::alloc::Global;
use std::process::Abort;

/// The tag of the tests' file.
pub(crate) const TAG: u64 = 7;

/// The tests' file, which may be read and written.
pub(crate) const FILE: Node = Node::File {
    mode: 0o644,
    tag: TAG,
};

/// What a call on a file returns if its node is not live.
pub(crate) const GONE: FileError = FileError::Refused(Refusal::NoDevice);

/// The callbacks of one file: a show fills the page with the text, and a store replaces the text.
#[derive(Drop)]
pub(crate) struct Text {
    text: Page,
    /// How many callbacks have run.
    pub(crate) calls: u64,
    /// The node and the tag of the last callback.
    pub(crate) last: Option<(Key, u64)>,
}

impl Text {
    /// Callbacks that show this text.
    pub(crate) fn new(text: &[u8]) -> Text {
        let mut page = Page::new();
        let _ = page.try_extend_from_slice(text);
        Text {
            text: page,
            calls: 0,
            last: None,
        }
    }

    fn count(&mut self, key: Key, tag: u64) {
        self.calls = self.calls.wrapping_add(1);
        self.last = Some((key, tag));
    }
}

impl Ops<HotCall> for Text {
    ghost shows = { λ _ _ _ _. Unit {0} };

    ghost stores = { λ _ _ _ _ _. Unit {0} };

    fn show(&mut self, call: &mut HotCall, tag: u64, page: &mut Page) -> Result<(), Fault> {
        self.count(call.key(), tag);
        let _ = page.try_extend_from_slice(self.text.as_slice());
        Ok(())
    }

    fn store(&mut self, call: &mut HotCall, tag: u64, bytes: &[u8]) -> Result<usize, Fault> {
        self.count(call.key(), tag);
        self.text.clear();
        let _ = self.text.try_extend_from_slice(bytes);
        Ok(bytes.len())
    }
}

/// The event numbers of the 8 slots.
pub(crate) fn posts_of<R: Abort>(rt: &R, alloc: Global) -> Posts {
    match Posts::new(alloc, 8) {
        Ok(posts) => posts,
        Err(_) => panic!(rt; "no memory"),
    }
}

/// A post of this slot.
pub(crate) fn post_at<R: Abort>(rt: &R, posts: &mut Posts, slot: u32) -> Post {
    assert!(rt; slot < posts.slots(), "the slot has a number");
    match posts.post(slot) {
        Ok(post) => post,
        Err(_) => panic!(rt; "no memory"),
    }
}

/// Raises the event number of this slot, and returns the new number.
pub(crate) fn tell<R: Abort>(rt: &R, posts: &mut Posts, slot: u32) -> u64 {
    assert!(rt; slot < posts.slots(), "the slot has a number");
    match posts.notify(slot) {
        Ok(number) => number,
        Err(_) => panic!(rt; "the last number"),
    }
}

/// The file, opened by this pass for reading and writing.
pub(crate) fn opened_by<R: Abort>(rt: &R, pass: HotPass, post: Post) -> OpenFile<HotPasses> {
    match OpenFile::open(&mut HotPasses, pass, FILE, Want::BOTH, post) {
        Ok(file) => file,
        Err(_) => panic!(rt; "not opened"),
    }
}

/// Tries to open the file by this pass, which must be refused. Returns the pass and the post.
pub(crate) fn not_opened<R: Abort>(rt: &R, pass: HotPass, post: Post) -> (HotPass, Post)
    ensures seat { result.0.pass.seat ≡ pass.pass.seat }
{
    match OpenFile::open(&mut HotPasses, pass, FILE, Want::BOTH, post) {
        Ok(_) => panic!(rt; "opened by a pass that is over"),
        Err((pass, post, why)) => {
            assert!(rt; why == Refusal::NoDevice);
            (pass, post)
        }
    }
}

/// Reads from this offset on, which must return this text.
pub(crate) fn reads<R: Abort>(
    rt: &R,
    file: &mut OpenFile<HotPasses>,
    text: &mut Text,
    offset: u64,
    wanted: &[u8],
) {
    let mut out = [0u8; 9];
    match file.read(&mut HotPasses, text, offset, &mut out) {
        Ok(count) => assert!(rt; &out[..count] == wanted),
        Err(_) => panic!(rt; "not read"),
    }
}
