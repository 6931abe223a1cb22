//! A file of a shared tree, whose callbacks may wait.

ghost use Rattle.std.specs.Prelude.{◌≡◌, ◌≤◌, length, IfOk, IfErr, IsTrue, IsFalse, MatchResult};
ghost use Rattle.kf_notify.specs.PostStates.{Took, IsSamePost};
ghost use Rattle.kf_words.specs.Callers.{IsSameSeat};
ghost use Rattle.kf_pages.specs.Files.{Opens, Reads, Writes, Polls, Gives, new_file, tag_of};
ghost use Rattle.kf_pages.specs.Binary.{ReadsAt};
ghost use Rattle.kf_files.specs.Opened.{hold_after, paged_after, paged_refusal, refusal_of};
ghost use Rattle.kf_files.specs.Waiting.{WaitVisits, MayStore, MayReadAt, MayWriteAt, HasChanged};

use crate::open_file::OpenFile;
use crate::tree_seats::{TreeCall, TreeHold, TreeSeats};
use crate::wait_binary_ops::WaitBinaryOps;
use crate::wait_ops::WaitOps;
use kf_core::{Node, Refusal};
use kf_notify::{Deadline, Post};
use kf_pages::{BinaryOps, Fault, FileError, Ops, Page, PageApart, PageHolder, Want};
use kf_shared::{Naming, SharedTree};
use kf_words::Hold;
use std::marker::Model;
use std::sync::Wait;
use std::time::{Clock, Duration};

/// Callbacks that may wait, with the tree and the runtime that they borrow.
#[derive(Drop)]
struct Lent<'a, W, N: Naming, R: Wait> {
    ops: &'a W,
    tree: &'a SharedTree<N>,
    rt: &'a R,
}

impl<'a, W: WaitOps<N>, N: Naming, R: Wait> Ops<TreeCall<N>> for Lent<'a, W, N, R> {
    ghost use Rattle.std.specs.Prelude.{◌≡◌};

    ghost shows = { λ lent tag filled lent'. W.may_show lent.ops.now tag filled × (lent' ≡ lent) };

    ghost stores = { λ lent tag bytes answer lent'.
        W.may_store lent.ops.now tag bytes answer × (lent' ≡ lent) };

    fn show(&mut self, call: &mut TreeCall<N>, tag: u64, page: &mut Page) -> Result<(), Fault> {
        self.ops.show(self.rt, self.tree, &mut call.call, tag, page)
    }

    fn store(&mut self, call: &mut TreeCall<N>, tag: u64, bytes: &[u8]) -> Result<usize, Fault> {
        self.ops
            .store(self.rt, self.tree, &mut call.call, tag, bytes)
    }
}

impl<'a, W: WaitBinaryOps<N>, N: Naming, R: Wait> BinaryOps<TreeCall<N>> for Lent<'a, W, N, R> {
    ghost use Rattle.std.specs.Prelude.{◌≡◌};

    ghost reads_at = { λ lent tag offset room answer lent'.
        W.may_read_at lent.ops.now tag offset room answer × (lent' ≡ lent) };

    ghost writes_at = { λ lent tag offset bytes answer lent'.
        W.may_write_at lent.ops.now tag offset bytes answer × (lent' ≡ lent) };

    fn read_at(
        &mut self,
        call: &mut TreeCall<N>,
        tag: u64,
        offset: u64,
        out: &mut [u8],
    ) -> Result<usize, Fault> {
        self.ops
            .read_at(self.rt, self.tree, &mut call.call, tag, offset, out)
    }

    fn write_at(
        &mut self,
        call: &mut TreeCall<N>,
        tag: u64,
        offset: u64,
        bytes: &[u8],
    ) -> Result<usize, Fault> {
        self.ops
            .write_at(self.rt, self.tree, &mut call.call, tag, offset, bytes)
    }
}

/// A file of the shared tree with this name, opened with a hold of its node (`struct kernfs_open_file`). It
/// keeps the hold and a post of its slot until it is closed. A try and the end of a call take no lock and
/// wait for nobody: only callbacks get the runtime.
///
/// Its page is part of it, or was passed in. A [`BoxedFile`] has a box that the caller lends, so the page's
/// 4,096 bytes are never moved. A file that is dropped releases its hold.
///
/// Its contracts are those of [`OpenFile`]. For each visit to the node they also say what the try found: if
/// the try succeeded, the key was live; if not, it found a word that keeps it out. For a callback they say
/// what it may return.
pub struct WaitingFile<N: Naming, P: PageHolder = Page> {
    file: OpenFile<TreeSeats<N>, P>,
    // Keeps files that lie side by side two cache lines apart, since threads write to different files at
    // once.
    apart: [u64; 16],
}

/// A file whose page is in a box. The caller passes the box in, and gets it back from `into_parts`.
pub type BoxedFile<N> = WaitingFile<N, Box<PageApart>>;

impl<N: Naming, P: PageHolder> Model for WaitingFile<N, P> {
    ghost use Rattle.kf_words.specs.Callers.{Handle};
    ghost use Rattle.kf_files.specs.Opened.{Opened};

    ghost Value = { Opened Handle };

    ghost view = { λ f. f.file };
}

impl<N: Naming> WaitingFile<N> {
    /// Opens a file whose node is live (`kernfs_fop_open`). It starts with no text and the event number 0.
    ///
    /// Condition: the hold is of this tree's table, the node is the hold's, and the post is of its slot.
    ///
    /// Refusals, in order: `IsDir` for a directory, `Invalid` for a link, `NoDevice` if the node is not live,
    /// `Access` if the mode forbids what was asked for. (The mode forbids reading if it has no bit of 0o444,
    /// and writing if it has no bit of 0o222.) After a refusal the hold and the post are returned.
    pub fn open(
        hold: Hold,
        node: Node,
        want: Want,
        post: Post,
    ) -> Result<WaitingFile<N>, (Hold, Post, Refusal)>
        requires table { hold.table ≡ N.table }
        requires node { node ≡ hold.node }
        requires slot { post.slot ≡ hold.key.slot }
        ensures opens { Opens (WaitVisits (Unit {0}) (λ _. Unit {0}) hold (hold_after result))
            node want (refusal_of result) }
        ensures new { IfOk result (λ file. file.state ≡ new_file want) }
        ensures tag { IfOk result (λ file. file.tag ≡ tag_of node) }
        ensures post { MatchResult result (λ file. file.post ≡ post) (λ back. back.1 ≡ post) }
        ensures back { IfErr result (λ back. back.0.table ≡ N.table) }
    {
        match WaitingFile::open_on(hold, node, want, post, Page::new()) {
            Ok(file) => Ok(file),
            Err((hold, post, _page, refusal)) => Err((hold, post, refusal)),
        }
    }

    /// Closes the file, and returns its hold and its post (`kernfs_fop_release`).
    pub fn close(self) -> (Hold, Post)
        ensures hold { result.0 ≡ self.hold }
        ensures post { result.1 ≡ self.post }
        ensures table { result.0.table ≡ N.table }
    {
        let (hold, post, _page) = self.into_parts();
        (hold, post)
    }
}

impl<N: Naming, P: PageHolder> WaitingFile<N, P> {
    /// Like [`WaitingFile::open`], but on a page that the caller lends. The bytes of this page do not matter.
    /// After a refusal the page is returned too.
    ///
    /// Condition: the hold is of this tree's table, the node is the hold's, and the post is of its slot.
    pub fn open_on(
        hold: Hold,
        node: Node,
        want: Want,
        post: Post,
        page: P,
    ) -> Result<WaitingFile<N, P>, (Hold, Post, P, Refusal)>
        requires table { hold.table ≡ N.table }
        requires node { node ≡ hold.node }
        requires slot { post.slot ≡ hold.key.slot }
        ensures opens { Opens (WaitVisits (Unit {0}) (λ _. Unit {0}) hold (paged_after result))
            node want (paged_refusal result) }
        ensures new { IfOk result (λ file. file.state ≡ new_file want) }
        ensures tag { IfOk result (λ file. file.tag ≡ tag_of node) }
        ensures post { MatchResult result (λ file. file.post ≡ post) (λ back. back.1 ≡ post) }
        ensures back { IfErr result (λ back. back.0.table ≡ N.table) }
    {
        let mut seats = TreeSeats::new();
        match OpenFile::open_on(&mut seats, TreeHold::new(hold), node, want, post, page) {
            Ok(file) => Ok(WaitingFile {
                file,
                apart: [0; 16],
            }),
            Err((hold, post, page, refusal)) => Err((hold.into_hold(), post, page, refusal)),
        }
    }

    /// Reads the text from the offset on, in bytes, into the front of `out`, and returns how many bytes it
    /// put there (`kernfs_fop_read_iter`). At offset 0, or if no text is buffered, the text is shown anew
    /// under a call, after its event number was taken. Otherwise it is the buffered text, for which the node
    /// need not be live.
    ///
    /// Refusals, in order: `Access` if the file was not opened for reading, `NoDevice` if the node is not
    /// live. Both change nothing. A fault of the show is returned as `Callback`, and leaves no buffered text.
    /// The rest of `out` stays as it was, and after an error all of `out` does. It may never return, since
    /// its show may never return.
    ///
    /// Context: takes no lock, and sleeps only if its callback does.
    pub fn read<W: WaitOps<N>, R: Wait>(
        &mut self,
        rt: &R,
        tree: &SharedTree<N>,
        ops: &W,
        offset: u64,
        out: &mut [u8],
    ) -> Result<usize, FileError>
        ensures reads { Reads
            (WaitVisits (self.new.post ≡ self.old.post)
            (λ shown.
            Took self.old.post shown.number self.new.post × W.may_show ops.now self.old.tag shown.filled)
            self.old.hold self.new.hold)
            (Gives out.old result out.new) self.old.state offset (length out.old) self.new.state }
        ensures fits { IfOk result (λ count. count ≤ length out.new) }
        ensures same { self.new ≡
            record self.old { hold = self.new.hold; post = self.new.post; state = self.new.state } }
    {
        let mut shows = Lent { ops, tree, rt };
        self.file
            .read(&mut TreeSeats::new(), &mut shows, offset, out)
    }

    /// Passes the first 4,096 bytes to one store under a call, and returns what the store returns, a fault as
    /// `Callback` (`kernfs_fop_write_iter`). A write of no bytes returns 0 and calls no store, but it too
    /// needs a live node.
    ///
    /// Refusals, in order: `Access` if the file was not opened for writing, `NoDevice` if the node is not
    /// live. The file stays as it was. It may never return, since its store may never return.
    ///
    /// Context: takes no lock, and sleeps only if its callback does.
    pub fn write<W: WaitOps<N>, R: Wait>(
        &mut self,
        rt: &R,
        tree: &SharedTree<N>,
        ops: &W,
        bytes: &[u8],
    ) -> Result<usize, FileError>
        ensures writes { Writes
            (WaitVisits (Unit {0}) (MayStore (W.may_store ops.now) self.old.tag bytes.now)
            self.old.hold self.new.hold)
            self.old.state result }
        ensures same { self.new ≡ record self.old { hold = self.new.hold } }
    {
        let mut stores = Lent { ops, tree, rt };
        self.file.write(&mut TreeSeats::new(), &mut stores, bytes)
    }

    /// Reads bytes of a binary attribute from the offset on into the front of `out` (`sysfs_kf_bin_read`). It
    /// makes one read callback under a call, after its event number was taken, and returns what the callback
    /// returns: how many bytes it read, or a fault as `Callback`. If `out` is empty it returns 0 and calls no
    /// callback, but it too needs a live node. No text is kept.
    ///
    /// Refusals, in order: `Access` if the file was not opened for reading, `NoDevice` if the node is not
    /// live. Both change nothing. It may never return, since its callback may never return.
    ///
    /// Context: takes no lock, and sleeps only if its callback does.
    pub fn read_at<W: WaitBinaryOps<N>, R: Wait>(
        &mut self,
        rt: &R,
        tree: &SharedTree<N>,
        ops: &W,
        offset: u64,
        out: &mut [u8],
    ) -> Result<usize, FileError>
        ensures reads { ReadsAt
            (WaitVisits ((self.new.post ≡ self.old.post) × (out.new ≡ out.old))
            (λ read. Took self.old.post read.number self.new.post
            × MayReadAt (W.may_read_at ops.now) self.old.tag offset out.old out.new read.answer)
            self.old.hold self.new.hold)
            self.old.state result self.new.state }
        ensures fits { IfOk result (λ count. count ≤ length out.new) }
        ensures same { self.new ≡
            record self.old { hold = self.new.hold; post = self.new.post; state = self.new.state } }
    {
        let mut reads = Lent { ops, tree, rt };
        self.file
            .read_at(&mut TreeSeats::new(), &mut reads, offset, out)
    }

    /// Passes all the bytes to one write callback of a binary attribute, at the offset and under a call, and
    /// returns what the callback returns, a fault as `Callback` (`sysfs_kf_bin_write`). A write of no bytes
    /// returns 0 and calls no callback, but it too needs a live node.
    ///
    /// Refusals, in order: `Access` if the file was not opened for writing, `NoDevice` if the node is not
    /// live. The file stays as it was. It may never return, since its callback may never return.
    ///
    /// Context: takes no lock, and sleeps only if its callback does.
    pub fn write_at<W: WaitBinaryOps<N>, R: Wait>(
        &mut self,
        rt: &R,
        tree: &SharedTree<N>,
        ops: &W,
        offset: u64,
        bytes: &[u8],
    ) -> Result<usize, FileError>
        ensures writes { Writes
            (WaitVisits (Unit {0})
            (MayWriteAt (W.may_write_at ops.now) self.old.tag offset bytes.now)
            self.old.hold self.new.hold)
            self.old.state result }
        ensures fits { IfOk result (λ count. count ≤ length bytes.now) }
        ensures same { self.new ≡ record self.old { hold = self.new.hold } }
    {
        let mut writes = Lent { ops, tree, rt };
        self.file
            .write_at(&mut TreeSeats::new(), &mut writes, offset, bytes)
    }

    /// Whether the file has changed since its last show or binary read (`kernfs_fop_poll`): the slot's event
    /// number differs from the one that the file keeps, or the node is not live. Before its first show or
    /// binary read a file has the number 0, so it has changed if numbers begin at 1 or more. The number that
    /// the file keeps does not change. A poll waits for nobody.
    pub fn poll(&mut self) -> bool
        ensures polls { Polls
            (WaitVisits (self.new.post ≡ self.old.post) (λ now. Took self.old.post now self.new.post)
            self.old.hold self.new.hold)
            self.old.state result }
        ensures same { self.new ≡ record self.old { hold = self.new.hold; post = self.new.post } }
    {
        self.file.poll(&mut TreeSeats::new())
    }

    /// Waits until the file has changed since its last show or binary read, or its node is not live: until a
    /// `poll` returns true. It has no reference to the node while it sleeps, so no removal waits for it. A
    /// notify wakes it, and so does a removal or a hiding that notifies ([`crate::remove_and_tell`],
    /// [`crate::tell_removed`], [`crate::tell_hidden`]). It may never return.
    ///
    /// Context: sleeps; takes no lock.
    pub fn wait_changed<R: Wait>(&mut self, rt: &R)
        ensures changed { HasChanged self.old.state.number self.new }
        ensures post { IsSamePost self.old.post self.new.post }
        ensures hold { IsSameSeat self.old.hold self.new.hold }
        ensures same { self.new ≡ record self.old { hold = self.new.hold; post = self.new.post } }
    {
        for _ in rt.forever() {
            if self.poll() {
                return;
            }
            self.file.rest(rt);
        }
        unreachable!()
    }

    /// Like [`WaitingFile::wait_changed`], but waits at most this long. It returns false if its last poll
    /// found no change: the time is over, or the clock could not be read.
    ///
    /// Context: sleeps; takes no lock.
    pub fn wait_changed_for<R: Wait + Clock>(&mut self, rt: &R, limit: Duration) -> bool
        ensures changed { IsTrue result → HasChanged self.old.state.number self.new }
        ensures not_yet { IsFalse result → self.new.post.found ≡ self.old.state.number }
        ensures post { IsSamePost self.old.post self.new.post }
        ensures hold { IsSameSeat self.old.hold self.new.hold }
        ensures same { self.new ≡ record self.old { hold = self.new.hold; post = self.new.post } }
    {
        let deadline = Deadline::new(rt, limit);
        for _ in rt.forever() {
            if self.poll() {
                return true;
            }
            match deadline.left(rt) {
                Some(left) => self.file.rest_for(rt, left),
                None => return false,
            }
        }
        unreachable!()
    }

    /// Closes the file, and returns its hold, its post and its page (`kernfs_fop_release`).
    pub fn into_parts(self) -> (Hold, Post, P)
        ensures hold { result.0 ≡ self.hold }
        ensures post { result.1 ≡ self.post }
        ensures table { result.0.table ≡ N.table }
    {
        let WaitingFile { file, apart: _ } = self;
        let (hold, post, page) = file.into_parts();
        (hold.into_hold(), post, page)
    }
}

impl<N: Naming, P: PageHolder + Drop> Drop for WaitingFile<N, P> {
    /// Releases its hold, also if a `?` returns between open and close.
    fn drop(self) {
        let WaitingFile { file, apart: _ } = self;
        let (hold, _post, _page) = file.into_parts();
        hold.into_hold().release();
    }
}
