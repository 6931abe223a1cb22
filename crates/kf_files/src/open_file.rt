//! A file opened with a hold of its node, with a post of its slot.

ghost use Rattle.std.specs.Prelude.{◌≡◌, ◌≤◌, length, IfOk, MatchResult};
ghost use Rattle.kf_core.specs.Calls.{Visits};
ghost use Rattle.kf_notify.specs.PostStates.{Took};
ghost use Rattle.kf_pages.specs.Files.{Opens, Reads, Writes, Polls, Gives, Stored, new_file, tag_of};
ghost use Rattle.kf_pages.specs.Binary.{ReadAt, ReadsAt, WrittenAt};
ghost use Rattle.kf_files.specs.Opened.{hold_after, paged_after, paged_refusal, refusal_of};

use crate::own_post::OwnPost;
use kf_core::{Guard, Node, Refusal};
use kf_notify::Post;
use kf_pages::{BinaryOps, FileError, HeldFile, Ops, Page, PageHolder, Want};
use std::marker::Model;
use std::sync::Wait;
use std::time::Duration;

/// A file opened with a hold of its node (`struct kernfs_open_file`). Until it is closed it keeps the hold, a
/// post of its slot, and its page, which is part of it or was lent.
#[derive(Drop)]
pub struct OpenFile<G: Guard, P: PageHolder = Page> {
    file: HeldFile<G, P>,
    post: OwnPost,
}

impl<G: Guard, P: PageHolder> Model for OpenFile<G, P> {
    ghost use Rattle.kf_files.specs.Opened.{Opened};

    ghost Value = { Opened G.Hold };

    ghost view = { λ f. record {
      hold = f.file.hold;
      post = f.post;
      tag = f.file.tag;
      state = f.file.state;
    } };
}

impl<G: Guard> OpenFile<G> {
    /// Opens a file whose node is live (`kernfs_fop_open`). It starts with no text and the event number 0.
    ///
    /// Condition: the hold may try, which each function of a guard ensures of a hold that it returns.
    ///
    /// Refusals, in order: `IsDir` for a directory, `Invalid` for a link, `NoDevice` if the node is not live,
    /// `Access` if the mode forbids what was asked for. (The mode forbids reading if it has no bit of 0o444,
    /// and writing if it has no bit of 0o222.) After a refusal the hold and the post are returned.
    pub fn open(
        guard: &mut G,
        hold: G::Hold,
        node: Node,
        want: Want,
        post: Post,
    ) -> Result<OpenFile<G>, (G::Hold, Post, Refusal)>
        requires may_enter { G.may_enter guard.old hold }
        ensures opens { Opens
            (Visits G.enters G.refuses G.leaves G.Call.view_of (Unit {0}) (λ _. Unit {0})
            guard.old hold guard.new (hold_after result))
            node want (refusal_of result) }
        ensures new { IfOk result (λ file. file.state ≡ new_file want) }
        ensures tag { IfOk result (λ file. file.tag ≡ tag_of node) }
        ensures post { MatchResult result (λ file. file.post ≡ post) (λ back. back.1 ≡ post) }
        ensures may_enter { G.may_enter guard.new (hold_after result) }
    {
        match OpenFile::open_on(guard, hold, node, want, post, Page::new()) {
            Ok(file) => Ok(file),
            Err((hold, post, _page, why)) => Err((hold, post, why)),
        }
    }

    /// Closes the file, and returns its hold and its post (`kernfs_fop_release`).
    pub fn close(self) -> (G::Hold, Post)
        ensures hold { result.0 ≡ self.hold }
        ensures post { result.1 ≡ self.post }
    {
        let (hold, post, _page) = self.into_parts();
        (hold, post)
    }
}

impl<G: Guard, P: PageHolder> OpenFile<G, P> {
    /// Like [`OpenFile::open`], but on a page that the caller lends. The bytes of this page do not matter.
    /// After a refusal the page is returned too.
    ///
    /// Condition: the hold may try in this state of the guard.
    ///
    /// Refusals: those of [`OpenFile::open`].
    pub fn open_on(
        guard: &mut G,
        hold: G::Hold,
        node: Node,
        want: Want,
        post: Post,
        page: P,
    ) -> Result<OpenFile<G, P>, (G::Hold, Post, P, Refusal)>
        requires may_enter { G.may_enter guard.old hold }
        ensures opens { Opens
            (Visits G.enters G.refuses G.leaves G.Call.view_of (Unit {0}) (λ _. Unit {0})
            guard.old hold guard.new (paged_after result))
            node want (paged_refusal result) }
        ensures new { IfOk result (λ file. file.state ≡ new_file want) }
        ensures tag { IfOk result (λ file. file.tag ≡ tag_of node) }
        ensures post { MatchResult result (λ file. file.post ≡ post) (λ back. back.1 ≡ post) }
        ensures may_enter { G.may_enter guard.new (paged_after result) }
    {
        match HeldFile::open(guard, hold, node, want, page) {
            Ok(file) => Ok(OpenFile {
                file,
                post: OwnPost::new(post),
            }),
            Err((hold, page, why)) => Err((hold, post, page, why)),
        }
    }

    /// Reads the text from the offset on, in bytes, into the front of `out`, and returns how many bytes it
    /// put there (`kernfs_fop_read_iter`). At offset 0, or if no text is buffered, the text is shown anew
    /// under a call, after its event number was taken. Otherwise it is the buffered text: the node need not
    /// be live, and no number is taken.
    ///
    /// Condition: the file's hold may try, which `open` and each function here ensure.
    ///
    /// Refusals, in order: `Access` if the file was not opened for reading, `NoDevice` if the node is not
    /// live. Both change nothing. A fault of the show is returned as `Callback`, and leaves no buffered text.
    /// The rest of `out` stays as it was, and after an error all of `out` does.
    pub fn read<O: Ops<G::Call>>(
        &mut self,
        guard: &mut G,
        ops: &mut O,
        offset: u64,
        out: &mut [u8],
    ) -> Result<usize, FileError>
        requires may_enter { G.may_enter guard.old self.old.hold }
        ensures reads { Reads
            (Visits G.enters G.refuses G.leaves G.Call.view_of
            ((ops.new ≡ ops.old) × (self.new.post ≡ self.old.post))
            (λ shown. Took self.old.post shown.number self.new.post
            × O.shows ops.old self.old.tag shown.filled ops.new)
            guard.old self.old.hold guard.new self.new.hold)
            (Gives out.old result out.new) self.old.state offset (length out.old) self.new.state }
        ensures fits { IfOk result (λ count. count ≤ length out.new) }
        ensures same { self.new ≡
            record self.old { hold = self.new.hold; post = self.new.post; state = self.new.state } }
        ensures may_enter { G.may_enter guard.new self.new.hold }
    {
        self.file.read(guard, ops, &mut self.post, offset, out)
    }

    /// Passes the first 4,096 bytes to one store under a call, and returns what the store returns, a fault as
    /// `Callback` (`kernfs_fop_write_iter`). A write of no bytes returns 0 and calls no store, but it too
    /// needs a live node. The file stays as it was.
    ///
    /// Condition: the file's hold may try, which `open` and each function here ensure.
    ///
    /// Refusals, in order: `Access` if the file was not opened for writing, `NoDevice` if the node is
    /// not live.
    pub fn write<O: Ops<G::Call>>(
        &mut self,
        guard: &mut G,
        ops: &mut O,
        bytes: &[u8],
    ) -> Result<usize, FileError>
        requires may_enter { G.may_enter guard.old self.old.hold }
        ensures writes { Writes
            (Visits G.enters G.refuses G.leaves G.Call.view_of (ops.new ≡ ops.old)
            (Stored O.stores ops.old self.old.tag bytes.now ops.new)
            guard.old self.old.hold guard.new self.new.hold)
            self.old.state result }
        ensures same { self.new ≡ record self.old { hold = self.new.hold } }
        ensures may_enter { G.may_enter guard.new self.new.hold }
    {
        self.file.write(guard, ops, bytes)
    }

    /// Reads bytes of a binary attribute from the offset on, as [`HeldFile::read_at`] does.
    ///
    /// Condition: the file's hold may try, which `open` and each function here ensure.
    ///
    /// Refusals, in order: `Access` if the file was not opened for reading, `NoDevice` if the node is not
    /// live. Both change nothing.
    pub fn read_at<B: BinaryOps<G::Call>>(
        &mut self,
        guard: &mut G,
        ops: &mut B,
        offset: u64,
        out: &mut [u8],
    ) -> Result<usize, FileError>
        requires may_enter { G.may_enter guard.old self.old.hold }
        ensures reads { ReadsAt
            (Visits G.enters G.refuses G.leaves G.Call.view_of
            ((ops.new ≡ ops.old) × (self.new.post ≡ self.old.post) × (out.new ≡ out.old))
            (λ read. Took self.old.post read.number self.new.post
            × ReadAt B.reads_at ops.old self.old.tag offset out.old out.new ops.new read.answer)
            guard.old self.old.hold guard.new self.new.hold)
            self.old.state result self.new.state }
        ensures fits { IfOk result (λ count. count ≤ length out.new) }
        ensures same { self.new ≡
            record self.old { hold = self.new.hold; post = self.new.post; state = self.new.state } }
        ensures may_enter { G.may_enter guard.new self.new.hold }
    {
        self.file.read_at(guard, ops, &mut self.post, offset, out)
    }

    /// Writes all the bytes of a binary attribute at the offset, as [`HeldFile::write_at`] does.
    ///
    /// Condition: the file's hold may try, which `open` and each function here ensure.
    ///
    /// Refusals, in order: `Access` if the file was not opened for writing, `NoDevice` if the node is
    /// not live.
    pub fn write_at<B: BinaryOps<G::Call>>(
        &mut self,
        guard: &mut G,
        ops: &mut B,
        offset: u64,
        bytes: &[u8],
    ) -> Result<usize, FileError>
        requires may_enter { G.may_enter guard.old self.old.hold }
        ensures writes { Writes
            (Visits G.enters G.refuses G.leaves G.Call.view_of (ops.new ≡ ops.old)
            (WrittenAt B.writes_at ops.old self.old.tag offset bytes.now ops.new)
            guard.old self.old.hold guard.new self.new.hold)
            self.old.state result }
        ensures fits { IfOk result (λ count. count ≤ length bytes.now) }
        ensures same { self.new ≡ record self.old { hold = self.new.hold } }
        ensures may_enter { G.may_enter guard.new self.new.hold }
    {
        self.file.write_at(guard, ops, offset, bytes)
    }

    /// Whether the file has changed since its last show or binary read (`kernfs_fop_poll`): the slot's event
    /// number, taken under a call, differs from the one that the file keeps, or the node is not live. Before
    /// its first show or binary read a file has the number 0, so it has changed if numbers begin at 1 or
    /// more. The number that the file keeps does not change.
    ///
    /// Condition: the file's hold may try, which `open` and each function here ensure.
    pub fn poll(&mut self, guard: &mut G) -> bool
        requires may_enter { G.may_enter guard.old self.old.hold }
        ensures polls { Polls
            (Visits G.enters G.refuses G.leaves G.Call.view_of (self.new.post ≡ self.old.post)
            (λ now. Took self.old.post now self.new.post)
            guard.old self.old.hold guard.new self.new.hold)
            self.old.state result }
        ensures same { self.new ≡ record self.old { hold = self.new.hold; post = self.new.post } }
        ensures may_enter { G.may_enter guard.new self.new.hold }
    {
        self.file.poll(guard, &mut self.post)
    }

    /// Sleeps while the slot's event number is the one that the file keeps: until a notify of the slot. It
    /// may also return for no reason, so no clause says why it returned. It makes no try, so nobody waits for
    /// a thread that sleeps here.
    ///
    /// Context: sleeps; takes no lock.
    pub fn rest<R: Wait>(&self, rt: &R) {
        self.post.as_post().rest(rt, self.file.number());
    }

    /// Like [`OpenFile::rest`], but sleeps at most this long.
    ///
    /// Context: sleeps; takes no lock.
    pub fn rest_for<R: Wait>(&self, rt: &R, limit: Duration) {
        self.post.as_post().rest_for(rt, self.file.number(), limit);
    }

    /// Closes the file, and returns its hold, its post and its page (`kernfs_fop_release`).
    pub fn into_parts(self) -> (G::Hold, Post, P)
        ensures hold { result.0 ≡ self.hold }
        ensures post { result.1 ≡ self.post }
    {
        let OpenFile { file, post } = self;
        let (hold, page) = file.close();
        (hold, post.into_post(), page)
    }
}
