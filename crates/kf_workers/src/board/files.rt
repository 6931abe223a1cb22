//! The requests on open files, and `notify`.

ghost use Rattle.std.specs.Prelude.{◌≡◌, ◌<◌, IfOk, OnOk, length};
ghost use Rattle.kf_workers.specs.Replies.{AreBytes, IsCount};

use super::WorkerBoard;
use crate::common::Common;
use crate::script_ops::ScriptOps;
use crate::tell::tell_read;
use kf_core::{Key, Node, Refusal};
use kf_files::{BoxedFile, PageApart, WaitingFile, Want};
use kf_notify::Post;
use kf_replies::tell_count;
use kf_script::Reply;
use kf_shared::Naming;
use kf_words::Hold;
use std::sync::Wait;

/// Closes a file, releases its hold, and returns its page. It has no clause, since nothing is left of the
/// hold that a clause could describe.
pub fn close_file<N: Naming>(file: BoxedFile<N>) -> Box<PageApart> {
    let (hold, _post, page) = file.into_parts();
    hold.release();
    page
}

/// A page of a file that was closed or, if there is none, a new one. It fails with `NoMemory` if memory for a
/// new one was refused.
fn take_page(pages: &mut Vec<Box<PageApart>>) -> Result<Box<PageApart>, Refusal> {
    if let Some(page) = pages.pop() {
        return Ok(page);
    }
    Box::new(*pages.allocator(), PageApart::new()).map_err(|_| Refusal::NoMemory)
}

/// Reads a file from an offset on, through a page. It puts the bytes, at most 4,095, into the reply, or why
/// there are none.
fn read_through<W: ScriptOps, N: Naming, R: Wait>(
    rt: &R,
    common: &Common<'_, W, N>,
    opened: &mut BoxedFile<N>,
    offset: u64,
    most: usize,
    page: &mut [u8],
    reply: &mut Reply,
)
    requires page { length page.old ≡ 4096 }
    ensures { AreBytes most reply.new }
{
    let out = &mut page[..most.min(4096)];
    let told = opened.read(rt, &common.tree, &common.serving(), offset, out);
    tell_read(reply, told, out);
}

impl<W: ScriptOps, N: Naming, R: Wait> WorkerBoard<'_, W, N, R> {
    /// A hold of the live node at a path. It is taken without the tree's lock if that is possible, and
    /// otherwise under it.
    fn hold_live(&mut self, path: &[u8]) -> Result<Hold, Refusal>
        ensures table { IfOk result (λ hold. hold.table ≡ N.table) }
    {
        if let Some(holder) = &mut self.holder {
            return holder.hold(self.rt, &self.common.tree, path);
        }
        let mut editor = self.common.tree.edit(self.rt);
        let key = editor.state().lookup(path)?;
        editor.hold(key)
    }

    /// Releases a hold. If the board has a holder, the next hold is made with the memory of this one.
    fn give_back(&mut self, hold: Hold)
        requires table { hold.table ≡ N.table }
    {
        match &mut self.holder {
            Some(holder) => holder.release(hold),
            None => hold.release(),
        }
    }

    /// A post of a slot of the tree. Each slot of the tree has an event number.
    fn post(&mut self, slot: u32) -> Result<Post, Refusal>
        ensures slot { IfOk result (λ post. post.slot ≡ slot) }
    {
        if slot >= self.posts.slots() {
            return Err(Refusal::NoEntry);
        }
        self.posts.post(slot)
    }

    /// Opens the file of a hold. After a refusal the hold is released.
    fn open_held(&mut self, hold: Hold, want: Want) -> Result<BoxedFile<N>, Refusal>
        requires table { hold.table ≡ N.table }
    {
        let node = hold.node();
        let post = match self.post(hold.key().slot) {
            Ok(post) => post,
            Err(refusal) => {
                hold.release();
                return Err(refusal);
            }
        };
        let page = match take_page(&mut self.pages) {
            Ok(page) => page,
            Err(refusal) => {
                hold.release();
                return Err(refusal);
            }
        };
        match WaitingFile::open_on(hold, node, want, post, page) {
            Ok(file) => Ok(file),
            Err((hold, _post, page, refusal)) => {
                hold.release();
                self.keep_page(page);
                Err(refusal)
            }
        }
    }

    /// Keeps a page for the next file. If it cannot be kept it is dropped.
    fn keep_page(&mut self, page: Box<PageApart>) {
        let _ = self.pages.push(page);
    }

    /// Opens the file at a path under a letter.
    pub(super) fn open(&mut self, file: usize, path: &[u8], want: Want) -> Result<(), Refusal>
        requires letter { file < 26 }
    {
        if self.files[file].is_some() {
            return Err(Refusal::Busy);
        }
        let hold = self.hold_live(path)?;
        let opened = self.open_held(hold, want)?;
        if let Some(other) = self.files[file].replace(opened) {
            let page = close_file(other);
            self.keep_page(page);
        }
        Ok(())
    }

    /// Closes the file under a letter.
    pub(super) fn close(&mut self, file: usize) -> Result<(), Refusal>
        requires letter { file < 26 }
    {
        match self.files[file].take() {
            Some(opened) => {
                let (hold, _post, page) = opened.into_parts();
                self.give_back(hold);
                self.keep_page(page);
                Ok(())
            }
            None => Err(Refusal::Invalid),
        }
    }

    /// Reads the file under a letter from an offset on. It puts the bytes, at most 4,095, into the reply, or
    /// why there are none.
    pub(super) fn read(
        &mut self,
        file: usize,
        offset: u64,
        most: usize,
        reply: &mut Reply,
    ) -> Result<(), Refusal>
        requires letter { file < 26 }
        ensures { OnOk result (AreBytes most reply.new) }
    {
        let Some(opened) = &mut self.files[file] else {
            return Err(Refusal::Invalid);
        };
        let page = self.page.as_mut_slice();
        read_through(self.rt, self.common, opened, offset, most, page, reply);
        Ok(())
    }

    /// Writes a text into the file under a letter. It puts the number that the store returned into the reply,
    /// or why there is none.
    pub(super) fn write(
        &mut self,
        file: usize,
        text: &[u8],
        reply: &mut Reply,
    ) -> Result<(), Refusal>
        requires letter { file < 26 }
        ensures { OnOk result (IsCount reply.new) }
    {
        let Some(opened) = &mut self.files[file] else {
            return Err(Refusal::Invalid);
        };
        let serving = self.common.serving();
        let told = opened.write(self.rt, &self.common.tree, &serving, text);
        tell_count(reply, told);
        Ok(())
    }

    /// Whether the file under a letter has changed since its last show.
    pub(super) fn poll(&mut self, file: usize) -> Result<bool, Refusal>
        requires letter { file < 26 }
    {
        match &mut self.files[file] {
            Some(opened) => Ok(opened.poll()),
            None => Err(Refusal::Invalid),
        }
    }

    /// The key of the file at a path, whether it is live or not. It takes the tree's lock once, for reading.
    fn file_at(&self, path: &[u8]) -> Result<Key, Refusal> {
        let reader = self.common.tree.read(self.rt);
        let key = reader.state().walk(path)?;
        match reader.state().stat(key)?.node {
            Node::Dir => Err(Refusal::IsDir),
            Node::Link { .. } => Err(Refusal::Invalid),
            Node::File { .. } => Ok(key),
        }
    }

    /// Notifies the file at a path: each file that is open on its slot then counts as changed.
    pub(super) fn notify(&mut self, path: &[u8]) -> Result<(), Refusal> {
        let key = self.file_at(path)?;
        match self.post(key.slot)?.notify() {
            Ok(_) => Ok(()),
            Err(_) => Err(Refusal::NoSpace),
        }
    }
}
