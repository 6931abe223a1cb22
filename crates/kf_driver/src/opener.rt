//! Opening files by their paths without the tree's lock.
ghost use Rattle.std.specs.Prelude.{◌≡◌, ◌<◌, ◌⊎◌, IfErr, IfOk, IfSome};
ghost use Rattle.kf_core.specs.declared.refusal.Refusal.TheVariants as refusal_of;
ghost use Rattle.kf_live.specs.Live.{Say};
ghost use Rattle.kf_live.specs.Lookers.{links_seen};
ghost use Rattle.kf_shared.specs.Finding.{LedTo};
ghost use Rattle.kf_shared.specs.Locked.{IsWhole, history};
ghost use Rattle.kf_shared.specs.Sections.{IsTaken};
ghost use Rattle.kf_driver.specs.Opening.{IsOpened, IsSameOpener, OpenedLocked, RefusedLocked};

use crate::files::{open_held, open_path_on};
use kf_core::{Node, Refusal};
use kf_files::{BoxedFile, PageApart, Want};
use kf_notify::Posts;
use kf_shared::{Editor, Naming, PathHolder, SharedTree};
use std::alloc::Global;
use std::marker::Model;
use std::sync::Wait;

/// The maximum number of pages that an opener keeps.
const MOST_PAGES: usize = 16;

/// Opens files of a tree by their paths, without the tree's lock if possible. An opener has a maker of holds
/// by path, a handle of the event numbers, and up to 16 pages of files that were closed. Each thread has its
/// own opener.
///
/// If the tree was not made `with_looks`, each open takes the lock.
pub struct Opener<N: Naming> {
    holder: PathHolder<N>,
    posts: Posts,
    pages: Vec<Box<PageApart>>,
}

impl<N: Naming> Model for Opener<N> {
    ghost use Rattle.std.specs.Prelude.{◌≤◌, vec_capacity};
    ghost use Rattle.kf_driver.specs.Opening.{OpenerState};

    ghost Value = { OpenerState };

    ghost view = { λ o. record { looker = o.holder.looker; holds = o.holder.holds; posts = o.posts } };

    ghost invariant = { λ o. 16 ≤ vec_capacity o.pages };
}

impl<N: Naming> Opener<N> {
    /// Makes an opener for the tree of this editor. The opener's looker has now seen all that was done in
    /// that tree.
    ///
    /// Refusals: TooManyHolds (the root already has the greatest number of holds), NoMemory.
    pub fn new(
        alloc: Global,
        editor: &mut Editor<'_, N>,
        posts: Posts,
    ) -> Result<Opener<N>, Refusal>
        ensures told { IfOk result (λ opener.
            0 < opener.looker.slots → Say (links_seen opener.looker) editor.old.state.tree) }
        ensures root { IfOk result (λ opener. opener.looker.root ≡ editor.old.state.root) }
        ensures posts { IfOk result (λ opener. opener.posts ≡ posts) }
        ensures state { editor.new.state ≡ editor.old.state }
        ensures claims { editor.new.claims ≡ editor.old.claims }
    {
        let pages = Vec::with_capacity(alloc, MOST_PAGES)?;
        let holder = PathHolder::new(alloc, editor)?;
        Ok(Opener {
            holder,
            posts,
            pages,
        })
    }

    // A page that a closed file has left, or else a new one.
    fn page(&mut self) -> Result<Box<PageApart>, Refusal>
        ensures refused { IfErr result (λ why. why ≡ refusal_of.NoMemory) }
        ensures same { self.new ≡ self.old }
    {
        match self.pages.pop() {
            Some(page) => Ok(page),
            None => Ok(Box::new(*self.pages.allocator(), PageApart::new())?),
        }
    }

    /// Opens the file that a path names, without taking the tree's lock and without waiting.
    ///
    /// None is not a refusal: the caller must try again under the lock, as [`Opener::open`] does. None means
    /// that the looker found nothing (for example because there is no such name), or that what it found could
    /// not be opened.
    #[tactic(auto, using(crate::proofs::Openings::of_hold))]
    pub fn try_open(&mut self, path: &[u8], want: Want) -> Option<BoxedFile<N>>
        ensures found { IfSome result (λ file. LedTo self.new.looker path.now file.hold.key) }
        ensures opened { IfSome result (λ file. IsOpened self.old.posts want file) }
        ensures same { IsSameOpener self.old self.new }
    {
        let hold = self.holder.try_hold(path)?;
        let Node::File { .. } = hold.node() else {
            self.holder.release(hold);
            return None;
        };
        let Ok(page) = self.page() else {
            self.holder.release(hold);
            return None;
        };
        match open_held(hold, &mut self.posts, want, page) {
            Ok(file) => Some(file),
            Err(_) => None,
        }
    }

    /// Opens the file that a path names, with this page, under a lock that was just taken.
    fn open_locked(
        &mut self,
        editor: &mut Editor<'_, N>,
        path: &[u8],
        want: Want,
        page: Box<PageApart>,
    ) -> Result<BoxedFile<N>, Refusal>
        requires whole { IsWhole N.table editor.old }
        requires taken { IsTaken (history editor.old) }
        ensures found { IfOk result
            (λ file. OpenedLocked self.new.holds.by self.old.posts path.now want file) }
        ensures refused { IfErr result
            (λ why. RefusedLocked self.new.holds.by self.old.posts.slots path.now want why) }
        ensures looker { self.new.looker ≡ self.old.looker }
        ensures posts { self.new.posts ≡ self.old.posts }
    {
        self.holder.learn(editor);
        open_path_on(editor, &mut self.posts, path, want, page)
    }

    /// Opens the file that a path names, without the tree's lock if possible, and otherwise under it. What is
    /// opened or refused under the lock follows from the tree of the history at the moment when the lock was
    /// taken. The opener's own hold has seen that history.
    ///
    /// Refusals: NoMemory (for a page); those of [`open_path`](crate::open_path), in their order. The latter
    /// are found under the lock.
    ///
    /// Context: takes the tree's lock if [`Opener::try_open`] returns None, so the caller must not hold that
    /// lock.
    pub fn open<R: Wait>(
        &mut self,
        rt: &R,
        tree: &SharedTree<N>,
        path: &[u8],
        want: Want,
    ) -> Result<BoxedFile<N>, Refusal>
        ensures found { IfOk result (λ file. LedTo self.new.looker path.now file.hold.key
            ⊎ OpenedLocked self.new.holds.by self.old.posts path.now want file) }
        ensures opened { IfOk result (λ file. IsOpened self.old.posts want file) }
        ensures refused { IfErr result (λ why. (why ≡ refusal_of.NoMemory)
            ⊎ RefusedLocked self.new.holds.by self.old.posts.slots path.now want why) }
        ensures same { IsSameOpener self.old self.new }
    {
        if let Some(file) = self.try_open(path, want) {
            return Ok(file);
        }
        let page = self.page()?;
        self.open_locked(&mut tree.edit(rt), path, want, page)
    }

    /// Closes a file. Its memory is kept for files that this opener opens later, but at most 16 pages are
    /// kept. With this memory, an open writes no reference count that other threads also write, except that
    /// of the event numbers.
    pub fn close(&mut self, file: BoxedFile<N>)
        ensures looker { self.new.looker ≡ self.old.looker }
        ensures hold { self.new.holds.by ≡ self.old.holds.by }
        ensures posts { self.new.posts ≡ self.old.posts }
    {
        let (hold, _post, page) = file.into_parts();
        self.holder.release(hold);
        if self.pages.len() < MOST_PAGES {
            self.pages.push_reserved(page);
        }
    }
}

impl<N: Naming> Drop for Opener<N> {
    /// Releases the opener's hold of the root.
    fn drop(self) {
        let Opener {
            holder,
            posts: _,
            pages: _,
        } = self;
        holder.end().release();
    }
}
