//! Notifying the pollers of a file, from any thread or callback.
ghost use Rattle.std.specs.Prelude.{◌≡◌};

use crate::callbacks::{Show, Store};
use kf_files::{Fault, Page};
use kf_notify::{Full, Post};
use std::sync::{Mutex, Wait};

/// Notifies pollers that a file has changed, from any thread and even from a callback
/// (`sysfs_notify_dirent`). A notifier is made before its file, and gets the file's post from
/// [`Notifier::set`]. The post is behind a lock that is a leaf: a thread that has it takes no other lock and
/// waits for nobody.
#[derive(Drop)]
pub struct Notifier<'a, R> {
    rt: &'a R,
    post: Mutex<Option<Post>>,
}

impl<'a, R: Wait> Notifier<'a, R> {
    /// Makes a notifier without a post, which notifies nobody yet. A contract cannot see what is behind its
    /// lock, so no clause mentions it.
    pub fn new(rt: &'a R) -> Notifier<'a, R> {
        Notifier {
            rt,
            post: Mutex::new(None),
        }
    }

    /// Sets the post that this notifier uses from now on: the one that [`post_of`](crate::post_of) returns
    /// for the file, once the file is made.
    ///
    /// Context: takes the lock of the post.
    pub fn set(&self, post: Post) {
        *self.post.lock(self.rt) = Some(post);
    }

    /// Raises the slot's event number and returns it, or returns `Full` if it is already the greatest number.
    /// Returns None if there is no post yet. The post behind the lock is as the last thread left it, so no
    /// clause says which number this is. If you keep a post yourself, the contract of [`Post::notify`] says
    /// which.
    ///
    /// Context: takes the lock of the post.
    pub fn notify(&self) -> Option<Result<u64, Full>> {
        let mut post = self.post.lock(self.rt);
        match post.as_mut() {
            Some(post) => Some(post.notify()),
            None => None,
        }
    }
}

/// An attribute that notifies the pollers of its file after each successful store.
#[derive(Drop)]
pub struct Notifying<'a, A, R> {
    /// The callbacks that show and store.
    pub callbacks: A,
    /// The notifier of its file's slot.
    pub notifier: Notifier<'a, R>,
}

impl<'a, A, R: Wait> Notifying<'a, A, R> {
    /// Makes the attribute of these callbacks. It notifies nobody until its `notifier` has a post.
    pub fn new(rt: &'a R, callbacks: A) -> Notifying<'a, A, R>
        ensures callbacks { result.callbacks ≡ callbacks }
    {
        Notifying {
            callbacks,
            notifier: Notifier::new(rt),
        }
    }
}

impl<A: Show, R> Show for Notifying<'_, A, R> {
    ghost shows = { λ notifying filled. A.shows notifying.callbacks filled };

    ghost can_show = { λ notifying. A.can_show notifying.callbacks };

    fn show(&self, page: &mut Page) -> Result<(), Fault> {
        self.callbacks.show(page)
    }
}

impl<A: Store, R: Wait> Store for Notifying<'_, A, R> {
    ghost takes = { λ notifying bytes answer. A.takes notifying.callbacks bytes answer };

    ghost can_store = { λ notifying. A.can_store notifying.callbacks };

    fn store(&self, bytes: &[u8]) -> Result<(), Fault> {
        self.callbacks.store(bytes)?;
        let _ = self.notifier.notify();
        Ok(())
    }
}
