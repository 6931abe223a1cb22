//! The post of a file's slot, which gives the file its event numbers.

ghost use Rattle.std.specs.Prelude.{◌≡◌};

use kf_core::ActiveCall;
use kf_notify::Post;
use kf_pages::EventNumbers;
use std::marker::Model;

/// A post from which a file takes its event numbers.
#[derive(Drop)]
pub(crate) struct OwnPost {
    post: Post,
}

impl Model for OwnPost {
    ghost use Rattle.kf_notify.specs.PostStates.{PostState};

    ghost Value = { PostState };

    ghost view = { λ o. o.post };
}

impl OwnPost {
    /// Wraps a post.
    pub(crate) fn new(post: Post) -> OwnPost
        ensures same { result ≡ post }
    {
        OwnPost { post }
    }

    /// The post itself.
    pub(crate) fn as_post(&self) -> &Post
        ensures same { result.now ≡ self.now }
    {
        &self.post
    }

    /// The post itself.
    pub(crate) fn into_post(self) -> Post
        ensures same { result ≡ self }
    {
        self.post
    }
}

impl<C: ActiveCall> EventNumbers<C> for OwnPost {
    ghost use Rattle.kf_notify.specs.PostStates.{Took};

    ghost gives = { Took };

    fn now(&mut self, _call: &C) -> u64 {
        self.post.now()
    }
}
