//! An open file behind a handle: a post of its node's slot, and what the file keeps.
ghost use Rattle.std.specs.Prelude.{◌≡◌, None, Some};
ghost use Rattle.kf_pages.specs.Files.{new_file, is_changed};
ghost use Rattle.kf_handles.specs.Taken.{NumberTaken};

use kf_notify::Post;
use kf_pages::{Contents, Page, Want};
use std::marker::Model;

/// What an open file keeps between the halves of a read, and the post that says whether it has changed.
#[derive(Drop)]
pub struct File {
    post: Post,
    pub(crate) contents: Contents<Page>,
}

impl Model for File {
    ghost use Rattle.kf_handles.specs.Kept.{FileKept};

    ghost Value = { FileKept };

    ghost view = { λ f. record { post = f.post; state = f.contents } };
}

impl File {
    /// A file that was just opened: it has no text, and the event number 0.
    pub fn new(want: Want, post: Post) -> File
        ensures state { result.state ≡ new_file want }
        ensures post { result.post ≡ post }
    {
        File {
            post,
            contents: Contents::new(want, Page::new()),
        }
    }

    /// Loads the event number for a show, and drops the text.
    pub fn begin_show(&mut self)
        ensures took { NumberTaken self.old.post self.new.state.number self.new.post }
        ensures state { self.new.state ≡
            record self.old.state { text = None; number = self.new.state.number } }
    {
        let number = self.post.now();
        self.contents.begin_show(number);
    }

    /// Whether the slot's event number differs from the one that was loaded for the last show.
    pub fn is_changed(&mut self) -> bool
        ensures took { NumberTaken self.old.post self.new.post.found self.new.post }
        ensures told { result ≡ is_changed self.old.state (Some self.new.post.found) }
        ensures state { self.new.state ≡ self.old.state }
    {
        let now = self.post.now();
        self.contents.is_changed(now)
    }
}
