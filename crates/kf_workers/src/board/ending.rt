//! The end of a board: all its holds are released.

use super::WorkerBoard;
use super::files::close_file;
use crate::script_ops::ScriptOps;
use kf_files::BoxedFile;
use kf_shared::{Naming, PathHolder};
use std::sync::Wait;

/// Closes each file that is open. It has no clause, since nothing is left of the files that a clause could
/// describe.
pub fn close_all<N: Naming>(mut files: Vec<Option<BoxedFile<N>>>) {
    while let Some(place) = files.pop() {
        if let Some(file) = place {
            let _page = close_file(file);
        }
    }
    files.destroy_empty();
}

/// Ends the holder that takes holds of nodes without the lock, and releases its own hold.
pub fn end_holder<N: Naming>(holder: Option<PathHolder<N>>) {
    if let Some(holder) = holder {
        holder.end().release();
    }
}

impl<W: ScriptOps, N: Naming, R: Wait> WorkerBoard<'_, W, N, R> {
    /// Closes its files, shows the files that it hid, and releases all their holds. It has no clause, since
    /// nothing is left of the board that a clause could describe.
    pub fn end(self) {
        let WorkerBoard {
            rt,
            common,
            posts: _,
            tags: _,
            holder,
            files,
            pages: _,
            mut tokens,
            page: _,
        } = self;
        close_all(files);
        end_holder(holder);
        while let Some(place) = tokens.pop() {
            if let Some(token) = place {
                let mut editor = common.tree.edit(rt);
                editor.show(token.into_hidden()).release();
            }
        }
        tokens.destroy_empty();
    }
}
