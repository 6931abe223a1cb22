//! The board of the owner or of a worker.

ghost use Rattle.std.specs.Prelude.{◌≡◌, vec_len, IfOk};

use crate::common::Common;
use crate::hidden_file::HiddenFile;
use crate::script_ops::ScriptOps;
use crate::tags::Tags;
use kf_core::{Limits, Refusal};
use kf_files::{BoxedFile, PageApart};
use kf_notify::Posts;
use kf_shared::{Naming, PathHolder};
use std::alloc::Global;
use std::sync::Wait;

mod answering;
mod ending;
mod files;
mod hiding;
mod looking;
mod making;
mod removing;

/// How many files may be open on a board: one for each letter.
const FILES: usize = 26;

/// Boards find nodes without the lock only if a node may have at least this many holds. Each board then keeps
/// a hold of the root, and with so high a limit no line of the script lacks these holds.
const MANY_HOLDS: u32 = 64;

/// The board of the owner or of a worker, which runs lines on a shared tree. It has its open files by letter,
/// its tokens of hidden files by slot, the tags of the files that it may make, and a handle to the event
/// numbers. Files are read into its page. It has room for a token of each slot, and writes none of this
/// memory before it keeps a token. It keeps the pages of closed files for the next ones.
///
/// It must be passed to [`WorkerBoard::end`], which releases all its holds.
pub struct WorkerBoard<'x, W: ScriptOps, N: Naming, R: Wait> {
    rt: &'x R,
    common: &'x Common<'x, W, N>,
    posts: Posts,
    tags: Tags,
    holder: Option<PathHolder<N>>,
    files: Vec<Option<BoxedFile<N>>>,
    pages: Vec<Box<PageApart>>,
    tokens: Vec<Option<HiddenFile<N>>>,
    page: Vec<u8>,
    ghost letters: { vec_len files ≡ 26 },
    ghost whole_page: { vec_len page ≡ 4096 },
}

/// A place for each of the 26 letters, with no file in it.
fn no_files<N: Naming>(alloc: Global) -> Result<Vec<Option<BoxedFile<N>>>, Refusal>
    ensures { IfOk result (λ files. vec_len files ≡ 26) }
{
    let mut files = Vec::with_capacity(alloc, FILES)?;
    for made in 0..FILES {
        prove!(made < FILES);
        files.push_reserved(None);
    }
    Ok(files)
}

/// Makes a holder, which takes holds of nodes without the lock. It returns `None` if a node may have only few
/// holds, or if there was no memory.
fn new_holder<W: ScriptOps, N: Naming, R: Wait>(
    rt: &R,
    alloc: Global,
    common: &Common<'_, W, N>,
    limits: Limits,
) -> Option<PathHolder<N>> {
    if limits.holds() < MANY_HOLDS {
        return None;
    }
    PathHolder::new(alloc, &mut common.tree.edit(rt)).ok()
}

impl<'x, W: ScriptOps, N: Naming, R: Wait> WorkerBoard<'x, W, N, R> {
    /// A board without open files and tokens. It fails with `NoMemory` if memory for it was refused.
    pub fn new(
        rt: &'x R,
        alloc: Global,
        common: &'x Common<'x, W, N>,
        posts: Posts,
        tags: Tags,
        limits: Limits,
    ) -> Result<WorkerBoard<'x, W, N, R>, Refusal>
        ensures tags { IfOk result (λ board. board.tags ≡ tags) }
    {
        let page = vec![in alloc; 0; 4096]?;
        let files = no_files(alloc)?;
        match Vec::with_capacity(alloc, limits.slots() as usize) {
            Ok(tokens) => Ok(WorkerBoard {
                rt,
                common,
                posts,
                tags,
                holder: new_holder(rt, alloc, common, limits),
                files,
                pages: Vec::new(alloc),
                tokens,
                page,
            }),
            Err(_) => {
                ending::close_all(files);
                Err(Refusal::NoMemory)
            }
        }
    }
}
