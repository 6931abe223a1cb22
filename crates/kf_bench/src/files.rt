//! Reads of an open file, and visits. A visit is an open by the path, a read and a close. A close releases
//! the hold, and returns the event counter and the page, which the next open uses again.

ghost use Rattle.std.specs.Prelude.{◌≡◌, IfOk};

use crate::grown::{hold_of, path_of};
use kf_core::Refusal;
use kf_files::{BoxedFile, Fault, Page, PageApart, WaitOps, WaitingFile, Want};
use kf_notify::{Post, Posts};
use kf_shared::{Naming, PathHolder, SharedTree};
use kf_words::{Call, Hold};
use std::alloc::Global;
use std::sync::Wait;

/// More slots than the files and the directories before them need.
const FEW: u32 = 100;

/// Callbacks whose show gives a text of four bytes.
#[derive(Clone, Copy)]
struct FourBytes;

impl<N: Naming> WaitOps<N> for FourBytes {
    ghost may_show = { λ _ _ _. Unit {0} };

    ghost may_store = { λ _ _ _ _. Unit {0} };

    fn show<R: Wait>(
        &self,
        _rt: &R,
        _tree: &SharedTree<N>,
        _call: &mut Call,
        _tag: u64,
        page: &mut Page,
    ) -> Result<(), Fault> {
        let _fits = page.try_extend_from_slice(b"four");
        Ok(())
    }

    fn store<R: Wait>(
        &self,
        _rt: &R,
        _tree: &SharedTree<N>,
        _call: &mut Call,
        _tag: u64,
        bytes: &[u8],
    ) -> Result<usize, Fault> {
        Ok(bytes.len())
    }
}

/// What a thread keeps of a closed file.
#[derive(Drop)]
pub(crate) struct Kept {
    post: Post,
    page: Box<PageApart>,
}

/// A new event counter of a slot, and a new page.
pub(crate) fn keep(alloc: Global, slot: u32) -> Result<Kept, Refusal>
    ensures slot { IfOk result (λ kept. kept.post.slot ≡ slot) }
{
    if slot >= FEW {
        return Err(Refusal::NoSpace);
    }
    let post = Posts::new(alloc, FEW)?.post(slot)?;
    let page = Box::new(alloc, PageApart::new())?;
    Ok(Kept { post, page })
}

/// Opens the file of a hold, which must be of this slot. After a refusal the hold is released.
fn open<N: Naming>(hold: Hold, slot: u32, kept: Kept) -> Result<BoxedFile<N>, Refusal>
    requires table { hold.table ≡ N.table }
    requires slot { kept.post.slot ≡ slot }
    ensures slot { IfOk result (λ file. file.post.slot ≡ slot) }
{
    if hold.key().slot != slot {
        hold.release();
        return Err(Refusal::Invalid);
    }
    let node = hold.node();
    match WaitingFile::open_on(hold, node, Want::BOTH, kept.post, kept.page) {
        Ok(file) => Ok(file),
        Err((hold, _post, _page, refusal)) => {
            hold.release();
            Err(refusal)
        }
    }
}

/// Reads a file from its start, and fails if it does not read the expected text.
#[tactic(auto, using(crate::proofs::SameSlot::read_slot))]
fn read_once<N: Naming, R: Wait>(
    rt: &R,
    tree: &SharedTree<N>,
    file: &mut BoxedFile<N>,
) -> Result<(), Refusal>
    ensures slot { file.new.post.slot ≡ file.old.post.slot }
{
    let mut out = [0u8; 4];
    let count = file.read(rt, tree, &FourBytes, 0, &mut out);
    if count == Ok(4) && out == *b"four" {
        Ok(())
    } else {
        Err(Refusal::Invalid)
    }
}

/// Reads the file in a slot this many times.
pub(crate) fn read<N: Naming, R: Wait>(
    rt: &R,
    alloc: Global,
    tree: &SharedTree<N>,
    slot: u32,
    turns: u32,
) -> Result<(), Refusal> {
    let kept = keep(alloc, slot)?;
    let mut file = open(hold_of(rt, tree, slot)?, slot, kept)?;
    for _ in 0..turns {
        read_once(rt, tree, &mut file)?;
    }
    Ok(())
}

/// Takes a hold of the node that a path names, under the lock.
fn hold_locked<N: Naming, R: Wait>(
    rt: &R,
    tree: &SharedTree<N>,
    path: &[u8],
) -> Result<Hold, Refusal>
    ensures table { IfOk result (λ hold. hold.table ≡ N.table) }
{
    let mut editor = tree.edit(rt);
    let key = editor.state().lookup(path)?;
    editor.hold(key)
}

/// Visits the file in a slot once. Unless `locked` is set, it looks the file up by its path without the lock.
/// If `locked` is set, or if that look-up fails, it looks the file up under the lock. Then it opens, reads
/// and closes the file. It returns what is kept of the file, and whether it took the lock.
pub(crate) fn visit_once<N: Naming, R: Wait>(
    rt: &R,
    tree: &SharedTree<N>,
    holder: &mut PathHolder<N>,
    locked: bool,
    slot: u32,
    kept: Kept,
) -> Result<(Kept, bool), Refusal>
    requires slot { kept.post.slot ≡ slot }
    ensures slot { IfOk result (λ r. r.0.post.slot ≡ slot) }
{
    let path = path_of(slot);
    let found = if locked { None } else { holder.try_hold(path) };
    let takes_lock = found.is_none();
    let hold = match found {
        Some(hold) => hold,
        None => hold_locked(rt, tree, path)?,
    };
    let mut file = open::<N>(hold, slot, kept)?;
    read_once(rt, tree, &mut file)?;
    let (hold, post, page) = file.into_parts();
    holder.release(hold);
    Ok((Kept { post, page }, takes_lock))
}

/// Visits the file in a slot this many times.
fn visit_by<N: Naming, R: Wait>(
    rt: &R,
    alloc: Global,
    tree: &SharedTree<N>,
    holder: &mut PathHolder<N>,
    locked: bool,
    slot: u32,
    turns: u32,
) -> Result<(), Refusal> {
    let mut kept = keep(alloc, slot)?;
    for _ in 0..turns {
        let (next, _) = visit_once(rt, tree, holder, locked, slot, kept)?;
        kept = next;
    }
    Ok(())
}

/// Visits the file in a slot this many times, with one holder for all visits.
pub(crate) fn visit<N: Naming, R: Wait>(
    rt: &R,
    alloc: Global,
    tree: &SharedTree<N>,
    locked: bool,
    slot: u32,
    turns: u32,
) -> Result<(), Refusal> {
    let mut holder = PathHolder::new(alloc, &mut tree.edit(rt))?;
    let told = visit_by(rt, alloc, tree, &mut holder, locked, slot, turns);
    holder.end().release();
    told
}
