//! The texts of the files that a run makes.

ghost use Rattle.std.specs.Prelude.{◌≡◌, ◌<◌, ◌≤◌, [], length, true, IfErr, IfOk, vec_len};
ghost use Rattle.kf_core.specs.declared.caller.Phase.TheVariants.{Running};
ghost use Rattle.kf_core.specs.declared.refusal.Refusal.TheVariants.{NoMemory};
ghost use Rattle.kf_core.specs.Phases.{has_reference};
ghost use Rattle.kf_pages.specs.Files.{filled_by};
ghost use Rattle.kf_words.specs.Callers.{IsSameSeat};
ghost use Rattle.kf_workers.specs.TextAnswers.{BeginsUnlessFull, ShowsKept, StoresWhole};

use crate::script_ops::ScriptOps;
use kf_core::Refusal;
use kf_files::{Fault, Page};
use kf_shared::{Naming, SharedTree};
use kf_words::Call;
use std::alloc::{AllocError, Global};
use std::collections::BTreeMap;
use std::sync::{Mutex, Wait};

/// How many shelves there are. Tags are handed out one after another, so the texts of files that are made one
/// after another lie on different shelves.
const SHELVES: u64 = 256;

/// The texts of some of the tags, behind a separate lock.
#[derive(Drop)]
struct Shelf {
    texts: Mutex<BTreeMap<u64, Vec<u8>>>,
    // Keeps the locks of two shelves two cache lines apart, since different threads take them at the same
    // time.
    apart: [u64; 16],
}

/// The texts of files by tag, and the callbacks that show and store them. Any number of threads may share it.
///
/// A text lies on the shelf of its tag. A shelf's lock is held only while a text is copied, put in place or
/// freed. A thread that holds it waits for nothing else, and no thread holds two of these locks.
#[derive(Drop)]
pub struct Texts {
    alloc: Global,
    shelves: Vec<Shelf>,
    ghost all: { vec_len shelves ≡ 256 },
}

/// The fault if no file has this tag (`EINVAL`).
fn no_file() -> Fault
    ensures { result.number ≡ 22 }
{
    Fault { number: 22 }
}

fn no_memory() -> Fault
    ensures { result.number ≡ 12 }
{
    Fault { number: 12 }
}

/// Fills an empty page with the first 4,096 bytes of a text.
fn fill(page: &mut Page, text: &[u8]) {
    let end = text.len().min(4096);
    let _ = page.try_extend_from_slice(&text[..end]);
}

impl Shelf {
    /// A shelf without texts.
    fn new(alloc: Global) -> Shelf {
        Shelf {
            texts: Mutex::new(BTreeMap::new(alloc)),
            apart: [0; 16],
        }
    }
}

/// All shelves, without any text.
fn new_shelves(alloc: Global) -> Result<Vec<Shelf>, AllocError>
    ensures { IfOk result (λ shelves. vec_len shelves ≡ 256) }
{
    let mut shelves = Vec::with_capacity(alloc, SHELVES as usize)?;
    for made in 0..SHELVES {
        prove!(made < SHELVES);
        shelves.push_reserved(Shelf::new(alloc));
    }
    Ok(shelves)
}

impl Texts {
    /// No texts yet. It fails with `NoMemory` if memory was refused.
    pub fn new(alloc: Global) -> Result<Texts, Refusal>
        ensures refused { IfErr result (λ refusal. refusal ≡ NoMemory) }
    {
        match new_shelves(alloc) {
            Ok(shelves) => Ok(Texts { alloc, shelves }),
            Err(_) => Err(Refusal::NoMemory),
        }
    }

    /// The texts on the shelf of a tag.
    fn shelf(&self, tag: u64) -> &Mutex<BTreeMap<u64, Vec<u8>>> {
        &self.shelves[(tag % SHELVES) as usize].texts
    }
}

impl ScriptOps for Texts {
    ghost may_show = { λ _. ShowsKept };

    ghost may_store = { λ _. StoresWhole };

    ghost may_begin = { λ _ _ _. BeginsUnlessFull };

    /// Fills the page with the first 4,096 bytes of the text. It fails with fault 22 if the tag has no text.
    /// The call keeps its reference throughout.
    fn show<N: Naming, R: Wait>(
        &self,
        rt: &R,
        tree: &SharedTree<N>,
        call: &mut Call,
        tag: u64,
        page: &mut Page,
    ) -> Result<(), Fault>
        requires table { call.old.table ≡ N.table }
        requires running { call.old.phase ≡ Running }
        requires empty { page.old.items ≡ [] }
        ensures shown { ShowsKept tag (filled_by result page.new.items) }
        ensures untouched { call.new ≡ call.old }
        ensures seat { IsSameSeat call.old call.new }
        ensures reference { has_reference call.new.phase ≡ true }
    {
        let _ = tree;
        let _ = call;
        let texts = self.shelf(tag).lock(rt);
        match texts.get(&tag) {
            Some(text) => {
                fill(page, text.as_slice());
                Ok(())
            }
            None => Err(no_file()),
        }
    }

    /// Replaces the whole text with the bytes, and returns their number. It fails with fault 12 if memory was
    /// refused, and with fault 22 if the tag has no text. The call keeps its reference throughout.
    fn store<N: Naming, R: Wait>(
        &self,
        rt: &R,
        tree: &SharedTree<N>,
        call: &mut Call,
        tag: u64,
        bytes: &[u8],
    ) -> Result<usize, Fault>
        requires table { call.old.table ≡ N.table }
        requires running { call.old.phase ≡ Running }
        requires some { 0 < length bytes.now }
        requires fits { length bytes.now ≤ 4096 }
        ensures stored { StoresWhole tag bytes.now result }
        ensures untouched { call.new ≡ call.old }
        ensures seat { IsSameSeat call.old call.new }
        ensures reference { has_reference call.new.phase ≡ true }
    {
        let _ = tree;
        let _ = call;
        let Ok(copy) = bytes.to_vec(self.alloc) else {
            return Err(no_memory());
        };
        let mut texts = self.shelf(tag).lock(rt);
        match texts.get_mut(&tag) {
            Some(text) => {
                *text = copy;
                Ok(bytes.len())
            }
            None => Err(no_file()),
        }
    }

    /// Keeps the text of a new file, in place of an earlier text under the same tag. It fails with fault 12
    /// if memory was refused.
    fn first<R: Wait>(&self, rt: &R, tag: u64, bytes: &[u8]) -> Result<(), Fault> {
        let Ok(copy) = bytes.to_vec(self.alloc) else {
            return Err(no_memory());
        };
        match self.shelf(tag).lock(rt).insert(tag, copy) {
            Ok(_earlier) => Ok(()),
            Err(_) => Err(no_memory()),
        }
    }
}
