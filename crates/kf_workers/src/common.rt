//! What all seats of a run share.

use crate::script_ops::ScriptOps;
use crate::serving::Serving;
use kf_core::{Key, Limits, Refusal};
use kf_device::Bus;
use kf_shared::{Naming, SharedTree};
use std::alloc::Global;
use std::sync::{Mutex, Wait};

/// The last file that a script made in a slot: its generation and its tag. No node has generation 0.
#[derive(Clone, Copy)]
struct LastFile {
    generation: u32,
    tag: u64,
}

/// What all seats of a run share: the tree, the bus, and the callbacks of the files that scripts make.
///
/// The lock of the last files is never held together with another lock: it is unlocked before another lock is
/// taken, a callback runs or the thread waits. Nothing outside sees what it guards, so the functions have no
/// clauses.
#[derive(Drop)]
pub struct Common<'x, W, N: Naming> {
    pub tree: SharedTree<N>,
    pub bus: Bus<N>,
    texts: &'x W,
    last_files: Mutex<Vec<LastFile>>,
}

impl<'x, W: ScriptOps, N: Naming> Common<'x, W, N> {
    /// What the seats of a new run share: its tree, and a bus without devices. It fails with `NoMemory` if
    /// memory was refused.
    pub fn new(
        alloc: Global,
        tree: SharedTree<N>,
        texts: &'x W,
        limits: Limits,
    ) -> Result<Common<'x, W, N>, Refusal> {
        let bus = Bus::new(alloc)?;
        let none = LastFile {
            generation: 0,
            tag: 0,
        };
        let last_files = vec![in alloc; none; limits.slots() as usize]?;
        Ok(Common {
            tree,
            bus,
            texts,
            last_files: Mutex::new(last_files),
        })
    }

    /// The callbacks of all files.
    pub fn serving(&self) -> Serving<'_, W, Bus<N>> {
        Serving {
            texts: self.texts,
            devices: &self.bus,
        }
    }

    /// Drops the text of a file that is not in the tree: an empty text, which needs no memory, takes its
    /// place.
    ///
    /// Context: takes the lock of the texts of its tag.
    pub fn let_go<R: Wait>(&self, rt: &R, tag: u64) {
        let _ = self.texts.first(rt, tag, b"");
    }

    /// Notes the tag of a new file, and returns the tag of an earlier file of its slot, which has left the
    /// tree. If a later file of the slot was already noted, the new file has left the tree meanwhile, and its
    /// own tag is returned.
    fn note(last_files: &mut Vec<LastFile>, key: Key, tag: u64) -> Option<u64> {
        let last = last_files.get_mut(key.slot as usize)?;
        if last.generation >= key.generation {
            return Some(tag);
        }
        let earlier = *last;
        *last = LastFile {
            generation: key.generation,
            tag,
        };
        if earlier.generation == 0 {
            None
        } else {
            Some(earlier.tag)
        }
    }

    /// Notes that a file was made, and drops the text of its slot's earlier file. So at most one text is kept
    /// for each slot, in addition to the texts of lines that are still running.
    ///
    /// Context: takes the lock of the last files, and then that of the texts of a tag.
    pub fn made_file<R: Wait>(&self, rt: &R, key: Key, tag: u64) {
        let gone = {
            let mut last_files = self.last_files.lock(rt);
            Self::note(&mut last_files, key, tag)
        };
        if let Some(gone) = gone {
            self.let_go(rt, gone);
        }
    }
}
