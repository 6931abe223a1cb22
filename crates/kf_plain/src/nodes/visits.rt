//! Open files on the nodes, and visits to a node by the caller of an open file.

ghost use Rattle.std.specs.Prelude.{◌≡◌, ◌⊎◌, ◌<◌, ◌≤◌, ◌++◌, ◌∷◌, [], ℕ, List, length, slice_set, slice_index, IfOk, IfErr, OnOk, IsSome, IsTrue, None, Some, Ok, true};
ghost use Rattle.kf_core.specs.declared.key.Key.{Key};
ghost use Rattle.kf_core.specs.declared.caller.Phase.{Phase};
ghost use Rattle.kf_core.specs.declared.caller.Phase.TheVariants.{Spent};
ghost use Rattle.kf_core.specs.declared.refusal.Refusal.TheVariants.{NoMemory, TooManyHolds};
ghost use Rattle.kf_core.specs.Phases.{is_waiting};
ghost use Rattle.kf_core.specs.Tree.{is_linked};
ghost use Rattle.kf_table.specs.Live.{live_in};
ghost use Rattle.kf_pages.specs.Files.{Polls, Reads, Stored, Writes, new_file, tag_of, text_told};
ghost use Rattle.kf_world.specs.Bounded.{hold_count};
ghost use Rattle.kf_plain.specs.Nodes.{StillWaits, Waits, with_spent};
ghost use Rattle.kf_plain.specs.TextTable.{ShowsOf, StoresIn};
ghost use Rattle.kf_plain.specs.Visits.{VisitsLive, file_cause};

use super::Nodes;
use crate::events::{EventTable, SlotEvents};
use crate::text_table::TextTable;
use kf_core::{Key, Node, Refusal};
use kf_pages::{FileError, HeldFile, Page, Want};
use kf_world::World;

/// An open file, and the key of its node.
#[derive(Drop)]
pub struct BoardFile {
    pub key: Key,
    pub file: HeldFile<World, Box<Page>>,
}

/// The page of a closed file, or a new one if there is none. `NoMemory` if there is no memory for a new one.
fn take_page(pages: &mut Vec<Box<Page>>) -> Result<Box<Page>, Refusal>
    ensures refused { IfErr result (λ refusal. refusal ≡ NoMemory) }
{
    if let Some(page) = pages.pop() {
        return Ok(page);
    }
    Box::new(*pages.allocator(), Page::new()).map_err(|_| Refusal::NoMemory)
}

impl Nodes {
    /// Opens a file with a new hold of its node, which is linked and of this kind.
    ///
    /// Refused with `TooManyHolds`, then with what [`HeldFile::open`] refuses. `NoMemory` may come before any
    /// of these, since a page is taken first. After a refusal the hold is released.
    pub fn open(&mut self, key: Key, node: Node, want: Want) -> Result<BoardFile, Refusal>
        requires linked { is_linked self.old.log.tree key ≡ true }
        ensures room { IfOk result (λ _. hold_count self.old.callers key.slot < self.old.limit) }
        ensures no_cause { IfOk result (λ _. file_cause node want (live_in self.old.log.tree key) ≡ None) }
        ensures file { IfOk result
            (λ f. f ≡ record {
              key = key;
              file = record { hold = length self.old.callers; tag = tag_of node; state = new_file want };
            }) }
        ensures held { IfOk result
            (λ _. (phase : Phase) × IsTrue (is_waiting phase)
            × (self.new ≡ record self.old {
              callers = self.old.callers ++ record { key = key; phase = phase }
                  ∷ [];
            })) }
        ensures refused { IfErr result (λ refusal.
            (((refusal ≡ TooManyHolds) × (self.old.limit ≤ hold_count self.old.callers key.slot))
            ⊎ ((hold_count self.old.callers key.slot < self.old.limit)
            × (file_cause node want (live_in self.old.log.tree key) ≡ Some refusal))
            ⊎ (refusal ≡ NoMemory))
            × ((spent : List Key) × (self.new ≡ with_spent self.old spent))) }
    {
        let page = take_page(&mut self.pages)?;
        let id = self.world.pin(key)?;
        match HeldFile::open(&mut self.world, id, node, want, page) {
            Ok(file) => Ok(BoardFile { key, file }),
            Err((id, page, refusal)) => {
                self.world.release(id);
                let _ = self.pages.push(page);
                Err(refusal)
            }
        }
    }

    /// Prepares the text of a read, as [`HeldFile::prepare`] does.
    pub fn read(
        &mut self,
        file: &mut BoardFile,
        texts: &mut TextTable,
        offset: u64,
        events: &EventTable,
    ) -> Result<(), FileError>
        requires waits { Waits self.old.callers file.old.file.hold file.old.key }
        ensures reads { (count : ℕ) → Reads (VisitsLive (live_in self.old.log.tree file.old.key) (Unit {0})
            (λ shown. (shown.number ≡ slice_index events.now file.old.key.slot)
            × ShowsOf texts.old file.old.file.tag shown.filled texts.old))
            (λ answer. answer ≡ text_told file.new.file.state offset count result)
            file.old.file.state offset count file.new.file.state }
        ensures text { OnOk result (IsSome file.new.file.state.text) }
        ensures same_file { file.new
            ≡ record file.old { file = record file.old.file { state = file.new.file.state } } }
        ensures same_texts { texts.new ≡ texts.old }
        ensures same { self.new ≡ record self.old { callers = self.new.callers } }
        ensures waiting { StillWaits self.old.callers file.old.file.hold file.old.key self.new.callers }
    {
        let mut numbers = SlotEvents {
            table: events,
            slot: file.key.slot,
        };
        file.file
            .prepare(&mut self.world, texts, &mut numbers, offset)
    }

    /// Writes a file, as [`HeldFile::write`] does.
    pub fn write(
        &mut self,
        file: &mut BoardFile,
        texts: &mut TextTable,
        bytes: &[u8],
    ) -> Result<usize, FileError>
        requires waits { Waits self.old.callers file.old.file.hold file.old.key }
        ensures writes { Writes (VisitsLive (live_in self.old.log.tree file.old.key) (texts.new ≡ texts.old)
            (Stored StoresIn texts.old file.old.file.tag bytes.now texts.new)) file.old.file.state result }
        ensures same_file { file.new ≡ file.old }
        ensures same { self.new ≡ record self.old { callers = self.new.callers } }
        ensures waiting { StillWaits self.old.callers file.old.file.hold file.old.key self.new.callers }
    {
        file.file.write(&mut self.world, texts, bytes)
    }

    /// Whether a file has changed, as [`HeldFile::poll`] says.
    pub fn poll(&mut self, file: &mut BoardFile, events: &EventTable) -> bool
        requires waits { Waits self.old.callers file.old.file.hold file.old.key }
        ensures polls { Polls
            (VisitsLive (live_in self.old.log.tree file.old.key) (Unit {0})
            (λ now. now ≡ slice_index events.now file.old.key.slot)) file.old.file.state result }
        ensures same_file { file.new ≡ file.old }
        ensures same { self.new ≡ record self.old { callers = self.new.callers } }
        ensures waiting { StillWaits self.old.callers file.old.file.hold file.old.key self.new.callers }
    {
        let mut numbers = SlotEvents {
            table: events,
            slot: file.key.slot,
        };
        file.file.poll(&mut self.world, &mut numbers)
    }

    /// Closes a file, and releases its hold. Its page is kept for the next file.
    pub fn close(&mut self, file: BoardFile)
        requires waits { Waits self.old.callers file.file.hold file.key }
        ensures spent { self.new
            ≡ record self.old {
              callers = slice_set self.old.callers file.file.hold
                  (record { key = file.key; phase = Spent });
            } }
    {
        let BoardFile { key, file } = file;
        let (id, page) = file.close();
        self.release(id, key);
        // If the page cannot be kept, it is dropped.
        let _ = self.pages.push(page);
    }
}
