//! The board of one caller.

ghost use Rattle.std.specs.Prelude.{◌≡◌, ◌≤◌, ◌-◌, ◌^◌, replicate, None, IfOk, IfErr};
ghost use Rattle.kf_core.specs.declared.refusal.Refusal.TheVariants.{NoMemory};
ghost use Rattle.kf_plain.specs.Plain.{new_board};

use crate::events::EventTable;
use crate::nodes::{BoardFile, BoardToken, Nodes};
use crate::text_table::TextTable;
use kf_core::{Limits, Refusal, SlotList};
use std::alloc::Global;
use std::marker::Model;

mod answering;
mod files;
mod hiding;
mod looking;
mod making;
mod removing;

/// How many files may be open: one for each letter.
const FILES: usize = 26;

/// The board of one caller: a tree, the open files on its nodes by letter, and for each slot the text of its
/// last file, its event number, and the token of its hidden file.
///
/// Contracts see no callers: between two lines, each hold of a slot is that of an open file on it, or of its
/// token.
#[derive(Drop)]
pub struct PlainBoard {
    nodes: Nodes,
    events: EventTable,
    texts: TextTable,
    files: Vec<Option<BoardFile>>,
    tokens: SlotList<Option<BoardToken>>,
}

impl Model for PlainBoard {
    ghost use Rattle.kf_plain.specs.Plain.{Plain};

    ghost Value = { Plain };

    ghost use Rattle.kf_plain.specs.PlainInside.{plain_of, IsWholeBoard};

    ghost view = { λ b. plain_of b.nodes b.events b.texts b.files.items b.tokens };

    ghost invariant = { λ b. IsWholeBoard b.nodes b.events b.texts b.files.items b.tokens };
}

/// No open file under any of the 26 letters.
fn no_files(alloc: Global) -> Result<Vec<Option<BoardFile>>, Refusal>
    ensures none { IfOk result (λ files. files.items ≡ replicate 26 None) }
    ensures refused { IfErr result (λ refusal. refusal ≡ NoMemory) }
{
    let mut files = Vec::new(alloc);
    for made in 0..FILES {
        prove!(made < FILES);
        files.push(None).map_err(|_| Refusal::NoMemory)?;
    }
    Ok(files)
}

impl PlainBoard {
    /// A board with only the root. `NoMemory` if there is no memory for it.
    pub fn new(alloc: Global, limits: Limits) -> Result<PlainBoard, Refusal>
        ensures made { IfOk result (λ board. board ≡ new_board limits.slots limits.holds 0) }
        ensures refused { IfErr result (λ refusal. refusal ≡ NoMemory) }
    {
        PlainBoard::new_at(alloc, limits, 0)
    }

    /// A board with only the root. Each slot has had `start` generations before. `NoMemory` if there is no
    /// memory for it.
    ///
    /// Condition: `start` is at most 2^32 - 2.
    pub fn new_at(alloc: Global, limits: Limits, start: u32) -> Result<PlainBoard, Refusal>
        requires start { start ≤ 2 ^ 32 - 2 }
        ensures made { IfOk result (λ board. board ≡ new_board limits.slots limits.holds start) }
        ensures refused { IfErr result (λ refusal. refusal ≡ NoMemory) }
    {
        let nodes = Nodes::new_at(alloc, limits, start)?;
        let events = EventTable::new(alloc, limits.slots())?;
        let texts = TextTable::new(alloc, limits.slots())?;
        let files = no_files(alloc)?;
        let tokens = SlotList::new(alloc, limits.slots() as usize, None)?;
        Ok(PlainBoard {
            nodes,
            events,
            texts,
            files,
            tokens,
        })
    }
}
