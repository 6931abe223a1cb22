//! Making a table of words with its Master.
ghost use Rattle.std.specs.Prelude.{◌≡◌, ◌≤◌, IfOk, IfErr, List, [], length, replicate};
ghost use Rattle.std.specs.Arc.{arc_value};
ghost use Rattle.kf_core.specs.declared.key.Node.TheVariants as node_of;
ghost use Rattle.kf_core.specs.declared.refusal.Refusal.TheVariants as refusal_of;
ghost use Rattle.kf_core.specs.declared.slot.SlotState.{SlotState};
ghost use Rattle.kf_core.specs.Limits.{most_slots};
ghost use Rattle.kf_words.specs.Layout.{opening_words};
ghost use Rattle.kf_words.specs.Nodes.{master_view};
ghost use Rattle.kf_words.specs.Notes.{history_of};
ghost use Rattle.kf_words.specs.Searches.{AreMarked};
ghost use Rattle.kf_words.specs.Steps.{opened};

use crate::blocks::{GROUP, group_of};
use crate::layout::{BIAS, GENERATION, LINKED, active_index, hold_index};
use crate::master::Master;
use crate::master_seat::MasterSeat;
use crate::master_token::MasterToken;
use crate::sight::Opening;
use crate::table::WordTable;
use kf_core::{Limits, Node, NodeFlags, Refusal, SlotList, SlotState};
use std::alloc::{AllocError, Global};
use std::marker::Model;
use std::sync::Arc;

/// A table of words: for each slot, a line with an active word and a hold word. Contracts see only which
/// table it is. `Words` only keeps the table; the Master, and the holds that it gives out, do all else.
#[derive(Drop)]
pub struct Words {
    table: Arc<WordTable>,
}

impl Model for Words {
    ghost use Rattle.kf_words.specs.Callers.{TableId};
    ghost use Rattle.std.specs.Arc.{arc_value};

    ghost Value = { TableId };

    ghost view = { λ w. (arc_value w.table).shared.table_id };
}

/// The words at the opening.
fn first_words(alloc: Global, slots: u32, start: u32) -> Result<Vec<u64>, AllocError>
    requires some { 1 ≤ slots }
    requires generations { start ≤ 4294967294 }
    ensures { IfOk result (λ words. words.items ≡ opening_words slots start) }
{
    let line = [BIAS, start as u64 * GENERATION, 0, 0, 0, 0, 0, 0];
    let mut words = line.repeat(alloc, slots as usize)?;
    words[active_index(0)] = 0;
    words[hold_index(0)] = (start as u64 + 1) * GENERATION + LINKED;
    Ok(words)
}

/// The slots at the opening.
fn first_slots(alloc: Global, slots: u32, start: u32) -> Result<SlotList<SlotState>, Refusal>
    requires some { 1 ≤ slots }
    requires generations { start ≤ 4294967294 }
    ensures made { IfOk result (λ states. states ≡ (opened 0 slots start).slots) }
    ensures refused { IfErr result (λ why. why ≡ refusal_of.NoMemory) }
{
    let empty = SlotState {
        generation: start,
        marks: None,
    };
    let root = SlotState {
        generation: start + 1,
        marks: Some(NodeFlags {
            activated: true,
            doomed: false,
        }),
    };
    let mut states = SlotList::new(alloc, slots as usize, empty)?;
    states.set(0, root);
    Ok(states)
}

/// The bits of blocks and the marks of groups at the opening: none is set. Every group has all its blocks, so
/// the last group may have blocks without slots.
fn first_marks(alloc: Global, slots: u32) -> Result<(Vec<u64>, Vec<bool>), Refusal>
    requires some { 1 ≤ slots }
    requires few { slots ≤ most_slots }
    ensures marked { IfOk result
        (λ r. (states : List SlotState) → length states ≡ slots → AreMarked r.0.items r.1.items states) }
    ensures refused { IfErr result (λ why. why ≡ refusal_of.NoMemory) }
{
    let groups = group_of(slots - 1) + 1;
    let full = vec![in alloc; 0u64; groups * GROUP]?;
    let full_groups = vec![in alloc; false; groups]?;
    Ok((full, full_groups))
}

/// Makes a table with the words of its opening, and the Master's seat at it. The table copies the words, so
/// both copies are in memory until this returns. The rest of the Master's memory is allocated only after
/// that.
fn open_table(alloc: Global, opening: Opening) -> Result<(Words, MasterSeat), AllocError>
    requires some { 1 ≤ opening.slots }
    requires few { opening.holds ≤ 65535 }
    requires generations { opening.start ≤ 4294967294 }
    ensures table { IfOk result (λ r. r.0 ≡ r.1.token.table_id) }
    ensures view { IfOk result
        (λ r. master_view r.1 ≡ opened opening.holds opening.slots opening.start) }
    ensures history { IfOk result (λ r. history_of r.1.token.me.0.seen ≡ []) }
{
    let words = first_words(alloc, opening.slots, opening.start)?;
    let (table, token) = WordTable::of_words(alloc, words.as_slice(), &opening)?;
    let table = Arc::new(alloc, table)?;
    let shared = Arc::try_clone(&table)?;
    let steps = MasterSeat {
        table: shared,
        token: MasterToken::new(token),
        most: opening.holds,
    };
    Ok((Words { table }, steps))
}

impl Words {
    /// Makes a table of words and its Master. Only the root has a node, a live directory of generation 1, and
    /// the history has no note.
    ///
    /// Refusal: NoMemory.
    pub fn new(alloc: Global, limits: Limits) -> Result<(Words, Master), Refusal>
        ensures table { IfOk result (λ r. r.0 ≡ r.1.table) }
        ensures view { IfOk result (λ r. r.1.view ≡ opened limits.holds limits.slots 0) }
        ensures nodes { IfOk result (λ r. r.1.nodes ≡ replicate limits.slots node_of.Dir) }
        ensures history { IfOk result (λ r. history_of r.1.seen ≡ []) }
        ensures refused { IfErr result (λ why. why ≡ refusal_of.NoMemory) }
    {
        Words::new_at(alloc, limits, 0)
    }

    /// Like `new`, but each slot has already had `start` generations, and the root has the next one.
    ///
    /// Condition: `start` is at most 4294967294.
    ///
    /// Refusal: NoMemory.
    pub fn new_at(alloc: Global, limits: Limits, start: u32) -> Result<(Words, Master), Refusal>
        requires { start ≤ 4294967294 }
        ensures table { IfOk result (λ r. r.0 ≡ r.1.table) }
        ensures view { IfOk result (λ r. r.1.view ≡ opened limits.holds limits.slots start) }
        ensures nodes { IfOk result (λ r. r.1.nodes ≡ replicate limits.slots node_of.Dir) }
        ensures history { IfOk result (λ r. history_of r.1.seen ≡ []) }
        ensures refused { IfErr result (λ why. why ≡ refusal_of.NoMemory) }
    {
        let count = limits.slots();
        let holds = limits.holds();
        let opening = Opening {
            holds,
            slots: count,
            start,
        };
        let (table, steps) = open_table(alloc, opening)?;
        let slots = first_slots(alloc, count, start)?;
        let nodes = SlotList::new(alloc, count as usize, Node::Dir)?;
        let (full, full_groups) = first_marks(alloc, count)?;
        let master = Master {
            steps,
            slots,
            nodes,
            holds,
            full,
            full_groups,
        };
        Ok((table, master))
    }
}
