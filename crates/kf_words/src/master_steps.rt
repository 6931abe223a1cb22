//! The steps of the Master's seat, one by one.
ghost use Rattle.std.specs.Prelude.{◌≡◌, ◌<◌, [], ◌∷◌, ◌++◌, length, Some, None, false};
ghost use Rattle.std.specs.Arc.{arc_value};
ghost use mathlib.Core.List.{IsPrefix};
ghost use Rattle.kf_core.specs.Marks.{fresh_marks};
ghost use Rattle.kf_words.specs.Layout.{active_index, hold_index};
ghost use Rattle.kf_words.specs.Rule.{last_key};
ghost use Rattle.kf_words.specs.Steps.{with_load, with_pin, without_pin, after_split, new_hold, state_at, with_look, without_node, after_store, with_birth, TellsSlot, with_marks, activated_marks, doomed_marks, plain};
ghost use Rattle.kf_core.specs.declared.slot.NodeFlags.{NodeFlags};
ghost use Rattle.kf_words.specs.Nodes.{HasMarks, HasLooked, FoundRoom, FoundFree, master_sight, master_view};
ghost use Rattle.kf_words.specs.TableSteps.{loads_hold, pins_hold, stores_fresh, births, takes_bias, marks_node, looks_over, unlinks, notes, stores_node};
ghost use Rattle.kf_words.specs.Made.{WasMadeByMaster, WasNoted};
ghost use Rattle.kf_words.specs.Notes.{history_of};
ghost use Rattle.kf_words.specs.declared.view.View.TheVariants as seat_of;

use crate::joins::{Hears, Knowing};
use crate::layout::{BIAS, GENERATION, LINKED, active_index, hold_index, mark_bits, node_index};
use crate::master_plays::{
    Answers, Births, Compares, LoadsHold, LooksOver, MarksNode, Notes, PinsHold, SplitsHold,
    StoresFresh, StoresNode, TakesBias, Unlinks, UnpinsHold,
};
use crate::master_seat::MasterSeat;
use crate::node_words::words_of;
use crate::note::Said;
use crate::sight::Sight;
use atomic_table::Seat;
use kf_core::{Node, NodeFlags};

impl MasterSeat {
    /// The index of a slot's active word in the table.
    fn active_index(&self, slot: u32) -> usize
        requires { slot < length (master_view self.now).slots }
        ensures here { result ≡ active_index slot }
        ensures within { result < (arc_value self.now.table).shared.table_id.words }
    {
        active_index(slot)
    }

    /// The index of a slot's hold word in the table.
    fn hold_index(&self, slot: u32) -> usize
        requires { slot < length (master_view self.now).slots }
        ensures here { result ≡ hold_index slot }
        ensures within { result < (arc_value self.now.table).shared.table_id.words }
    {
        hold_index(slot)
    }

    /// Loads the hold word of a slot.
    pub(crate) fn load_hold(&mut self, slot: u32) -> u64
        requires { slot < length (master_view self.old).slots }
        ensures table { self.new.token.table_id ≡ self.old.token.table_id }
        ensures view { master_view self.new ≡ with_load slot result (master_view self.old) }
        ensures history { history_of self.new.token.me.0.seen ≡ history_of self.old.token.me.0.seen }
        ensures made { WasMadeByMaster (loads_hold slot) (master_sight self.old.token.me.0)
            (master_sight self.new.token.me.0) }
        ensures slot { TellsSlot (master_view self.old) slot result }
    {
        let word = self.hold_index(slot);
        let token = &mut self.token;
        self.table.shared.load::<LoadsHold>(&mut token.seat, word)
    }

    /// Counts one more hold, which has no seat yet.
    pub(crate) fn pin_hold(&mut self, slot: u32)
        requires slot { slot < length (master_view self.old).slots }
        requires one { (master_view self.old).pinning ≡ None }
        requires room { FoundRoom (master_view self.old) slot }
        ensures table { self.new.token.table_id ≡ self.old.token.table_id }
        ensures view { master_view self.new ≡ with_pin slot (master_view self.old) }
        ensures history { history_of self.new.token.me.0.seen ≡ history_of self.old.token.me.0.seen }
        ensures made { WasMadeByMaster (pins_hold slot) (master_sight self.old.token.me.0)
            (master_sight self.new.token.me.0) }
    {
        let word = self.hold_index(slot);
        let token = &mut self.token;
        self.table
            .shared
            .fetch_add::<PinsHold>(&mut token.seat, word, 1);
    }

    /// Undoes the count of a hold that has no seat.
    pub(crate) fn unpin_hold(&mut self, slot: u32)
        requires slot { slot < length (master_view self.old).slots }
        requires one { (master_view self.old).pinning ≡ Some slot }
        ensures table { self.new.token.table_id ≡ self.old.token.table_id }
        ensures view { master_view self.new ≡ without_pin slot (master_view self.old) }
        ensures history { history_of self.new.token.me.0.seen ≡ history_of self.old.token.me.0.seen }
    {
        let word = self.hold_index(slot);
        let token = &mut self.token;
        self.table
            .shared
            .fetch_sub::<UnpinsHold>(&mut token.seat, word, 1);
    }

    /// Gives the hold that was counted to a new seat.
    pub(crate) fn give_hold(&mut self, slot: u32) -> Seat<(), Sight>
        requires slot { slot < length (master_view self.old).slots }
        requires one { (master_view self.old).pinning ≡ Some slot }
        ensures table { self.new.token.table_id ≡ self.old.token.table_id }
        ensures view { master_view self.new ≡ after_split (master_view self.old) }
        ensures history { history_of self.new.token.me.0.seen ≡ history_of self.old.token.me.0.seen }
        ensures seen { self.new.token.me.0.seen ≡ self.old.token.me.0.seen }
        ensures same_table { result.table_id ≡ self.old.token.table_id }
        ensures told { result.me.0.seen ≡ self.old.token.me.0.seen }
        ensures hold { plain result.me
            ≡ (seat_of.Caller (new_hold (last_key slot (state_at (master_view self.old) slot))), []) }
    {
        let _ = slot; // only the contract names it
        let token = &mut self.token;
        self.table.shared.split_seat::<SplitsHold>(&mut token.seat)
    }

    /// Stores the active word of a new node in a free slot.
    pub(crate) fn store_fresh(&mut self, slot: u32)
        requires slot { slot < length (master_view self.old).slots }
        requires free { FoundFree (master_view self.old) slot }
        ensures table { self.new.token.table_id ≡ self.old.token.table_id }
        ensures view { master_view self.new ≡ after_store slot (master_view self.old) }
        ensures history { history_of self.new.token.me.0.seen ≡ history_of self.old.token.me.0.seen }
        ensures made { WasMadeByMaster (stores_fresh slot) (master_sight self.old.token.me.0)
            (master_sight self.new.token.me.0) }
    {
        let word = self.active_index(slot);
        let token = &mut self.token;
        self.table
            .shared
            .store::<StoresFresh>(&mut token.seat, word, BIAS);
    }

    /// Stores one of the words of the node that is about to be born in a slot. The slot's new active word
    /// must have been stored just before.
    fn store_node(&mut self, slot: u32, place: usize, word: u64)
        requires slot { slot < length (master_view self.old).slots }
        requires fresh { (master_view self.old).fresh ≡ Some slot }
        requires place { place < 5 }
        ensures table { self.new.token.table_id ≡ self.old.token.table_id }
        ensures view { master_view self.new ≡ master_view self.old }
        ensures history { history_of self.new.token.me.0.seen ≡ history_of self.old.token.me.0.seen }
        ensures made { WasMadeByMaster (stores_node slot place word) (master_sight self.old.token.me.0)
            (master_sight self.new.token.me.0) }
    {
        let index = node_index(place, slot);
        let token = &mut self.token;
        self.table
            .shared
            .store::<StoresNode>(&mut token.seat, index, word);
    }

    /// Stores the words of the node that is about to be born in a slot.
    pub(crate) fn note_node(&mut self, slot: u32, node: Node)
        requires slot { slot < length (master_view self.old).slots }
        requires fresh { (master_view self.old).fresh ≡ Some slot }
        ensures table { self.new.token.table_id ≡ self.old.token.table_id }
        ensures view { master_view self.new ≡ master_view self.old }
        ensures history { history_of self.new.token.me.0.seen ≡ history_of self.old.token.me.0.seen }
        ensures noted { WasNoted slot node (master_sight self.old.token.me.0)
            (master_sight self.new.token.me.0) }
    {
        let (kind, first, second) = words_of(node);
        self.store_node(slot, 0, kind);
        self.store_node(slot, 1, first);
        self.store_node(slot, 2, second);
    }

    /// Gives the slot its next generation, and links a node there.
    pub(crate) fn birth(&mut self, slot: u32)
        requires slot { slot < length (master_view self.old).slots }
        requires fresh { (master_view self.old).fresh ≡ Some slot }
        ensures table { self.new.token.table_id ≡ self.old.token.table_id }
        ensures view { master_view self.new ≡ with_birth slot (master_view self.old) }
        ensures history { history_of self.new.token.me.0.seen ≡ history_of self.old.token.me.0.seen }
        ensures made { WasMadeByMaster (births slot) (master_sight self.old.token.me.0)
            (master_sight self.new.token.me.0) }
    {
        let word = self.hold_index(slot);
        let token = &mut self.token;
        self.table
            .shared
            .fetch_add::<Births>(&mut token.seat, word, GENERATION + LINKED);
    }

    /// Clears the bit BIAS in the active word of a slot.
    pub(crate) fn take_bias(&mut self, slot: u32)
        requires { HasMarks (master_view self.old) slot fresh_marks }
        ensures table { self.new.token.table_id ≡ self.old.token.table_id }
        ensures view { master_view self.new ≡ with_marks activated_marks slot (master_view self.old) }
        ensures history { history_of self.new.token.me.0.seen ≡ history_of self.old.token.me.0.seen }
        ensures made { WasMadeByMaster (takes_bias slot) (master_sight self.old.token.me.0)
            (master_sight self.new.token.me.0) }
    {
        let word = self.active_index(slot);
        let token = &mut self.token;
        self.table
            .shared
            .fetch_sub::<TakesBias>(&mut token.seat, word, BIAS);
    }

    /// Marks the node of a slot, which has these marks, as doomed. It wakes nobody: a thread that waits at a
    /// node that is not doomed yet sleeps for at most a millisecond.
    pub(crate) fn mark_node(&mut self, slot: u32, marks: NodeFlags)
        requires marks { HasMarks (master_view self.old) slot marks }
        requires undoomed { marks.doomed ≡ false }
        ensures table { self.new.token.table_id ≡ self.old.token.table_id }
        ensures view { master_view self.new ≡ with_marks doomed_marks slot (master_view self.old) }
        ensures history { history_of self.new.token.me.0.seen ≡ history_of self.old.token.me.0.seen }
        ensures made { WasMadeByMaster (marks_node slot) (master_sight self.old.token.me.0)
            (master_sight self.new.token.me.0) }
    {
        let bits = mark_bits(marks);
        let word = self.active_index(slot);
        let token = &mut self.token;
        self.table
            .shared
            .fetch_add::<MarksNode>(&mut token.seat, word, bits);
    }

    /// Loads the active word of a slot.
    pub(crate) fn look_over(&mut self, slot: u32) -> u64
        requires { slot < length (master_view self.old).slots }
        ensures table { self.new.token.table_id ≡ self.old.token.table_id }
        ensures view { master_view self.new ≡ with_look slot result (master_view self.old) }
        ensures history { history_of self.new.token.me.0.seen ≡ history_of self.old.token.me.0.seen }
        ensures made { WasMadeByMaster (looks_over slot) (master_sight self.old.token.me.0)
            (master_sight self.new.token.me.0) }
    {
        let word = self.active_index(slot);
        let token = &mut self.token;
        self.table.shared.load::<LooksOver>(&mut token.seat, word)
    }

    /// Takes out the node of a slot whose active word was found drained by the last step.
    pub(crate) fn unlink(&mut self, slot: u32)
        requires marks { (x : NodeFlags) × HasMarks (master_view self.old) slot x }
        requires drained { HasLooked (master_view self.old) slot }
        ensures table { self.new.token.table_id ≡ self.old.token.table_id }
        ensures view { master_view self.new ≡ without_node slot (master_view self.old) }
        ensures history { history_of self.new.token.me.0.seen ≡ history_of self.old.token.me.0.seen }
        ensures made { WasMadeByMaster (unlinks slot) (master_sight self.old.token.me.0)
            (master_sight self.new.token.me.0) }
    {
        let word = self.hold_index(slot);
        let token = &mut self.token;
        self.table
            .shared
            .fetch_sub::<Unlinks>(&mut token.seat, word, LINKED);
    }

    /// Adds a note to the run, in one word step that changes nothing.
    pub(crate) fn note<E: Said>(&mut self)
        requires { 0 < length (master_view self.old).slots }
        ensures table { self.new.token.table_id ≡ self.old.token.table_id }
        ensures view { master_view self.new ≡ master_view self.old }
        ensures made { WasMadeByMaster (notes E.note) (master_sight self.old.token.me.0)
            (master_sight self.new.token.me.0) }
        ensures history { history_of self.new.token.me.0.seen
            ≡ history_of self.old.token.me.0.seen ++ E.note ∷ [] }
    {
        let token = &mut self.token;
        self.table.shared.load::<Notes<E>>(&mut token.seat, 0);
    }

    /// Shows the Master's seat what another seat has seen. The other seat ends.
    pub(crate) fn hear<E: Knowing>(&mut self, other: Seat<(), Sight>)
        requires slot { 0 < length (master_view self.old).slots }
        requires table { other.table_id ≡ self.old.token.table_id }
        requires bare { other.me.1 ≡ [] }
        requires picked { other.me.0 ≡ E.sight }
        ensures table { self.new.token.table_id ≡ self.old.token.table_id }
        ensures view { master_view self.new ≡ master_view self.old }
        ensures seen { self.new.token.me.0.seen ≡ self.old.token.me.0.seen }
        ensures told { self.new.token.me.0.shown ≡ other.me.0.seen.steps }
    {
        let token = &mut self.token;
        self.table
            .shared
            .join_seat::<Hears<E>>(&mut token.seat, other);
    }

    /// Compares what the seat was shown with the run so far, in one word step that changes nothing.
    pub(crate) fn compare(&mut self)
        requires { 0 < length (master_view self.old).slots }
        ensures table { self.new.token.table_id ≡ self.old.token.table_id }
        ensures view { master_view self.new ≡ master_view self.old }
        ensures history { history_of self.new.token.me.0.seen ≡ history_of self.old.token.me.0.seen }
        ensures told { IsPrefix self.old.token.me.0.shown self.new.token.me.0.seen.steps }
    {
        let token = &mut self.token;
        self.table.shared.load::<Compares>(&mut token.seat, 0);
    }

    /// Makes a new seat, which holds nothing and has seen what the Master has seen.
    pub(crate) fn answer(&mut self) -> Seat<(), Sight>
        requires { 0 < length (master_view self.old).slots }
        ensures table { self.new.token.table_id ≡ self.old.token.table_id }
        ensures me { self.new.token.me ≡ self.old.token.me }
        ensures same_table { result.table_id ≡ self.old.token.table_id }
        ensures bare { result.me.1 ≡ [] }
        ensures seen { result.me.0.seen ≡ self.old.token.me.0.seen }
    {
        let token = &mut self.token;
        self.table.shared.split_seat::<Answers>(&mut token.seat)
    }
}
