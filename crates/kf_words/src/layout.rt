//! The places of a slot's words, the numbers that make up active words and hold words, and the tests on a
//! word that was found.
ghost use Rattle.std.specs.Prelude.{◌≡◌, ◌<◌, ◌+◌, ◌-◌, ◌↔◌, IsTrue};
ghost use Rattle.kf_words.specs.Layout.{active_index, hold_index, sleepers_index, node_index, keeps_out, has_bias, has_doom, has_hide, is_drained, is_unused, last_user_wakes, wants_wake, has_linked, bit, bias, doom, holds_in, users_in, is_full, IsFree, HasRoom, HasSpare};

use kf_core::NodeFlags;

/// The number of words in a cache line. Each slot has its own line, so that calls of one node never wait for
/// those of another. A line has the active word, then the hold word, the count of the sleepers at the active
/// word, three words for the node, and two unused words.
pub(crate) const LINE_WORDS: usize = 8;

/// In an active word: the node is not linked, or not activated, or doomed, so a try for a reference fails.
pub(crate) const BIAS: u64 = 0x1_0000_0000;

/// In an active word: the node is doomed.
pub(crate) const DOOM: u64 = 0x2_0000_0000;

/// In an active word: the key is hidden, so a try for a reference fails.
pub(crate) const HIDE: u64 = 0x4_0000_0000;

/// In an active word: the bits that count its users.
pub(crate) const USERS: u64 = 0xffff_ffff;

/// In a hold word: a node is linked.
pub(crate) const LINKED: u64 = 0x8000_0000;

/// In a hold word: the bits that count its holds.
pub(crate) const HOLDS: u64 = 0x7fff_ffff;

/// In a hold word: one generation.
pub(crate) const GENERATION: u64 = 0x1_0000_0000;

/// The index of a slot's active word in the table.
pub(crate) fn active_index(slot: u32) -> usize
    ensures { result ≡ active_index slot }
{
    slot as usize * LINE_WORDS
}

/// The index of a slot's hold word in the table.
pub(crate) fn hold_index(slot: u32) -> usize
    ensures { result ≡ hold_index slot }
{
    slot as usize * LINE_WORDS + 1
}

/// The index of the count of a slot's sleepers in the table.
pub(crate) fn sleepers_index(slot: u32) -> usize
    ensures { result ≡ sleepers_index slot }
{
    slot as usize * LINE_WORDS + 2
}

/// The index of one of the words of a slot's node in the table.
pub(crate) fn node_index(place: usize, slot: u32) -> usize
    requires { place < 5 }
    ensures { result ≡ node_index place slot }
{
    slot as usize * LINE_WORDS + 3 + place
}

#[tactic(auto, using(crate::proofs::Bits::has_bias_test))]
fn has_bias(word: u64) -> bool
    ensures { result ≡ has_bias word }
{
    word & BIAS != 0
}

/// Whether the node of this active word is doomed.
#[tactic(auto, using(crate::proofs::Bits::has_doom_test))]
fn has_doom(word: u64) -> bool
    ensures { result ≡ has_doom word }
{
    word & DOOM != 0
}

/// Whether the key of this active word is hidden.
#[tactic(auto, using(crate::proofs::Bits::has_hide_test))]
pub(crate) fn has_hide(word: u64) -> bool
    ensures { result ≡ has_hide word }
{
    word & HIDE != 0
}

/// Whether a try that found this active word is refused.
pub(crate) fn keeps_out(word: u64) -> bool
    ensures { result ≡ keeps_out word }
{
    has_bias(word) || has_hide(word)
}

/// Whether the node of this active word is doomed and nobody uses it, whether or not its key is hidden.
pub(crate) fn is_drained(word: u64) -> bool
    ensures { result ≡ is_drained word }
{
    word == BIAS + DOOM || word == BIAS + DOOM + HIDE
}

/// Whether nobody uses the node of this active word.
pub(crate) fn is_unused(word: u64) -> bool
    ensures { result ≡ is_unused word }
{
    word & USERS == 0
}

/// Whether the last user to leave wakes the sleepers at this active word: the node is doomed, and somebody
/// uses it.
pub(crate) fn last_user_wakes(word: u64) -> bool
    ensures { result ≡ last_user_wakes word }
{
    has_doom(word) && !is_unused(word)
}

/// Whether a sleeper may be waiting for this active word: the node is doomed or its key is hidden, and nobody
/// uses the node.
pub(crate) fn wants_wake(word: u64) -> bool
    ensures { result ≡ wants_wake word }
{
    is_drained(word) || has_hide(word) && is_unused(word)
}

/// Whether a step that found this active word, and took one user off it, left a word that a sleeper may be
/// waiting for. Nobody waits for a wake at the word of a live node. So most callers are done after one test,
/// with the same mask as in `enter`.
pub(crate) fn ends_a_wait(found: u64) -> bool
    ensures { result ≡ wants_wake (found - 1) }
{
    keeps_out(found) && wants_wake(found - 1)
}

/// Whether a node is linked in the slot of this hold word.
#[tactic(auto, using(crate::proofs::Bits::has_linked_test))]
pub(crate) fn has_linked(word: u64) -> bool
    ensures { result ≡ has_linked word }
{
    word & LINKED != 0
}

/// Whether a node can be born in the slot of this hold word.
pub(crate) fn is_free(word: u64) -> bool
    ensures { IsTrue result ↔ IsFree word }
{
    word % GENERATION == 0 && word / GENERATION < u32::MAX as u64
}

/// Whether the slot of this hold word has room for one more hold.
pub(crate) fn has_room(word: u64, limit: u32) -> bool
    ensures { IsTrue result ↔ HasRoom limit word }
{
    word & HOLDS < limit as u64
}

/// Whether the slot of this hold word has the greatest number of holds.
pub(crate) fn is_full(word: u64, limit: u32) -> bool
    ensures { result ≡ is_full limit word }
{
    word & HOLDS == limit as u64
}

/// The number of holds in a hold word.
pub(crate) fn holds_in(word: u64) -> u32
    ensures { result ≡ holds_in word }
{
    (word & HOLDS) as u32
}

/// The number of users in an active word.
pub(crate) fn users_in(word: u64) -> u32
    ensures { result ≡ users_in word }
{
    (word & USERS) as u32
}

/// Whether the slot of this hold word has room for one more hold, and then still for one of the Master's.
pub(crate) fn has_spare(word: u64, limit: u32) -> bool
    ensures { IsTrue result ↔ HasSpare limit word }
{
    (word & HOLDS) + 1 < limit as u64
}

/// What the mark adds to the active word of a node with these marks.
pub(crate) fn mark_bits(marks: NodeFlags) -> u64
    ensures { result ≡ bit marks.activated bias + doom }
{
    if marks.activated { BIAS + DOOM } else { DOOM }
}
