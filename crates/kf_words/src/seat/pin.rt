//! Makes a hold of any key, from a seat of the same table. If the key's node is linked in its slot, and the
//! slot has a spare place, the slot's hold word counts one more hold, and a new seat gets it. No lock is
//! taken.
ghost use Rattle.std.specs.Prelude.{◌≡◌, ◌≢◌, ◌<◌, true, false, None, IfOk, IfErr, IfSome};
ghost use Rattle.kf_words.specs.Layout.{IsOf, HasSpare};
ghost use Rattle.kf_words.specs.Steps.{after_miss};
ghost use Rattle.kf_words.specs.Callers.{IsSameSeat, IsAtRest, caller_sight, handle_of, sight_of, view_of};
ghost use Rattle.kf_words.specs.TableSteps.{sees_holds_at, reads_node};
ghost use Rattle.kf_words.specs.Made.{WasMade, WasARelease};
ghost use Rattle.kf_words.specs.Another.{StaysAs, Missed};
ghost use Rattle.kf_words.specs.NodeWords.{node_born};
ghost use Rattle.kf_core.specs.declared.refusal.Refusal.TheVariants as refusal_of;
ghost use Rattle.kf_words.specs.Pins.{IsPin, IsHoldOf, IsWhyNot, FoundWhyNot, HoldOfRefused, IsRefused, WasPinnedBy, WasPinnedFor, WasRead, WasPinnedAndRead, WasHeldFor, HasSlotOf, new_sight};

use crate::layout::{GENERATION, has_linked, has_spare, hold_index, node_index};
use crate::node_words::node_of;
use crate::plays::{CountsHoldAt, HandsOn, LooksAt, ReadsNode, Releases, SeesHoldsAt};
use crate::seat::CallerSeat;
use crate::sight::Sight;
use atomic_table::Seat;
use kf_core::{Key, Node, Refusal};

/// How often an exchange is attempted if other holds come and go in between.
const TRIES: u32 = 64;

/// Whether a node of this generation is linked in the slot of this hold word.
fn is_of(word: u64, generation: u32) -> bool
    ensures of { result ≡ true → IsOf generation word }
    ensures not_of { result ≡ false → IsOf generation word → ⊥ }
{
    has_linked(word) && word / GENERATION == generation as u64
}

/// Why no hold of a key of this generation is made if its slot has this hold word. It is None if there is no
/// reason.
fn why_not(word: u64, generation: u32, most: u32) -> Option<Refusal>
    ensures refused { IfSome result (λ why. IsWhyNot generation most word why) }
    ensures linked { result ≡ None → IsOf generation word }
    ensures spare { result ≡ None → HasSpare most word }
{
    if !is_of(word, generation) {
        return Some(Refusal::NoEntry);
    }
    if has_spare(word, most) {
        None
    } else {
        Some(Refusal::TooManyHolds)
    }
}

impl CallerSeat {
    /// Whether the seat's table has the slot of a key.
    pub(crate) fn has_slot_of(&self, key: Key) -> bool
        ensures there { result ≡ true → HasSlotOf (handle_of self.now) key }
        ensures beyond { result ≡ false → HasSlotOf (handle_of self.now) key → ⊥ }
    {
        hold_index(key.slot) < self.table.word_count()
    }

    /// Loads the hold word of a key's slot as it is now, by a load that the rule does not see. The first
    /// attempt at a hold expects this word.
    pub(crate) fn peek_holds_of(&self, key: Key) -> u64
        requires there { HasSlotOf (handle_of self.now) key }
    {
        self.table.shared.peek(hold_index(key.slot))
    }

    /// Loads the hold word of a key's slot.
    fn look_holds_of(&mut self, key: Key) -> u64
        requires rests { IsAtRest (view_of self.old) }
        requires there { HasSlotOf (handle_of self.old) key }
        ensures same { IsSameSeat (handle_of self.old) (handle_of self.new) }
        ensures view { view_of self.new ≡ after_miss result (view_of self.old) }
        ensures made { WasMade (sees_holds_at key.slot) (sight_of self.old) (sight_of self.new) }
        ensures most { self.new.most ≡ self.old.most }
    {
        let word = hold_index(key.slot);
        self.table.shared.load::<LooksAt>(&mut self.token, word)
    }

    /// Loads the hold word of a key's slot when no hold is made. The step also names the greatest number of
    /// holds of a slot: it is a compare-and-exchange of that number for itself, which changes no word.
    fn see_holds_of(&mut self, key: Key) -> u64
        requires rests { IsAtRest (view_of self.old) }
        requires there { HasSlotOf (handle_of self.old) key }
        ensures same { IsSameSeat (handle_of self.old) (handle_of self.new) }
        ensures view { view_of self.new ≡ after_miss result (view_of self.old) }
        ensures made { WasMade (sees_holds_at key.slot) (sight_of self.old) (sight_of self.new) }
        ensures limit { (handle_of self.new).seen.opening.holds ≡ self.new.most }
        ensures most { self.new.most ≡ self.old.most }
    {
        let word = hold_index(key.slot);
        let most = self.most as u64;
        self.table
            .shared
            .compare_exchange::<SeesHoldsAt>(&mut self.token, word, most, most)
    }

    /// Loads one of the words of the node that a key's slot has.
    fn read_node_of(&mut self, key: Key, place: usize) -> u64
        requires rests { IsAtRest (view_of self.old) }
        requires there { HasSlotOf (handle_of self.old) key }
        requires place { place < 5 }
        ensures same { IsSameSeat (handle_of self.old) (handle_of self.new) }
        ensures view { view_of self.new ≡ after_miss result (view_of self.old) }
        ensures made { WasMade (reads_node key.slot place) (sight_of self.old) (sight_of self.new) }
        ensures most { self.new.most ≡ self.old.most }
    {
        let word = node_index(place, key.slot);
        self.table.shared.load::<ReadsNode>(&mut self.token, word)
    }

    /// Counts one more hold of a key if the hold word of its slot is as expected, and gives the hold a new
    /// seat. An Err has the word that was found instead.
    fn exchange_for(&mut self, key: Key, expected: u64) -> Result<Seat<(), Sight>, u64>
        requires rests { IsAtRest (view_of self.old) }
        requires there { HasSlotOf (handle_of self.old) key }
        requires linked { IsOf key.generation expected }
        requires spare { HasSpare self.old.most expected }
        ensures same { IsSameSeat (handle_of self.old) (handle_of self.new) }
        ensures stays { StaysAs (handle_of self.old) (handle_of self.new) }
        ensures pinned { IfOk result
            (λ token. WasPinnedBy key (sight_of self.old) (sight_of self.new) token.me.0.seen) }
        ensures token { IfOk result (λ token. IsPin (handle_of self.new) key token) }
        ensures missed { IfErr result
            (λ _. WasMade (sees_holds_at key.slot) (sight_of self.old) (sight_of self.new)) }
        ensures view { IfErr result (λ found. view_of self.new ≡ after_miss found (view_of self.old)) }
        ensures other { IfErr result (λ found. found ≢ expected) }
    {
        let word = hold_index(key.slot);
        let found = self
            .table
            .shared
            .compare_exchange::<CountsHoldAt>(&mut self.token, word, expected, expected + 1);
        if found != expected {
            return Err(found);
        }
        Ok(self.table.shared.split_seat::<HandsOn>(&mut self.token))
    }

    /// Makes one attempt at a hold of a key. It succeeds if the guessed hold word allows one more hold, and
    /// the hold word of the slot is as guessed. An Err has the word that was found instead, or the reason why
    /// the word that was found allows no hold.
    fn try_pin(&mut self, key: Key, guess: u64) -> Result<Seat<(), Sight>, Result<u64, Refusal>>
        requires rests { IsAtRest (view_of self.old) }
        requires there { HasSlotOf (handle_of self.old) key }
        ensures same { IsSameSeat (handle_of self.old) (handle_of self.new) }
        ensures stays { StaysAs (handle_of self.old) (handle_of self.new) }
        ensures token { IfOk result (λ token. IsPin (handle_of self.new) key token) }
        ensures pinned { IfOk result
            (λ token. WasPinnedBy key (sight_of self.old) (sight_of self.new) token.me.0.seen) }
        ensures missed { IfErr result
            (λ _. WasMade (sees_holds_at key.slot) (sight_of self.old) (sight_of self.new)) }
        ensures outrun { IfErr result
            (λ why. IfOk why (λ found. (found ≡ (view_of self.new).found) × (found ≢ guess))) }
        ensures refused { IfErr result
            (λ why. IfErr why (λ refusal. FoundWhyNot key (handle_of self.new) refusal)) }
    {
        if why_not(guess, key.generation, self.most).is_none() {
            return match self.exchange_for(key, guess) {
                Ok(token) => Ok(token),
                Err(found) => Err(Ok(found)),
            };
        }
        let found = self.see_holds_of(key);
        match why_not(found, key.generation, self.most) {
            None => Err(Ok(found)),
            Some(why) => Err(Err(why)),
        }
    }

    /// Counts one more hold of a key, and gives the hold a new seat. The first attempt expects the word
    /// `first`, and each later one the word that was last found.
    ///
    /// Refusals, in order: NoEntry, TooManyHolds, Busy.
    fn count_pin(&mut self, key: Key, first: u64) -> Result<Seat<(), Sight>, Refusal>
        requires rests { IsAtRest (view_of self.old) }
        requires there { HasSlotOf (handle_of self.old) key }
        ensures same { IsSameSeat (handle_of self.old) (handle_of self.new) }
        ensures stays { StaysAs (handle_of self.old) (handle_of self.new) }
        ensures token { IfOk result (λ token. IsPin (handle_of self.new) key token) }
        ensures pinned { IfOk result
            (λ token. WasPinnedFor key (sight_of self.old) (sight_of self.new) token.me.0.seen) }
        ensures refused { IfErr result
            (λ why. HoldOfRefused key (handle_of self.old) (handle_of self.new) why) }
        ensures missed { IfErr result
            (λ _. Missed (sees_holds_at key.slot) 1 64 (sight_of self.old) (sight_of self.new)) }
        ensures owned { IfErr result (λ why. why ≢ refusal_of.NoMemory) }
    {
        let mut guess = first;
        for tries in 0..TRIES {
            let _ = tries; // only the proof names it
            match self.try_pin(key, guess) {
                Ok(token) => return Ok(token),
                Err(Err(why)) => return Err(why),
                Err(Ok(found)) => guess = found,
            }
        }
        Err(Refusal::Busy)
    }

    /// Why no hold of a key is made if the table can have no further owner. It is NoMemory only if the node
    /// is linked and its slot has a spare place.
    fn refuse_pin(&mut self, key: Key) -> Refusal
        requires rests { IsAtRest (view_of self.old) }
        requires there { HasSlotOf (handle_of self.old) key }
        ensures same { IsSameSeat (handle_of self.old) (handle_of self.new) }
        ensures stays { StaysAs (handle_of self.old) (handle_of self.new) }
        ensures refused { HoldOfRefused key (handle_of self.old) (handle_of self.new) result }
        ensures made { WasMade (sees_holds_at key.slot) (sight_of self.old) (sight_of self.new) }
    {
        let found = self.see_holds_of(key);
        match why_not(found, key.generation, self.most) {
            None => Refusal::NoMemory,
            Some(why) => why,
        }
    }

    /// Reads the node in a key's slot, and then looks whether the key is linked there.
    fn read_node(&mut self, key: Key) -> (Node, bool)
        requires rests { IsAtRest (view_of self.old) }
        requires there { HasSlotOf (handle_of self.old) key }
        ensures same { IsSameSeat (handle_of self.old) (handle_of self.new) }
        ensures stays { StaysAs (handle_of self.old) (handle_of self.new) }
        ensures read { WasRead key result.0 (sight_of self.old) (sight_of self.new) }
        ensures linked { result.1 ≡ true → IsOf key.generation (view_of self.new).found }
        ensures out { result.1 ≡ false → IsOf key.generation (view_of self.new).found → ⊥ }
    {
        let kind = self.read_node_of(key, 0);
        let first = self.read_node_of(key, 1);
        let second = self.read_node_of(key, 2);
        let found = self.look_holds_of(key);
        (node_of(kind, first, second), is_of(found, key.generation))
    }

    /// Releases the hold of a key's new seat, in one word step. That seat is left with nothing.
    fn give_back(&self, key: Key, token: Seat<(), Sight>) -> Seat<(), Sight>
        requires pin { IsPin (handle_of self.now) key token }
        requires there { HasSlotOf (handle_of self.now) key }
        ensures back { WasARelease (new_sight key token.me.0.seen) (caller_sight result.me.0) }
    {
        let mut spent = token;
        let word = hold_index(key.slot);
        self.table.shared.fetch_sub::<Releases>(&mut spent, word, 1);
        spent
    }

    /// Counts one more hold of a linked key, and gives the hold a new seat, with the node that was born with
    /// the key. The first attempt expects the word `first`. The node is read after the hold is counted: its
    /// words are in the cache line that the exchange has just fetched for writing, and an earlier read would
    /// fetch that line twice.
    ///
    /// Refusals, in order: NoEntry, TooManyHolds, Busy.
    pub(crate) fn pin_token(
        &mut self,
        key: Key,
        first: u64,
    ) -> Result<(Node, Seat<(), Sight>), Refusal>
        requires rests { IsAtRest (view_of self.old) }
        requires there { HasSlotOf (handle_of self.old) key }
        ensures same { IsSameSeat (handle_of self.old) (handle_of self.new) }
        ensures stays { StaysAs (handle_of self.old) (handle_of self.new) }
        ensures token { IfOk result (λ r. IsPin (handle_of self.new) key r.1) }
        ensures node { IfOk result (λ r. r.0 ≡ node_born r.1.me.0.seen key.slot) }
        ensures made { IfOk result
            (λ r. WasPinnedAndRead key r.0 (sight_of self.old) (sight_of self.new) r.1.me.0.seen) }
        ensures refused { IfErr result
            (λ why. IsRefused key (handle_of self.old) (handle_of self.new) why) }
        ensures owned { IfErr result (λ why. why ≢ refusal_of.NoMemory) }
    {
        let token = self.count_pin(key, first)?;
        let (node, linked) = self.read_node(key);
        if linked {
            return Ok((node, token));
        }
        let _spent = self.give_back(key, token);
        Err(Refusal::NoEntry)
    }

    /// Makes a seat of a linked key of the same table, which holds the key's slot, with the node that was
    /// born with the key.
    pub(crate) fn pin(&mut self, key: Key) -> Result<CallerSeat, Refusal>
        requires rests { IsAtRest (view_of self.old) }
        requires there { HasSlotOf (handle_of self.old) key }
        ensures same { IsSameSeat (handle_of self.old) (handle_of self.new) }
        ensures stays { StaysAs (handle_of self.old) (handle_of self.new) }
        ensures other { IfOk result (λ seat. IsHoldOf (handle_of self.old) key (handle_of seat)) }
        ensures rests { IfOk result (λ seat. IsAtRest (view_of seat)) }
        ensures made { IfOk result
            (λ seat. WasHeldFor key (sight_of self.old) (sight_of self.new) (handle_of seat)) }
        ensures refused { IfErr result
            (λ why. IsRefused key (handle_of self.old) (handle_of self.new) why) }
    {
        let Ok(owner) = self.owner() else {
            return Err(self.refuse_pin(key));
        };
        let first = self.peek_holds_of(key);
        let (node, token) = self.pin_token(key, first)?;
        Ok(owner.seat(key, node, token))
    }
}
