//! A maker of holds, for one thread. Each hold that is released to it leaves an owner of the table. The maker
//! keeps these owners, and gives them to the next holds that it makes.
ghost use Rattle.std.specs.Prelude.{◌≡◌, ◌≢◌, ◌<◌, ◌≤◌, ◌+◌, ◌-◌, true, if◌then◌else◌, is_ok, IfOk, IfErr, MatchResult};
ghost use Rattle.kf_core.specs.Phases.{is_waiting};
ghost use Rattle.kf_core.specs.declared.refusal.Refusal.TheVariants as refusal_of;
ghost use Rattle.kf_words.specs.Callers.{IsSameSeat, seat_view};
ghost use Rattle.kf_words.specs.Another.{StaysAs};
ghost use Rattle.kf_words.specs.Pins.{IsHoldOf, WasHeldFor, IsRefused, HasSlotOf};
ghost use Rattle.kf_words.specs.Makers.{most_spare};

use crate::hold::Hold;
use crate::seat::{CallerSeat, Owner, release_seat};
use kf_core::{Key, Refusal};
use std::alloc::Global;
use std::marker::Model;

/// The greatest number of owners that a maker keeps.
const MOST_SPARE: usize = 16;

/// Makes holds for one thread, by means of a hold that it keeps. Each hold owns the table, and all threads
/// share the count of the table's owners. A maker keeps up to 16 owners, from the holds that are released to
/// it. If it makes a hold with one of them, that hold writes nothing to the shared count. A maker must be
/// passed to `end`.
///
/// A maker also keeps the hold word that its last release left. If the next hold is of the same slot, its
/// first exchange expects that word. So the exchange is the first step on the slot's cache line, and fetches
/// the line for writing at once. If the word is out of date, that costs one more exchange.
pub struct Holds {
    pub(crate) by: CallerSeat,
    spare: Vec<Owner>,
    /// The slot of the last hold that was released, and the hold word that the release left.
    last: u32,
    left: u64,
}

impl Model for Holds {
    ghost use Rattle.std.specs.Prelude.{◌≤◌, vec_len, vec_capacity};
    ghost use Rattle.kf_words.specs.Callers.{handle_of, view_of, IsAtRest};
    ghost use Rattle.kf_words.specs.Makers.{Maker, AreOwnersOf, most_spare};

    ghost Value = { Maker };

    ghost view = { λ h. record { by = handle_of h.by; spare = vec_len h.spare } };

    ghost invariant = { λ h. IsAtRest (view_of h.by) × AreOwnersOf h.by.token.table_id h.spare.items
        × (most_spare ≤ vec_capacity h.spare) };
}

impl Holds {
    /// Makes a maker that uses this hold, with no spare owner yet.
    ///
    /// Refusal: NoMemory, and the hold is returned.
    pub fn new(alloc: Global, by: Hold) -> Result<Holds, (Hold, Refusal)>
        ensures made { IfOk result (λ holds. (holds.by ≡ by) × (holds.spare ≡ 0)) }
        ensures refused { IfErr result (λ r. (r.0 ≡ by) × (r.1 ≡ refusal_of.NoMemory)) }
    {
        match Vec::with_capacity(alloc, MOST_SPARE) {
            Ok(spare) => {
                let Hold { seat } = by;
                let left = seat.peek_holds();
                Ok(Holds {
                    last: seat.key().slot,
                    by: seat,
                    spare,
                    left,
                })
            }
            Err(_) => Err((by, Refusal::NoMemory)),
        }
    }

    /// The key whose slot the maker's own hold keeps.
    pub fn key(&self) -> Key
        ensures value { result ≡ self.now.by.key }
        ensures waits { is_waiting self.now.by.phase ≡ true }
    {
        self.by.key()
    }

    /// The hold word that the first attempt at a hold of this key expects.
    fn guess(&self, key: Key) -> u64
        requires there { HasSlotOf self.now.by key }
    {
        if key.slot == self.last {
            self.left
        } else {
            self.by.peek_holds_of(key)
        }
    }

    /// Makes a hold of a key's node, like `Hold::pin`. If the maker has a spare owner, the hold takes that
    /// owner. A refusal leaves the number of spare owners as it was.
    ///
    /// Refusals, in order: NoEntry, TooManyHolds and Busy as in `Hold::pin`; NoMemory as there, but only if
    /// the maker has no spare owner.
    pub fn pin(&mut self, key: Key) -> Result<Hold, Refusal>
        ensures same { IsSameSeat self.old.by self.new.by }
        ensures stays { StaysAs self.old.by self.new.by }
        ensures other { IfOk result (λ other. IsHoldOf self.old.by key other) }
        ensures made { IfOk result
            (λ other. WasHeldFor key (seat_view self.old.by) (seat_view self.new.by) other) }
        ensures refused { HasSlotOf self.old.by key
            → IfErr result (λ why. IsRefused key self.old.by self.new.by why) }
        ensures beyond { (HasSlotOf self.old.by key → ⊥) → MatchResult result (λ _. ⊥)
            (λ why. (why ≡ refusal_of.NoEntry) × (self.new.by ≡ self.old.by)) }
        ensures spare { self.new.spare ≡ (if is_ok result then self.old.spare - 1 else self.old.spare) }
        ensures owned { 0 < self.old.spare → IfErr result (λ why. why ≢ refusal_of.NoMemory) }
    {
        if !self.by.has_slot_of(key) {
            return Err(Refusal::NoEntry);
        }
        if self.spare.is_empty() {
            let seat = self.by.pin(key)?;
            return Ok(Hold { seat });
        }
        let first = self.guess(key);
        let (node, token) = self.by.pin_token(key, first)?;
        let Some(owner) = self.spare.pop() else {
            unreachable!()
        };
        let seat = owner.seat(key, node, token);
        Ok(Hold { seat })
    }

    /// Releases a hold of the same table in one word step, like `Hold::release`, and keeps its owner if there
    /// are fewer than 16 spare owners.
    ///
    /// Condition: the hold is of the same table.
    pub fn release(&mut self, hold: Hold)
        requires table { hold.table ≡ self.old.by.table }
        ensures same { self.new.by ≡ self.old.by }
        ensures kept { self.old.spare < most_spare → self.new.spare ≡ self.old.spare + 1 }
        ensures full { most_spare ≤ self.old.spare → self.new.spare ≡ self.old.spare }
    {
        let Hold { mut seat } = hold;
        let found = release_seat(&mut seat);
        self.last = seat.key().slot;
        self.left = found.wrapping_sub(1);
        let owner = seat.end_to_owner();
        if self.spare.len() < MOST_SPARE {
            self.spare.push_reserved(owner);
        }
    }

    /// Ends the maker and returns its own hold. The spare owners are dropped.
    pub fn end(self) -> Hold
        ensures { result ≡ self.by }
    {
        let Holds {
            by,
            spare: _,
            last: _,
            left: _,
        } = self;
        Hold { seat: by }
    }
}
