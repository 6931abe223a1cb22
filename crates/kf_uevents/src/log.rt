//! The list of all events, of which the last ones are kept.
ghost use Rattle.std.specs.Prelude.{◌≡◌, ◌+◌, ◌-◌, ◌^◌, ◌<◌, ◌≤◌, [], ◌∷◌, List, drop, length, IfErr, IfOk, OnOk};
ghost use Rattle.std.specs.VecDeque.{deque_capacity};
ghost use Rattle.kf_core.specs.declared.refusal.Refusal.TheVariants as refusal_of;
ghost use Rattle.kf_uevents.specs.declared.uevent.Uevent.{Uevent};
ghost use Rattle.kf_uevents.specs.Logs.{IsLogOf, IsReading, IsUsedUp, Told, told_count};

use crate::uevent::Uevent;
use kf_core::Refusal;
use std::alloc::Global;
use std::collections::VecDeque;
use std::marker::Model;

/// What a reader finds at a number.
#[derive(Clone, Copy, Debug)]
pub enum Reading<'a> {
    /// The event of this number, and the number of the next.
    Next { event: &'a Uevent, then: u64 },
    /// The event of this number is no longer kept (`ENOBUFS` of netlink). A reader goes on at `from`, the
    /// number of the first event that is kept, or of the next event if none is kept.
    Lost { from: u64 },
    /// No event has this number yet.
    NoneYet,
}

/// All events of a tree, in the order in which they happened. An event's number is its place among them,
/// counted from 0, and never changes. The last events are kept, as many as there is room for.
#[derive(Drop)]
pub struct UeventLog {
    alloc: Global,
    room: usize,
    first: u64,
    kept: VecDeque<Uevent>,
}

impl Model for UeventLog {
    ghost use Rattle.std.specs.VecDeque.{deque_capacity};
    ghost use Rattle.kf_uevents.specs.Logs.{LogState, IsKeptLog};

    ghost Value = { LogState };

    ghost view = { λ s. record { room = s.room; first = s.first; kept = s.kept.items } };

    ghost invariant = { λ s. IsKeptLog (record { room = s.room; first = s.first; kept = s.kept.items })
        (deque_capacity s.kept) };
}

// Drops the first kept event if there is no room for one more, and returns how many events were dropped.
fn make_place(kept: &mut VecDeque<Uevent>, room: usize) -> u64
    requires some { 0 < room }
    requires few { length kept.old.items ≤ room }
    ensures gone { result ≡ length kept.old.items + 1 - room }
    ensures rest { kept.new.items ≡ drop result kept.old.items }
    ensures place { length kept.new.items < room }
    ensures capacity { deque_capacity kept.new ≡ deque_capacity kept.old }
{
    if kept.len() < room {
        return 0;
    }
    let _ = kept.pop_front();
    1
}

impl UeventLog {
    /// Makes an empty list, with room for this many events. All memory for the list itself is allocated now.
    /// If there is no room, no event is kept, but all events are counted.
    ///
    /// Refusal: NoMemory.
    pub fn new(alloc: Global, room: usize) -> Result<UeventLog, Refusal>
        ensures none { IfOk result (λ log. IsLogOf [] log) }
        ensures room { IfOk result (λ log. log.room ≡ room) }
        ensures refused { IfErr result (λ refusal. refusal ≡ refusal_of.NoMemory) }
    {
        let kept = VecDeque::with_capacity(alloc, room)?;
        Ok(UeventLog {
            alloc,
            room,
            first: 0,
            kept,
        })
    }

    /// Returns how many events there were, which is the number of the next event.
    pub fn count(&self) -> u64
        ensures counted { (all : List Uevent) → IsLogOf all self.now → result ≡ length all }
        ensures known { result ≡ told_count self.now }
    {
        self.first + self.kept.len() as u64
    }

    /// Returns what a reader finds at this number. The reader goes on at the number that is returned. If
    /// there is no event yet, it goes on at the same number.
    pub fn read_from(&self, number: u64) -> Reading<'_>
        ensures read { (all : List Uevent) → IsLogOf all self.now →
            IsReading all self.now.room number result }
        ensures some { (all : List Uevent) × IsLogOf all self.now }
    {
        if number < self.first {
            return Reading::Lost { from: self.first };
        }
        let place = number - self.first;
        if place < self.kept.len() as u64 {
            return Reading::Next {
                event: &self.kept[place as usize],
                then: number + 1,
            };
        }
        Reading::NoneYet
    }

    /// The allocator for the memory of events.
    pub(crate) fn alloc(&self) -> Global {
        self.alloc
    }

    /// Refuses once 2^63 events were reported, so that numbers cannot run out in the middle of the events of
    /// a change.
    pub(crate) fn check_numbers(&self) -> Result<(), Refusal>
        ensures left { OnOk result (told_count self.now < 2 ^ 63) }
        ensures refused { IfErr result
            (λ refusal. (refusal ≡ refusal_of.NoSpace) × IsUsedUp self.now) }
    {
        if self.count() < 1 << 63 {
            Ok(())
        } else {
            Err(Refusal::NoSpace)
        }
    }

    /// Reports one event. It allocates nothing.
    ///
    /// Condition: a number is left.
    pub(crate) fn push(&mut self, event: Uevent)
        requires left { told_count self.old + 1 < 2 ^ 64 }
        ensures told { Told self.old self.new (event ∷ []) }
        ensures counted { told_count self.new ≡ told_count self.old + 1 }
    {
        if self.room == 0 {
            self.first += 1;
            return;
        }
        self.first += make_place(&mut self.kept, self.room);
        let _ = self.kept.push_back(event);
    }

    /// Reports these events, one after another. It allocates nothing.
    ///
    /// Condition: fewer than 2^63 events were reported.
    pub(crate) fn push_all(&mut self, events: Vec<Uevent>)
        requires left { told_count self.old < 2 ^ 63 }
        ensures told { Told self.old self.new events.items }
    {
        let mut rest = events.into_iter();
        while let Some(event) = rest.next() {
            self.push(event);
        }
    }
}
