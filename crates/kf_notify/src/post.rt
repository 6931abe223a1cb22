//! A post: it reads and raises the event number of one slot, and waits for it to change.
ghost use Rattle.std.specs.Prelude.{◌≡◌, ◌≢◌, ◌-◌, ◌^◌, ◌<◌, ◌≤◌, IfOk, IfErr, MatchOption};
ghost use Rattle.kf_notify.specs.PostStates.{post_of, seat_view, IsSamePost, FoundNumber, FoundAtLast, WaitedPast, Made, KnowsSlot};
ghost use Rattle.kf_notify.specs.Next.{WasLoad, WasNotify};

use crate::deadline::Deadline;
use crate::seat::PostSeat;
use std::marker::Model;
use std::sync::Wait;
use std::time::{Clock, Duration};

/// The error of a notify that found the last event number, 2^64 - 1. Only such a notify makes this value.
#[derive(Clone, Copy, Debug, PartialEq, Eq)]
pub struct Full {
    last: (),
}

impl Full {
    /// Makes the error, for a notify that has just found the last number.
    pub(crate) fn found() -> Full {
        Full { last: () }
    }
}

/// Reads and raises the event number of one slot (`kernfs_open_node.event`).
#[derive(Drop)]
pub struct Post {
    seat: PostSeat,
    slot: u32,
}

impl Model for Post {
    ghost use Rattle.kf_notify.specs.PostStates.{PostState, post_of, KnowsSlot};

    ghost Value = { PostState };

    ghost view = { λ p. post_of p.seat };

    ghost invariant = { λ p. KnowsSlot (post_of p.seat) p.slot };
}

impl Post {
    pub(crate) fn new(seat: PostSeat, slot: u32) -> Post
        requires knows { KnowsSlot (post_of seat) slot }
        ensures made { result ≡ post_of seat }
    {
        Post { seat, slot }
    }

    /// Loads the slot's event number once, and returns it. It is not below any number that this post has seen
    /// or made.
    pub fn now(&mut self) -> u64
        ensures same { IsSamePost self.old self.new }
        ensures found { FoundNumber self.old result self.new }
        ensures next { WasLoad self.old.slot result (seat_view self.old) (seat_view self.new) }
        ensures start { self.old.numbers.start ≤ result }
    {
        self.seat.load(self.slot)
    }

    /// Raises the slot's event number to one more than a load found, unless it is that high already, and
    /// returns that number (`kernfs_notify`). The returned number is above all that this post had seen or
    /// made. All threads that wait for the slot's number to change are woken. The wake makes no system call
    /// if nobody sleeps there and there is no `Watch`. If the load found 2^64 - 1, the call fails with
    /// `Full`, and then no number changes.
    pub fn notify(&mut self) -> Result<u64, Full>
        ensures same { IsSamePost self.old self.new }
        ensures made { IfOk result (λ number. Made self.old number self.new) }
        ensures raised { IfOk result
            (λ number. WasNotify self.old.slot number (seat_view self.old) (seat_view self.new)) }
        ensures full { IfErr result (λ _. FoundNumber self.old (2 ^ 64 - 1) self.new) }
        ensures kept { IfErr result
            (λ _. WasLoad self.old.slot (2 ^ 64 - 1) (seat_view self.old) (seat_view self.new)) }
        ensures start { self.old.numbers.start ≤ self.new.found }
    {
        let number = self.notify_quiet()?;
        self.seat.wake_all(self.slot);
        Ok(number)
    }

    /// Like [`Post::notify`], but wakes nobody. It is for a caller whose threads sleep elsewhere, and not in
    /// [`Post::wait_past`].
    pub fn notify_quiet(&mut self) -> Result<u64, Full>
        ensures same { IsSamePost self.old self.new }
        ensures made { IfOk result (λ number. Made self.old number self.new) }
        ensures raised { IfOk result
            (λ number. WasNotify self.old.slot number (seat_view self.old) (seat_view self.new)) }
        ensures full { IfErr result (λ _. FoundNumber self.old (2 ^ 64 - 1) self.new) }
        ensures kept { IfErr result
            (λ _. WasLoad self.old.slot (2 ^ 64 - 1) (seat_view self.old) (seat_view self.new)) }
        ensures start { self.old.numbers.start ≤ self.new.found }
    {
        let found = self.now();
        if found == u64::MAX {
            return Err(Full::found());
        }
        self.seat.raise(self.slot, found + 1);
        Ok(found + 1)
    }

    /// Waits until the slot's number is not `seen`, and returns the number. The call may never return.
    ///
    /// Context: sleeps; takes no lock.
    pub fn wait_past<R: Wait>(&mut self, rt: &R, seen: u64) -> u64
        ensures same { IsSamePost self.old self.new }
        ensures other { result ≢ seen }
        ensures found { FoundAtLast self.old result self.new }
        ensures loads { WaitedPast self.old seen result self.new }
    {
        for _ in rt.forever() {
            let found = self.now();
            if found != seen {
                return found;
            }
            self.rest(rt, seen);
        }
        unreachable!()
    }

    /// Like [`Post::wait_past`], but waits for at most `limit`. Returns None if the number that was found
    /// last is `seen`.
    ///
    /// Context: sleeps; takes no lock.
    pub fn wait_past_for<R: Wait + Clock>(
        &mut self,
        rt: &R,
        seen: u64,
        limit: Duration,
    ) -> Option<u64>
        ensures same { IsSamePost self.old self.new }
        ensures answered { MatchOption result (self.new.found ≡ seen)
            (λ number. (number ≢ seen) × (number ≡ self.new.found)) }
        ensures found { FoundAtLast self.old self.new.found self.new }
        ensures loads { WaitedPast self.old seen self.new.found self.new }
    {
        let deadline = Deadline::new(rt, limit);
        for _ in rt.forever() {
            let found = self.now();
            if found != seen {
                return Some(found);
            }
            let left = deadline.left(rt)?;
            self.rest_for(rt, seen, left);
        }
        unreachable!()
    }

    /// Sleeps until a notify of the slot that is not a [`Post::notify_quiet`], if the slot's number is still
    /// `seen`. It may also return for no reason: no clause says why it returned.
    ///
    /// Context: sleeps; takes no lock.
    pub fn rest<R: Wait>(&self, rt: &R, seen: u64) {
        self.seat.park(rt, self.slot, seen);
    }

    /// Like [`Post::rest`], but sleeps for at most `limit`.
    ///
    /// Context: sleeps; takes no lock.
    pub fn rest_for<R: Wait>(&self, rt: &R, seen: u64, limit: Duration) {
        self.seat.park_for(rt, self.slot, seen, limit);
    }
}
