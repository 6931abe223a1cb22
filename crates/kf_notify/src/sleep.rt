//! Sleeping on the number of a slot, and waking the sleepers.
//!
//! A raise makes no system call here if nobody sleeps, and no wake is lost. A thread that goes to sleep (1)
//! adds itself to the slot's count of sleepers. Then (2) the kernel, in one step, compares the low 32 bits of
//! the number with those that the thread saw, and queues the thread if they are equal. A thread that raises
//! the number (3) changes those bits, (4) loads the count, and (5) wakes all sleepers if the count is not
//! zero. Each of these steps is sequentially consistent, and a full barrier comes before the kernel's
//! comparison.
//!
//! A sleeper waits for a raise that comes after its (2), since (2) found the number that the sleeper had
//! seen. So (4) of that raise comes after (1) and finds the sleeper counted, and (5) finds the sleeper in the
//! queue. A thread that has woken up takes itself off the count. If it stays counted a moment too long, that
//! only costs a system call. Two cases are left. The last number, 2^64 - 1, is never raised, so a sleep on it
//! without a limit ends by itself within a millisecond. And if 2^32 raises came between a look and its (2),
//! then (2) would take them for none.
//!
//! The counts lie beside the table, and the rule of the table does not mention them. A clause says that a
//! wake comes after its raise. No clause says that there is a wake, or that (4) decides whether there is one.
//! `tools/unseen_steps` lists the places that may load a count, and `tests/models/wake.py` tries each order
//! of these steps.
ghost use Rattle.std.specs.Prelude.{◌<◌};
ghost use Rattle.kf_notify.specs.Steps.{HasRaised};

use crate::seat::PostSeat;
use std::sync::Wait;
use std::sync::atomic::Ordering::SeqCst;
use std::time::Duration;

/// The bits of a number that the kernel compares.
fn low_bits(number: u64) -> u32 {
    (number & 0xffff_ffff) as u32
}

impl PostSeat {
    /// Sleeps until a wake, if the slot's number is `seen`. It may also return for no reason. Each notify
    /// wakes all sleepers of its slot, unless it is a `Post::notify_quiet`.
    pub(crate) fn park<R: Wait>(&self, rt: &R, slot: u32, seen: u64)
        requires slot { slot < self.now.slots }
    {
        if seen == u64::MAX {
            self.park_for(rt, slot, seen, Duration::from_millis(1));
            return;
        }
        let sleepers = &self.table.sleepers[slot as usize];
        sleepers.fetch_add(1, SeqCst);
        self.table
            .numbers
            .shared
            .park(rt, slot as usize, low_bits(seen));
        sleepers.fetch_sub(1, SeqCst);
    }

    /// Like `park`, but sleeps for at most `limit`.
    pub(crate) fn park_for<R: Wait>(&self, rt: &R, slot: u32, seen: u64, limit: Duration)
        requires slot { slot < self.now.slots }
    {
        let sleepers = &self.table.sleepers[slot as usize];
        sleepers.fetch_add(1, SeqCst);
        self.table
            .numbers
            .shared
            .park_timeout(rt, slot as usize, low_bits(seen), limit);
        sleepers.fetch_sub(1, SeqCst);
    }

    /// Wakes all sleepers on the slot's number, and all threads that watch several slots, if there are any.
    ///
    /// Condition: this seat has raised the number of this slot, and has loaded no number since.
    pub(crate) fn wake_all(&self, slot: u32)
        requires slot { slot < self.now.slots }
        requires raised { HasRaised slot self.now.token.me.0.view }
    {
        if self.table.sleepers[slot as usize].load(SeqCst) != 0 {
            self.table.numbers.shared.wake_all(slot as usize);
        }
        self.table.watchers.wake();
    }
}
