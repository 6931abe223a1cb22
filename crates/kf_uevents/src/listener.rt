//! Listeners, which read one event after another, and sleep until there are more.
ghost use Rattle.std.specs.Prelude.{◌≡◌, ◌<◌, List};
ghost use Rattle.std.specs.Sync.RwLock.{read_guard_value};
ghost use Rattle.kf_uevents.specs.declared.uevent.Uevent.{Uevent};
ghost use Rattle.kf_uevents.specs.Logs.{IsLogOf, IsReading, next_after, told_count};

use crate::log::{Reading, UeventLog};
use kf_notify::Post;
use std::marker::Model;
use std::sync::{RwLock, RwLockReadGuard, Wait};

/// Reads the events of a list, each one once. In contracts it is the number of the event that it reads next.
///
/// It sleeps on the event number of its post's slot. A thread that adds events to the list must raise that
/// number afterwards, by `Posts::notify` for this slot. No file may have that slot, so use the slot of the
/// tree root.
#[derive(Drop)]
pub struct Listener {
    post: Post,
    next: u64,
}

impl Model for Listener {
    ghost use Rattle.std.specs.Prelude.{ℕ};

    ghost Value = { ℕ };

    ghost view = { λ s. s.next };
}

/// What a listener looks at: a list of events behind its lock. A test has its own implementation, which adds
/// an event between two steps of [`Listener::wait`].
pub trait Look {
    /// Locks the list for reading.
    fn look<'a, R: Wait>(&'a self, rt: &R) -> RwLockReadGuard<'a, UeventLog>;
}

impl Look for RwLock<UeventLog> {
    fn look<'a, R: Wait>(&'a self, rt: &R) -> RwLockReadGuard<'a, UeventLog> {
        self.read(rt)
    }
}

// Sleeps until there is an event with this number, and returns the list, locked for reading. It loads the
// slot's event number first, and then looks at the list. So if an event is added after the look, its notify
// changes the event number on which this thread sleeps, and no wake is lost. `tests/models/wake.py` tries
// every order of these steps.
fn wait_for<'a, L: Look, R: Wait>(
    rt: &R,
    log: &'a L,
    post: &mut Post,
    number: u64,
) -> RwLockReadGuard<'a, UeventLog>
    ensures some { number < told_count (read_guard_value result) }
{
    for _ in rt.forever() {
        let seen = post.now();
        let guard = log.look(rt);
        if number < guard.count() {
            return guard;
        }
        drop(guard);
        post.rest(rt, seen);
    }
    unreachable!()
}

impl Listener {
    /// Makes a listener that first reads the event with this number. [`UeventLog::count`] is the number of
    /// the next event.
    pub fn new(post: Post, next: u64) -> Listener
        ensures next { result ≡ next }
    {
        Listener { post, next }
    }

    /// Reads what comes next, once. After a loss, the listener goes on at the first event that is kept.
    pub fn read<'a>(&mut self, log: &'a UeventLog) -> Reading<'a>
        ensures read { (all : List Uevent) → IsLogOf all log.now →
            IsReading all log.now.room self.old result }
        ensures moved { self.new ≡ next_after self.old result }
    {
        let reading = log.read_from(self.next);
        self.next = match &reading {
            Reading::Next { event: _, then } => *then,
            Reading::Lost { from } => *from,
            Reading::NoneYet => self.next,
        };
        reading
    }

    /// Sleeps until there is something to read, an event or a loss, and returns the list, locked for reading.
    /// [`Listener::read`] finds the event or the loss there. `wait` may never return. No clause says that the
    /// thread wakes up, but tests show it.
    ///
    /// Drop the guard before you lock the list again, lock the tree, or wait. A thread that reports an event
    /// has the tree's lock, and waits for the list's lock.
    ///
    /// Context: sleeps; takes the list's lock, which the caller must not hold, and returns with that lock
    /// taken.
    pub fn wait<'a, L: Look, R: Wait>(
        &mut self,
        rt: &R,
        log: &'a L,
    ) -> RwLockReadGuard<'a, UeventLog>
        ensures some { self.new < told_count (read_guard_value result) }
        ensures same { self.new ≡ self.old }
    {
        wait_for(rt, log, &mut self.post, self.next)
    }
}
