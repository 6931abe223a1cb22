//! Sleeping on the active word of a seat's slot, and waking the sleepers.
//!
//! A step that takes the last user off a word makes no system call if nobody sleeps, and yet no wake is lost.
//! A seat that goes to sleep makes steps (1) and (2), and a seat that takes a user off makes steps (3) to
//! (5):
//!
//! - (1) The seat adds itself to the slot's count of sleepers.
//! - (2) The kernel compares the users of the active word with those that the seat saw, which are one or
//!   more, and queues the seat if they are equal. This is one step.
//! - (3) The other seat changes the active word.
//! - (4) It loads the count of sleepers.
//! - (5) It wakes all sleepers if the count is not zero.
//!
//! Each of these steps is sequentially consistent, and the kernel's compare is behind a full barrier.
//!
//! A sleeper waits for the step that leaves the word with no user. That step's (3) comes after the sleeper's
//! (2), which found users. So its (4) comes after the sleeper's (1) and finds the sleeper counted, and its
//! (5) finds the sleeper in the queue. A seat that has woken takes itself off the count. If it stays in the
//! count a moment too long, that costs only a system call.
//!
//! The count is in a third word, to which no birth stores: the slot of a sleeper is held. (1), (3), (4) and
//! the step that takes a sleeper off the count are steps of the one run. Clauses name them in this order
//! (`WasAsleep`, `WasMadeThenWake`), and the law `sleepers_are_found` says that (4) finds a sleeper. It is
//! not proved that the code goes by the number that (4) finds, and no clause sees the kernel's queue.
//! `tools/unseen_steps` says which functions may make loads that the rule does not see, and
//! `tests/models/wake.py` tries each order of these steps.
ghost use Rattle.std.specs.Prelude.{◌≡◌, ◌<◌, ℕ};
ghost use Rattle.std.specs.Arc.{arc_value};
ghost use Rattle.kf_words.specs.Callers.{IsSameSeat, handle_of, sight_of, view_of};
ghost use Rattle.kf_words.specs.Layout.{last_user_wakes, sleepers_index};
ghost use Rattle.kf_words.specs.Made.{LoadedSleepers, Rested, WasAsleep, WasMadeOnSleepers};
ghost use Rattle.kf_words.specs.TableSteps.{awakes, sleeps};

use crate::layout::{USERS, last_user_wakes, sleepers_index};
use crate::plays::{Awakes, LoadsSleepers, Sleeps};
use crate::seat::CallerSeat;
use std::sync::Wait;
use std::time::Duration;

impl CallerSeat {
    /// The index of the count of its slot's sleepers in the table.
    fn sleepers_index(&self) -> usize
        ensures here { result ≡ sleepers_index self.now.key.slot }
        ensures within { result < (arc_value self.now.table).shared.table_id.words }
    {
        sleepers_index(self.key.slot)
    }

    /// Counts itself among the sleepers.
    fn fall_asleep(&mut self)
        ensures same { IsSameSeat (handle_of self.old) (handle_of self.new) }
        ensures view { view_of self.new ≡ view_of self.old }
        ensures made { WasMadeOnSleepers sleeps (sight_of self.old) (sight_of self.new) }
    {
        let word = self.sleepers_index();
        self.table
            .shared
            .fetch_add::<Sleeps>(&mut self.token, word, 1);
    }

    /// Takes itself off the count of sleepers.
    fn awake(&mut self)
        ensures same { IsSameSeat (handle_of self.old) (handle_of self.new) }
        ensures view { view_of self.new ≡ view_of self.old }
        ensures made { WasMadeOnSleepers awakes (sight_of self.old) (sight_of self.new) }
    {
        let word = self.sleepers_index();
        self.table
            .shared
            .fetch_sub::<Awakes>(&mut self.token, word, 1);
    }

    /// Sleeps until a wake if the active word has as many users as `seen`, which are one or more. It may also
    /// return for no reason. Meanwhile the seat is counted among the sleepers. A step by which the last user
    /// leaves wakes all sleepers if it leaves the word drained, or unused and hidden.
    pub(crate) fn park<R: Wait>(&mut self, rt: &R, seen: u64)
        ensures same { IsSameSeat (handle_of self.old) (handle_of self.new) }
        ensures view { view_of self.new ≡ view_of self.old }
        ensures slept { WasAsleep (sight_of self.old) (sight_of self.new) }
    {
        self.fall_asleep();
        let word = self.active_index();
        self.table.shared.park(rt, word, (seen & USERS) as u32);
        self.awake();
    }

    /// Like `park`, but it sleeps for a millisecond at most. The seat is not counted among the sleepers,
    /// since the sleep ends by itself.
    fn nap<R: Wait>(&self, rt: &R, seen: u64) {
        let word = self.active_index();
        let users = (seen & USERS) as u32;
        self.table
            .shared
            .park_timeout(rt, word, users, Duration::from_millis(1));
    }

    /// Sleeps while the active word has as many users as `seen`. If the node is doomed, the last user to
    /// leave wakes all sleepers. The mark wakes nobody, and changes none of the bits that a sleep compares
    /// when it begins. So if `seen` is from before the mark, or has no user, the sleep ends by itself within
    /// a millisecond.
    pub(crate) fn rest<R: Wait>(&mut self, rt: &R, seen: u64)
        ensures same { IsSameSeat (handle_of self.old) (handle_of self.new) }
        ensures view { view_of self.new ≡ view_of self.old }
        ensures rested { Rested (last_user_wakes seen) (sight_of self.old) (sight_of self.new) }
    {
        if last_user_wakes(seen) {
            self.park(rt, seen);
        } else {
            self.nap(rt, seen);
        }
    }

    /// Loads the count of its slot's sleepers.
    fn load_sleepers(&mut self) -> u64
        ensures same { IsSameSeat (handle_of self.old) (handle_of self.new) }
        ensures view { view_of self.new ≡ view_of self.old }
        ensures made { LoadedSleepers (sight_of self.old) (sight_of self.new) result }
    {
        let word = self.sleepers_index();
        self.table
            .shared
            .load::<LoadsSleepers>(&mut self.token, word)
    }

    /// Loads the active word as it is now, by a load that the rule does not see.
    pub(crate) fn peek(&self) -> u64 {
        self.table.shared.peek(self.active_index())
    }

    /// Loads the count of sleepers, and wakes all sleepers on the active word if there are any. Since each of
    /// them wakes, none takes a wake that another needs, and no waiter has to pass one on.
    pub(crate) fn wake_all(&mut self)
        ensures same { IsSameSeat (handle_of self.old) (handle_of self.new) }
        ensures view { view_of self.new ≡ view_of self.old }
        ensures made { (found : ℕ) × LoadedSleepers (sight_of self.old) (sight_of self.new) found }
    {
        if self.load_sleepers() != 0 {
            self.table.shared.wake_all(self.active_index());
        }
    }
}
