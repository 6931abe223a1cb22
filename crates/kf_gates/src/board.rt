//! The words of a gate, and the steps of its seats, one by one.
//!
//! A leave makes no system call if nobody sleeps, and no wake is lost. A keeper that waits for a lane (1)
//! counts itself in word 1. Then (2) the kernel, in one step, compares the lane with what the keeper saw
//! there, which was not 0, and queues the keeper if they are equal. A caller that leaves (3) subtracts one
//! from the lane. If the lane is 0 now, the caller (4) loads word 1. If that is not 0, the caller (5) wakes
//! all threads that sleep on the lane.
//!
//! If the lane reaches 0 after (2), the (4) of that leave comes after (1), and its (5) finds the sleeper
//! queued. If the lane reached 0 before (2), it differs from what the keeper saw, unless another caller has
//! counted itself there since. That caller leaves later.
ghost use Rattle.std.specs.Prelude.{◌≡◌, ℕ, ◌+◌, ◌*◌, ◌<◌, ◌≤◌, true, false, IfOk};
ghost use Rattle.kf_gates.specs.declared.view.GatePlan.{GatePlan};
ghost use Rattle.kf_gates.specs.declared.view.GateView.{GateView};
ghost use Rattle.kf_gates.specs.declared.view.GateView.TheVariants as seat_of;
ghost use Rattle.kf_gates.specs.Rule.{IsPass, due_from, looks_of, opened};
ghost use Rattle.kf_gates.specs.Runs.{CountsIn, MayUncount};
ghost use Rattle.kf_gates.specs.Steps.{after_count, looked, next_plan, pass_made, scanned_plan, shut_plan, stepped_off, uncounted};
ghost use Rattle.kf_gates.specs.Laws.{IsOver};
ghost use Rattle.kf_gates.specs.Board.{HasPlan, IsSameSeat};

use crate::plays::{
    Breaks, Counts, CountsSleep, Knocks, Leaves, Looks, LooksBack, Opens, Passes, Restores, Scans,
    Shuts, Uncounts,
};
use crate::table::GateTable;
use crate::view::{GatePlan, GateView};
use atomic_table::Seat;
use std::alloc::{AllocError, Global};
use std::sync::Wait;

/// The greatest number of lanes that a gate may have.
pub const MOST_LANES: u64 = 65535;

/// A gate has fewer than this many passes in its life, including dropped ones. The limit counts the keeper's
/// seat too.
pub const MOST_PASSES: u64 = 4294967296;

/// A seat at a gate's words.
pub(crate) type GateSeat = Seat<(), GateView>;

/// The words of a gate with this number of lanes.
#[derive(Drop)]
pub(crate) struct Board {
    pub(crate) table: GateTable,
    pub(crate) lanes: u64,
    ghost range: { (0 < lanes) × (lanes ≤ 65535) },
    ghost wide: { table.shared.table_id.words ≡ 8 * lanes + 8 },
    ghost keyed: { table.shared.key ≡ lanes },
}

impl Board {
    /// Makes the words of a gate that was never opened, and its keeper's seat. Returns both, with what that
    /// seat knows.
    pub(crate) fn new(alloc: Global, lanes: u64) -> Result<(Board, GateSeat, GatePlan), AllocError>
        requires range { (0 < lanes) × (lanes ≤ 65535) }
        ensures table { IfOk result (λ r. r.1.table_id ≡ r.0.table.shared.table_id) }
        ensures lanes { IfOk result (λ r. r.0.lanes ≡ lanes) }
        ensures keeps { IfOk result (λ r. (r.1.me.0 ≡ opened lanes) × (seat_of.Keeps r.2 0 ≡ opened lanes)) }
    {
        let mut words = vec![in alloc; 0u64; lanes as usize * 8 + 8]?;
        words[0] = 1;
        words[2] = 2;
        let (table, seat) = GateTable::of_words(alloc, words.as_slice(), &lanes)?;
        let plan = GatePlan {
            number: 0,
            shut: true,
            seen: lanes,
            found: 0,
            spare: true,
        };
        Ok((Board { table, lanes }, seat, plan))
    }

    pub(crate) fn make_pass(&self, seat: &mut GateSeat) -> GateSeat
        requires table { seat.old.table_id ≡ self.now.table.shared.table_id }
        requires due { due_from seat.old.me.0 ≡ 1 }
        ensures same { IsSameSeat seat.old seat.new }
        ensures made { seat.new.me.0 ≡ pass_made seat.old.me.0 }
        ensures table { result.table_id ≡ self.now.table.shared.table_id }
        ensures outside { result.me.0 ≡ seat_of.Outside }
    {
        self.table.shared.split_seat::<Passes>(seat)
    }

    /// Counts one more pass in word 2, and returns what that word was before. The word counts the keeper and
    /// all passes.
    pub(crate) fn count(&self, seat: &mut GateSeat) -> u64
        requires table { seat.old.table_id ≡ self.now.table.shared.table_id }
        requires outside { IsPass seat.old.me.0 }
        ensures same { IsSameSeat seat.old seat.new }
        ensures made { seat.new.me.0 ≡ after_count result }
    {
        self.table.shared.fetch_add::<Counts>(seat, 2, 1)
    }

    pub(crate) fn uncount(&self, seat: &mut GateSeat)
        requires table { seat.old.table_id ≡ self.now.table.shared.table_id }
        requires counted { MayUncount seat.old.me.0 }
        ensures same { IsSameSeat seat.old seat.new }
        ensures made { seat.new.me.0 ≡ uncounted seat.old.me.0 }
    {
        self.table.shared.fetch_sub::<Uncounts>(seat, 2, 1);
    }

    /// Counts the caller in its lane, and then loads the gate's word and returns it.
    pub(crate) fn knock(&self, seat: &mut GateSeat, lane: u32) -> u64
        requires table { seat.old.table_id ≡ self.now.table.shared.table_id }
        requires lane { lane < self.now.lanes }
        requires outside { IsPass seat.old.me.0 }
        ensures same { IsSameSeat seat.old seat.new }
        ensures made { seat.new.me.0 ≡ looked result lane }
    {
        let word = 8 * lane as usize + 8;
        self.table.shared.fetch_add::<Knocks>(seat, word, 1);
        self.table.shared.load::<Looks>(seat, 0)
    }

    /// Takes the caller off the count of its lane, and returns what that count was before. It wakes nobody.
    pub(crate) fn step_back(&self, seat: &mut GateSeat, lane: u32) -> u64
        requires table { seat.old.table_id ≡ self.now.table.shared.table_id }
        requires lane { lane < self.now.lanes }
        requires counts { CountsIn lane seat.old.me.0 }
        ensures same { IsSameSeat seat.old seat.new }
        ensures made { seat.new.me.0 ≡ stepped_off seat.old.me.0 }
    {
        let word = 8 * lane as usize + 8;
        self.table.shared.fetch_sub::<Leaves>(seat, word, 1)
    }

    /// Takes the caller off the count of its lane. If it was the last one there, the threads that sleep on
    /// the lane are woken.
    pub(crate) fn step_off(&self, seat: &mut GateSeat, lane: u32)
        requires table { seat.old.table_id ≡ self.now.table.shared.table_id }
        requires lane { lane < self.now.lanes }
        requires counts { CountsIn lane seat.old.me.0 }
        ensures same { IsSameSeat seat.old seat.new }
        ensures made { seat.new.me.0 ≡ stepped_off seat.old.me.0 }
    {
        let found = self.step_back(seat, lane);
        self.wake(8 * lane as usize + 8, found);
    }

    /// Takes the caller off the count of its lane, and then loads the gate's word and returns it. It wakes
    /// nobody.
    pub(crate) fn step_away(&self, seat: &mut GateSeat, lane: u32) -> u64
        requires table { seat.old.table_id ≡ self.now.table.shared.table_id }
        requires lane { lane < self.now.lanes }
        requires counts { CountsIn lane seat.old.me.0 }
        ensures same { IsSameSeat seat.old seat.new }
        ensures made { seat.new.me.0 ≡ seat_of.Left result }
    {
        self.step_back(seat, lane);
        self.table.shared.load::<LooksBack>(seat, 0)
    }

    /// Like `step_off`, for a caller that is inside and will count itself again.
    pub(crate) fn break_off(&self, seat: &mut GateSeat, lane: u32)
        requires table { seat.old.table_id ≡ self.now.table.shared.table_id }
        requires lane { lane < self.now.lanes }
        requires inside { (n : ℕ) × (seat.old.me.0 ≡ seat_of.Inside lane n) }
        ensures same { IsSameSeat seat.old seat.new }
        ensures made { (n : ℕ) → seat.old.me.0 ≡ seat_of.Inside lane n →
            seat.new.me.0 ≡ seat_of.Broken lane n }
    {
        let word = 8 * lane as usize + 8;
        let found = self.table.shared.fetch_sub::<Breaks>(seat, word, 1);
        self.wake(word, found);
    }

    pub(crate) fn restore(&self, seat: &mut GateSeat, lane: u32)
        requires table { seat.old.table_id ≡ self.now.table.shared.table_id }
        requires lane { lane < self.now.lanes }
        requires broken { (n : ℕ) × (seat.old.me.0 ≡ seat_of.Broken lane n) }
        ensures same { IsSameSeat seat.old seat.new }
        ensures made { (n : ℕ) → seat.old.me.0 ≡ seat_of.Broken lane n →
            seat.new.me.0 ≡ seat_of.Restored lane n }
    {
        let word = 8 * lane as usize + 8;
        self.table.shared.fetch_add::<Restores>(seat, word, 1);
    }

    /// Wakes the threads that sleep on the lane in this word, if the count found there was 1: the last caller
    /// has left.
    fn wake(&self, word: usize, found: u64)
        requires word { word < self.now.table.shared.table_id.words }
    {
        if found == 1 && self.table.shared.peek(1) != 0 {
            self.table.shared.wake_all(word);
        }
    }

    /// Shuts the gate.
    pub(crate) fn shut(&self, seat: &mut GateSeat, plan: GatePlan) -> GatePlan
        requires table { seat.old.table_id ≡ self.now.table.shared.table_id }
        requires keeps { HasPlan plan seat.old.me.0 }
        requires open { plan.shut ≡ false }
        requires few { plan.number ≤ 4294967296 }
        ensures same { IsSameSeat seat.old seat.new }
        ensures keeps { HasPlan result seat.new.me.0 }
        ensures made { result ≡ shut_plan plan }
        ensures looks { looks_of seat.new.me.0 ≡ looks_of seat.old.me.0 }
    {
        self.table
            .shared
            .store::<Shuts>(seat, 0, plan.number * 2 + 1);
        GatePlan {
            shut: true,
            seen: 0,
            found: 0,
            ..plan
        }
    }

    /// Looks at the first lane that was not seen empty yet.
    pub(crate) fn scan(&self, seat: &mut GateSeat, plan: GatePlan) -> GatePlan
        requires table { seat.old.table_id ≡ self.now.table.shared.table_id }
        requires keeps { HasPlan plan seat.old.me.0 }
        requires shut { plan.shut ≡ true }
        requires lane { plan.seen < self.now.lanes }
        ensures same { IsSameSeat seat.old seat.new }
        ensures keeps { HasPlan result seat.new.me.0 }
        ensures made { result ≡ scanned_plan result.found plan }
        ensures looks { looks_of seat.new.me.0 ≡ looks_of seat.old.me.0 + 1 }
    {
        let word = 8 * plan.seen as usize + 8;
        let found = self.table.shared.load::<Scans>(seat, word);
        let seen = if found == 0 { plan.seen + 1 } else { plan.seen };
        GatePlan {
            seen,
            found,
            ..plan
        }
    }

    /// Opens the gate under the next number.
    pub(crate) fn open(&self, seat: &mut GateSeat, plan: GatePlan) -> GatePlan
        requires table { seat.old.table_id ≡ self.now.table.shared.table_id }
        requires keeps { HasPlan plan seat.old.me.0 }
        requires over { IsOver self.now.lanes plan }
        requires few { plan.number < 4294967296 }
        ensures same { IsSameSeat seat.old seat.new }
        ensures keeps { HasPlan result seat.new.me.0 }
        ensures made { result ≡ next_plan plan }
        ensures looks { looks_of seat.new.me.0 ≡ looks_of seat.old.me.0 }
    {
        self.table
            .shared
            .store::<Opens>(seat, 0, plan.number * 2 + 2);
        GatePlan {
            number: plan.number + 1,
            shut: false,
            seen: 0,
            found: 0,
            ..plan
        }
    }

    fn fall_asleep(&self, seat: &mut GateSeat)
        requires table { seat.old.table_id ≡ self.now.table.shared.table_id }
        requires keeps { (p : GatePlan) × HasPlan p seat.old.me.0 }
        ensures same { IsSameSeat seat.old seat.new × (seat.new.me.0 ≡ seat.old.me.0) }
    {
        self.table.shared.fetch_add::<CountsSleep>(seat, 1, 1);
    }

    fn awake(&self, seat: &mut GateSeat)
        requires table { seat.old.table_id ≡ self.now.table.shared.table_id }
        requires keeps { (p : GatePlan) × HasPlan p seat.old.me.0 }
        ensures same { IsSameSeat seat.old seat.new × (seat.new.me.0 ≡ seat.old.me.0) }
    {
        self.table.shared.fetch_sub::<CountsSleep>(seat, 1, 1);
    }

    /// Sleeps until a wake, if the next lane still is as it was found, which was not 0. It may also return
    /// for no reason.
    pub(crate) fn rest<R: Wait>(&self, rt: &R, seat: &mut GateSeat, plan: GatePlan)
        requires table { seat.old.table_id ≡ self.now.table.shared.table_id }
        requires keeps { HasPlan plan seat.old.me.0 }
        requires lane { plan.seen < self.now.lanes }
        ensures same { IsSameSeat seat.old seat.new × (seat.new.me.0 ≡ seat.old.me.0) }
    {
        self.fall_asleep(seat);
        let word = 8 * plan.seen as usize + 8;
        self.table
            .shared
            .park(rt, word, (plan.found % 4294967296) as u32);
        self.awake(seat);
    }
}
