//! A seat passes to the Master what it has seen, and gets back what the Master has seen. No word changes.
ghost use Rattle.std.specs.Prelude.{◌≡◌, ◌≢◌, []};
ghost use Rattle.kf_core.specs.declared.caller.Phase.TheVariants as phase_of;
ghost use Rattle.kf_words.specs.Callers.{handle_of, having_seen, view_of};

use crate::joins::{Knowing, TakesOver};
use crate::plays::Reports;
use crate::seat::CallerSeat;
use crate::sight::Sight;
use atomic_table::Seat;

impl CallerSeat {
    /// Makes a new seat, which holds nothing and has seen what this seat has seen.
    pub(crate) fn report(&mut self) -> Seat<(), Sight>
        requires { (view_of self.old).phase ≢ phase_of.Spent }
        ensures me { self.new.token.me ≡ self.old.token.me }
        ensures same { handle_of self.new ≡ handle_of self.old }
        ensures table { result.table_id ≡ self.old.token.table_id }
        ensures bare { result.me.1 ≡ [] }
        ensures seen { result.me.0.seen ≡ self.old.token.me.0.seen }
    {
        self.table.shared.split_seat::<Reports>(&mut self.token)
    }

    /// From now on the seat has seen exactly what the other seat has seen. The other seat ends.
    pub(crate) fn take_over<E: Knowing>(&mut self, other: Seat<(), Sight>)
        requires table { other.table_id ≡ self.old.token.table_id }
        requires bare { other.me.1 ≡ [] }
        requires picked { other.me.0 ≡ E.sight }
        ensures view { view_of self.new ≡ view_of self.old }
        ensures same { handle_of self.new ≡ having_seen other.me.0.seen (handle_of self.old) }
    {
        self.table
            .shared
            .join_seat::<TakesOver<E>>(&mut self.token, other);
    }
}
