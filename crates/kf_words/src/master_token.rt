//! The Master's token. A thread that has only a `&` to the token can do nothing with it. Therefore several
//! threads may have a `&` to it at once, and look at what lies beside a Master. Readers of the tree do so.
ghost use Rattle.std.specs.Prelude.{◌≡◌};

use crate::sight::Sight;
use atomic_table::Seat;
use std::marker::Model;

/// The Master's seat at the table, which can be reached only through a `&mut`. In contracts it is that seat.
#[derive(Drop)]
pub(crate) struct MasterToken {
    pub(crate) seat: Seat<(), Sight>,
}

impl Model for MasterToken {
    ghost use Rattle.std.specs.Borrow.{ftrue};
    ghost use Rattle.atomic_table.specs.declared.shared.Seat.{Seat};
    ghost use Rattle.kf_words.specs.declared.sight.Sight.{Sight};

    ghost Value = { Seat (Unit {0}) Sight };

    ghost view = { λ token. token.seat };

    ghost inverse = { λ seat. record { seat = seat } };

    ghost also_owns = { λ _. ftrue };
}

// The checker believes neither of these lines: it reads the two proofs in `proofs/master_token`.
unsafe impl Send for MasterToken {}

unsafe impl Sync for MasterToken {}

impl MasterToken {
    /// The token of this seat.
    pub(crate) fn new(seat: Seat<(), Sight>) -> MasterToken
        ensures same { result ≡ seat }
    {
        MasterToken { seat }
    }
}
