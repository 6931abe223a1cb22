//! The writer's token. A `&` to it allows nothing, so any number of threads may have one at once. So threads
//! that only read the tree may look at what is stored beside a writer.
ghost use Rattle.std.specs.Prelude.{◌≡◌};

use crate::view::LookView;
use atomic_table::Seat;
use std::marker::Model;

/// The writer's seat at the table, which can be reached only through a `&mut`. In contracts it is that seat.
#[derive(Drop)]
pub struct WriterToken {
    pub(crate) seat: Seat<(), LookView>,
}

impl Model for WriterToken {
    ghost use Rattle.std.specs.Borrow.{ftrue};
    ghost use Rattle.atomic_table.specs.declared.shared.Seat.{Seat};
    ghost use Rattle.kf_looks.specs.declared.view.LookView.{LookView};

    ghost Value = { Seat (Unit {0}) LookView };

    ghost view = { λ token. token.seat };

    ghost inverse = { λ seat. record { seat = seat } };

    ghost also_owns = { λ _. ftrue };
}

// The checker does not take these two lines on trust: it reads the two proofs in `proofs/writer_token`.
unsafe impl Send for WriterToken {}

unsafe impl Sync for WriterToken {}

impl WriterToken {
    /// The token of this seat.
    pub(crate) fn new(seat: Seat<(), LookView>) -> WriterToken
        ensures same { result ≡ seat }
    {
        WriterToken { seat }
    }
}
