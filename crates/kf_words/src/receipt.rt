//! Receipts: one says that a caller saw its node drained, the other that it also saw the node gone from the
//! tree.
ghost use Rattle.std.specs.Prelude.{◌≡◌, IfOk, IfErr, MatchResult};
ghost use Rattle.kf_core.specs.declared.caller.Phase.TheVariants as phase_of;
ghost use Rattle.kf_words.specs.Callers.{IsSameSeat, SawParted, SawLinked, seat_view};
ghost use Rattle.kf_words.specs.Made.{FoundInHold, WasAPart};

use crate::layout::has_linked;
use crate::seat::{CallerSeat, release_seat};
use kf_core::Key;
use std::marker::Model;

/// A receipt: its caller saw that the node is doomed and that nobody had a reference to it. As long as the
/// receipt exists, no call of the node is Running. A callback that still runs there gave up its protection
/// before the drain was seen, even if it has a reference again. The receipt must be passed to `parted` or
/// `release`.
pub struct Drained {
    pub(crate) seat: CallerSeat,
}

impl Model for Drained {
    ghost use Rattle.kf_core.specs.declared.caller.Phase.TheVariants as phase_of;
    ghost use Rattle.kf_words.specs.Callers.{Handle, handle_of, view_of, IsInPhase};

    ghost Value = { Handle };

    ghost view = { λ d. handle_of d.seat };

    ghost invariant = { λ d. IsInPhase phase_of.Drained (view_of d.seat) };
}

/// A receipt like `Drained`, whose caller also saw that the node has left the tree. It must be passed to
/// `release`.
pub struct Parted {
    pub(crate) seat: CallerSeat,
}

impl Model for Parted {
    ghost use Rattle.kf_core.specs.declared.caller.Phase.TheVariants as phase_of;
    ghost use Rattle.kf_words.specs.Callers.{Handle, handle_of, view_of, IsInPhase};

    ghost Value = { Handle };

    ghost view = { λ p. handle_of p.seat };

    ghost invariant = { λ p. IsInPhase phase_of.Parted (view_of p.seat) };
}

impl Drained {
    /// The key whose slot it holds.
    pub fn key(&self) -> Key
        ensures value { result ≡ self.now.key }
        ensures phase { self.now.phase ≡ phase_of.Drained }
    {
        self.seat.key()
    }

    /// Checks, in one word step, whether the node has left the tree. If so, it returns a `Parted`, and
    /// otherwise the `Drained`.
    pub fn parted(self) -> Result<Parted, Drained>
        ensures same { MatchResult result (λ gone. IsSameSeat self gone) (λ back. IsSameSeat self back) }
        ensures gone { IfOk result (λ gone. SawParted self gone) }
        ensures linked { IfErr result (λ back. SawLinked self back) }
        ensures found { MatchResult result (λ gone. FoundInHold self gone)
            (λ back. FoundInHold self back) }
        ensures made { MatchResult result (λ gone. WasAPart (seat_view self) (seat_view gone))
            (λ back. WasAPart (seat_view self) (seat_view back)) }
    {
        let Drained { mut seat } = self;
        if has_linked(seat.load_hold()) {
            Err(Drained { seat })
        } else {
            Ok(Parted { seat })
        }
    }

    /// Releases the hold of the slot (`kernfs_put`), in one word step. The receipt is gone afterwards, so no
    /// clause can speak of it.
    pub fn release(self) {
        let Drained { mut seat } = self;
        release_seat(&mut seat);
        seat.end();
    }
}

impl Parted {
    /// The key whose slot it holds.
    pub fn key(&self) -> Key
        ensures value { result ≡ self.now.key }
        ensures phase { self.now.phase ≡ phase_of.Parted }
    {
        self.seat.key()
    }

    /// Releases the hold of the slot (`kernfs_put`), in one word step. The receipt is gone afterwards, so no
    /// clause can speak of it.
    pub fn release(self) {
        let Parted { mut seat } = self;
        release_seat(&mut seat);
        seat.end();
    }
}
