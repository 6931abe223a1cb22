//! Holds and calls of one shared tree, as a guard. Their type says to which table of words they belong.

ghost use Rattle.std.specs.Prelude.{◌≡◌, true};

use kf_core::{ActiveCall, Guard, Key, Phase};
use kf_shared::Naming;
use kf_words::{Call, Hold};
use std::marker::{Model, PhantomData};

/// A hold of the tree with this name.
pub(crate) struct TreeHold<N: Naming> {
    hold: Hold,
    name: PhantomData<N>,
}

impl<N: Naming> Model for TreeHold<N> {
    ghost use Rattle.std.specs.Prelude.{◌≡◌};
    ghost use Rattle.kf_words.specs.Callers.{Handle};

    ghost Value = { Handle };

    ghost view = { λ h. h.hold };

    ghost invariant = { λ h. h.hold.table ≡ N.table };
}

impl<N: Naming> TreeHold<N> {
    /// Wraps a hold of this tree's table.
    pub(crate) fn new(hold: Hold) -> TreeHold<N>
        requires table { hold.table ≡ N.table }
        ensures same { result ≡ hold }
    {
        TreeHold {
            hold,
            name: PhantomData,
        }
    }

    /// The same hold, which is of this tree's table.
    pub(crate) fn into_hold(self) -> Hold
        ensures same { result ≡ self }
        ensures table { result.table ≡ N.table }
    {
        let TreeHold { hold, name: _ } = self;
        hold
    }
}

/// A call of the tree with this name.
pub(crate) struct TreeCall<N: Naming> {
    pub(crate) call: Call,
    name: PhantomData<N>,
}

impl<N: Naming> Model for TreeCall<N> {
    ghost use Rattle.std.specs.Prelude.{◌≡◌};
    ghost use Rattle.kf_words.specs.Callers.{Handle};

    ghost Value = { Handle };

    ghost view = { λ c. c.call };

    ghost invariant = { λ c. c.call.table ≡ N.table };
}

impl<N: Naming> ActiveCall for TreeCall<N> {
    ghost use Rattle.kf_words.specs.Callers.{SeatId};
    ghost use Rattle.kf_files.specs.Waiting.{call_view};

    ghost CallerId = { SeatId };

    ghost view_of = { λ call. call_view call };

    fn key(&self) -> Key {
        self.call.key()
    }

    fn phase(&self) -> Phase {
        self.call.phase()
    }
}

/// The guard for the holds and calls of the tree with this name. It keeps nothing, since each hold and each
/// call has its own seat.
#[derive(Drop)]
pub(crate) struct TreeSeats<N: Naming> {
    name: PhantomData<N>,
}

impl<N: Naming> TreeSeats<N> {
    pub(crate) fn new() -> TreeSeats<N> {
        TreeSeats { name: PhantomData }
    }
}

impl<N: Naming> Guard for TreeSeats<N> {
    ghost use Rattle.std.specs.Prelude.{◌≡◌, true};
    ghost use Rattle.kf_core.specs.Phases.{has_reference};
    ghost use Rattle.kf_files.specs.Waiting.{lets_in, turns_away, lets_go};

    type Hold = TreeHold<N>;

    type Call = TreeCall<N>;

    ghost may_enter = { λ _ _. Unit {0} };

    ghost enters = { lets_in };

    ghost refuses = { turns_away };

    ghost may_leave = { λ _ call. has_reference call.phase ≡ true };

    ghost leaves = { lets_go };

    fn enter(&mut self, hold: TreeHold<N>) -> Result<TreeCall<N>, TreeHold<N>> {
        let TreeHold { hold, name: _ } = hold;
        match hold.enter() {
            Ok(call) => Ok(TreeCall {
                call,
                name: PhantomData,
            }),
            Err(hold) => Err(TreeHold {
                hold,
                name: PhantomData,
            }),
        }
    }

    fn leave(&mut self, call: TreeCall<N>) -> TreeHold<N> {
        let TreeCall { call, name: _ } = call;
        TreeHold {
            hold: call.leave(),
            name: PhantomData,
        }
    }
}
