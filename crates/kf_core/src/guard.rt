//! Guards, which give active references, and the calls that run under them.

ghost use Rattle.std.specs.Prelude.{◌≡◌, IfOk, IfErr, MatchResult};
ghost use Rattle.kf_core.specs.declared.caller.Phase.TheVariants.{Running};
ghost use Rattle.kf_core.specs.Calls.{CallView, GivenBack};

use crate::caller::Phase;
use crate::key::Key;

/// A hold with an active reference, or one that released it inside its callback.
pub trait ActiveCall {
    /// What identifies a caller: its number in a list, or a table and a seat in that table.
    ghost CallerId: { Type 0 };

    /// The caller, the key and the phase of a call.
    ghost view_of: { Self → CallView CallerId };

    /// The node that the reference is for.
    fn key(&self) -> Key
        ensures key { result ≡ (view_of self.now).key };

    /// The phase of the call: `Running`, `Broken` or `Restored`.
    fn phase(&self) -> Phase
        ensures phase { result ≡ (view_of self.now).phase };
}

/// Gives active references and takes them back (`kernfs_get_active` and `kernfs_put_active`). Each guard has
/// its own types of holds and calls. Its ghost members say what a try changes, and what the end of a call
/// changes.
pub trait Guard {
    /// A hold: it keeps the slot of its node, and has no reference.
    type Hold;

    /// A hold with an active reference.
    type Call: ActiveCall;

    /// This hold may try for a reference in this state of the guard.
    ghost may_enter: { Self → Self.Hold → Type 0 };

    /// A try with this hold returned this call.
    ghost enters: { Self → Self.Hold → Self.Call → Self → Type 0 };

    /// A try with the first hold found that the node is not live, and returned the second hold.
    ghost refuses: { Self → Self.Hold → Self.Hold → Self → Type 0 };

    /// This call may end in this state of the guard.
    ghost may_leave: { Self → Self.Call → Type 0 };

    /// The call ended, and returned this hold.
    ghost leaves: { Self → Self.Call → Self.Hold → Self → Type 0 };

    /// Tries for an active reference. If the node is not live, it returns the hold as the error.
    ///
    /// Condition: the hold may try in this state of the guard, as `may_enter` says. When the guard returns a
    /// hold, that hold may try.
    fn enter(&mut self, hold: Self::Hold) -> Result<Self::Call, Self::Hold>
        requires may_enter { may_enter self.old hold }
        ensures tried { MatchResult result (λ call. enters self.old hold call self.new)
            (λ back. refuses self.old hold back self.new) }
        ensures running { IfOk result (λ call. (Self.Call.view_of call).phase ≡ Running) }

        // The call may end, whatever a callback did with it.
        ensures may_leave { IfOk result
            (λ call. (ended : Self.Call) → GivenBack (Self.Call.view_of call) (Self.Call.view_of ended) →
            may_leave self.new ended) }
        ensures may_enter { IfErr result (λ back. may_enter self.new back) };

    /// Ends the call, and releases its reference.
    ///
    /// Condition: the call may end, as `may_leave` says. A call that `enter` returned may end, whatever a
    /// callback did with it, if it has a reference.
    fn leave(&mut self, call: Self::Call) -> Self::Hold
        requires may_leave { may_leave self.old call }
        ensures left { leaves self.old call result self.new }
        ensures may_enter { may_enter self.new result };
}
