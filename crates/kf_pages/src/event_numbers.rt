//! The source of the event numbers of a file's slot.

ghost use Rattle.std.specs.Prelude.{◌≡◌, ℕ};
ghost use Rattle.kf_core.specs.declared.caller.Phase.TheVariants.{Running};

use kf_core::ActiveCall;

/// The source of the event numbers of a file's slot. A number is taken under a call of the slot's node.
pub trait EventNumbers<C: ActiveCall> {
    /// The source gave this number.
    ghost gives: { Self → ℕ → Self → Type 0 };

    /// Returns the slot's event number as it is now.
    ///
    /// Condition: the call is Running. So a file takes a number after its try for a reference, and before the
    /// callback, which may break and restore the call.
    fn now(&mut self, call: &C) -> u64
        requires running { (C.view_of call.now).phase ≡ Running }
        ensures given { gives self.old result self.new };
}
