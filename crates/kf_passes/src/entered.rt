//! Calls that still have their reference: of a node, and through a gate.
ghost use Rattle.std.specs.Prelude.{◌≡◌};
ghost use Rattle.kf_core.specs.declared.caller.Phase.TheVariants as phase_of;

use kf_gates::GateCall;
use kf_words::Call;

/// A call of a node that still has the reference with which it entered.
pub struct Entered {
    pub(crate) call: Call,
    ghost running: { call.phase ≡ phase_of.Running },
}

/// A call through a gate that has not broken its protection.
pub struct Through {
    call: GateCall,
    ghost running: { call.phase ≡ phase_of.Running },
}

impl Through {
    /// Wraps a call that is Running.
    pub fn new(call: GateCall) -> Through
        requires running { call.phase ≡ phase_of.Running }
        ensures { result.call ≡ call }
    {
        Through { call }
    }

    /// Returns the call, which the caller must leave.
    pub fn into_call(self) -> GateCall
        ensures call { result ≡ self.call }
        ensures running { result.phase ≡ phase_of.Running }
    {
        let Through { call } = self;
        call
    }
}

/// Leaves the gate, and wakes nobody. No wake is missed, since a handle with a call behind it is not dropped.
impl Drop for Through {
    fn drop(self) {
        self.into_call().leave_quiet();
    }
}
