//! A guard for passes through the gate of a hot node, so that threads can use an open file of the node by
//! their passes.
ghost use Rattle.std.specs.Prelude.{◌≡◌};
ghost use Rattle.kf_core.specs.declared.caller.Phase.TheVariants as phase_of;
ghost use Rattle.kf_hot.specs.Passes.{IsSameHotCall};

use kf_core::{ActiveCall, Guard, Key, Phase};
use kf_gates::{GateCall, Keeper, Pass};
use kf_words::Call;
use std::marker::Model;

/// A pass through a gate, with the key of the node that the gate keeps a call of, and the number of the
/// gate's opening.
#[derive(Drop)]
pub struct HotPass {
    pass: Pass,
    key: Key,
    number: u64,
}

impl Model for HotPass {
    ghost use Rattle.kf_hot.specs.Passes.{HotPassState};

    ghost Value = { HotPassState };

    ghost view = { λ p. record { pass = p.pass; key = p.key; number = p.number } };
}

impl HotPass {
    /// A pass for the node that the gate keeps a call of. Once the gate has been closed, this pass is
    /// refused, even if the gate is open again for another node.
    ///
    /// Condition: the pass is a pass of this gate.
    pub fn new(keeper: &Keeper<Call>, pass: Pass) -> HotPass
        requires gate { pass.seat.gate ≡ keeper.now.seat.gate }
        ensures pass { result.pass ≡ pass }
        ensures key { result.key ≡ keeper.now.kept.key }
        ensures number { result.number ≡ keeper.now.plan.number }
    {
        HotPass {
            pass,
            key: keeper.kept().key(),
            number: keeper.number(),
        }
    }

    /// The pass without the node and the number, so that it can be used for another node.
    pub fn into_pass(self) -> Pass
        ensures { result ≡ self.pass }
    {
        let HotPass {
            pass,
            key: _,
            number: _,
        } = self;
        pass
    }
}

/// A call by a `HotPass`: it is inside the gate, or broke its protection there. It must be passed to the
/// guard's `leave`.
pub struct HotCall {
    call: GateCall,
    key: Key,
}

impl Model for HotCall {
    ghost use Rattle.kf_hot.specs.Passes.{HotCallState};

    ghost Value = { HotCallState };

    ghost view = { λ c. record { call = c.call; key = c.key } };
}

impl HotCall {
    /// Breaks the call's protection inside its callback: the gate's keeper no longer waits for the call.
    ///
    /// Condition: Running.
    pub fn break_protection(&mut self)
        requires running { self.old.call.phase ≡ phase_of.Running }
        ensures same { IsSameHotCall self.old self.new }
        ensures broken { self.new.call.phase ≡ phase_of.Broken }
    {
        self.call.break_protection();
    }

    /// Counts the call in its lane again, whatever has become of the node. The call does not get inside
    /// again.
    ///
    /// Condition: Broken.
    pub fn restore(&mut self)
        requires broken { self.old.call.phase ≡ phase_of.Broken }
        ensures same { IsSameHotCall self.old self.new }
        ensures restored { self.new.call.phase ≡ phase_of.Restored }
    {
        self.call.restore();
    }
}

impl ActiveCall for HotCall {
    ghost use Rattle.kf_gates.specs.States.{GateSeat};

    ghost CallerId = { GateSeat };

    ghost view_of = { λ c. record { caller = c.call.seat; key = c.key; phase = c.call.phase } };

    fn key(&self) -> Key {
        self.key
    }

    fn phase(&self) -> Phase {
        self.call.phase()
    }
}

/// The guard for passes of hot nodes. It has no state, since each pass has its gate.
#[derive(Drop)]
pub struct HotPasses;

impl Guard for HotPasses {
    ghost use Rattle.std.specs.Prelude.{◌≡◌, true};
    ghost use Rattle.kf_core.specs.Phases.{has_reference};
    ghost use Rattle.kf_hot.specs.Passes.{lets_in, turns_away, goes_out};

    type Hold = HotPass;

    type Call = HotCall;

    ghost may_enter = { λ _ _. Unit {0} };

    ghost enters = { lets_in };

    ghost refuses = { turns_away };

    ghost may_leave = { λ _ call. has_reference call.call.phase ≡ true };

    ghost leaves = { goes_out };

    fn enter(&mut self, hold: HotPass) -> Result<HotCall, HotPass> {
        let HotPass { pass, key, number } = hold;
        match pass.enter(number) {
            Ok(call) => Ok(HotCall { call, key }),
            Err(pass) => Err(HotPass { pass, key, number }),
        }
    }

    fn leave(&mut self, call: HotCall) -> HotPass {
        let HotCall { call, key } = call;
        let number = call.number();
        HotPass {
            pass: call.leave(),
            key,
            number,
        }
    }
}
