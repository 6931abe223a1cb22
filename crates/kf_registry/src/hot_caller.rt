//! Calls of a hot value by one thread. Each call goes through the value's gate, with a pass.
ghost use Rattle.std.specs.Prelude.{◌≡◌, IfErr, IfOk, Some, true};
ghost use Rattle.std.specs.Fn.{FnOnceReturnsAt, FnOnceTakesAt};
ghost use Rattle.kf_core.specs.declared.caller.Phase.TheVariants as phase_of;
ghost use Rattle.kf_gates.specs.States.{PassState, WasRefused};

use crate::lanes::Lanes;
use crate::published::Published;
use arrayvec::ArrayVec;
use kf_gates::{GateCall, Pass};
use std::marker::Model;
use std::mem::replace;
use std::sync::{Arc, Wait};

/// A thread's caller of a hot value, with a pass through the value's gate. Threads in different lanes write
/// to no word that they share.
#[derive(Drop)]
pub struct HotCaller<T: Published> {
    lanes: Arc<Lanes<T>>,
    lane: u64,
    pass: Option<Pass>,
    path: ArrayVec<u8, 256>,
    number: u64,
}

impl<T: Published> Model for HotCaller<T> {
    ghost use Rattle.std.specs.Prelude.{◌≡◌, Some};
    ghost use Rattle.kf_gates.specs.States.{PassState};
    ghost use Rattle.kf_registry.specs.Hot.{HotCallerState};

    ghost Value = { HotCallerState };

    ghost view = { λ c. record { path = c.path.items; number = c.number; pass = c.pass } };

    ghost invariant = { λ c. (pass : PassState) × (c.pass ≡ Some pass) };
}

/// Lends the value in a lane's place to `f`, inside the gate. It waits until the value is there. The value
/// stays there as long as somebody is inside.
///
/// Conditions: the call is Running, and `f` may be called with every value that suits the path.
fn lend_inside<T: Published, A, R: Wait, F: FnOnce(&T) -> A>(
    rt: &R,
    call: &GateCall,
    lanes: &Lanes<T>,
    lane: u64,
    path: &[u8],
    f: F,
) -> A
    requires running { call.now.phase ≡ phase_of.Running }
    requires callable { (value : T) → T.suits path.now value ≡ true → FnOnceTakesAt F.FnOnce f value }
    ensures ran { (value : T) × (T.suits path.now value ≡ true) × FnOnceReturnsAt F.FnOnce f value result }
{
    let _ = call;
    let mut next = f;
    for _ in rt.forever() {
        match lanes.lend(rt, lane, path, next) {
            Ok(answer) => return answer,
            Err(back) => next = back,
        }
    }
    unreachable!()
}

impl<T: Published> HotCaller<T> {
    /// A caller through this lane, with this pass. The gate was opened under this number.
    pub(crate) fn new(
        lanes: Arc<Lanes<T>>,
        lane: u64,
        pass: Pass,
        path: ArrayVec<u8, 256>,
        number: u64,
    ) -> HotCaller<T>
        ensures path { result.path ≡ path.items }
    {
        HotCaller {
            lanes,
            lane,
            pass: Some(pass),
            path,
            number,
        }
    }

    /// Lends the value to `f` inside the value's gate: nobody gets the value back before `f` has returned. It
    /// does not take the tree's lock, and it writes to no word that callers in other lanes write to. If it
    /// finds that the gate is no longer open, `f` is returned: the value is being taken, or was taken.
    ///
    /// Condition: `f` may be called with every value that suits the path.
    ///
    /// Context: does not sleep, except in `f` and behind a swap that is under way in its lane. So `f` must
    /// not call the same value through this lane again: a swap that waits for `f` would keep that call
    /// waiting.
    pub fn call<A, R: Wait, F: FnOnce(&T) -> A>(&mut self, rt: &R, f: F) -> Result<A, F>
        requires callable { (value : T) → T.suits self.old.path value ≡ true →
            FnOnceTakesAt F.FnOnce f value }
        ensures ran { IfOk result (λ answer.
            (value : T) × (T.suits self.old.path value ≡ true) × FnOnceReturnsAt F.FnOnce f value answer) }
        ensures back { IfErr result (λ back. back ≡ f) }
        ensures refused { IfErr result (λ _.
            (pass : PassState) × (self.new.pass ≡ Some pass) × WasRefused self.old.number pass) }
        ensures path { self.new.path ≡ self.old.path }
        ensures number { self.new.number ≡ self.old.number }
    {
        let Some(pass) = replace(&mut self.pass, None) else {
            unreachable!()
        };
        match pass.enter(self.number) {
            Ok(call) => {
                let path = self.path.as_slice();
                let answer = lend_inside(rt, &call, &self.lanes, self.lane, path, f);
                self.pass = Some(call.leave());
                Ok(answer)
            }
            Err(pass) => {
                self.pass = Some(pass);
                Err(f)
            }
        }
    }
}
