//! Passes that are used through their guard, in one thread.
ghost use Rattle.std.specs.Prelude.{◌≡◌};
ghost use Rattle.kf_core.specs.declared.caller.Phase.TheVariants as phase_of;

use crate::gates::gate;
use crate::nodes::{create, opened};
use kf_core::{ActiveCall, Guard, Phase};
use kf_hot::{HotCall, HotPass, HotPasses, close_gate};
use kf_shared::{Naming, NewTree};
use std::alloc::Global;
use std::process::Abort;
use std::sync::Wait;

/// Goes in by this pass, which must get in.
pub(crate) fn inside<R: Abort>(rt: &R, passes: &mut HotPasses, pass: HotPass) -> HotCall
    ensures seat { result.call.seat ≡ pass.pass.seat }
    ensures running { result.call.phase ≡ phase_of.Running }
{
    match passes.enter(pass) {
        Ok(call) => call,
        Err(_) => panic!(rt; "an open gate refused a pass"),
    }
}

/// Tries this pass, which must be refused, and returns it.
pub(crate) fn refused<R: Abort>(rt: &R, passes: &mut HotPasses, pass: HotPass) -> HotPass
    ensures seat { result.pass.seat ≡ pass.pass.seat }
{
    match passes.enter(pass) {
        Ok(call) => {
            passes.leave(call);
            panic!(rt; "a pass was let in")
        }
        Err(pass) => pass,
    }
}

/// Breaks the call's protection and restores it, and checks the phase before and after each step.
fn broken_and_restored<R: Abort>(rt: &R, call: &mut HotCall)
    requires running { call.old.call.phase ≡ phase_of.Running }
    ensures seat { call.new.call.seat ≡ call.old.call.seat }
    ensures restored { call.new.call.phase ≡ phase_of.Restored }
{
    assert!(rt; call.phase() == Phase::Running);
    call.break_protection();
    assert!(rt; call.phase() == Phase::Broken);
    call.restore();
    assert!(rt; call.phase() == Phase::Restored);
}

/// A pass goes in and out, and is refused once its gate was closed, even when the gate is open for another
/// node. Then it is turned into a pass for that node.
pub(crate) fn guarded<N: Naming, R: Abort + Wait>(rt: &R, alloc: Global, new: NewTree)
    requires { new.master.table ≡ N.table }
{
    let tree = new.named::<N>();
    let (first, second) = (create(rt, &tree, b"first"), create(rt, &tree, b"second"));
    let mut passes = HotPasses;
    let (closed, pass) = gate(rt, alloc, 2);
    let keeper = opened(rt, &tree, first, closed);
    let mut call = inside(rt, &mut passes, HotPass::new(&keeper, pass));
    assert!(rt; call.key() == first);
    broken_and_restored(rt, &mut call);
    let pass = passes.leave(call);
    let (closed, hold) = close_gate(rt, keeper);
    hold.release();
    let pass = refused(rt, &mut passes, pass);
    let keeper = opened(rt, &tree, second, closed);
    let pass = refused(rt, &mut passes, pass);
    let call = inside(rt, &mut passes, HotPass::new(&keeper, pass.into_pass()));
    assert!(rt; call.key() == second);
    passes.leave(call);
    close_gate(rt, keeper).1.release();
}
