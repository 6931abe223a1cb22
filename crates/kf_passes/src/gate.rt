//! A gate that is opened once.
ghost use Rattle.std.specs.Prelude.{◌≡◌, false, true, IfErr, IfNone, IfOk, IfSome, OnOk};
ghost use Rattle.kf_core.specs.declared.caller.Phase.TheVariants as phase_of;
ghost use Rattle.kf_gates.specs.States.{IsLanes};
ghost use Rattle.kf_passes.specs.Gates.{HasClosed, HasShut, IsClosed, IsOpen, IsOpenFor, IsShutStill, WasClosed, WasOpened};

use crate::entered::Entered;
use crate::way::Way;
use core::mem::replace_with;
use kf_gates::{Closed, Keeper};
use kf_words::{Call, Hold, Wake, WakeDue};
use std::alloc::Global;
use std::mem::ManuallyDrop;

/// The keeper of an open gate, which closes the gate when it is dropped, if nobody is inside.
pub struct Keeping {
    keeper: Keeper<Entered>,
}

impl Keeping {
    fn new(keeper: Keeper<Entered>) -> Keeping
        ensures { result.keeper ≡ keeper }
    {
        Keeping { keeper }
    }

    /// Shuts the gate, and looks at the lanes that it has not seen empty since then. If all are empty, the
    /// gate is closed, and its call leaves the node. Then the result has the closed gate, the call's hold,
    /// and the wake that this leave owes. Otherwise the keeper is returned.
    fn close(self) -> Result<(Closed, Hold, WakeDue), Keeping>
        ensures closed { IfOk result (λ r. HasClosed self.keeper r.0 r.1 r.2) }
        ensures not_yet { IfErr result (λ back. HasShut self.keeper back.keeper) }
    {
        let Keeping { mut keeper } = self;
        keeper.shut();
        match keeper.try_close() {
            Ok((closed, entered)) => {
                let Entered { call } = entered;
                let (hold, due) = call.leave_quiet();
                Ok((closed, hold, due))
            }
            Err(keeper) => Err(Keeping { keeper }),
        }
    }
}

/// If somebody is inside, the gate's call keeps its reference to the node for ever. That does not happen,
/// since a handle with an open gate is not dropped.
impl Drop for Keeping {
    fn drop(self) {
        match self.close() {
            Ok((_, hold, due)) => match due.must_wake() {
                Wake::Wanted | Wake::Unwanted => hold.release(),
            },
            Err(left) => {
                let _left = unsafe { ManuallyDrop::new_unchecked(left) };
            }
        }
    }
}

/// A gate, which is closed or open.
#[derive(Drop)]
pub enum Gate {
    /// Nobody is inside, and nobody comes in.
    Closed(Closed),
    /// It keeps a call of its node while anybody may be inside.
    Open(Keeping),
}

impl Gate {
    /// Whether somebody may be inside, or may still come in.
    pub fn is_open(&self) -> bool
        ensures open { result ≡ true → IsOpen self.now }
        ensures closed { result ≡ false → IsClosed self.now }
    {
        match self {
            Gate::Open(_) => true,
            Gate::Closed(_) => false,
        }
    }
}

/// Opens a closed gate with a call, which the gate keeps. If that fails, the call is returned.
fn open(gate: Gate, kept: Entered) -> (Gate, Result<(), Entered>)
    ensures opened { OnOk result.1 (WasOpened gate kept result.0) }
    ensures back { IfErr result.1 (λ back. back ≡ kept) }
{
    match gate {
        Gate::Closed(closed) => match closed.open(kept) {
            Ok(keeper) => (Gate::Open(Keeping::new(keeper)), Ok(())),
            Err((closed, kept)) => (Gate::Closed(closed), Err(kept)),
        },
        open => (open, Err(kept)),
    }
}

/// Makes an open gate with this number of lanes, which keeps the call, and the gate's first pass. If there is
/// no memory, the call is returned.
///
/// Conditions: a gate may have this number of lanes, and the call is Running.
pub fn gate_of(alloc: Global, lanes: u64, call: Call) -> Result<(Box<Gate>, Way), Call>
    requires lanes { IsLanes lanes }
    requires running { call.phase ≡ phase_of.Running }
    ensures open { IfOk result (λ r. IsOpenFor lanes call r.0.value r.1) }
    ensures back { IfErr result (λ back. back ≡ call) }
{
    let Ok((closed, pass)) = Closed::new(alloc, lanes) else {
        return Err(call);
    };
    let Ok(boxed) = Box::new(alloc, Gate::Closed(closed)) else {
        return Err(call);
    };
    let mut gate = boxed;
    match replace_with(gate.as_mut(), Entered { call }, open) {
        Ok(()) => Ok((gate, Way::Outside(pass))),
        Err(kept) => {
            let Entered { call } = kept;
            Err(call)
        }
    }
}

/// Shuts a gate, and closes it if nobody is inside.
fn shut(gate: Gate, _nothing: ()) -> (Gate, Option<(Hold, WakeDue)>)
    ensures closed { IfSome result.1 (λ r. WasClosed gate result.0 r.0 r.1) }
    ensures not_yet { IfNone result.1 (IsShutStill gate result.0) }
{
    match gate {
        Gate::Open(keeping) => match keeping.close() {
            Ok((closed, hold, due)) => (Gate::Closed(closed), Some((hold, due))),
            Err(keeping) => (Gate::Open(keeping), None),
        },
        closed => (closed, None),
    }
}

impl Gate {
    /// Shuts the gate (`percpu_ref_kill`), and looks at the lanes that it has not seen empty since then. If
    /// all are empty, the gate is closed: nobody is inside. Then its call leaves the node, in one step, and
    /// the call's hold is returned with the wake that this step owes. None is returned if somebody was found
    /// in a lane, or if the gate was already closed.
    pub fn shut(&mut self) -> Option<(Hold, WakeDue)>
        ensures closed { IfSome result (λ r. WasClosed self.old self.new r.0 r.1) }
        ensures not_yet { IfNone result (IsShutStill self.old self.new) }
    {
        replace_with(self, (), shut)
    }
}
