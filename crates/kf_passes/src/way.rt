//! A pass of a gate that is opened once, and a call made with it.
ghost use Rattle.std.specs.Prelude.{◌≡◌, false, true, IfErr, IfNone, IfOk, IfSome, OnOk};
ghost use Rattle.kf_passes.specs.Ways.{IsInside, IsKeptOut, IsOutside, IsSamePass, MadeAnother, NoOther, WasLetIn, WentOut};

use crate::entered::Through;
use core::mem::replace_with;
use kf_core::Refusal;
use kf_gates::Pass;

/// A thread's way through a gate: a pass while it is outside, and a call while it is inside.
#[derive(Drop)]
pub enum Way {
    Outside(Pass),
    Inside(Through),
}

impl Way {
    /// Whether it is inside, and so a call.
    pub fn is_inside(&self) -> bool
        ensures yes { result ≡ true → IsInside self.now }
        ensures no { result ≡ false → IsOutside self.now }
    {
        match self {
            Way::Inside(_) => true,
            Way::Outside(_) => false,
        }
    }
}

/// Lets a pass in.
#[inline(always)]
fn let_in(way: Way, _nothing: ()) -> (Way, Result<(), Refusal>)
    ensures entered { OnOk result.1 (WasLetIn way result.0) }
    ensures refused { IfErr result.1 (λ why. IsKeptOut way result.0 why) }
{
    match way {
        Way::Outside(pass) => match pass.enter_quiet(1) {
            Ok(call) => (Way::Inside(Through::new(call)), Ok(())),
            Err(pass) => (Way::Outside(pass), Err(Refusal::NoDevice)),
        },
        inside => (inside, Err(Refusal::Invalid)),
    }
}

/// Lets a call out.
#[inline(always)]
fn let_out(way: Way, _nothing: ()) -> (Way, Option<bool>)
    ensures left { IfSome result.1 (λ shut. WentOut way result.0 shut) }
    ensures outside { IfNone result.1 ((result.0 ≡ way) × IsOutside way) }
{
    match way {
        Way::Inside(through) => {
            let (pass, shut) = through.into_call().leave_quiet();
            (Way::Outside(pass), Some(shut))
        }
        outside => (outside, None),
    }
}

impl Way {
    /// Goes inside, with a pass (`percpu_ref_tryget_live`).
    ///
    /// Refusals: NoDevice (the pass found the gate shut; it was counted in its lane for a moment, and the
    /// keeper may have seen that), Invalid (it is already inside).
    #[inline(always)]
    pub fn enter(&mut self) -> Result<(), Refusal>
        ensures entered { OnOk result (WasLetIn self.old self.new) }
        ensures refused { IfErr result (λ why. IsKeptOut self.old self.new why) }
    {
        replace_with(self, (), let_in)
    }

    /// Goes out again (`percpu_ref_put`), and returns whether the gate was found shut after that. Returns
    /// None if it is outside.
    #[inline(always)]
    pub fn leave(&mut self) -> Option<bool>
        ensures left { IfSome result (λ shut. WentOut self.old self.new shut) }
        ensures outside { IfNone result ((self.new ≡ self.old) × IsOutside self.old) }
    {
        replace_with(self, (), let_out)
    }

    /// Makes another pass of the same gate. Its lane is `lane` modulo the number of lanes, counted from 0.
    ///
    /// Refusals: Invalid (it is inside), TooManyHolds (the gate has had 2^32 - 1 passes, including those that
    /// other threads are trying to make), NoMemory.
    pub fn another(&mut self, lane: u64) -> Result<Way, Refusal>
        ensures made { IfOk result (λ other. MadeAnother self.old lane other) }
        ensures same { IsSamePass self.old self.new }
        ensures refused { IfErr result (λ why. NoOther self.old self.new why) }
    {
        match self {
            Way::Outside(pass) => match pass.another(lane) {
                Ok(other) => Ok(Way::Outside(other)),
                Err(why) => Err(why),
            },
            Way::Inside(_) => Err(Refusal::Invalid),
        }
    }
}
