//! Swapping a hot value for another.
ghost use Rattle.std.specs.Prelude.{◌≡◌, IfErr, IfOk, OnErr, OnOk, true};
ghost use Rattle.kf_core.specs.declared.refusal.Refusal.TheVariants as refusal_of;

use crate::hot::Hot;
use crate::lanes::{Lanes, new_owner, only};
use crate::published::Published;
use crate::registry::Registry;
use kf_core::Refusal;
use kf_shared::Naming;
use std::mem::replace;
use std::sync::Wait;

impl<N: Naming, T: Published> Registry<N, T> {
    /// Swaps a hot value for another, lane by lane, waits until nobody is inside the old one, and returns the
    /// old one. The node and the gate stay as they are. Each lane has one of the two values at any time, so
    /// each call finds one.
    ///
    /// Condition: the value suits the path.
    ///
    /// Refusal: NoMemory. Then the old value is published as before, and the new one is returned.
    ///
    /// Context: sleeps; does not take the tree's lock. It waits for all calls that are inside, so a closure
    /// that runs inside must not call it. Nor may such a closure call the value again: later callers wait
    /// behind the swap.
    pub fn swap_hot<R: Wait>(
        &self,
        rt: &R,
        hot: &mut Hot<N, T>,
        value: T,
    ) -> Result<T, (T, Refusal)>
        requires suits { T.suits hot.old.path value ≡ true }
        ensures before { IfOk result (λ before. before ≡ hot.old.value) }
        ensures suits { IfOk result (λ before. T.suits hot.old.path before ≡ true) }
        ensures after { OnOk result (hot.new.value ≡ value) }
        ensures path { hot.new.path ≡ hot.old.path }
        ensures keeper { hot.new.keeper ≡ hot.old.keeper }
        ensures key { hot.new.key ≡ hot.old.key }
        ensures back { IfErr result (λ r. r.0 ≡ value) }
        ensures refused { IfErr result (λ r. r.1 ≡ refusal_of.NoMemory) }
        ensures same { OnErr result (hot.new ≡ hot.old) }
    {
        let own = new_owner(self.alloc, hot.own.path.as_slice(), value)?;
        let lanes = match Lanes::new(self.alloc, &own, hot.lanes.count()) {
            Ok(lanes) => lanes,
            Err(_) => return Err((only(rt, own).into_value(), Refusal::NoMemory)),
        };
        hot.lanes.fill(rt, lanes);
        let before = replace(&mut hot.own, own);
        Ok(only(rt, before).into_value())
    }
}
