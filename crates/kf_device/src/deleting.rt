//! What a store to `delete` does.
ghost use Rattle.std.specs.Prelude.{◌≡◌, true, IfErr, OnOk};
ghost use Rattle.kf_core.specs.Phases.{has_reference};
ghost use Rattle.kf_core.specs.declared.caller.Phase.TheVariants.{Running, Restored};
ghost use Rattle.kf_words.specs.Callers.{IsSameSeat};
ghost use Rattle.kf_device.specs.Answers.{DeleteFault};

use crate::bus::Bus;
use crate::claim::{Claim, remove_file};
use crate::faults::{fault_of, unknown};
use crate::removal::begin_both;
use kf_core::{Key, Refusal};
use kf_files::Fault;
use kf_index::Name;
use kf_shared::{Naming, SharedTree};
use kf_words::Call;
use std::sync::Wait;

impl<N: Naming> Bus<N> {
    // A copy of a device's name.
    fn name_of<R: Wait>(&self, rt: &R, serial: u64) -> Result<Name, Fault>
        ensures refused { IfErr result (λ fault. DeleteFault fault) }
    {
        let name = self.devices.lock(rt).name(serial);
        match name {
            Some(Ok(name)) => Ok(name),
            Some(Err(refusal)) => Err(fault_of(refusal)),
            None => Err(unknown()),
        }
    }

    // The key of the directory of the device whose `delete` the call is on. If the device's plug has not yet
    // given its nodes to the bus, this is the directory in which the file is.
    fn dir_of<R: Wait>(
        &self,
        rt: &R,
        tree: &SharedTree<N>,
        call: &Call,
        serial: u64,
    ) -> Option<Key> {
        let nodes = self.devices.lock(rt).nodes(serial);
        match nodes {
            Some(nodes) => nodes.dir,
            None => tree.read(rt).state().parent_of(call.key()).ok()?,
        }
    }

    // Unplugs the device whose `delete` the call is on: its link and its directory, each if it still has its
    // name, and no later device of that name. It is not a refusal if the device is already unplugged. The
    // claim is that of the first self-removal of that file.
    //
    // Condition: the call is Restored. So it has broken its protection, and no removal waits for it. (A
    // removal waits for every call that is Running. If this call were Running, the removal would wait
    // forever.)
    fn unplug_rest<R: Wait>(
        &self,
        rt: &R,
        tree: &SharedTree<N>,
        call: &Call,
        claim: Claim,
        name: &Name,
        dir: Option<Key>,
        serial: u64,
    ) -> Result<(), Refusal>
        requires restored { call.now.phase ≡ Restored }
    {
        let _ = call;
        let _ = claim;
        let Some(dir) = dir else {
            return Ok(());
        };
        let begun = begin_both(&mut tree.edit(rt), name.bytes(), Some(dir), Some(serial));
        match self.finish(rt, tree, begun?) {
            Err(Refusal::NoEntry) => Ok(()),
            other => other,
        }
    }

    /// Removes the `delete` that the call is on, from within its own callback. The first call that does so
    /// also removes the rest of the device (`device_remove_file_self`, then `device_unregister`). The
    /// device's name and its directory's key are copied first, so the bus is not locked during the removals.
    ///
    /// Conditions: the call is Running, and is of this tree's table. After Ok it is Restored.
    pub(crate) fn delete<R: Wait>(
        &self,
        rt: &R,
        tree: &SharedTree<N>,
        call: &mut Call,
        serial: u64,
    ) -> Result<(), Fault>
        requires table { call.old.table ≡ N.table }
        requires running { call.old.phase ≡ Running }
        ensures seat { IsSameSeat call.old call.new }
        ensures restored { OnOk result (call.new.phase ≡ Restored) }
        ensures reference { has_reference call.new.phase ≡ true }
        ensures refused { IfErr result (λ fault. DeleteFault fault) }
    {
        let name = self.name_of(rt, serial)?;
        let dir = self.dir_of(rt, tree, call, serial);
        let claimed = match remove_file(tree.edit(rt), rt, call) {
            Ok(claimed) => claimed,
            Err(refusal) => return Err(fault_of(refusal)),
        };
        let Some(claim) = claimed else {
            return Ok(());
        };
        match self.unplug_rest(rt, tree, call, claim, &name, dir, serial) {
            Ok(()) => Ok(()),
            Err(refusal) => Err(fault_of(refusal)),
        }
    }
}
