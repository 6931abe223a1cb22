//! The callbacks of a device's files.
ghost use Rattle.std.specs.Prelude.{◌≡◌, ◌≢◌, ◌<◌, ◌≤◌, [], Some, None, length, take, decimal, true, MatchResult, IfErr, OnOk};
ghost use Rattle.kf_core.specs.Phases.{has_reference};
ghost use Rattle.kf_core.specs.declared.caller.Phase.TheVariants.{Running, Restored};
ghost use Rattle.kf_words.specs.Callers.{IsSameSeat};
ghost use Rattle.kf_pages.specs.Files.{filled_by};
ghost use Rattle.kf_pages.specs.Files.{unknown_tag};
ghost use Rattle.kf_device.specs.Answers.{MayShow, MayStore, TakesAll, ValueFault};
ghost use Rattle.kf_device.specs.Tags.{meaning, is_delete};

use crate::bus::Bus;
use crate::faults::{fault_of, unknown};
use crate::tags::{DeviceFile, DeviceTag, meaning};
use itoa::Buffer;
use kf_files::{Fault, Page, WaitOps};
use kf_shared::{Naming, SharedTree};
use kf_words::Call;
use std::sync::Wait;

// Fills an empty page with the first 4,096 bytes.
fn put(page: &mut Page, bytes: &[u8])
    requires empty { page.old.items ≡ [] }
    ensures filled { page.new.items ≡ take 4096 bytes.now }
{
    let end = bytes.len().min(4096);
    let _ = page.try_extend_from_slice(&bytes[..end]);
}

impl<N: Naming> Bus<N> {
    // Shows the value of a device.
    fn show_value<R: Wait>(&self, rt: &R, serial: u64, page: &mut Page) -> Result<(), Fault>
        requires empty { page.old.items ≡ [] }
        ensures refused { IfErr result (λ fault. fault ≡ unknown_tag) }
    {
        let devices = self.devices.lock(rt);
        match devices.value(serial) {
            Some(bytes) => {
                put(page, bytes);
                Ok(())
            }
            None => Err(unknown()),
        }
    }

    // Shows the number of a plug, in decimal.
    fn show_serial<R: Wait>(&self, rt: &R, serial: u64, page: &mut Page) -> Result<(), Fault>
        requires empty { page.old.items ≡ [] }
        ensures shown { MatchResult result (λ _. page.new.items ≡ decimal serial)
            (λ fault. fault ≡ unknown_tag) }
    {
        if !self.devices.lock(rt).has_begun(serial) {
            return Err(unknown());
        }
        let mut buffer = Buffer::new();
        put(page, buffer.format(serial).as_bytes());
        Ok(())
    }

    // Replaces a device's value by these bytes.
    fn store_value<R: Wait>(&self, rt: &R, serial: u64, bytes: &[u8]) -> Result<usize, Fault>
        ensures stored { TakesAll ValueFault bytes.now result }
    {
        match self.devices.lock(rt).set_value(serial, bytes) {
            Ok(true) => Ok(bytes.len()),
            Ok(false) => Err(unknown()),
            Err(refusal) => Err(fault_of(refusal)),
        }
    }
}

impl<N: Naming> WaitOps<N> for Bus<N> {
    ghost may_show = { λ _ tag answer. MayShow tag answer };

    ghost may_store = { λ _ tag bytes answer. MayStore tag bytes answer };

    /// Shows a device's value, or the number of its plug in decimal. It fails with Fault 22 if the bus no
    /// longer keeps such a value or no such plug has begun, and for any other tag.
    fn show<R: Wait>(
        &self,
        rt: &R,
        tree: &SharedTree<N>,
        call: &mut Call,
        tag: u64,
        page: &mut Page,
    ) -> Result<(), Fault>
        requires table { call.old.table ≡ N.table }
        requires running { call.old.phase ≡ Running }
        requires empty { page.old.items ≡ [] }
        ensures shown { MayShow tag (filled_by result page.new.items) }
        ensures untouched { call.new ≡ call.old }
        ensures seat { IsSameSeat call.old call.new }
        ensures reference { has_reference call.new.phase ≡ true }
    {
        let _ = tree;
        let _ = call;
        let Some(DeviceTag { serial, file }) = meaning(tag) else {
            return Err(unknown());
        };
        match file {
            DeviceFile::Value => self.show_value(rt, serial, page),
            DeviceFile::Serial => self.show_serial(rt, serial, page),
            DeviceFile::Delete => Err(unknown()),
        }
    }

    /// Replaces a device's value by these bytes, or deletes the device. A store to `value` fails with Fault
    /// 22 if the bus no longer keeps the value, and with Fault 12 if there is no memory. The fault of a store
    /// to `delete` has the number of the refusal that was met. This store can fail after `delete` itself was
    /// removed, and then `unplug` removes the rest. For any other tag a store fails with Fault 22.
    fn store<R: Wait>(
        &self,
        rt: &R,
        tree: &SharedTree<N>,
        call: &mut Call,
        tag: u64,
        bytes: &[u8],
    ) -> Result<usize, Fault>
        requires table { call.old.table ≡ N.table }
        requires running { call.old.phase ≡ Running }
        requires some { 0 < length bytes.now }
        requires fits { length bytes.now ≤ 4096 }
        ensures stored { MayStore tag bytes.now result }
        ensures untouched { is_delete (meaning tag) ≢ true → call.new ≡ call.old }
        ensures deleted { is_delete (meaning tag) ≡ true → OnOk result (call.new.phase ≡ Restored) }
        ensures seat { IsSameSeat call.old call.new }
        ensures reference { has_reference call.new.phase ≡ true }
    {
        let Some(DeviceTag { serial, file }) = meaning(tag) else {
            return Err(unknown());
        };
        match file {
            DeviceFile::Value => self.store_value(rt, serial, bytes),
            DeviceFile::Delete => {
                self.delete(rt, tree, call, serial)?;
                Ok(bytes.len())
            }
            DeviceFile::Serial => Err(unknown()),
        }
    }
}
