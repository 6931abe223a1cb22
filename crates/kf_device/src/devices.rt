//! The texts that a bus keeps of its devices, by the number of each plug.
ghost use Rattle.std.specs.Prelude.{◌≡◌, ◌≢◌, ◌≤◌, ℕ, ◌+◌, ◌^◌, ◌&&◌, nat_le, is_some, true, IfOk, IfErr, IfSome, IfNone, OnOk, OnErr, Some, None};
ghost use Rattle.kf_core.specs.declared.refusal.Refusal.TheVariants.{NoMemory, NoSpace};
ghost use Rattle.kf_core.specs.Names.{name_fault};

use kf_core::{Key, Refusal};
use kf_index::Name;
use kf_tree::State;
use std::alloc::Global;
use std::collections::BTreeMap;
use std::ops::Bound;

/// The greatest number of plugs that may begin.
const MOST: u64 = 1 << 60;

/// The nodes of a device that its plug has made: its directory, and the files whose callbacks ask for its
/// texts.
#[derive(Clone, Copy, Debug, PartialEq, Eq)]
pub(crate) struct Nodes {
    pub(crate) dir: Option<Key>,
    pub(crate) value: Option<Key>,
    pub(crate) delete: Option<Key>,
}

impl Nodes {
    /// None of the nodes was made yet.
    pub(crate) fn new() -> Nodes
        ensures none { result.dir ≡ None }
    {
        Nodes {
            dir: None,
            value: None,
            delete: None,
        }
    }

    /// Whether one of the device's files is in the tree, wherever it was moved. A file that has left the tree
    /// never returns to it.
    pub(crate) fn have_files(&self, state: &State) -> bool {
        is_linked(state, self.value) || is_linked(state, self.delete)
    }
}

fn is_linked(state: &State, file: Option<Key>) -> bool {
    match file {
        Some(key) => state.stat(key).is_ok(),
        None => false,
    }
}

/// The texts of one device.
#[derive(Drop)]
struct Device {
    name: Name,
    value: Vec<u8>,
    // None while its plug is under way.
    nodes: Option<Nodes>,
}

/// The devices whose texts a callback may still ask for, and the number of plugs that have begun.
#[derive(Drop)]
pub(crate) struct Devices {
    alloc: Global,
    begun: u64,
    // How many devices the last sweep left, minus those that were forgotten since.
    kept: usize,
    devices: BTreeMap<u64, Device>,
    ghost few: { begun ≤ 1152921504606846976 },
}

impl Devices {
    ghost use Rattle.std.specs.Ordering.{nat_cmp};
    ghost use Rattle.std.specs.BTreeMap.{get};
    ghost use Rattle.kf_device.specs.Texts.{value_in, name_in, nodes_in};

    /// The list of a bus on which no plug has begun.
    pub(crate) fn new(alloc: Global) -> Devices
        ensures none { result.begun ≡ 0 }
    {
        Devices {
            alloc,
            begun: 0,
            kept: 0,
            devices: BTreeMap::new(alloc),
        }
    }

    /// Begins a plug, and returns its number. The first plug has the number 1. Fails with `NoSpace` after
    /// 2^60 plugs.
    pub(crate) fn begin(&mut self) -> Result<u64, Refusal>
        ensures next { IfOk result (λ serial. (serial ≡ self.old.begun + 1) × (self.new.begun ≡ serial)) }
        ensures few { IfOk result (λ serial. serial ≤ 2 ^ 60) }
        ensures refused { IfErr result (λ refusal. refusal ≡ NoSpace) }
        ensures full { OnErr result (self.old.begun ≡ 2 ^ 60) }
        ensures unchanged { OnErr result (self.new ≡ self.old) }
    {
        if self.begun >= MOST {
            return Err(Refusal::NoSpace);
        }
        self.begun += 1;
        Ok(self.begun)
    }

    /// Whether a plug with this number has begun.
    pub(crate) fn has_begun(&self, serial: u64) -> bool
        ensures told { result ≡ (nat_le 1 serial && nat_le serial self.now.begun) }
    {
        1 <= serial && serial <= self.begun
    }

    /// Keeps the texts of a plug that is under way. Fails with `NoMemory` if there is no memory for them.
    pub(crate) fn add(&mut self, serial: u64, name: &[u8], value: &[u8]) -> Result<(), Refusal>
        requires lawful { name_fault name.now ≡ None }
        ensures refused { IfErr result (λ refusal. refusal ≡ NoMemory) }
        ensures name { OnOk result (name_in (get nat_cmp self.new.devices serial) ≡ Some name.now) }
        ensures value { OnOk result (value_in (get nat_cmp self.new.devices serial) ≡ Some value.now) }
        ensures counted { self.new.begun ≡ self.old.begun }
    {
        let device = Device {
            name: Name::new(self.alloc, name)?,
            value: value.to_vec(self.alloc)?,
            nodes: None,
        };
        self.devices.insert(serial, device)?;
        Ok(())
    }

    /// Notes that the plug is over, and has made these nodes.
    pub(crate) fn settle(&mut self, serial: u64, nodes: Nodes)
        ensures settled { is_some (get nat_cmp self.old.devices serial) ≡ true →
            nodes_in (get nat_cmp self.new.devices serial) ≡ Some nodes }
        ensures counted { self.new.begun ≡ self.old.begun }
    {
        if let Some(device) = self.devices.get_mut(&serial) {
            device.nodes = Some(nodes);
        }
    }

    /// Forgets a device.
    pub(crate) fn forget(&mut self, serial: u64)
        ensures gone { get nat_cmp self.new.devices serial ≡ None }
        ensures others { (n : ℕ) → n ≢ serial →
            get nat_cmp self.new.devices n ≡ get nat_cmp self.old.devices n }
        ensures counted { self.new.begun ≡ self.old.begun }
    {
        if self.devices.remove(&serial).is_some() {
            self.kept = self.kept.saturating_sub(1);
        }
    }

    /// The bytes of a device's value.
    pub(crate) fn value(&self, serial: u64) -> Option<&[u8]>
        ensures own { IfSome result (λ bytes.
            value_in (get nat_cmp self.now.devices serial) ≡ Some bytes.now) }
        ensures none { IfNone result (value_in (get nat_cmp self.now.devices serial) ≡ None) }
    {
        Some(self.devices.get(&serial)?.value.as_slice())
    }

    /// A copy of a device's name.
    pub(crate) fn name(&self, serial: u64) -> Option<Result<Name, Refusal>>
        ensures own { IfSome result (λ copied. IfOk copied (λ name.
            name_in (get nat_cmp self.now.devices serial) ≡ Some name)) }
        ensures none { IfNone result (name_in (get nat_cmp self.now.devices serial) ≡ None) }
    {
        let name = &self.devices.get(&serial)?.name;
        match name.clone() {
            Ok(copy) => Some(Ok(copy)),
            Err(_) => Some(Err(Refusal::NoMemory)),
        }
    }

    /// The nodes of a device whose plug is over.
    pub(crate) fn nodes(&self, serial: u64) -> Option<Nodes>
        ensures own { result ≡ nodes_in (get nat_cmp self.now.devices serial) }
    {
        self.devices.get(&serial)?.nodes
    }

    /// Replaces a device's value by these bytes. Returns false if there is no such device.
    pub(crate) fn set_value(&mut self, serial: u64, bytes: &[u8]) -> Result<bool, Refusal>
        ensures stored { IfOk result (λ known. known ≡ true →
            value_in (get nat_cmp self.new.devices serial) ≡ Some bytes.now) }
        ensures refused { IfErr result (λ refusal. refusal ≡ NoMemory) }
        ensures kept { OnErr result
            (get nat_cmp self.new.devices serial ≡ get nat_cmp self.old.devices serial) }
        ensures others { (n : ℕ) → n ≢ serial →
            get nat_cmp self.new.devices n ≡ get nat_cmp self.old.devices n }
        ensures counted { self.new.begun ≡ self.old.begun }
    {
        match self.devices.get_mut(&serial) {
            Some(device) => {
                device.value = bytes.to_vec(self.alloc)?;
                Ok(true)
            }
            None => Ok(false),
        }
    }

    /// How many devices are kept.
    pub(crate) fn len(&self) -> usize {
        self.devices.len()
    }

    /// The number of devices that a sweep has to look at, if this is more than twice `kept`. Otherwise None:
    /// no sweep is due.
    pub(crate) fn due(&self) -> Option<usize> {
        let count = self.devices.len();
        (count > self.kept.saturating_mul(2)).then_some(count)
    }

    /// The number of the first device above this number, if there is one.
    pub(crate) fn above(&self, serial: u64) -> Option<u64> {
        let mut rest = self
            .devices
            .range((Bound::Excluded(serial), Bound::Unbounded));
        match rest.next() {
            Some((next, _)) => Some(*next),
            None => None,
        }
    }

    /// Notes that a sweep is over.
    pub(crate) fn swept(&mut self)
        ensures counted { self.new.begun ≡ self.old.begun }
    {
        self.kept = self.devices.len();
    }
}
