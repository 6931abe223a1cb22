//! The bus: how devices are plugged and unplugged.
ghost use Rattle.std.specs.Prelude.{◌≡◌, ◌≤◌, ◌^◌, ◌⊎◌, IfOk, IfErr, OnOk, OnErr, None, Some, Err};
ghost use Rattle.kf_core.specs.declared.refusal.Refusal.{Refusal};
ghost use Rattle.kf_core.specs.declared.refusal.Refusal.TheVariants.{NoMemory, NoSpace};
ghost use Rattle.kf_core.specs.Names.{name_fault};
ghost use Rattle.kf_shared.specs.Locked.{Unchanged};
ghost use Rattle.kf_shared.specs.Receipts.{HoldsRefusal};
ghost use Rattle.kf_device.specs.Plugs.{IsPlugged};
ghost use Rattle.kf_device.specs.Removals.{BeginsBoth, UnplugRefusal, left};
ghost use Rattle.kf_device.specs.Stops.{IsStoppedPlug, PlugRefusal};

use crate::devices::{Devices, Nodes};
use crate::making::{RefusedPlug, make};
use crate::removal::{Unplugging, begin_both, finish, finish_both, plug_at};
use kf_core::{Key, Refusal};
use kf_index::name_fault;
use kf_shared::{Editor, Naming, SharedTree};
use std::alloc::Global;
use std::marker::PhantomData;
use std::sync::{Mutex, Wait};

/// A bus with its devices, on the shared tree that `N` names (`struct bus_type`). It also has the callbacks
/// of the devices' files. Any number of threads may share it.
///
/// Its lock is a leaf: a thread that has it takes no other lock and waits for nobody.
#[derive(Drop)]
pub struct Bus<N: Naming> {
    pub(crate) devices: Mutex<Devices>,
    name: PhantomData<N>,
}

impl<N: Naming> Bus<N> {
    /// Makes a bus on which no plug has begun.
    ///
    /// Refusal: NoMemory, and no other. Today it allocates nothing, so it never fails.
    pub fn new(alloc: Global) -> Result<Bus<N>, Refusal>
        ensures refused { IfErr result (λ refusal. refusal ≡ NoMemory) }
    {
        Ok(Bus {
            devices: Mutex::new(Devices::new(alloc)),
            name: PhantomData,
        })
    }

    // Begins a plug, and keeps the texts of its device. No more than the first 4,096 bytes of a value are
    // ever shown, so only these are kept.
    fn begin<R: Wait>(&self, rt: &R, name: &[u8], value: &[u8]) -> Result<u64, Refusal>
        requires lawful { name_fault name.now ≡ None }
        ensures few { IfOk result (λ serial. serial ≤ 2 ^ 60) }
        ensures refused { IfErr result (λ refusal. (refusal ≡ NoSpace) ⊎ (refusal ≡ NoMemory)) }
    {
        let shown = value.len().min(4096);
        let mut devices = self.devices.lock(rt);
        let serial = devices.begin()?;
        devices.add(serial, name, &value[..shown])?;
        Ok(serial)
    }

    /// Plugs a device under this lock (`device_add`). First it makes those of `/devices`, `/bus` and
    /// `/bus/devices` that are not there, in this order. They are live at once. Then it makes `/devices/NAME`
    /// with its files `value` (0o644), `serial` (0o444) and `delete` (0o200), and activates all of these
    /// together. Last it makes the link `/bus/devices/NAME`, which is live at once. It returns the key of
    /// `/devices/NAME`. Under the same lock a driver may add its own groups there.
    ///
    /// Only the first 4,096 bytes of the value are kept, and a read shows at most 4,095 of them.
    ///
    /// Refusals: NameTooLong (over 255 bytes) or Invalid (name), then NoSpace if 2^60 plugs have begun. These
    /// change nothing. Then, for each step in order, NotDir (a base is a file or a link), NoEntry (a base is
    /// marked), Exists (the directory or the link is already there), NoSpace, and NoMemory. After one of
    /// these the base directories that were made stay. If the device's directory was made, its removal has
    /// begun, and [`Bus::take_back`] finishes it. Only if that removal was refused, too, does the directory
    /// stay. Then `unplug` removes it.
    ///
    /// Context: takes the lock of the bus.
    pub fn plug_in<R: Wait>(
        &self,
        rt: &R,
        editor: &mut Editor<'_, N>,
        name: &[u8],
        value: &[u8],
    ) -> Result<Key, RefusedPlug<N>>
        ensures plugged { IfOk result (λ dir. IsPlugged editor.old editor.new name.now dir) }
        ensures lawful { OnOk result (name_fault name.now ≡ None) }
        ensures refused { IfErr result (λ stopped. PlugRefusal name.now stopped.refusal) }
        ensures stopped { IfErr result (λ stopped.
            IsStoppedPlug editor.old editor.new name.now stopped.begun) }
    {
        if let Some(fault) = name_fault(name) {
            return Err(RefusedPlug::before(fault, None));
        }
        let serial = match self.begin(rt, name, value) {
            Ok(serial) => serial,
            Err(refusal) => return Err(RefusedPlug::before(refusal, None)),
        };
        let mut nodes = Nodes::new();
        let made = make(editor, name, serial, &mut nodes);
        self.devices.lock(rt).settle(serial, nodes);
        made
    }

    /// Finishes what a refused plug has begun, and returns why it was refused.
    ///
    /// It may never return. It waits for the tree's lock and the lock of the bus, and the caller must hold
    /// neither. If the link was refused, it also waits for the callbacks that run on the new files.
    ///
    /// Context: sleeps; takes the lock of the bus and the tree's lock, one at a time.
    pub fn take_back<R: Wait>(
        &self,
        rt: &R,
        tree: &SharedTree<N>,
        stopped: RefusedPlug<N>,
    ) -> Refusal
        ensures told { result ≡ stopped.refusal }
    {
        let RefusedPlug {
            refusal,
            begun,
            plug,
        } = stopped;
        finish(rt, tree, begun);
        if let Some(serial) = plug {
            self.forget_gone(rt, tree, serial);
        }
        refusal
    }

    /// Plugs a device as [`Bus::plug_in`] does, in one critical section of the tree, and takes it back if it
    /// is refused.
    ///
    /// Refusals: those of [`Bus::plug_in`].
    ///
    /// It may never return, like [`Bus::take_back`].
    ///
    /// Context: sleeps; takes the tree's lock, and takes the lock of the bus both under the tree's lock and
    /// without it.
    pub fn plug<R: Wait>(
        &self,
        rt: &R,
        tree: &SharedTree<N>,
        name: &[u8],
        value: &[u8],
    ) -> Result<Key, Refusal>
        ensures name { (fault : Refusal) → name_fault name.now ≡ Some fault → result ≡ Err fault }
        ensures refused { IfErr result (λ refusal. PlugRefusal name.now refusal) }
    {
        self.sweep(rt, tree);
        let plugged = self.plug_in(rt, &mut tree.edit(rt), name, value);
        match plugged {
            Ok(key) => Ok(key),
            Err(stopped) => Err(self.take_back(rt, tree, stopped)),
        }
    }

    /// The number of devices of which the bus keeps texts. These are the devices that are plugged or being
    /// plugged, and those that were removed by other means since the bus last looked. Other threads may plug
    /// and unplug at any time, so no clause says what the number is.
    ///
    /// It may never return: it waits for the lock of the bus.
    ///
    /// Context: takes the lock of the bus.
    pub fn kept<R: Wait>(&self, rt: &R) -> usize {
        self.devices.lock(rt).len()
    }

    /// Begins to unplug a device under this lock (`device_del`). It begins the removal of the link
    /// `/bus/devices/NAME` and that of the directory `/devices/NAME`, each if it is there. It looks both up,
    /// takes holds of them, and marks them. Each is looked up by its whole name, so a name that is not lawful
    /// finds nothing.
    ///
    /// Refusals: TooManyHolds or NoMemory, as `Editor::begin_removal_of` returns them for the link. After one
    /// of these nothing is marked. A refusal for the directory is in the result, beside the link's removal.
    pub fn unplug_in(
        &self,
        editor: &mut Editor<'_, N>,
        name: &[u8],
    ) -> Result<Unplugging<N>, Refusal>
        ensures begun { IfOk result (λ leaving.
            BeginsBoth editor.old editor.new name.now None leaving.link leaving.dir) }
        ensures refused { IfErr result (λ refusal. HoldsRefusal refusal) }
        ensures same { OnErr result (Unchanged editor.old editor.new) }
    {
        let plug = plug_at(editor.state(), name);
        begin_both(editor, name, None, plug)
    }

    /// Finishes an unplug that has begun: waits for the link and for the directory, and forgets the device's
    /// texts if its files have left the tree.
    ///
    /// Refusals: the one for which the directory's removal was refused (then only the link is removed, and
    /// `unplug` may be called again); otherwise NoEntry if neither was there.
    ///
    /// It may never return. It waits for the tree's lock and the lock of the bus, and the caller must hold
    /// neither. It also waits for every callback that runs on the device's files, even if that callback is
    /// the caller of `finish`.
    ///
    /// Context: sleeps; takes the lock of the bus and the tree's lock, one at a time.
    pub fn finish<R: Wait>(
        &self,
        rt: &R,
        tree: &SharedTree<N>,
        leaving: Unplugging<N>,
    ) -> Result<(), Refusal>
        ensures told { result ≡ left leaving.link leaving.dir }
    {
        let plug = leaving.plug;
        let found = finish_both(rt, tree, leaving)?;
        if let Some(serial) = plug {
            self.forget_gone(rt, tree, serial);
        }
        if found { Ok(()) } else { Err(Refusal::NoEntry) }
    }

    /// Unplugs a device: [`Bus::unplug_in`] in one critical section of the tree, and then [`Bus::finish`].
    ///
    /// Refusals: NoEntry if neither its link nor its directory is there; otherwise TooManyHolds or NoMemory,
    /// as `Editor::begin_removal_of` returns them for the link or the directory. If the directory's removal
    /// is refused, the link is removed nevertheless. After TooManyHolds or NoMemory it may be called again.
    ///
    /// It may never return, like [`Bus::finish`].
    ///
    /// Context: sleeps; takes the lock of the bus and the tree's lock, one at a time.
    pub fn unplug<R: Wait>(&self, rt: &R, tree: &SharedTree<N>, name: &[u8]) -> Result<(), Refusal>
        ensures refused { IfErr result (λ refusal. UnplugRefusal refusal) }
    {
        self.sweep(rt, tree);
        let begun = self.unplug_in(&mut tree.edit(rt), name);
        self.finish(rt, tree, begun?)
    }
}
