//! What a bus keeps of its devices, which texts it shows, and that it forgets the texts of devices that are
//! gone.
use crate::device::fixtures::made;
use crate::device::steps::{Step, walk};
use kf_core::Refusal;
use std::marker::Brand;

/// The lowest tag of a bus.
const FIRST: u64 = 1 << 63;

/// Tags of no device, among them those of a plug that never began.
const ODD: [Step; 12] = [
    Step::Plugs(b"d1", b"one", None),
    Step::IsUnknown(0),
    Step::IsUnknown(FIRST - 1),
    Step::IsUnknown(FIRST),
    Step::IsUnknown(FIRST + 1),
    Step::IsUnknown(FIRST + 2),
    Step::IsUnknown(FIRST + 7),
    Step::IsUnknown(FIRST + 8),
    Step::IsUnknown(FIRST + 9),
    Step::IsUnknown(u64::MAX),
    Step::Shows(b"/devices/d1/value", b"one"),
    Step::Unplugs(b"d1", None),
];

/// A value may have any bytes, and a device is there as long as its `delete` file is.
const WITHOUT_VALUE: [Step; 11] = [
    Step::Plugs(b"d0", b"a\0b\xff ", None),
    Step::Shows(b"/devices/d0/value", b"a\0b\xff "),
    Step::Stores(b"/devices/d0/value", b"\0\xff\n", Ok(3)),
    Step::Shows(b"/devices/d0/value", b"\0\xff\n"),
    Step::Removes(b"/devices/d0/value"),
    Step::Plugs(b"d1", b"on", None),
    Step::Plugs(b"d2", b"on", None),
    Step::Stores(b"/devices/d0/delete", b"1", Ok(1)),
    Step::Has(b"/devices", 2),
    Step::Unplugs(b"d1", None),
    Step::Unplugs(b"d2", None),
];

/// A store to `delete` may fail because a node has no room for another hold. If that node is `delete` itself,
/// the whole device stays. If it is `value`, the rest of the device stays until it is unplugged.
const REFUSED: [Step; 9] = [
    Step::Plugs(b"d0", b"on", None),
    Step::Refuses(b"/devices/d0/delete", b"/devices/d0/serial"),
    Step::Has(b"/devices/d0", 3),
    Step::Has(b"/bus/devices", 1),
    Step::Refuses(b"/devices/d0/value", b"/devices/d0/value"),
    Step::Has(b"/devices/d0", 2),
    Step::Has(b"/bus/devices", 0),
    Step::Keeps(1, 1),
    Step::Unplugs(b"d0", None),
];

const STAYS: [Step; 2] = [Step::Keeps(0, 0), Step::Plugs(b"stays", b"here", None)];

/// Another device is plugged, and is unplugged by its name.
const COMES_AND_GOES: [Step; 5] = [
    Step::Plugs(b"goes", b"away", None),
    Step::Unplugs(b"goes", None),
    Step::Plugs(b"stays", b"twice", Some(Refusal::Exists)),
    Step::Compacts,
    Step::Keeps(1, 1),
];

/// Another device is plugged, and its nodes are removed without the bus.
const COMES_AND_IS_REMOVED: [Step; 5] = [
    Step::Plugs(b"goes", b"away", None),
    Step::Removes(b"/devices/goes"),
    Step::Removes(b"/bus/devices/goes"),
    Step::Compacts,
    Step::Keeps(1, 3),
];

const LEAVES: [Step; 5] = [
    Step::Unplugs(b"goes", Some(Refusal::NoEntry)),
    Step::Keeps(1, 2),
    Step::Unplugs(b"stays", None),
    Step::Unplugs(b"stays", Some(Refusal::NoEntry)),
    Step::Keeps(0, 0),
];

/// More devices stay than a sweep might look at, and all devices that are gone have higher numbers than
/// these.
const NINE_STAY: [Step; 9] = [
    Step::Plugs(b"a", b"stays", None),
    Step::Plugs(b"b", b"stays", None),
    Step::Plugs(b"c", b"stays", None),
    Step::Plugs(b"d", b"stays", None),
    Step::Plugs(b"e", b"stays", None),
    Step::Plugs(b"f", b"stays", None),
    Step::Plugs(b"g", b"stays", None),
    Step::Plugs(b"h", b"stays", None),
    Step::Plugs(b"i", b"stays", None),
];

const GOES: [Step; 4] = [
    Step::Plugs(b"goes", b"away", None),
    Step::Removes(b"/devices/goes"),
    Step::Removes(b"/bus/devices/goes"),
    Step::Keeps(9, 20),
];

const LISTS: [(u32, &[Step]); 9] = [
    (1, &ODD),
    (1, &WITHOUT_VALUE),
    (1, &REFUSED),
    (1, &STAYS),
    (10_000, &COMES_AND_GOES),
    (10_000, &COMES_AND_IS_REMOVED),
    (1, &LEAVES),
    (1, &NINE_STAY),
    (40, &GOES),
];

/// Each node may have at most two holds.
#[test]
fn a_bus_keeps_the_devices_that_are_there(rt: HostRuntime) {
    let new = made(&rt, rt.alloc(), 2);
    walk::<Brand, _>(&rt, rt.alloc(), new, &LISTS);
}
