//! The tags of a device's files. A tag says which plug made the file, and which of the device's files it is.
ghost use Rattle.std.specs.Prelude.{◌≡◌, ◌≤◌, ◌^◌, Some};
ghost use Rattle.kf_device.specs.Tags.{meaning};

/// The lowest tag of a bus. Lower tags are left to the caller.
const FIRST: u64 = 1 << 63;

/// Which of a device's files a file is.
#[derive(Clone, Copy, Debug, PartialEq, Eq)]
pub(crate) enum DeviceFile {
    Value,
    Serial,
    Delete,
}

/// A file of the device whose plug has this number.
#[derive(Clone, Copy, Debug, PartialEq, Eq)]
pub(crate) struct DeviceTag {
    pub(crate) serial: u64,
    pub(crate) file: DeviceFile,
}

/// The tag of a device's file.
pub(crate) fn tag_of(serial: u64, file: DeviceFile) -> u64
    requires few { serial ≤ 2 ^ 60 }
    ensures meant { meaning result ≡ Some (record { serial = serial; file = file }) }
{
    let place = match file {
        DeviceFile::Value => 0,
        DeviceFile::Serial => 1,
        DeviceFile::Delete => 2,
    };
    FIRST + 4 * serial + place
}

/// The file that has this tag. None if the tag is not one of a bus.
pub(crate) fn meaning(tag: u64) -> Option<DeviceTag>
    ensures told { result ≡ meaning tag }
{
    if tag < FIRST {
        return None;
    }
    let serial = (tag - FIRST) / 4;
    let file = match (tag - FIRST) % 4 {
        0 => DeviceFile::Value,
        1 => DeviceFile::Serial,
        2 => DeviceFile::Delete,
        _ => return None,
    };
    Some(DeviceTag { serial, file })
}
