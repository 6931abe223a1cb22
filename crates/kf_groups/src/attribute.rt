//! Attributes and groups, as a driver declares them.
ghost use Rattle.std.specs.Prelude.{◌≡◌};
ghost use Rattle.kf_groups.specs.Modes.{IsMode};

/// Makes an attribute of this name and mode, with this tag or else the tag 0, as the value of a constant
/// (`__ATTR`). Examples are `attribute!(b"temp", 0o444)` and `attribute!(b"temp", 0o444, TEMP)`. A `const`
/// cannot call a function, but it can use this macro, and the checker knows the constant's mode.
///
/// If the mode has a bit outside 0o666, the proof fails, as it does for [`Attribute::new`].
#[macro_export]
macro_rules! attribute {
    ($name:expr, $mode:expr) => {
        $crate::attribute!($name, $mode, 0)
    };
    ($name:expr, $mode:expr, $tag:expr) => {
        $crate::Attribute {
            name: $name,
            mode: $mode / (($mode & 0o666 == $mode) as u16), // a division by 0 if it has any other bit
            tag: $tag,
        }
    };
}

/// An attribute (`struct attribute`). The default has no file.
#[derive(Clone, Copy, Default)]
pub struct Attribute<'a> {
    /// The name of its file.
    pub name: &'a [u8],
    /// The mode of its file, made of the read bits 0o444 and the write bits 0o222. With mode 0 there is no
    /// file, as in the kernel if `is_visible` returns 0.
    pub mode: u16,
    /// The tag of its file, by which callbacks know the file.
    pub tag: u64,
}

impl<'a> Attribute<'a> {
    /// Makes the attribute of this name, mode and tag (`__ATTR`).
    ///
    /// Condition: the mode has no bit outside 0o666 (`VERIFY_OCTAL_PERMISSIONS`).
    pub const fn new(name: &'a [u8], mode: u16, tag: u64) -> Attribute<'a>
        requires mode { IsMode mode }
        ensures name { result.name.now ≡ name.now }
        ensures mode { result.mode ≡ mode }
        ensures tag { result.tag ≡ tag }
    {
        Attribute { name, mode, tag }
    }

    /// Makes an attribute that everybody may read and nobody may write (`__ATTR_RO`).
    pub const fn read_only(name: &'a [u8], tag: u64) -> Attribute<'a>
        ensures name { result.name.now ≡ name.now }
        ensures mode { result.mode ≡ 292 }
        ensures tag { result.tag ≡ tag }
    {
        Attribute::new(name, 0o444, tag)
    }

    /// Makes an attribute that everybody may read and its owner may write (`__ATTR_RW`).
    pub const fn read_write(name: &'a [u8], tag: u64) -> Attribute<'a>
        ensures name { result.name.now ≡ name.now }
        ensures mode { result.mode ≡ 420 }
        ensures tag { result.tag ≡ tag }
    {
        Attribute::new(name, 0o644, tag)
    }

    /// Makes an attribute that its owner may write and nobody may read (`__ATTR_WO`).
    pub const fn write_only(name: &'a [u8], tag: u64) -> Attribute<'a>
        ensures name { result.name.now ≡ name.now }
        ensures mode { result.mode ≡ 128 }
        ensures tag { result.tag ≡ tag }
    {
        Attribute::new(name, 0o200, tag)
    }
}

/// A group of attributes (`struct attribute_group`).
#[derive(Clone, Copy)]
pub struct Group<'a> {
    /// The name of the group's own directory, which is made only if an attribute has a file. If it is None,
    /// the files are made directly in the directory in which the group is made.
    pub name: Option<&'a [u8]>,
    /// Its attributes.
    pub attributes: &'a [Attribute<'a>],
}

impl<'a> Group<'a> {
    /// Makes the group of this name, if it has one, with these attributes.
    pub const fn new(name: Option<&'a [u8]>, attributes: &'a [Attribute<'a>]) -> Group<'a>
        ensures name { result.name ≡ name.entry }
        ensures attributes { result.attributes.now ≡ attributes.now }
    {
        Group { name, attributes }
    }
}
