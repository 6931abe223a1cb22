//! The base of a number, and the place at which its digits begin.
ghost use Rattle.std.specs.Prelude.{◌≡◌, ◌≤◌};
ghost use Rattle.kf_text.specs.Readings.{digits_of, radix_of};

/// The base of a number in the bytes of a store.
#[derive(Clone, Copy)]
pub enum Base {
    /// Base 10 (the kernel's `10`).
    Decimal,
    /// Base 16, in lower-case or upper-case letters, with or without a leading `0x` or `0X` (the kernel's
    /// `16`).
    Hex,
    /// Base 16 after a leading `0x` or `0X`, else base 8 after a leading `0`, else base 10 (the kernel's
    /// `0`).
    ByPrefix,
}

// The base of a text, and its digits in this base (`_parse_integer_fixup_radix`). A `0x` with no digit after
// it leaves no digits here. The kernel's base 0 takes it for a `0` with an `x` after it. Both refuse it.
pub(crate) fn digits_in(text: &[u8], base: Base) -> (u32, &[u8])
    ensures radix { result.0 ≡ radix_of base text.now }
    ensures low { 2 ≤ result.0 }
    ensures high { result.0 ≤ 16 }
    ensures digits { result.1.now ≡ digits_of base text.now }
{
    match (base, text) {
        (Base::Decimal, _) => (10, text),
        (_, [b'0', b'x' | b'X', digits @ ..]) => (16, digits),
        (Base::Hex, _) => (16, text),
        (Base::ByPrefix, [b'0', ..]) => (8, text),
        (Base::ByPrefix, _) => (10, text),
    }
}
