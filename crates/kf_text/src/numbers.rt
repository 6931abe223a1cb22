//! Reads numbers from the bytes of a store.
ghost use Rattle.std.specs.Prelude.{◌≡◌, FitsSigned};
ghost use Rattle.std.specs.Int.{w64};
ghost use Rattle.std.specs.Option.{SomeIff};
ghost use Rattle.std.specs.Str.Parse.{starts_with_minus, without_leading_plus, without_leading_sign};
ghost use Rattle.kf_text.specs.Readings.{line, with_sign, ReadNumber, ReadSigned, ReadSignedIn, ReadUnsigned, ReadUnsignedIn};

use crate::base::{Base, digits_in};
use crate::line::line_of;
use crate::not_read::NotRead;
use crate::numeral::{is_numeral, parse};

// The text without its leading plus, if it has one.
fn after_plus(text: &[u8]) -> &[u8]
    ensures after { result.now ≡ without_leading_plus text.now }
{
    match text {
        [b'+', digits @ ..] => digits,
        _ => text,
    }
}

// Whether the text has a leading minus.
fn has_minus(text: &[u8]) -> bool
    ensures value { result ≡ starts_with_minus text.now }
{
    text.first() == Some(&b'-')
}

// The text without its leading minus or plus, if it has one.
fn after_sign(text: &[u8]) -> &[u8]
    ensures after { result.now ≡ without_leading_sign text.now }
{
    match text {
        [b'-', digits @ ..] => digits,
        _ => after_plus(text),
    }
}

// Reads a number that has no sign.
fn read_number(text: &[u8], base: Base, most: u64) -> Result<u64, NotRead>
    ensures read { ReadNumber base most text.now result }
{
    let (radix, digits) = digits_in(text, base);
    if !is_numeral(digits, radix) {
        return Err(NotRead::Invalid);
    }
    match parse(digits, radix) {
        Some(number) if number <= most => Ok(number),
        _ => Err(NotRead::Range),
    }
}

// The number with its sign, if it fits into 64 bits.
fn signed(is_negative: bool, number: u64) -> Option<i64>
    ensures value { SomeIff result (FitsSigned w64 (with_sign is_negative number))
        (with_sign is_negative number) }
{
    match i64::try_from(number) {
        Ok(number) if is_negative => Some(-number),
        Ok(number) => Some(number),
        Err(_) if is_negative && number == 1 << 63 => Some(i64::MIN),
        Err(_) => None,
    }
}

/// Reads a number in a base, at most `most` (`kstrtoull`; with a type's greatest number as `most`:
/// `kstrtouint`, `kstrtoul` and others). The number may have a plus in front and a newline at the end. A zero
/// byte and what follows it are not read.
///
/// Errors, in order: Invalid (no number, or one with a minus), Range (above `most`). Unlike in the kernel,
/// digits that exceed 64 bits are Invalid if another byte follows them.
pub fn read_unsigned_in(bytes: &[u8], base: Base, most: u64) -> Result<u64, NotRead>
    ensures read { ReadUnsignedIn base most (line bytes.now) result }
{
    read_number(after_plus(line_of(bytes)), base, most)
}

/// Reads a number in decimal, at most `most`: `read_unsigned_in` with base 10 (`kstrtou64` with base 10; with
/// a type's greatest number as `most`: `kstrtou8` and others).
///
/// Errors, in order: Invalid (no number, or one with a minus), Range (above `most`).
pub fn read_unsigned(bytes: &[u8], most: u64) -> Result<u64, NotRead>
    ensures read { ReadUnsigned most (line bytes.now) result }
{
    read_unsigned_in(bytes, Base::Decimal, most)
}

/// Reads a number in a base, from `least` to `most` (`kstrtoll`; with the bounds of a type: `kstrtoint`,
/// `kstrtol` and others). The number may have a plus or a minus in front, before the prefix of the base, and
/// a newline at the end. A zero byte and what follows it are not read.
///
/// Errors, in order: Invalid (no number), Range (below `least` or above `most`). Unlike in the kernel, digits
/// that exceed 64 bits are Invalid if another byte follows them.
pub fn read_signed_in(bytes: &[u8], base: Base, least: i64, most: i64) -> Result<i64, NotRead>
    ensures read { ReadSignedIn base least most (line bytes.now) result }
{
    let text = line_of(bytes);
    let number = match read_number(after_sign(text), base, u64::MAX) {
        Ok(number) => number,
        Err(refusal) => return Err(refusal),
    };
    match signed(has_minus(text), number) {
        Some(number) if least <= number && number <= most => Ok(number),
        _ => Err(NotRead::Range),
    }
}

/// Reads a number in decimal, from `least` to `most`: `read_signed_in` with base 10 (with the bounds of a
/// type: `kstrtoint` with base 10, and others).
///
/// Errors, in order: Invalid (no number), Range (below `least` or above `most`).
pub fn read_signed(bytes: &[u8], least: i64, most: i64) -> Result<i64, NotRead>
    ensures read { ReadSigned least most (line bytes.now) result }
{
    read_signed_in(bytes, Base::Decimal, least, most)
}
