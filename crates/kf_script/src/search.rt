//! Finds a newline or a space in bytes.

ghost use Rattle.std.specs.Prelude.{◌≡◌, ◌≤◌, ◌<◌, ◌+◌, ◌==◌, not, length, position};
ghost use Rattle.std.specs.List.{prefix_len};
ghost use Rattle.std.specs.Simd.Lanes.{chunk};
ghost use Rattle.kf_script.specs.Lines.{is_newline};
ghost use Rattle.kf_script.specs.Requests.{is_space};

use memchr::memchr;
use std::simd::prelude::*;

/// How many of the 16 bytes at `from` come before the first one that is `byte`: 16 if none of them is.
#[inline(always)]
fn before_in_16(byte: u8, bytes: &[u8], from: usize) -> usize
    requires { from + 16 ≤ length bytes.now }
    ensures { result ≡ prefix_len (λ b. not (b == byte)) (chunk from 16 bytes.now) }
{
    let marks = u8x16::from_slice(&bytes[from..])
        .simd_eq(u8x16::splat(byte))
        .to_bitmask();
    if marks == 0 {
        16
    } else {
        marks.trailing_zeros() as usize
    }
}

/// The same for 8 bytes.
#[inline(always)]
fn before_in_8(byte: u8, bytes: &[u8], from: usize) -> usize
    requires { from + 8 ≤ length bytes.now }
    ensures { result ≡ prefix_len (λ b. not (b == byte)) (chunk from 8 bytes.now) }
{
    let marks = u8x8::from_slice(&bytes[from..])
        .simd_eq(u8x8::splat(byte))
        .to_bitmask();
    if marks == 0 {
        8
    } else {
        marks.trailing_zeros() as usize
    }
}

/// The same for 4 bytes.
#[inline(always)]
fn before_in_4(byte: u8, bytes: &[u8], from: usize) -> usize
    requires { from + 4 ≤ length bytes.now }
    ensures { result ≡ prefix_len (λ b. not (b == byte)) (chunk from 4 bytes.now) }
{
    let marks = u8x4::from_slice(&bytes[from..])
        .simd_eq(u8x4::splat(byte))
        .to_bitmask();
    if marks == 0 {
        4
    } else {
        marks.trailing_zeros() as usize
    }
}

/// The first place of the byte in 4 to 8 bytes. It looks at the first 4 bytes, and then at the last 4.
#[inline(always)]
fn place_by_4(byte: u8, bytes: &[u8]) -> Option<usize>
    requires length { (4 ≤ length bytes.now) × (length bytes.now ≤ 8) }
    ensures place { result ≡ position (λ b. b == byte) bytes.now }
{
    let first = before_in_4(byte, bytes, 0);
    if first < 4 {
        return Some(first);
    }
    let last = before_in_4(byte, bytes, bytes.len() - 4);
    if last < 4 {
        return Some(bytes.len() - 4 + last);
    }
    None
}

/// The first place of the byte in 8 to 16 bytes. It looks at the first 8 bytes, and then at the last 8.
#[inline(always)]
fn place_by_8(byte: u8, bytes: &[u8]) -> Option<usize>
    requires length { (8 ≤ length bytes.now) × (length bytes.now ≤ 16) }
    ensures place { result ≡ position (λ b. b == byte) bytes.now }
{
    let first = before_in_8(byte, bytes, 0);
    if first < 8 {
        return Some(first);
    }
    let last = before_in_8(byte, bytes, bytes.len() - 8);
    if last < 8 {
        return Some(bytes.len() - 8 + last);
    }
    None
}

/// The first place of the byte in 16 to 32 bytes. It looks at the first 16 bytes, and then at the last 16.
#[inline(always)]
fn place_by_16(byte: u8, bytes: &[u8]) -> Option<usize>
    requires length { (16 ≤ length bytes.now) × (length bytes.now ≤ 32) }
    ensures place { result ≡ position (λ b. b == byte) bytes.now }
{
    let first = before_in_16(byte, bytes, 0);
    if first < 16 {
        return Some(first);
    }
    let last = before_in_16(byte, bytes, bytes.len() - 16);
    if last < 16 {
        return Some(bytes.len() - 16 + last);
    }
    None
}

/// The first place of the byte in more than 32 bytes. It looks at the first 16, at the next 16, and then at
/// all of them.
#[inline(always)]
fn place_in_many(byte: u8, bytes: &[u8]) -> Option<usize>
    requires length { 32 < length bytes.now }
    ensures place { result ≡ position (λ b. b == byte) bytes.now }
{
    let first = before_in_16(byte, bytes, 0);
    if first < 16 {
        return Some(first);
    }
    let next = before_in_16(byte, bytes, 16);
    if next < 16 {
        return Some(16 + next);
    }
    memchr(byte, bytes)
}

/// The first place of the byte. Words and lines are short, so this looks at 4, 8 or 16 bytes at once.
/// `memchr` looks at fewer than 32 bytes one by one.
#[inline(always)]
fn place_of(byte: u8, bytes: &[u8]) -> Option<usize>
    ensures { result ≡ position (λ b. b == byte) bytes.now }
{
    match bytes.len() {
        0..=3 => memchr(byte, bytes),
        4..=7 => place_by_4(byte, bytes),
        8..=15 => place_by_8(byte, bytes),
        16..=32 => place_by_16(byte, bytes),
        _ => place_in_many(byte, bytes),
    }
}

/// The place of the first newline.
#[inline(always)]
pub fn newline_in(bytes: &[u8]) -> Option<usize>
    ensures { result ≡ position is_newline bytes.now }
{
    place_of(b'\n', bytes)
}

/// The place of the first space. (All words call this function, in which the byte is a constant.)
pub fn space_in(bytes: &[u8]) -> Option<usize>
    ensures { result ≡ position is_space bytes.now }
{
    place_of(b' ', bytes)
}

/// Like `space_in`, for a word that is likely to have one byte. It is inlined, and makes no call if the word
/// has one byte.
#[inline(always)]
pub fn space_behind_letter(bytes: &[u8]) -> Option<usize>
    ensures place { result ≡ position is_space bytes.now }
{
    if bytes.len() == 1 && bytes[0] != b' ' {
        return None;
    }
    if bytes.len() > 1 && bytes[0] != b' ' && bytes[1] == b' ' {
        return Some(1);
    }
    space_in(bytes)
}

/// Like `space_in`, for bytes that are likely to be a last word of one or two bytes.
#[inline(always)]
pub fn space_in_two(bytes: &[u8]) -> Option<usize>
    ensures place { result ≡ position is_space bytes.now }
{
    if bytes.len() == 2 && bytes[0] != b' ' && bytes[1] != b' ' {
        return None;
    }
    space_behind_letter(bytes)
}
