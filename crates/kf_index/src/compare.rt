//! The byte order of names, compared eight bytes at a time, or four.

ghost use Rattle.std.specs.Prelude.{◌≡◌, ◌≤◌, ◌+◌, length, take, drop, min};
ghost use Rattle.std.specs.Int.{w32, w64, from_be_bytes};
ghost use Rattle.std.specs.Ordering.{nat_cmp};
ghost use Rattle.std.specs.Cmp.Lexicographic.{slice_cmp};

use std::cmp::Ordering;

/// The eight bytes from `at` on, as a big-endian number.
#[inline(always)]
fn word_at(text: &[u8], at: usize) -> u64
    requires within { at + 8 ≤ length text.now }
    ensures read { result ≡ from_be_bytes w64 (take 8 (drop at text.now)) }
{
    match text[at..].split_first_chunk::<8>() {
        Some((word, _)) => u64::from_be_bytes(*word),
        None => unreachable!(),
    }
}

/// The four bytes from `at` on, as a big-endian number.
#[inline(always)]
fn half_at(text: &[u8], at: usize) -> u32
    requires within { at + 4 ≤ length text.now }
    ensures read { result ≡ from_be_bytes w32 (take 4 (drop at text.now)) }
{
    match text[at..].split_first_chunk::<4>() {
        Some((half, _)) => u32::from_be_bytes(*half),
        None => unreachable!(),
    }
}

/// Compares two texts in byte order, byte by byte.
#[inline(always)]
fn by_bytes(a: &[u8], b: &[u8]) -> Ordering
    ensures known { result ≡ slice_cmp nat_cmp a.now b.now }
{
    let both = a.len().min(b.len());
    for at in 0..both {
        let (x, y) = (a[at], b[at]);
        if x != y {
            return x.cmp(&y);
        }
    }
    a.len().cmp(&b.len())
}

/// The same for texts of which the shorter has `both` bytes, four to eight: compares the first four of these
/// bytes, and then the last four.
#[inline(always)]
fn by_halves(a: &[u8], b: &[u8], both: usize) -> Ordering
    requires both { both ≡ min (length a.now) (length b.now) }
    requires some { 4 ≤ both }
    requires few { both ≤ 8 }
    ensures known { result ≡ slice_cmp nat_cmp a.now b.now }
{
    let (x, y) = (half_at(a, 0), half_at(b, 0));
    if x != y {
        return x.cmp(&y);
    }
    let (x, y) = (half_at(a, both - 4), half_at(b, both - 4));
    if x != y {
        return x.cmp(&y);
    }
    a.len().cmp(&b.len())
}

/// The same for texts of which the shorter has `both` bytes, eight or more: compares eight of these bytes at
/// a time, and then the last eight.
#[inline(always)]
fn by_words(a: &[u8], b: &[u8], both: usize) -> Ordering
    requires both { both ≡ min (length a.now) (length b.now) }
    requires some { 8 ≤ both }
    ensures known { result ≡ slice_cmp nat_cmp a.now b.now }
{
    let mut at = 0;
    while at < both - 8 {
        let (x, y) = (word_at(a, at), word_at(b, at));
        if x != y {
            return x.cmp(&y);
        }
        at += 8;
    }
    let (x, y) = (word_at(a, both - 8), word_at(b, both - 8));
    if x != y {
        return x.cmp(&y);
    }
    a.len().cmp(&b.len())
}

/// Compares two texts in byte order.
#[inline(always)]
pub(crate) fn in_byte_order(a: &[u8], b: &[u8]) -> Ordering
    ensures known { result ≡ slice_cmp nat_cmp a.now b.now }
{
    let both = a.len().min(b.len());
    if both >= 8 {
        return by_words(a, b, both);
    }
    if both >= 4 {
        return by_halves(a, b, both);
    }
    by_bytes(a, b)
}
