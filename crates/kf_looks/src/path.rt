//! Paths, split into names one by one.
ghost use Rattle.std.specs.Prelude.{◌≡◌, ◌∷◌, ◌<◌, ◌≤◌, map, position, IfSome, length, take};
ghost use Rattle.std.specs.Option.{option_map};
ghost use Rattle.std.specs.List.{slice_split};
ghost use Rattle.std.specs.Simd.Lanes.{mask_l};
ghost use Rattle.kf_core.specs.Paths.{is_slash, later_parts};

use std::simd::prelude::*;

/// Which of the first eight bytes are slashes, one bit for each byte.
#[inline(always)]
fn slashes_of_eight(text: &[u8]) -> u64
    requires { 8 ≤ length text.now }
    ensures told { result ≡ mask_l (map is_slash (take 8 text.now)) }
{
    u8x8::from_slice(text)
        .simd_eq(u8x8::splat(b'/'))
        .to_bitmask()
}

/// Which of the first sixteen bytes are slashes, one bit for each byte.
#[inline(always)]
fn slashes_of_sixteen(text: &[u8]) -> u64
    requires { 16 ≤ length text.now }
    ensures told { result ≡ mask_l (map is_slash (take 16 text.now)) }
{
    u8x16::from_slice(text)
        .simd_eq(u8x16::splat(b'/'))
        .to_bitmask()
}

#[inline(always)]
fn find_slash(text: &[u8]) -> Option<usize>
    ensures first { result ≡ position is_slash text.now }
{
    if text.len() >= 16 {
        let found = slashes_of_sixteen(text);
        if found != 0 {
            return Some(found.trailing_zeros() as usize);
        }
    } else if text.len() >= 8 {
        let found = slashes_of_eight(text);
        if found != 0 {
            return Some(found.trailing_zeros() as usize);
        }
    }
    text.iter().position(|byte| *byte == b'/')
}

/// The part of the text before its first slash, and what follows that slash.
#[inline(always)]
pub(crate) fn first_part(text: &[u8]) -> (&[u8], Option<&[u8]>)
    ensures parts { slice_split is_slash text.now ≡ result.0.now
        ∷ later_parts (option_map (λ rest. rest.now) result.1) }
    ensures front { result.0.now ≡ take (length result.0.now) text.now }
    ensures inside { length result.0.now ≤ length text.now }
    ensures shorter { IfSome result.1 (λ rest. length rest.now < length text.now) }
{
    match find_slash(text) {
        Some(at) => (&text[..at], Some(&text[at + 1..])),
        None => (text, None),
    }
}
