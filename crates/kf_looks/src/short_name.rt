//! Names of 1 to 24 bytes, as the words hold them.
ghost use Rattle.std.specs.Prelude.{◌≡◌, ◌+◌, ◌≤◌, ◌<◌, ◌↔◌, List, ℕ, length, take, drop, IsSome, IfSome, ◌++◌, false};
ghost use Rattle.kf_looks.specs.ShortNames.{bytes_before};
ghost use Rattle.kf_looks.specs.Lines.{bytes_in};
ghost use Rattle.kf_core.specs.Paths.{is_empty};

use std::cmp::min;

/// The greatest number of bytes of a name that has words.
const MOST_BYTES: usize = 24;

/// A name of 1 to 24 bytes. In contracts, `bytes_in` gives the bytes.
#[derive(Clone, Copy, Debug)]
pub struct ShortName {
    pub(crate) count: u64,
    pub(crate) first: u64,
    pub(crate) second: u64,
    pub(crate) third: u64,
}

/// Up to eight bytes as one word, with the first byte the highest.
pub(crate) fn word_of(bytes: &[u8]) -> u64
    requires few { length bytes.now ≤ 8 }
    ensures bytes { (later : List ℕ) → bytes_before (length bytes.now) result later ≡ bytes.now ++ later }
{
    let mut word: u64 = 0;
    for byte in bytes {
        word = word * 256 + *byte as u64;
    }
    word
}

/// Eight bytes of a text as one word, with the first byte the highest.
#[inline(always)]
fn eight_at(text: &[u8], at: usize) -> u64
    requires inside { at + 8 ≤ length text.now }
    ensures bytes { (later : List ℕ) → bytes_before 8 result later ≡ take 8 (drop at text.now) ++ later }
{
    u64::from_be_bytes([
        text[at],
        text[at + 1],
        text[at + 2],
        text[at + 3],
        text[at + 4],
        text[at + 5],
        text[at + 6],
        text[at + 7],
    ])
}

/// `count` bytes of a text, up to eight, as one word. If the text has eight bytes from `at` on, they are read
/// at once.
#[inline(always)]
fn word_at(text: &[u8], at: usize, count: usize) -> u64
    requires few { count ≤ 8 }
    requires inside { at + count ≤ length text.now }
    ensures bytes { (later : List ℕ) → bytes_before count result later
        ≡ take count (drop at text.now) ++ later }
{
    if count == 0 {
        return 0;
    }
    if text.len() - at < 8 {
        return word_of(&text[at..at + count]);
    }
    eight_at(text, at) >> (64 - 8 * count)
}

impl ShortName {
    /// A name made of the first `count` bytes of a text; None if `count` is 0 or more than 24.
    #[inline(always)]
    pub(crate) fn at_front(text: &[u8], count: usize) -> Option<ShortName>
        requires inside { count ≤ length text.now }
        ensures known { IsSome result ↔ ((1 ≤ count) × (count ≤ 24)) }
        ensures same { IfSome result (λ name. bytes_in name ≡ take count text.now) }
        ensures named { IfSome result (λ name. is_empty (take count text.now) ≡ false) }
    {
        if count == 0 || count > MOST_BYTES {
            return None;
        }
        if count <= 8 {
            return Some(ShortName {
                count: count as u64,
                first: word_at(text, 0, count),
                second: 0,
                third: 0,
            });
        }
        let two = min(count, 16);
        Some(ShortName {
            count: count as u64,
            first: word_at(text, 0, 8),
            second: word_at(text, 8, two - 8),
            third: word_at(text, two, count - two),
        })
    }

    /// A name made of these bytes; None if there is no byte, or more than 24.
    #[inline(always)]
    pub fn of(bytes: &[u8]) -> Option<ShortName>
        ensures known { IsSome result ↔ ((1 ≤ length bytes.now) × (length bytes.now ≤ 24)) }
        ensures same { IfSome result (λ name. bytes_in name ≡ bytes.now) }
        ensures named { IfSome result (λ name. is_empty bytes.now ≡ false) }
    {
        ShortName::at_front(bytes, bytes.len())
    }
}
