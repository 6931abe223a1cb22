//! Reads flags and words from the bytes of a store.
ghost use Rattle.std.specs.Prelude.{◌≡◌, MatchOption, ok_or, position};
ghost use Rattle.std.specs.Str.{bytes_eq};
ghost use Rattle.kf_text.specs.Readings.{flag, same_line, same_text, with_newline};

use crate::line::until_zero;
use crate::not_read::NotRead;

/// Reads a flag (`kstrtobool`). It is true if the first byte is one of `eEyYtT1` or the first two are `on`,
/// and false if the first byte is one of `dDnNfF0` or the first two are `of`. The letters of `on` and `of`
/// may be in lower or upper case.
///
/// Error: Invalid (anything else).
pub fn read_flag(bytes: &[u8]) -> Result<bool, NotRead>
    ensures read { MatchOption (flag bytes.now) (result ≡ Err NotRead.Invalid) (λ flag. result ≡ Ok flag) }
{
    match bytes {
        [b'e' | b'E' | b'y' | b'Y' | b't' | b'T' | b'1', ..] => Ok(true),
        [b'd' | b'D' | b'n' | b'N' | b'f' | b'F' | b'0', ..] => Ok(false),
        [b'o' | b'O', b'n' | b'N', ..] => Ok(true),
        [b'o' | b'O', b'f' | b'F', ..] => Ok(false),
        _ => Err(NotRead::Invalid),
    }
}

// Whether the first text is the second with a newline after it.
#[tactic(auto, using(crate::proofs::Lines::same, crate::proofs::Lines::other, crate::proofs::Lines::none))]
fn ends_a_line(one: &[u8], other: &[u8]) -> bool
    ensures ends { result ≡ bytes_eq one.now (with_newline other.now) }
{
    match one.split_last() {
        Some((last, front)) => *last == b'\n' && front == other,
        None => false,
    }
}

// Whether two texts are the same, except for a newline that ends one of them.
fn is_same_line(one: &[u8], other: &[u8]) -> bool
    ensures same { result ≡ same_line one.now other.now }
{
    one == other || ends_a_line(one, other) || ends_a_line(other, one)
}

/// Whether two texts are the same, each up to its first zero byte, except for a newline that ends one of them
/// (`sysfs_streq`).
pub fn is_same_text(one: &[u8], other: &[u8]) -> bool
    ensures same { result ≡ same_text one.now other.now }
{
    is_same_line(until_zero(one), until_zero(other))
}

// The place of the first word that is the same text, as `is_same_text` says.
fn place_of(words: &[&[u8]], text: &[u8]) -> Option<usize>
    ensures first { result ≡ position (λ word. same_text word.now text.now) words.now }
{
    words.iter().position(|word| is_same_text(word, text))
}

/// The place in a list of the first word that is the same text as these bytes, as `is_same_text` says
/// (`sysfs_match_string`).
///
/// Error: Invalid (no word is the same text).
pub fn read_word(words: &[&[u8]], bytes: &[u8]) -> Result<usize, NotRead>
    ensures read { result ≡
        ok_or (position (λ word. same_text word.now bytes.now) words.now) NotRead.Invalid }
{
    place_of(words, bytes).ok_or(NotRead::Invalid)
}
