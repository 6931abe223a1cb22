//! Reads each kind of word: a path, a mode, an offset, a length, a file's letter, and what a file is opened
//! for.

ghost use Rattle.std.specs.Prelude.{◌≡◌, ◌≤◌, ◌<◌, ◌-◌, Some, None, true, nat_le, IfSome, if◌then◌else◌};
ghost use Rattle.std.specs.Option.{option_map};
ghost use Rattle.std.specs.List.{list_all};
ghost use Rattle.kf_script.specs.Requests.{is_octal, is_digit, path_of, mode_of, number_of, decimal_of, offset_of, length_of, file_of, want_of};

use super::spelling::spells;

/// A path or a name: any word that is not empty.
pub fn path_in(word: &[u8]) -> Option<&[u8]>
    ensures { option_map (λ path. path.now) result ≡ path_of word.now }
{
    if word.is_empty() {
        return None;
    }
    Some(word)
}

fn octal_digit(byte: u8) -> Option<u16>
    ensures value { result ≡ (if is_octal byte then Some (byte - 48) else None) }
    ensures small { IfSome result (λ digit. digit ≤ 7) }
{
    if !(b'0'..=b'7').contains(&byte) {
        return None;
    }
    Some(u16::from(byte - b'0'))
}

/// A mode: exactly three octal digits.
pub fn mode_in(word: &[u8]) -> Option<u16>
    ensures value { result ≡ mode_of word.now }
    ensures range { IfSome result (λ mode. mode ≤ 511) }
{
    let [a, b, c] = word else {
        return None;
    };
    Some(64 * octal_digit(*a)? + 8 * octal_digit(*b)? + octal_digit(*c)?)
}

fn has_digits_alone(word: &[u8]) -> bool
    ensures { result ≡ list_all is_digit word.now }
{
    word.iter().all(|byte| byte.is_ascii_digit())
}

/// The number that these decimal digits spell, if it is at most `greatest`.
fn number_up_to(digits: &[u8], greatest: u64) -> Option<u64>
    requires digits { list_all is_digit digits.now ≡ true }
    requires small { greatest ≤ 4294967295 }
    ensures { result ≡ (if nat_le (number_of digits.now) greatest then Some
        (number_of digits.now) else None) }
{
    let mut number = 0;
    for digit in digits {
        number = number * 10 + u64::from(*digit - b'0');
        if number > greatest {
            return None;
        }
    }
    Some(number)
}

/// The number that a word spells, if the word is 1 to `most` decimal digits and the number is at most
/// `greatest`.
fn decimal(word: &[u8], most: usize, greatest: u64) -> Option<u64>
    requires { greatest ≤ 4294967295 }
    ensures value { result ≡ decimal_of most greatest word.now }
    ensures range { IfSome result (λ number. number ≤ greatest) }
{
    if word.is_empty() || word.len() > most || !has_digits_alone(word) {
        return None;
    }
    number_up_to(word, greatest)
}

/// An offset, in at most ten digits.
pub fn offset_in(word: &[u8]) -> Option<u64>
    ensures value { result ≡ offset_of word.now }
    ensures range { IfSome result (λ offset. offset ≤ 4294967295) }
{
    decimal(word, 10, 4_294_967_295)
}

/// A length, in at most five digits.
pub fn length_in(word: &[u8]) -> Option<u64>
    ensures value { result ≡ length_of word.now }
    ensures range { IfSome result (λ length. length ≤ 65535) }
{
    decimal(word, 5, 65_535)
}

/// The file that a letter names.
pub fn file_in(word: &[u8]) -> Option<usize>
    ensures value { result ≡ file_of word.now }
    ensures range { IfSome result (λ file. file < 26) }
{
    let [letter] = word else {
        return None;
    };
    if !letter.is_ascii_lowercase() {
        return None;
    }
    Some(usize::from(*letter - b'a'))
}

/// Whether a file is opened for reading, and whether for writing.
#[inline(always)]
pub fn want_in(word: &[u8]) -> Option<(bool, bool)>
    ensures { result ≡ want_of word.now }
{
    if spells(word, b"r") {
        Some((true, false))
    } else if spells(word, b"w") {
        Some((false, true))
    } else if spells(word, b"rw") {
        Some((true, true))
    } else {
        None
    }
}
