//! Digits in a base, and the number that they spell.
ghost use Rattle.std.specs.Prelude.{◌≡◌, ◌↔◌, ◌<◌, ◌≤◌, ◌^◌, IsTrue};
ghost use Rattle.std.specs.Char.{is_digit};
ghost use Rattle.std.specs.List.{list_all};
ghost use Rattle.std.specs.Option.{SomeIff};
ghost use Rattle.std.specs.Str.Parse.{IsNumeral, digits_value};

// Whether each byte is a digit in a base.
fn are_digits(bytes: &[u8], radix: u32) -> bool
    requires low { 2 ≤ radix }
    requires high { radix ≤ 16 }
    ensures value { result ≡ list_all (λ byte. is_digit byte radix) bytes.now }
{
    bytes.iter().all(|byte| char::from(*byte).is_digit(radix))
}

// Whether the bytes are one or more digits in a base, and nothing else.
#[tactic(auto, using(crate::proofs::Digits::numeral_from_test, crate::proofs::Digits::test_from_numeral))]
pub(crate) fn is_numeral(digits: &[u8], radix: u32) -> bool
    requires low { 2 ≤ radix }
    requires high { radix ≤ 16 }
    ensures numeral { IsTrue result ↔ IsNumeral radix digits.now }
{
    !digits.is_empty() && are_digits(digits, radix)
}

// The number that the digits spell, if it fits into 64 bits.
pub(crate) fn parse(digits: &[u8], radix: u32) -> Option<u64>
    requires low { 2 ≤ radix }
    requires high { radix ≤ 16 }
    requires numeral { IsNumeral radix digits.now }
    ensures value { SomeIff result (digits_value radix digits.now < 2 ^ 64) (digits_value radix digits.now) }
{
    match str::from_utf8(digits) {
        Ok(text) => u64::from_str_radix(text, radix).ok(),
        Err(_) => None,
    }
}
