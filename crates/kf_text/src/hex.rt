//! The digits of a number in base 16.
ghost use Rattle.std.specs.Prelude.{◌≡◌, ◌<◌, ◌≤◌, drop, false};
ghost use Rattle.std.specs.Fmt.{digit_glyph};
ghost use Rattle.kf_text.specs.Texts.{hex};

// The byte of a digit, in lower case.
fn digit(value: u64) -> u8
    requires below { value < 16 }
    ensures byte { result ≡ digit_glyph false value }
{
    if value < 10 {
        b'0' + value as u8
    } else {
        b'a' + (value - 10) as u8
    }
}

// Writes the digits of a number to the end of the bytes, the last digit first, and returns the place of the
// first digit.
fn write_hex(number: u64, bytes: &mut [u8; 64]) -> usize
    ensures within { result ≤ 64 }
    ensures digits { drop result bytes.new ≡ hex number }
{
    let mut rest = number;
    let mut at = 64;
    while at > 0 {
        at -= 1;
        bytes[at] = digit(rest % 16);
        rest /= 16;
        if rest == 0 {
            break;
        }
    }
    at
}

// Writes the digits of a number into these bytes, and returns them.
pub(crate) fn hex(number: u64, bytes: &mut [u8; 64]) -> &[u8]
    ensures digits { result.now ≡ hex number }
{
    let start = write_hex(number, bytes);
    &bytes[start..]
}
