//! Compares a word with a known text.

ghost use Rattle.std.specs.Prelude.{◌≡◌};
ghost use Rattle.std.specs.Str.{bytes_eq};

/// Whether a word equals this text. It is inlined, so if the text is a constant, it compares a few numbers.
/// For a text of four bytes or more, `==` makes a call.
#[inline(always)]
pub fn spells(word: &[u8], text: &[u8]) -> bool
    ensures { result ≡ bytes_eq word.now text.now }
{
    if word.len() != text.len() {
        return false;
    }
    for at in 0..text.len() {
        if word[at] != text[at] {
            return false;
        }
    }
    true
}
