//! Appends bytes to a text that has room for them.

ghost use Rattle.std.specs.Prelude.{◌≡◌, ◌≤◌, ◌+◌, ◌++◌, length, vec_len, vec_capacity};

/// Appends the bytes to the text, one by one. It is inlined, so if the bytes are constants, it writes a few
/// numbers.
///
/// Condition: the text has room for the bytes.
#[inline(always)]
pub fn push_each(text: &mut Vec<u8>, bytes: &[u8])
    requires { vec_len text.old + length bytes.now ≤ vec_capacity text.old }
    ensures items { text.new.items ≡ text.old.items ++ bytes.now }
    ensures len { vec_len text.new ≡ vec_len text.old + length bytes.now }
    ensures capacity { vec_capacity text.new ≡ vec_capacity text.old }
{
    for byte in bytes {
        text.push_reserved(*byte);
    }
}

/// Appends the bytes to the text. Up to eight bytes are first loaded, each into a register, and then
/// appended: that costs less than the calls that more bytes take.
///
/// Condition: the text has room for the bytes.
#[inline(always)]
pub fn push_all(text: &mut Vec<u8>, bytes: &[u8])
    requires { vec_len text.old + length bytes.now ≤ vec_capacity text.old }
    ensures items { text.new.items ≡ text.old.items ++ bytes.now }
    ensures len { vec_len text.new ≡ vec_len text.old + length bytes.now }
    ensures capacity { vec_capacity text.old ≤ vec_capacity text.new }
{
    match bytes {
        [a] => push_each(text, &[*a]),
        [a, b] => push_each(text, &[*a, *b]),
        [a, b, c] => push_each(text, &[*a, *b, *c]),
        [a, b, c, d] => push_each(text, &[*a, *b, *c, *d]),
        [a, b, c, d, e] => push_each(text, &[*a, *b, *c, *d, *e]),
        [a, b, c, d, e, f] => push_each(text, &[*a, *b, *c, *d, *e, *f]),
        [a, b, c, d, e, f, g] => push_each(text, &[*a, *b, *c, *d, *e, *f, *g]),
        [a, b, c, d, e, f, g, h] => push_each(text, &[*a, *b, *c, *d, *e, *f, *g, *h]),
        _ => {
            let _ = text.extend_from_slice(bytes);
        }
    }
}
