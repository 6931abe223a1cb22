//! The text in the bytes of a store.
ghost use Rattle.std.specs.Prelude.{◌≡◌, ◌==◌, position};
ghost use Rattle.kf_text.specs.Readings.{line, until_zero};

// The place of the first zero byte.
fn zero_in(bytes: &[u8]) -> Option<usize>
    ensures first { result ≡ position (λ byte. byte == 0) bytes.now }
{
    bytes.iter().position(|byte| *byte == 0)
}

/// The bytes before the first zero byte, or all of them.
#[tactic(auto, using(crate::proofs::Zeros::front, crate::proofs::Zeros::whole))]
pub(crate) fn until_zero(bytes: &[u8]) -> &[u8]
    ensures front { result.now ≡ until_zero bytes.now }
{
    match zero_in(bytes) {
        Some(end) => &bytes[..end],
        None => bytes,
    }
}

/// The text that a store may keep: the bytes before the first zero byte, without the newline that ends them,
/// if there is one. Spaces stay, unlike with `strim`.
pub fn line_of(bytes: &[u8]) -> &[u8]
    ensures line { result.now ≡ line bytes.now }
{
    let bytes = until_zero(bytes);
    match bytes.split_last() {
        Some((b'\n', rest)) => rest,
        _ => bytes,
    }
}
