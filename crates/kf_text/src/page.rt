//! Fills a page with a text.
ghost use Rattle.std.specs.Prelude.{◌≡◌, ◌+◌, length, take};
ghost use Rattle.kf_text.specs.Texts.{emitted, part_text, text_of, to_width};

use crate::hex::hex;
use crate::part::Part;
use arrayvec::ArrayVec;
use itoa::Buffer;

/// The greatest number of bytes that a text may have on a page.
const MOST: usize = 4095;

// Appends bytes to the page, as far as there is room.
fn put(page: &mut ArrayVec<u8, 4096>, bytes: &[u8])
    ensures put { page.new.items ≡ emitted page.old.items bytes.now }
{
    let room = MOST.saturating_sub(page.len());
    let end = bytes.len().min(room);
    let _ = page.try_extend_from_slice(&bytes[..end]);
}

// Appends digits to the page, with zeros in front to at least this width, as far as there is room.
fn put_to_width(page: &mut ArrayVec<u8, 4096>, digits: &[u8], width: u8)
    ensures put { page.new.items ≡ emitted page.old.items (to_width width digits.now) }
{
    let zeros = [b'0'; 255];
    let missing = usize::from(width).saturating_sub(digits.len());
    put(page, &zeros[..missing]);
    put(page, digits);
}

// Appends a part to the page, as far as there is room.
fn put_part(page: &mut ArrayVec<u8, 4096>, part: &Part)
    ensures put { page.new.items ≡ emitted page.old.items (part_text part.now) }
{
    let mut buffer = Buffer::new();
    let mut bytes = [0; 64];
    match *part {
        Part::Text(bytes) => put(page, bytes),
        Part::Number(number) => put(page, buffer.format(number).as_bytes()),
        Part::PaddedNumber { number, width } => put_to_width(
            page,
            buffer.format(number).as_bytes(),
            width,
        ),
        Part::Signed(number) => put(page, buffer.format(number).as_bytes()),
        Part::Hex(number) => put(page, hex(number, &mut bytes)),
        Part::PaddedHex { number, width } => put_to_width(page, hex(number, &mut bytes), width),
        Part::Flag(true) => put(page, b"1"),
        Part::Flag(false) => put(page, b"0"),
        Part::Newline => put(page, b"\n"),
    }
}

/// Appends the text of the parts to the page, and returns how many bytes it appended. On an empty page this
/// is `sysfs_emit`. On any page, `emit_at(page, 0, ..)` is `sysfs_emit`. A page shows at most 4,095 bytes:
/// what does not fit is cut off.
pub fn emit(page: &mut ArrayVec<u8, 4096>, parts: &[Part]) -> usize
    ensures text { page.new.items ≡ emitted page.old.items (text_of parts.now) }
    ensures count { length page.old.items + result ≡ length page.new.items }
{
    let before = page.len();
    for part in parts {
        put_part(page, part);
    }
    page.len() - before
}

/// Like `emit`, but after the first `at` bytes of the page: the bytes after those are dropped first
/// (`sysfs_emit_at`). If the page has fewer bytes, the text follows all of them, unlike in the kernel.
pub fn emit_at(page: &mut ArrayVec<u8, 4096>, at: usize, parts: &[Part]) -> usize
    ensures text { page.new.items ≡ emitted (take at page.old.items) (text_of parts.now) }
    ensures count { length (take at page.old.items) + result ≡ length page.new.items }
{
    page.truncate(at);
    emit(page, parts)
}
