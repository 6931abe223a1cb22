//! Reads and writes a driver's own buffer at an offset.
ghost use Rattle.std.specs.Prelude.{◌≡◌, ◌++◌, ◌≤◌, length, drop};
ghost use Rattle.kf_pages.specs.Files.{slice};
ghost use Rattle.kf_driver.specs.Buffers.{with_bytes, within};

/// Copies the buffer's bytes, from the offset on, to the front of `out` (`memory_read_from_buffer`). Returns
/// how many it copied, which is 0 if the offset is past the end of the buffer. The rest of `out` stays as it
/// was.
pub fn read_from_buffer(buffer: &[u8], offset: u64, out: &mut [u8]) -> usize
    ensures count { result ≡ length (slice buffer.now offset (length out.old)) }
    ensures bytes { out.new ≡ slice buffer.now offset (length out.old) ++ drop result out.old }
    ensures fits { result ≤ length out.new }
{
    let start = buffer.len().min(offset as usize);
    let rest = &buffer[start..];
    let found = &rest[..rest.len().min(out.len())];
    out[..found.len()].copy_from_slice(found);
    found.len()
}

/// Copies as many of the bytes as fit into the buffer, from the offset on. Returns how many it copied, which
/// is 0 if the offset is past the end of the buffer. The rest of the buffer stays as it was.
pub fn write_to_buffer(buffer: &mut [u8], offset: u64, bytes: &[u8]) -> usize
    ensures count { result ≡ length (within (length buffer.old) offset bytes.now) }
    ensures bytes { buffer.new ≡ with_bytes buffer.old offset (within (length buffer.old) offset bytes.now) }
    ensures fits { result ≤ length bytes.now }
{
    let start = buffer.len().min(offset as usize);
    let count = bytes.len().min(buffer.len() - start);
    buffer[start..start + count].copy_from_slice(&bytes[..count]);
    count
}
