//! Writes what a function returned into a reply, in the forms that only this board uses.

ghost use Rattle.std.specs.Prelude.{◌≡◌, ◌≤◌, length, IfOk};
ghost use Rattle.kf_workers.specs.Told.{changed_told, done_told, key_told, read_told, stat_told};

use kf_core::{Key, Refusal};
use kf_files::FileError;
use kf_replies::{tell_error, tell_stat};
use kf_script::Reply;
use kf_tree::Stat;

/// Writes `ok`, or the refusal.
pub fn tell_done(reply: &mut Reply, told: Result<(), Refusal>)
    ensures { reply.new ≡ done_told told }
{
    match told {
        Ok(()) => reply.set_done(),
        Err(refusal) => reply.set_refusal(refusal),
    }
}

/// Writes the key of a new node, or why there is none.
pub fn tell_key(reply: &mut Reply, told: Result<Key, FileError>)
    ensures { reply.new ≡ key_told told }
{
    match told {
        Ok(key) => reply.set_key(key),
        Err(error) => tell_error(reply, error),
    }
}

/// Writes whether a file has changed, or the refusal.
pub fn tell_changed(reply: &mut Reply, told: Result<bool, Refusal>)
    ensures { reply.new ≡ changed_told told }
{
    match told {
        Ok(changed) => reply.set_poll(changed),
        Err(refusal) => reply.set_refusal(refusal),
    }
}

/// Writes the bytes that a read put at the front of a buffer, or why there are none.
///
/// Conditions: the buffer has at most 4,096 bytes, and at most as many bytes were read as it has.
pub fn tell_read(reply: &mut Reply, told: Result<usize, FileError>, out: &[u8])
    requires fits { IfOk told (λ count. count ≤ length out.now) }
    requires page { length out.now ≤ 4096 }
    ensures { reply.new ≡ read_told told out.now }
{
    match told {
        Ok(count) => reply.set_bytes(&out[..count]),
        Err(error) => tell_error(reply, error),
    }
}

/// Writes what `stat` reports of a node, or the refusal.
pub fn tell_seen(reply: &mut Reply, told: Result<Stat, Refusal>)
    ensures { reply.new ≡ stat_told told }
{
    match told {
        Ok(stat) => tell_stat(reply, &stat),
        Err(refusal) => reply.set_refusal(refusal),
    }
}
