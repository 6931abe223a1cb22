//! Notes of what is done under the lock, in the history that the words keep.
ghost use Rattle.kf_words.specs.declared.note.Note.TheVariants.{Claimed, Compacted, Began, LockTaken, LockReleased};
ghost use Rattle.std.specs.Prelude.{length};
ghost use Rattle.kf_shared.specs.Noted.{WasNoted, last_stored};

use kf_core::Key;
use kf_live::LiveTree;
use kf_words::Master;
use std::marker::Brand;

/// Notes the command that was stored last.
pub(crate) fn note_last(master: &mut Master, state: &LiveTree)
    ensures { WasNoted (last_stored state.now.log.commands) master.old master.new }
{
    master.note::<Brand, LiveTree>(state);
}

/// Notes that the self-removal of a node was claimed.
pub(crate) fn note_claim(master: &mut Master, key: Key)
    ensures { WasNoted (Claimed key) master.old master.new }
{
    master.note::<Brand, Key>(&key);
}

/// Notes that the stored commands were replaced by the canonical list.
pub(crate) fn note_compaction(master: &mut Master)
    ensures { WasNoted Compacted master.old master.new }
{
    master.note::<Brand, bool>(&true);
}

/// Notes that this tree was made.
pub(crate) fn note_opening(master: &mut Master, state: &LiveTree)
    ensures { WasNoted (Began (length state.now.log.tree) state.now.log.root) master.old master.new }
{
    master.note::<Brand, LiveTree>(state);
}

/// Notes that the lock was taken.
pub(crate) fn note_taken(master: &mut Master)
    ensures { WasNoted LockTaken master.old master.new }
{
    master.note::<Brand, bool>(&true);
}

/// Notes that the lock is about to be released.
pub(crate) fn note_released(master: &mut Master)
    ensures { WasNoted LockReleased master.old master.new }
{
    master.note::<Brand, bool>(&false);
}
