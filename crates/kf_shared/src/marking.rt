//! Marks and activations of several nodes in the words, one after the other.
ghost use Rattle.std.specs.Prelude.{◌≡◌, All, is_some, true, [], ◌∷◌};
ghost use Rattle.kf_tree.specs.SlotMarks.{marks_at, Changed, doomed_if, risen_if};
ghost use Rattle.kf_shared.specs.Agreement.{OnlyMarks};

use kf_core::Key;
use kf_words::Master;

/// Dooms a linked node, if it is not doomed yet.
fn doom_one(master: &mut Master, key: Key)
    requires linked { is_some (marks_at master.old.view.slots key) ≡ true }
    ensures marks { Changed doomed_if (key ∷ []) master.old.view.slots master.new.view.slots }
    ensures only { OnlyMarks master.old master.new }
{
    if let Some(marks) = master.marks(key) {
        if !marks.doomed {
            master.doom(key);
        }
    }
}

/// Activates a linked node, if it is neither activated nor doomed.
fn rise_one(master: &mut Master, key: Key)
    requires linked { is_some (marks_at master.old.view.slots key) ≡ true }
    ensures marks { Changed risen_if (key ∷ []) master.old.view.slots master.new.view.slots }
    ensures only { OnlyMarks master.old master.new }
{
    if let Some(marks) = master.marks(key) {
        if !marks.doomed && !marks.activated {
            master.activate(key);
        }
    }
}

/// Dooms each of these linked nodes that is not doomed yet.
///
/// Condition: each is linked.
pub fn doom_each(master: &mut Master, keys: &[Key])
    requires linked { All (λ key. is_some (marks_at master.old.view.slots key) ≡ true) keys.now }
    ensures marks { Changed doomed_if keys.now master.old.view.slots master.new.view.slots }
    ensures only { OnlyMarks master.old master.new }
{
    for key in keys {
        doom_one(master, *key);
    }
}

/// Activates each of these linked nodes that is neither activated nor doomed.
///
/// Condition: each is linked.
pub fn rise_each(master: &mut Master, keys: &[Key])
    requires linked { All (λ key. is_some (marks_at master.old.view.slots key) ≡ true) keys.now }
    ensures marks { Changed risen_if keys.now master.old.view.slots master.new.view.slots }
    ensures only { OnlyMarks master.old master.new }
{
    for key in keys {
        rise_one(master, *key);
    }
}
