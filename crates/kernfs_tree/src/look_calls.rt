//! The calls that look paths up and hold nodes without the tree's lock, and the call that makes a tree for
//! such look-ups.
ghost use Rattle.std.specs.Prelude.{◌≡◌, ◌≢◌, ◌<◌, ◌≤◌, pos, negsuc, true, false};
ghost use Rattle.kf_core.specs.Limits.{most_slots};
ghost use Rattle.kf_handles.specs.declared.object.Object.TheVariants as behind;
ghost use Rattle.kf_handles.specs.declared.object.Seat.TheVariants as seat_of;
ghost use Rattle.kf_handles.specs.Answers.{IsAsBefore};
ghost use Rattle.kf_handles.specs.Calls.{AreLimits, IsNewTree, IsNothing, is_nothing, key_in};
ghost use Rattle.kf_handles.specs.LookUps.{IsRefusal};
ghost use Rattle.kf_handles.specs.Lookers.{FoundBy, FoundNothing, HoldsPinned, LookerRefused, MadeLooker, NotPinned, PinnedNone, look_error};

use kf_handles::{KtHandle, KtKey};
use std::alloc::Global;

/// Makes a tree with only the root, and with words for look-ups in its first `looks` slots.
#[unsafe(no_mangle)]
pub extern "C" fn kt_create_root_with_looks(
    alloc: Global,
    handle: &mut KtHandle,
    slots: u32,
    holds: u32,
    looks: u32,
) -> i32
    ensures made { result ≡ pos 0 → IsNewTree slots holds handle.new.place.object }
    ensures taken { is_nothing handle.old.place ≡ false → result ≡ negsuc 21 }
    ensures was { result ≡ pos 0 → IsNothing handle.old.place }
    ensures same { result ≢ pos 0 → handle.new.place ≡ handle.old.place }
    ensures unlawful { (¬ AreLimits slots holds) → result ≡ negsuc 21 }
    ensures many { most_slots < looks → result ≡ negsuc 21 }
    ensures why { is_nothing handle.old.place ≡ true → AreLimits slots holds → looks ≤ most_slots →
        result ≢ pos 0 → result ≡ negsuc 11 }
{
    kf_handles::make_tree(alloc, handle, slots, holds, looks)
}

/// Makes a looker of the tree, behind a handle with nothing behind it. The looker keeps a hold of the root.
#[unsafe(no_mangle)]
pub extern "C" fn kt_looker(alloc: Global, tree: &mut KtHandle, out: &mut KtHandle) -> i32
    ensures made { result ≡ pos 0 → MadeLooker tree.old.place.object out.new.place.object
        × (out.new.place.seat ≡ seat_of.None) }
    ensures taken { is_nothing out.old.place ≡ false → result ≡ negsuc 21 }
    ensures was { result ≡ pos 0 → IsNothing out.old.place }
    ensures tree { IsAsBefore tree.old.place.object tree.new.place.object }
    ensures same { result ≢ pos 0 → out.new.place ≡ out.old.place }
    ensures beside { tree.new.place.seat ≡ tree.old.place.seat }
    ensures why { is_nothing out.old.place ≡ true → result ≢ pos 0 → IsRefusal
        (LookerRefused tree.old.place.object tree.new.place.object) result }
{
    kf_handles::looker(alloc, tree, out)
}

/// Finds the live node that a path names (`kernfs_walk_and_get_ns`), without a lock. Returns 0, or -EAGAIN if
/// the path must be looked up under the lock.
#[unsafe(no_mangle)]
pub extern "C" fn kt_look(looker: &mut KtHandle, path: &[u8], out: &mut KtKey) -> i32
    ensures found { result ≡ pos 0 →
        FoundBy looker.old.place.object path.now (key_in out.new) looker.new.place.object }
    ensures nothing { result ≢ pos 0 →
        FoundNothing looker.old.place.object looker.new.place.object × (out.new ≡ out.old) }
    ensures why { result ≢ pos 0 → result ≡ look_error looker.old.place.object }
    ensures beside { looker.new.place.seat ≡ looker.old.place.seat }
{
    kf_handles::look(looker, path, out)
}

/// Takes a hold of a node (`kernfs_get`), without a lock, behind a handle with nothing behind it.
#[unsafe(no_mangle)]
pub extern "C" fn kt_pin(looker: &mut KtHandle, key: KtKey, out: &mut KtHandle) -> i32
    ensures held { result ≡ pos 0 →
        HoldsPinned looker.old.place.object (key_in key) looker.new.place.object out.new.place.seat
        × (out.new.place.object ≡ behind.Empty) }
    ensures taken { is_nothing out.old.place ≡ false → result ≡ negsuc 21 }
    ensures was { result ≡ pos 0 → IsNothing out.old.place }
    ensures none { result ≢ pos 0 → is_nothing out.old.place ≡ true →
        PinnedNone looker.old.place.object looker.new.place.object }
    ensures same { result ≢ pos 0 → out.new.place ≡ out.old.place }
    ensures kept { is_nothing out.old.place ≡ false → looker.new.place ≡ looker.old.place }
    ensures beside { looker.new.place.seat ≡ looker.old.place.seat }
    ensures why { is_nothing out.old.place ≡ true → result ≢ pos 0 → IsRefusal
        (NotPinned looker.old.place.object (key_in key) looker.new.place.object) result }
{
    kf_handles::pin(looker, key, out)
}
