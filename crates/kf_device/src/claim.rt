//! Of the calls that remove a device's `delete`, only the first goes on to remove the rest of the device.
ghost use Rattle.std.specs.Prelude.{◌≡◌, IfOk, OnOk, OnErr, is_some, not};
ghost use Rattle.kf_core.specs.declared.caller.Phase.TheVariants.{Running, Restored};
ghost use Rattle.kf_shared.specs.Locked.{is_claimed};
ghost use Rattle.kf_words.specs.Callers.{IsSameSeat};

use kf_core::Refusal;
use kf_shared::{Editor, Naming, release_all};
use kf_words::Call;
use std::sync::Wait;

/// Permission to remove the rest of a device. Only the first self-removal of its `delete` gets it.
#[derive(Drop)]
pub(crate) struct Claim {
    first: (),
}

/// Removes the node of a call from within its own callback, as `Editor::remove_self` does. Returns a claim if
/// no earlier self-removal has claimed the node.
///
/// Conditions and refusals: those of `Editor::remove_self`.
///
/// Context: sleeps after it has unlocked the tree, and locks it again.
pub(crate) fn remove_file<N: Naming, R: Wait>(
    editor: Editor<'_, N>,
    rt: &R,
    call: &mut Call,
) -> Result<Option<Claim>, Refusal>
    requires table { call.old.table ≡ N.table }
    requires running { call.old.phase ≡ Running }
    ensures same { IsSameSeat call.old call.new }
    ensures answered { OnOk result (call.new.phase ≡ Restored) }
    ensures kept { OnErr result (call.new ≡ call.old) }
    ensures first { IfOk result (λ claim. is_some claim ≡ not (is_claimed editor.entry.claims call.old.key)) }
{
    let (first, receipts) = editor.remove_self(rt, call)?;
    release_all(receipts);
    if first {
        Ok(Some(Claim { first: () }))
    } else {
        Ok(None)
    }
}
