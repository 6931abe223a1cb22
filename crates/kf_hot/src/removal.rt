//! The removal of nodes that many threads call through gates.
ghost use Rattle.std.specs.Prelude.{◌≡◌, ◌+◌, ◌≤◌, [], IfErr, IfOk, OnOk, vec_capacity, vec_len};
ghost use Rattle.kf_shared.specs.Locked.{history};
ghost use Rattle.kf_shared.specs.Removal.{keys_of};
ghost use Rattle.kf_shared.specs.Receipts.{AllDifferent, AreOf, EndsAt, IsDoomList, MayBeDoomed, RemovalRefused};
ghost use Rattle.kf_shared.specs.Sections.{Last, WasRemovedIn};
ghost use Rattle.kf_hot.specs.Gated.{AreShut, HaveReference, kept_by, last_openings, openings};

use kf_core::{Key, Refusal};
use kf_gates::{Closed, Keeper};
use kf_shared::{Editor, Naming};
use kf_tree::State;
use kf_words::{Call, Hold, Parted};
use std::alloc::Global;
use std::sync::Wait;

/// Shuts each of these gates.
fn shut_each(gates: &mut [Keeper<Call>])
    ensures shut { AreShut gates.new }
    ensures openings { openings gates.new ≡ openings gates.old }
    ensures kept { kept_by gates.new ≡ kept_by gates.old }
{
    for gate in gates.iter_mut() {
        gate.shut();
    }
}

/// Waits until nobody is inside any of these gates, ends their calls, and adds each gate to `closed`.
///
/// Conditions: the gates are shut, each call has its reference, and `closed` has room for them all.
///
/// Context: sleeps.
fn close_each<R: Wait>(rt: &R, gates: Vec<Keeper<Call>>, mut closed: Vec<Closed>) -> Vec<Closed>
    requires shut { AreShut gates.items }
    requires inside { HaveReference (kept_by gates.items) }
    requires none { closed.items ≡ [] }
    requires room { vec_len closed + vec_len gates ≤ vec_capacity closed }
    ensures openings { last_openings result.items ≡ openings gates.items }
{
    let mut rest = gates.into_iter();
    while let Some(gate) = rest.next() {
        let (shut, call) = gate.wait_closed(rt);
        call.leave().release();
        closed.push_reserved(shut);
    }
    rest.destroy_empty();
    closed
}

/// Closes each of these gates, one after the other, ends its call and releases the hold. It is meant for the
/// gates that a refused removal returns.
///
/// Condition: each call has its reference.
///
/// Context: sleeps.
pub fn close_gates<R: Wait>(rt: &R, gates: Vec<Keeper<Call>>)
    requires inside { HaveReference (kept_by gates.items) }
{
    let mut rest = gates.into_iter();
    while let Some(mut open) = rest.next() {
        open.shut();
        let (_, call) = open.wait_closed(rt);
        call.leave().release();
    }
    rest.destroy_empty();
}

/// Like [`Editor::remove`], but the nodes are called through these gates (`percpu_ref_kill` and
/// `percpu_ref_exit`). In one critical section it marks the nodes and shuts the gates. Once it has released
/// the lock, it waits until nobody is inside a gate, and ends the gates' calls. Then it waits for all other
/// callers, as `remove` does. It returns the gates closed, in their order. A caller that tries a gate after
/// the mark and before the gate is shut gets in, and the removal waits for it.
///
/// Like `remove`, it may never return. A callback that runs inside one of the gates must break its protection
/// before it calls this function. Otherwise the callback waits for itself.
///
/// Conditions: the hold is of this table, and each gate's call is Running or Restored.
///
/// Refusals: those of `doom`; NoMemory also if there is no memory for the list of the closed gates. After a
/// refusal nothing is marked, the gates are as they were, the lock is released, and the hold and the gates
/// are returned.
///
/// Context: sleeps, once it has released the lock.
pub fn remove_gated<N: Naming, R: Wait>(
    rt: &R,
    alloc: Global,
    editor: Editor<'_, N>,
    hold: Hold,
    gates: Vec<Keeper<Call>>,
) -> Result<(Vec<Parted>, Vec<Closed>), (Hold, Vec<Keeper<Call>>, Refusal)>
    requires table { hold.table ≡ N.table }
    requires inside { HaveReference (kept_by gates.items) }
    ensures alone { IfOk result (λ r. Last (WasRemovedIn (history editor.entry)
        editor.entry.state.tree hold (keys_of r.0.items)) r.0.items) }
    ensures tables { IfOk result (λ r. AreOf N.table r.0.items) }
    ensures last { IfOk result (λ r. EndsAt r.0.items hold) }
    ensures different { IfOk result (λ r. AllDifferent (keys_of r.0.items)) }
    ensures listed { IfOk result (λ r. IsDoomList editor.entry.state.tree hold.key (keys_of r.0.items)) }
    ensures no_cause { OnOk result (MayBeDoomed editor.entry.state hold.key) }
    ensures closed { IfOk result (λ r. last_openings r.1.items ≡ openings gates.items) }
    ensures back { IfErr result (λ r. (r.0 ≡ hold) × (r.1.items ≡ gates.items)) }
    ensures refused { IfErr result
        (λ r. RemovalRefused editor.entry.state.tree editor.entry.state.root hold.key r.2) }
{
    let Ok(closed) = Vec::with_capacity(alloc, gates.len()) else {
        let why = refused_first(editor.state(), hold.key());
        return Err((hold, gates, why));
    };
    let mut editor = editor;
    match editor.begin_removal(hold) {
        Err((hold, why)) => Err((hold, gates, why)),
        Ok(removing) => {
            let mut gates = gates;
            shut_each(gates.as_mut_slice());
            let draining = editor.end_removal(removing);
            let closed = close_each(rt, gates, closed);
            Ok((draining.finish(rt), closed))
        }
    }
}

/// Why the removal of a node is refused if memory runs out before anything else has been tested.
fn refused_first(state: &State, key: Key) -> Refusal
    ensures { RemovalRefused state.now.tree state.now.root key result }
{
    match state.may_doom(key) {
        Err(Refusal::Invalid) => Refusal::Invalid,
        _ => Refusal::NoMemory,
    }
}
