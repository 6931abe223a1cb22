//! Hiding files and showing them again, in steps: the program asks again until nobody is inside.
ghost use Rattle.std.specs.Prelude.{◌≡◌, IfErr, IfOk, OnErr};
ghost use Rattle.kf_core.specs.declared.caller.Phase.TheVariants as phase_of;
ghost use Rattle.kf_core.specs.declared.command.Command.TheVariants.{Hide};
ghost use Rattle.kf_tree.specs.TreeLogs.{IsAccepted};
ghost use Rattle.kf_shared.specs.Locked.{Unchanged};
ghost use Rattle.kf_shared.specs.Hiding.{hold_cause};
ghost use Rattle.kf_handles.specs.Answers.{DoneOr};
ghost use Rattle.kf_handles.specs.Kept.{AreTokensOf};
ghost use Rattle.kf_handles.specs.Hiding.{SawNobody, SawSomebody, BeginRefused, HasHidden, HidingRefused, IsHidden, IsHiddenStill, IsUnhidden, UnhidingRefused, hide_fault};

use crate::questions::TreeReply;
use crate::token::Token;
use crate::tokens::{look_at, put, take};
use kf_core::{Key, Node, Refusal};
use kf_shared::{Locked, Naming};
use kf_tree::Stat;
use kf_words::Hiding;

/// Why a node with this stat cannot be hidden. Only files can be hidden, and only until they are marked for
/// removal.
fn hide_fault(stat: &Stat) -> Option<Refusal>
    ensures { result ≡ hide_fault stat.now stat.now.node }
{
    match stat.node {
        Node::Dir => Some(Refusal::IsDir),
        Node::Link { .. } => Some(Refusal::Invalid),
        Node::File { .. } => {
            if stat.doomed {
                Some(Refusal::NoEntry)
            } else {
                None
            }
        }
    }
}

/// Hides a file by a new hold. The refusals come in this order: what the file's stat says against it, then
/// the number of holds, then memory.
fn begin<N: Naming>(locked: &mut Locked<N>, key: Key) -> Result<Hiding, Refusal>
    ensures token { IfOk result (λ hiding. (hiding.table ≡ N.table) × (hiding.key ≡ key)
        × (hiding.phase ≡ phase_of.Hiding)) }
    ensures hid { IfOk result (λ hiding. HasHidden N.table locked.old key hiding) }
    ensures accepted { IfOk result (λ hiding. IsAccepted locked.old.state locked.new.state
        (hold_cause locked.old.state.tree hiding) (Hide key)) }
    ensures same { OnErr result (Unchanged locked.old locked.new) }
    ensures refused { IfErr result (λ why. BeginRefused N.table locked.old locked.new key why) }
    ensures claims { locked.new.claims ≡ locked.old.claims }
{
    let stat = locked.state().stat(key)?;
    if let Some(refusal) = hide_fault(&stat) {
        return Err(refusal);
    }
    let hold = locked.hold(key)?;
    match locked.hide(hold) {
        Ok(hiding) => Ok(hiding),
        Err((hold, refusal)) => {
            hold.release();
            Err(refusal)
        }
    }
}

/// Hides a file, if it is not hidden yet, and looks whether anybody is inside. The reply is Done if nobody
/// is, and Not if it saw somebody.
pub fn hide<N: Naming>(
    locked: &mut Locked<N>,
    tokens: &mut Vec<Option<Token>>,
    key: Key,
) -> TreeReply
    requires { AreTokensOf N.table tokens.old.items }
    ensures tokens { AreTokensOf N.table tokens.new.items }
    ensures told { DoneOr
        (IsHidden SawNobody N.table locked.old tokens.old.items locked.new tokens.new.items key)
        (IsHidden SawSomebody N.table locked.old tokens.old.items locked.new tokens.new.items key)
        (λ why. HidingRefused N.table locked.old tokens.old.items locked.new key why
        × Unchanged locked.old locked.new × (tokens.new.items ≡ tokens.old.items)) result }
{
    if key.slot as usize >= tokens.len() {
        return TreeReply::Refused(Refusal::NoEntry);
    }
    if let Some(token) = take(tokens, key) {
        return if look_at(tokens, token) {
            TreeReply::Done
        } else {
            TreeReply::Not
        };
    }
    match begin(locked, key) {
        Ok(hiding) => {
            if look_at(tokens, Token::new(hiding)) {
                TreeReply::Done
            } else {
                TreeReply::Not
            }
        }
        Err(refusal) => TreeReply::Refused(refusal),
    }
}

/// Shows a hidden file again. The reply is Done, or Not if the token saw somebody still inside.
pub fn unhide<N: Naming>(
    locked: &mut Locked<N>,
    tokens: &mut Vec<Option<Token>>,
    key: Key,
) -> TreeReply
    requires { AreTokensOf N.table tokens.old.items }
    ensures tokens { AreTokensOf N.table tokens.new.items }
    ensures told { DoneOr
        (IsUnhidden locked.old tokens.old.items locked.new tokens.new.items key)
        (IsHiddenStill locked.old tokens.old.items locked.new tokens.new.items key)
        (λ why. UnhidingRefused locked.old tokens.old.items key why
        × (locked.new ≡ locked.old) × (tokens.new.items ≡ tokens.old.items)) result }
{
    let Some(token) = take(tokens, key) else {
        return TreeReply::Refused(match locked.state().stat(key) {
            Ok(_) => Refusal::Invalid,
            Err(refusal) => refusal,
        });
    };
    match token.into_hidden() {
        Ok(hidden) => {
            locked.show(hidden).release();
            TreeReply::Done
        }
        Err(token) => {
            put(tokens, token);
            TreeReply::Not
        }
    }
}
