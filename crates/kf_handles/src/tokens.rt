//! The tokens of a tree's hidden files, each at its file's slot. While a token is there, the slot is not
//! reused, so the slot gets no second token.
ghost use Rattle.std.specs.Prelude.{◌≡◌, ◌<◌, IfErr, IfNone, IfOk, IfSome, None, Some, true, false, length, slice_set, replicate};
ghost use Rattle.kf_words.specs.Callers.{Handle};
ghost use Rattle.kf_handles.specs.Hiding.{IsTokenOf, IsSeen, HasHiding, HasNoHiding, SawNobody, SawSomebody};

use crate::token::Token;
use kf_core::{Key, Refusal};
use std::alloc::Global;

/// A list of this many slots without tokens.
pub fn no_tokens(alloc: Global, slots: u32) -> Result<Vec<Option<Token>>, Refusal>
    ensures none { IfOk result (λ tokens. tokens.items ≡ replicate slots None) }
    ensures refused { IfErr result (λ why. why ≡ Refusal.NoMemory) }
{
    let Ok(mut tokens) = Vec::with_capacity(alloc, slots as usize) else {
        return Err(Refusal::NoMemory);
    };
    for _ in 0..slots {
        tokens.push_reserved(None);
    }
    Ok(tokens)
}

/// Takes the token of a key out, if there is one.
pub fn take(tokens: &mut Vec<Option<Token>>, key: Key) -> Option<Token>
    ensures found { IfSome result (λ token. IsTokenOf tokens.old.items key token
        × (key.slot < length tokens.old.items)
        × (tokens.new.items ≡ slice_set tokens.old.items key.slot None)) }
    ensures none { result ≡ None → tokens.new.items ≡ tokens.old.items }
    ensures nothing { IfNone result ((token : Handle) → ¬ IsTokenOf tokens.old.items key token) }
{
    let place = tokens.get_mut(key.slot as usize)?;
    match place {
        Some(token) if token.key() == key => place.take(),
        _ => None,
    }
}

/// Puts a token into its slot.
pub fn put(tokens: &mut Vec<Option<Token>>, token: Token)
    requires { token.key.slot < length tokens.old.items }
    ensures { tokens.new.items ≡ slice_set tokens.old.items token.key.slot (Some token) }
{
    let slot = token.key().slot as usize;
    tokens[slot] = Some(token);
}

/// Looks whether anybody is inside the file of a token, and puts the token into its slot. Returns true if the
/// token has seen that nobody is inside.
pub fn look_at(tokens: &mut Vec<Option<Token>>, token: Token) -> bool
    requires { token.key.slot < length tokens.old.items }
    ensures nobody { result ≡ true → IsSeen SawNobody tokens.old.items tokens.new.items token }
    ensures somebody { result ≡ false → IsSeen SawSomebody tokens.old.items tokens.new.items token }
{
    match token.look() {
        Ok(token) => {
            put(tokens, token);
            true
        }
        Err(token) => {
            put(tokens, token);
            false
        }
    }
}

/// Whether somebody may be inside a hidden file.
pub fn has_hiding(tokens: &[Option<Token>]) -> bool
    ensures hiding { result ≡ true → HasHiding tokens.now }
    ensures none { result ≡ false → HasNoHiding tokens.now }
{
    for place in tokens {
        match place {
            Some(token) => {
                if token.is_hiding() {
                    return true;
                }
            }
            None => {}
        }
    }
    false
}
