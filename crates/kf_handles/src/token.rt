//! The token of a hidden file. It can show the file again, once it has seen that nobody is inside.
ghost use Rattle.std.specs.Prelude.{◌≡◌, true, false, MatchResult};
ghost use Rattle.kf_core.specs.declared.caller.Phase.TheVariants as phase_of;
ghost use Rattle.kf_words.specs.Callers.{IsSameSeat};
ghost use Rattle.kf_handles.specs.Hiding.{SawNobody, SawSomebody, HasLookedAgain};

use kf_core::Key;
use kf_words::{Hidden, Hiding};
use std::marker::Model;
use std::mem::ManuallyDrop;

/// What a token has seen.
pub enum Stage {
    /// Somebody may be inside.
    Hiding(Hiding),
    /// The token has seen that nobody is inside.
    Hidden(Hidden),
}

/// A token, which can show a hidden file again.
pub struct Token {
    stage: Stage,
}

impl Model for Token {
    ghost use Rattle.kf_words.specs.Callers.{Handle};

    ghost Value = { Handle };

    ghost use Rattle.kf_handles.specs.Stages.{handle_of, IsStage};

    ghost view = { λ t. handle_of t.stage };

    ghost invariant = { λ t. IsStage t.stage };
}

impl Token {
    /// The token of a file that was just hidden.
    pub fn new(hiding: Hiding) -> Token
        ensures { result ≡ hiding }
    {
        let _ = hiding.key();
        Token {
            stage: Stage::Hiding(hiding),
        }
    }

    /// The key of the file.
    pub fn key(&self) -> Key
        ensures { result ≡ self.now.key }
    {
        match &self.stage {
            Stage::Hiding(hiding) => hiding.key(),
            Stage::Hidden(hidden) => hidden.key(),
        }
    }

    /// Whether the token has not yet seen that nobody is inside.
    pub fn is_hiding(&self) -> bool
        ensures hiding { result ≡ true → self.now.phase ≡ phase_of.Hiding }
        ensures hidden { result ≡ false → SawNobody self.now }
    {
        match &self.stage {
            Stage::Hiding(hiding) => {
                let _ = hiding.key();
                true
            }
            Stage::Hidden(hidden) => {
                let _ = hidden.key();
                false
            }
        }
    }

    /// Looks whether anybody is inside, unless the token has already seen that nobody is. Returns the token,
    /// as the error if it saw somebody.
    pub fn look(self) -> Result<Token, Token>
        ensures looked { MatchResult result (λ saw. HasLookedAgain self saw)
            (λ back. HasLookedAgain self back) }
        ensures saw { MatchResult result (λ saw. SawNobody saw) (λ back. SawSomebody back) }
        ensures same { MatchResult result (λ saw. IsSameSeat self saw) (λ back. IsSameSeat self back) }
    {
        let Token { stage } = self;
        match stage {
            Stage::Hidden(hidden) => Ok(Token {
                stage: Stage::Hidden(hidden),
            }),
            Stage::Hiding(hiding) => match hiding.look() {
                Ok(hidden) => Ok(Token {
                    stage: Stage::Hidden(hidden),
                }),
                Err(hiding) => Err(Token {
                    stage: Stage::Hiding(hiding),
                }),
            },
        }
    }

    /// Turns the token into a `Hidden`, which can show the file again. First it looks, as `look` does. If it
    /// saw somebody inside, it returns the token.
    pub fn into_hidden(self) -> Result<Hidden, Token>
        ensures same { MatchResult result (λ hidden. IsSameSeat self hidden) (λ back. IsSameSeat self back) }
        ensures looked { MatchResult result (λ hidden. HasLookedAgain self hidden)
            (λ back. HasLookedAgain self back) }
        ensures saw { MatchResult result (λ hidden. SawNobody hidden) (λ back. SawSomebody back) }
    {
        let Token { stage } = self;
        match stage {
            Stage::Hidden(hidden) => Ok(hidden),
            Stage::Hiding(hiding) => match hiding.look() {
                Ok(hidden) => Ok(hidden),
                Err(hiding) => Err(Token {
                    stage: Stage::Hiding(hiding),
                }),
            },
        }
    }
}

/// Shows the key again, in its word, and releases the hold. If somebody is inside, the file stays hidden; but
/// a tree that has such a file is not dropped.
impl Drop for Token {
    fn drop(self) {
        match self.into_hidden() {
            Ok(hidden) => hidden.show().release(),
            Err(token) => {
                let _left = unsafe { ManuallyDrop::new_unchecked(token) };
            }
        }
    }
}
