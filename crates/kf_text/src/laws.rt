//! The law that an emitted number is read back.
ghost use Rattle.std.specs.Prelude.{◌≡◌, ℕ, ℤ, ◌<◌, ◌≤◌, ◌≤ℤ◌, ◌^◌, FitsSigned, [], ◌∷◌, ◌++◌, codes, Result, Ok};
ghost use Rattle.std.specs.Int.{w64};
ghost use Rattle.kf_text.specs.declared.base.Base.TheVariants as base;
ghost use Rattle.kf_text.specs.declared.not_read.NotRead.{NotRead};
ghost use Rattle.kf_text.specs.declared.part.Part.TheVariants.{Hex, Newline, Number, Signed};
ghost use Rattle.kf_text.specs.Readings.{line, ReadSigned, ReadUnsigned, ReadUnsignedIn};
ghost use Rattle.kf_text.specs.Texts.{text_of};

/// A law: a number that is emitted on its own line is read back from this line unchanged, if it is within the
/// bounds of the read. This is so in decimal, in base 16, and in base 16 with a `0x` in front, which
/// `ByPrefix` reads. The function does nothing.
pub fn emitted_is_read()
    ensures unsigned { (number most : ℕ) (read : Result ℕ NotRead) → number < 2 ^ 64 → number ≤ most
        → ReadUnsigned most (line (text_of (Number number ∷ Newline ∷ []))) read → read ≡ Ok number }
    ensures signed { (number least most : ℤ) (read : Result ℤ NotRead) → FitsSigned w64 number
        → least ≤ℤ number → number ≤ℤ most
        → ReadSigned least most (line (text_of (Signed number ∷ Newline ∷ []))) read → read ≡ Ok number }
    ensures hex { (number most : ℕ) (read : Result ℕ NotRead) → number < 2 ^ 64 → number ≤ most
        → ReadUnsignedIn base.Hex most (line (text_of (Hex number ∷ Newline ∷ []))) read → read ≡ Ok number }
    ensures prefixed { (number most : ℕ) (read : Result ℕ NotRead) → number < 2 ^ 64 → number ≤ most
        → ReadUnsignedIn base.ByPrefix most (line (codes "0x" ++ text_of (Hex number ∷ Newline ∷ []))) read
        → read ≡ Ok number }
{}
