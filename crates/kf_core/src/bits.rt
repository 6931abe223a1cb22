//! 64-bit words as sets of bit places, for searches that start at the lowest place.

ghost use Rattle.std.specs.Prelude.{ℕ, ◌≡◌, ◌≢◌, ◌<◌, ◌+◌, ◌⊎◌};
ghost use Rattle.std.specs.Int.{bit_at};

/// The place of the lowest set bit, 0 to 63.
///
/// Condition: at least one bit is set.
#[inline(always)]
pub fn lowest_bit(word: u64) -> u32
    requires some { word ≢ 0 }
    ensures bound { result < 64 }
    ensures set { bit_at word result ≡ 1 }
    ensures below { (bit : ℕ) → bit < result → bit_at word bit ≡ 0 }
{
    word.trailing_zeros()
}

/// The word with the bit at this place cleared.
///
/// Condition: the place is at most 63.
#[inline(always)]
pub fn without_bit(word: u64, place: u32) -> u64
    requires bound { place < 64 }
    ensures cleared { bit_at result place ≡ 0 }
    ensures smaller { bit_at word place ≡ 1 → result < word }
    ensures kept { (bit : ℕ) → bit < 64 → bit ≢ place → bit_at result bit ≡ bit_at word bit }
    ensures no_more { (bit : ℕ) → bit_at result bit ≡ 1 → bit_at word bit ≡ 1 }
{
    word & !(1 << place)
}

/// The word with its lowest `count` bits set. The other bits stay as they are.
///
/// Condition: `count` is at most 63.
#[inline(always)]
pub fn with_low_bits(word: u64, count: u32) -> u64
    requires bound { count < 64 }
    ensures set { (bit : ℕ) → bit < count → bit_at result bit ≡ 1 }
    ensures kept { (bit : ℕ) → bit_at word bit ≡ 1 → bit_at result bit ≡ 1 }
    ensures no_more { (bit : ℕ) → bit_at result bit ≡ 1 → (bit < count) ⊎ (bit_at word bit ≡ 1) }
{
    word | ((1 << count) - 1)
}

/// The word with every bit flipped.
#[inline(always)]
pub fn other_bits(word: u64) -> u64
    ensures flipped { (bit : ℕ) → bit < 64 → bit_at result bit + bit_at word bit ≡ 1 }
{
    !word
}
