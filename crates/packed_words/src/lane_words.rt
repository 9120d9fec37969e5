//! Products of all lanes of a word at once, at levels 0 to 3.

ghost use Rattle.std.specs.Prelude.{◌≡◌, ℕ, ◌+◌, ◌*◌, ◌<◌, ◌≤◌};
ghost use Rattle.tower_laws.specs.Tower.{generator, mul};
ghost use Rattle.packed_words.specs.LaneWords.{high_at, low_at, AllAtPairs, AreCrossed, AreProducts, IsCarried};
ghost use Rattle.packed_words.specs.Packing.{element_at, per_word};

use crate::transpose::CLEAR;

/// The low halves of the elements of level `level + 1`, with 0 in place of the high ones.
#[inline(always)]
fn lows(level: u32, word: u128) -> u128
    requires { level < 7 }
    ensures low { AllAtPairs level (λ q. low_at level result q ≡ low_at level word q) }
    ensures high { AllAtPairs level (λ q. high_at level result q ≡ 0) }
{
    word & CLEAR[level as usize]
}

/// The high halves, put in place of the low ones, with 0 in their own place.
#[inline(always)]
fn highs(level: u32, word: u128) -> u128
    requires { level < 7 }
    ensures low { AllAtPairs level (λ q. low_at level result q ≡ high_at level word q) }
    ensures high { AllAtPairs level (λ q. high_at level result q ≡ 0) }
{
    word >> (1u32 << level) & CLEAR[level as usize]
}

/// Elements of level `level + 1` from their halves.
#[inline(always)]
fn joined(level: u32, high: u128, low: u128) -> u128
    requires is_below { level < 7 }
    requires high_alone { AllAtPairs level (λ q. high_at level high q ≡ 0) }
    requires low_alone { AllAtPairs level (λ q. high_at level low q ≡ 0) }
    ensures low { AllAtPairs level (λ q. low_at level result q ≡ low_at level low q) }
    ensures high { AllAtPairs level (λ q. high_at level result q ≡ low_at level high q) }
{
    high << (1u32 << level) ^ low
}

/// The elements of level `level + 1` with their halves exchanged.
#[inline(always)]
fn crossed(level: u32, word: u128) -> u128
    requires { level < 7 }
    ensures low { AllAtPairs level (λ q. low_at level result q ≡ high_at level word q) }
    ensures high { AllAtPairs level (λ q. high_at level result q ≡ low_at level word q) }
{
    joined(level, lows(level, word), highs(level, word))
}

/// The products of the elements of level `level + 1` with the last generator, of those of the high
/// halves with the one of level `level`.
#[inline(always)]
fn raised(level: u32, word: u128, carried: u128) -> u128
    requires is_below { level < 7 }
    requires carried { AllAtPairs level (λ q. low_at level carried q ≡ mul (high_at level word q) (generator level)) }
    requires alone { AllAtPairs level (λ q. high_at level carried q ≡ 0) }
    ensures { (q : ℕ) → q < per_word (level + 1) → element_at (level + 1) result q ≡ mul (element_at (level + 1) word q) (generator (level + 1)) }
{
    joined(level, lows(level, word) ^ carried, highs(level, word))
}

/// The high halves of the elements of level 1 times the last generator of level 0, in place of the low
/// ones; the same at levels 2 and 3.
#[inline(always)]
fn carried_0(word: u128) -> u128
    ensures { IsCarried 0 word result }
{
    highs(0, word)
}

#[inline(always)]
fn carried_1(word: u128) -> u128
    ensures { IsCarried 1 word result }
{
    let high = highs(1, word);
    raised(0, high, carried_0(high))
}

#[inline(always)]
fn carried_2(word: u128) -> u128
    ensures { IsCarried 2 word result }
{
    let high = highs(2, word);
    raised(1, high, carried_1(high))
}

/// The products at level `level + 1` from those at the level: `straight` of the halves in their
/// places, `crossed` with the halves of one factor exchanged, `carried` of the high halves' products
/// with the last generator.
#[inline(always)]
fn combined(level: u32, straight: u128, crossed: u128, carried: u128) -> u128
    requires is_below { level < 7 }
    requires carried { IsCarried level straight carried }
    ensures { (a b : ℕ) → AreProducts level a b straight → AreCrossed level a b crossed → AreProducts (level + 1) a b result }
{
    joined(
        level,
        lows(level, crossed) ^ highs(level, crossed) ^ carried,
        lows(level, straight) ^ highs(level, straight),
    )
}

#[inline(always)]
fn products_1(a: u128, b: u128) -> u128
    ensures { AreProducts 1 a b result }
{
    let straight = a & b;
    combined(0, straight, a & crossed(0, b), carried_0(straight))
}

#[inline(always)]
fn products_2(a: u128, b: u128) -> u128
    ensures { AreProducts 2 a b result }
{
    let straight = products_1(a, b);
    combined(
        1,
        straight,
        products_1(a, crossed(1, b)),
        carried_1(straight),
    )
}

#[inline(always)]
fn products_3(a: u128, b: u128) -> u128
    ensures { AreProducts 3 a b result }
{
    let straight = products_2(a, b);
    combined(
        2,
        straight,
        products_2(a, crossed(2, b)),
        carried_2(straight),
    )
}

/// The products of the elements of two words at a level that is small enough for this.
#[inline(always)]
pub(crate) fn products_in_words(level: u32, a: u128, b: u128) -> u128
    requires { level ≤ 3 }
    ensures { AreProducts level a b result }
{
    match level {
        0 => a & b,
        1 => products_1(a, b),
        2 => products_2(a, b),
        _ => products_3(a, b),
    }
}
