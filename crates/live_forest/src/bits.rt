//! A set of numbers below 128, as the bits of a number.
ghost use Rattle.std.specs.Prelude.{◌≡◌, ◌≢◌, ℕ, suc, ◌+◌, ◌*◌, ◌/◌, ◌%◌, ◌^◌, ◌<◌, ◌≤◌, true, false};
ghost use Rattle.forest_place.specs.Forest.{InForest};
ghost use Rattle.live_forest.specs.Sets.{is_bit, has_part, rank as rank_of, IsWith, IsWithout};

// The set of all numbers. Of entries that were added of late most are held, so most of the pages that change are full, and nothing has to be counted.
const ALL: u128 = u128::MAX;

/// Whether the set has a number.
pub(crate) fn has(bits: u128, number: u64) -> bool
    requires { number < 128 }
    ensures { result ≡ is_bit bits number }
{
    (bits >> number) % 2 == 1
}

// The bits of the 64 numbers among which one is.
fn half_of(bits: u128, number: u64) -> u64
    requires { number < 128 }
    ensures { result ≡ bits / 2 ^ (number / 64 * 64) % 2 ^ 64 }
{
    if number < 64 {
        (bits % (1 << 64)) as u64
    } else {
        (bits >> 64) as u64
    }
}

// The bits of the 2^row numbers from off * 2^row on.
fn bits_of(bits: u128, row: u8, off: u64) -> u64
    requires row { row < 7 }
    requires within { InForest 128 row off }
    ensures { result ≡ bits / 2 ^ (off * 2 ^ row) % 2 ^ 2 ^ row }
{
    let start = off << row;
    let width: u32 = 1 << row;
    (half_of(bits, start) >> (start % 64)) & (u64::MAX >> (64 - width))
}

/// Whether the set has one of the 2^row numbers from off * 2^row on.
pub(crate) fn has_some(bits: u128, row: u8, off: u64) -> bool
    requires row { row ≤ 7 }
    requires within { InForest 128 row off }
    ensures { result ≡ has_part (is_bit bits) row off }
{
    if bits == ALL {
        return true;
    }
    if row == 7 {
        return bits != 0;
    }
    bits_of(bits, row, off) != 0
}

/// Whether the set has some of the numbers in the left half of a part of the row above, and in the right one.
pub(crate) fn has_in_halves(bits: u128, row: u8, off: u64) -> (bool, bool)
    requires row { row < 7 }
    requires within { InForest 128 (suc row) off }
    ensures left { result.0 ≡ has_part (is_bit bits) row (2 * off) }
    ensures right { result.1 ≡ has_part (is_bit bits) row (2 * off + 1) }
{
    if bits == ALL {
        return (true, true);
    }
    if row == 6 {
        return (bits % (1 << 64) != 0, bits >> 64 != 0);
    }
    let width: u32 = 1 << row;
    let both = bits_of(bits, row + 1, off);
    (both % (1 << width) != 0, both >> width != 0)
}

// How many numbers below one a set of numbers below 64 has.
fn count_below(half: u64, number: u64) -> usize
    requires { number < 64 }
    ensures { result ≡ rank_of (is_bit half) number }
{
    (half & ((1 << number) - 1)).count_ones() as usize
}

/// How many numbers below one the set has.
pub(crate) fn rank(bits: u128, number: u64) -> usize
    requires { number < 128 }
    ensures { result ≡ rank_of (is_bit bits) number }
{
    if bits == ALL {
        return number as usize;
    }
    let low = (bits % (1 << 64)) as u64;
    // It is counted in any case: of numbers all over, no processor guesses in which half the next one is.
    let before = if number < 64 {
        0
    } else {
        low.count_ones() as usize
    };
    before + count_below(half_of(bits, number), number % 64)
}

/// The set with a number.
pub(crate) fn with(bits: u128, number: u64) -> u128
    requires { number < 128 }
    ensures { IsWith (is_bit bits) (is_bit result) number }
{
    bits | 1 << number
}

/// The set without a number.
pub(crate) fn without(bits: u128, number: u64) -> u128
    requires { number < 128 }
    ensures { IsWithout (is_bit bits) (is_bit result) number }
{
    bits & !(1 << number)
}
