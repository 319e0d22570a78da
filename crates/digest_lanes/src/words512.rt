//! Words of 64 bits side by side, one for each text.

ghost use Rattle.std.specs.Prelude.{◌≡◌, ℕ, ◌/◌, ◌^◌, ◌<◌, slice_index};
ghost use Rattle.std.specs.Int.{w64, rotate_right};
ghost use Rattle.std.specs.Int.Bits.{bit_and, bit_xor};
ghost use Rattle.sha2.specs.Sha512.{add64, ch};

use std::simd::{u64x2, u64x4};

/// A vector of words: what it does, it does in each lane.
pub(crate) trait Words: Copy + Drop {
    /// How many lanes there are.
    ghost lanes: { ℕ };

    /// The word in a lane.
    ghost word: { Self → ℕ → ℕ };

    /// The same word in each lane.
    fn splat(all: u64) -> Self
        ensures { (j : ℕ) → j < lanes → word result j ≡ all };

    fn add(self, other: Self) -> Self
        ensures { (j : ℕ) → j < lanes → word result j ≡ add64 (word self j) (word other j) };

    fn xor(self, other: Self) -> Self
        ensures { (j : ℕ) → j < lanes → word result j ≡ bit_xor (word self j) (word other j) };

    fn and(self, other: Self) -> Self
        ensures { (j : ℕ) → j < lanes → word result j ≡ bit_and (word self j) (word other j) };

    fn shift_right(self, n: u64) -> Self
        requires { n < 64 }
        ensures { (j : ℕ) → j < lanes → word result j ≡ word self j / 2 ^ n };

    fn rotate_right(self, n: u64) -> Self
        requires some { 0 < n }
        requires below { n < 64 }
        ensures { (j : ℕ) → j < lanes → word result j ≡ rotate_right w64 (word self j) n };

    /// The standard's Ch, by one operation fewer than in its form.
    fn ch(self, y: Self, z: Self) -> Self
        ensures { (j : ℕ) → j < lanes → word result j ≡ ch (word self j) (word y j) (word z j) };
}

impl Words for u64x2 {
    ghost lanes = { 2 };

    ghost word = { λ words j. slice_index words j };

    #[inline(always)]
    fn splat(all: u64) -> u64x2 {
        u64x2::splat(all)
    }

    #[inline(always)]
    fn add(self, other: u64x2) -> u64x2 {
        self + other
    }

    #[inline(always)]
    fn xor(self, other: u64x2) -> u64x2 {
        self ^ other
    }

    #[inline(always)]
    fn and(self, other: u64x2) -> u64x2 {
        self & other
    }

    #[inline(always)]
    fn shift_right(self, n: u64) -> u64x2 {
        self >> u64x2::splat(n)
    }

    #[inline(always)]
    fn rotate_right(self, n: u64) -> u64x2 {
        (self >> u64x2::splat(n)) | (self << u64x2::splat(64 - n))
    }

    #[inline(always)]
    fn ch(self, y: u64x2, z: u64x2) -> u64x2 {
        z.xor(self.and(y.xor(z)))
    }
}

impl Words for u64x4 {
    ghost lanes = { 4 };

    ghost word = { λ words j. slice_index words j };

    #[inline(always)]
    fn splat(all: u64) -> u64x4 {
        u64x4::splat(all)
    }

    #[inline(always)]
    fn add(self, other: u64x4) -> u64x4 {
        self + other
    }

    #[inline(always)]
    fn xor(self, other: u64x4) -> u64x4 {
        self ^ other
    }

    #[inline(always)]
    fn and(self, other: u64x4) -> u64x4 {
        self & other
    }

    #[inline(always)]
    fn shift_right(self, n: u64) -> u64x4 {
        self >> u64x4::splat(n)
    }

    #[inline(always)]
    fn rotate_right(self, n: u64) -> u64x4 {
        (self >> u64x4::splat(n)) | (self << u64x4::splat(64 - n))
    }

    #[inline(always)]
    fn ch(self, y: u64x4, z: u64x4) -> u64x4 {
        z.xor(self.and(y.xor(z)))
    }
}

impl Words for u64 {
    ghost lanes = { 1 };

    ghost word = { λ word j. word };

    #[inline(always)]
    fn splat(all: u64) -> u64 {
        all
    }

    #[inline(always)]
    fn add(self, other: u64) -> u64 {
        self.wrapping_add(other)
    }

    #[inline(always)]
    fn xor(self, other: u64) -> u64 {
        self ^ other
    }

    #[inline(always)]
    fn and(self, other: u64) -> u64 {
        self & other
    }

    #[inline(always)]
    fn shift_right(self, n: u64) -> u64 {
        self >> n
    }

    #[inline(always)]
    fn rotate_right(self, n: u64) -> u64 {
        u64::rotate_right(self, n as u32)
    }

    #[inline(always)]
    fn ch(self, y: u64, z: u64) -> u64 {
        z ^ (self & (y ^ z))
    }
}
