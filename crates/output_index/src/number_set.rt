//! A set of numbers below 256.
ghost use Rattle.std.specs.Prelude.{◌≡◌, ◌≢◌, ℕ, ◌<◌, ◌≤◌, true, false, set, take, length, get_or};
ghost use Rattle.uo_base.specs.Bits.{is_bit, rank, IsWith, IsWithout};
ghost use Rattle.output_index.specs.NumberSet.{count};

use std::marker::Model;

/// For each number below 256 a bit, which tells whether the number is in the set.
#[derive(Drop)]
pub(crate) struct NumberSet {
    words: [u64; 4],
}

impl Model for NumberSet {
    ghost use Rattle.std.specs.Prelude.{◌≡◌, List, Bool, length};
    ghost use Rattle.output_index.specs.NumberSet.{flags_of};

    ghost Value = { List Bool };

    ghost view = { λ s. flags_of s.words };

    ghost invariant = { λ s. length s.words ≡ 4 };
}

impl NumberSet {
    pub fn new() -> Self
        ensures len { length result ≡ 256 }
        ensures none { (i : ℕ) → get_or result i false ≡ false }
    {
        NumberSet { words: [0; 4] }
    }

    pub fn has(&self, number: u64) -> bool
        requires { number < 256 }
        ensures { result ≡ get_or self.now number false }
    {
        (self.words[(number / 64) as usize] >> (number % 64)) % 2 == 1
    }

    /// How many numbers below one are in the set.
    pub fn count_below(&self, number: u64) -> usize
        requires { number < 256 }
        ensures { result ≡ count (take number self.now) }
    {
        let at = (number / 64) as usize;
        let mut found = bits_below(self.words[at], number % 64);
        for i in 0..at {
            found += bits_of(self.words[i]);
        }
        found
    }

    pub fn put(&mut self, number: u64)
        requires { number < 256 }
        ensures { self.new ≡ set self.old number true }
    {
        let at = (number / 64) as usize;
        self.words[at] = with(self.words[at], number % 64);
    }

    pub fn take(&mut self, number: u64)
        requires { number < 256 }
        ensures { self.new ≡ set self.old number false }
    {
        let at = (number / 64) as usize;
        self.words[at] = without(self.words[at], number % 64);
    }
}

// How many bits of a word are set.
fn bits_of(word: u64) -> usize
    ensures is { result ≡ rank (is_bit word) 64 }
    ensures few { result ≤ 64 }
{
    word.count_ones() as usize
}

// How many bits of a word below one are set.
fn bits_below(word: u64, bit: u64) -> usize
    requires { bit < 64 }
    ensures is { result ≡ rank (is_bit word) bit }
    ensures few { result ≤ 64 }
{
    (word & ((1 << bit) - 1)).count_ones() as usize
}

// The word with a bit.
fn with(word: u64, bit: u64) -> u64
    requires { bit < 64 }
    ensures { IsWith (is_bit word) (is_bit result) bit }
{
    word | 1 << bit
}

// The word without a bit.
fn without(word: u64, bit: u64) -> u64
    requires { bit < 64 }
    ensures { IsWithout (is_bit word) (is_bit result) bit }
{
    word & !(1 << bit)
}
