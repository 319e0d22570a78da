//! The one block of a text of 64 bytes, four or two at a time, and the digests of four or two states.

ghost use Rattle.std.specs.Prelude.{◌≡◌, ℕ, ◌+◌, ◌*◌, ◌^◌, ◌<◌, ◌≤◌, ◌++◌, List, [], length, take, slice_index, slice_index_or};
ghost use Rattle.std.specs.Int.{w64, to_be_bytes};
ghost use Rattle.sha2.specs.Sha512.{digest_bytes, first_words, initial_hash_512_256, padded_message, sha512_256, word_at};
ghost use Rattle.digest_lanes.specs.Lanes.{lane, lane_of};

use crate::block512::compress;
use crate::words512::Words;
use std::simd::{u64x2, u64x4};

// The word at byte `i` of a text, and what the caller can not see of a text in an array: its length.
#[inline(always)]
fn load(text: &[u8; 32], i: usize) -> u64
    requires { i + 8 ≤ 32 }
    ensures word { result ≡ word_at text.now i }
    ensures long { length text.now ≡ 32 }
{
    u64::from_be_bytes([
        text[i],
        text[i + 1],
        text[i + 2],
        text[i + 3],
        text[i + 4],
        text[i + 5],
        text[i + 6],
        text[i + 7],
    ])
}

#[inline(always)]
fn load_two(texts: &[[u8; 32]; 2], i: usize) -> u64x2
    requires { i + 8 ≤ 32 }
    ensures word { (j : ℕ) → j < 2 → slice_index result j ≡ word_at (slice_index_or texts.now j []) i }
    ensures long { (j : ℕ) → j < 2 → length (slice_index_or texts.now j []) ≡ 32 }
{
    let first = load(&texts[0], i);
    let second = load(&texts[1], i);
    u64x2::from_array([first, second])
}

#[inline(always)]
fn load_four(texts: &[[u8; 32]; 4], i: usize) -> u64x4
    requires { i + 8 ≤ 32 }
    ensures word { (j : ℕ) → j < 4 → slice_index result j ≡ word_at (slice_index_or texts.now j []) i }
    ensures long { (j : ℕ) → j < 4 → length (slice_index_or texts.now j []) ≡ 32 }
{
    let first = load(&texts[0], i);
    let second = load(&texts[1], i);
    let third = load(&texts[2], i);
    let fourth = load(&texts[3], i);
    u64x4::from_array([first, second, third, fourth])
}

// The words of half of a text.
#[inline(always)]
fn half_of_one(text: &[u8; 32]) -> [u64; 4]
    ensures words { result ≡ first_words text.now 4 }
    ensures long { length text.now ≡ 32 }
{
    let first = load(text, 0);
    let second = load(text, 8);
    let third = load(text, 16);
    let fourth = load(text, 24);
    [first, second, third, fourth]
}

// The words of two halves of texts.
#[inline(always)]
fn half_of_two(texts: &[[u8; 32]; 2]) -> [u64x2; 4]
    ensures words { (j : ℕ) → j < 2 → lane j result ≡ first_words (slice_index_or texts.now j []) 4 }
    ensures long { (j : ℕ) → j < 2 → length (slice_index_or texts.now j []) ≡ 32 }
{
    let first = load_two(texts, 0);
    let second = load_two(texts, 8);
    let third = load_two(texts, 16);
    let fourth = load_two(texts, 24);
    [first, second, third, fourth]
}

// The words of four halves of texts.
#[inline(always)]
fn half_of_four(texts: &[[u8; 32]; 4]) -> [u64x4; 4]
    ensures words { (j : ℕ) → j < 4 → lane j result ≡ first_words (slice_index_or texts.now j []) 4 }
    ensures long { (j : ℕ) → j < 4 → length (slice_index_or texts.now j []) ≡ 32 }
{
    let first = load_four(texts, 0);
    let second = load_four(texts, 8);
    let third = load_four(texts, 16);
    let fourth = load_four(texts, 24);
    [first, second, third, fourth]
}

// The words of the one block of each pair: the pair, the padding's bit, and the length of 512 bits.
#[inline(always)]
fn pair_words<W: Words>(left: [W; 4], right: [W; 4]) -> [W; 16]
    ensures { (j : ℕ) → j < W.lanes → (l r : List ℕ) → length l ≡ 32 → length r ≡ 32 → lane_of W.word j left ≡ first_words l 4
        → lane_of W.word j right ≡ first_words r 4 → lane_of W.word j result ≡ first_words (padded_message (l ++ r)) 16 }
{
    let [l0, l1, l2, l3] = left;
    let [r0, r1, r2, r3] = right;
    let bit = W::splat(0x8000_0000_0000_0000);
    let none = W::splat(0);
    let bits = W::splat(512);
    [
        l0, l1, l2, l3, r0, r1, r2, r3, bit, none, none, none, none, none, none, bits,
    ]
}

#[inline(always)]
pub(crate) fn initial_state<W: Words>() -> [W; 8]
    ensures { (j : ℕ) → j < W.lanes → lane_of W.word j result ≡ initial_hash_512_256 }
{
    [
        W::splat(0x2231_2194_fc2b_f72c),
        W::splat(0x9f55_5fa3_c84c_64c2),
        W::splat(0x2393_b86b_6f53_b151),
        W::splat(0x9638_7719_5940_eabd),
        W::splat(0x9628_3ee2_a88e_ffe3),
        W::splat(0xbe5e_1e25_5386_3992),
        W::splat(0x2b01_99fc_2c85_b8aa),
        W::splat(0x0eb7_2ddc_81c5_2ca2),
    ]
}

#[inline(always)]
fn digest(a: u64, b: u64, c: u64, d: u64) -> [u8; 32]
    ensures { result ≡ (((to_be_bytes w64 a ++ to_be_bytes w64 b) ++ to_be_bytes w64 c) ++ to_be_bytes w64 d) }
{
    let [a0, a1, a2, a3, a4, a5, a6, a7] = a.to_be_bytes();
    let [b0, b1, b2, b3, b4, b5, b6, b7] = b.to_be_bytes();
    let [c0, c1, c2, c3, c4, c5, c6, c7] = c.to_be_bytes();
    let [d0, d1, d2, d3, d4, d5, d6, d7] = d.to_be_bytes();
    [
        a0, a1, a2, a3, a4, a5, a6, a7, b0, b1, b2, b3, b4, b5, b6, b7, c0, c1, c2, c3, c4, c5, c6,
        c7, d0, d1, d2, d3, d4, d5, d6, d7,
    ]
}

// The leftmost 256 bits of each state.
#[inline(always)]
pub(crate) fn digests_of_two(state: [u64x2; 8]) -> [[u8; 32]; 2]
    ensures { (j : ℕ) → j < 2 → slice_index_or result j [] ≡ take 32 (digest_bytes (lane j state) 8) }
{
    let [a0, a1] = state[0].to_array();
    let [b0, b1] = state[1].to_array();
    let [c0, c1] = state[2].to_array();
    let [d0, d1] = state[3].to_array();
    let first = digest(a0, b0, c0, d0);
    let second = digest(a1, b1, c1, d1);
    [first, second]
}

// The leftmost 256 bits of each state.
#[inline(always)]
pub(crate) fn digests_of_four(state: [u64x4; 8]) -> [[u8; 32]; 4]
    ensures { (j : ℕ) → j < 4 → slice_index_or result j [] ≡ take 32 (digest_bytes (lane j state) 8) }
{
    let [a0, a1, a2, a3] = state[0].to_array();
    let [b0, b1, b2, b3] = state[1].to_array();
    let [c0, c1, c2, c3] = state[2].to_array();
    let [d0, d1, d2, d3] = state[3].to_array();
    let first = digest(a0, b0, c0, d0);
    let second = digest(a1, b1, c1, d1);
    let third = digest(a2, b2, c2, d2);
    let fourth = digest(a3, b3, c3, d3);
    [first, second, third, fourth]
}

/// SHA-512/256 of a pair of digests, as one text of 64 bytes.
pub fn pair_alone(left: &[u8; 32], right: &[u8; 32]) -> [u8; 32]
    ensures { result ≡ sha512_256 (left.now ++ right.now) }
{
    let near = half_of_one(left);
    let far = half_of_one(right);
    let words = pair_words(near, far);
    let state: [u64; 8] = compress(initial_state(), words);
    digest(state[0], state[1], state[2], state[3])
}

/// SHA-512/256 of each of two pairs of digests, as one text of 64 bytes.
pub fn pairs_of_two(left: &[[u8; 32]; 2], right: &[[u8; 32]; 2]) -> [[u8; 32]; 2]
    ensures { (j : ℕ) → j < 2 → slice_index_or result j [] ≡ sha512_256 (slice_index_or left.now j [] ++ slice_index_or right.now j []) }
{
    let near = half_of_two(left);
    let far = half_of_two(right);
    let words = pair_words(near, far);
    let state = compress(initial_state(), words);
    digests_of_two(state)
}

/// SHA-512/256 of each of four pairs of digests, as one text of 64 bytes.
pub fn pairs_of_four(left: &[[u8; 32]; 4], right: &[[u8; 32]; 4]) -> [[u8; 32]; 4]
    ensures { (j : ℕ) → j < 4 → slice_index_or result j [] ≡ sha512_256 (slice_index_or left.now j [] ++ slice_index_or right.now j []) }
{
    let near = half_of_four(left);
    let far = half_of_four(right);
    let words = pair_words(near, far);
    let state = compress(initial_state(), words);
    digests_of_four(state)
}
