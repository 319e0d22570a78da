//! SHA-256 of texts of 64 bytes and of digests, eight at a time.

ghost use Rattle.std.specs.Prelude.{◌≡◌, ℕ, ◌+◌, ◌^◌, ◌<◌, ◌≤◌, ◌++◌, List, [], length, slice_index, slice_index_or};
ghost use Rattle.std.specs.Int.{w32, to_be_bytes};
ghost use Rattle.sha2.specs.Sha256.{digest_bytes, first_words, initial_hash_256, padded_message, padding, sha256, word_at};
ghost use Rattle.digest_lanes.specs.Lanes.{lane};

use crate::block256::compress;
use std::simd::u32x8;

// The word at byte `i` of a text, and what the caller can not see of a text in an array: its length.
#[inline(always)]
fn load(text: &[u8; 32], i: usize) -> u32
    requires { i + 4 ≤ 32 }
    ensures word { result ≡ word_at text.now i }
    ensures long { length text.now ≡ 32 }
{
    u32::from_be_bytes([text[i], text[i + 1], text[i + 2], text[i + 3]])
}

#[inline(always)]
fn load_eight(texts: &[[u8; 32]; 8], i: usize) -> u32x8
    requires { i + 4 ≤ 32 }
    ensures word { (j : ℕ) → j < 8 → slice_index result j ≡ word_at (slice_index_or texts.now j []) i }
    ensures long { (j : ℕ) → j < 8 → length (slice_index_or texts.now j []) ≡ 32 }
{
    let first = load(&texts[0], i);
    let second = load(&texts[1], i);
    let third = load(&texts[2], i);
    let fourth = load(&texts[3], i);
    let fifth = load(&texts[4], i);
    let sixth = load(&texts[5], i);
    let seventh = load(&texts[6], i);
    let eighth = load(&texts[7], i);
    u32x8::from_array([first, second, third, fourth, fifth, sixth, seventh, eighth])
}

// The words of the first block of each pair.
#[inline(always)]
pub(crate) fn pair_words(left: &[[u8; 32]; 8], right: &[[u8; 32]; 8]) -> [u32x8; 16]
    ensures words { (j : ℕ) → j < 8 → lane j result ≡ first_words (slice_index_or left.now j [] ++ slice_index_or right.now j []) 16 }
    ensures left { (j : ℕ) → j < 8 → length (slice_index_or left.now j []) ≡ 32 }
    ensures right { (j : ℕ) → j < 8 → length (slice_index_or right.now j []) ≡ 32 }
{
    let l0 = load_eight(left, 0);
    let l1 = load_eight(left, 4);
    let l2 = load_eight(left, 8);
    let l3 = load_eight(left, 12);
    let l4 = load_eight(left, 16);
    let l5 = load_eight(left, 20);
    let l6 = load_eight(left, 24);
    let l7 = load_eight(left, 28);
    let r0 = load_eight(right, 0);
    let r1 = load_eight(right, 4);
    let r2 = load_eight(right, 8);
    let r3 = load_eight(right, 12);
    let r4 = load_eight(right, 16);
    let r5 = load_eight(right, 20);
    let r6 = load_eight(right, 24);
    let r7 = load_eight(right, 28);
    [
        l0, l1, l2, l3, l4, l5, l6, l7, r0, r1, r2, r3, r4, r5, r6, r7,
    ]
}

// The words of the block behind a text of 64 bytes: the padding alone.
#[inline(always)]
pub(crate) fn padding_words() -> [u32x8; 16]
    ensures { (j : ℕ) → j < 8 → lane j result ≡ first_words (padding 64) 16 }
{
    let bit = u32x8::splat(0x8000_0000);
    let none = u32x8::splat(0);
    let bits = u32x8::splat(512);
    [
        bit, none, none, none, none, none, none, none, none, none, none, none, none, none, none,
        bits,
    ]
}

#[inline(always)]
pub(crate) fn initial_state() -> [u32x8; 8]
    ensures { (j : ℕ) → j < 8 → lane j result ≡ initial_hash_256 }
{
    [
        u32x8::splat(0x6a09_e667),
        u32x8::splat(0xbb67_ae85),
        u32x8::splat(0x3c6e_f372),
        u32x8::splat(0xa54f_f53a),
        u32x8::splat(0x510e_527f),
        u32x8::splat(0x9b05_688c),
        u32x8::splat(0x1f83_d9ab),
        u32x8::splat(0x5be0_cd19),
    ]
}

// The states after each text of 64 bytes with its padding.
pub(crate) fn pair_states(left: &[[u8; 32]; 8], right: &[[u8; 32]; 8]) -> [u32x8; 8]
    ensures { (j : ℕ) → j < 8 → digest_bytes (lane j result) 8 ≡ sha256 (slice_index_or left.now j [] ++ slice_index_or right.now j []) }
{
    let words = pair_words(left, right);
    let first = compress(initial_state(), words);
    compress(first, padding_words())
}

// A vector as it is, and what the caller can not see of one in an array: that its lanes are words.
#[inline(always)]
fn as_words(x: u32x8) -> u32x8
    ensures same { result ≡ x }
    ensures below { (j : ℕ) → j < 8 → slice_index x j < 2 ^ 32 }
{
    x
}

// The words of the one block of each digest that a state is written as: the state, the padding's bit, and the length of 256 bits.
#[inline(always)]
fn digest_words(state: [u32x8; 8]) -> [u32x8; 16]
    ensures { (j : ℕ) → j < 8 → lane j result ≡ first_words (padded_message (digest_bytes (lane j state) 8)) 16 }
{
    let [a, b, c, d, e, f, g, h] = state;
    let a = as_words(a);
    let b = as_words(b);
    let c = as_words(c);
    let d = as_words(d);
    let e = as_words(e);
    let f = as_words(f);
    let g = as_words(g);
    let h = as_words(h);
    let bit = u32x8::splat(0x8000_0000);
    let none = u32x8::splat(0);
    let bits = u32x8::splat(256);
    [
        a, b, c, d, e, f, g, h, bit, none, none, none, none, none, none, bits,
    ]
}

// The states after each digest that a state is written as, with its padding.
pub(crate) fn digest_states(state: [u32x8; 8]) -> [u32x8; 8]
    ensures { (j : ℕ) → j < 8 → digest_bytes (lane j result) 8 ≡ sha256 (digest_bytes (lane j state) 8) }
{
    let words = digest_words(state);
    compress(initial_state(), words)
}

#[inline(always)]
fn digest(a: u32, b: u32, c: u32, d: u32, e: u32, f: u32, g: u32, h: u32) -> [u8; 32]
    ensures { result ≡ (((((((to_be_bytes w32 a ++ to_be_bytes w32 b) ++ to_be_bytes w32 c) ++ to_be_bytes w32 d) ++ to_be_bytes w32 e)
        ++ to_be_bytes w32 f) ++ to_be_bytes w32 g) ++ to_be_bytes w32 h) }
{
    let [a0, a1, a2, a3] = a.to_be_bytes();
    let [b0, b1, b2, b3] = b.to_be_bytes();
    let [c0, c1, c2, c3] = c.to_be_bytes();
    let [d0, d1, d2, d3] = d.to_be_bytes();
    let [e0, e1, e2, e3] = e.to_be_bytes();
    let [f0, f1, f2, f3] = f.to_be_bytes();
    let [g0, g1, g2, g3] = g.to_be_bytes();
    let [h0, h1, h2, h3] = h.to_be_bytes();
    [
        a0, a1, a2, a3, b0, b1, b2, b3, c0, c1, c2, c3, d0, d1, d2, d3, e0, e1, e2, e3, f0, f1, f2,
        f3, g0, g1, g2, g3, h0, h1, h2, h3,
    ]
}

// Each state as a digest.
#[inline(always)]
pub(crate) fn digests(state: [u32x8; 8]) -> [[u8; 32]; 8]
    ensures { (j : ℕ) → j < 8 → slice_index_or result j [] ≡ digest_bytes (lane j state) 8 }
{
    let [a0, a1, a2, a3, a4, a5, a6, a7] = state[0].to_array();
    let [b0, b1, b2, b3, b4, b5, b6, b7] = state[1].to_array();
    let [c0, c1, c2, c3, c4, c5, c6, c7] = state[2].to_array();
    let [d0, d1, d2, d3, d4, d5, d6, d7] = state[3].to_array();
    let [e0, e1, e2, e3, e4, e5, e6, e7] = state[4].to_array();
    let [f0, f1, f2, f3, f4, f5, f6, f7] = state[5].to_array();
    let [g0, g1, g2, g3, g4, g5, g6, g7] = state[6].to_array();
    let [h0, h1, h2, h3, h4, h5, h6, h7] = state[7].to_array();
    let first = digest(a0, b0, c0, d0, e0, f0, g0, h0);
    let second = digest(a1, b1, c1, d1, e1, f1, g1, h1);
    let third = digest(a2, b2, c2, d2, e2, f2, g2, h2);
    let fourth = digest(a3, b3, c3, d3, e3, f3, g3, h3);
    let fifth = digest(a4, b4, c4, d4, e4, f4, g4, h4);
    let sixth = digest(a5, b5, c5, d5, e5, f5, g5, h5);
    let seventh = digest(a6, b6, c6, d6, e6, f6, g6, h6);
    let eighth = digest(a7, b7, c7, d7, e7, f7, g7, h7);
    [first, second, third, fourth, fifth, sixth, seventh, eighth]
}

/// SHA-256 of SHA-256 of each of eight pairs of digests, as one text of 64 bytes.
pub fn double_pairs_of_eight(left: &[[u8; 32]; 8], right: &[[u8; 32]; 8]) -> [[u8; 32]; 8]
    ensures { (j : ℕ) → j < 8 → slice_index_or result j [] ≡ sha256 (sha256 (slice_index_or left.now j [] ++ slice_index_or right.now j [])) }
{
    let inner = pair_states(left, right);
    let outer = digest_states(inner);
    digests(outer)
}
