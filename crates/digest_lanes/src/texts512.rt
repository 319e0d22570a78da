//! SHA-512/256 of texts of any length, four at a time.

ghost use Rattle.std.specs.Prelude.{◌≡◌, ℕ, ◌+◌, ◌*◌, ◌/◌, ◌%◌, ◌<◌, ◌≤◌, ◌++◌, ◌∷◌, List, [], length, slice_index, slice_index_or};
ghost use Rattle.sha2.specs.Sha512.{first_words, hash_after, initial_hash_512_256, sha512_256, word_at};
ghost use Rattle.digest_lanes.specs.Lanes.{lane};
ghost use Rattle.digest_lanes.specs.Texts.{text_at};
ghost use Rattle.digest_lanes.specs.Midstate.{IsMidstate, padded_behind};

use crate::block512::compress;
use crate::midstate::Midstate;
use crate::padded512::Padded;
use crate::pairs512::{digests_of_four, initial_state};
use std::simd::u64x4;

// The word at byte `i` of a block.
#[inline(always)]
fn load(block: &[u8], i: usize) -> u64
    requires { i + 8 ≤ length block.now }
    ensures { result ≡ word_at block.now i }
{
    u64::from_be_bytes([
        block[i],
        block[i + 1],
        block[i + 2],
        block[i + 3],
        block[i + 4],
        block[i + 5],
        block[i + 6],
        block[i + 7],
    ])
}

#[inline(always)]
fn load_four(a: &[u8], b: &[u8], c: &[u8], d: &[u8], i: usize) -> u64x4
    requires a { i + 8 ≤ length a.now }
    requires b { i + 8 ≤ length b.now }
    requires c { i + 8 ≤ length c.now }
    requires d { i + 8 ≤ length d.now }
    ensures { (j : ℕ) → j < 4 → slice_index result j ≡ word_at (slice_index_or (a.now ∷ b.now ∷ c.now ∷ d.now ∷ []) j []) i }
{
    let first = load(a, i);
    let second = load(b, i);
    let third = load(c, i);
    let fourth = load(d, i);
    u64x4::from_array([first, second, third, fourth])
}

// The words of four blocks.
#[inline(always)]
fn block_words(a: &[u8], b: &[u8], c: &[u8], d: &[u8]) -> [u64x4; 16]
    requires a { length a.now ≡ 128 }
    requires b { length b.now ≡ 128 }
    requires c { length c.now ≡ 128 }
    requires d { length d.now ≡ 128 }
    ensures { (j : ℕ) → j < 4 → lane j result ≡ first_words (slice_index_or (a.now ∷ b.now ∷ c.now ∷ d.now ∷ []) j []) 16 }
{
    let w0 = load_four(a, b, c, d, 0);
    let w1 = load_four(a, b, c, d, 8);
    let w2 = load_four(a, b, c, d, 16);
    let w3 = load_four(a, b, c, d, 24);
    let w4 = load_four(a, b, c, d, 32);
    let w5 = load_four(a, b, c, d, 40);
    let w6 = load_four(a, b, c, d, 48);
    let w7 = load_four(a, b, c, d, 56);
    let w8 = load_four(a, b, c, d, 64);
    let w9 = load_four(a, b, c, d, 72);
    let w10 = load_four(a, b, c, d, 80);
    let w11 = load_four(a, b, c, d, 88);
    let w12 = load_four(a, b, c, d, 96);
    let w13 = load_four(a, b, c, d, 104);
    let w14 = load_four(a, b, c, d, 112);
    let w15 = load_four(a, b, c, d, 120);
    [
        w0, w1, w2, w3, w4, w5, w6, w7, w8, w9, w10, w11, w12, w13, w14, w15,
    ]
}

// A hash value in each lane.
fn spread(h: [u64; 8]) -> [u64x4; 8]
    ensures { (j : ℕ) → j < 4 → lane j result ≡ h }
{
    let [h0, h1, h2, h3, h4, h5, h6, h7] = h;
    [
        u64x4::splat(h0),
        u64x4::splat(h1),
        u64x4::splat(h2),
        u64x4::splat(h3),
        u64x4::splat(h4),
        u64x4::splat(h5),
        u64x4::splat(h6),
        u64x4::splat(h7),
    ]
}

// The hash values behind all blocks of four texts that have as many.
fn hash_blocks(
    start: [u64x4; 8],
    a: &Padded<'_>,
    b: &Padded<'_>,
    c: &Padded<'_>,
    d: &Padded<'_>,
    blocks: usize,
) -> [u64x4; 8]
    requires a { length a.now ≡ 128 * blocks }
    requires b { length b.now ≡ 128 * blocks }
    requires c { length c.now ≡ 128 * blocks }
    requires d { length d.now ≡ 128 * blocks }
    ensures { (j : ℕ) → j < 4 → lane j result ≡ hash_after (lane j start) (slice_index_or (a.now ∷ b.now ∷ c.now ∷ d.now ∷ []) j []) blocks }
{
    let mut state = start;
    'each: for k in 0..blocks {
        let words = block_words(a.block(k), b.block(k), c.block(k), d.block(k));
        let next = compress(state, words);
        state = next;
    }
    state
}

// The hash values behind the texts at four indices, which go on from one and have as many blocks.
fn states_of(start: &Midstate, texts: &[&[u8]], group: &[usize; 4], blocks: usize) -> [u64x4; 8]
    requires within { (j : ℕ) → j < 4 → slice_index group.now j < length texts.now }
    requires blocks { (j : ℕ) → j < 4 → length (padded_behind start.now.taken (text_at texts.now (slice_index group.now j))) ≡ 128 * blocks }
    ensures { (j : ℕ) → j < 4
        → lane j result ≡ hash_after start.now.state (padded_behind start.now.taken (text_at texts.now (slice_index group.now j))) blocks }
{
    let first = Padded::new(texts[group[0]], start.taken);
    let second = Padded::new(texts[group[1]], start.taken);
    let third = Padded::new(texts[group[2]], start.taken);
    let fourth = Padded::new(texts[group[3]], start.taken);
    hash_blocks(
        spread(start.state),
        &first,
        &second,
        &third,
        &fourth,
        blocks,
    )
}

/// The digests of the texts at four indices, which go on from one and have as many blocks.
pub(crate) fn digest_four(
    start: &Midstate,
    texts: &[&[u8]],
    group: &[usize; 4],
    blocks: usize,
) -> [[u8; 32]; 4]
    requires within { (j : ℕ) → j < 4 → slice_index group.now j < length texts.now }
    requires blocks { (j : ℕ) → j < 4 → length (padded_behind start.now.taken (text_at texts.now (slice_index group.now j))) ≡ 128 * blocks }
    ensures { (j : ℕ) → j < 4 → (before : List ℕ) → IsMidstate start.now before
        → slice_index_or result j [] ≡ sha512_256 (before ++ text_at texts.now (slice_index group.now j)) }
{
    digests_of_four(states_of(start, texts, group, blocks))
}

/// The hash value behind a text of whole blocks.
pub(crate) fn hash_whole(text: &[u8]) -> [u64; 8]
    requires { length text.now % 128 ≡ 0 }
    ensures { result ≡ hash_after initial_hash_512_256 text.now (length text.now / 128) }
{
    let mut state = initial_state();
    'each: for k in 0..text.len() / 128 {
        let block = &text[128 * k..128 * k + 128];
        let words = block_words(block, block, block, block);
        let next = compress(state, words);
        state = next;
    }
    first_lane(state)
}

fn first_lane(state: [u64x4; 8]) -> [u64; 8]
    ensures { result ≡ lane 0 state }
{
    let [a, b, c, d, e, f, g, h] = state;
    [a[0], b[0], c[0], d[0], e[0], f[0], g[0], h[0]]
}
