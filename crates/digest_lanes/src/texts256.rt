//! SHA-256 of SHA-256 of texts of any length, eight at a time.

ghost use Rattle.std.specs.Prelude.{◌≡◌, ℕ, ◌+◌, ◌*◌, ◌<◌, ◌≤◌, ◌∷◌, List, [], length, slice_index, slice_index_or};
ghost use Rattle.sha2.specs.Sha256.{digest_bytes, first_words, hash_after, initial_hash_256, padded_message, sha256, word_at};
ghost use Rattle.digest_lanes.specs.Lanes.{lane};
ghost use Rattle.digest_lanes.specs.Texts.{text_at};

use crate::block256::compress;
use crate::padded256::Padded;
use crate::pairs256::{digest_states, digests, initial_state};
use std::simd::u32x8;

// The word at byte `i` of a block.
#[inline(always)]
fn load(block: &[u8], i: usize) -> u32
    requires { i + 4 ≤ length block.now }
    ensures { result ≡ word_at block.now i }
{
    u32::from_be_bytes([block[i], block[i + 1], block[i + 2], block[i + 3]])
}

#[inline(always)]
fn load_eight(
    a: &[u8],
    b: &[u8],
    c: &[u8],
    d: &[u8],
    e: &[u8],
    f: &[u8],
    g: &[u8],
    h: &[u8],
    i: usize,
) -> u32x8
    requires a { i + 4 ≤ length a.now }
    requires b { i + 4 ≤ length b.now }
    requires c { i + 4 ≤ length c.now }
    requires d { i + 4 ≤ length d.now }
    requires e { i + 4 ≤ length e.now }
    requires f { i + 4 ≤ length f.now }
    requires g { i + 4 ≤ length g.now }
    requires h { i + 4 ≤ length h.now }
    ensures { (j : ℕ) → j < 8 → slice_index result j
        ≡ word_at (slice_index_or (a.now ∷ b.now ∷ c.now ∷ d.now ∷ e.now ∷ f.now ∷ g.now ∷ h.now ∷ []) j []) i }
{
    let first = load(a, i);
    let second = load(b, i);
    let third = load(c, i);
    let fourth = load(d, i);
    let fifth = load(e, i);
    let sixth = load(f, i);
    let seventh = load(g, i);
    let eighth = load(h, i);
    u32x8::from_array([first, second, third, fourth, fifth, sixth, seventh, eighth])
}

// The words of eight blocks.
#[inline(always)]
fn block_words(
    a: &[u8],
    b: &[u8],
    c: &[u8],
    d: &[u8],
    e: &[u8],
    f: &[u8],
    g: &[u8],
    h: &[u8],
) -> [u32x8; 16]
    requires a { length a.now ≡ 64 }
    requires b { length b.now ≡ 64 }
    requires c { length c.now ≡ 64 }
    requires d { length d.now ≡ 64 }
    requires e { length e.now ≡ 64 }
    requires f { length f.now ≡ 64 }
    requires g { length g.now ≡ 64 }
    requires h { length h.now ≡ 64 }
    ensures { (j : ℕ) → j < 8 → lane j result ≡ first_words (slice_index_or (a.now ∷ b.now ∷ c.now ∷ d.now ∷ e.now ∷ f.now ∷ g.now ∷ h.now ∷ []) j [])
        16 }
{
    let w0 = load_eight(a, b, c, d, e, f, g, h, 0);
    let w1 = load_eight(a, b, c, d, e, f, g, h, 4);
    let w2 = load_eight(a, b, c, d, e, f, g, h, 8);
    let w3 = load_eight(a, b, c, d, e, f, g, h, 12);
    let w4 = load_eight(a, b, c, d, e, f, g, h, 16);
    let w5 = load_eight(a, b, c, d, e, f, g, h, 20);
    let w6 = load_eight(a, b, c, d, e, f, g, h, 24);
    let w7 = load_eight(a, b, c, d, e, f, g, h, 28);
    let w8 = load_eight(a, b, c, d, e, f, g, h, 32);
    let w9 = load_eight(a, b, c, d, e, f, g, h, 36);
    let w10 = load_eight(a, b, c, d, e, f, g, h, 40);
    let w11 = load_eight(a, b, c, d, e, f, g, h, 44);
    let w12 = load_eight(a, b, c, d, e, f, g, h, 48);
    let w13 = load_eight(a, b, c, d, e, f, g, h, 52);
    let w14 = load_eight(a, b, c, d, e, f, g, h, 56);
    let w15 = load_eight(a, b, c, d, e, f, g, h, 60);
    [
        w0, w1, w2, w3, w4, w5, w6, w7, w8, w9, w10, w11, w12, w13, w14, w15,
    ]
}

// The hash values behind all blocks of eight texts that have as many.
fn hash_blocks(
    a: &Padded<'_>,
    b: &Padded<'_>,
    c: &Padded<'_>,
    d: &Padded<'_>,
    e: &Padded<'_>,
    f: &Padded<'_>,
    g: &Padded<'_>,
    h: &Padded<'_>,
    blocks: usize,
) -> [u32x8; 8]
    requires a { length a.now ≡ 64 * blocks }
    requires b { length b.now ≡ 64 * blocks }
    requires c { length c.now ≡ 64 * blocks }
    requires d { length d.now ≡ 64 * blocks }
    requires e { length e.now ≡ 64 * blocks }
    requires f { length f.now ≡ 64 * blocks }
    requires g { length g.now ≡ 64 * blocks }
    requires h { length h.now ≡ 64 * blocks }
    ensures { (j : ℕ) → j < 8 → lane j result
        ≡ hash_after initial_hash_256 (slice_index_or (a.now ∷ b.now ∷ c.now ∷ d.now ∷ e.now ∷ f.now ∷ g.now ∷ h.now ∷ []) j []) blocks }
{
    let mut state = initial_state();
    'each: for k in 0..blocks {
        let words = block_words(
            a.block(k),
            b.block(k),
            c.block(k),
            d.block(k),
            e.block(k),
            f.block(k),
            g.block(k),
            h.block(k),
        );
        let next = compress(state, words);
        state = next;
    }
    state
}

// The hash values behind the texts at eight indices, which have as many blocks.
fn states_of(texts: &[&[u8]], group: &[usize; 8], blocks: usize) -> [u32x8; 8]
    requires within { (j : ℕ) → j < 8 → slice_index group.now j < length texts.now }
    requires blocks { (j : ℕ) → j < 8 → length (padded_message (text_at texts.now (slice_index group.now j))) ≡ 64 * blocks }
    ensures { (j : ℕ) → j < 8 → lane j result ≡ hash_after initial_hash_256 (padded_message (text_at texts.now (slice_index group.now j))) blocks }
{
    let first = Padded::new(texts[group[0]]);
    let second = Padded::new(texts[group[1]]);
    let third = Padded::new(texts[group[2]]);
    let fourth = Padded::new(texts[group[3]]);
    let fifth = Padded::new(texts[group[4]]);
    let sixth = Padded::new(texts[group[5]]);
    let seventh = Padded::new(texts[group[6]]);
    let eighth = Padded::new(texts[group[7]]);
    hash_blocks(
        &first, &second, &third, &fourth, &fifth, &sixth, &seventh, &eighth, blocks,
    )
}

/// The double digests of the texts at eight indices, which have as many blocks.
pub(crate) fn digest_eight(texts: &[&[u8]], group: &[usize; 8], blocks: usize) -> [[u8; 32]; 8]
    requires within { (j : ℕ) → j < 8 → slice_index group.now j < length texts.now }
    requires blocks { (j : ℕ) → j < 8 → length (padded_message (text_at texts.now (slice_index group.now j))) ≡ 64 * blocks }
    ensures { (j : ℕ) → j < 8 → slice_index_or result j [] ≡ sha256 (sha256 (text_at texts.now (slice_index group.now j))) }
{
    let inner = states_of(texts, group, blocks);
    let outer = digest_states(inner);
    digests(outer)
}
