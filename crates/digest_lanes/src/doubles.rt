//! SHA-256 of SHA-256 of many texts.

ghost use Rattle.std.specs.Prelude.{◌≡◌, ℕ, ◌+◌, ◌*◌, ◌<◌, ◌≤◌, length, slice_index};
ghost use Rattle.sha2.specs.Sha256.{padded_message, sha256};
ghost use Rattle.digest_lanes.specs.Texts.{text_at, IsGivenAt, KeepsGiven};
ghost use Rattle.digest_lanes.specs.Groups.{HasLength, block_lengths};

use crate::group::{Blocks, Lengths, blocks_of, has_length, lengths_of, long_lengths, next_group};
use crate::texts256::digest_eight;
use sha2::{Digest, Sha256};

// The bytes of a block, and those of the length at the end of the last one.
const SIZE: usize = 64;

const COUNT: usize = 8;

// Puts the digests of eight texts at their indices.
fn digest_group<T: Copy + From<[u8; 32]>>(
    texts: &[&[u8]],
    group: &[usize; 8],
    blocks: usize,
    out: &mut [T],
)
    requires count { length out.old ≡ length texts.now }
    requires within { (k : ℕ) → k < 8 → slice_index group.now k < length texts.now }
    requires blocks { (k : ℕ) → k < 8 → length (padded_message (text_at texts.now (slice_index group.now k))) ≡ 64 * blocks }
    ensures kept { KeepsGiven (λ text v. T.from_gives (sha256 (sha256 text)) v) texts.now out.old out.new }
    ensures made { (k : ℕ) → k < 8 → IsGivenAt (λ text v. T.from_gives (sha256 (sha256 text)) v) texts.now out.new (slice_index group.now k) }
{
    let digests = digest_eight(texts, group, blocks);
    'each: for k in 0..8 {
        out[group[k]] = T::from(digests[k]);
    }
}

// Puts the digests of the texts of so many blocks at their indices, eight at a time; and from which index on the others stand, which are fewer than
// eight.
fn digest_groups<T: Copy + From<[u8; 32]>>(texts: &[&[u8]], blocks: usize, out: &mut [T]) -> usize
    requires count { length out.old ≡ length texts.now }
    requires some { 1 ≤ blocks }
    requires few { blocks ≤ 16 }
    ensures kept { KeepsGiven (λ text v. T.from_gives (sha256 (sha256 text)) v) texts.now out.old out.new }
    ensures made { (i : ℕ) → i < result → HasLength (block_lengths 64 8 blocks) (text_at texts.now i)
        → IsGivenAt (λ text v. T.from_gives (sha256 (sha256 text)) v) texts.now out.new i }
{
    let lengths = lengths_of(SIZE, COUNT, blocks);
    let mut group = [0; 8];
    let mut from = 0;
    'groups: while let Some(end) = next_group(texts, lengths, from, &mut group) {
        digest_group(texts, &group, blocks, out);
        from = end;
    }
    from
}

// The digest of one text.
fn digest(text: &[u8]) -> [u8; 32]
    ensures { result ≡ sha256 (sha256 text.now) }
{
    let first = Sha256::digest(text);
    Sha256::digest(first.as_slice())
}

// Puts the digest of one text at its index, if it has such a length.
fn digest_at<T: Copy + From<[u8; 32]>>(texts: &[&[u8]], lengths: Lengths, i: usize, out: &mut [T])
    requires count { length out.old ≡ length texts.now }
    requires within { i < length texts.now }
    ensures kept { KeepsGiven (λ text v. T.from_gives (sha256 (sha256 text)) v) texts.now out.old out.new }
    ensures made { HasLength lengths (text_at texts.now i) → IsGivenAt (λ text v. T.from_gives (sha256 (sha256 text)) v) texts.now out.new i }
{
    if has_length(texts[i], lengths) {
        out[i] = T::from(digest(texts[i]));
    }
}

// Puts the digests of the texts from an index on that have such a length, one by one.
fn digest_alone<T: Copy + From<[u8; 32]>>(
    texts: &[&[u8]],
    lengths: Lengths,
    from: usize,
    out: &mut [T],
)
    requires count { length out.old ≡ length texts.now }
    ensures kept { KeepsGiven (λ text v. T.from_gives (sha256 (sha256 text)) v) texts.now out.old out.new }
    ensures made { (i : ℕ) → from ≤ i → HasLength lengths (text_at texts.now i)
        → IsGivenAt (λ text v. T.from_gives (sha256 (sha256 text)) v) texts.now out.new i }
{
    'each: for i in from..texts.len() {
        digest_at(texts, lengths, i, out);
    }
}

// Puts the digests of the texts of so many blocks: eight at a time, and the rest alone.
fn digest_blocks<T: Copy + From<[u8; 32]>>(texts: &[&[u8]], blocks: usize, out: &mut [T])
    requires count { length out.old ≡ length texts.now }
    requires some { 1 ≤ blocks }
    requires few { blocks ≤ 16 }
    ensures kept { KeepsGiven (λ text v. T.from_gives (sha256 (sha256 text)) v) texts.now out.old out.new }
    ensures made { (i : ℕ) → HasLength (block_lengths 64 8 blocks) (text_at texts.now i)
        → IsGivenAt (λ text v. T.from_gives (sha256 (sha256 text)) v) texts.now out.new i }
{
    let from = digest_groups(texts, blocks, out);
    digest_alone(texts, lengths_of(SIZE, COUNT, blocks), from, out);
}

/// SHA-256 of SHA-256 of each text, in the place of an entry of `out`. Texts of which equally many blocks are made go side by side,
/// as far as these are at most 16.
pub fn sha256d_each<T: Copy + From<[u8; 32]>>(texts: &[&[u8]], out: &mut [T])
    requires { length out.old ≡ length texts.now }
    ensures { (i : ℕ) → IsGivenAt (λ text v. T.from_gives (sha256 (sha256 text)) v) texts.now out.new i }
{
    let Blocks { least, most } = blocks_of(texts, SIZE, COUNT);
    'each: for blocks in least..most.min(16) + 1 {
        digest_blocks(texts, blocks, out);
    }
    if most > 16 {
        let long = long_lengths(SIZE, COUNT);
        digest_alone(texts, long, 0, out);
    }
}
