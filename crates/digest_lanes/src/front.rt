//! SHA-512/256 of many texts that begin alike.

ghost use Rattle.std.specs.Prelude.{◌≡◌, ℕ, ◌+◌, ◌*◌, ◌<◌, ◌≤◌, ◌++◌, List, length, slice_index, IfSome};
ghost use Rattle.sha2.specs.Sha512.{sha512_256};
ghost use Rattle.digest_lanes.specs.Texts.{text_at, IsGivenAt, KeepsGiven};
ghost use Rattle.digest_lanes.specs.Groups.{HasLength, block_lengths};
ghost use Rattle.digest_lanes.specs.Midstate.{IsMidstate, padded_behind};
ghost use Rattle.digest_lanes.specs.Front.{Holds};

use crate::group::{Blocks, Lengths, blocks_of, has_length, lengths_of, long_lengths, next_group};
use crate::midstate::Midstate;
use crate::texts512::{digest_four, hash_whole};
use sha2::{Digest, Sha512_256};

// The bytes of a block, and those of the length at the end of the last one.
const SIZE: usize = 128;

const COUNT: usize = 16;

/// What has been taken in of a text that goes on: where many texts begin alike, the work on their front is done once.
#[derive(Drop)]
pub struct Front {
    hasher: Sha512_256,
    // Where the front is whole blocks, texts that go on from it go side by side.
    midstate: Option<Midstate>,
}

// Puts the digests of four texts at their indices.
fn digest_group<T: Copy + From<[u8; 32]>>(
    start: &Midstate,
    texts: &[&[u8]],
    group: &[usize; 4],
    blocks: usize,
    out: &mut [T],
)
    requires count { length out.old ≡ length texts.now }
    requires within { (k : ℕ) → k < 4 → slice_index group.now k < length texts.now }
    requires blocks { (k : ℕ) → k < 4 → length (padded_behind start.now.taken (text_at texts.now (slice_index group.now k))) ≡ 128 * blocks }
    ensures kept { (before : List ℕ) → IsMidstate start.now before
        → KeepsGiven (λ text v. T.from_gives (sha512_256 (before ++ text)) v) texts.now out.old out.new }
    ensures made { (before : List ℕ) → IsMidstate start.now before → (k : ℕ) → k < 4
        → IsGivenAt (λ text v. T.from_gives (sha512_256 (before ++ text)) v) texts.now out.new (slice_index group.now k) }
{
    let digests = digest_four(start, texts, group, blocks);
    'each: for k in 0..4 {
        out[group[k]] = T::from(digests[k]);
    }
}

// Puts the digests of the texts of so many blocks at their indices, four at a time; and from which index on the others stand, which are fewer than
// four.
fn digest_groups<T: Copy + From<[u8; 32]>>(
    start: &Midstate,
    texts: &[&[u8]],
    blocks: usize,
    out: &mut [T],
) -> usize
    requires count { length out.old ≡ length texts.now }
    requires some { 1 ≤ blocks }
    requires few { blocks ≤ 16 }
    ensures kept { (before : List ℕ) → IsMidstate start.now before
        → KeepsGiven (λ text v. T.from_gives (sha512_256 (before ++ text)) v) texts.now out.old out.new }
    ensures made { (before : List ℕ) → IsMidstate start.now before → (i : ℕ) → i < result
        → HasLength (block_lengths 128 16 blocks) (text_at texts.now i)
        → IsGivenAt (λ text v. T.from_gives (sha512_256 (before ++ text)) v) texts.now out.new i }
{
    let lengths = lengths_of(SIZE, COUNT, blocks);
    let mut group = [0; 4];
    let mut from = 0;
    'groups: while let Some(end) = next_group(texts, lengths, from, &mut group) {
        digest_group(start, texts, &group, blocks, out);
        from = end;
    }
    from
}

// What is taken in of a text of whole blocks.
fn midstate_of(text: &[u8]) -> Option<Midstate>
    ensures { IfSome result (λ s. IsMidstate s text.now) }
{
    if text.len() % 128 != 0 {
        return None;
    }
    Some(Midstate {
        state: hash_whole(text),
        taken: text.len(),
    })
}

impl Front {
    /// The front of texts.
    pub fn new(text: &[u8]) -> Front
        ensures { Holds result text.now }
    {
        Front {
            hasher: Sha512_256::new_with_prefix(text),
            midstate: midstate_of(text),
        }
    }

    /// The digest of the whole text, the front and what comes behind it.
    pub fn digest(&self, rest: &[u8]) -> [u8; 32]
        ensures { (before : List ℕ) → Holds self.now before → result ≡ sha512_256 (before ++ rest.now) }
    {
        match self.hasher.clone() {
            Ok(mut hasher) => {
                hasher.update(rest);
                hasher.finalize()
            }
            Err(_) => unreachable!(),
        }
    }

    // Puts the digest of one text at its index, if it has such a length.
    fn digest_at<T: Copy + From<[u8; 32]>>(
        &self,
        rests: &[&[u8]],
        lengths: Lengths,
        i: usize,
        out: &mut [T],
    )
        requires count { length out.old ≡ length rests.now }
        requires within { i < length rests.now }
        ensures kept { (before : List ℕ) → Holds self.now before
            → KeepsGiven (λ text v. T.from_gives (sha512_256 (before ++ text)) v) rests.now out.old out.new }
        ensures made { (before : List ℕ) → Holds self.now before → HasLength lengths (text_at rests.now i)
            → IsGivenAt (λ text v. T.from_gives (sha512_256 (before ++ text)) v) rests.now out.new i }
    {
        if has_length(rests[i], lengths) {
            out[i] = T::from(self.digest(rests[i]));
        }
    }

    // Puts the digests of the texts from an index on that have such a length, one by one.
    fn digest_alone<T: Copy + From<[u8; 32]>>(
        &self,
        rests: &[&[u8]],
        lengths: Lengths,
        from: usize,
        out: &mut [T],
    )
        requires count { length out.old ≡ length rests.now }
        ensures kept { (before : List ℕ) → Holds self.now before
            → KeepsGiven (λ text v. T.from_gives (sha512_256 (before ++ text)) v) rests.now out.old out.new }
        ensures made { (before : List ℕ) → Holds self.now before → (i : ℕ) → from ≤ i → HasLength lengths (text_at rests.now i)
            → IsGivenAt (λ text v. T.from_gives (sha512_256 (before ++ text)) v) rests.now out.new i }
    {
        'each: for i in from..rests.len() {
            self.digest_at(rests, lengths, i, out);
        }
    }

    // Puts the digests of the texts of so many blocks: four at a time, and the rest alone.
    fn digest_blocks<T: Copy + From<[u8; 32]>>(
        &self,
        start: &Midstate,
        rests: &[&[u8]],
        blocks: usize,
        out: &mut [T],
    )
        requires count { length out.old ≡ length rests.now }
        requires some { 1 ≤ blocks }
        requires few { blocks ≤ 16 }
        ensures kept { (before : List ℕ) → Holds self.now before → IsMidstate start.now before
            → KeepsGiven (λ text v. T.from_gives (sha512_256 (before ++ text)) v) rests.now out.old out.new }
        ensures made { (before : List ℕ) → Holds self.now before → IsMidstate start.now before
            → (i : ℕ) → HasLength (block_lengths 128 16 blocks) (text_at rests.now i)
            → IsGivenAt (λ text v. T.from_gives (sha512_256 (before ++ text)) v) rests.now out.new i }
    {
        let from = digest_groups(start, rests, blocks, out);
        self.digest_alone(rests, lengths_of(SIZE, COUNT, blocks), from, out);
    }

    // Puts the digests of all texts: those of equally many blocks side by side, and long ones alone.
    fn digest_all<T: Copy + From<[u8; 32]>>(&self, start: &Midstate, rests: &[&[u8]], out: &mut [T])
        requires { length out.old ≡ length rests.now }
        ensures { (before : List ℕ) → Holds self.now before → IsMidstate start.now before
            → (i : ℕ) → IsGivenAt (λ text v. T.from_gives (sha512_256 (before ++ text)) v) rests.now out.new i }
    {
        let Blocks { least, most } = blocks_of(rests, SIZE, COUNT);
        'each: for blocks in least..most.min(16) + 1 {
            self.digest_blocks(start, rests, blocks, out);
        }
        if most > 16 {
            let long = long_lengths(SIZE, COUNT);
            self.digest_alone(rests, long, 0, out);
        }
    }

    /// The digest of each whole text, the front and what comes behind it, in the place of an entry of `out`. Texts of which equally
    /// many blocks are made go side by side if the front is whole blocks of 128 bytes.
    pub fn digest_each<T: Copy + From<[u8; 32]>>(&self, rests: &[&[u8]], out: &mut [T])
        requires { length out.old ≡ length rests.now }
        ensures { (before : List ℕ) → Holds self.now before
            → (i : ℕ) → IsGivenAt (λ text v. T.from_gives (sha512_256 (before ++ text)) v) rests.now out.new i }
    {
        match &self.midstate {
            Some(start) => self.digest_all(start, rests, out),
            None => {
                let all = Lengths { low: 0, high: None };
                self.digest_alone(rests, all, 0, out);
            }
        }
    }
}
