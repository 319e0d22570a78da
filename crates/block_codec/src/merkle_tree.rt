//! The merkle tree over the ids of a block's transactions.
ghost use Rattle.std.specs.Prelude.{◌≡◌, ◌+◌, ◌*◌, ◌≤◌, ◌<◌, ◌^◌, ◌++◌, List, [], length, drop, IfOk, IfSome, IfNone};
ghost use Rattle.uo_digest.specs.declared.digest.Digest.{Digest as Digested};
ghost use Rattle.block_codec.specs.Block.{txids_of};
ghost use Rattle.block_codec.specs.Merkle.{paired, repeats_from, merkle_of, IsMerkle};
ghost use Rattle.block_codec.specs.Pairs.{hashes_over, HasFirst, IsAbove, IsLifted, TellsRepeat};

use crate::block_view::BlockView;
use std::alloc::Global;
use uo_base::NoMemory;
use uo_digest::{Digest, sha256d_pair, sha256d_pairs};

/// What the tree over a list of ids comes to.
#[derive(Clone, Copy, Debug, PartialEq, Eq)]
pub enum MerkleOutcome {
    /// The root.
    Root(Digest),
    /// Two different places that are paired hold equal hashes, so that a list with a part of it twice over has the same root
    /// (CVE-2012-2459). These are the first such: the lowest level, where the ids are level 0, and on it the first place, that
    /// of the left one, from 0.
    Repeated { level: u8, place: u32 },
}

/// The hash over the pair of a level that has this number, from 0.
fn hash_above(level: &[Digest], pair: usize) -> Digest
    requires { 2 * pair < length level.now }
    ensures { IsAbove result (drop (2 * pair) level.now) }
{
    let left = level[2 * pair];
    match level.get(2 * pair + 1) {
        None => sha256d_pair(left, left),
        Some(right) => sha256d_pair(left, *right),
    }
}

/// Eight pairs of a level, from a place on.
fn pairs_from(level: &[Digest], place: usize) -> [(Digest, Digest); 8]
    requires { place + 16 ≤ length level.now }
    ensures { paired (drop place level.now) ≡ hashes_over result ++ paired (drop (place + 16) level.now) }
{
    [
        (level[place], level[place + 1]),
        (level[place + 2], level[place + 3]),
        (level[place + 4], level[place + 5]),
        (level[place + 6], level[place + 7]),
        (level[place + 8], level[place + 9]),
        (level[place + 10], level[place + 11]),
        (level[place + 12], level[place + 13]),
        (level[place + 14], level[place + 15]),
    ]
}

/// Puts the hashes over eight pairs, from one on, in the places of that many at the front of a level.
fn lift_eight(hashes: &mut [Digest], pair: usize)
    requires { 2 * pair + 16 ≤ length hashes.old }
    ensures { (start : List Digested) → IsLifted start hashes.old pair → IsLifted start hashes.new (pair + 8) }
{
    let pairs = pairs_from(hashes, 2 * pair);
    let mut above = [pairs[0].0; 8];
    sha256d_pairs(&pairs, &mut above);
    hashes[pair..pair + 8].copy_from_slice(&above);
}

/// Puts the level above in the place of a level, whatever is repeated: eight hashes at a time, and the rest alone.
pub(crate) fn lift(hashes: &mut Vec<Digest>)
    requires { length hashes.old.items < 2 ^ 32 }
    ensures { hashes.new.items ≡ paired hashes.old.items }
{
    let count = hashes.len().div_ceil(2);
    let eights = hashes.len() / 16;
    'eights: for eight in 0..eights {
        lift_eight(hashes, 8 * eight);
    }
    'rest: for pair in 8 * eights..count {
        hashes[pair] = hash_above(hashes, pair);
    }
    hashes.truncate(count);
}

/// Whether the two places of this pair of a level hold equal hashes.
fn is_repeat(level: &[Digest], pair: usize) -> bool
    requires { 2 * pair < length level.now }
    ensures { TellsRepeat result (drop (2 * pair) level.now) }
{
    let left = level[2 * pair];
    match level.get(2 * pair + 1) {
        None => false,
        Some(right) => left == *right,
    }
}

/// The place of a level's first repeat.
fn first_repeat(level: &[Digest]) -> Option<u32>
    requires { length level.now < 2 ^ 32 }
    ensures first { IfSome result (λ place. HasFirst place (repeats_from 0 level.now)) }
    ensures none { IfNone result (repeats_from 0 level.now ≡ []) }
{
    for pair in 0..level.len().div_ceil(2) {
        if is_repeat(level, pair) {
            return Some((2 * pair) as u32);
        }
    }
    None
}

/// Goes up to the root, or to the first repeat.
fn climb(mut hashes: Vec<Digest>) -> MerkleOutcome
    requires some { 0 < length hashes.items }
    requires few { length hashes.items < 2 ^ 32 }
    ensures exact { result ≡ merkle_of hashes.items }
    ensures meaning { IsMerkle hashes.items result }
{
    let mut level = 0;
    while hashes.len() > 1 {
        if let Some(place) = first_repeat(&hashes) {
            return MerkleOutcome::Repeated { level, place };
        }
        lift(&mut hashes);
        level += 1;
    }
    MerkleOutcome::Root(hashes[0])
}

/// The root of the merkle tree over these ids, or the first repeat in it. A level pairs the neighbours of the one below and
/// hashes each pair, an odd last one with itself, until one hash is left.
pub fn merkle_root_of(alloc: Global, ids: &[Digest]) -> Result<MerkleOutcome, NoMemory>
    requires some { 0 < length ids.now }
    requires few { length ids.now < 2 ^ 32 }
    ensures exact { IfOk result (λ outcome. outcome ≡ merkle_of ids.now) }
    ensures meaning { IfOk result (IsMerkle ids.now) }
{
    if let [only] = ids {
        return Ok(MerkleOutcome::Root(*only));
    }
    Ok(climb(Vec::from_slice(alloc, ids)?))
}

/// What `merkle_root_of` gives of the block's ids: the header should claim this root.
pub fn merkle(alloc: Global, block: &BlockView<'_>) -> Result<MerkleOutcome, NoMemory>
    ensures exact { IfOk result (λ outcome. outcome ≡ merkle_of (txids_of block.now)) }
    ensures meaning { IfOk result (IsMerkle (txids_of block.now)) }
{
    merkle_root_of(alloc, &block.txids)
}
