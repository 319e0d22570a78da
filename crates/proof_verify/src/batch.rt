//! The nodes of places that do not stand on each other: their digests are made side by side.
ghost use Rattle.std.specs.Prelude.{◌≡◌, ◌+◌, ◌*◌, ◌≤◌, ◌++◌, length, map, take, drop, flat_map, count_by};
ghost use Rattle.proof_verify.specs.PlaceNodes.{node_from, IsWithin, is_inner};
ghost use Rattle.proof_verify.specs.Gathered.{AreHalvesWithin, AreHalfwise};
ghost use Rattle.uo_digest.specs.Batches.{pair_digest};
ghost use Rattle.proof_verify.specs.Batches.{AreWithin, pairs_for};

use crate::place_node::{PlaceNode, half};
use crate::place_source::PlaceSource;
use std::sync::ledger::Ledger;
use uo_digest::{Digest, Digester, Steps};

// A place takes at most two digests, so these are enough for 8 places.
const PAIRS: usize = 16;

// Where the pairs of a batch and their digests lie. What is in it does not matter.
#[derive(Drop)]
pub(crate) struct Batch {
    pairs: [(Digest, Digest); PAIRS],
    digests: [Digest; PAIRS],
}

impl Batch {
    pub(crate) fn new() -> Batch {
        let blank = Digest([0; 32]);
        Batch {
            pairs: [(blank, blank); PAIRS],
            digests: [blank; PAIRS],
        }
    }
}

// Puts the pairs that are digested for a place behind the first `count`. What is left of two halves takes a digest where
// both have something left.
fn queue_place(
    source: PlaceSource,
    below: &[PlaceNode],
    hashes: &[Digest],
    pairs: &mut [(Digest, Digest)],
    count: usize,
) -> usize
    requires within { AreHalvesWithin (length below.now) (length hashes.now) source }
    requires room { count + 2 ≤ length pairs.old }
    ensures pairs { take result pairs.new ≡ take count pairs.old ++ pairs_for below.now hashes.now source }
    ensures count { result ≡ count + length (pairs_for below.now hashes.now source) }
    ensures long { length pairs.new ≡ length pairs.old }
{
    let PlaceSource::Halves(left, right) = source else {
        return count;
    };
    let left = half(below, hashes, left);
    let right = half(below, hashes, right);
    pairs[count] = (*left.0, *right.0);
    if let (Some(left), Some(right)) = (left.1, right.1) {
        pairs[count + 1] = (*left, *right);
        return count + 2;
    }
    count + 1
}

// Puts the pairs that are digested for the places, one place after the other. How many there are.
fn queue(
    sources: &[PlaceSource],
    below: &[PlaceNode],
    hashes: &[Digest],
    pairs: &mut [(Digest, Digest)],
) -> usize
    requires within { AreHalfwise sources.now (length below.now) (length hashes.now) }
    requires room { 2 * length sources.now ≤ length pairs.old }
    ensures pairs { take result pairs.new ≡ flat_map (pairs_for below.now hashes.now) sources.now }
    ensures count { result ≡ length (flat_map (pairs_for below.now hashes.now) sources.now) }
    ensures within { result ≤ length pairs.new }
    ensures few { result ≤ 2 * count_by is_inner sources.now }
    ensures long { length pairs.new ≡ length pairs.old }
{
    let mut count = 0;
    for i in 0..sources.len() {
        count = queue_place(sources[i], below, hashes, pairs, count);
    }
    count
}

// Puts the digests of the first so many pairs.
fn digest_first<D: Digester, L: Ledger>(
    pairs: &[(Digest, Digest)],
    count: usize,
    digests: &mut [Digest],
    steps: &mut Steps<L>,
)
    requires within { count ≤ length pairs.now }
    requires room { length digests.old ≡ length pairs.now }
    ensures value { take count digests.new ≡ map (pair_digest D.digest_of) (take count pairs.now) }
    ensures long { length digests.new ≡ length digests.old }
    ensures steps { steps.new ≡ steps.old + count }
{
    D::digest_pairs(&pairs[..count], &mut digests[..count], steps);
}

// The node of a place, and the digests behind those that were made for it.
fn settle_place<'d, D: Digester>(
    source: PlaceSource,
    leaves: &[Digest],
    hashes: &[Digest],
    below: &[PlaceNode],
    digests: &'d [Digest],
) -> (PlaceNode, &'d [Digest])
    requires within { IsWithin (length below.now) (length leaves.now) (length hashes.now) source }
    requires made { take (length (pairs_for below.now hashes.now source)) digests.now
        ≡ map (pair_digest D.digest_of) (pairs_for below.now hashes.now source) }
    ensures node { result.0 ≡ node_from D.digest_of leaves.now hashes.now below.now source }
    ensures rest { result.1.now ≡ drop (length (pairs_for below.now hashes.now source)) digests.now }
{
    let (left, right) = match source {
        PlaceSource::Target(i) => {
            let target = PlaceNode {
                digest: leaves[i],
                left: None,
            };
            return (target, digests);
        }
        PlaceSource::Halves(left, right) => (half(below, hashes, left), half(below, hashes, right)),
    };
    let digest = digests[0];
    match (left.1, right.1) {
        (Some(_), Some(_)) => (
            PlaceNode {
                digest,
                left: Some(digests[1]),
            },
            &digests[2..],
        ),
        (left, right) => (
            PlaceNode {
                digest,
                left: left.or(right).copied(),
            },
            &digests[1..],
        ),
    }
}

// The nodes of the places, of which all digests are made.
fn settle<D: Digester>(
    sources: &[PlaceSource],
    leaves: &[Digest],
    hashes: &[Digest],
    below: &[PlaceNode],
    digests: &[Digest],
    nodes: &mut [PlaceNode],
)
    requires within { AreWithin (length below.now) (length leaves.now) (length hashes.now) sources.now }
    requires made { digests.now ≡ map (pair_digest D.digest_of) (flat_map (pairs_for below.now hashes.now) sources.now) }
    requires long { length nodes.old ≡ length sources.now }
    ensures { nodes.new ≡ map (node_from D.digest_of leaves.now hashes.now below.now) sources.now }
{
    let mut rest = digests;
    for i in 0..sources.len() {
        let (node, behind) = settle_place::<D>(sources[i], leaves, hashes, below, rest);
        nodes[i] = node;
        rest = behind;
    }
}

// The nodes of at most 8 places, all of which are made of nodes that are there.
pub(crate) fn evaluate_batch<D: Digester, L: Ledger>(
    sources: &[PlaceSource],
    leaves: &[Digest],
    hashes: &[Digest],
    below: &[PlaceNode],
    nodes: &mut [PlaceNode],
    batch: &mut Batch,
    steps: &mut Steps<L>,
)
    requires within { AreWithin (length below.now) (length leaves.now) (length hashes.now) sources.now }
    requires few { length sources.now ≤ 8 }
    requires long { length nodes.old ≡ length sources.now }
    ensures nodes { nodes.new ≡ map (node_from D.digest_of leaves.now hashes.now below.now) sources.now }
    ensures steps { steps.new ≤ steps.old + 2 * count_by is_inner sources.now }
{
    let Batch { pairs, digests } = batch;
    let count = queue(sources, below, hashes, pairs);
    digest_first::<D, L>(pairs, count, digests, steps);
    settle::<D>(sources, leaves, hashes, below, &digests[..count], nodes);
}
