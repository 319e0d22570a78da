//! All deletions from forests of up to nine entries.
ghost use Rattle.std.specs.Prelude.{◌≡◌, ◌<◌};
ghost use Rattle.forest_place.specs.Forest.{InForest};

use super::plain::{Node, digest_at, is_above, nodes_of};
use crate::leaf;
use forest_place::{Place, position};
use forest_roots::{Roots, pair};
use proof_shape::Targets;
use proof_verify::{ProofFault, Scratch, check_and_delete};
use std::alloc::{AllocError, Global};
use std::marker::Brand;
use std::process::Abort;
use std::sync::ledger::{Blank, Ledger};
use uo_digest::{Digest, Sha512t256, Steps};

// Entries before and after a deletion, and the numbers of those that it spends.
#[derive(Drop)]
struct Case {
    before: Vec<Option<Digest>>,
    after: Vec<Option<Digest>>,
    spent: Vec<u64>,
}

// The case of a number, whose digits to base 3 tell what each entry is: spent before, spent now, or live.
fn case_of(alloc: Global, n: u64, number: u32) -> Result<Case, AllocError> {
    let mut before = Vec::new(alloc);
    let mut after = Vec::new(alloc);
    let mut spent = Vec::new(alloc);
    let mut rest = number;
    for i in 0..n {
        let entry = Some(leaf(i));
        before.push(if rest % 3 == 0 { None } else { entry })?;
        after.push(if rest % 3 == 2 { entry } else { None })?;
        if rest % 3 == 1 {
            spent.push(i)?;
        }
        rest /= 3;
    }
    Ok(Case {
        before,
        after,
        spent,
    })
}

// Where an entry stands.
fn place_of(rt: &impl Abort, nodes: &[Node], number: u64) -> Place {
    for node in nodes {
        if node.number == Some(number) {
            return node.place;
        }
    }
    panic!(rt; "an entry stands nowhere")
}

// The targets of a proof of the spent entries.
fn targets_of(
    rt: &impl Abort,
    alloc: Global,
    case: &Case,
    nodes: &[Node],
) -> Result<Targets, AllocError> {
    let n = case.before.len() as u64;
    let mut positions = Vec::new(alloc);
    for number in case.spent.iter() {
        let at = place_of(rt, nodes, *number);
        assert!(rt; n < 1 << 40 && at.row < 40 && at.off < n >> at.row);
        positions.push(position(at, n))?;
    }
    assert!(rt; n < 1 << 40 && positions.len() < 1 << 32);
    let Ok(targets) = Targets::new(alloc, n, &positions) else {
        panic!(rt; "no targets")
    };
    Ok(targets)
}

// What a proof says of the targets and of the places that it needs, in this order.
fn said_of(
    rt: &impl Abort,
    alloc: Global,
    targets: &Targets,
    nodes: &[Node],
) -> Result<Vec<(Place, Digest)>, AllocError> {
    let mut said = Vec::new(alloc);
    for at in targets.places().iter().chain(targets.needed().iter()) {
        let Some(digest) = digest_at(nodes, *at) else {
            panic!(rt; "nothing stands at a place")
        };
        said.push((*at, digest))?;
    }
    Ok(said)
}

// The same with the digest at an index changed.
fn changed(
    alloc: Global,
    said: &[(Place, Digest)],
    k: usize,
) -> Result<Vec<(Place, Digest)>, AllocError> {
    let mut others = Vec::new(alloc);
    for (at, digest) in said {
        let mut digest = *digest;
        if others.len() == k {
            digest.0[7] ^= 200;
        }
        others.push((*at, digest))?;
    }
    Ok(others)
}

fn digests_of(alloc: Global, said: &[(Place, Digest)]) -> Result<Vec<Digest>, AllocError> {
    let mut digests = Vec::new(alloc);
    for (_, digest) in said {
        digests.push(*digest)?;
    }
    Ok(digests)
}

// Checks what a proof says, and answers the pairs of an accepted one.
fn judge<L: Ledger>(
    rt: &impl Abort,
    alloc: Global,
    roots: &mut Roots<Sha512t256>,
    targets: &Targets,
    said: &[(Place, Digest)],
    steps: &mut Steps<L>,
) -> Result<Vec<(Place, Digest)>, ProofFault> {
    let Ok(digests) = digests_of(alloc, said) else {
        panic!(rt; "no memory")
    };
    let mut scratch = Scratch::new(alloc);
    let Ok(()) = scratch.reserve(targets) else {
        panic!(rt; "no memory")
    };
    let count = targets.len() as usize;
    assert!(rt; count <= digests.len() && targets.leaves() == roots.leaves());
    let (leaves, hashes) = digests.split_at(count);
    assert!(rt; leaves.len() == count);
    match check_and_delete(roots, targets, leaves, hashes, &mut scratch, steps) {
        Ok(changes) => match Vec::from_slice(alloc, changes.pairs()) {
            Ok(pairs) => Ok(pairs),
            Err(_) => panic!(rt; "no memory"),
        },
        Err(fault) => Err(fault),
    }
}

fn same_roots(left: &Roots<Sha512t256>, right: &Roots<Sha512t256>) -> bool {
    left.leaves() == right.leaves() && (0..40).all(|row| left.root(row) == right.root(row))
}

// The roots of so many entries with these nodes.
fn roots_of(rt: &impl Abort, n: u64, nodes: &[Node]) -> Roots<Sha512t256> {
    assert!(rt; n < 16);
    let mut roots = Roots::<Sha512t256>::of(n);
    for row in 0..4 {
        if roots.root(row).is_some() {
            assert!(rt; 0 < n >> row);
            let off = (n >> row) - 1;
            roots.put_root(row, digest_at(nodes, Place { row, off }));
        }
    }
    roots
}

// Whether the pairs are in order, each with the digest that stands at its place after the deletion.
fn check_digests(rt: &impl Abort, left: &[Node], pairs: &[(Place, Digest)]) {
    assert!(rt; pairs.is_sorted_by(|p, q| p.0 < q.0));
    for (at, digest) in pairs {
        assert!(rt; digest_at(left, *at) == Some(*digest));
    }
}

// The number of the pair of a place, if it stands above a target and something of it stays.
fn pair_of(
    rt: &impl Abort,
    targets: &Targets,
    pairs: &[(Place, Digest)],
    above: Place,
) -> Option<usize>
    requires { InForest targets.now.leaves above.row above.off }
{
    if !targets
        .places()
        .iter()
        .any(|target| above != *target && is_above(above, *target))
    {
        return None;
    }
    let goes = targets.moved(above)?;
    let Some(k) = pairs.iter().position(|pair| pair.0 == goes) else {
        panic!(rt; "no pair of a place")
    };
    Some(k)
}

// Whether the pairs are at the new places of what stays above targets, and nowhere else.
fn check_places(rt: &impl Abort, targets: &Targets, pairs: &[(Place, Digest)]) {
    let mut found = [0u8; 16];
    for row in 1..4 {
        for off in 0..targets.leaves() >> row {
            if let Some(k) = pair_of(rt, targets, pairs, Place { row, off }) {
                assert!(rt; k < 16);
                found[k] = 1;
            }
        }
    }
    let all = found.iter().filter(|mark| **mark == 1).count();
    assert!(rt; pairs.len() == all);
}

// What a proof says of a place: its target's leaf, its hash, or the pair of what it says of the children.
fn value<L: Ledger>(
    rt: &impl Abort,
    said: &[(Place, Digest)],
    row: u8,
    off: u64,
    steps: &mut Steps<L>,
) -> Digest {
    let place = Place { row, off };
    if let Some((_, digest)) = said.iter().find(|(at, _)| *at == place) {
        return *digest;
    }
    assert!(rt; row > 0 && off < 1 << 40);
    let left = value(rt, said, row - 1, 2 * off, steps);
    let right = value(rt, said, row - 1, 2 * off + 1, steps);
    pair::<Sha512t256, L>(left, right, steps)
}

// The fault of a proof by recursion from the greatest slot down, where the roots are those of the entries.
fn plain_fault<L: Ledger>(
    rt: &impl Abort,
    case: &Case,
    roots: &Roots<Sha512t256>,
    said: &[(Place, Digest)],
    steps: &mut Steps<L>,
) -> Option<ProofFault> {
    let n = case.before.len() as u64;
    for row in (0..4).rev() {
        if let Some(Some(had)) = roots.root(row) {
            assert!(rt; 0 < n >> row);
            let off = (n >> row) - 1;
            if case.spent.iter().any(|number| *number >> row == off) {
                let computed = value(rt, said, row, off, steps);
                if had != computed {
                    return Some(ProofFault::RootDiffers { row, had, computed });
                }
            }
        }
    }
    None
}

// A proof with a digest that is changed is refused as by recursion, and the roots stay.
fn check_changed<L: Ledger>(
    rt: &impl Abort,
    alloc: Global,
    case: &Case,
    targets: &Targets,
    said: &[(Place, Digest)],
    old: &Roots<Sha512t256>,
    steps: &mut Steps<L>,
) {
    let mut roots = old.copy();
    let fault = judge(rt, alloc, &mut roots, targets, said, steps).err();
    let want = plain_fault(rt, case, old, said, steps);
    assert!(rt; fault == want && want.is_some());
    assert!(rt; same_roots(&roots, old));
}

// A right proof is accepted: its pairs are where they should be, and the roots are those of what is left.
fn check_right<L: Ledger>(
    rt: &impl Abort,
    alloc: Global,
    case: &Case,
    targets: &Targets,
    said: &[(Place, Digest)],
    old: &Roots<Sha512t256>,
    steps: &mut Steps<L>,
) -> Result<(), AllocError> {
    let left = nodes_of(rt, alloc, &case.after, steps)?;
    let mut roots = old.copy();
    let Ok(pairs) = judge(rt, alloc, &mut roots, targets, said, steps) else {
        panic!(rt; "a right proof is refused")
    };
    check_digests(rt, &left, &pairs);
    check_places(rt, targets, &pairs);
    assert!(rt; same_roots(&roots, &roots_of(rt, case.before.len() as u64, &left)));
    Ok(())
}

fn check_case<L: Ledger>(
    rt: &impl Abort,
    alloc: Global,
    n: u64,
    number: u32,
    steps: &mut Steps<L>,
) -> Result<(), AllocError> {
    let case = case_of(alloc, n, number)?;
    let nodes = nodes_of(rt, alloc, &case.before, steps)?;
    let targets = targets_of(rt, alloc, &case, &nodes)?;
    let said = said_of(rt, alloc, &targets, &nodes)?;
    let old = roots_of(rt, n, &nodes);
    check_right(rt, alloc, &case, &targets, &said, &old, steps)?;
    for k in 0..said.len() {
        let other = changed(alloc, &said, k)?;
        check_changed(rt, alloc, &case, &targets, &other, &old, steps);
    }
    Ok(())
}

fn check_all<L: Ledger>(rt: &impl Abort, alloc: Global, blank: Blank)
    requires name { blank.name ≡ L.name }
    requires parts { blank.parts ≡ L.parts }
    requires some { 0 < blank.parts }
{
    let mut steps = Steps::<L>::new(blank);
    let mut cases = 1;
    for n in 0..10 {
        for number in 0..cases {
            assert!(rt; check_case(rt, alloc, n, number, &mut steps).is_ok());
        }
        assert!(rt; cases < 1 << 20);
        cases *= 3;
    }
}

#[test]
fn deletes_from_few(rt: HostRuntime) {
    check_all::<Brand>(&rt, rt.alloc(), Blank::new(1));
}
