//! The forest beside a plain list of its entries: what changes both, and whether it answers what the plain forest has.
ghost use Rattle.std.specs.Prelude.{◌≡◌, ℕ, ◌<◌, ◌≤◌, length, true, All, IfOk, IsTrue};
ghost use Rattle.std.specs.List.Sorted.{IsNonDecreasing};
ghost use Rattle.live_forest.specs.State.{is_live};

use super::plain::{Node, digest_at, is_beside, nodes_of, number_at};
use crate::leaf;
use forest_place::Place;
use live_forest::{Forest, Sibling};
use std::alloc::{AllocError, Global};
use std::process::Abort;
use std::sync::ledger::Ledger;
use uo_digest::{Digest, Sha512t256, Steps};

/// The forest, the plain list of its entries, and which of them are held.
#[derive(Drop)]
pub struct Both {
    pub forest: Forest<Sha512t256>,
    pub entries: Vec<Option<Digest>>,
    pub held: Vec<bool>,
}

/// Which entries are meant: of each so many in a row, those whose bits are set.
#[derive(Clone, Copy)]
pub struct Pick {
    pub period: u64,
    pub bits: u64,
}

fn has(pick: Pick, number: u64) -> bool {
    match number.checked_rem(pick.period) {
        Some(at) => at < 64 && (pick.bits >> at) % 2 == 1,
        None => false,
    }
}

// The live ones among the picked entries from one number on and before another.
fn live_among(
    alloc: Global,
    forest: &Forest<Sha512t256>,
    from: u64,
    to: u64,
    pick: Pick,
) -> Result<Vec<u64>, AllocError>
    ensures live { IfOk result (λ numbers. All (λ i. is_live forest.now.entries i ≡ true) numbers.items) }
    ensures rise { IfOk result (λ numbers. IsNonDecreasing numbers.items) }
{
    let mut numbers = Vec::new(alloc);
    for number in from..to {
        if has(pick, number) && forest.live(number) {
            numbers.push(number)?;
        }
    }
    Ok(numbers)
}

// Whether all entries from the one with number n on are live.
fn all_live(forest: &Forest<Sha512t256>, n: u64) -> bool
    ensures { IsTrue result → (i : ℕ) → n ≤ i → i < length forest.now.entries → is_live forest.now.entries i ≡ true }
{
    for number in n..forest.leaves() {
        if !forest.live(number) {
            return false;
        }
    }
    true
}

/// Adds an entry.
pub fn add<L: Ledger>(
    rt: &impl Abort,
    both: &mut Both,
    steps: &mut Steps<L>,
) -> Result<(), AllocError> {
    assert!(rt; 0 < both.forest.spare() && both.forest.leaves() < 300);
    let number = both.forest.leaves();
    both.entries.push(Some(leaf(number)))?;
    both.held.push(true)?;
    assert!(rt; both.forest.add(leaf(number), steps) == number);
    Ok(())
}

/// Adds the entries from one number on and before another at once.
pub fn add_all<L: Ledger>(
    rt: &impl Abort,
    alloc: Global,
    both: &mut Both,
    from: u64,
    to: u64,
    steps: &mut Steps<L>,
) -> Result<(), AllocError> {
    let mut digests = Vec::new(alloc);
    for number in from..to {
        digests.push(leaf(number))?;
        both.entries.push(Some(leaf(number)))?;
        both.held.push(true)?;
    }
    let count = digests.len() as u64;
    assert!(rt;
        count <= both.forest.spare() && both.forest.leaves() == from && from < 300 && count < 300
    );
    both.forest.add_all(&digests, steps);
    Ok(())
}

/// Spends an entry that is live, and makes one live that is spent and held.
pub fn turn<L: Ledger>(both: &mut Both, number: u64, steps: &mut Steps<L>) {
    let at = number as usize;
    if both.entries.len() <= at || both.forest.leaves() <= number {
        return;
    }
    if both.forest.live(number) {
        both.forest.remove(number, steps);
        both.entries[at] = None;
    } else if both.forest.held(number) {
        both.forest.restore(number, leaf(number), steps);
        both.entries[at] = Some(leaf(number));
    }
}

/// Does so with the picked entries from one number on and before another.
pub fn turn_each<L: Ledger>(both: &mut Both, from: u64, to: u64, pick: Pick, steps: &mut Steps<L>) {
    for number in from..to {
        if has(pick, number) {
            turn(both, number, steps);
        }
    }
}

/// Spends the live ones among such entries at once.
pub fn spend_all<L: Ledger>(
    rt: &impl Abort,
    alloc: Global,
    both: &mut Both,
    from: u64,
    to: u64,
    pick: Pick,
    steps: &mut Steps<L>,
) -> Result<(), AllocError> {
    let spent = live_among(alloc, &both.forest, from, to, pick)?;
    both.forest.remove_all(&spent, steps);
    for number in spent.iter() {
        let at = *number as usize;
        assert!(rt; at < both.entries.len());
        both.entries[at] = None;
    }
    Ok(())
}

/// Lets the spent ones among such entries go.
pub fn forget_each(rt: &impl Abort, both: &mut Both, from: u64, to: u64, pick: Pick) {
    for number in from..to {
        if has(pick, number) && number < both.forest.leaves() && !both.forest.live(number) {
            both.forest.forget(number);
            let at = number as usize;
            assert!(rt; at < both.held.len());
            both.held[at] = false;
        }
    }
}

/// Drops the entries from the one with number n on, if all of them are live.
pub fn cut<L: Ledger>(both: &mut Both, n: u64, steps: &mut Steps<L>) {
    if n <= both.forest.leaves() && all_live(&both.forest, n) {
        both.forest.cut(n, steps);
        both.entries.truncate(n as usize);
        both.held.truncate(n as usize);
    }
}

// All places of a forest over n entries, and one behind the last of each row.
fn all_places(alloc: Global, n: u64) -> Result<Vec<Place>, AllocError> {
    let mut places = Vec::new(alloc);
    for row in 0..10u8 {
        for off in 0..=n >> row {
            places.push(Place { row, off })?;
        }
    }
    Ok(places)
}

// Whether the look-ups at all places answer what the plain forest has, one by one and on one walk with these places above.
fn check_places(
    rt: &impl Abort,
    alloc: Global,
    forest: &Forest<Sha512t256>,
    nodes: &[Node],
    above: &[Place],
    places: &[Place],
) {
    let Ok(digests) = forest.digests_at(alloc, above, places) else {
        panic!(rt; "no memory")
    };
    for (place, digest) in places.iter().zip(digests.iter()) {
        assert!(rt; *digest == digest_at(nodes, *place));
        assert!(rt; forest.digest_at(*place) == *digest);
        assert!(rt; forest.number_at(*place) == number_at(nodes, *place));
    }
}

// The places beside the ways from the targets up to the roots, with what the plain forest over n entries has there.
fn siblings_of(
    alloc: Global,
    n: u64,
    nodes: &[Node],
    targets: &[Place],
    places: &[Place],
) -> Result<Vec<Sibling>, AllocError> {
    let mut siblings = Vec::new(alloc);
    for place in places {
        if let (true, Some(digest)) = (is_beside(n, targets, *place), digest_at(nodes, *place)) {
            siblings.push(Sibling {
                place: *place,
                digest,
            })?;
        }
    }
    Ok(siblings)
}

// Whether the live ones among the picked entries stand where the plain forest has them, and what proves them is what it has beside their ways up.
fn check_proof(
    rt: &impl Abort,
    alloc: Global,
    forest: &Forest<Sha512t256>,
    nodes: &[Node],
    pick: Pick,
    places: &[Place],
) -> Result<(), AllocError> {
    let numbers = live_among(alloc, forest, 0, 300, pick)?;
    let Ok(proof) = forest.proof_of(alloc, &numbers) else {
        panic!(rt; "no memory")
    };
    assert!(rt; proof.places.len() == numbers.len());
    for (place, number) in proof.places.iter().zip(numbers.iter()) {
        assert!(rt; number_at(nodes, *place) == Some(*number));
    }
    let expected = siblings_of(alloc, forest.leaves(), nodes, &proof.places, places)?;
    let mut siblings = Vec::with_capacity(alloc, proof.count())?;
    for row in &proof.rows {
        for sibling in row.as_slice() {
            siblings.push(Sibling {
                place: sibling.place(),
                digest: sibling.digest(),
            })?;
        }
    }
    assert!(rt; siblings.as_slice() == expected.as_slice());
    Ok(())
}

// Whether each slot has its root, and so have the roots as the forest tells them.
fn check_roots(rt: &impl Abort, forest: &Forest<Sha512t256>, nodes: &[Node]) {
    let roots = forest.roots();
    for row in 0..10u8 {
        let parts = forest.leaves() >> row;
        let mut root = None;
        if parts % 2 == 1 {
            let off = parts - 1;
            root = Some(digest_at(nodes, Place { row, off }));
        }
        assert!(rt; forest.root(row) == root);
        assert!(rt; roots.root(row) == root);
    }
}

// Whether the entries are live and held as they should be, and stand where the plain forest has them.
fn check_entries(rt: &impl Abort, both: &Both, nodes: &[Node]) {
    for number in 0..both.forest.leaves() + 12 {
        let at = number as usize;
        let entry = both.entries.get(at).copied().flatten();
        assert!(rt; both.forest.live(number) == entry.is_some());
        assert!(rt; both.forest.held(number) == both.held.get(at).copied().unwrap_or(false));
        if both.forest.live(number) {
            assert!(rt; number_at(nodes, both.forest.place(number)) == Some(number));
        }
    }
}

// The entries whose proofs are looked at.
const PROVED: [Pick; 5] = [
    Pick {
        period: 64,
        bits: 0b1,
    },
    Pick {
        period: 64,
        bits: 0b1_0010,
    },
    Pick {
        period: 64,
        bits: 0b1_0000_1101,
    },
    Pick {
        period: 5,
        bits: 0b1,
    },
    Pick {
        period: 1,
        bits: 0b1,
    },
];

/// Whether all that the forest tells is what the plain forest has.
pub fn check<L: Ledger>(
    rt: &impl Abort,
    alloc: Global,
    both: &Both,
    steps: &mut Steps<L>,
) -> Result<(), AllocError> {
    let nodes = nodes_of(rt, alloc, &both.entries, steps)?;
    assert!(rt; both.forest.leaves() == both.entries.len() as u64);
    let places = all_places(alloc, both.forest.leaves())?;
    check_places(rt, alloc, &both.forest, &nodes, &places, &places);
    check_places(rt, alloc, &both.forest, &nodes, &[], &places);
    for pick in PROVED {
        check_proof(rt, alloc, &both.forest, &nodes, pick, &places)?;
    }
    check_roots(rt, &both.forest, &nodes);
    check_entries(rt, both, &nodes);
    Ok(())
}
