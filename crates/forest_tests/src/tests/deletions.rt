//! Proofs that were evaluated by hand.
ghost use Rattle.std.specs.Prelude.{◌≡◌, ◌<◌};

mod steps;

use crate::digest;
use forest_place::Place;
use forest_roots::Roots;
use proof_shape::{Survey, Targets};
use proof_verify::{
    CoveredPlace, Preimage, ProofFault, Scratch, check_and_delete, evaluate_covered,
};
use std::alloc::Global;
use std::marker::Brand;
use std::process::Abort;
use std::sync::ledger::{Blank, Ledger};
use uo_digest::{Digest, Steps, XorFold};

fn place(row: u8, off: u64) -> Place {
    Place { row, off }
}

// Reads targets, reserves the scratch for them, and checks a proof.
fn check<L: Ledger>(
    rt: &impl Abort,
    alloc: Global,
    roots: &mut Roots<XorFold>,
    positions: &[u64],
    leaves: &[Digest],
    hashes: &[Digest],
    steps: &mut Steps<L>,
) -> Result<Vec<(Place, Digest)>, ProofFault> {
    assert!(rt; positions.len() < 1 << 32);
    let Ok(targets) = Targets::new(alloc, roots.leaves(), positions) else {
        panic!(rt; "no targets")
    };
    let mut scratch = Scratch::new(alloc);
    let Ok(()) = scratch.reserve(&targets) else {
        panic!(rt; "no memory")
    };
    assert!(rt; leaves.len() == targets.len() as usize);
    match check_and_delete(roots, &targets, leaves, hashes, &mut scratch, steps) {
        Ok(changes) => match Vec::from_slice(alloc, changes.pairs()) {
            Ok(pairs) => Ok(pairs),
            Err(_) => panic!(rt; "no memory"),
        },
        Err(fault) => Err(fault),
    }
}

// Four entries of 01, 02, 04 and 08.
fn four() -> Roots<XorFold> {
    let mut roots = Roots::<XorFold>::of(4);
    roots.put_root(2, Some(digest(15)));
    roots
}

// Why the second of four entries is not spent with these hashes. The roots stay.
fn fault_of_four<L: Ledger>(
    rt: &impl Abort,
    alloc: Global,
    hashes: &[Digest],
    steps: &mut Steps<L>,
) -> Option<ProofFault> {
    let mut roots = four();
    let fault = check(rt, alloc, &mut roots, &[1], &[digest(2)], hashes, steps).err();
    assert!(rt; roots.root(2) == Some(Some(digest(15))));
    fault
}

fn refuses_of_four<L: Ledger>(rt: &impl Abort, alloc: Global, steps: &mut Steps<L>) {
    let fault = fault_of_four(rt, alloc, &[digest(1), digest(13)], steps);
    let want = ProofFault::RootDiffers {
        row: 2,
        had: digest(15),
        computed: digest(14),
    };
    assert!(rt; fault == Some(want));
    let fault = fault_of_four(rt, alloc, &[digest(1)], steps);
    assert!(rt; fault == Some(ProofFault::HashCount { want: 2, got: 1 }));
}

fn deletes_of_four<L: Ledger>(rt: &impl Abort, alloc: Global, steps: &mut Steps<L>) {
    let mut roots = four();
    let hashes = [digest(1), digest(12)];
    let Ok(pairs) = check(rt, alloc, &mut roots, &[1], &[digest(2)], &hashes, steps) else {
        panic!(rt; "a right proof is refused")
    };
    let low = (place(1, 0), digest(1));
    let high = (place(2, 0), digest(13));
    assert!(rt; pairs.as_slice() == [low, high].as_slice());
    assert!(rt; roots.root(2) == Some(Some(digest(13))));
}

// The slot of one entry is emptied, and an addition is joined with the empty root.
fn empties_a_slot<L: Ledger>(rt: &impl Abort, alloc: Global, steps: &mut Steps<L>) {
    let mut roots = Roots::<XorFold>::of(5);
    roots.put_root(2, Some(digest(9)));
    roots.put_root(0, Some(digest(3)));
    let Ok(pairs) = check(rt, alloc, &mut roots, &[4], &[digest(3)], &[], steps) else {
        panic!(rt; "a right proof is refused")
    };
    assert!(rt; pairs.is_empty());
    assert!(rt; roots.root(2) == Some(Some(digest(9))));
    assert!(rt; roots.root(0) == Some(None));
    assert!(rt; roots.leaves() == 5);
    let _ = roots.add(digest(7), steps);
    assert!(rt; roots.leaves() == 6);
    assert!(rt; roots.root(1) == Some(Some(digest(7))));
}

fn spends_none_of_none<L: Ledger>(rt: &impl Abort, alloc: Global, steps: &mut Steps<L>) {
    let mut roots = Roots::<XorFold>::of(4);
    let hashes = [digest(1), digest(2)];
    let fault = check(rt, alloc, &mut roots, &[0], &[digest(3)], &hashes, steps).err();
    assert!(rt; fault == Some(ProofFault::EmptyRoot { row: 2 }));
    assert!(rt; roots.root(2) == Some(None));
}

// Why entries of the three slots of seven are not spent, where the last slot has this root.
fn fault_of_seven<L: Ledger>(
    rt: &impl Abort,
    alloc: Global,
    last: Option<Digest>,
    steps: &mut Steps<L>,
) -> Option<ProofFault> {
    let mut roots = Roots::<XorFold>::of(7);
    roots.put_root(2, Some(digest(1)));
    roots.put_root(1, Some(digest(1)));
    roots.put_root(0, last);
    let leaves = [digest(8), digest(4), digest(2)];
    let hashes = [digest(16), digest(32), digest(64)];
    check(rt, alloc, &mut roots, &[6, 4, 0], &leaves, &hashes, steps).err()
}

// The greatest slot is named, and an empty root before one that differs.
fn names_a_slot<L: Ledger>(rt: &impl Abort, alloc: Global, steps: &mut Steps<L>) {
    let fault = fault_of_seven(rt, alloc, None, steps);
    assert!(rt; fault == Some(ProofFault::EmptyRoot { row: 0 }));
    let fault = fault_of_seven(rt, alloc, Some(digest(1)), steps);
    let want = ProofFault::RootDiffers {
        row: 2,
        had: digest(1),
        computed: digest(82),
    };
    assert!(rt; fault == Some(want));
}

fn is_covered(item: &CoveredPlace, row: u8, preimage: Preimage, byte: u8) -> bool {
    item.place == place(row, u64::from(row == 0))
        && item.preimage == preimage
        && item.digest == digest(byte)
}

// The second of four leaves, and what its proof comes to at each place above it.
fn covers_of_four<L: Ledger>(rt: &impl Abort, alloc: Global, steps: &mut Steps<L>) {
    let Ok(Some(targets)) = Survey::of(alloc, 4, &[1]) else {
        panic!(rt; "no targets")
    };
    assert!(rt; targets.places().len() == 1 && targets.needed().len() == 2);
    let hashes = [digest(1), digest(12)];
    let Ok(items) = evaluate_covered::<XorFold, L>(alloc, &targets, &[digest(2)], &hashes, steps)
    else {
        panic!(rt; "no memory")
    };
    assert!(rt; items.len() == 3);
    assert!(rt; is_covered(&items[0], 0, Preimage::Target(0), 2));
    assert!(rt; is_covered(&items[1], 1, Preimage::Halves(digest(1), digest(2)), 3));
    assert!(rt; is_covered(&items[2], 2, Preimage::Halves(digest(3), digest(12)), 15));
}

fn check_all<L: Ledger>(rt: &impl Abort, alloc: Global, blank: Blank)
    requires name { blank.name ≡ L.name }
    requires parts { blank.parts ≡ L.parts }
    requires some { 0 < blank.parts }
{
    let mut steps = Steps::<L>::new(blank);
    refuses_of_four(rt, alloc, &mut steps);
    deletes_of_four(rt, alloc, &mut steps);
    empties_a_slot(rt, alloc, &mut steps);
    spends_none_of_none(rt, alloc, &mut steps);
    names_a_slot(rt, alloc, &mut steps);
    covers_of_four(rt, alloc, &mut steps);
}

#[test]
fn proofs_by_hand(rt: HostRuntime) {
    check_all::<Brand>(&rt, rt.alloc(), Blank::new(1));
}
