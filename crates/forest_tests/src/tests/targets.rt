//! Lists of positions that were judged by hand, and all pairs of places of small forests, judged by a plain reading.
ghost use Rattle.std.specs.Prelude.{◌^◌, ◌<◌};
ghost use Rattle.forest_place.specs.Forest.{InForest};

use forest_place::{Place, place_of, sibling};
use proof_shape::{ShapeFault, Survey, Targets};
use std::alloc::Global;
use std::process::Abort;
use std::test::Fail;

/// Entries, positions, and what is wrong with them.
const LISTS: [(u64, &[u64], Option<ShapeFault>); 12] = [
    (8, &[12, 0], Some(ShapeFault::Beneath(1, 0))),
    (8, &[0, 12], Some(ShapeFault::Beneath(1, 0))),
    (8, &[3, 3], Some(ShapeFault::Repeated(1, 0))),
    (8, &[15], Some(ShapeFault::Outside(0))),
    (5, &[10], Some(ShapeFault::Outside(0))),
    // The least index counts, whatever is wrong after it, and the first place that is met.
    (8, &[1, 0, 15, 12, 0], Some(ShapeFault::Outside(2))),
    (8, &[4, 1, 0, 5, 12, 4], Some(ShapeFault::Beneath(4, 1))),
    (8, &[7, 14, 7], Some(ShapeFault::Beneath(1, 0))),
    (8, &[2, 6, 2, 14], Some(ShapeFault::Repeated(2, 0))),
    (0, &[0], Some(ShapeFault::Outside(0))),
    (0, &[], None),
    (5, &[4, 12], None),
];

#[test]
fn judges_positions(rt: HostRuntime) {
    for (n, positions, want) in &LISTS {
        assert!(rt; *n < 1 << 40 && positions.len() < 1 << 32);
        assert!(rt; Targets::new(rt.alloc(), *n, positions).err() == *want);
        let survey = Survey::of(rt.alloc(), *n, positions);
        assert!(rt; matches!(survey, Ok(Some(_))) == want.is_none());
    }
}

/// The same of fixed positions: those of rows 1 and 2 begin at 2^40 and at 2^40 + 2^39, whatever the count of entries.
const FIXED: [(u64, &[u64], Option<ShapeFault>); 8] = [
    (4, &[1_099_511_627_776], None),
    (5, &[1_099_511_627_778], Some(ShapeFault::Outside(0))),
    (5, &[8], Some(ShapeFault::Outside(0))),
    (8, &[0, 1_649_267_441_664], Some(ShapeFault::Beneath(1, 0))),
    (8, &[3, 1_099_511_627_777], Some(ShapeFault::Beneath(1, 0))),
    (8, &[3, 4, 3], Some(ShapeFault::Repeated(2, 0))),
    (8, &[2_199_023_255_551], Some(ShapeFault::Outside(0))),
    (8, &[7, u64::MAX], Some(ShapeFault::Outside(1))),
];

#[test]
fn judges_fixed_positions(rt: HostRuntime) {
    for (n, positions, want) in &FIXED {
        assert!(rt; *n < 1 << 40 && positions.len() < 1 << 32);
        assert!(rt; Targets::new_fixed(rt.alloc(), *n, positions).err() == *want);
    }
}

// The left half of four entries, whose proof needs the right half.
#[test]
fn names_a_half(rt: HostRuntime) -> Result<(), Fail> {
    let targets = Targets::new_fixed(rt.alloc(), 4, &[1_099_511_627_776])?;
    assert!(rt; targets.places() == [Place { row: 1, off: 0 }].as_slice());
    assert!(rt; targets.needed() == [Place { row: 1, off: 1 }].as_slice());
    Ok(())
}

// Where a place of the forest goes: row and offset.
fn goes(rt: &impl Abort, targets: &Targets, row: u8, off: u64) -> Option<(u8, u64)> {
    assert!(rt; row < 40 && off < targets.leaves() >> row);
    let place = targets.moved(Place { row, off })?;
    Some((place.row, place.off))
}

/// Row and offset of places among eight entries of which the third and the fourth are spent, and of where they go.
const MOVES: [(u8, u64, Option<(u8, u64)>); 10] = [
    (0, 0, Some((1, 0))),
    (0, 1, Some((1, 1))),
    (0, 2, None),
    (0, 3, None),
    (1, 0, Some((2, 0))),
    (1, 1, None),
    (1, 2, Some((1, 2))),
    (2, 0, Some((2, 0))),
    (2, 1, Some((2, 1))),
    (3, 0, Some((3, 0))),
];

fn has_needed(targets: &Targets, at: usize, row: u8, off: u64) -> bool {
    targets.needed().get(at) == Some(&Place { row, off })
}

#[test]
fn moves_in_eight(rt: HostRuntime) -> Result<(), Fail> {
    let targets = Targets::new(rt.alloc(), 8, &[2, 3])?;
    assert!(rt; targets.leaves() == 8);
    assert!(rt; targets.len() == 2);
    assert!(rt; targets.place(1) == (Place { row: 0, off: 3 }));
    assert!(rt; targets.needed().len() == 2);
    assert!(rt; has_needed(&targets, 0, 1, 0) && has_needed(&targets, 1, 2, 1));
    for (row, off, want) in MOVES {
        assert!(rt; goes(&rt, &targets, row, off) == want);
    }
    Ok(())
}

/// The third and the fourth of eight entries, and the places above them.
const PATHS: [Place; 5] = [
    Place { row: 0, off: 2 },
    Place { row: 0, off: 3 },
    Place { row: 1, off: 1 },
    Place { row: 2, off: 0 },
    Place { row: 3, off: 0 },
];

/// What a proof of them has to give.
const BESIDE: [Place; 2] = [Place { row: 1, off: 0 }, Place { row: 2, off: 1 }];

#[test]
fn paths_in_eight(rt: HostRuntime) -> Result<(), Fail> {
    let targets = Targets::new(rt.alloc(), 8, &[2, 3])?;
    assert!(rt; targets.places() == &PATHS[..2]);
    let (covered, positions) = targets.covered();
    assert!(rt; covered == PATHS.as_slice());
    assert!(rt; positions == [2, 3, 9, 12, 14].as_slice());
    assert!(rt; targets.needed() == BESIDE.as_slice());
    let none = Targets::none(rt.alloc(), 8);
    assert!(rt; none.covered().0.is_empty());
    Ok(())
}

// The greatest forest, with targets at both ends. Its last entry is a slot of its own.
#[test]
fn reaches_both_ends(rt: HostRuntime) -> Result<(), Fail> {
    let n = (1 << 40) - 1;
    let targets = Targets::new(rt.alloc(), n, &[0, n - 1])?;
    assert!(rt; targets.len() == 2);
    assert!(rt; targets.needed().len() == 39);
    assert!(rt; has_needed(&targets, 0, 0, 1) && has_needed(&targets, 38, 38, 1));
    assert!(rt; goes(&rt, &targets, 0, n - 1) == None);
    assert!(rt; goes(&rt, &targets, 0, 1) == Some((1, 0)));
    assert!(rt; goes(&rt, &targets, 39, 0) == Some((39, 0)));
    Ok(())
}

// Whether a place is another, or stands above it.
fn covers(p: Place, q: Place) -> bool {
    q.row <= p.row && p.row < 40 && q.off >> (p.row - q.row) == p.off
}

// What is wrong with two places.
fn fault_of(p: Place, q: Place) -> Option<ShapeFault> {
    if p == q {
        Some(ShapeFault::Repeated(1, 0))
    } else if covers(p, q) || covers(q, p) {
        Some(ShapeFault::Beneath(1, 0))
    } else {
        None
    }
}

fn check_pair(rt: &impl Abort, alloc: Global, n: u64, a: u64, b: u64) {
    assert!(rt; n < 1 << 40);
    let (Some(p), Some(q)) = (place_of(a, n), place_of(b, n)) else {
        return;
    };
    let want = fault_of(p, q);
    match Targets::new(alloc, n, &[a, b]) {
        Ok(targets) => {
            assert!(rt; want.is_none());
            check_needed(rt, n, p, q, targets.needed());
        }
        Err(fault) => assert!(rt; want == Some(fault)),
    }
}

// Whether a place has a parent that covers one of these, and covers none of them itself.
fn is_beside(place: Place, n: u64, p: Place, q: Place) -> bool {
    let beside = sibling(place);
    place.row < 39
        && place.off / 2 < n >> (place.row + 1)
        && (covers(beside, p) || covers(beside, q))
        && !covers(place, p)
        && !covers(place, q)
}

// Whether the siblings of covered places are needed that are not covered, in the order of all places.
fn check_needed(rt: &impl Abort, n: u64, p: Place, q: Place, needed: &[Place]) {
    let mut k = 0;
    for row in 0..5 {
        for off in 0..n >> row {
            let place = Place { row, off };
            if is_beside(place, n, p, q) {
                assert!(rt; needed.get(k) == Some(&place));
                assert!(rt; k < 100);
                k += 1;
            }
        }
    }
    assert!(rt; needed.len() == k);
}

#[test]
fn judges_all_pairs(rt: HostRuntime) {
    for n in 0..=20 {
        for a in 0..64 {
            for b in 0..64 {
                check_pair(&rt, rt.alloc(), n, a, b);
            }
        }
    }
}
