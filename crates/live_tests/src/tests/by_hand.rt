//! Forests that were worked out by hand, or by other implementations.
ghost use Rattle.std.specs.Prelude.{◌≡◌, ◌<◌};

use forest_place::{Place, place_of};
use forest_roots::pair;
use live_forest::Forest;
use sha2::{Digest as Hash, Sha256};
use std::alloc::Global;
use std::marker::Brand;
use std::process::Abort;
use std::sync::ledger::{Blank, Ledger};
use std::test::Fail;
use uo_base::NoMemory;
use uo_digest::{Digest, Digester, Sha512t256, Steps, XorFold, hex_plain};

/// A forest whose entry i has the byte 2^i by XorFold, where a node has the exclusive or of its leaves.
struct Row {
    entries: u64,
    spent: &'static [u64],
    /// Row, offset and byte of the nodes that stand at places, with 0 where none stands.
    nodes: &'static [(u8, u64, u8)],
    /// Entries, and the places at which they stand.
    places: &'static [(u64, u8, u64)],
}

const ROWS: [Row; 5] = [
    // Beside a spent entry the other one moves up.
    Row {
        entries: 4,
        spent: &[1],
        nodes: &[
            (2, 0, 0x0d),
            (1, 0, 0x01),
            (1, 1, 0x0c),
            (0, 0, 0),
            (0, 1, 0),
        ],
        places: &[(0, 1, 0), (2, 0, 2), (3, 0, 3)],
    },
    // A slot's only entry is spent.
    Row {
        entries: 5,
        spent: &[4],
        nodes: &[(2, 0, 0x0f), (0, 4, 0), (1, 2, 0), (3, 0, 0)],
        places: &[(0, 0, 0), (3, 0, 3)],
    },
    // Where a half has none left, the other half moves up whole.
    Row {
        entries: 8,
        spent: &[2, 3],
        nodes: &[
            (3, 0, 0xf3),
            (2, 0, 0x03),
            (2, 1, 0xf0),
            (1, 0, 0x01),
            (1, 1, 0x02),
            (0, 0, 0),
            (0, 1, 0),
        ],
        places: &[(0, 1, 0), (1, 1, 1), (4, 0, 4)],
    },
    Row {
        entries: 4,
        spent: &[0, 1, 2, 3],
        nodes: &[(2, 0, 0), (1, 0, 0), (1, 1, 0), (0, 0, 0), (0, 3, 0)],
        places: &[],
    },
    // One entry left of eight stands at the root.
    Row {
        entries: 8,
        spent: &[0, 1, 2, 3, 4, 6, 7],
        nodes: &[(3, 0, 0x20), (2, 1, 0), (0, 5, 0)],
        places: &[(5, 3, 0)],
    },
];

// A digest of one byte, 32 times.
fn digest(byte: u8) -> Digest {
    Digest([byte; 32])
}

fn build<L: Ledger>(
    rt: &impl Abort,
    forest: &mut Forest<XorFold>,
    row: &Row,
    steps: &mut Steps<L>,
) {
    for i in 0..row.entries {
        assert!(rt; i < 8 && 0 < forest.spare() && forest.leaves() < 8);
        assert!(rt; forest.add(digest(1 << i), steps) == i);
    }
    for number in row.spent {
        assert!(rt; forest.live(*number));
        forest.remove(*number, steps);
    }
}

fn check_nodes(rt: &impl Abort, forest: &Forest<XorFold>, row: &Row) {
    for (row, off, byte) in row.nodes {
        let place = Place {
            row: *row,
            off: *off,
        };
        let mut node = None;
        if *byte > 0 {
            node = Some(digest(*byte));
        }
        assert!(rt; forest.digest_at(place) == node);
    }
}

fn check_places(rt: &impl Abort, forest: &Forest<XorFold>, row: &Row) {
    for (number, row, off) in row.places {
        let place = Place {
            row: *row,
            off: *off,
        };
        assert!(rt; forest.live(*number));
        assert!(rt; forest.place(*number) == place);
        assert!(rt; forest.number_at(place) == Some(*number));
    }
}

fn check_row<L: Ledger>(
    rt: &impl Abort,
    alloc: Global,
    row: &Row,
    steps: &mut Steps<L>,
) -> Result<(), NoMemory> {
    let mut forest = Forest::<XorFold>::new(alloc);
    forest.reserve(row.entries)?;
    build(rt, &mut forest, row, steps);
    assert!(rt; forest.leaves() == row.entries && forest.spare() == 0);
    check_nodes(rt, &forest, row);
    check_places(rt, &forest, row);
    Ok(())
}

fn stands_as_by_hand<L: Ledger>(
    rt: &impl Abort,
    alloc: Global,
    steps: &mut Steps<L>,
) -> Result<(), NoMemory> {
    for row in &ROWS {
        check_row(rt, alloc, row, steps)?;
    }
    Ok(())
}

// No room is left, and asking for more is no want of memory where it is there.
fn check_room(rt: &impl Abort, forest: &mut Forest<XorFold>) -> Result<(), NoMemory> {
    assert!(rt; forest.spare() == 0);
    forest.reserve(2)?;
    forest.reserve(1)?;
    assert!(rt; forest.spare() == 2);
    assert!(rt; forest.reserve(u64::MAX).is_err());
    assert!(rt; forest.leaves() == 6 && forest.spare() == 2);
    Ok(())
}

// An addition behind an empty root, and entries that are cut off.
fn meets_edges<L: Ledger>(
    rt: &impl Abort,
    alloc: Global,
    steps: &mut Steps<L>,
) -> Result<(), NoMemory> {
    let mut forest = Forest::<XorFold>::new(alloc);
    forest.reserve(6)?;
    build(rt, &mut forest, &ROWS[1], steps);
    assert!(rt; forest.root(0) == Some(None) && forest.root(1) == None);
    assert!(rt; forest.spare() == 1 && forest.leaves() == 5);
    let _ = forest.add(digest(99), steps);
    assert!(rt; forest.root(0) == None);
    assert!(rt; forest.root(1) == Some(Some(digest(99))));
    assert!(rt; forest.number_at(Place { row: 1, off: 2 }) == Some(5));
    check_room(rt, &mut forest)
}

/// The digests that rustreexo and utreexod have for the root of the eight leaves SHA-256 of one byte, 00 to 07, and for the
/// parent of the first two.
const ROOT: &[u8; 64] = b"b151a956139bb821d4effa34ea95c17560e0135d1e4661fc23cedc3af49dac42";

const PARENT: &[u8; 64] = b"02242b37d8e851f1e86f46790298c7097df06893d6226b7c1453c213e91717de";

fn is_hex(node: Option<Digest>, want: &[u8; 64]) -> bool {
    match node {
        Some(node) => hex_plain(&node) == *want,
        None => false,
    }
}

// The same by one call, the parent from what stands above it.
fn check_walk(rt: &impl Abort, alloc: Global, forest: &Forest<Sha512t256>) -> Result<(), NoMemory> {
    let top = Place { row: 3, off: 0 };
    let above = [Place { row: 2, off: 0 }, top];
    let found = forest.digests_at(alloc, &above, &[Place { row: 1, off: 0 }, top])?;
    assert!(rt; found.len() == 2);
    assert!(rt; is_hex(found[0], PARENT));
    assert!(rt; is_hex(found[1], ROOT));
    Ok(())
}

fn is_as_others_have_it<L: Ledger>(
    rt: &impl Abort,
    alloc: Global,
    steps: &mut Steps<L>,
) -> Result<(), NoMemory> {
    let mut forest = Forest::<Sha512t256>::new(alloc);
    forest.reserve(8)?;
    for byte in 0..8 {
        assert!(rt; 0 < forest.spare() && forest.leaves() < 8);
        let _ = forest.add(Digest(Sha256::digest(&[byte])), steps);
    }
    assert!(rt; is_hex(forest.digest_at(Place { row: 3, off: 0 }), ROOT));
    assert!(rt; is_hex(forest.digest_at(Place { row: 1, off: 0 }), PARENT));
    check_walk(rt, alloc, &forest)
}

// The positions of the places that a proof of the first of a hundred entries needs.
const NEEDED: [u64; 6] = [1, 129, 193, 225, 241, 249];

fn grow<L: Ledger>(rt: &impl Abort, forest: &mut Forest<Sha512t256>, steps: &mut Steps<L>) {
    for byte in 0..100 {
        assert!(rt; 0 < forest.spare() && forest.leaves() < 100);
        let _ = forest.add(digest(byte), steps);
    }
}

// What stands there makes the root, pair by pair.
fn proves_the_first_entry<L: Ledger>(
    rt: &impl Abort,
    alloc: Global,
    steps: &mut Steps<L>,
) -> Result<(), NoMemory> {
    let mut forest = Forest::<Sha512t256>::new(alloc);
    forest.reserve(100)?;
    grow(rt, &mut forest, steps);
    let mut node = digest(0);
    for number in NEEDED {
        let Some(place) = place_of(number, 100) else {
            panic!(rt; "a position is none")
        };
        let Some(hash) = forest.digest_at(place) else {
            panic!(rt; "nothing stands at a place")
        };
        node = pair::<Sha512t256, L>(node, hash, steps);
    }
    assert!(rt; forest.root(6) == Some(Some(node)));
    Ok(())
}

fn check_all<L: Ledger>(rt: &impl Abort, alloc: Global, blank: Blank) -> Result<(), NoMemory>
    requires name { blank.name ≡ L.name }
    requires parts { blank.parts ≡ L.parts }
    requires some { 0 < blank.parts }
{
    let mut steps = Steps::<L>::new(blank);
    stands_as_by_hand(rt, alloc, &mut steps)?;
    meets_edges(rt, alloc, &mut steps)?;
    is_as_others_have_it(rt, alloc, &mut steps)?;
    proves_the_first_entry(rt, alloc, &mut steps)
}

#[test]
fn forests_by_hand(rt: HostRuntime) -> Result<(), Fail> {
    check_all::<Brand>(&rt, rt.alloc(), Blank::new(1))?;
    Ok(())
}
