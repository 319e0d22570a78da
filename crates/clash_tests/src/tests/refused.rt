//! Messages that are right, and messages that the roots do not accept: nothing is found in them.
ghost use Rattle.std.specs.Prelude.{◌≡◌, ◌<◌};

use crate::tests::spending::block_of;
use crate::tests::{clash_in, grow, spell};
use forest_place::Place;
use live_forest::Forest;
use output_index::Outputs;
use std::alloc::Global;
use std::marker::Brand;
use std::process::Abort;
use std::sync::ledger::{Blank, Ledger};
use std::test::Fail;
use uo_digest::{Digest, Steps, XorFold};

/// A message that names a place, and says that block 16 times this number made the output. It has the hashes of these
/// places, and the hash of one may be known.
struct Row {
    spent: &'static [u64],
    target: (u8, u64),
    block: u8,
    hashes: &'static [(u8, u64)],
    known: Option<(u8, u64)>,
    lean: bool,
}

const ALL: [u64; 8] = [0, 1, 2, 3, 4, 5, 6, 7];

/// The block spends entry 4.
const RIGHT: [Row; 4] = [
    Row {
        spent: &[],
        target: (0, 4),
        block: 4,
        hashes: &[(0, 5), (1, 3), (2, 0)],
        known: None,
        lean: false,
    },
    Row {
        spent: &[],
        target: (0, 4),
        block: 4,
        hashes: &[(0, 5), (2, 0)],
        known: Some((1, 3)),
        lean: true,
    },
    Row {
        spent: &[5],
        target: (1, 2),
        block: 4,
        hashes: &[(1, 3), (2, 0)],
        known: Some((2, 0)),
        lean: false,
    },
    Row {
        spent: &[0, 1, 2, 3, 5, 6, 7],
        target: (3, 0),
        block: 4,
        hashes: &[],
        known: None,
        lean: true,
    },
];

/// A wrong block, a place of another entry, a wrong hash, one too few, one that is known already, a place that is none, and an
/// empty root.
const REFUSED: [Row; 7] = [
    Row {
        spent: &[],
        target: (0, 4),
        block: 3,
        hashes: &[(0, 5), (1, 3), (2, 0)],
        known: None,
        lean: false,
    },
    Row {
        spent: &[],
        target: (0, 5),
        block: 4,
        hashes: &[(0, 4), (1, 3), (2, 0)],
        known: None,
        lean: false,
    },
    Row {
        spent: &[],
        target: (0, 4),
        block: 4,
        hashes: &[(0, 5), (1, 2), (2, 0)],
        known: None,
        lean: false,
    },
    Row {
        spent: &[],
        target: (0, 4),
        block: 4,
        hashes: &[(0, 5), (1, 3)],
        known: Some((2, 0)),
        lean: false,
    },
    Row {
        spent: &[],
        target: (0, 4),
        block: 4,
        hashes: &[(0, 5), (1, 3), (2, 0)],
        known: Some((2, 0)),
        lean: true,
    },
    Row {
        spent: &[],
        target: (3, 1),
        block: 4,
        hashes: &[],
        known: None,
        lean: false,
    },
    Row {
        spent: &ALL,
        target: (0, 4),
        block: 4,
        hashes: &[(0, 5), (1, 3), (2, 0)],
        known: None,
        lean: false,
    },
];

fn place_of(place: (u8, u64)) -> Place {
    Place {
        row: place.0,
        off: place.1,
    }
}

/// What stands at a place, or another digest where nothing does.
fn digest_at(forest: &Forest<XorFold>, place: (u8, u64)) -> Digest {
    forest.digest_at(place_of(place)).unwrap_or(Digest([9; 32]))
}

fn check_row<L: Ledger>(
    rt: &impl Abort,
    alloc: Global,
    row: &Row,
    steps: &mut Steps<L>,
) -> Result<(), Fail> {
    let mut forest = Forest::<XorFold>::new(alloc);
    let mut outputs = Outputs::new(alloc);
    grow(rt, alloc, &mut forest, &mut outputs, row.spent, steps)?;
    let mut hashes = Vec::new(alloc);
    for place in row.hashes {
        hashes.push(digest_at(&forest, *place))?;
    }
    let known = match row.known {
        Some(place) => Some((place_of(place), digest_at(&forest, place))),
        None => None,
    };
    let text = spell(
        alloc,
        row.lean,
        place_of(row.target),
        block_of(row.block),
        &hashes,
    )?;
    let clash = clash_in(rt, alloc, &forest, &outputs, &text, known, steps)?;
    assert!(rt; clash.is_none());
    Ok(())
}

fn check_rows<L: Ledger>(
    rt: &impl Abort,
    alloc: Global,
    rows: &[Row],
    blank: Blank,
) -> Result<(), Fail>
    requires name { blank.name ≡ L.name }
    requires parts { blank.parts ≡ L.parts }
    requires some { 0 < blank.parts }
{
    let mut steps = Steps::<L>::new(blank);
    for row in rows {
        check_row(rt, alloc, row, &mut steps)?;
    }
    Ok(())
}

#[test]
fn right_messages(rt: HostRuntime) -> Result<(), Fail> {
    check_rows::<Brand>(&rt, rt.alloc(), &RIGHT, Blank::new(1))
}

#[test]
fn messages_that_are_refused(rt: HostRuntime) -> Result<(), Fail> {
    check_rows::<Brand>(&rt, rt.alloc(), &REFUSED, Blank::new(1))
}
