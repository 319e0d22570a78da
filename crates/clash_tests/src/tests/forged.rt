//! Messages that the roots accept, and that are not right.
ghost use Rattle.std.specs.Prelude.{◌≡◌, ◌<◌};

use crate::tests::spending::{block_for, both};
use crate::tests::{clash_in, grow, spell};
use clash_find::Clash;
use forest_place::Place;
use leaf_record::leaf_text;
use live_forest::Forest;
use output_index::Outputs;
use std::alloc::Global;
use std::marker::Brand;
use std::process::Abort;
use std::sync::ledger::{Blank, Ledger};
use std::test::Fail;
use uo_digest::{Digest, Digester, Steps, XorFold};

/// A message that names a place for an output that does not stand there.
struct Row {
    spent: &'static [u64],
    /// Row and offset of the place.
    target: (u8, u64),
    /// The row at which the texts meet, at the place or above it.
    meets: u8,
    /// The row of the place beside the way up that a lean message leaves out.
    known: Option<u8>,
    /// Whether the forest has a leaf there, and whether the message has one.
    leaves: (bool, bool),
}

/// A leaf against a leaf.
const LEAVES: [Row; 3] = [
    Row {
        spent: &[],
        target: (0, 2),
        meets: 0,
        known: Some(1),
        leaves: (true, true),
    },
    Row {
        spent: &[3],
        target: (1, 1),
        meets: 1,
        known: Some(2),
        leaves: (true, true),
    },
    Row {
        spent: &[0, 1, 2, 3, 4, 6, 7],
        target: (3, 0),
        meets: 3,
        known: None,
        leaves: (true, true),
    },
];

/// A leaf against an inner node: first the message's, then the forest's.
const LEAF_AND_INNER: [Row; 6] = [
    Row {
        spent: &[],
        target: (1, 0),
        meets: 1,
        known: Some(2),
        leaves: (false, true),
    },
    Row {
        spent: &[],
        target: (2, 1),
        meets: 2,
        known: Some(2),
        leaves: (false, true),
    },
    Row {
        spent: &[],
        target: (3, 0),
        meets: 3,
        known: None,
        leaves: (false, true),
    },
    Row {
        spent: &[1],
        target: (0, 0),
        meets: 1,
        known: Some(2),
        leaves: (true, false),
    },
    Row {
        spent: &[1, 2, 3],
        target: (0, 1),
        meets: 2,
        known: Some(2),
        leaves: (true, false),
    },
    Row {
        spent: &[0, 1, 2, 3, 4, 6, 7],
        target: (0, 6),
        meets: 3,
        known: None,
        leaves: (true, false),
    },
];

/// Two inner nodes.
const INNER: [Row; 3] = [
    Row {
        spent: &[],
        target: (0, 0),
        meets: 1,
        known: Some(1),
        leaves: (false, false),
    },
    Row {
        spent: &[],
        target: (0, 5),
        meets: 2,
        known: Some(0),
        leaves: (false, false),
    },
    Row {
        spent: &[],
        target: (0, 7),
        meets: 3,
        known: Some(1),
        leaves: (false, false),
    },
];

fn place_of(place: (u8, u64)) -> Place {
    Place {
        row: place.0,
        off: place.1,
    }
}

/// The place above this one in a row.
fn above(place: Place, row: u8) -> Place {
    let mut off = place.off;
    for _ in place.row..row {
        off /= 2;
    }
    Place { row, off }
}

/// What is needed beside the way up, with the digest that stands there, or another where nothing does. Right below where the
/// texts meet, it is what makes up for the digest of the claim.
fn beside(
    alloc: Global,
    forest: &Forest<XorFold>,
    row: &Row,
    claim: Digest,
) -> Result<Vec<(Place, Digest)>, Fail> {
    let mut needed = Vec::new(alloc);
    let mut digest = claim;
    for up in row.target.0..3 {
        let here = above(place_of(row.target), up);
        let sibling = Place {
            row: up,
            off: here.off ^ 1,
        };
        let mut hash = forest.digest_at(sibling).unwrap_or(Digest([9; 32]));
        if up < 255 && up + 1 == row.meets {
            let there = forest.digest_at(above(here, row.meets)).ok_or("a node")?;
            hash = both(there, digest);
        }
        digest = both(digest, hash);
        needed.push((sibling, hash))?;
    }
    Ok(needed)
}

/// The digest of the claim: what stands at the target if the texts meet there, and else any other.
fn claimed(forest: &Forest<XorFold>, row: &Row) -> Result<Digest, Fail> {
    let target = place_of(row.target);
    if row.target.0 == row.meets {
        return Ok(forest.digest_at(target).ok_or("a node")?);
    }
    Ok(Digest([0x77; 32]))
}

/// The text of the node at a place.
fn text_there(
    alloc: Global,
    forest: &Forest<XorFold>,
    outputs: &Outputs,
    place: Place,
) -> Result<Vec<u8>, Fail> {
    let mut text = Vec::new(alloc);
    if let Some(number) = forest.number_at(place) {
        leaf_text(&outputs.output(number).ok_or("an output")?, &mut text)?;
        return Ok(text);
    }
    for side in 0..2u64 {
        let half = Place {
            row: place.row.wrapping_sub(1),
            off: place.off.wrapping_mul(2).wrapping_add(side),
        };
        text.extend_from_slice(&forest.digest_at(half).ok_or("a half")?.0)?;
    }
    Ok(text)
}

/// Two different texts with one digest, the first that of the node at this place.
fn check_texts<L: Ledger>(
    rt: &impl Abort,
    clash: &Clash,
    first: &[u8],
    leaves: (bool, bool),
    steps: &mut Steps<L>,
) {
    assert!(rt; clash.first.as_slice() == first);
    assert!(rt; clash.first.as_slice() != clash.second.as_slice());
    assert!(rt; XorFold::digest(&clash.first, steps) == clash.digest);
    assert!(rt; XorFold::digest(&clash.second, steps) == clash.digest);
    assert!(rt; (clash.first.len() != 64) == leaves.0);
    assert!(rt; (clash.second.len() != 64) == leaves.1);
}

/// The message in full, or lean.
fn check_message<L: Ledger>(
    rt: &impl Abort,
    alloc: Global,
    forest: &Forest<XorFold>,
    outputs: &Outputs,
    row: &Row,
    lean: bool,
    steps: &mut Steps<L>,
) -> Result<(), Fail> {
    let claim = claimed(forest, row)?;
    let mut given = Vec::new(alloc);
    let mut known = None;
    for needed in beside(alloc, forest, row, claim)? {
        if lean && row.known == Some(needed.0.row) {
            known = Some(needed);
        } else {
            given.push(needed.1)?;
        }
    }
    let block = block_for(alloc, claim, steps)?;
    let text = spell(alloc, lean, place_of(row.target), block, &given)?;
    let clash = clash_in(rt, alloc, forest, outputs, &text, known, steps)?.ok_or("a clash")?;
    let meets = above(place_of(row.target), row.meets);
    let first = text_there(alloc, forest, outputs, meets)?;
    check_texts(rt, &clash, &first, row.leaves, steps);
    Ok(())
}

fn check_rows<L: Ledger>(
    rt: &impl Abort,
    alloc: Global,
    rows: &[Row],
    blank: Blank,
) -> Result<(), Fail>
    requires name { blank.name ≡ L.name }
    requires parts { blank.parts ≡ L.parts }
    requires some { 0 < blank.parts }
{
    let mut steps = Steps::<L>::new(blank);
    for row in rows {
        let mut forest = Forest::<XorFold>::new(alloc);
        let mut outputs = Outputs::new(alloc);
        grow(rt, alloc, &mut forest, &mut outputs, row.spent, &mut steps)?;
        for lean in [false, true] {
            check_message(rt, alloc, &forest, &outputs, row, lean, &mut steps)?;
        }
    }
    Ok(())
}

#[test]
fn leaf_meets_leaf(rt: HostRuntime) -> Result<(), Fail> {
    check_rows::<Brand>(&rt, rt.alloc(), &LEAVES, Blank::new(1))
}

#[test]
fn leaf_meets_inner_node(rt: HostRuntime) -> Result<(), Fail> {
    check_rows::<Brand>(&rt, rt.alloc(), &LEAF_AND_INNER, Blank::new(1))
}

#[test]
fn inner_nodes_meet(rt: HostRuntime) -> Result<(), Fail> {
    check_rows::<Brand>(&rt, rt.alloc(), &INNER, Blank::new(1))
}
