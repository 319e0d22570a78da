//! A plain forest: the nodes over a list of entries, laid out from the roots downwards and hashed from nothing by SHA-512/256.
use forest_place::{Place, sibling};
use forest_roots::pair;
use std::alloc::{AllocError, Global};
use std::process::Abort;
use std::sync::ledger::Ledger;
use uo_digest::{Digest, Sha512t256, Steps};

/// A node: its place, the number of its entry if it is one alone, and its digest.
#[derive(Clone, Copy)]
pub struct Node {
    pub place: Place,
    pub number: Option<u64>,
    pub digest: Digest,
}

/// The node at a place.
pub fn node_at(nodes: &[Node], place: Place) -> Option<&Node> {
    nodes.iter().find(|node| node.place == place)
}

/// The digest that stands at a place.
pub fn digest_at(nodes: &[Node], place: Place) -> Option<Digest> {
    Some(node_at(nodes, place)?.digest)
}

/// The number of the entry that stands at a place alone.
pub fn number_at(nodes: &[Node], place: Place) -> Option<u64> {
    node_at(nodes, place)?.number
}

// The digest of the 2^row entries from `first` on.
fn range_digest<L: Ledger>(
    rt: &impl Abort,
    entries: &[Option<Digest>],
    row: u8,
    first: usize,
    steps: &mut Steps<L>,
) -> Option<Digest> {
    if row == 0 {
        return entries.get(first).copied().flatten();
    }
    assert!(rt; row < 40 && first < 1 << 40);
    let middle = first + (1 << (row - 1));
    let left = range_digest(rt, entries, row - 1, first, steps);
    let right = range_digest(rt, entries, row - 1, middle, steps);
    match (left, right) {
        (Some(left), Some(right)) => Some(pair::<Sha512t256, L>(left, right, steps)),
        (left, None) => left,
        (None, right) => right,
    }
}

// Lays out the 2^row entries from `first` on at a place and beneath it.
fn walk<L: Ledger>(
    rt: &impl Abort,
    entries: &[Option<Digest>],
    row: u8,
    first: usize,
    place: Place,
    nodes: &mut Vec<Node>,
    steps: &mut Steps<L>,
) -> Result<(), AllocError> {
    let Some(digest) = range_digest(rt, entries, row, first, steps) else {
        return Ok(());
    };
    if row == 0 {
        let number = Some(first as u64);
        return Ok(nodes.push(Node {
            place,
            number,
            digest,
        })?);
    }
    assert!(rt; row < 40 && first < 1 << 40 && 0 < place.row && place.off < 1 << 40);
    let middle = first + (1 << (row - 1));
    if range_digest(rt, entries, row - 1, first, steps).is_none() {
        return walk(rt, entries, row - 1, middle, place, nodes, steps);
    }
    if range_digest(rt, entries, row - 1, middle, steps).is_none() {
        return walk(rt, entries, row - 1, first, place, nodes, steps);
    }
    nodes.push(Node {
        place,
        number: None,
        digest,
    })?;
    let left = Place {
        row: place.row - 1,
        off: 2 * place.off,
    };
    let right = Place {
        row: place.row - 1,
        off: 2 * place.off + 1,
    };
    walk(rt, entries, row - 1, first, left, nodes, steps)?;
    walk(rt, entries, row - 1, middle, right, nodes, steps)
}

/// The nodes of all slots.
pub fn nodes_of<L: Ledger>(
    rt: &impl Abort,
    alloc: Global,
    entries: &[Option<Digest>],
    steps: &mut Steps<L>,
) -> Result<Vec<Node>, AllocError> {
    let mut nodes = Vec::new(alloc);
    let mut first = 0;
    for row in (0..10).rev() {
        if (entries.len() >> row) % 2 == 1 {
            let place = Place {
                row,
                off: first as u64 >> row,
            };
            walk(rt, entries, row, first, place, &mut nodes, steps)?;
            assert!(rt; first < 1 << 40);
            first += 1 << row;
        }
    }
    Ok(nodes)
}

/// Whether a target stands at a place or beneath it.
pub fn is_above(place: Place, target: Place) -> bool {
    if target.row > place.row {
        return false;
    }
    let rows = u32::from(place.row - target.row);
    target.off.checked_shr(rows) == Some(place.off)
}

// Whether one of the targets does.
fn is_covered(targets: &[Place], place: Place) -> bool {
    for target in targets {
        if is_above(place, *target) {
            return true;
        }
    }
    false
}

// Whether the forest over n entries has no sibling of a place.
fn is_alone(n: u64, place: Place) -> bool {
    match n.checked_shr(u32::from(place.row)) {
        Some(places) => sibling(place).off >= places,
        None => true,
    }
}

/// Whether a place is beside the way from one of the targets up to a root of the forest over n entries. No root is beside a way up.
pub fn is_beside(n: u64, targets: &[Place], place: Place) -> bool {
    !is_alone(n, place) && !is_covered(targets, place) && is_covered(targets, sibling(place))
}
