//! A plain forest over a list of entries, each live or spent: what stands where, and what is known, by recursion.
use forest_place::{Place, sibling};
use forest_roots::pair;
use std::process::Abort;
use std::sync::ledger::Ledger;
use uo_digest::{Digest, Digester, Steps};

/// The entries, and those of them that are kept: live and watched.
#[derive(Drop)]
pub struct Plain {
    pub entries: Vec<Option<Digest>>,
    pub kept: Vec<Option<Digest>>,
}

// The digest of the 2^row entries from off * 2^row on.
fn content<D: Digester, L: Ledger>(
    rt: &impl Abort,
    entries: &[Option<Digest>],
    row: u8,
    off: u64,
    steps: &mut Steps<L>,
) -> Option<Digest> {
    assert!(rt; off < 1 << 40);
    if row == 0 {
        return entries.get(off as usize).copied().flatten();
    }
    let left = content::<D, L>(rt, entries, row - 1, 2 * off, steps);
    let right = content::<D, L>(rt, entries, row - 1, 2 * off + 1, steps);
    match (left, right) {
        (Some(left), Some(right)) => Some(pair::<D, L>(left, right, steps)),
        (Some(left), None) => Some(left),
        (None, right) => right,
    }
}

// Whether one of these entries is there.
fn has_some(rt: &impl Abort, entries: &[Option<Digest>], row: u8, off: u64) -> bool {
    assert!(rt; off < 1 << 40);
    if row == 0 {
        return entries.get(off as usize).copied().flatten().is_some();
    }
    has_some(rt, entries, row - 1, 2 * off) || has_some(rt, entries, row - 1, 2 * off + 1)
}

// The part that stands where this one would, were both its halves live.
fn settled(rt: &impl Abort, entries: &[Option<Digest>], row: u8, off: u64) -> (u8, u64) {
    assert!(rt; off < 1 << 40);
    if row == 0 {
        return (row, off);
    }
    let left = has_some(rt, entries, row - 1, 2 * off);
    let right = has_some(rt, entries, row - 1, 2 * off + 1);
    match (left, right) {
        (true, true) => (row, off),
        (true, false) => settled(rt, entries, row - 1, 2 * off),
        (false, _) => settled(rt, entries, row - 1, 2 * off + 1),
    }
}

fn is_root(rt: &impl Abort, entries: &[Option<Digest>], place: Place) -> bool {
    assert!(rt; place.row < 40 && place.off < 1 << 40);
    place.off % 2 == 0 && place.off + 1 == entries.len() as u64 >> place.row
}

// The part whose content stands at a place.
pub fn part_at(rt: &impl Abort, entries: &[Option<Digest>], place: Place) -> Option<(u8, u64)> {
    assert!(rt; place.row < 40 && place.off < 1 << 40);
    if is_root(rt, entries, place) {
        if has_some(rt, entries, place.row, place.off) {
            return Some(settled(rt, entries, place.row, place.off));
        }
        return None;
    }
    let above = Place {
        row: place.row + 1,
        off: place.off / 2,
    };
    let (row, off) = part_at(rt, entries, above)?;
    if row == 0 {
        return None;
    }
    assert!(rt; off < 1 << 39);
    Some(settled(rt, entries, row - 1, 2 * off + place.off % 2))
}

/// The digest that stands at a place.
pub fn digest_at<D: Digester, L: Ledger>(
    rt: &impl Abort,
    entries: &[Option<Digest>],
    place: Place,
    steps: &mut Steps<L>,
) -> Option<Digest> {
    let (row, off) = part_at(rt, entries, place)?;
    content::<D, L>(rt, entries, row, off, steps)
}

// Whether a kept entry stands at or beneath a place.
fn keeps(rt: &impl Abort, plain: &Plain, place: Place) -> bool {
    match part_at(rt, &plain.entries, place) {
        Some((row, off)) => has_some(rt, &plain.kept, row, off),
        None => false,
    }
}

/// Whether a place of the forest is known: a kept entry stands at or beneath it, or it is the sibling of such a place.
pub fn is_known(rt: &impl Abort, plain: &Plain, place: Place) -> bool {
    if keeps(rt, plain, place) {
        return true;
    }
    !is_root(rt, &plain.entries, place) && keeps(rt, plain, sibling(place))
}
