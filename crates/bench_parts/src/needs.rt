//! What a bridge digests to spend what a message shows.
use crate::targets::targets_of;
use forest_place::slot_of;
use proof_shape::Targets;
use proof_wire::read_message;
use std::alloc::Global;

/// The digests of spending what a message shows of a forest of so many entries: where each output is spent by itself, one for
/// each place above it but for that to which its sibling moves up; and where a place above several is digested once for them all.
/// No two of its targets are taken to be siblings.
pub fn needs_of(alloc: Global, entries: u64, message: &[u8]) -> Option<(u64, u64)> {
    let view = read_message(alloc, message).ok()?;
    let mut positions = Vec::new(alloc);
    for i in 0..view.spends() {
        positions.push(view.target(i)).ok()?;
    }
    let targets = targets_of(alloc, entries, &positions)?;
    let covered = targets.covered().0.len();
    let count = targets.places().len();
    let shared = covered.saturating_sub(count).saturating_sub(count);
    Some((digests_apart(&targets, entries), shared as u64))
}

// How many rows the root of its slot is above a place, but one.
fn digests_apart(targets: &Targets, entries: u64) -> u64 {
    let mut digests: u64 = 0;
    for place in targets.places() {
        if entries < 1 << 40 {
            let root = slot_of(*place, entries).unwrap_or(place.row);
            let above = root.saturating_sub(place.row).saturating_sub(1);
            digests = digests.saturating_add(u64::from(above));
        }
    }
    digests
}
