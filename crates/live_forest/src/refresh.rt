//! Writing entries: the parts above one are made right, from the lowest upwards.
ghost use Rattle.std.specs.Prelude.{◌≡◌, ◌↔◌, suc, ◌+◌, ◌*◌, ◌/◌, ◌%◌, ◌^◌, ◌<◌, ◌≤◌, length, set, Some, IsTrue, true};
ghost use Rattle.std.specs.Prelude.{map, option_copied};
ghost use Rattle.forest_model.specs.Content.{join_digests};
ghost use Rattle.forest_place.specs.Forest.{InForest};
ghost use Rattle.forest_place.specs.Position.{rows as rows_of};
ghost use Rattle.live_forest.specs.Stores.{stored, is_listed, IsPartKept, HasRoomOf};
ghost use Rattle.live_forest.specs.Parts.{leaves_of, AreParts, ArePartsBut, AreBeside, pairs, IsClimbed};

use crate::store::Store;
use crate::waiting::part_of;
use forest_roots::pair;
use std::sync::ledger::Ledger;
use uo_digest::{Digest, Digester, Steps};

// Whether the forest has the part of the row above that has an entry.
fn goes_up(n: u64, row: u8, number: u64) -> bool
    requires { row < 40 }
    ensures { IsTrue result ↔ InForest n (suc row) (number / 2 ^ suc row) }
{
    part_of(number, row) < part_of(n, row)
}

// Makes the part of the row above that has an entry of its halves, and answers what it has.
fn join<D: Digester, L: Ledger>(
    store: &mut Store,
    n: u64,
    row: u8,
    number: u64,
    left: &Option<Digest>,
    right: &Option<Digest>,
    steps: &mut Steps<L>,
) -> Option<Digest>
    requires small { n < 2 ^ 40 }
    requires room { n ≤ store.old.len }
    requires within { InForest n (suc row) (number / 2 ^ suc row) }
    requires listed { is_listed store.old.pages number ≡ true }
    requires left { left.now ≡ stored store.old row (2 * (number / 2 ^ suc row)) }
    requires right { right.now ≡ stored store.old row (2 * (number / 2 ^ suc row) + 1) }
    ensures is { result ≡ join_digests D.digest_of left.now right.now }
    ensures put { IsPartKept store.old store.new row number result }
    ensures room { HasRoomOf store.old store.new }
    ensures cost { steps.new ≡ steps.old + pairs left.now right.now }
{
    let Some(l) = left else {
        store.put_part(n, row, number, *right);
        return *right;
    };
    let Some(r) = right else {
        store.put_part(n, row, number, *left);
        return *left;
    };
    let own = pair::<D, L>(*l, *r, steps);
    store.put_joined(n, row, number, own);
    Some(own)
}

// Finds what stands beside the parts that have an entry, by its row, and answers how many rows there are.
fn find_beside<'a, D: Digester>(
    store: &'a Store,
    n: u64,
    number: u64,
    beside: &mut [Option<&'a Digest>],
) -> u8
    requires small { n < 2 ^ 40 }
    requires room { n ≤ store.now.len }
    requires number { number < n }
    requires listed { is_listed store.now.pages number ≡ true }
    requires forty { length beside.old ≡ 40 }
    requires right { ArePartsBut D.digest_of n (leaves_of store.now) store.now number 0 }
    ensures few { result < 40 }
    ensures forty { length beside.new ≡ 40 }
    ensures beside { AreBeside D.digest_of n (leaves_of store.now) number result (map option_copied beside.new) }
{
    let mut row: u8 = 0;
    'rows: while goes_up(n, row, number) {
        beside[row as usize] = store.beside(n, row, number);
        row += 1;
    }
    row
}

// Reads digests that were found.
fn read_all(found: &[Option<&Digest>], digests: &mut [Option<Digest>])
    requires { length digests.old ≡ length found.now }
    ensures { digests.new ≡ map option_copied found.now }
{
    for row in 0..found.len() {
        digests[row] = found[row].copied();
    }
}

// Puts what stands beside the parts that have an entry by its row, and answers how many rows there are. It is found first, and then read in one
// loop. So all the memory that a change reads and writes is asked for before the first digest, where no read waits for another.
fn gather<D: Digester>(store: &Store, n: u64, number: u64, siblings: &mut [Option<Digest>]) -> u8
    requires small { n < 2 ^ 40 }
    requires room { n ≤ store.now.len }
    requires number { number < n }
    requires listed { is_listed store.now.pages number ≡ true }
    requires forty { length siblings.old ≡ 40 }
    requires right { ArePartsBut D.digest_of n (leaves_of store.now) store.now number 0 }
    ensures few { result < 40 }
    ensures forty { length siblings.new ≡ 40 }
    ensures beside { AreBeside D.digest_of n (leaves_of store.now) number result siblings.new }
{
    let mut beside = [None; 40];
    let rows = find_beside::<D>(store, n, number, &mut beside);
    let count = rows as usize;
    read_all(&beside[..count], &mut siblings[..count]);
    rows
}

// Two halves from left to right, of which one is at this offset.
fn in_order<'a>(
    off: u64,
    half: &'a Option<Digest>,
    other: &'a Option<Digest>,
) -> (&'a Option<Digest>, &'a Option<Digest>)
    ensures even { off % 2 ≡ 0 → (result.0.now ≡ half.now) × (result.1.now ≡ other.now) }
    ensures odd { off % 2 ≡ 1 → (result.0.now ≡ other.now) × (result.1.now ≡ half.now) }
{
    if off % 2 == 0 {
        (half, other)
    } else {
        (other, half)
    }
}

// Makes the parts right that have an entry, from the lowest upwards.
fn refresh<D: Digester, L: Ledger>(store: &mut Store, n: u64, number: u64, steps: &mut Steps<L>)
    requires small { n < 2 ^ 40 }
    requires room { n ≤ store.old.len }
    requires number { number < n }
    requires listed { is_listed store.old.pages number ≡ true }
    requires right { ArePartsBut D.digest_of n (leaves_of store.old) store.old number 0 }
    ensures right { AreParts D.digest_of n (leaves_of store.old) store.new }
    ensures leaves { leaves_of store.new ≡ leaves_of store.old }
    ensures room { HasRoomOf store.old store.new }
    ensures cost { IsClimbed n (leaves_of store.old) number steps.old steps.new }
{
    let mut siblings = [None; 40];
    let rows = gather::<D>(store, n, number, &mut siblings);
    let mut digest = store.part(n, 0, number);
    for row in 0..rows {
        let (left, right) = in_order(number >> row, &digest, &siblings[row as usize]);
        digest = join::<D, L>(store, n, row, number, left, right, steps);
    }
}

// The same for the last entry. What stands beside its parts was written a short while ago, so it is read where it is joined.
fn refresh_last<D: Digester, L: Ledger>(
    store: &mut Store,
    n: u64,
    number: u64,
    steps: &mut Steps<L>,
)
    requires small { n < 2 ^ 40 }
    requires room { n ≤ store.old.len }
    requires number { number < n }
    requires listed { is_listed store.old.pages number ≡ true }
    requires right { ArePartsBut D.digest_of n (leaves_of store.old) store.old number 0 }
    ensures right { AreParts D.digest_of n (leaves_of store.old) store.new }
    ensures leaves { leaves_of store.new ≡ leaves_of store.old }
    ensures room { HasRoomOf store.old store.new }
    ensures cost { IsClimbed n (leaves_of store.old) number steps.old steps.new }
{
    let mut row: u8 = 0;
    'rows: while goes_up(n, row, number) {
        let (left, right) = store.halves(n, row, part_of(number, row));
        join::<D, L>(store, n, row, number, &left, &right, steps);
        row += 1;
    }
}

/// Writes an entry, and makes the parts above it right.
pub(crate) fn put<D: Digester, L: Ledger>(
    store: &mut Store,
    n: u64,
    number: u64,
    entry: Option<Digest>,
    steps: &mut Steps<L>,
)
    requires small { n < 2 ^ 40 }
    requires room { n ≤ store.old.len }
    requires number { number < n }
    requires listed { is_listed store.old.pages number ≡ true }
    requires right { AreParts D.digest_of n (leaves_of store.old) store.old }
    ensures leaves { leaves_of store.new ≡ set (leaves_of store.old) number entry }
    ensures right { AreParts D.digest_of n (leaves_of store.new) store.new }
    ensures room { HasRoomOf store.old store.new }
    ensures cost { steps.new ≤ steps.old + rows_of n }
{
    store.put_entry(number, entry);
    refresh::<D, L>(store, n, number, steps);
}

/// Writes the entry after the first n.
pub(crate) fn put_next<D: Digester, L: Ledger>(
    store: &mut Store,
    n: u64,
    digest: Digest,
    steps: &mut Steps<L>,
)
    requires small { n + 1 < 2 ^ 40 }
    requires room { n < store.old.len }
    requires listed { is_listed store.old.pages n ≡ true }
    requires right { AreParts D.digest_of n (leaves_of store.old) store.old }
    ensures leaves { leaves_of store.new ≡ set (leaves_of store.old) n (Some digest) }
    ensures right { AreParts D.digest_of (n + 1) (leaves_of store.new) store.new }
    ensures room { HasRoomOf store.old store.new }
    ensures cost { IsClimbed (n + 1) (leaves_of store.new) n steps.old steps.new }
{
    store.put_entry(n, Some(digest));
    refresh_last::<D, L>(store, n + 1, n, steps);
}
