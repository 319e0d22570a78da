//! Entries that are emptied: the parts above them are made anew row by row.
ghost use Rattle.std.specs.Prelude.{◌≡◌, ℕ, true, suc, ◌+◌, ◌-◌, ◌*◌, ◌/◌, ◌^◌, ◌<◌, ◌≤◌, IsTrue, All, length};
ghost use Rattle.forest_place.specs.Position.{rows as rows_of};
ghost use Rattle.forest_model.specs.Deletion.{entries_without};
ghost use Rattle.live_forest.specs.Stores.{is_listed, HasRoomOf};
ghost use Rattle.live_forest.specs.Parts.{leaves_of, AreParts};
ghost use Rattle.live_forest.specs.Rows.{part_above, is_one, AreBelow, AreDone, AreTaken, HasRoom, IsRowStep, KeepsEntries, AreUntouched};

use crate::store::Store;
use crate::waiting::{BATCH, Waiting, part_of, put_waiting, renew};
use std::sync::ledger::Ledger;
use uo_digest::{Digest, Digester, Steps};

// Whether the entry before the one at this index is in the same part of the row above.
fn is_shared(numbers: &[u64], at: usize, row: u8) -> bool
    requires within { at < length numbers.now }
    requires low { row < 40 }
    ensures { IsTrue result → (0 < at) × (part_above numbers.now row (at - 1) ≡ part_above numbers.now row at) }
{
    if at == 0 {
        return false;
    }
    part_of(numbers[at - 1], row) == part_of(numbers[at], row)
}

// Takes in the entry at this index, unless its part is outside the forest or was taken in with the entry before.
fn take_in<D: Digester>(
    store: &mut Store,
    n: u64,
    row: u8,
    numbers: &[u64],
    at: usize,
    waiting: &mut Waiting,
)
    requires small { n < 2 ^ 40 }
    requires room { n ≤ store.old.len }
    requires low { row < 40 }
    requires at { at < length numbers.now }
    requires listed { All (λ i. is_listed store.old.pages i ≡ true) numbers.now }
    requires one { waiting.old.count < 16 }
    requires taken { AreTaken D.digest_of n store.old numbers.now row at waiting.old }
    ensures taken { AreTaken D.digest_of n store.new numbers.now row (at + 1) waiting.new }
    ensures step { IsRowStep D.digest_of (is_one numbers.now) row store.old store.new }
    ensures few { waiting.new.count ≤ waiting.old.count + 1 }
{
    if part_of(numbers[at], row) >= part_of(n, row) {
        return;
    }
    if is_shared(numbers, at, row) {
        return;
    }
    renew::<D>(store, n, row, numbers[at], waiting);
}

// Takes in entries from an index on, until so many parts wait as there is room for; and answers from which index on the others stand. So all that is
// read for these parts is asked for before the first digest.
fn gather<D: Digester>(
    store: &mut Store,
    n: u64,
    row: u8,
    numbers: &[u64],
    from: usize,
    waiting: &mut Waiting,
) -> usize
    requires small { n < 2 ^ 40 }
    requires room { n ≤ store.old.len }
    requires low { row < 40 }
    requires from { from < length numbers.now }
    requires listed { All (λ i. is_listed store.old.pages i ≡ true) numbers.now }
    requires waiting { HasRoom waiting.old }
    requires done { AreDone D.digest_of n store.old numbers.now row from }
    ensures taken { AreTaken D.digest_of n store.new numbers.now row result waiting.new }
    ensures step { IsRowStep D.digest_of (is_one numbers.now) row store.old store.new }
    ensures few { waiting.new.count + from ≤ result }
    ensures on { from < result }
    ensures within { result ≤ length numbers.now }
{
    waiting.count = 0;
    let mut next = from;
    while next < numbers.len() && waiting.count < BATCH {
        take_in::<D>(store, n, row, numbers, next, waiting);
        next += 1;
    }
    next
}

// Makes parts of the row above anew, from the entry at an index on; and answers from which index on the others stand.
fn renew_some<D: Digester, L: Ledger>(
    store: &mut Store,
    n: u64,
    row: u8,
    numbers: &[u64],
    from: usize,
    waiting: &mut Waiting,
    steps: &mut Steps<L>,
) -> usize
    requires small { n < 2 ^ 40 }
    requires room { n ≤ store.old.len }
    requires low { row < 40 }
    requires from { from < length numbers.now }
    requires listed { All (λ i. is_listed store.old.pages i ≡ true) numbers.now }
    requires waiting { HasRoom waiting.old }
    requires done { AreDone D.digest_of n store.old numbers.now row from }
    ensures done { AreDone D.digest_of n store.new numbers.now row result }
    ensures step { IsRowStep D.digest_of (is_one numbers.now) row store.old store.new }
    ensures waiting { HasRoom waiting.new }
    ensures on { from < result }
    ensures within { result ≤ length numbers.now }
    ensures cost { steps.new + from ≤ steps.old + result }
{
    let next = gather::<D>(store, n, row, numbers, from, waiting);
    put_waiting::<D, L>(store, n, row, waiting, steps);
    next
}

// Makes the parts of the row above anew that have one of these entries.
fn renew_row<D: Digester, L: Ledger>(
    store: &mut Store,
    n: u64,
    row: u8,
    numbers: &[u64],
    waiting: &mut Waiting,
    steps: &mut Steps<L>,
)
    requires small { n < 2 ^ 40 }
    requires room { n ≤ store.old.len }
    requires low { row < 40 }
    requires listed { All (λ i. is_listed store.old.pages i ≡ true) numbers.now }
    requires waiting { HasRoom waiting.old }
    requires below { AreBelow D.digest_of n store.old (is_one numbers.now) row }
    ensures below { AreBelow D.digest_of n store.new (is_one numbers.now) (row + 1) }
    ensures step { IsRowStep D.digest_of (is_one numbers.now) row store.old store.new }
    ensures waiting { HasRoom waiting.new }
    ensures cost { steps.new ≤ steps.old + length numbers.now }
{
    let mut next = 0;
    while next < numbers.len() {
        next = renew_some::<D, L>(store, n, row, numbers, next, waiting, steps);
    }
}

// Makes all parts anew that have one of these entries, a row after the other.
fn renew_rows<D: Digester, L: Ledger>(
    store: &mut Store,
    n: u64,
    numbers: &[u64],
    steps: &mut Steps<L>,
)
    requires small { n < 2 ^ 40 }
    requires room { n ≤ store.old.len }
    requires listed { All (λ i. is_listed store.old.pages i ≡ true) numbers.now }
    requires below { AreBelow D.digest_of n store.old (is_one numbers.now) 0 }
    ensures right { AreParts D.digest_of n (leaves_of store.new) store.new }
    ensures kept { KeepsEntries store.old store.new }
    ensures cost { steps.new ≤ steps.old + length numbers.now * rows_of n }
{
    let mut waiting = Waiting::new();
    let mut row: u8 = 0;
    'rows: while part_of(n, row) > 0 {
        renew_row::<D, L>(store, n, row, numbers, &mut waiting, steps);
        row += 1;
    }
}

// Empties entries.
fn empty_each(store: &mut Store, numbers: &[u64])
    requires given { All (λ i. i < store.old.len) numbers.now }
    requires listed { All (λ i. is_listed store.old.pages i ≡ true) numbers.now }
    ensures leaves { leaves_of store.new ≡ entries_without numbers.now (leaves_of store.old) }
    ensures others { AreUntouched (is_one numbers.now) store.old store.new }
    ensures room { HasRoomOf store.old store.new }
{
    for number in numbers {
        store.put_entry(*number, None);
    }
}

/// Empties entries, and makes the parts anew that have one of them: of rising numbers each part once.
pub(crate) fn empty_all<D: Digester, L: Ledger>(
    store: &mut Store,
    n: u64,
    numbers: &[u64],
    steps: &mut Steps<L>,
)
    requires small { n < 2 ^ 40 }
    requires room { n ≤ store.old.len }
    requires given { All (λ i. i < n) numbers.now }
    requires listed { All (λ i. is_listed store.old.pages i ≡ true) numbers.now }
    requires right { AreParts D.digest_of n (leaves_of store.old) store.old }
    ensures leaves { leaves_of store.new ≡ entries_without numbers.now (leaves_of store.old) }
    ensures right { AreParts D.digest_of n (leaves_of store.new) store.new }
    ensures room { HasRoomOf store.old store.new }
    ensures cost { steps.new ≤ steps.old + length numbers.now * rows_of n }
{
    empty_each(store, numbers);
    renew_rows::<D, L>(store, n, numbers, steps);
}
