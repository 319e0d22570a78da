//! Entries that are added: the parts that they make whole are made row by row.
ghost use Rattle.std.specs.Prelude.{◌≡◌, ℕ, true, suc, ◌+◌, ◌-◌, ◌*◌, ◌/◌, ◌^◌, ◌<◌, ◌≤◌, ◌++◌, Some, length, map, take, nat_le};
ghost use Rattle.live_forest.specs.Stores.{is_listed, HasRoomOf};
ghost use Rattle.live_forest.specs.Parts.{leaves_of, AreParts};
ghost use Rattle.live_forest.specs.Rows.{AreBelow, AreFilled, AreSpanned, HasRoom, IsRowStep, KeepsEntries, AreUntouched, AreListed};

use crate::store::Store;
use crate::waiting::{BATCH, Waiting, part_of, put_waiting, renew};
use std::sync::ledger::Ledger;
use uo_digest::{Digest, Digester, Steps};

// The last entry of a part of the row above.
fn last_of(row: u8, off: u64) -> u64
    requires low { row < 40 }
    requires small { (off + 1) * 2 ^ suc row < 2 ^ 40 }
    ensures { result ≡ off * 2 ^ suc row + (2 ^ suc row - 1) }
{
    ((off + 1) << (row + 1)) - 1
}

// Takes in parts of the row above from one on, until so many wait as there is room for; and answers with which one the others begin.
fn gather<D: Digester>(
    store: &mut Store,
    n: u64,
    before: u64,
    row: u8,
    from: u64,
    waiting: &mut Waiting,
) -> u64
    requires small { n < 2 ^ 40 }
    requires room { n ≤ store.old.len }
    requires low { row < 40 }
    requires first { before / 2 ^ suc row ≤ from }
    requires from { from < n / 2 ^ suc row }
    requires listed { AreListed store.old before n }
    requires waiting { HasRoom waiting.old }
    ensures spanned { AreSpanned D.digest_of n store.new before row from result waiting.new }
    ensures step { IsRowStep D.digest_of (nat_le before) row store.old store.new }
    ensures few { waiting.new.count + from ≤ result }
    ensures on { from < result }
    ensures within { result ≤ n / 2 ^ suc row }
{
    waiting.count = 0;
    let end = part_of(n, row);
    let mut next = from;
    while next < end && waiting.count < BATCH {
        renew::<D>(store, n, row, last_of(row, next), waiting);
        next += 1;
    }
    next
}

// Makes parts of the row above, from one on; and answers with which one the others begin.
fn fill_some<D: Digester, L: Ledger>(
    store: &mut Store,
    n: u64,
    before: u64,
    row: u8,
    from: u64,
    waiting: &mut Waiting,
    steps: &mut Steps<L>,
) -> u64
    requires small { n < 2 ^ 40 }
    requires room { n ≤ store.old.len }
    requires low { row < 40 }
    requires first { before / 2 ^ suc row ≤ from }
    requires from { from < n / 2 ^ suc row }
    requires listed { AreListed store.old before n }
    requires waiting { HasRoom waiting.old }
    ensures filled { AreFilled D.digest_of store.new row from result }
    ensures step { IsRowStep D.digest_of (nat_le before) row store.old store.new }
    ensures waiting { HasRoom waiting.new }
    ensures on { from < result }
    ensures within { result ≤ n / 2 ^ suc row }
    ensures cost { steps.new + from ≤ steps.old + result }
{
    let next = gather::<D>(store, n, before, row, from, waiting);
    put_waiting::<D, L>(store, n, row, waiting, steps);
    next
}

// Makes all parts of the row above that were not whole before.
fn fill_row<D: Digester, L: Ledger>(
    store: &mut Store,
    n: u64,
    before: u64,
    row: u8,
    waiting: &mut Waiting,
    steps: &mut Steps<L>,
)
    requires small { n < 2 ^ 40 }
    requires room { n ≤ store.old.len }
    requires low { row < 40 }
    requires before { before ≤ n }
    requires listed { AreListed store.old before n }
    requires waiting { HasRoom waiting.old }
    requires below { AreBelow D.digest_of n store.old (nat_le before) row }
    ensures below { AreBelow D.digest_of n store.new (nat_le before) (row + 1) }
    ensures step { IsRowStep D.digest_of (nat_le before) row store.old store.new }
    ensures waiting { HasRoom waiting.new }
    ensures cost { steps.new + before / 2 ^ suc row ≤ steps.old + n / 2 ^ suc row }
{
    let end = part_of(n, row);
    let mut next = part_of(before, row);
    while next < end {
        next = fill_some::<D, L>(store, n, before, row, next, waiting, steps);
    }
}

// Makes all parts that were not whole before, a row after the other.
fn fill_rows<D: Digester, L: Ledger>(store: &mut Store, n: u64, before: u64, steps: &mut Steps<L>)
    requires small { n < 2 ^ 40 }
    requires room { n ≤ store.old.len }
    requires before { before ≤ n }
    requires listed { AreListed store.old before n }
    requires below { AreBelow D.digest_of n store.old (nat_le before) 0 }
    ensures right { AreParts D.digest_of n (leaves_of store.new) store.new }
    ensures kept { KeepsEntries store.old store.new }
    ensures cost { steps.new + before ≤ steps.old + n + 40 }
{
    let mut waiting = Waiting::new();
    let mut row: u8 = 0;
    'rows: while part_of(n, row) > 0 {
        fill_row::<D, L>(store, n, before, row, &mut waiting, steps);
        row += 1;
    }
}

// Puts live entries behind the first n.
fn append_each(store: &mut Store, n: u64, added: &[Digest])
    requires small { n < 2 ^ 40 }
    requires room { n + length added.now ≤ store.old.len }
    requires listed { AreListed store.old n (n + length added.now) }
    ensures leaves { take (n + length added.now) (leaves_of store.new) ≡ take n (leaves_of store.old) ++ map Some added.now }
    ensures others { AreUntouched (nat_le n) store.old store.new }
    ensures room { HasRoomOf store.old store.new }
{
    for i in 0..added.len() {
        store.put_entry(n + i as u64, Some(added[i]));
    }
}

/// Puts live entries behind the first n, and makes the parts that these make whole.
pub(crate) fn put_all<D: Digester, L: Ledger>(
    store: &mut Store,
    n: u64,
    added: &[Digest],
    steps: &mut Steps<L>,
)
    requires small { n + length added.now < 2 ^ 40 }
    requires room { n + length added.now ≤ store.old.len }
    requires listed { AreListed store.old n (n + length added.now) }
    requires right { AreParts D.digest_of n (leaves_of store.old) store.old }
    ensures leaves { take (n + length added.now) (leaves_of store.new) ≡ take n (leaves_of store.old) ++ map Some added.now }
    ensures right { AreParts D.digest_of (n + length added.now) (leaves_of store.new) store.new }
    ensures room { HasRoomOf store.old store.new }
    ensures cost { steps.new ≤ steps.old + length added.now + 40 }
{
    append_each(store, n, added);
    fill_rows::<D, L>(store, n + added.len() as u64, n, steps);
}
