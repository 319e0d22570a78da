//! Parts of one row that are made anew, of which many are digested side by side.
ghost use Rattle.std.specs.Prelude.{◌≡◌, ℕ, Bool, true, suc, ◌+◌, ◌*◌, ◌/◌, ◌^◌, ◌<◌, ◌≤◌, Some, length, get_or, set, is_some};
ghost use Rattle.uo_digest.specs.declared.digest.Digest.{Digest as Digested};
ghost use Rattle.forest_model.specs.Content.{join_digests};
ghost use Rattle.forest_place.specs.Forest.{InForest};
ghost use Rattle.live_forest.specs.Stores.{stored, is_listed};
ghost use Rattle.live_forest.specs.Rows.{IsJoined, IsRowStep, HasRoom, AreWaiting, AreAll, IsRenewed, part_above};

use crate::store::Store;
use forest_roots::pair;
use std::sync::ledger::Ledger;
use uo_digest::{Digest, Digester, Steps};

/// How many parts are digested together.
pub(crate) const BATCH: usize = 16;

/// Parts of one row that wait for their digests, each by an entry in it.
#[derive(Drop)]
pub(crate) struct Waiting {
    numbers: [u64; BATCH],
    pub(crate) count: usize,
}

impl Waiting {
    pub fn new() -> Self
        ensures { HasRoom result }
    {
        Waiting {
            numbers: [0; BATCH],
            count: 0,
        }
    }

    // One part more.
    fn note(&mut self, number: u64)
        requires room { HasRoom self.old }
        requires one { self.old.count < 16 }
        ensures numbers { self.new.numbers ≡ set self.old.numbers self.old.count number }
        ensures count { self.new.count ≡ self.old.count + 1 }
    {
        self.numbers[self.count] = number;
        self.count += 1;
    }
}

/// The part of the row above that has an entry; of the number of entries, how many whole parts that row has.
pub(crate) fn part_of(number: u64, row: u8) -> u64
    requires { row < 40 }
    ensures { result ≡ number / 2 ^ suc row }
{
    (number >> row) / 2
}

/// Makes the part of the row above anew that has an entry, or notes it where both its halves have something.
pub(crate) fn renew<D: Digester>(
    store: &mut Store,
    n: u64,
    row: u8,
    number: u64,
    waiting: &mut Waiting,
)
    requires small { n < 2 ^ 40 }
    requires room { n ≤ store.old.len }
    requires low { row < 40 }
    requires within { InForest n (suc row) (number / 2 ^ suc row) }
    requires listed { is_listed store.old.pages number ≡ true }
    requires one { waiting.old.count < 16 }
    requires waiting { AreWaiting n store.old row waiting.old }
    ensures renewed { IsRenewed D.digest_of n row number store.old store.new waiting.old waiting.new }
    ensures few { waiting.new.count ≤ waiting.old.count + 1 }
{
    let off = part_of(number, row);
    let (left, right) = store.has_halves(n, row, off);
    if !left {
        store.put_alone(n, row, number, 1);
    } else if !right {
        store.put_alone(n, row, number, 0);
    } else {
        waiting.note(number);
    }
}

// Reads what the halves of the parts of the row above have that have these entries: first all of it, and then it is digested. So no read waits for
// another.
fn read_each(store: &Store, n: u64, row: u8, numbers: &[u64], pairs: &mut [(Digest, Digest)])
    requires small { n < 2 ^ 40 }
    requires room { n ≤ store.now.len }
    requires low { row < 40 }
    requires count { length pairs.old ≡ length numbers.now }
    requires within { (j : ℕ) → j < length numbers.now → InForest n (suc row) (part_above numbers.now row j) }
    requires left { (j : ℕ) → j < length numbers.now → is_some (stored store.now row (2 * part_above numbers.now row j)) ≡ true }
    requires right { (j : ℕ) → j < length numbers.now → is_some (stored store.now row (2 * part_above numbers.now row j + 1)) ≡ true }
    ensures count { length pairs.new ≡ length numbers.now }
    ensures left { (j : ℕ) (d : Digested × Digested) → j < length numbers.now
        → stored store.now row (2 * part_above numbers.now row j) ≡ Some (get_or pairs.new j d).0 }
    ensures right { (j : ℕ) (d : Digested × Digested) → j < length numbers.now
        → stored store.now row (2 * part_above numbers.now row j + 1) ≡ Some (get_or pairs.new j d).1 }
{
    for j in 0..numbers.len() {
        pairs[j] = store.pair(n, row, part_of(numbers[j], row));
    }
}

// Puts the digests of the parts of the row above that have these entries.
fn put_each<D: Digester>(store: &mut Store, n: u64, row: u8, numbers: &[u64], digests: &[Digest])
    requires small { n < 2 ^ 40 }
    requires room { n ≤ store.old.len }
    requires low { row < 40 }
    requires count { length digests.now ≡ length numbers.now }
    requires within { (j : ℕ) → j < length numbers.now → InForest n (suc row) (part_above numbers.now row j) }
    requires listed { (j : ℕ) → j < length numbers.now → is_listed store.old.pages (get_or numbers.now j 0) ≡ true }
    requires left { (j : ℕ) → j < length numbers.now → is_some (stored store.old row (2 * part_above numbers.now row j)) ≡ true }
    requires right { (j : ℕ) → j < length numbers.now → is_some (stored store.old row (2 * part_above numbers.now row j + 1)) ≡ true }
    requires digests { (j : ℕ) (d : Digested) → j < length numbers.now → let off = part_above numbers.now row j in
        Some (get_or digests.now j d) ≡ join_digests D.digest_of (stored store.old row (2 * off)) (stored store.old row (2 * off + 1)) }
    ensures step { (new : ℕ → Bool) → AreAll new numbers.now (length numbers.now) → IsRowStep D.digest_of new row store.old store.new }
    ensures done { (j : ℕ) → j < length numbers.now → IsJoined D.digest_of store.new row (part_above numbers.now row j) }
{
    for j in 0..numbers.len() {
        store.put_joined(n, row, numbers[j], digests[j]);
    }
}

// Digests one part of the row above, which has this entry, and puts its digest.
fn put_one<D: Digester, L: Ledger>(
    store: &mut Store,
    n: u64,
    row: u8,
    number: u64,
    steps: &mut Steps<L>,
)
    requires small { n < 2 ^ 40 }
    requires room { n ≤ store.old.len }
    requires low { row < 40 }
    requires within { InForest n (suc row) (number / 2 ^ suc row) }
    requires listed { is_listed store.old.pages number ≡ true }
    requires left { is_some (stored store.old row (2 * (number / 2 ^ suc row))) ≡ true }
    requires right { is_some (stored store.old row (2 * (number / 2 ^ suc row) + 1)) ≡ true }
    ensures step { (new : ℕ → Bool) → new number ≡ true → IsRowStep D.digest_of new row store.old store.new }
    ensures done { IsJoined D.digest_of store.new row (number / 2 ^ suc row) }
    ensures cost { steps.new ≡ steps.old + 1 }
{
    let (left, right) = store.pair(n, row, part_of(number, row));
    store.put_joined(n, row, number, pair::<D, L>(left, right, steps));
}

// Digests parts that wait side by side, and puts their digests.
fn put_some<D: Digester, L: Ledger>(
    store: &mut Store,
    n: u64,
    row: u8,
    waiting: &Waiting,
    steps: &mut Steps<L>,
)
    requires small { n < 2 ^ 40 }
    requires room { n ≤ store.old.len }
    requires low { row < 40 }
    requires waiting { AreWaiting n store.old row waiting.now }
    ensures step { (new : ℕ → Bool) → AreAll new waiting.now.numbers waiting.now.count → IsRowStep D.digest_of new row store.old store.new }
    ensures done { (j : ℕ) → j < waiting.now.count → IsJoined D.digest_of store.new row (part_above waiting.now.numbers row j) }
    ensures cost { steps.new ≡ steps.old + waiting.now.count }
{
    let count = waiting.count;
    let numbers = &waiting.numbers[..count];
    let mut room_for_pairs = [(Digest([0; 32]), Digest([0; 32])); BATCH];
    let pairs = &mut room_for_pairs[..count];
    read_each(store, n, row, numbers, pairs);
    let mut room = [Digest([0; 32]); BATCH];
    let digests = &mut room[..count];
    D::digest_pairs(pairs, digests, steps);
    put_each::<D>(store, n, row, numbers, digests);
}

/// Digests the parts that wait, and puts their digests. In most rows of a small block one part waits alone.
pub(crate) fn put_waiting<D: Digester, L: Ledger>(
    store: &mut Store,
    n: u64,
    row: u8,
    waiting: &Waiting,
    steps: &mut Steps<L>,
)
    requires small { n < 2 ^ 40 }
    requires room { n ≤ store.old.len }
    requires low { row < 40 }
    requires waiting { AreWaiting n store.old row waiting.now }
    ensures step { (new : ℕ → Bool) → AreAll new waiting.now.numbers waiting.now.count → IsRowStep D.digest_of new row store.old store.new }
    ensures done { (j : ℕ) → j < waiting.now.count → IsJoined D.digest_of store.new row (part_above waiting.now.numbers row j) }
    ensures cost { steps.new ≡ steps.old + waiting.now.count }
{
    match waiting.count {
        0 => {}
        1 => put_one::<D, L>(store, n, row, waiting.numbers[0], steps),
        _ => put_some::<D, L>(store, n, row, waiting, steps),
    }
}
