//! A few marks that lie side by side.
ghost use Rattle.std.specs.Prelude.{◌≡◌, ◌≢◌, ◌<◌, ◌^◌, ℕ, ◌++◌, ◌∷◌, [], length, filter, None, Some, IsSome, is_some, MatchOption};
ghost use Rattle.std.specs.Bool.{OnTrue, OnFalse};
ghost use Rattle.std.specs.List.{AllByRecursion};
ghost use Rattle.output_index.specs.Buckets.{in_cells, first_in, bucket_of, is_own, IsFirstAt, IsStrange};

use crate::bucket_cell::BucketCell;
use arrayvec::ArrayVec;
use std::marker::Model;

/// So many marks have room in a bucket.
const ROOM: usize = 6;

/// A few marks, in no order, with their newest entries.
#[derive(Drop)]
pub(crate) struct Bucket {
    cells: ArrayVec<BucketCell, ROOM>,
}

impl Model for Bucket {
    ghost use Rattle.std.specs.Prelude.{List};
    ghost use Rattle.output_index.specs.declared.bucket_cell.BucketCell.{BucketCell};

    ghost Value = { List BucketCell };

    ghost view = { λ b. b.cells.items };
}

impl Bucket {
    pub fn new() -> Self
        ensures { result ≡ [] }
    {
        Bucket {
            cells: ArrayVec::new(),
        }
    }

    /// The same marks once more.
    pub fn copied(&self) -> Self
        ensures { result ≡ self.now }
    {
        let mut cells = ArrayVec::new();
        drop(cells.try_extend_from_slice(self.cells.as_slice()));
        Bucket { cells }
    }

    /// The newest entry of a mark; None where the mark is not here.
    pub fn get(&self, mark: u64) -> Option<u64>
        ensures { result ≡ in_cells self.now mark }
    {
        let cells = self.cells.as_slice();
        match place_of(cells, mark) {
            Some(at) => Some(cells[at].number),
            None => None,
        }
    }

    /// The same where the mark is in the first cell, and nothing where it is in another one. This takes a read, and no search.
    pub fn first(&self, mark: u64) -> Option<u64>
        ensures { result ≡ first_in self.now mark }
    {
        match self.cells.as_slice().first() {
            Some(cell) if cell.mark == mark => Some(cell.number),
            _ => None,
        }
    }

    /// Puts a mark, and answers whether there was room.
    pub fn try_put(&mut self, mark: u64, number: u64) -> bool
        ensures put { OnTrue result (self.new ≡ self.old ++ record { mark = mark; number = number } ∷ []) }
        ensures full { OnFalse result (self.new ≡ self.old) }
        ensures no_room { OnFalse result (length self.old ≡ 6) }
    {
        self.cells.try_push(BucketCell { mark, number }).is_ok()
    }

    /// Where the mark is here, this is its newest entry from now on.
    pub fn set(&mut self, mark: u64, number: u64)
        ensures here { IsSome (in_cells self.old mark) → in_cells self.new mark ≡ Some number }
        ensures others { (m : ℕ) → m ≢ mark → in_cells self.new m ≡ in_cells self.old m }
    {
        match place_of(self.cells.as_slice(), mark) {
            Some(at) => self.cells[at] = BucketCell { mark, number },
            None => {}
        }
    }

    /// The mark is here no more. It is answered whether it was.
    pub fn take(&mut self, mark: u64) -> bool
        ensures was { result ≡ is_some (in_cells self.old mark) }
        ensures gone { in_cells self.new mark ≡ None }
        ensures others { (m : ℕ) → m ≢ mark → in_cells self.new m ≡ in_cells self.old m }
    {
        let mut was = false;
        while let Some(at) = place_of(self.cells.as_slice(), mark) {
            self.cells.remove(at);
            was = true;
        }
        was
    }

    /// Where the entry is the newest of its mark, the older one takes its place, and the mark is gone where there is no older one. What was the
    /// newest until now is answered; None where the mark is not here.
    pub fn take_newest(&mut self, mark: u64, number: u64, older: Option<u64>) -> Option<u64>
        ensures told { result ≡ in_cells self.old mark }
        ensures older { result ≡ Some number → in_cells self.new mark ≡ older }
        ensures stays { result ≢ Some number → in_cells self.new mark ≡ in_cells self.old mark }
        ensures others { (m : ℕ) → m ≢ mark → in_cells self.new m ≡ in_cells self.old m }
    {
        match self.get(mark) {
            Some(told) if told != number => return Some(told),
            Some(_) => {}
            None => return None,
        }
        match older {
            Some(older) => self.set(mark, older),
            None => {
                self.take(mark);
            }
        }
        Some(number)
    }

    /// Only those marks stay that are sought in the bucket of this number, where there are so many buckets.
    pub fn keep_own(&mut self, bits: u32, count: u64, number: u64)
        requires { bits < 62 }
        ensures { self.new ≡ filter (is_own bits count number) self.old }
    {
        while let Some(at) = place_of_strange(self.cells.as_slice(), bits, count, number) {
            self.cells.remove(at);
        }
    }
}

/// Two to the power of so many.
pub(crate) fn power_of_two(bits: u32) -> u64
    requires { bits < 62 }
    ensures is { result ≡ 2 ^ bits }
    ensures positive { 0 < result }
    ensures small { result < 2 ^ 62 }
{
    1u64 << bits
}

/// The number of the bucket in which a mark is sought, where there are so many: by the lowest bits of the mark, and by one bit less where
/// there is no such bucket yet. So one more bucket takes marks from one other alone.
pub(crate) fn bucket_of(bits: u32, count: u64, mark: u64) -> u64
    requires { bits < 62 }
    ensures { result ≡ bucket_of bits count mark }
{
    let half = power_of_two(bits);
    let at = mark % (2 * half);
    if at < count { at } else { mark % half }
}

// The first cell that has a mark.
fn place_of(cells: &[BucketCell], mark: u64) -> Option<usize>
    ensures { MatchOption result (in_cells cells.now mark ≡ None) (IsFirstAt cells.now mark) }
{
    for at in 0..cells.len() {
        if cells[at].mark == mark {
            return Some(at);
        }
    }
    None
}

// The first cell whose mark is not sought in the bucket of this number.
fn place_of_strange(cells: &[BucketCell], bits: u32, count: u64, number: u64) -> Option<usize>
    requires { bits < 62 }
    ensures { MatchOption result (AllByRecursion (λ cell. bucket_of bits count cell.mark ≡ number) cells.now)
        (IsStrange cells.now bits count number) }
{
    for at in 0..cells.len() {
        if bucket_of(bits, count, cells[at].mark) != number {
            return Some(at);
        }
    }
    None
}
