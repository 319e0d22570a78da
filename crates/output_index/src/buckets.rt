//! Marks in buckets, of which there are about half as many as marks.
ghost use Rattle.std.specs.Prelude.{◌≡◌, ◌≢◌, ◌<◌, ◌≤◌, ℕ, ◌-◌, ◌^◌, suc, length, None, Some, is_some, OnOk, OnErr};
ghost use Rattle.std.specs.Bool.{OnTrue, OnFalse};
ghost use Rattle.output_index.specs.Buckets.{in_buckets, in_table, first_at, bucket_of, HasNoRoom, HasOwn};

use crate::bucket::{Bucket, bucket_of, power_of_two};
use std::alloc::{AllocError, Global};
use std::marker::Model;

/// So many marks to a bucket, on the average, make one more bucket.
const LOAD: usize = 2;

/// No more buckets than two times two to this.
const MOST_BITS: u32 = 40;

/// The newest entries of marks, each in the bucket that its lowest bits tell, as far as that has room.
///
/// A search reads one bucket. Buckets are added one at a time, each takes marks from one other (linear hashing, by W. Litwin), so that no call
/// goes over all.
#[derive(Drop)]
pub(crate) struct Buckets {
    bits: u32,
    held: usize,
    list: Vec<Bucket>,
}

impl Model for Buckets {
    ghost use Rattle.output_index.specs.Buckets.{Table, IsTable};

    ghost Value = { Table };

    ghost view = { λ b. record { bits = b.bits; buckets = b.list.items } };

    ghost invariant = { λ b. IsTable (record { bits = b.bits; buckets = b.list.items }) };
}

impl Buckets {
    /// No mark.
    pub fn new(alloc: Global) -> Self
        ensures { (m : ℕ) → in_table result m ≡ None }
    {
        Buckets {
            bits: 0,
            held: 0,
            list: Vec::new(alloc),
        }
    }

    /// The newest entry of a mark; None where the mark is not here.
    pub fn get(&self, mark: u64) -> Option<u64>
        ensures { result ≡ in_table self.now mark }
    {
        let at = bucket_of(self.bits, self.list.len() as u64, mark);
        match self.list.get(at as usize) {
            Some(bucket) => bucket.get(mark),
            None => None,
        }
    }

    /// The same where the mark is the first one of its bucket, and nothing where it is not.
    pub fn first(&self, mark: u64) -> Option<u64>
        ensures { result ≡ first_at self.now mark }
    {
        let at = bucket_of(self.bits, self.list.len() as u64, mark);
        match self.list.get(at as usize) {
            Some(bucket) => bucket.first(mark),
            None => None,
        }
    }

    /// Puts a mark that is not here, and answers whether there was room.
    pub fn try_put(&mut self, mark: u64, number: u64) -> bool
        requires { in_table self.old mark ≡ None }
        ensures put { OnTrue result (in_table self.new mark ≡ Some number) }
        ensures full { OnFalse result (in_table self.new mark ≡ None) }
        ensures no_room { OnFalse result (HasNoRoom self.new.bits self.new.buckets mark) }
        ensures others { (m : ℕ) → m ≢ mark → in_table self.new m ≡ in_table self.old m }
    {
        if self.held / LOAD >= self.list.len() {
            // Where there is no memory for one more bucket, those that are there take the mark as far as they have room.
            drop(self.grow());
        }
        if !put_in(&mut self.list, self.bits, mark, number) {
            return false;
        }
        self.held = self.held.saturating_add(1);
        true
    }

    /// The mark is here no more.
    pub fn take(&mut self, mark: u64)
        ensures gone { in_table self.new mark ≡ None }
        ensures others { (m : ℕ) → m ≢ mark → in_table self.new m ≡ in_table self.old m }
    {
        if take_from(&mut self.list, self.bits, mark) {
            self.held = self.held.saturating_sub(1);
        }
    }

    /// Where the entry is the newest of its mark, the older one takes its place, and the mark is gone where there is no older one. What was the
    /// newest until now is answered; None where the mark is not here.
    pub fn take_newest(&mut self, mark: u64, number: u64, older: Option<u64>) -> Option<u64>
        ensures told { result ≡ in_table self.old mark }
        ensures older { result ≡ Some number → in_table self.new mark ≡ older }
        ensures stays { result ≢ Some number → in_table self.new mark ≡ in_table self.old mark }
        ensures others { (m : ℕ) → m ≢ mark → in_table self.new m ≡ in_table self.old m }
    {
        let told = take_newest_from(&mut self.list, self.bits, mark, number, older);
        if told == Some(number) && older.is_none() {
            self.held = self.held.saturating_sub(1);
        }
        told
    }

    // Adds a bucket, as long as there are not as many as there may be.
    fn grow(&mut self) -> Result<(), AllocError>
        ensures same { (m : ℕ) → in_table self.new m ≡ in_table self.old m }
        ensures ok { OnOk result (self.old.bits < 40 → length self.new.buckets ≡ suc (length self.old.buckets)) }
        ensures err { OnErr result (self.new ≡ self.old) }
    {
        if self.list.is_empty() {
            return begin(&mut self.list);
        }
        let bits = bits_to_grow(self.bits, self.list.len() as u64);
        if bits <= MOST_BITS {
            split(&mut self.list, bits)?;
            self.bits = bits;
        }
        Ok(())
    }
}

// By how many bits so many buckets are told apart when there is to be one more.
fn bits_to_grow(bits: u32, count: u64) -> u32
    requires few { bits ≤ 40 }
    requires least { 2 ^ bits ≤ count }
    requires most { count ≤ 2 ^ suc bits }
    ensures least { 2 ^ result ≤ count }
    ensures most { count < 2 ^ suc result }
    ensures few { result ≤ suc bits }
    ensures same { (m : ℕ) → bucket_of result count m ≡ bucket_of bits count m }
{
    if count == 2 * power_of_two(bits) {
        bits + 1
    } else {
        bits
    }
}

// The first bucket.
fn begin(list: &mut Vec<Bucket>) -> Result<(), AllocError>
    requires { length list.old.items ≡ 0 }
    ensures none { (m : ℕ) → in_buckets 0 list.new.items m ≡ None }
    ensures ok { OnOk result (length list.new.items ≡ 1) }
    ensures err { OnErr result (list.new.items ≡ list.old.items) }
{
    list.push(Bucket::new())?;
    Ok(())
}

// Adds a bucket. It takes the marks that are sought in it from now on from the one in which they were sought.
fn split(list: &mut Vec<Bucket>, bits: u32) -> Result<(), AllocError>
    requires bits { bits < 62 }
    requires least { 2 ^ bits ≤ length list.old.items }
    requires most { length list.old.items < 2 ^ suc bits }
    ensures same { (m : ℕ) → in_buckets bits list.new.items m ≡ in_buckets bits list.old.items m }
    ensures ok { OnOk result (length list.new.items ≡ suc (length list.old.items)) }
    ensures own { OnOk result (HasOwn bits list.new.items (length list.old.items) × HasOwn bits list.new.items (length list.old.items - 2 ^ bits)) }
    ensures err { OnErr result (list.new.items ≡ list.old.items) }
{
    let count = list.len() as u64;
    let first = count - power_of_two(bits);
    let mut added = list[first as usize].copied();
    added.keep_own(bits, count + 1, count);
    list.push(added)?;
    list[first as usize].keep_own(bits, count + 1, first);
    Ok(())
}

fn put_in(list: &mut Vec<Bucket>, bits: u32, mark: u64, number: u64) -> bool
    requires bits { bits < 62 }
    requires none { in_buckets bits list.old.items mark ≡ None }
    ensures len { length list.new.items ≡ length list.old.items }
    ensures put { OnTrue result (in_buckets bits list.new.items mark ≡ Some number) }
    ensures full { OnFalse result (in_buckets bits list.new.items mark ≡ None) }
    ensures no_room { OnFalse result (HasNoRoom bits list.new.items mark) }
    ensures others { (m : ℕ) → m ≢ mark → in_buckets bits list.new.items m ≡ in_buckets bits list.old.items m }
{
    let at = bucket_of(bits, list.len() as u64, mark) as usize;
    if at >= list.len() {
        return false;
    }
    list[at].try_put(mark, number)
}

fn take_from(list: &mut Vec<Bucket>, bits: u32, mark: u64) -> bool
    requires { bits < 62 }
    ensures was { result ≡ is_some (in_buckets bits list.old.items mark) }
    ensures len { length list.new.items ≡ length list.old.items }
    ensures gone { in_buckets bits list.new.items mark ≡ None }
    ensures others { (m : ℕ) → m ≢ mark → in_buckets bits list.new.items m ≡ in_buckets bits list.old.items m }
{
    let at = bucket_of(bits, list.len() as u64, mark) as usize;
    if at >= list.len() {
        return false;
    }
    list[at].take(mark)
}

fn take_newest_from(
    list: &mut Vec<Bucket>,
    bits: u32,
    mark: u64,
    number: u64,
    older: Option<u64>,
) -> Option<u64>
    requires { bits < 62 }
    ensures len { length list.new.items ≡ length list.old.items }
    ensures told { result ≡ in_buckets bits list.old.items mark }
    ensures older { result ≡ Some number → in_buckets bits list.new.items mark ≡ older }
    ensures stays { result ≢ Some number → in_buckets bits list.new.items mark ≡ in_buckets bits list.old.items mark }
    ensures others { (m : ℕ) → m ≢ mark → in_buckets bits list.new.items m ≡ in_buckets bits list.old.items m }
{
    let at = bucket_of(bits, list.len() as u64, mark) as usize;
    if at >= list.len() {
        return None;
    }
    list[at].take_newest(mark, number, older)
}
