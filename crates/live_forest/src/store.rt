//! What is kept for all parts of the entries.
ghost use Rattle.std.specs.Prelude.{◌≡◌, ◌≢◌, ℕ, suc, ◌+◌, ◌-◌, ◌*◌, ◌/◌, ◌%◌, ◌^◌, ◌<◌, ◌≤◌, [], length, get_or, set, Some, None, true};
ghost use Rattle.std.specs.Prelude.{is_some, option_copied, OnOk, OnErr, max};
ghost use Rattle.forest_place.specs.Forest.{InForest, sibling_off};
ghost use Rattle.live_forest.specs.Pages.{IsOfHalves};
ghost use Rattle.live_forest.specs.Stores.{seam as seam_of, stored, paged, is_listed, IsEntryKept, IsPartKept, HasRoomOf};
ghost use Rattle.live_forest.specs.Stores.{ArePages, IsLonger, AreStoredOfHalves};
ghost use Rattle.live_forest.specs.Sets.{IsWithout};

use crate::page::Page;
use forest_place::{Place, sibling};
use std::alloc::{AllocError, Global};
use std::marker::Model;
use uo_digest::Digest;

// The row of the part that a page is.
const PAGE_ROW: u8 = 7;

/// The digest of what is live in each part of the entries, if something is. The parts of up to 128 entries are in pages, which take room for the
/// entries alone that are live or may come back; those above are in a list with a place for each.
#[derive(Drop)]
pub(crate) struct Store {
    len: u64,
    pages: Vec<Page>,
    high: Vec<Option<Digest>>,
}

impl Model for Store {
    ghost use Rattle.live_forest.specs.Stores.{StoreState, IsStore};

    ghost Value = { StoreState };

    ghost view = { λ s. record { len = s.len; pages = s.pages.items; high = s.high.items } };

    ghost invariant = { λ s. IsStore (record { len = s.len; pages = s.pages.items; high = s.high.items }) };
}

// Where a part of more than one page lies in the list, by its row above the pages less one: at its page that is next to its sibling. So two siblings
// lie side by side.
fn seam(row: u8, off: u64) -> usize
    requires low { row < 40 }
    requires small { seam_of row off < 2 ^ 40 }
    ensures { result ≡ seam_of row off }
{
    let odd = off % 2;
    (((off + 1 - odd) << (row + 1)) + odd - 1) as usize
}

// Makes a list at least so long, by entries that are not live.
fn lengthen_list(list: &mut Vec<Option<Digest>>, len: usize) -> Result<(), AllocError>
    ensures ok { OnOk result (len ≤ length list.new.items) }
    ensures longer { length list.old.items ≤ length list.new.items }
    ensures front { (i : ℕ) → i < length list.old.items → get_or list.new.items i None ≡ get_or list.old.items i None }
{
    if list.len() < len {
        list.resize(len, None)?;
    }
    Ok(())
}

// Sees to it that there is a page at an index.
fn have_page(pages: &mut Vec<Page>, k: usize) -> Result<(), AllocError>
    requires { k ≤ length pages.old.items }
    ensures ok { OnOk result (k < length pages.new.items) }
    ensures same { ArePages pages.old.items pages.new.items }
{
    if k < pages.len() {
        return Ok(());
    }
    let alloc = *pages.allocator();
    let page = Page::new(alloc)?;
    pages.push(page)?;
    Ok(())
}

// How many of the first `n` entries are among the 128 from one on.
fn count_in(n: u64, first: u64) -> u64
    ensures few { result ≤ 128 }
    ensures within { 0 < result → first + result ≤ n }
    ensures all { result < 128 → n ≤ first + result }
{
    if n <= first {
        0
    } else if n - first < 128 {
        n - first
    } else {
        128
    }
}

impl Store {
    /// No room.
    pub fn new(alloc: Global) -> Self
        ensures { result.len ≡ 0 }
    {
        Store {
            len: 0,
            pages: Vec::new(alloc),
            high: Vec::new(alloc),
        }
    }

    /// For how many entries there is room.
    pub fn len(&self) -> u64
        ensures { result ≡ self.now.len }
    {
        self.len
    }

    /// Whether something is kept for a part of those that `n` entries have.
    pub fn has(&self, n: u64, row: u8, off: u64) -> bool
        requires small { n < 2 ^ 40 }
        requires room { n ≤ self.now.len }
        requires within { InForest n row off }
        ensures { result ≡ is_some (stored self.now row off) }
    {
        if row <= PAGE_ROW {
            let rows = PAGE_ROW - row;
            self.pages[(off >> rows) as usize].has(row, off % (1 << rows))
        } else {
            self.high[seam(row - PAGE_ROW - 1, off)].is_some()
        }
    }

    /// What is kept for a part of those that `n` entries have.
    pub fn part(&self, n: u64, row: u8, off: u64) -> Option<Digest>
        requires small { n < 2 ^ 40 }
        requires room { n ≤ self.now.len }
        requires within { InForest n row off }
        ensures { result ≡ stored self.now row off }
    {
        self.lent(n, row, off).copied()
    }

    /// The same, where it lies.
    pub fn lent(&self, n: u64, row: u8, off: u64) -> Option<&Digest>
        requires small { n < 2 ^ 40 }
        requires room { n ≤ self.now.len }
        requires within { InForest n row off }
        ensures { option_copied result ≡ stored self.now row off }
    {
        if row <= PAGE_ROW {
            let rows = PAGE_ROW - row;
            self.pages[(off >> rows) as usize].part(row, off % (1 << rows))
        } else {
            self.high[seam(row - PAGE_ROW - 1, off)].as_ref()
        }
    }

    /// What is kept for the part beside the one of a row that has an entry, of those that `n` entries have, where it lies.
    pub fn beside(&self, n: u64, row: u8, number: u64) -> Option<&Digest>
        requires small { n < 2 ^ 40 }
        requires room { n ≤ self.now.len }
        requires within { InForest n row (sibling_off (number / 2 ^ row)) }
        requires listed { is_listed self.now.pages number ≡ true }
        ensures { option_copied result ≡ stored self.now row (sibling_off (number / 2 ^ row)) }
    {
        if row < PAGE_ROW {
            self.pages[(number >> PAGE_ROW) as usize].beside(row, number % 128)
        } else {
            let other = sibling(Place {
                row,
                off: number >> row,
            });
            self.lent(n, row, other.off)
        }
    }

    /// Whether something is kept for the halves of a part of the row above, of those that `n` entries have.
    pub fn has_halves(&self, n: u64, row: u8, off: u64) -> (bool, bool)
        requires small { n < 2 ^ 40 }
        requires room { n ≤ self.now.len }
        requires within { InForest n (suc row) off }
        ensures left { result.0 ≡ is_some (stored self.now row (2 * off)) }
        ensures right { result.1 ≡ is_some (stored self.now row (2 * off + 1)) }
    {
        if row < PAGE_ROW {
            let rows = PAGE_ROW - 1 - row;
            self.pages[(off >> rows) as usize].has_halves(row, off % (1 << rows))
        } else {
            (self.has(n, row, 2 * off), self.has(n, row, 2 * off + 1))
        }
    }

    /// What is kept for the halves of a part of the row above, of those that `n` entries have, where both have something.
    pub fn pair(&self, n: u64, row: u8, off: u64) -> (Digest, Digest)
        requires small { n < 2 ^ 40 }
        requires room { n ≤ self.now.len }
        requires within { InForest n (suc row) off }
        requires left { is_some (stored self.now row (2 * off)) ≡ true }
        requires right { is_some (stored self.now row (2 * off + 1)) ≡ true }
        ensures left { stored self.now row (2 * off) ≡ Some result.0 }
        ensures right { stored self.now row (2 * off + 1) ≡ Some result.1 }
    {
        if row < PAGE_ROW {
            let rows = PAGE_ROW - 1 - row;
            self.pages[(off >> rows) as usize].pair(row, off % (1 << rows))
        } else {
            (
                self.digest(n, row, 2 * off),
                self.digest(n, row, 2 * off + 1),
            )
        }
    }

    /// What is kept for the halves of a part of the row above, of those that `n` entries have.
    pub fn halves(&self, n: u64, row: u8, off: u64) -> (Option<Digest>, Option<Digest>)
        requires small { n < 2 ^ 40 }
        requires room { n ≤ self.now.len }
        requires within { InForest n (suc row) off }
        ensures left { result.0 ≡ stored self.now row (2 * off) }
        ensures right { result.1 ≡ stored self.now row (2 * off + 1) }
    {
        if row < PAGE_ROW {
            let rows = PAGE_ROW - 1 - row;
            self.pages[(off >> rows) as usize].halves(row, off % (1 << rows))
        } else {
            (self.part(n, row, 2 * off), self.part(n, row, 2 * off + 1))
        }
    }

    // What is kept for a part of those that `n` entries have, for which something is.
    fn digest(&self, n: u64, row: u8, off: u64) -> Digest
        requires small { n < 2 ^ 40 }
        requires room { n ≤ self.now.len }
        requires within { InForest n row off }
        requires some { is_some (stored self.now row off) ≡ true }
        ensures { stored self.now row off ≡ Some result }
    {
        match self.lent(n, row, off) {
            Some(digest) => *digest,
            None => unreachable!(),
        }
    }

    /// Keeps an entry, live or not.
    pub fn put_entry(&mut self, number: u64, entry: Option<Digest>)
        requires room { number < self.old.len }
        requires listed { is_listed self.old.pages number ≡ true }
        ensures put { IsEntryKept self.old self.new number entry }
        ensures room { HasRoomOf self.old self.new }
    {
        let page = &mut self.pages[(number >> PAGE_ROW) as usize];
        page.put_entry(number % 128, entry);
    }

    /// Keeps this for the part of the row above that has an entry, of those that `n` entries have. Its halves have been told.
    pub fn put_part(&mut self, n: u64, row: u8, number: u64, own: Option<Digest>)
        requires small { n < 2 ^ 40 }
        requires room { n ≤ self.old.len }
        requires within { InForest n (suc row) (number / 2 ^ suc row) }
        requires listed { is_listed self.old.pages number ≡ true }
        requires halves { let off = number / 2 ^ suc row in IsOfHalves (stored self.old row (2 * off)) (stored self.old row (2 * off + 1)) own }
        ensures put { IsPartKept self.old self.new row number own }
        ensures room { HasRoomOf self.old self.new }
    {
        if row < PAGE_ROW {
            let page = &mut self.pages[(number >> PAGE_ROW) as usize];
            page.put_part(row, number % 128, own);
        } else {
            self.high[seam(row - PAGE_ROW, number >> (row + 1))] = own;
        }
    }

    /// Keeps for the part of the row above that has an entry, of those that `n` entries have, what its left half has, or its right one, where the
    /// other has nothing.
    pub fn put_alone(&mut self, n: u64, row: u8, number: u64, side: u64)
        requires small { n < 2 ^ 40 }
        requires room { n ≤ self.old.len }
        requires within { InForest n (suc row) (number / 2 ^ suc row) }
        requires listed { is_listed self.old.pages number ≡ true }
        requires side { side < 2 }
        requires other { stored self.old row (2 * (number / 2 ^ suc row) + (1 - side)) ≡ None }
        ensures put { IsPartKept self.old self.new row number (stored self.old row (2 * (number / 2 ^ suc row) + side)) }
        ensures room { HasRoomOf self.old self.new }
    {
        if row < PAGE_ROW {
            let page = &mut self.pages[(number >> PAGE_ROW) as usize];
            page.put_alone(row, number % 128, side);
        } else {
            let own = self.part(n, row, 2 * (number >> (row + 1)) + side);
            self.put_part(n, row, number, own);
        }
    }

    /// Keeps a digest for the part of the row above that has an entry, of those that `n` entries have. Both its halves have something.
    pub fn put_joined(&mut self, n: u64, row: u8, number: u64, own: Digest)
        requires small { n < 2 ^ 40 }
        requires room { n ≤ self.old.len }
        requires within { InForest n (suc row) (number / 2 ^ suc row) }
        requires listed { is_listed self.old.pages number ≡ true }
        requires left { is_some (stored self.old row (2 * (number / 2 ^ suc row))) ≡ true }
        requires right { is_some (stored self.old row (2 * (number / 2 ^ suc row) + 1)) ≡ true }
        ensures put { IsPartKept self.old self.new row number (Some own) }
        ensures room { HasRoomOf self.old self.new }
    {
        if row < PAGE_ROW {
            let page = &mut self.pages[(number >> PAGE_ROW) as usize];
            page.put_joined(row, number % 128, own);
        } else {
            self.high[seam(row - PAGE_ROW, number >> (row + 1))] = Some(own);
        }
    }

    /// Whether an entry has a cell, of those that there is room for.
    pub fn is_listed(&self, number: u64) -> bool
        requires { number < self.now.len }
        ensures { result ≡ is_listed self.now.pages number }
    {
        self.pages[(number >> PAGE_ROW) as usize].is_listed(number % 128)
    }

    // Makes room in the list of the parts of pages.
    fn lengthen_high(&mut self, entries: u64) -> Result<(), AllocError>
        ensures ok { OnOk result (entries / 128 ≤ length self.new.high) }
        ensures len { self.new.len ≡ self.old.len }
        ensures longer { IsLonger self.old self.new }
    {
        lengthen_list(&mut self.high, (entries >> PAGE_ROW) as usize)
    }

    // Makes room for one more entry.
    fn list_next(&mut self) -> Result<(), AllocError>
        requires small { self.old.len + 1 < 2 ^ 64 }
        requires high { (self.old.len + 1) / 128 ≤ length self.old.high }
        ensures ok { OnOk result (self.new.len ≡ self.old.len + 1) }
        ensures err { OnErr result (self.new.len ≡ self.old.len) }
        ensures high { self.new.high ≡ self.old.high }
        ensures longer { IsLonger self.old self.new }
    {
        let number = self.len;
        let k = (number >> PAGE_ROW) as usize;
        have_page(&mut self.pages, k)?;
        let page = &mut self.pages[k];
        page.list(number % 128)?;
        self.len += 1;
        Ok(())
    }

    // Makes room for so many entries, where the list of the parts of pages has it.
    fn list_upto(&mut self, entries: u64) -> Result<(), AllocError>
        requires { entries / 128 ≤ length self.old.high }
        ensures ok { OnOk result (self.new.len ≡ max self.old.len entries) }
        ensures longer { IsLonger self.old self.new }
    {
        'entries: while self.len() < entries {
            self.list_next()?;
        }
        Ok(())
    }

    /// Makes room for at least so many entries. What is kept for the parts stays.
    pub fn lengthen(&mut self, entries: u64) -> Result<(), AllocError>
        ensures ok { OnOk result (self.new.len ≡ max self.old.len entries) }
        ensures longer { IsLonger self.old self.new }
    {
        self.lengthen_high(entries)?;
        self.list_upto(entries)
    }

    /// Takes the cell of an entry that is not live. What is kept for the parts of the first `n` entries stays.
    pub fn let_go(&mut self, n: u64, number: u64)
        requires listed { is_listed self.old.pages number ≡ true }
        requires spent { stored self.old 0 number ≡ None }
        requires halves { AreStoredOfHalves self.old n }
        ensures same { (row off : ℕ) → InForest n row off → stored self.new row off ≡ stored self.old row off }
        ensures len { self.new.len ≡ self.old.len }
        ensures listed { IsWithout (is_listed self.old.pages) (is_listed self.new.pages) number }
    {
        let count = count_in(n, number - number % 128);
        let page = &mut self.pages[(number >> PAGE_ROW) as usize];
        page.let_go(count, number % 128);
    }
}
