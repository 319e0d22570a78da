//! A page: what is kept for the parts of 128 numbers.
ghost use Rattle.std.specs.Prelude.{◌≡◌, ◌≢◌, ℕ, suc, ◌+◌, ◌-◌, ◌*◌, ◌/◌, ◌^◌, ◌<◌, ◌≤◌, [], length, get_or, Some, None, true, false};
ghost use Rattle.std.specs.Prelude.{is_some, option_copied, OnOk, OnErr, IfOk};
ghost use Rattle.forest_place.specs.Forest.{InForest, sibling_off};
ghost use Rattle.live_forest.specs.Sets.{is_bit, has_part, rank as rank_of, IsWith, IsWithout};
ghost use Rattle.live_forest.specs.Pages.{PageState, middle as middle_of, spot, digest_at, told, IsPut, IsLifted};
ghost use Rattle.live_forest.specs.Pages.{IsEntryPut, IsPartPut, IsOfHalves, AreOfHalves};

use crate::bits::{has, has_in_halves, has_some, rank, with, without};
use crate::cell::Cell;
use crate::spots::{Spot, is_branch, middle, nearest, spot_of};
use forest_place::{Place, parent, sibling, side};
use std::alloc::{AllocError, Global};
use std::marker::Model;
use uo_digest::Digest;

// A new page has room for so many cells, the least of the rooms below that holds 128.
const FULL: usize = 129;

/// What is kept for the parts of 128 numbers, of those that are listed alone: a cell for each, in their order.
///
/// Between two listed numbers next to each other there is one part that has them in its two halves, and each part with listed numbers in
/// both halves is that of one such gap. The cell of the first listed number of its right half has the digests of both halves, side by side: so
/// what is digested together is read together. The first cell has the digest of all numbers, on the right.
#[derive(Drop)]
pub(crate) struct Page {
    listed: u128,
    live: u128,
    cells: Vec<Cell>,
}

impl Model for Page {
    ghost use Rattle.live_forest.specs.Pages.{PageState, IsPage};

    ghost Value = { PageState };

    ghost view = { λ s. record { listed = s.listed; live = s.live; cells = s.cells.items } };

    ghost invariant = { λ s. IsPage (record { listed = s.listed; live = s.live; cells = s.cells.items }) };
}

// The digest that lies where that of a part does, which has listed numbers.
fn digest_of(listed: u128, cells: &[Cell], row: u8, off: u64) -> &Digest
    requires row { row ≤ 7 }
    requires within { InForest 128 row off }
    requires some { has_part (is_bit listed) row off ≡ true }
    requires full { length cells.now ≡ rank_of (is_bit listed) 128 }
    ensures { result.now ≡ digest_at listed cells.now row off }
{
    let spot = spot_of(listed, row, off);
    let cell = &cells[spot.cell];
    if spot.right { &cell.right } else { &cell.left }
}

// Puts a digest at a spot.
fn put(cells: &mut Vec<Cell>, spot: Spot, digest: Digest)
    requires { spot.cell < length cells.old.items }
    ensures { IsPut cells.old.items cells.new.items spot digest }
{
    let cell = &mut cells[spot.cell];
    if spot.right {
        cell.right = digest;
    } else {
        cell.left = digest;
    }
}

// Moves the digest of a part to where that of the part above lies, since its sibling will have nothing listed; and answers which cell held both
// halves, and is free from now on.
fn lift(listed: u128, cells: &mut Vec<Cell>, part: Place) -> usize
    requires row { part.row < 7 }
    requires within { InForest 128 part.row part.off }
    requires some { has_part (is_bit listed) part.row part.off ≡ true }
    requires full { length cells.old.items ≡ rank_of (is_bit listed) 128 }
    ensures cell { result ≡ rank_of (is_bit listed) (middle_of part.row (part.off / 2)) }
    ensures put { IsPut cells.old.items cells.new.items (spot (is_bit listed) (suc part.row) (part.off / 2))
        (digest_at listed cells.old.items part.row part.off) }
{
    let above = parent(part);
    let digest = *digest_of(listed, cells, part.row, part.off);
    put(cells, spot_of(listed, above.row, above.off), digest);
    rank(listed, middle(part.row, above.off))
}

// Makes ready for the cell of a number to be taken out, and answers which cell goes.
fn make_way(listed: u128, cells: &mut Vec<Cell>, number: u64) -> usize
    requires number { number < 128 }
    requires full { length cells.old.items ≡ rank_of (is_bit listed) 128 }
    ensures { IsLifted listed cells.old.items cells.new.items number result }
{
    match nearest(listed, number) {
        None => 0,
        Some(beside) => lift(listed, cells, beside),
    }
}

// For how many cells a page keeps room that has so many: one, or 8, 19, 30, 41, .. of them. By the C library's reckoning a piece of that many is as
// large as 3, 7, 11, 15, .. records of the index. So whatever room one page leaves, records and other pages fill with no gap between them.
fn room_for(len: usize) -> usize
    ensures least { len ≤ result }
    ensures most { result ≤ len + 10 }
{
    if len <= 1 || len > FULL {
        return len;
    }
    (len + 2) / 11 * 11 + 8
}

// The same cells, with room for at least so many.
fn with_room(alloc: Global, cells: &[Cell], room: usize) -> Result<Vec<Cell>, AllocError>
    ensures { IfOk result (λ copy. copy.items ≡ cells.now) }
{
    let mut copy = Vec::with_capacity(alloc, room)?;
    copy.extend_from_slice(cells)?;
    Ok(copy)
}

// Gives room back that so many cells do not keep. Where there is no memory for fewer cells, the room stays.
fn shrink(cells: &mut Vec<Cell>)
    ensures { cells.new.items ≡ cells.old.items }
{
    let room = room_for(cells.len());
    if cells.capacity() <= room {
        return;
    }
    let alloc = *cells.allocator();
    if let Ok(fewer) = with_room(alloc, cells, room) {
        *cells = fewer;
    }
}

impl Page {
    /// No number is listed. There is room for all.
    pub fn new(alloc: Global) -> Result<Self, AllocError>
        ensures { IfOk result (λ page. (page.listed ≡ 0) × (page.live ≡ 0)) }
    {
        Ok(Page {
            listed: 0,
            live: 0,
            cells: Vec::with_capacity(alloc, FULL)?,
        })
    }

    /// Whether a number has a cell.
    pub fn is_listed(&self, number: u64) -> bool
        requires { number < 128 }
        ensures { result ≡ is_bit self.now.listed number }
    {
        has(self.listed, number)
    }

    /// Whether something is kept for a part.
    pub fn has(&self, row: u8, off: u64) -> bool
        requires row { row ≤ 7 }
        requires within { InForest 128 row off }
        ensures { result ≡ is_some (told self.now row off) }
    {
        has_some(self.live, row, off)
    }

    /// What is kept for a part.
    pub fn part(&self, row: u8, off: u64) -> Option<&Digest>
        requires row { row ≤ 7 }
        requires within { InForest 128 row off }
        ensures { option_copied result ≡ told self.now row off }
    {
        if !has_some(self.live, row, off) {
            return None;
        }
        Some(digest_of(self.listed, &self.cells, row, off))
    }

    /// What is kept for the part beside the one of a row that has a listed number.
    pub fn beside(&self, row: u8, number: u64) -> Option<&Digest>
        requires row { row < 7 }
        requires number { number < 128 }
        requires listed { is_bit self.now.listed number ≡ true }
        ensures { option_copied result ≡ told self.now row (sibling_off (number / 2 ^ row)) }
    {
        let other = sibling(Place {
            row,
            off: number >> row,
        });
        if !has_some(self.live, row, other.off) {
            return None;
        }
        let cell = &self.cells[rank(self.listed, middle(row, parent(other).off))];
        Some(if side(other) == 0 {
            &cell.left
        } else {
            &cell.right
        })
    }

    /// Whether something is kept for the halves of a part of the row above.
    pub fn has_halves(&self, row: u8, off: u64) -> (bool, bool)
        requires row { row < 7 }
        requires within { InForest 128 (suc row) off }
        ensures left { result.0 ≡ is_some (told self.now row (2 * off)) }
        ensures right { result.1 ≡ is_some (told self.now row (2 * off + 1)) }
    {
        has_in_halves(self.live, row, off)
    }

    /// What is kept for the halves of a part of the row above, where both have something.
    pub fn pair(&self, row: u8, off: u64) -> (Digest, Digest)
        requires row { row < 7 }
        requires within { InForest 128 (suc row) off }
        requires left { is_some (told self.now row (2 * off)) ≡ true }
        requires right { is_some (told self.now row (2 * off + 1)) ≡ true }
        ensures left { told self.now row (2 * off) ≡ Some result.0 }
        ensures right { told self.now row (2 * off + 1) ≡ Some result.1 }
    {
        let cell = &self.cells[rank(self.listed, middle(row, off))];
        (cell.left, cell.right)
    }

    /// What is kept for the halves of a part of the row above.
    pub fn halves(&self, row: u8, off: u64) -> (Option<Digest>, Option<Digest>)
        requires row { row < 7 }
        requires within { InForest 128 (suc row) off }
        ensures left { result.0 ≡ told self.now row (2 * off) }
        ensures right { result.1 ≡ told self.now row (2 * off + 1) }
    {
        let (left, right) = self.has_halves(row, off);
        if left && right {
            let (left, right) = self.pair(row, off);
            return (Some(left), Some(right));
        }
        (
            self.part(row, 2 * off).copied(),
            self.part(row, 2 * off + 1).copied(),
        )
    }

    /// Keeps an entry, live or not.
    pub fn put_entry(&mut self, number: u64, entry: Option<Digest>)
        requires number { number < 128 }
        requires listed { is_bit self.old.listed number ≡ true }
        ensures put { IsEntryPut self.old self.new number entry }
        ensures listed { self.new.listed ≡ self.old.listed }
    {
        match entry {
            None => self.live = without(self.live, number),
            Some(digest) => {
                put(&mut self.cells, spot_of(self.listed, 0, number), digest);
                self.live = with(self.live, number);
            }
        }
    }

    /// Keeps this for the part of the row above that has a listed number, where its halves have been told.
    pub fn put_part(&mut self, row: u8, number: u64, own: Option<Digest>)
        requires number { number < 128 }
        requires row { row < 7 }
        requires listed { is_bit self.old.listed number ≡ true }
        requires halves { let off = number / 2 ^ suc row in IsOfHalves (told self.old row (2 * off)) (told self.old row (2 * off + 1)) own }
        ensures put { IsPartPut self.old self.new row number own }
        ensures listed { self.new.listed ≡ self.old.listed }
    {
        if !is_branch(self.listed, row, number) {
            return;
        }
        let off = number >> (row + 1);
        let Some(digest) = own else {
            return;
        };
        put(&mut self.cells, spot_of(self.listed, row + 1, off), digest);
    }

    /// Keeps for the part of the row above that has a listed number what its left half has, or its right one, where the other has nothing. If one
    /// half alone has listed numbers, that is what is told for both, and no digest is read.
    pub fn put_alone(&mut self, row: u8, number: u64, side: u64)
        requires number { number < 128 }
        requires row { row < 7 }
        requires listed { is_bit self.old.listed number ≡ true }
        requires side { side < 2 }
        requires other { told self.old row (2 * (number / 2 ^ suc row) + (1 - side)) ≡ None }
        ensures put { IsPartPut self.old self.new row number (told self.old row (2 * (number / 2 ^ suc row) + side)) }
        ensures listed { self.new.listed ≡ self.old.listed }
    {
        if !is_branch(self.listed, row, number) {
            return;
        }
        let off = number >> (row + 1);
        let own = self.part(row, 2 * off + side).copied();
        self.put_part(row, number, own);
    }

    /// Keeps a digest for the part of the row above that has a listed number, where both its halves have something.
    pub fn put_joined(&mut self, row: u8, number: u64, own: Digest)
        requires number { number < 128 }
        requires row { row < 7 }
        requires listed { is_bit self.old.listed number ≡ true }
        requires left { is_some (told self.old row (2 * (number / 2 ^ suc row))) ≡ true }
        requires right { is_some (told self.old row (2 * (number / 2 ^ suc row) + 1)) ≡ true }
        ensures put { IsPartPut self.old self.new row number (Some own) }
        ensures listed { self.new.listed ≡ self.old.listed }
    {
        put(
            &mut self.cells,
            spot_of(self.listed, row + 1, number >> (row + 1)),
            own,
        );
    }

    /// Lists a number behind all that are. It is not live.
    pub fn list(&mut self, number: u64) -> Result<(), AllocError>
        requires number { number < 128 }
        requires last { (i : ℕ) → i < 128 → is_bit self.old.listed i ≡ true → i < number }
        ensures ok { OnOk result (IsWith (is_bit self.old.listed) (is_bit self.new.listed) number) }
        ensures err { OnErr result (self.new.listed ≡ self.old.listed) }
        ensures live { self.new.live ≡ self.old.live }
        ensures same { (r o : ℕ) → number / 2 ^ r ≢ o → told self.new r o ≡ told self.old r o }
    {
        let right = Digest([0; 32]);
        let left = match nearest(self.listed, number) {
            None => right,
            Some(before) => self.part(before.row, before.off).copied().unwrap_or(right),
        };
        self.cells.push(Cell { left, right })?;
        self.listed = with(self.listed, number);
        Ok(())
    }

    /// Takes the cell of a number that is not live. What is kept for the whole parts of the first `n` numbers stays.
    pub fn let_go(&mut self, n: u64, number: u64)
        requires number { number < 128 }
        requires listed { is_bit self.old.listed number ≡ true }
        requires spent { is_bit self.old.live number ≡ false }
        requires halves { AreOfHalves self.old n }
        ensures same { (r o : ℕ) → InForest n r o → told self.new r o ≡ told self.old r o }
        ensures listed { IsWithout (is_bit self.old.listed) (is_bit self.new.listed) number }
        ensures live { self.new.live ≡ self.old.live }
    {
        let out = make_way(self.listed, &mut self.cells, number);
        self.cells.remove(out);
        shrink(&mut self.cells);
        self.listed = without(self.listed, number);
    }
}
