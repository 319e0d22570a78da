//! A page: the entries of 256 numbers.
ghost use Rattle.std.specs.Prelude.{◌≡◌, ℕ, ◌+◌, ◌<◌, ◌≤◌, set, length, None, Some, IsSome, option_map, OnOk, OnErr};
ghost use Rattle.output_index.specs.Entries.{set_live, set_older};
ghost use Rattle.output_index.specs.Pages.{entry_in};

use crate::boxed_entry::BoxedEntry;
use crate::entry::Entry;
use crate::number_set::NumberSet;
use std::alloc::{AllocError, Global};
use std::marker::Model;

// A new page has room for so many places, the least of the rooms below that holds 256.
const FULL: usize = 263;

/// The entries of 256 numbers that follow each other, with a place for those alone that are held. A number of which nothing is held takes a bit.
#[derive(Drop)]
pub(crate) struct Page {
    held: NumberSet,
    slots: Vec<BoxedEntry>,
}

impl Model for Page {
    ghost use Rattle.std.specs.Prelude.{List, Option};
    ghost use Rattle.output_index.specs.declared.entry.Entry.{Entry};
    ghost use Rattle.output_index.specs.Pages.{laid, IsPage};

    ghost Value = { List (Option Entry) };

    ghost view = { λ p. laid p.held p.slots.items };

    ghost invariant = { λ p. IsPage p.held p.slots.items };
}

impl Page {
    /// Nothing is held.
    pub fn new(alloc: Global) -> Self
        ensures len { length result ≡ 256 }
        ensures none { (i : ℕ) → entry_in result i ≡ None }
    {
        Page {
            held: NumberSet::new(),
            slots: Vec::new(alloc),
        }
    }

    /// The entry of a number; None exactly where it is not held.
    pub fn get(&self, number: u64) -> Option<&Entry>
        requires { number < 256 }
        ensures { option_map (λ entry. entry.now) result ≡ entry_in self.now number }
    {
        if !self.held.has(number) {
            return None;
        }
        Some(self.slots[self.held.count_below(number)].entry())
    }

    /// The entry is live, or spent, from now on.
    pub fn set_live(&mut self, number: u64, live: bool)
        requires within { number < 256 }
        requires held { IsSome (entry_in self.old number) }
        ensures { self.new ≡ set self.old number (option_map (set_live live) (entry_in self.old number)) }
    {
        let slot = &mut self.slots[self.held.count_below(number)];
        slot.set_live(live);
    }

    /// The entry tells this older one from now on.
    pub fn set_older(&mut self, number: u64, older: Option<u64>)
        requires within { number < 256 }
        requires held { IsSome (entry_in self.old number) }
        ensures { self.new ≡ set self.old number (option_map (set_older older) (entry_in self.old number)) }
    {
        let slot = &mut self.slots[self.held.count_below(number)];
        slot.set_older(older);
    }

    /// Puts an entry at its number, which is above those of all others.
    pub fn put(&mut self, number: u64, slot: BoxedEntry) -> Result<(), AllocError>
        requires within { number < 256 }
        requires last { (i : ℕ) → number ≤ i → entry_in self.old i ≡ None }
        ensures ok { OnOk result (self.new ≡ set self.old number (Some slot)) }
        ensures err { OnErr result (self.new ≡ self.old) }
    {
        begin(&mut self.slots)?;
        self.slots.push(slot)?;
        self.held.put(number);
        Ok(())
    }

    /// Takes out the entry of a number that is held.
    pub fn take(&mut self, number: u64) -> BoxedEntry
        requires within { number < 256 }
        requires held { IsSome (entry_in self.old number) }
        ensures entry { Some result ≡ entry_in self.old number }
        ensures left { self.new ≡ set self.old number None }
    {
        let slot = self.slots.remove(self.held.count_below(number));
        self.held.take(number);
        shrink(&mut self.slots);
        slot
    }
}

// For how many places a page keeps room that has so many: none, or 21, 43, 65, .. of them. By the C library's reckoning a piece of that many is as
// large as 1, 2, 3, .. records. So whatever room one page leaves, records and other pages fill with no gap between them.
fn room_for(len: usize) -> usize
    ensures least { len ≤ result }
    ensures most { result ≤ len + 21 }
{
    if len == 0 || len > FULL {
        return len;
    }
    (len / 22 + 1) * 22 - 1
}

// Takes the room of a whole page, where there is none yet.
fn begin(slots: &mut Vec<BoxedEntry>) -> Result<(), AllocError>
    ensures { slots.new.items ≡ slots.old.items }
{
    if slots.capacity() == 0 {
        slots.reserve_exact(FULL)?;
    }
    Ok(())
}

// Gives room back that so many places do not keep. Where there is no memory for fewer places, the room stays.
fn shrink(slots: &mut Vec<BoxedEntry>)
    ensures { slots.new.items ≡ slots.old.items }
{
    let room = room_for(slots.len());
    slots.shrink_to(room);
}
