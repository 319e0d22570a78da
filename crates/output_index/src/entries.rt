//! The entries by their numbers.
ghost use Rattle.std.specs.Prelude.{◌≡◌, ◌<◌, ◌≤◌, ◌+◌, ◌/◌, ◌^◌, ◌++◌, [], ◌∷◌, length, true, Some, None, IfOk};
ghost use Rattle.std.specs.Prelude.{OnOk, OnErr, IsSome, option_map, vec_len, vec_capacity};
ghost use Rattle.std.specs.List.{AllByRecursion};
ghost use Rattle.output_index.specs.Entries.{entry_at, lives_in, changed, removed, set_live, set_older, entries_from};
ghost use Rattle.output_index.specs.Pages.{row_of, ArePages};

use crate::boxed_entry::BoxedEntry;
use crate::entry::Entry;
use crate::page::Page;
use leaf_record::RecordView;
use std::alloc::{AllocError, Global};
use std::marker::Model;
use uo_base::NoMemory;

/// The entries, each at its number, so that none is searched for. Numbers are those of a forest's entries, which come in a row. They lie in
/// pages of 256, each of 56 bytes and 8 for each entry that it has room for: at most 21 more than it holds, or 263 until the first of them
/// is gone. So a number of which nothing is held any more takes a fifth of a byte.
///
/// The boxes of entries that were taken out are kept for the next ones, so that a block which spends as many outputs as it makes asks
/// for no box here. A new box is made only where none is spare, so there are never more, held and spare, than the most entries that
/// were held at once. For each box that is made there is made room among the spare ones too, so that an entry can always be taken out.
#[derive(Drop)]
pub(crate) struct Entries {
    pages: Vec<Page>,
    held: usize,
    spare: Vec<BoxedEntry>,
}

impl Model for Entries {
    ghost use Rattle.std.specs.Prelude.{ℕ, List, vec_len, vec_capacity};
    ghost use Rattle.output_index.specs.declared.entry.Entry.{Entry};
    ghost use Rattle.output_index.specs.Pages.{row_of};
    ghost use Rattle.output_index.specs.Entries.{entries_from, AreEntries};

    ghost Value = { List (ℕ × Entry) };

    ghost view = { λ e. entries_from 0 (row_of e.pages.items) };

    ghost invariant = { λ e. AreEntries e.pages.items e.held (vec_len e.spare) (vec_capacity e.spare) };
}

impl Entries {
    /// Holds nothing.
    pub fn new(alloc: Global) -> Self
        ensures { result ≡ [] }
    {
        Entries {
            pages: Vec::new(alloc),
            held: 0,
            spare: Vec::new(alloc),
        }
    }

    /// The entry of a number; None exactly where it is not held.
    pub fn get(&self, number: u64) -> Option<&Entry>
        ensures { option_map (λ entry. entry.now) result ≡ entry_at number self.now }
    {
        match self.pages.get(page_of(number)) {
            Some(page) => page.get(number % 256),
            None => None,
        }
    }

    /// The entry of a number that is held.
    pub fn at(&self, number: u64) -> &Entry
        requires { IsSome (entry_at number self.now) }
        ensures { entry_at number self.now ≡ Some result.now }
    {
        let Some(entry) = self.get(number) else {
            unreachable!()
        };
        entry
    }

    /// Whether the number is that of a live entry.
    pub fn live(&self, number: u64) -> bool
        ensures { result ≡ lives_in (entry_at number self.now) }
    {
        match self.get(number) {
            Some(entry) => entry.live,
            None => false,
        }
    }

    /// The entry is live, or spent, from now on.
    pub fn set_live(&mut self, number: u64, live: bool)
        requires { IsSome (entry_at number self.old) }
        ensures { self.new ≡ changed number (set_live live) self.old }
    {
        let page = &mut self.pages[page_of(number)];
        page.set_live(number % 256, live);
    }

    /// The entry tells this older one from now on.
    pub fn set_older(&mut self, number: u64, older: Option<u64>)
        requires { IsSome (entry_at number self.old) }
        ensures { self.new ≡ changed number (set_older older) self.old }
    {
        let page = &mut self.pages[page_of(number)];
        page.set_older(number % 256, older);
    }

    /// Puts an output at its number, which is above those of all others. It is live and tells no older one.
    pub fn add(&mut self, alloc: Global, number: u64, leaf: &RecordView<'_>) -> Result<(), NoMemory>
        requires { AllByRecursion (λ x. x.0 < number) self.old }
        ensures ok { OnOk result (self.new ≡ self.old ++ (number, record { leaf = leaf.now; live = true; older = None }) ∷ []) }
        ensures err { OnErr result (self.new ≡ self.old) }
    {
        have_page(&mut self.pages, page_of(number), alloc)?;
        let boxed = boxed_entry(&mut self.spare, self.held, alloc, leaf)?;
        let page = &mut self.pages[page_of(number)];
        page.put(number % 256, boxed)?;
        self.held += 1;
        Ok(())
    }

    /// Takes out the entry of a number that is held. Its box is spare from now on.
    pub fn remove(&mut self, number: u64)
        requires { IsSome (entry_at number self.old) }
        ensures { self.new ≡ removed number self.old }
    {
        let page = &mut self.pages[page_of(number)];
        let mut boxed = page.take(number % 256);
        boxed.clear_script();
        self.spare.push_reserved(boxed);
        self.held -= 1;
    }
}

/// A spare box, or a new one where none is spare, with this output, live. There is room for it among the spare ones, and for the boxes of as many
/// entries as are held.
fn boxed_entry(
    spare: &mut Vec<BoxedEntry>,
    held: usize,
    alloc: Global,
    leaf: &RecordView<'_>,
) -> Result<BoxedEntry, NoMemory>
    requires few { held + 1 < 2 ^ 64 }
    requires room { held + vec_len spare.old ≤ vec_capacity spare.old }
    ensures is { IfOk result (λ boxed. boxed ≡ record { leaf = leaf.now; live = true; older = None }) }
    ensures room { held + vec_len spare.new ≤ vec_capacity spare.new }
    ensures one_more { OnOk result (held + 1 + vec_len spare.new ≤ vec_capacity spare.new) }
{
    match spare.pop() {
        Some(mut boxed) => {
            boxed.fill(alloc, leaf)?;
            Ok(boxed)
        }
        None => {
            have_room(spare, held, alloc)?;
            BoxedEntry::new(alloc, leaf)
        }
    }
}

// Sees to it that there is room among the spare boxes, of which there is none, for one more than so many. The list is made anew, so that nothing is
// moved to where nothing lies.
fn have_room(spare: &mut Vec<BoxedEntry>, held: usize, alloc: Global) -> Result<(), AllocError>
    requires none { vec_len spare.old ≡ 0 }
    requires few { held + 1 < 2 ^ 64 }
    ensures none { vec_len spare.new ≡ 0 }
    ensures grows { vec_capacity spare.old ≤ vec_capacity spare.new }
    ensures ok { OnOk result (held + 1 ≤ vec_capacity spare.new) }
{
    if spare.capacity() <= held {
        *spare = Vec::with_capacity(alloc, (held + 1).saturating_add(held))?;
    }
    Ok(())
}

/// The page that a number is in.
fn page_of(number: u64) -> usize
    ensures { result ≡ number / 256 }
{
    (number / 256) as usize
}

/// Makes the pages up to one, as far as they are not there.
fn have_page(pages: &mut Vec<Page>, at: usize, alloc: Global) -> Result<(), AllocError>
    requires { ArePages pages.old.items }
    ensures same { entries_from 0 (row_of pages.new.items) ≡ entries_from 0 (row_of pages.old.items) }
    ensures pages { ArePages pages.new.items }
    ensures ok { OnOk result (at < length pages.new.items) }
{
    'pages: while pages.len() <= at {
        pages.push(Page::new(alloc))?;
    }
    Ok(())
}
