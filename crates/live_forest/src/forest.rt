//! The forest over all entries.
ghost use Rattle.std.specs.Prelude.{◌≡◌, ℕ, ◌+◌, ◌*◌, ◌^◌, ◌<◌, ◌≤◌, ◌++◌, [], ◌∷◌, length, take, set, get_or, IsTrue, Some, None, MatchOption};
ghost use Rattle.std.specs.Prelude.{OnOk, OnErr, IfOk, map, max, option_map, count_ones, All, true, false};
ghost use Rattle.std.specs.List.{flat_map};
ghost use Rattle.std.specs.List.Sorted.{IsNonDecreasing};
ghost use Rattle.forest_place.specs.Forest.{is_slot as is_slot_of};
ghost use Rattle.forest_place.specs.Position.{rows as rows_of};
ghost use Rattle.forest_model.specs.Deletion.{entries_without};
ghost use Rattle.forest_model.specs.Content.{leaf};
ghost use Rattle.forest_model.specs.Standing.{root as root_of, tree_at, digest_at as digest_at_of};
ghost use Rattle.forest_model.specs.EntryPlace.{entry_place};
ghost use Rattle.forest_roots.specs.Stump.{Stump, StandsFor};
ghost use Rattle.forest_roots.specs.Joined.{addition_steps as steps_of_roots};
ghost use Rattle.live_forest.specs.Proving.{proof_of, IsByRow};
ghost use Rattle.live_forest.specs.State.{is_live, is_held, addition_steps, leaf_number};

use crate::batch::BatchProof;
use crate::emptying::empty_all;
use crate::growth::put_all;
use crate::proving::proof_of_entries;
use crate::refresh::{put, put_next};
use crate::seek::{digest_of_place, number_of_place, place_from};
use crate::store::Store;
use crate::walk::digests_of_places;
use forest_place::{Place, is_slot, root_place};
use forest_roots::Roots;
use std::alloc::Global;
use std::marker::{Model, PhantomData};
use std::sync::ledger::Ledger;
use uo_base::NoMemory;
use uo_digest::{Digest, Digester, Steps};

/// The forest over fewer than 2^40 entries, by the digester `D`: every output that was ever added, live with the digest of
/// its leaf, or spent. Entries are numbered from 0 in the order of addition, and a spent one keeps its number.
///
/// It is seen as the list of all entries, the number of further entries for which there is room, and of each entry whether it is held: a
/// spent one that was let go takes no room, and can not be made live again. Of the calls that change it `reserve` alone
/// can want memory.
#[derive(Drop)]
pub struct Forest<D: Digester> {
    count: u64,
    room: u64,
    store: Store,
    digester: PhantomData<D>,
}

impl<D: Digester> Model for Forest<D> {
    ghost use Rattle.std.specs.Prelude.{◌-◌, take};
    ghost use Rattle.live_forest.specs.Parts.{leaves_of};
    ghost use Rattle.live_forest.specs.Holding.{IsForest, held_of};
    ghost use Rattle.live_forest.specs.State.{ForestState};

    ghost Value = { ForestState };

    ghost view = { λ s. record { entries = take s.count (leaves_of s.store); spare = s.room - s.count; held = held_of s.count s.store } };

    ghost invariant = { λ s. IsForest D.digest_of s.count s.room s.store };
}

// The larger of two numbers.
fn larger(a: u64, b: u64) -> u64
    ensures { result ≡ max a b }
{
    if a < b { b } else { a }
}

impl<D: Digester> Forest<D> {
    /// No entry, and no room.
    pub fn new(alloc: Global) -> Self
        ensures entries { result.entries ≡ [] }
        ensures spare { result.spare ≡ 0 }
        ensures held { result.held ≡ [] }
    {
        Forest {
            count: 0,
            room: 0,
            store: Store::new(alloc),
            digester: PhantomData,
        }
    }

    /// Takes all memory that so many additions need. Room that was there before is counted in. Where there is not enough memory, the pages that
    /// were made stay, for later entries.
    pub fn reserve(&mut self, adds: u64) -> Result<(), NoMemory>
        ensures entries { self.new.entries ≡ self.old.entries }
        ensures held { self.new.held ≡ self.old.held }
        ensures room { OnOk result (self.new.spare ≡ max self.old.spare adds) }
        ensures err { OnErr result (self.new.spare ≡ self.old.spare) }
    {
        let len = self.count.checked_add(adds).ok_or(NoMemory)?;
        self.store.lengthen(len)?;
        self.room = larger(self.room, len);
        Ok(())
    }

    /// How many entries were ever added.
    pub fn leaves(&self) -> u64
        ensures is { result ≡ length self.now.entries }
        ensures few { length self.now.entries < 2 ^ 40 }
        ensures each { length self.now.held ≡ length self.now.entries }
    {
        self.count
    }

    /// For how many additions there is room.
    pub fn spare(&self) -> u64
        ensures { result ≡ self.now.spare }
    {
        self.room - self.count
    }

    /// Whether an entry is live. A number that was not given yet is none.
    pub fn live(&self, number: u64) -> bool
        ensures { result ≡ is_live self.now.entries number }
    {
        number < self.count && self.store.has(self.count, 0, number)
    }

    /// Whether an entry is held: it is live, or can be made live again.
    pub fn held(&self, number: u64) -> bool
        ensures is { result ≡ is_held self.now.held number }
        ensures live { is_live self.now.entries number ≡ true → result ≡ true }
    {
        number < self.count && self.store.is_listed(number)
    }

    /// Appends a live entry, and answers its number.
    pub fn add<L: Ledger>(&mut self, digest: Digest, steps: &mut Steps<L>) -> u64
        requires room { 0 < self.old.spare }
        requires few { length self.old.entries + 1 < 2 ^ 40 }
        ensures number { result ≡ length self.old.entries }
        ensures entries { self.new.entries ≡ self.old.entries ++ Some digest ∷ [] }
        ensures held { self.new.held ≡ self.old.held ++ true ∷ [] }
        ensures spare { self.new.spare + 1 ≡ self.old.spare }

        // As many steps as an addition to the roots takes: one for each root that is joined and is not empty.
        ensures steps { steps.new ≡ steps.old + addition_steps D.digest_of self.old.entries }
        ensures as_roots { (roots : Stump) → StandsFor D.digest_of self.old.entries roots → steps.new ≡ steps.old + steps_of_roots roots }
        ensures few { steps.new + count_ones (length self.new.entries) ≤ steps.old + 1 + count_ones (length self.old.entries) }
    {
        let number = self.count;
        put_next::<D, L>(&mut self.store, number, digest, steps);
        self.count += 1;
        number
    }

    /// Adds live entries. The parts that they make whole are made row by row.
    pub fn add_all<L: Ledger>(&mut self, added: &[Digest], steps: &mut Steps<L>)
        requires room { length added.now ≤ self.old.spare }
        requires few { length self.old.entries + length added.now < 2 ^ 40 }
        ensures entries { self.new.entries ≡ self.old.entries ++ map Some added.now }
        ensures held { self.new.held ≡ self.old.held ++ map (λ _. true) added.now }
        ensures spare { self.new.spare + length added.now ≡ self.old.spare }
        ensures steps { steps.new ≤ steps.old + length added.now + 40 }
    {
        put_all::<D, L>(&mut self.store, self.count, added, steps);
        self.count += added.len() as u64;
    }

    /// Spends a live entry.
    pub fn remove<L: Ledger>(&mut self, number: u64, steps: &mut Steps<L>)
        requires { IsTrue (is_live self.old.entries number) }
        ensures entries { self.new.entries ≡ set self.old.entries number None }
        ensures spare { self.new.spare ≡ self.old.spare }
        ensures held { self.new.held ≡ self.old.held }
        ensures steps { steps.new ≤ steps.old + rows_of (length self.old.entries) }
    {
        put::<D, L>(&mut self.store, self.count, number, None, steps);
    }

    /// Spends entries. The digests above one are made as far as they do not change with the next one: so of rising numbers each is made once.
    pub fn remove_all<L: Ledger>(&mut self, spent: &[u64], steps: &mut Steps<L>)
        requires { All (λ i. is_live self.old.entries i ≡ true) spent.now }
        ensures entries { self.new.entries ≡ entries_without spent.now self.old.entries }
        ensures count { length self.new.entries ≡ length self.old.entries }
        ensures spare { self.new.spare ≡ self.old.spare }
        ensures held { self.new.held ≡ self.old.held }
        ensures steps { steps.new ≤ steps.old + length spent.now * rows_of (length self.old.entries) }
    {
        empty_all::<D, L>(&mut self.store, self.count, spent, steps);
    }

    /// Makes a spent entry live that was not let go, with this digest.
    pub fn restore<L: Ledger>(&mut self, number: u64, digest: Digest, steps: &mut Steps<L>)
        requires given { number < length self.old.entries }
        requires spent { is_live self.old.entries number ≡ false }
        requires held { is_held self.old.held number ≡ true }
        ensures entries { self.new.entries ≡ set self.old.entries number (Some digest) }
        ensures spare { self.new.spare ≡ self.old.spare }
        ensures held { self.new.held ≡ self.old.held }
        ensures steps { steps.new ≤ steps.old + rows_of (length self.old.entries) }
    {
        put::<D, L>(&mut self.store, self.count, number, Some(digest), steps);
    }

    /// Drops all entries from the one with number `n` on. It digests nothing, since no part of the others has one of them.
    pub fn cut<L: Ledger>(&mut self, n: u64, steps: &mut Steps<L>)
        requires given { n ≤ length self.old.entries }
        requires live { (i : ℕ) → n ≤ i → i < length self.old.entries → is_live self.old.entries i ≡ true }
        ensures entries { self.new.entries ≡ take n self.old.entries }
        ensures spare { self.new.spare + n ≡ self.old.spare + length self.old.entries }
        ensures held { self.new.held ≡ take n self.old.held }
        ensures steps { steps.new ≡ steps.old }
    {
        self.count = n;
    }

    /// Lets a spent entry go: it can not be made live again. Its page gives room back, by a smaller list where there is memory for
    /// one; no more changes.
    pub fn forget(&mut self, number: u64)
        requires given { number < length self.old.entries }
        requires spent { is_live self.old.entries number ≡ false }
        ensures entries { self.new.entries ≡ self.old.entries }
        ensures spare { self.new.spare ≡ self.old.spare }
        ensures held { self.new.held ≡ set self.old.held number false }
    {
        if self.store.is_listed(number) {
            self.store.let_go(self.count, number);
        }
    }

    /// The place at which a live entry stands.
    pub fn place(&self, number: u64) -> Place
        requires { IsTrue (is_live self.now.entries number) }
        ensures stands { tree_at self.now.entries result.row result.off ≡ option_map (leaf number) (get_or self.now.entries number None) }
        ensures is { entry_place self.now.entries number ≡ Some result }
    {
        place_from(
            &self.store,
            self.count,
            Place {
                row: 0,
                off: number,
            },
        )
    }

    /// The digest of the node that stands at a place. None where none stands there, as at each place outside the forest.
    pub fn digest_at(&self, place: Place) -> Option<Digest>
        ensures { result ≡ digest_at_of D.digest_of self.now.entries place.row place.off }
    {
        digest_of_place::<D>(&self.store, self.count, place.row, place.off)
    }

    /// The digests of the nodes that stand at these places, as `digest_at` answers them. Both lists had better ascend by position: then each
    /// place whose parent is among `above`, with the places above that, takes a step from there in place of a walk from the root.
    pub fn digests_at(
        &self,
        alloc: Global,
        above: &[Place],
        places: &[Place],
    ) -> Result<Vec<Option<Digest>>, NoMemory>
        ensures { IfOk result (λ digests. digests.items ≡ map (λ p. digest_at_of D.digest_of self.now.entries p.row p.off) places.now) }
    {
        Ok(digests_of_places::<D>(alloc, &self.store, self.count, above, places)?)
    }

    /// Where these live entries stand, whose numbers rise, and what proves them: the siblings that their places need, row by row, each with the
    /// digest that stands there, which is lent. All of it is found on one way down, which forks where the entries part.
    pub fn proof_of(&self, alloc: Global, numbers: &[u64]) -> Result<BatchProof<'_>, NoMemory>
        requires live { All (λ i. is_live self.now.entries i ≡ true) numbers.now }
        requires rise { IsNonDecreasing numbers.now }
        ensures places { IfOk result (λ b. map Some b.places.items ≡ map (entry_place self.now.entries) numbers.now) }
        ensures siblings { IfOk result (λ b. flat_map (λ row. row) b.rows.items ≡ proof_of D.digest_of self.now.entries numbers.now) }
        ensures rows { IfOk result (λ b. IsByRow D.digest_of self.now.entries numbers.now b.rows.items) }
    {
        Ok(proof_of_entries::<D>(alloc, &self.store, self.count, numbers)?)
    }

    /// The number of the live entry that stands at a place. None where none stands there.
    pub fn number_at(&self, place: Place) -> Option<u64>
        ensures { result ≡ leaf_number (tree_at self.now.entries place.row place.off) }
    {
        number_of_place(&self.store, self.count, place.row, place.off)
    }

    /// The root of a slot, which is `Some(None)` where it is empty. `None` where `row` is no slot.
    pub fn root(&self, row: u8) -> Option<Option<Digest>>
        ensures { MatchOption result (IsTrue (is_slot_of (length self.now.entries) row) → ⊥) (λ x. IsTrue (is_slot_of (length self.now.entries) row)
            × (x ≡ root_of D.digest_of self.now.entries row)) }
    {
        if row < 40 && is_slot(self.count, row) {
            let root = root_place(row, self.count);
            Some(self.store.part(self.count, row, root.off))
        } else {
            None
        }
    }

    /// The roots of all slots.
    pub fn roots(&self) -> Roots<D>
        ensures { StandsFor D.digest_of self.now.entries result }
    {
        let mut roots = Roots::of(self.leaves());
        for row in 0..40u8 {
            if let Some(root) = self.root(row) {
                roots.put_root(row, root);
            }
        }
        roots
    }
}
