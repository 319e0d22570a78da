//! The roots of a forest.
ghost use Rattle.std.specs.Prelude.{◌≡◌, ℕ, ◌+◌, ◌^◌, ◌<◌, ◌≤◌, List, [], ◌∷◌, ◌++◌, count_by, count_ones, is_some, IsTrue, Some, Option};
ghost use Rattle.std.specs.Prelude.{MatchOption};
ghost use Rattle.forest_place.specs.Forest.{is_slot as is_slot_of};

use crate::inner::join_root;
use crate::{Join, Joins};
use forest_place::is_slot;
use std::marker::{Model, PhantomData};
use std::sync::ledger::Ledger;
use uo_digest::{Digest, Digester, Steps};

/// The roots of a forest over fewer than 2^40 entries, one for each slot, by the digester `D`. A root is empty where no
/// entry of its slot is live.
pub struct Roots<D> {
    pub(crate) count: u64,
    pub(crate) slots: [Option<Digest>; 40],
    pub(crate) digester: PhantomData<D>,
}

impl<D> Model for Roots<D> {
    ghost use Rattle.forest_roots.specs.Stump.{Stump, IsStump};

    ghost Value = { Stump };

    ghost view = { λ s. record { leaves = s.count; rows = s.slots } };

    ghost invariant = { λ s. IsStump (record { leaves = s.count; rows = s.slots }) };
}

impl<D> Drop for Roots<D> {
    fn drop(self) {
        let Roots {
            count: _,
            slots: _,
            digester: _,
        } = self;
    }
}

impl<D: Digester> Roots<D> {
    ghost use Rattle.forest_roots.specs.Stump.{IsStump, StandsFor, root_in, empty_roots, with_root};
    ghost use Rattle.forest_roots.specs.Joined.{IsAdded, joins_of, addition_steps};

    /// No entry.
    pub fn new() -> Roots<D>
        ensures is { result ≡ empty_roots 0 }
        ensures stands { StandsFor D.digest_of [] result }
    {
        Roots::of(0)
    }

    /// `n` entries, and every root empty.
    pub fn of(n: u64) -> Roots<D>
        requires { n < 2 ^ 40 }
        ensures { result ≡ empty_roots n }
    {
        Roots {
            count: n,
            slots: [None; 40],
            digester: PhantomData,
        }
    }

    /// How many entries were ever added.
    pub fn leaves(&self) -> u64
        ensures is { result ≡ self.now.leaves }
        ensures stump { IsStump self.now }
    {
        self.count
    }

    /// The same roots once more.
    pub fn copy(&self) -> Roots<D>
        ensures { result ≡ self.now }
    {
        Roots {
            count: self.count,
            slots: self.slots,
            digester: PhantomData,
        }
    }

    /// Becomes the same as these roots. A copy that is made and then put here is moved twice, and roots are large.
    pub fn set(&mut self, roots: &Roots<D>)
        ensures { self.new ≡ roots.now }
    {
        self.count = roots.count;
        self.slots = roots.slots;
    }

    /// The root of a slot, which is `Some(None)` where it is empty. `None` where `row` is no slot.
    pub fn root(&self, row: u8) -> Option<Option<Digest>>
        ensures { MatchOption result
            (IsTrue (is_slot_of self.now.leaves row) → ⊥)
            (λ root. IsTrue (is_slot_of self.now.leaves row) × (root ≡ root_in self.now row)) }
    {
        if row < 40 && is_slot(self.count, row) {
            Some(self.slots[row as usize])
        } else {
            None
        }
    }

    /// Puts another root into a slot.
    pub fn put_root(&mut self, row: u8, root: Option<Digest>)
        requires { IsTrue (is_slot_of self.old.leaves row) }
        ensures { self.new ≡ with_root self.old row root }
    {
        self.slots[row as usize] = root;
    }

    /// Adds a live entry, which is joined with the roots of the slots from row 0 up to the first row that is no slot.
    /// An empty root is joined without a digest.
    pub fn add<L: Ledger>(&mut self, digest: Digest, steps: &mut Steps<L>) -> Joins
        requires { self.old.leaves + 1 < 2 ^ 40 }
        ensures roots { IsAdded D.digest_of self.old digest self.new }
        ensures joins { result ≡ joins_of D.digest_of self.old digest }

        // A step for each root that is joined and is not empty.
        ensures steps { steps.new ≡ steps.old + count_by (λ join. is_some join.left) result }
        ensures counted { steps.new ≡ steps.old + addition_steps self.old }
        ensures few { steps.new + count_ones self.new.leaves ≤ steps.old + 1 + count_ones self.old.leaves }
    {
        let mut joins = Joins::new();
        self.add_into(digest, &mut joins, steps);
        joins
    }

    /// The same, with the joins in place of what the list had. A list has room for 40 joins, so that many additions are
    /// faster with one list than with one each.
    pub fn add_into<L: Ledger>(&mut self, digest: Digest, joins: &mut Joins, steps: &mut Steps<L>)
        requires { self.old.leaves + 1 < 2 ^ 40 }
        ensures roots { IsAdded D.digest_of self.old digest self.new }
        ensures joins { joins.new ≡ joins_of D.digest_of self.old digest }
        ensures steps { steps.new ≡ steps.old + count_by (λ join. is_some join.left) joins.new }
        ensures counted { steps.new ≡ steps.old + addition_steps self.old }
        ensures few { steps.new + count_ones self.new.leaves ≤ steps.old + 1 + count_ones self.old.leaves }
    {
        joins.clear();
        let mut carried = digest;
        let mut row: u8 = 0;
        'slots: while is_slot(self.count, row) {
            let left = self.slots[row as usize];
            self.slots[row as usize] = None;
            carried = join_root::<D, L>(left, carried, steps);
            joins.push(Join {
                row,
                left,
                result: carried,
            });
            row += 1;
        }
        self.slots[row as usize] = Some(carried);
        self.count += 1;
    }
}
