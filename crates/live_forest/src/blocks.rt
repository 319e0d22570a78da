//! What a block does to the forest, and how it is undone.
ghost use Rattle.std.specs.Prelude.{◌≡◌, ◌+◌, ◌*◌, ◌^◌, ◌<◌, ◌≤◌, ◌++◌, length, map, replicate, Some, true, false, All};
ghost use Rattle.forest_place.specs.Position.{rows as rows_of};
ghost use Rattle.forest_model.specs.Deletion.{entries_without};
ghost use Rattle.live_forest.specs.State.{is_live, held_without};

use crate::Forest;
use std::sync::ledger::Ledger;
use uo_digest::{Digest, Digester, Steps};

impl<D: Digester> Forest<D> {
    /// Makes the changes of a block: spends entries, and then adds some. Of rising numbers each part is digested once.
    pub fn apply_block<L: Ledger>(&mut self, spent: &[u64], added: &[Digest], steps: &mut Steps<L>)
        requires live { All (λ i. is_live self.old.entries i ≡ true) spent.now }
        requires room { length added.now ≤ self.old.spare }
        requires few { length self.old.entries + length added.now < 2 ^ 40 }
        ensures entries { self.new.entries ≡ entries_without spent.now self.old.entries ++ map Some added.now }
        ensures held { self.new.held ≡ self.old.held ++ map (λ _. true) added.now }
        ensures spare { self.new.spare + length added.now ≡ self.old.spare }
        ensures steps { steps.new ≤ steps.old + length spent.now * rows_of (length self.old.entries) + length added.now + 40 }
    {
        self.remove_all(spent, steps);
        self.add_all(added, steps);
    }

    /// Lets spent entries go: they can not be made live again, and their room is free.
    pub fn forget_all(&mut self, spent: &[u64])
        requires given { All (λ i. i < length self.old.entries) spent.now }
        requires spent { All (λ i. is_live self.old.entries i ≡ false) spent.now }
        ensures entries { self.new.entries ≡ self.old.entries }
        ensures spare { self.new.spare ≡ self.old.spare }
        ensures held { self.new.held ≡ held_without spent.now self.old.held }
    {
        for number in spent {
            self.forget(*number);
        }
    }
}
