//! Digests of outputs for the forest.
ghost use Rattle.std.specs.Prelude.{◌≡◌, ◌≢◌, ℕ, ◌+◌, ◌*◌, ◌<◌, ◌≤◌, ◌∷◌, [], map, length, true, false, IfOk, All, AllPairs};
ghost use Rattle.std.specs.List.Sorted.{IsNonDecreasing, IsPermutation};
ghost use Rattle.forest_place.specs.Position.{rows};
ghost use Rattle.leaf_record.specs.Leaf.{leaf_text};
ghost use Rattle.live_forest.specs.State.{is_live, is_held};
ghost use Rattle.live_forest.specs.Blocks.{all_restored};
ghost use Rattle.bridge_prover.specs.Bridge.{restored_in};

use block_rules::Spends;
use leaf_record::{LeafBuf, leaf_digest, leaf_digests};
use live_forest::Forest;
use output_index::Outputs;
use std::alloc::{AllocError, Global};
use std::sync::ledger::Ledger;
use uo_digest::{Digest, Digester, Steps};

// The digests of the block's new records, in their order.
pub(crate) fn digests_of<D: Digester, L: Ledger>(
    alloc: Global,
    room: &mut LeafBuf<D>,
    spends: &Spends<'_>,
    steps: &mut Steps<L>,
) -> Result<Vec<Digest>, AllocError>
    ensures digests { IfOk result (λ digests. digests.items ≡ map (λ leaf. D.digest_of (leaf_text leaf)) spends.now.new) }
    ensures steps { steps.new ≤ steps.old + length spends.now.new }
{
    let outputs = spends.new_outputs();
    leaf_digests(alloc, room, &outputs, steps)
}

// These numbers in ascending order, in which a forest spends them by the fewest digests.
pub(crate) fn rising(alloc: Global, numbers: &[u64]) -> Result<Vec<u64>, AllocError>
    ensures same { IfOk result (λ all. IsPermutation numbers.now all.items) }
    ensures rise { IfOk result (λ all. IsNonDecreasing all.items) }
{
    let mut all = numbers.to_vec(alloc)?;
    all.sort_unstable();
    Ok(all)
}

// Makes an entry live again, if it is held.
fn restore<D: Digester, L: Ledger>(
    forest: &mut Forest<D>,
    outputs: &Outputs,
    room: &mut LeafBuf<D>,
    number: u64,
    steps: &mut Steps<L>,
)
    requires given { number < length forest.old.entries }
    requires spent { is_live forest.old.entries number ≡ false }
    requires held { is_held forest.old.held number ≡ true }
    ensures entries { forest.new.entries ≡ all_restored (restored_in D.digest_of outputs.now (number ∷ [])) forest.old.entries }
    ensures held { forest.new.held ≡ forest.old.held }
    ensures steps { steps.new ≤ steps.old + (rows (length forest.old.entries) + 1) }
{
    match outputs.output(number) {
        Some(leaf) => {
            let digest = leaf_digest::<D, L>(room, &leaf, steps);
            forest.restore(number, digest, steps);
        }
        None => {}
    }
}

// Makes the entries of these numbers live again, each with the digest of the output that is held.
pub(crate) fn restore_all<D: Digester, L: Ledger>(
    forest: &mut Forest<D>,
    outputs: &Outputs,
    room: &mut LeafBuf<D>,
    numbers: &[u64],
    steps: &mut Steps<L>,
)
    requires given { All (λ i. i < length forest.old.entries) numbers.now }
    requires spent { All (λ i. is_live forest.old.entries i ≡ false) numbers.now }
    requires apart { AllPairs (λ i j. i ≢ j) numbers.now }
    requires held { All (λ i. is_held forest.old.held i ≡ true) numbers.now }
    ensures entries { forest.new.entries ≡ all_restored (restored_in D.digest_of outputs.now numbers.now) forest.old.entries }
    ensures held { forest.new.held ≡ forest.old.held }
    ensures steps { steps.new ≤ steps.old + length numbers.now * (rows (length forest.old.entries) + 1) }
{
    for number in numbers {
        restore::<D, L>(forest, outputs, room, *number, steps);
    }
}
