//! What a block does to the index, and how it is undone there.
ghost use Rattle.std.specs.Prelude.{◌≡◌, ◌≢◌, ℕ, ◌+◌, ◌<◌, ◌≤◌, ◌^◌, ◌++◌, ◌∷◌, [], Some, slice_get, take, true, false, length};
ghost use Rattle.std.specs.Prelude.{OnOk, OnErr, All, AllPairs};
ghost use Rattle.leaf_record.specs.Leaf.{Leaf};
ghost use Rattle.live_forest.specs.State as forest_state;
ghost use Rattle.output_index.specs.Held.{is_live, is_spent, IsAbove};
ghost use Rattle.bridge_prover.specs.Bridge.{dropped, record_of};
ghost use Rattle.bridge_prover.specs.Own.{numbered, spent_in, forgotten_in, cut_in, unspent_in};

use block_rules::{Chain, Spends};
use live_forest::Forest;
use output_index::Outputs;
use reorg_undo::{Ring, Undo};
use uo_base::NoMemory;
use uo_digest::Digester;

// Adds one of the block's new records.
fn insert(outputs: &mut Outputs, number: u64, spends: &Spends<'_>, i: u64) -> Result<(), NoMemory>
    requires above { IsAbove number outputs.old }
    requires one { i < length spends.now.new }
    ensures ok { OnOk result ((leaf : Leaf) × (slice_get spends.now.new i ≡ Some leaf)
        × (outputs.new ≡ outputs.old ++ record { number = number; leaf = leaf; live = true } ∷ [])) }
    ensures err { OnErr result (outputs.new ≡ outputs.old) }
{
    outputs.insert_view(number, &spends.new_output(i))
}

// Takes back the live entries from n on, of which the last has the number before `end`.
pub(crate) fn cut(outputs: &mut Outputs, n: u64, end: u64)
    requires live { (i : ℕ) → n ≤ i → i < end → is_live i outputs.old ≡ true }
    requires above { IsAbove end outputs.old }
    requires order { n ≤ end }
    ensures { outputs.new ≡ cut_in n outputs.old }
{
    let mut last = end;
    while last > n {
        last -= 1;
        outputs.take_back(last);
    }
}

// Adds the block's new records as live entries, numbered from n on. Where there is no memory, none is added.
pub(crate) fn insert_all(outputs: &mut Outputs, n: u64, spends: &Spends<'_>) -> Result<(), NoMemory>
    requires above { IsAbove n outputs.old }
    requires few { n + length spends.now.new < 2 ^ 40 }
    ensures ok { OnOk result (outputs.new ≡ outputs.old ++ numbered n spends.now.new) }
    ensures err { OnErr result (outputs.new ≡ outputs.old) }
{
    for i in 0..spends.new_count() {
        let Ok(()) = insert(outputs, n + i, spends, i) else {
            cut(outputs, n, n + i);
            return Err(NoMemory);
        };
    }
    Ok(())
}

// Spends the entries of these numbers.
pub(crate) fn spend_all(outputs: &mut Outputs, numbers: &[u64])
    requires live { All (λ i. is_live i outputs.old ≡ true) numbers.now }
    requires apart { AllPairs (λ i j. i ≢ j) numbers.now }
    ensures { outputs.new ≡ spent_in numbers.now outputs.old }
{
    for number in numbers {
        outputs.spend(*number);
    }
}

// Makes the spent entries of these numbers live again.
pub(crate) fn unspend_all(outputs: &mut Outputs, numbers: &[u64])
    requires spent { All (λ i. is_spent i outputs.old ≡ true) numbers.now }
    requires apart { AllPairs (λ i j. i ≢ j) numbers.now }
    ensures { outputs.new ≡ unspent_in numbers.now outputs.old }
{
    for number in numbers {
        outputs.unspend(*number);
    }
}

// Takes back what `insert_all` and `spend_all` did: the entries of these numbers are live again, and those from n on, of which the last has the
// number before `end`, are gone.
pub(crate) fn give_back(outputs: &mut Outputs, numbers: &[u64], n: u64, end: u64)
    requires spent { All (λ i. is_spent i outputs.old ≡ true) numbers.now }
    requires apart { AllPairs (λ i j. i ≢ j) numbers.now }
    requires live { (i : ℕ) → n ≤ i → i < end → is_live i (unspent_in numbers.now outputs.old) ≡ true }
    requires above { IsAbove end outputs.old }
    requires order { n ≤ end }
    ensures { outputs.new ≡ cut_in n (unspent_in numbers.now outputs.old) }
{
    unspend_all(outputs, numbers);
    cut(outputs, n, end);
}

// What undoes a block that comes behind this chain and spends these entries.
pub(crate) fn undo_of(chain: &Chain, spent: Vec<u64>) -> Undo
    ensures { result ≡ record_of chain.now spent.items }
{
    Undo {
        blocks: chain.blocks,
        tip: chain.tip,
        leaves: chain.leaves,
        spent,
    }
}

// Keeps what undoes one more block. What the oldest block spent that is undone no more is not held any longer, in the index and in the forest.
pub(crate) fn keep<D: Digester>(
    ring: &mut Ring<Undo>,
    forest: &mut Forest<D>,
    outputs: &mut Outputs,
    undo: Undo,
)
    requires spent { All (λ i. is_spent i outputs.old ≡ true) (dropped ring.old) }
    requires apart { AllPairs (λ i j. i ≢ j) (dropped ring.old) }
    requires given { All (λ i. i < length forest.old.entries) (dropped ring.old) }
    requires gone { All (λ i. forest_state.is_live forest.old.entries i ≡ false) (dropped ring.old) }
    ensures kept { ring.new ≡ take 100 (undo ∷ ring.old) }
    ensures outputs { outputs.new ≡ forgotten_in (dropped ring.old) outputs.old }
    ensures entries { forest.new.entries ≡ forest.old.entries }
    ensures held { forest.new.held ≡ forest_state.held_without (dropped ring.old) forest.old.held }
{
    match ring.push(undo) {
        Some(oldest) => {
            forest.forget_all(&oldest.spent);
            outputs.forget_all(&oldest.spent);
        }
        None => {}
    }
}
