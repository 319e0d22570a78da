//! The rule that no outpoint is spent twice in a block.
ghost use Rattle.std.specs.Prelude.{◌≡◌, ◌++◌, [], map, None, IsTrue, IfOk, OnOk};
ghost use Rattle.std.specs.List.Sorted.{IsStrictlyIncreasing};
ghost use Rattle.tx_codec.specs.Views.{input_of};
ghost use Rattle.block_rules.specs.Blocks.{outpoint_of, placed_of};
ghost use Rattle.block_rules.specs.Rules.{double};
ghost use Rattle.block_rules.specs.Seen.{Sees, mark_of, marks_of};

use crate::outpoint::{OutpointKey, head_of, key_of_input};
use crate::refusal::Refusal;
use block_codec::BlockView;
use std::alloc::Global;
use std::collections::BTreeSet;
use tx_codec::{InView, TxView};
use uo_base::NoMemory;

/// No input has the outpoint of an earlier one.
pub(crate) fn double_step(alloc: Global, block: &BlockView<'_>) -> Result<Option<Refusal>, NoMemory>
    ensures { IfOk result (λ step. step ≡ double [] (placed_of 0 block.now.txs)) }
{
    if has_one_input(block) || all_differ(alloc, block)? {
        Ok(None)
    } else {
        first_double(alloc, block)
    }
}

// Whether there is but one input, as in a block that has a coinbase alone.
fn has_one_input(block: &BlockView<'_>) -> bool
    ensures { IsTrue result → double [] (placed_of 0 block.now.txs) ≡ None }
{
    block.tx_count() == 1 && block.tx(0).input_count() <= 1
}

// Whether numbers that stand for the outpoints tell them all apart. They do in nearly every block in which none is spent
// twice, and to put numbers in order is quicker than to keep a set.
fn all_differ(alloc: Global, block: &BlockView<'_>) -> Result<bool, NoMemory>
    ensures { IfOk result (λ differ. IsTrue differ → double [] (placed_of 0 block.now.txs) ≡ None) }
{
    let mut marks = marks(alloc, block)?;
    marks.sort_unstable();
    Ok(rises(&marks))
}

fn marks(alloc: Global, block: &BlockView<'_>) -> Result<Vec<u64>, NoMemory>
    ensures { IfOk result (λ marks. marks.items ≡ marks_of (placed_of 0 block.now.txs)) }
{
    let mut marks = Vec::new(alloc);
    for t in 0..block.tx_count() {
        put_marks(&mut marks, block.tx(t))?;
    }
    Ok(marks)
}

fn put_marks(marks: &mut Vec<u64>, tx: &TxView<'_>) -> Result<(), NoMemory>
    ensures { OnOk result (marks.new.items ≡ marks.old.items ++ map (λ input. mark_of (outpoint_of input)) tx.now.inputs) }
{
    for input in tx.inputs() {
        marks.push(mark(&input))?;
    }
    Ok(())
}

fn mark(input: &InView<'_>) -> u64
    ensures { result ≡ mark_of (outpoint_of (input_of input.now)) }
{
    head_of(&input.txid).wrapping_add(u64::from(input.index))
}

// Whether each number is less than the next.
fn rises(numbers: &[u64]) -> bool
    ensures { IsTrue result → IsStrictlyIncreasing numbers.now }
{
    let mut i = 1;
    while i < numbers.len() {
        if numbers[i - 1] >= numbers[i] {
            return false;
        }
        i += 1;
    }
    true
}

// The first input whose outpoint an earlier one has.
fn first_double(alloc: Global, block: &BlockView<'_>) -> Result<Option<Refusal>, NoMemory>
    ensures { IfOk result (λ step. step ≡ double [] (placed_of 0 block.now.txs)) }
{
    let mut seen = BTreeSet::new(alloc);
    for t in 0..block.tx_count() {
        if let Some(input) = first_seen(&mut seen, block.tx(t))? {
            return Ok(Some(Refusal::Double { tx: t, input }));
        }
    }
    Ok(None)
}

// The first input whose outpoint was seen before; those of the others are put to the ones seen.
fn first_seen(seen: &mut BTreeSet<OutpointKey>, tx: &TxView<'_>) -> Result<Option<u32>, NoMemory>
    ensures { IfOk result (λ found. Sees seen.old tx.now.inputs found seen.new) }
{
    let mut i = 0;
    for input in tx.inputs() {
        if !seen.insert(key_of_input(&input))? {
            return Ok(Some(i));
        }
        i += 1;
    }
    Ok(None)
}
