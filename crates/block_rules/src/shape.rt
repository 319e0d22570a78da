//! The rules that look at a block by itself.
ghost use Rattle.std.specs.Prelude.{◌≡◌, ◌<◌, ◌≤◌, ◌^◌, length, map, None, Some, IfOk, IfErr, OnOk};
ghost use Rattle.block_rules.specs.Judged.{ShapeJudged, FullJudged};
ghost use Rattle.block_rules.specs.Money.{spends_of};
ghost use Rattle.block_rules.specs.Rules.{value_fault};
ghost use Rattle.block_rules.specs.Walk.{new_at};

use crate::chain::Chain;
use crate::double::double_step;
use crate::fault::RuleFault;
use crate::output::OutputSlot;
use crate::refusal::Refusal;
use crate::spends::Spends;
use crate::steps::{coinbase_step, link_step, merkle_step, value_step, weight_step};
use crate::sums::output_sum;
use crate::walk::{Walk, walk_over};
use crate::witness::witness_step;
use block_codec::BlockView;
use std::alloc::Global;
use uo_base::{Limits, Net, NoMemory};

const MOST_BLOCKS: u32 = 2_147_483_648;

/// Judges a block by itself, beside the chain that it is to extend. The rules are asked in this order, and the first that
/// is broken is the answer: that it extends the tip, its merkle root, its witnesses, its weight, its coinbase, the values of its outputs,
/// that no outpoint is spent twice in it, and that there is room for what it adds.
pub fn shape_rules<'a>(
    alloc: Global,
    block: &BlockView<'a>,
    chain: &Chain,
    net: Net,
    limits: Limits,
) -> Result<Spends<'a>, RuleFault>
    requires leaves { chain.now.leaves ≤ limits.leaves }
    requires blocks { chain.now.blocks ≤ 2 ^ 31 }
    ensures { ShapeJudged net limits chain.now block.now result }
{
    // A block has a transaction.
    let _text = block.bytes();
    refuse(link_step(block, chain))?;
    refuse(merkle_step(alloc, block)?)?;
    refuse(witness_step(alloc, block, chain.blocks, net)?)?;
    refuse(weight_step(block))?;
    refuse(coinbase_step(block))?;
    refuse(value_step(block))?;
    refuse(double_step(alloc, block)?)?;
    full_step(alloc, block, chain, net, limits)
}

fn refuse(step: Option<Refusal>) -> Result<(), RuleFault>
    ensures ok { OnOk result (step ≡ None) }
    ensures err { IfErr result (λ fault. (why : Refusal) × (step ≡ Some why) × (fault ≡ RuleFault.Refused why)) }
{
    match step {
        None => Ok(()),
        Some(why) => Err(RuleFault::Refused(why)),
    }
}

// There is a next height, and room for what the block adds.
fn full_step<'a>(
    alloc: Global,
    block: &BlockView<'a>,
    chain: &Chain,
    net: Net,
    limits: Limits,
) -> Result<Spends<'a>, RuleFault>
    requires leaves { chain.now.leaves ≤ limits.leaves }
    requires blocks { chain.now.blocks ≤ 2 ^ 31 }
    requires some { 0 < length block.now.txs }
    requires value { value_fault block.now.txs ≡ None }
    ensures { FullJudged net limits chain.now block.now result }
{
    if chain.blocks >= MOST_BLOCKS {
        return Err(RuleFault::Refused(Refusal::Full));
    }
    let spends = spends_at(alloc, block, chain.blocks, net)?;
    if spends.new_count() > limits.leaves - chain.leaves {
        return Err(RuleFault::Refused(Refusal::Full));
    }
    Ok(spends)
}

// What the block leaves to later rules.
fn spends_at<'a>(
    alloc: Global,
    block: &BlockView<'a>,
    height: u32,
    net: Net,
) -> Result<Spends<'a>, NoMemory>
    requires height { height < 2 ^ 31 }
    requires some { 0 < length block.now.txs }
    requires value { value_fault block.now.txs ≡ None }
    ensures { IfOk result (λ spends. spends ≡ spends_of net height block.now) }
{
    let Walk {
        made,
        external,
        bills,
    } = walk_over(alloc, block, height)?;
    Ok(Spends {
        net,
        external,
        new: new_outputs(alloc, height, made.outputs),
        origins: made.origins,
        claimed: output_sum(block.tx(0)) as u64,
        bills,
    })
}

// What is left of the outputs made, and none at height 0.
fn new_outputs<'a>(
    alloc: Global,
    height: u32,
    mut outputs: Vec<OutputSlot<'a>>,
) -> Vec<OutputSlot<'a>>
    ensures { result.items ≡ map Some (new_at height outputs.entry.items) }
{
    if height == 0 {
        Vec::new(alloc)
    } else {
        outputs.retain(|output| output.is_some());
        outputs
    }
}
