//! The rules on a block alone, one a function, in the order in which they are asked.
ghost use Rattle.std.specs.Prelude.{◌≡◌, ◌<◌, nat_le, length, IfOk, option_map};
ghost use Rattle.std.specs.List.{list_any};
ghost use Rattle.tx_codec.specs.Views.{input_of};
ghost use Rattle.block_codec.specs.Block.{txids_of, weight_of};
ghost use Rattle.block_codec.specs.Merkle.{is_same, merkle_of};
ghost use Rattle.block_rules.specs.Steps.{unless};
ghost use Rattle.block_rules.specs.Rules.{merkle_step, is_null, is_coinbase, has_value, coinbase_fault, value_fault};

use crate::chain::Chain;
use crate::refusal::Refusal;
use crate::sums::MOST_MONEY;
use block_codec::{BlockView, MerkleOutcome, merkle, weight};
use std::alloc::Global;
use tx_codec::{InView, TxView};
use uo_base::NoMemory;
use uo_digest::Digest;

const HEAVIEST: u64 = 4_000_000;

const NO_HASH: [u8; 32] = [0; 32];

const NO_INDEX: u32 = 4_294_967_295;

/// It extends the tip.
pub(crate) fn link_step(block: &BlockView<'_>, chain: &Chain) -> Option<Refusal>
    ensures { result ≡ unless (is_same block.now.header.prev chain.now.tip) Refusal.Link }
{
    if block.header().prev == chain.tip {
        None
    } else {
        Some(Refusal::Link)
    }
}

/// The header has its merkle root, and no hash is paired with itself at another place.
pub(crate) fn merkle_step(alloc: Global, block: &BlockView<'_>) -> Result<Option<Refusal>, NoMemory>
    ensures { IfOk result (λ step. step ≡ merkle_step block.now.header.merkle (merkle_of (txids_of block.now))) }
{
    Ok(merkle_refusal(block.header().merkle, merkle(alloc, block)?))
}

fn merkle_refusal(root: Digest, outcome: MerkleOutcome) -> Option<Refusal>
    ensures { result ≡ merkle_step root outcome }
{
    match outcome {
        MerkleOutcome::Root(computed) if computed == root => None,
        MerkleOutcome::Root(_) => Some(Refusal::MerkleRoot),
        MerkleOutcome::Repeated { level, place } => Some(Refusal::MerkleRepeated { level, place }),
    }
}

/// It weighs no more than a block may.
pub(crate) fn weight_step(block: &BlockView<'_>) -> Option<Refusal>
    ensures { result ≡ unless (nat_le (weight_of block.now) 4000000) (Refusal.Weight (weight_of block.now)) }
{
    let weight = weight(block);
    if weight <= HEAVIEST {
        None
    } else {
        Some(Refusal::Weight { weight })
    }
}

/// The first transaction is a coinbase, and no other spends the null outpoint.
pub(crate) fn coinbase_step(block: &BlockView<'_>) -> Option<Refusal>
    requires { 0 < length block.now.txs }
    ensures { result ≡ option_map Refusal.Coinbase (coinbase_fault block.now.txs) }
{
    if !is_coinbase(block.tx(0)) {
        return Some(Refusal::Coinbase { tx: 0 });
    }
    for t in 1..block.tx_count() {
        if has_null(block.tx(t)) {
            return Some(Refusal::Coinbase { tx: t });
        }
    }
    None
}

fn is_coinbase(tx: &TxView<'_>) -> bool
    ensures { result ≡ is_coinbase tx.now.inputs }
{
    let mut inputs = tx.inputs();
    match (inputs.next(), inputs.next()) {
        (Some(input), None) => is_null(&input)
            && input.script.len() >= 2
            && input.script.len() <= 100,
        _ => false,
    }
}

fn has_null(tx: &TxView<'_>) -> bool
    ensures { result ≡ list_any is_null tx.now.inputs }
{
    for input in tx.inputs() {
        if is_null(&input) {
            return true;
        }
    }
    false
}

fn is_null(input: &InView<'_>) -> bool
    ensures { result ≡ is_null (input_of input.now) }
{
    input.txid == Digest(NO_HASH) && input.index == NO_INDEX
}

/// No output, and no sum of a transaction's outputs, is more than all money.
pub(crate) fn value_step(block: &BlockView<'_>) -> Option<Refusal>
    ensures { result ≡ option_map Refusal.Value (value_fault block.now.txs) }
{
    for t in 0..block.tx_count() {
        if !has_value(block.tx(t)) {
            return Some(Refusal::Value { tx: t });
        }
    }
    None
}

// One walk tells both, since a sum in which no output is more than all money has room in its type.
fn has_value(tx: &TxView<'_>) -> bool
    ensures { result ≡ has_value tx.now }
{
    let mut sum = 0u128;
    for output in tx.outputs() {
        if output.amount > MOST_MONEY {
            return false;
        }
        sum += u128::from(output.amount);
    }
    sum <= u128::from(MOST_MONEY)
}
