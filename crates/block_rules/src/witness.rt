//! The rule on witnesses (BIP 141).
ghost use Rattle.std.specs.Prelude.{◌≡◌, ◌<◌, length, IfOk, option_map};
ghost use Rattle.std.specs.List.{list_any};
ghost use Rattle.block_codec.specs.Witness.{witness_root_of};
ghost use Rattle.block_rules.specs.Witness.{commitment_over, committed_fault, has_witness, reserved_of, witness_fault, witness_height, witness_step};

use crate::refusal::{Refusal, WitnessFault};
use block_codec::{BlockView, commitment, witness_root};
use std::alloc::Global;
use uo_base::{Net, NoMemory};
use uo_digest::{Digest, Sha256dStream};

/// The first height whose block has to commit to its witnesses: 481,824 on the main network, and 0 on regtest.
pub fn witness_height(net: Net) -> u32
    ensures { result ≡ witness_height net }
{
    match net {
        Net::Main => 481_824,
        Net::Regtest => 0,
    }
}

/// From the witness height on the coinbase commits to the witnesses, or there are none.
pub(crate) fn witness_step(
    alloc: Global,
    block: &BlockView<'_>,
    height: u32,
    net: Net,
) -> Result<Option<Refusal>, NoMemory>
    requires { 0 < length block.now.txs }
    ensures { IfOk result (λ step. step ≡ witness_step net height block.now) }
{
    if height < witness_height(net) {
        return Ok(None);
    }
    Ok(witness_fault(alloc, block, commitment(block))?.map(Refusal::Witness))
}

// What is wrong with the witnesses, where the coinbase commits to them so.
fn witness_fault(
    alloc: Global,
    block: &BlockView<'_>,
    committed: Option<Digest>,
) -> Result<Option<WitnessFault>, NoMemory>
    requires { 0 < length block.now.txs }
    ensures { IfOk result (λ fault. fault ≡ witness_fault committed block.now) }
{
    match committed {
        None if has_witness(block) => Ok(Some(WitnessFault::Unexpected)),
        None => Ok(None),
        Some(hash) => committed_fault(alloc, block, hash),
    }
}

// A transaction of the block has a witness.
fn has_witness(block: &BlockView<'_>) -> bool
    ensures { result ≡ list_any has_witness block.now.txs }
{
    for t in 0..block.tx_count() {
        if block.tx(t).is_segwit() {
            return true;
        }
    }
    false
}

// The root is taken only where the coinbase's own witness has the form.
fn committed_fault(
    alloc: Global,
    block: &BlockView<'_>,
    hash: Digest,
) -> Result<Option<WitnessFault>, NoMemory>
    requires { 0 < length block.now.txs }
    ensures { IfOk result (λ fault. fault ≡ committed_fault hash (witness_root_of block.now) (reserved_of block.now.txs)) }
{
    let Some(reserved) = reserved(block) else {
        return Ok(Some(WitnessFault::Form));
    };
    if commitment_over(&witness_root(alloc, block)?, reserved) == hash {
        Ok(None)
    } else {
        Ok(Some(WitnessFault::Root))
    }
}

// The one item of the coinbase's witness, of 32 bytes.
fn reserved<'a>(block: &BlockView<'a>) -> Option<&'a [u8]>
    requires { 0 < length block.now.txs }
    ensures { option_map (λ item. item.now) result ≡ reserved_of block.now.txs }
{
    let coinbase = block.tx(0);
    // A transaction has an input.
    let _text = coinbase.bytes();
    let mut items = coinbase.items(0);
    match (items.next(), items.next()) {
        (Some(item), None) if item.len() == 32 => Some(item),
        _ => None,
    }
}

// What a coinbase commits to.
fn commitment_over(root: &Digest, reserved: &[u8]) -> Digest
    ensures { result ≡ commitment_over root.now reserved.now }
{
    let mut stream = Sha256dStream::new();
    stream.update(&root.0);
    stream.update(reserved);
    stream.finish()
}
