//! Blocks.
ghost use Rattle.std.specs.Prelude.{◌≡◌, ◌<◌, ◌^◌, length, IfOk};
ghost use Rattle.std.specs.List.{AllByRecursion};
ghost use Rattle.tx_codec.specs.Transaction.{IsWritable};
ghost use Rattle.block_codec.specs.Block.{Block, block_of, txids_of, block_hash_of};
ghost use Rattle.block_codec.specs.Merkle.{merkle_of};
ghost use Rattle.block_codec.specs.declared.merkle_tree.MerkleOutcome.TheVariants.{Root};
ghost use Rattle.block_samples.specs.Samples.{header_behind, IsBehind};
ghost use Rattle.block_samples.specs.Texts.{IsText, IsTextOf};

use crate::fault::SampleFault;
use block_codec::{
    BlockFault, BlockView, HeaderView, MerkleOutcome, block_hash, merkle, read_block, write_block,
};
use std::alloc::Global;
use tx_codec::Tx;
use uo_base::NoMemory;
use uo_digest::Digest;

/// A block as it is sent, its hash, and the ids of its transactions in order.
#[derive(Debug, Drop)]
pub struct Sample {
    pub text: Vec<u8>,
    pub hash: Digest,
    pub ids: Vec<Digest>,
}

fn header_behind(prev: Digest, merkle: Digest) -> HeaderView
    ensures { result ≡ header_behind prev merkle }
{
    HeaderView {
        version: 1,
        prev,
        merkle,
        time: 0,
        bits: 0,
        nonce: 0,
    }
}

fn text_of(alloc: Global, header: &HeaderView, txs: &[Tx]) -> Result<Vec<u8>, SampleFault>
    requires some { 0 < length txs.now }
    requires writable { AllByRecursion IsWritable txs.now }
    ensures { IfOk result (λ text. IsTextOf (block_of header.now txs.now) text.items) }
{
    let mut text = Vec::new(alloc);
    write_block(header, txs, &mut text)?;
    if text.len() >= 4_294_967_296 {
        return Err(SampleFault::TooLong);
    }
    Ok(text)
}

/// Reads the text of a block.
fn read_back(alloc: Global, text: &[u8]) -> Result<BlockView<'_>, SampleFault>
    requires { IsText text.now }
    ensures { IfOk result (λ view. (b : Block) → IsTextOf b text.now → view ≡ b) }
{
    match read_block(alloc, text) {
        Ok(view) => Ok(view),
        Err(BlockFault::NoMemory) => Err(SampleFault::NoMemory),
        Err(BlockFault::NotABlock) => unreachable!(),
    }
}

fn root_of(alloc: Global, text: &[u8]) -> Result<Digest, SampleFault>
    requires { IsText text.now }
    ensures { IfOk result (λ root. (b : Block) → IsTextOf b text.now → merkle_of (txids_of b) ≡ Root root) }
{
    let view = read_back(alloc, text)?;
    match merkle(alloc, &view)? {
        MerkleOutcome::Root(root) => Ok(root),
        MerkleOutcome::Repeated { .. } => Err(SampleFault::Repeated),
    }
}

fn ids_of(alloc: Global, block: &BlockView<'_>) -> Result<Vec<Digest>, NoMemory>
    ensures { IfOk result (λ ids. ids.items ≡ txids_of block.now) }
{
    let mut ids = Vec::new(alloc);
    for i in 0..block.tx_count() {
        ids.push(block.txid(i))?;
    }
    Ok(ids)
}

/// The hash of the block that a text is, and the ids in it.
fn facts_of(alloc: Global, text: &[u8]) -> Result<(Digest, Vec<Digest>), SampleFault>
    requires { IsText text.now }
    ensures { IfOk result (λ facts. (b : Block) → IsTextOf b text.now → (facts.0 ≡ block_hash_of b) × (facts.1.items ≡ txids_of b)) }
{
    let view = read_back(alloc, text)?;
    let ids = ids_of(alloc, &view)?;
    Ok((block_hash(&view), ids))
}

/// The block of these transactions that comes right behind the block with this hash, as `[0; 32]` for the first of a chain.
///
/// It answers `Repeated` where the merkle tree over the transactions repeats, so that it has no root by itself, and `TooLong`
/// where the text would have 2^32 bytes or more.
pub fn block_behind(alloc: Global, prev: Digest, txs: &[Tx]) -> Result<Sample, SampleFault>
    requires some { 0 < length txs.now }
    requires writable { AllByRecursion IsWritable txs.now }
    ensures { IfOk result (IsBehind prev txs.now) }
{
    let unrooted = text_of(alloc, &header_behind(prev, Digest([0; 32])), txs)?;
    let merkle = root_of(alloc, &unrooted)?;
    let text = text_of(alloc, &header_behind(prev, merkle), txs)?;
    let (hash, ids) = facts_of(alloc, &text)?;
    Ok(Sample { text, hash, ids })
}
