//! What the records of a block's outputs have in common.
ghost use Rattle.std.specs.Prelude.{◌≡◌, ◌<◌, ◌^◌, IfOk};
ghost use Rattle.block_codec.specs.Block.{txids_of};
ghost use Rattle.block_rules.specs.Money.{found_of};

use crate::chain::Found;
use crate::output::MadeOutput;
use block_codec::{BlockView, block_hash};
use leaf_record::RecordView;
use std::alloc::Global;
use uo_base::NoMemory;
use uo_digest::Digest;

const NO_ID: Digest = Digest([0; 32]);

/// What the records of a block's outputs have in common: the block's hash and height, and the ids of its transactions.
#[derive(Drop)]
pub(crate) struct Origins {
    pub block: Digest,
    pub height: u32,
    pub txids: Vec<Digest>,
}

impl Origins {
    ghost use Rattle.block_rules.specs.Known.{ArisesFrom, txid_at, leaf_at};

    pub fn new(alloc: Global, block: &BlockView<'_>, height: u32) -> Result<Origins, NoMemory>
        ensures { IfOk result (ArisesFrom block.now height) }
    {
        Ok(Origins {
            block: block_hash(block),
            height,
            txids: txids(alloc, block)?,
        })
    }

    /// The id of the transaction at a place.
    pub fn txid(&self, tx: usize) -> Digest
        ensures { result ≡ txid_at self.now.txids.items tx }
    {
        match self.txids.get(tx) {
            Some(txid) => *txid,
            None => NO_ID,
        }
    }

    /// The record of an output.
    pub fn record<'a>(&self, output: &MadeOutput<'a>) -> RecordView<'a>
        requires { self.now.height < 2 ^ 31 }
        ensures { result ≡ leaf_at self.now output.now }
    {
        RecordView {
            block: self.block,
            txid: self.txid(output.tx as usize),
            index: output.index,
            height: self.height,
            coinbase: output.tx == 0,
            amount: output.amount,
            script: output.script,
        }
    }

    /// What the rules on money ask of it.
    pub fn found(&self, output: &MadeOutput<'_>) -> Found
        ensures { result ≡ found_of (leaf_at self.now output.now).rest }
    {
        Found {
            amount: output.amount,
            height: self.height,
            coinbase: output.tx == 0,
        }
    }
}

fn txids(alloc: Global, block: &BlockView<'_>) -> Result<Vec<Digest>, NoMemory>
    ensures { IfOk result (λ txids. txids.items ≡ txids_of block.now) }
{
    let mut txids = Vec::with_capacity(alloc, block.tx_count() as usize)?;
    for t in 0..block.tx_count() {
        txids.push(block.txid(t))?;
    }
    Ok(txids)
}
