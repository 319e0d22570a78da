//! Blocks behind any other, of outputs that anyone can spend.
ghost use Rattle.std.specs.Prelude.{IfOk};
ghost use Rattle.tx_codec.specs.Transaction.{IsWritable};

use block_samples::{Sample, SampleFault, block_behind, coinbase, legacy_tx};
use std::alloc::Global;
use tx_codec::{InView, OutView, Tx};
use uo_digest::Digest;

/// The hash of no block.
pub const NONE: Digest = Digest([0; 32]);

/// 50 coins, in satoshi.
pub const FULL: u64 = 5_000_000_000;

/// A transaction with one input: the outpoint that it spends, and the amounts of its outputs.
#[derive(Clone, Copy)]
pub struct Sketch<'a>(pub Digest, pub u32, pub &'a [u64]);

fn outputs_of(alloc: Global, amounts: &[u64]) -> Result<Vec<OutView<'static>>, SampleFault> {
    let mut outputs = Vec::new(alloc);
    for amount in amounts {
        outputs.push(OutView {
            amount: *amount,
            script: b"\x51",
        })?;
    }
    Ok(outputs)
}

fn tx_of(alloc: Global, sketch: &Sketch<'_>) -> Result<Tx, SampleFault>
    ensures { IfOk result IsWritable }
{
    let input = InView {
        txid: sketch.0,
        index: sketch.1,
        script: &[],
        sequence: 0,
    };
    let outputs = outputs_of(alloc, sketch.2)?;
    Ok(legacy_tx(alloc, &[input], &outputs, 0)?)
}

/// The block behind the one with this hash: a coinbase of this height that pays one output, and other transactions.
pub fn block_paying(
    alloc: Global,
    prev: Digest,
    height: u32,
    output: OutView<'static>,
    sketches: &[Sketch<'_>],
) -> Result<Sample, SampleFault> {
    let mut txs = Vec::new(alloc);
    txs.push(coinbase(alloc, height, &[output])?)?;
    for sketch in sketches {
        txs.push(tx_of(alloc, sketch)?)?;
    }
    block_behind(alloc, prev, &txs)
}
