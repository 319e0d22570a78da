//! Transactions.
ghost use Rattle.std.specs.Prelude.{◌≡◌, ◌<◌, [], ◌∷◌, length, map, IfOk};
ghost use Rattle.std.specs.Int.{w32, to_le_bytes};
ghost use Rattle.tx_codec.specs.Transaction.{IsWritable};
ghost use Rattle.tx_codec.specs.Views.{input_of, output_of};
ghost use Rattle.block_samples.specs.Samples.{legacy_of, null_input};

use std::alloc::Global;
use tx_codec::{InView, OutView, Tx, TxIn, TxOut};
use uo_base::NoMemory;
use uo_digest::Digest;

fn own_input(alloc: Global, input: &InView<'_>) -> Result<TxIn, NoMemory>
    ensures { IfOk result (λ own. own ≡ input_of input.now) }
{
    Ok(TxIn {
        txid: input.txid,
        index: input.index,
        script: Vec::from_slice(alloc, input.script)?,
        sequence: input.sequence,
    })
}

fn own_output(alloc: Global, output: &OutView<'_>) -> Result<TxOut, NoMemory>
    ensures { IfOk result (λ own. own ≡ output_of output.now) }
{
    Ok(TxOut {
        amount: output.amount,
        script: Vec::from_slice(alloc, output.script)?,
    })
}

fn inputs_of(alloc: Global, inputs: &[InView<'_>]) -> Result<Vec<TxIn>, NoMemory>
    ensures { IfOk result (λ owned. owned.items ≡ map input_of inputs.now) }
{
    let mut owned = Vec::new(alloc);
    for input in inputs {
        owned.push(own_input(alloc, input)?)?;
    }
    Ok(owned)
}

fn outputs_of(alloc: Global, outputs: &[OutView<'_>]) -> Result<Vec<TxOut>, NoMemory>
    ensures { IfOk result (λ owned. owned.items ≡ map output_of outputs.now) }
{
    let mut owned = Vec::new(alloc);
    for output in outputs {
        owned.push(own_output(alloc, output)?)?;
    }
    Ok(owned)
}

/// The transaction of version 1 with these inputs and outputs, and no witness.
pub fn legacy_tx(
    alloc: Global,
    inputs: &[InView<'_>],
    outputs: &[OutView<'_>],
    lock_time: u32,
) -> Result<Tx, NoMemory>
    requires { 0 < length inputs.now }
    ensures value { IfOk result (λ tx. tx ≡ legacy_of (map input_of inputs.now) (map output_of outputs.now) lock_time) }
    // It has a text.
    ensures writable { IfOk result IsWritable }
{
    Ok(Tx {
        version: 1,
        inputs: inputs_of(alloc, inputs)?,
        outputs: outputs_of(alloc, outputs)?,
        stacks: Vec::new(alloc),
        lock_time,
    })
}

/// A coinbase with these outputs, whose script is the height in four bytes, little endian, so that no two have one id.
pub fn coinbase(alloc: Global, height: u32, outputs: &[OutView<'_>]) -> Result<Tx, NoMemory>
    ensures value { IfOk result (λ tx. tx ≡ legacy_of (null_input (to_le_bytes w32 height) ∷ []) (map output_of outputs.now) 0) }
    ensures writable { IfOk result IsWritable }
{
    let script = height.to_le_bytes();
    let input = InView {
        txid: Digest([0; 32]),
        index: u32::MAX,
        script: &script,
        sequence: u32::MAX,
    };
    legacy_tx(alloc, &[input], outputs, 0)
}

fn items_of(alloc: Global, items: &[&[u8]]) -> Result<Vec<Vec<u8>>, NoMemory>
    ensures { IfOk result (λ owned. length owned.items ≡ length items.now) }
{
    let mut owned = Vec::new(alloc);
    for item in items {
        owned.push(Vec::from_slice(alloc, item)?)?;
    }
    Ok(owned)
}

/// The transaction with this witness for its one input, of at least one item.
pub fn witnessed(alloc: Global, tx: Tx, items: &[&[u8]]) -> Result<Tx, NoMemory>
    requires one { length tx.inputs ≡ 1 }
    requires some { 0 < length items.now }
    // It has a text.
    ensures writable { IfOk result IsWritable }
{
    let mut stacks = Vec::new(alloc);
    stacks.push(items_of(alloc, items)?)?;
    Ok(Tx { stacks, ..tx })
}
