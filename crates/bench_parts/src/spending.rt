//! Blocks that spend outputs, each of which extends the one before.
use block_samples::{Sample, SampleFault, block_behind, coinbase, legacy_tx};
use std::alloc::Global;
use tx_codec::{InView, OutView};
use uo_base::NoMemory;
use uo_digest::Digest;

/// Makes blocks, and keeps the outputs that are left to spend: each by the number of its transaction and its own.
///
/// No output has an amount. One in so many has the script 52, all others have 51.
#[derive(Drop)]
pub struct Purse {
    alloc: Global,
    tip: Digest,
    height: u32,
    ids: Vec<Digest>,
    coins: Vec<(u32, u32)>,
    every: u64,
    made: u64,
    draw: u64,
}

/// What spends an output, with no script.
pub fn input_of(txid: Digest, index: u32) -> InView<'static> {
    InView {
        txid,
        index,
        script: &[],
        sequence: u32::MAX,
    }
}

/// A block of a coinbase with these coins and, where there are inputs, of a payment from them to these outputs.
pub fn block_of(
    alloc: Global,
    tip: Digest,
    height: u32,
    coins: &[OutView<'_>],
    inputs: &[InView<'_>],
    outputs: &[OutView<'_>],
) -> Result<Sample, SampleFault> {
    if inputs.is_empty() {
        let txs = [coinbase(alloc, height, coins)?];
        return block_behind(alloc, tip, &txs);
    }
    let txs = [
        coinbase(alloc, height, coins)?,
        legacy_tx(alloc, inputs, outputs, 0)?,
    ];
    block_behind(alloc, tip, &txs)
}

impl Purse {
    /// Nothing to spend yet, and before the first block of a chain. One output in so many has the script 52.
    pub fn new(alloc: Global, every: u64) -> Purse {
        Purse {
            alloc,
            tip: Digest([0; 32]),
            height: 0,
            ids: Vec::new(alloc),
            coins: Vec::new(alloc),
            every,
            made: 0,
            draw: 1,
        }
    }

    /// A block of a coinbase with so many coins, which spends so many of the kept outputs, drawn by a fixed rule, and makes as many.
    ///
    /// More coins than one are kept, and can be spent a hundred blocks later; with one, what is made of the outputs is kept.
    pub fn block(&mut self, coins: u32, spends: u32) -> Result<Vec<u8>, SampleFault> {
        let coinbase = self.outputs(coins)?;
        let inputs = self.inputs(spends)?;
        let outputs = self.outputs(spends)?;
        let made = block_of(
            self.alloc,
            self.tip,
            self.height,
            &coinbase,
            &inputs,
            &outputs,
        )?;
        self.tip = made.hash;
        self.height = self.height.wrapping_add(1);
        let id = made.ids.last().copied().unwrap_or(self.tip);
        self.keep(id, if coins > 1 { coins } else { spends })?;
        Ok(made.text)
    }

    fn inputs(&mut self, count: u32) -> Result<Vec<InView<'static>>, NoMemory> {
        let mut inputs = Vec::new(self.alloc);
        for _ in 0..count {
            let (by, index) = self.take().unwrap_or((0, 0));
            let id = self.ids.get(by as usize).copied();
            inputs.push(input_of(id.unwrap_or(Digest([0; 32])), index))?;
        }
        Ok(inputs)
    }

    fn outputs(&mut self, count: u32) -> Result<Vec<OutView<'static>>, NoMemory> {
        let mut outputs = Vec::new(self.alloc);
        for _ in 0..count {
            outputs.push(OutView {
                amount: 0,
                script: if self.made % self.every.max(1) == 0 {
                    b"\x52"
                } else {
                    b"\x51"
                },
            })?;
            self.made = self.made.wrapping_add(1);
        }
        Ok(outputs)
    }

    fn take(&mut self) -> Option<(u32, u32)> {
        if self.coins.is_empty() {
            return None;
        }
        self.draw = self
            .draw
            .wrapping_mul(6_364_136_223_846_793_005)
            .wrapping_add(1_442_695_040_888_963_407);
        let at = (self.draw >> 33) as usize % self.coins.len();
        Some(self.coins.swap_remove(at))
    }

    fn keep(&mut self, id: Digest, outputs: u32) -> Result<(), NoMemory> {
        let by = u32::try_from(self.ids.len()).unwrap_or(u32::MAX);
        self.ids.push(id)?;
        for index in 0..outputs {
            self.coins.push((by, index))?;
        }
        Ok(())
    }
}
