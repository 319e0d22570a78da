//! Outputs of a block, as far as they are kept while it is judged.
ghost use Rattle.std.specs.Prelude.{◌≡◌, None, is_some};

use std::marker::Model;
use tx_codec::first_output;

/// An output that can be spent, with what tells it apart from the others of its block; its script has at most 10,000 bytes.
#[derive(Drop)]
pub(crate) struct MadeOutput<'a> {
    /// The place of its transaction in the block, from 0 for the coinbase.
    pub tx: u32,
    /// Its own place there, from 0.
    pub index: u32,
    /// In satoshi.
    pub amount: u64,
    pub script: &'a [u8],
}

impl<'a> Model for MadeOutput<'a> {
    ghost use Rattle.std.specs.Prelude.{◌≤◌, length};
    ghost use Rattle.leaf_record.specs.Leaf.{longest_script};
    ghost use Rattle.block_rules.specs.KeptOutputs.{KeptOutput};

    ghost Value = { KeptOutput };

    ghost view = { λ o. record { tx = o.tx; index = o.index; amount = o.amount; script = o.script.now } };

    ghost invariant = { λ o. length o.script.now ≤ longest_script };
}

/// An output that can be spent, or nothing. A block has more than a hundred thousand of these at times, so amount and script
/// are left in its text, and read there when they are asked for.
#[derive(Drop)]
pub(crate) struct OutputSlot<'a> {
    pub tx: u32,
    pub index: u32,
    /// The block's text from the output on, and no byte where there is none.
    pub text: &'a [u8],
}

impl<'a> Model for OutputSlot<'a> {
    ghost use Rattle.std.specs.Prelude.{Option};
    ghost use Rattle.block_rules.specs.KeptOutputs.{KeptOutput, IsSlotText, slot_of};

    ghost Value = { Option KeptOutput };

    ghost view = { λ s. slot_of s.tx s.index s.text.now };

    ghost invariant = { λ s. IsSlotText s.text.now };
}

impl<'a> OutputSlot<'a> {
    /// Nothing.
    pub fn none() -> OutputSlot<'a>
        ensures { result ≡ None }
    {
        OutputSlot {
            tx: 0,
            index: 0,
            text: &[],
        }
    }

    /// Whether there is one.
    pub fn is_some(&self) -> bool
        ensures { result ≡ is_some self.now }
    {
        !self.text.is_empty()
    }

    /// The output, if there is one.
    pub fn get(&self) -> Option<MadeOutput<'a>>
        ensures { result ≡ self.now }
    {
        match first_output(self.text) {
            Some(output) => Some(MadeOutput {
                tx: self.tx,
                index: self.index,
                amount: output.amount,
                script: output.script,
            }),
            None => None,
        }
    }
}
