//! What an output is called.
ghost use Rattle.std.specs.Prelude.{◌≡◌};
ghost use Rattle.output_index.specs.Marks.{mark_of};

use crate::mark::mark;
use std::marker::Model;
use uo_digest::Digest;

/// The name of an output, as an input of a block tells it. Contracts see it as an outpoint.
#[derive(Debug, Drop)]
pub struct OutputName {
    /// The id of the transaction that made the output.
    pub txid: Digest,
    /// The output's index in that transaction.
    pub index: u32,
}

impl Model for OutputName {
    ghost use Rattle.leaf_record.specs.Leaf.{Outpoint};

    ghost Value = { Outpoint };

    ghost view = { λ o. record { txid = o.txid; index = o.index } };
}

impl OutputName {
    pub(crate) fn mark(&self) -> u64
        ensures { result ≡ mark_of self.now }
    {
        mark(&self.txid, self.index)
    }
}
