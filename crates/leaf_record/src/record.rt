//! Records of outputs, owned and as they lie in a source.
ghost use Rattle.std.specs.Prelude.{◌≡◌, IfOk};
ghost use Rattle.leaf_record.specs.Leaf.{LeafFits, RestFits, code_of};

use std::alloc::Global;
use std::marker::Model;
use uo_base::NoMemory;
use uo_digest::Digest;

/// The most bytes that the script of a record has: an output with a longer one can not be spent.
pub const MAX_SCRIPT: usize = 10_000;

/// An output that a block made, with a script of its own; contracts see it as a leaf of the forest.
///
/// The height is below 2^31, and the script has at most 10,000 bytes.
#[derive(Debug, Drop)]
pub struct Record {
    /// The hash of the block that made it.
    pub block: Digest,
    /// The id of the transaction that made it.
    pub txid: Digest,
    /// The output's index in that transaction.
    pub index: u32,
    /// The height of the block.
    pub height: u32,
    /// Whether the block's coinbase made it.
    pub coinbase: bool,
    /// The amount in satoshi.
    pub amount: u64,
    /// The locking script, of at most 10,000 bytes.
    pub script: Vec<u8>,
}

impl Model for Record {
    ghost use Rattle.std.specs.Prelude.{◌<◌, ◌≤◌, ◌^◌, length};
    ghost use Rattle.leaf_record.specs.Leaf.{Outpoint, Rest, Leaf, longest_script};

    ghost Value = { Leaf };

    ghost view = { λ r. record {
      point = record { txid = r.txid; index = r.index };
      rest = record { block = r.block; height = r.height; coinbase = r.coinbase; amount = r.amount; script = r.script.items };
    } };

    ghost invariant = { λ r. (r.height < 2 ^ 31) × (length r.script.items ≤ longest_script) };
}

/// The same where the script lies in a source.
///
/// The height is below 2^31, and the script has at most 10,000 bytes.
#[derive(Debug, Drop)]
pub struct RecordView<'a> {
    /// The hash of the block that made the output, its bytes in the order in which they are hashed and sent.
    pub block: Digest,
    /// The id of the transaction that made it, its bytes in the same order.
    pub txid: Digest,
    /// The output's index in that transaction, from 0.
    pub index: u32,
    /// The height of the block, below 2^31.
    pub height: u32,
    /// Whether the block's coinbase made it.
    pub coinbase: bool,
    /// The amount in satoshi. Each 64-bit number can stand here.
    pub amount: u64,
    /// The locking script, of at most 10,000 bytes, a slice of the source.
    pub script: &'a [u8],
}

impl<'a> Model for RecordView<'a> {
    ghost use Rattle.std.specs.Prelude.{◌<◌, ◌≤◌, ◌^◌, length};
    ghost use Rattle.leaf_record.specs.Leaf.{Outpoint, Rest, Leaf, longest_script};

    ghost Value = { Leaf };

    ghost view = { λ r. record {
      point = record { txid = r.txid; index = r.index };
      rest = record { block = r.block; height = r.height; coinbase = r.coinbase; amount = r.amount; script = r.script.now };
    } };

    ghost invariant = { λ r. (r.height < 2 ^ 31) × (length r.script.now ≤ longest_script) };
}

/// What a record is without the output's name, as a message shows it.
///
/// The height is below 2^31, and the script has at most 10,000 bytes.
#[derive(Debug, Drop)]
pub struct RestView<'a> {
    /// The hash of the block that made the output, its bytes in the order in which they are hashed and sent.
    pub block: Digest,
    /// The height of the block, below 2^31.
    pub height: u32,
    /// Whether the block's coinbase made it.
    pub coinbase: bool,
    /// The amount in satoshi. Each 64-bit number can stand here.
    pub amount: u64,
    /// The locking script, of at most 10,000 bytes, a slice of the source.
    pub script: &'a [u8],
}

impl<'a> Model for RestView<'a> {
    ghost use Rattle.std.specs.Prelude.{◌<◌, ◌≤◌, ◌^◌, length};
    ghost use Rattle.leaf_record.specs.Leaf.{Rest, longest_script};

    ghost Value = { Rest };

    ghost view = { λ r. record { block = r.block; height = r.height; coinbase = r.coinbase; amount = r.amount; script = r.script.now } };

    ghost invariant = { λ r. (r.height < 2 ^ 31) × (length r.script.now ≤ longest_script) };
}

impl<'a> RestView<'a> {
    /// The record of the output with this name.
    pub fn with_outpoint(&self, txid: Digest, index: u32) -> RecordView<'a>
        ensures leaf { result ≡ record { point = record { txid = txid; index = index }; rest = self.now } }
        ensures fits { LeafFits result }
    {
        RecordView {
            block: self.block,
            txid,
            index,
            height: self.height,
            coinbase: self.coinbase,
            amount: self.amount,
            script: self.script,
        }
    }

    /// Twice the height, and one more for a coinbase output.
    pub(crate) fn code(&self) -> u32
        ensures code { result ≡ code_of self.now }
        ensures fits { RestFits self.now }
    {
        self.height * 2 + u32::from(self.coinbase)
    }
}

impl<'a> RecordView<'a> {
    /// The record without the output's name.
    pub fn rest(&self) -> RestView<'a>
        ensures rest { result ≡ self.now.rest }
        ensures fits { LeafFits self.now }
    {
        RestView {
            block: self.block,
            height: self.height,
            coinbase: self.coinbase,
            amount: self.amount,
            script: self.script,
        }
    }

    /// A record with a copy of the script.
    pub fn to_record(&self, alloc: Global) -> Result<Record, NoMemory>
        ensures { IfOk result (λ r. r ≡ self.now) }
    {
        Ok(Record {
            block: self.block,
            txid: self.txid,
            index: self.index,
            height: self.height,
            coinbase: self.coinbase,
            amount: self.amount,
            script: Vec::from_slice(alloc, self.script)?,
        })
    }
}

impl Record {
    /// The same record, whose script is not copied.
    pub fn view(&self) -> RecordView<'_>
        ensures leaf { result ≡ self.now }
        ensures fits { LeafFits self.now }
    {
        let rest = RestView {
            block: self.block,
            height: self.height,
            coinbase: self.coinbase,
            amount: self.amount,
            script: &self.script,
        };
        rest.with_outpoint(self.txid, self.index)
    }
}
