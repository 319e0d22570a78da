//! The record of an output, in one piece.
ghost use Rattle.std.specs.Prelude.{◌≡◌, ◌≤◌, length, IsOk, IfOk, OnOk};
ghost use Rattle.leaf_record.specs.History.{same_point};
ghost use Rattle.output_index.specs.Marks.{mark_of};
ghost use Rattle.output_index.specs.Scripts.{without_script};

use crate::mark::mark;
use crate::script::Script;
use leaf_record::RecordView;
use std::alloc::Global;
use std::marker::Model;
use uo_base::NoMemory;
use uo_digest::Digest;

/// What is held of an output. It has the fields of a [`leaf_record::Record`], but a short script lies in it; contracts see it as a leaf.
#[derive(Drop)]
pub(crate) struct StoredRecord {
    block: Digest,
    txid: Digest,
    index: u32,
    height: u32,
    coinbase: bool,
    amount: u64,
    script: Script,
}

impl Model for StoredRecord {
    ghost use Rattle.std.specs.Prelude.{◌<◌, ◌≤◌, ◌^◌, length};
    ghost use Rattle.leaf_record.specs.Leaf.{Leaf, longest_script};
    ghost use Rattle.output_index.specs.Scripts.{script_text};

    ghost Value = { Leaf };

    ghost view = { λ r. record {
      point = record { txid = r.txid; index = r.index };
      rest = record { block = r.block; height = r.height; coinbase = r.coinbase; amount = r.amount; script = script_text r.script };
    } };

    ghost invariant = { λ r. (r.height < 2 ^ 31) × (length (script_text r.script) ≤ longest_script) };
}

impl StoredRecord {
    pub fn copied(alloc: Global, leaf: &RecordView<'_>) -> Result<Self, NoMemory>
        ensures same { IfOk result (λ stored. stored ≡ leaf.now) }
        ensures short { length leaf.now.rest.script ≤ 40 → IsOk result }
    {
        Ok(StoredRecord {
            block: leaf.block,
            txid: leaf.txid,
            index: leaf.index,
            height: leaf.height,
            coinbase: leaf.coinbase,
            amount: leaf.amount,
            script: Script::copied(alloc, leaf.script)?,
        })
    }

    /// This output from now on.
    pub fn set(&mut self, alloc: Global, leaf: &RecordView<'_>) -> Result<(), NoMemory>
        ensures same { OnOk result (self.new ≡ leaf.now) }
        ensures short { length leaf.now.rest.script ≤ 40 → IsOk result }
    {
        self.script.set(alloc, leaf.script)?;
        self.block = leaf.block;
        self.txid = leaf.txid;
        self.index = leaf.index;
        self.height = leaf.height;
        self.coinbase = leaf.coinbase;
        self.amount = leaf.amount;
        Ok(())
    }

    pub fn view(&self) -> RecordView<'_>
        ensures { result ≡ self.now }
    {
        RecordView {
            block: self.block,
            txid: self.txid,
            index: self.index,
            height: self.height,
            coinbase: self.coinbase,
            amount: self.amount,
            script: self.script.bytes(),
        }
    }

    pub fn mark(&self) -> u64
        ensures { result ≡ mark_of self.now.point }
    {
        mark(&self.txid, self.index)
    }

    /// No script from now on, so that a long one's memory is given back.
    pub fn clear_script(&mut self)
        ensures { self.new ≡ without_script self.old }
    {
        self.script.clear();
    }

    /// Whether this is the output with this name.
    pub fn is_of(&self, txid: &Digest, index: u32) -> bool
        ensures { result ≡ same_point self.now.point (record { txid = txid.now; index = index }) }
    {
        self.txid == *txid && self.index == index
    }
}
