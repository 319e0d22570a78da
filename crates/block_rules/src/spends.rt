//! What a block leaves to later rules.
ghost use Rattle.std.specs.Prelude.{◌≡◌, ◌<◌, ◌≤◌, ◌-◌, length, take, drop, slice_get, Some};

use crate::chain::{Found, Outside};
use crate::origins::Origins;
use crate::output::OutputSlot;
use leaf_record::{Leaves, RecordView};
use std::marker::Model;
use uo_base::Net;

/// What the rules on money ask of a transaction behind the coinbase; contracts see it as a bill.
#[derive(Drop)]
pub(crate) struct TxMoney {
    /// What each of its inputs spends, where the block itself made it.
    pub own: Vec<Option<Found>>,
    /// The sum of its outputs.
    pub makes: u128,
}

impl Model for TxMoney {
    ghost use Rattle.block_rules.specs.Money.{Bill};

    ghost Value = { Bill };

    ghost use Rattle.std.specs.Prelude.{◌<◌, ◌^◌, length};

    ghost view = { λ t. record { own = t.own.items; makes = t.makes } };

    ghost invariant = { λ t. length t.own.items < 2 ^ 32 };
}

/// What a block that passes by itself leaves to later rules.
#[derive(Drop)]
pub struct Spends<'a> {
    pub(crate) net: Net,
    pub(crate) origins: Origins,
    pub(crate) external: Vec<Outside>,
    // What is left of those that were made: nothing in it is missing.
    pub(crate) new: Vec<OutputSlot<'a>>,
    // The sum of the coinbase's outputs.
    pub(crate) claimed: u64,
    // Of each transaction behind the coinbase.
    pub(crate) bills: Vec<TxMoney>,
}

impl<'a> Model for Spends<'a> {
    ghost use Rattle.block_rules.specs.Money.{BlockSpends};

    ghost Value = { BlockSpends };

    ghost use Rattle.leaf_record.specs.History.{somes};
    ghost use Rattle.block_rules.specs.Known.{history_at};

    ghost view = { λ s. record {
      net = s.net;
      height = s.origins.height;
      external = s.external.items;
      new = somes (history_at s.origins s.new.items);
      claimed = s.claimed;
      bills = s.bills.items;
    } };

    ghost use Rattle.std.specs.Prelude.{◌<◌, ◌^◌};
    ghost use Rattle.block_rules.specs.Paying.{IsCounted, IsWhole};

    ghost invariant = { λ s. IsCounted s.bills.items s.external.items × IsWhole (history_at s.origins s.new.items) × (s.origins.height < 2 ^ 31) };
}

impl<'a> Spends<'a> {
    /// The inputs that spend outputs of other blocks, in the order in which the block has them.
    pub fn external(&self) -> &[Outside]
        ensures { result.now ≡ self.now.external }
    {
        &self.external
    }

    /// How many records the block adds.
    pub fn new_count(&self) -> u64
        ensures { result ≡ length self.now.new }
    {
        self.new.len() as u64
    }

    /// The record that the block adds at a place, from 0, in the order of its transactions and outputs.
    pub fn new_output(&self, i: u64) -> RecordView<'a>
        requires { i < length self.now.new }
        ensures { slice_get self.now.new i ≡ Some result }
    {
        match self.new[i as usize].get() {
            Some(output) => self.origins.record(&output),
            None => unreachable!(),
        }
    }

    /// All of these records.
    pub fn new_outputs(&self) -> NewOutputs<'_, 'a>
        ensures { result ≡ self.now.new }
    {
        NewOutputs {
            spends: self,
            from: 0,
            end: self.new_count(),
        }
    }

    /// Those of these records that stand from one place on and before another.
    pub fn new_outputs_between(&self, from: u64, end: u64) -> NewOutputs<'_, 'a>
        requires order { from ≤ end }
        requires within { end ≤ length self.now.new }
        ensures { result ≡ take (end - from) (drop from self.now.new) }
    {
        NewOutputs {
            spends: self,
            from,
            end,
        }
    }
}

/// Neighbours among the records that a block adds, in the order of its transactions and outputs; contracts see their list.
#[derive(Drop)]
pub struct NewOutputs<'s, 'a> {
    spends: &'s Spends<'a>,
    from: u64,
    end: u64,
}

impl<'s, 'a> Model for NewOutputs<'s, 'a> {
    ghost use Rattle.std.specs.Prelude.{◌<◌, ◌≤◌, ◌-◌, ◌^◌, List, length, take, drop};
    ghost use Rattle.leaf_record.specs.Leaf.{Leaf};

    ghost Value = { List Leaf };

    ghost view = { λ o. take (o.end - o.from) (drop o.from o.spends.now.new) };

    ghost invariant = { λ o. (o.from ≤ o.end) × (o.end ≤ length o.spends.now.new) × (o.end < 2 ^ 64) };
}

impl<'s, 'a> Leaves for NewOutputs<'s, 'a> {
    ghost leaves = { λ outputs. outputs };

    fn count(&self) -> usize {
        (self.end - self.from) as usize
    }

    fn leaf(&self, index: usize) -> RecordView<'_> {
        self.spends.new_output(self.from + index as u64)
    }
}
