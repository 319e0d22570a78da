//! Tests of the cache through its blocks.
//!
//! They stand in a crate of their own, so that what keeps a cache up to date is not proved a second time for them.
#![tactic(auto)]

ghost use Rattle.std.specs.Prelude.{◌≡◌};

#[cfg(test)]
mod tests;

use leaf_record::Record;
use std::alloc::Global;
use uo_digest::Digest;

/// An output with an empty script, whose amount is its number.
pub fn output(alloc: Global, number: u64) -> Record
    ensures { result.rest.amount ≡ number }
{
    Record {
        block: Digest([9; 32]),
        txid: Digest([7; 32]),
        index: 0,
        height: 0,
        coinbase: true,
        amount: number,
        script: Vec::new(alloc),
    }
}
