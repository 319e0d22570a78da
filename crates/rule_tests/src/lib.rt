//! Tests of transactions, blocks, the rules that a block is judged by, and those that its message is judged by.
//!
//! They stand in a crate of their own, so that none of these crates is proved a second time for them.
#![tactic(auto)]

ghost use Rattle.std.specs.Prelude.{◌≡◌, replicate};

#[cfg(test)]
mod tests;

use block_rules::Chain;
use uo_digest::Digest;

/// A chain of so many blocks and outputs. The hash of its newest block is 32 times the byte 7.
pub fn chain_of(blocks: u32, leaves: u64) -> Chain
    ensures { result ≡ record { blocks = blocks; tip = record { 0 = replicate 32 7 }; leaves = leaves } }
{
    Chain {
        blocks,
        tip: Digest([7; 32]),
        leaves,
    }
}
