//! Blocks for tests: the first block of mainnet, and blocks that are made behind any other.
//!
//! `legacy_tx` and `coinbase` make transactions, `witnessed` gives one a witness, and `block_behind` makes the block of a list of them: its header
//! names the block before it and the merkle root of its transactions, has the version 1, and zeros for time, target and nonce, so no work was done
//! for it. What is made is said by the clauses, so tests over it are proved as they are over bytes of their own.
#![tactic(auto)]

mod block;
mod fault;
mod txs;

pub use block::{Sample, block_behind};
pub use fault::SampleFault;
pub use genesis_block::{GENESIS, GENESIS_HASH};
pub use txs::{coinbase, legacy_tx, witnessed};
