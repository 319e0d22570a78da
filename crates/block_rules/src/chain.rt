//! The chain that a block is to extend, and what its inputs name.
use uo_digest::Digest;

/// A chain of blocks, as far as its rules need it.
#[derive(Clone, Copy, Debug, PartialEq, Eq)]
pub struct Chain {
    /// How many blocks there are, at most 2^31; also the height of the next one.
    pub blocks: u32,
    /// The hash of the newest, or 32 zero bytes where there is none.
    pub tip: Digest,
    /// The entries ever added.
    pub leaves: u64,
}

/// An input that spends an output of another block.
#[derive(Clone, Copy, Debug, PartialEq, Eq)]
pub struct Outside {
    /// The place of its transaction in the block, from 0 for the coinbase.
    pub tx: u32,
    /// Its own place there, from 0.
    pub input: u32,
    /// The id of the transaction that made the output.
    pub txid: Digest,
    /// The output's place in that transaction.
    pub index: u32,
}

/// What the rules on money ask of an output that is spent.
#[derive(Clone, Copy, Debug, PartialEq, Eq)]
pub struct Found {
    /// In satoshi.
    pub amount: u64,
    /// The height of the block that made it.
    pub height: u32,
    /// Whether the block's coinbase made it.
    pub coinbase: bool,
}
