//! What a node says of an event.
use crate::refusal::Refusal;
use uo_digest::Digest;

/// What a node says of an event.
#[derive(Clone, Copy, PartialEq, Eq)]
pub enum Verdict {
    /// The block is the chain's newest now.
    Accepted {
        /// Its height.
        height: u32,
        /// Its hash.
        hash: Digest,
        /// The entries ever added, its own among them.
        leaves: u64,
    },
    /// The chain stays as it was.
    Refused {
        /// The height that the block would have had.
        height: u32,
        /// Its hash, where the bytes are a block.
        hash: Option<Digest>,
        /// The first rule that it breaks.
        why: Refusal,
    },
    /// The chain went back by so many blocks, to this one.
    RolledBack {
        /// How many blocks were taken back, from 0.
        count: u32,
        /// The height of the newest block that is left, where one is.
        height: Option<u32>,
        /// Its hash, or 32 zero bytes.
        hash: Digest,
        /// The entries ever added to the chain that is left.
        leaves: u64,
    },
    /// The chain can not go back so far, and stays as it was.
    TooDeep {
        /// How many blocks it was to go back.
        asked: u32,
        /// How many blocks it can go back.
        kept: u32,
    },
    /// A proof that no block follows, which changes nothing.
    Stray,
}
