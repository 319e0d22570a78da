//! A block's header.
use uo_digest::Digest;

/// The first 80 bytes of a block, field by field.
#[derive(Clone, Copy, Debug)]
pub struct HeaderView {
    /// The version, whose bits are taken as a number without sign.
    pub version: u32,
    /// The hash of the block before it, 32 zero bytes in the first block of a chain.
    pub prev: Digest,
    /// The root of the merkle tree over the ids of its transactions, as the header claims it.
    pub merkle: Digest,
    /// Seconds since the start of 1970.
    pub time: u32,
    /// The target of the proof of work, in its compact form; it is not judged here.
    pub bits: u32,
    pub nonce: u32,
}
