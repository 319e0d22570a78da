//! What came for a block.

use block_codec::BlockView;
use uo_digest::Digest;

/// What bytes are beside the tip of a chain.
#[derive(Drop)]
pub enum Arrival<'a> {
    /// No block.
    NoBlock,
    /// A block that comes behind another one than the tip; this is its hash. None of its transactions was hashed.
    Unlinked(Digest),
    /// A block that comes behind the tip, with the ids of its transactions.
    Linked(BlockView<'a>),
}
