//! Bitcoin blocks, read from a text without copying a byte of it, judged by their hashes and their weight, and written again.
//!
//! A block is a header of 80 bytes, a CompactSize count of transactions, at least one, and the transactions. `read_block`
//! reads a whole text, to which nothing may be added. What it answers, a [`BlockView`], holds a view of each transaction and
//! its id; `merkle` gives the root of the tree over the ids, `weight` the block's weight, and `write_block` writes a block.
//! `read_bare` reads the same and hashes nothing, for who asks first which block it comes behind.
#![tactic(auto)]

mod bare_block;
mod block_view;
mod fault;
mod header;
mod ids;
mod merkle_tree;
mod reading;
mod witness;
mod writing;

pub use bare_block::BareBlock;
pub use block_view::{BlockView, block_hash, weight};
pub use fault::BlockFault;
pub use header::HeaderView;
pub use merkle_tree::{MerkleOutcome, merkle, merkle_root_of};
pub use reading::{read_bare, read_block};
pub use witness::{commitment, witness_root};
pub use writing::{one_block, write_block};
