//! The outputs that the forest holds: records of them, the text that each is hashed as, and its digest.
//!
//! A record has an output's name (the transaction's id and the index) and a rest: the hash and the height of the block that
//! made it, whether the block's coinbase did, the amount in satoshi and the script. A proof message shows rests, since the
//! block that spends the outputs names them. [`Record`] owns its script; [`RecordView`] and [`RestView`] have it in a source.
//!
//! A rest is spelled as the block's hash (32 bytes), a code (4: twice the height, and one more for a coinbase output), the
//! amount (8) and the script behind its CompactSize length. A leaf text is the SHA-512 of `UtreexoV1` twice, the block's
//! hash, the transaction's id, the index (4), and code, amount and script. All numbers are little endian. A leaf text has
//! at least 209 bytes, so it is never the text of an inner node of the forest, which has 64.
#![tactic(auto)]

mod batch;
mod laws;
mod leaf;
mod leaves;
mod record;
mod rest;

pub use batch::{leaf_digests, put_leaf_digests};
pub use laws::{leaf_text_is_long, one_leaf, one_rest};
pub use leaf::{LeafBuf, leaf_digest, leaf_text};
pub use leaves::Leaves;
pub use record::{MAX_SCRIPT, Record, RecordView, RestView};
pub use rest::{read_rest, write_rest};
