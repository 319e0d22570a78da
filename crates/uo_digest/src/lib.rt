//! Digests of texts, and a count of the digests that were made. No call here takes memory.
#![tactic(auto)]

mod beside;
mod digest;
mod digester;
mod digests;
mod doubles;
mod hexes;
mod pair;
mod sha;
mod steps;
mod stream;
mod xor_fold;

pub use digest::Digest;
pub use digester::Digester;
pub use digests::Digests;
pub use doubles::{sha256d_all, sha256d_pair, sha256d_pairs};
pub use hexes::{hex_plain, hex_reversed};
pub use pair::pair_text;
pub use sha::{Sha512t256, sha256d};
pub use steps::Steps;
pub use stream::Sha256dStream;
pub use xor_fold::XorFold;
