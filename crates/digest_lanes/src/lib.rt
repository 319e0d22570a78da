//! Digests of the SHA-2 family (FIPS 180-4) side by side: each text in a lane of vectors, SHA-512/256 four or two at a time and SHA-256 eight
//! at a time.
//!
//! Each is the digest that the library `sha2` gives of the text alone. No call here takes memory.
#![tactic(auto)]

mod block256;
mod block512;
mod doubles;
mod front;
mod group;
mod midstate;
mod padded256;
mod padded512;
mod pairs256;
mod pairs512;
mod texts256;
mod texts512;
mod words512;

pub use doubles::sha256d_each;
pub use front::Front;
pub use pairs256::double_pairs_of_eight;
pub use pairs512::{pair_alone, pairs_of_four, pairs_of_two};
