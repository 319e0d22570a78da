//! The roots of a forest, and additions to it. Only packing them takes memory.
#![tactic(auto)]

mod inner;
mod joins;
mod laws;
mod packed;
mod roots;
mod rows;

pub use inner::pair;
pub use joins::{Join, Joins};
pub use laws::{additions_take_few_steps, entries_have_one_stump};
pub use packed::PackedRoots;
pub use roots::Roots;
