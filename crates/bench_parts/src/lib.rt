//! What `bench` measures of the crates beneath node and bridge, and what it measures those two with.
//!
//! Each `measure_` call, and `hash_input`, is one of its words. Blocks of a `Purse`, a `Stopwatch`, `pairs_alone`, `leaves_alone` and
//! `needs_of` serve the words that it has besides. They stand in a crate of their own, so that they are proved while node and bridge are.
#![tactic(auto)]

mod alone;
mod cache;
mod digests;
mod feeds;
mod finder;
mod forest;
mod hash;
mod names;
mod needs;
mod outputs;
mod probe;
mod rate;
mod rules;
mod spending;
mod stopwatch;
mod targets;

pub use alone::{leaves_alone, pairs_alone};
pub use cache::measure_cache;
pub use digests::measure_digests;
pub use feeds::measure_feeds;
pub use finder::measure_finder;
pub use forest::measure_forest;
pub use hash::hash_input;
pub use needs::needs_of;
pub use outputs::measure_outputs;
pub use spending::Purse;
pub use stopwatch::Stopwatch;
