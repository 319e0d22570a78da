//! Block files in order of arrival, and the one path to a block.
//!
//! A full node stores blocks as they come. [`Arrivals`] takes them one after the other, the first of each hash, and finds the path from a block
//! that begins a chain to a given one, in a time that grows with the arrivals and their logarithm, whatever their hashes are.
#![tactic(auto)]

mod arrival;
mod arrivals;
mod fault;
mod laws;

pub use arrivals::Arrivals;
pub use fault::PathFault;
pub use laws::{one_path, path_is_told};
