//! A run of the command that puts a feed's blocks in order.
//!
//! An [`Orderer`] takes the events of a feed, keeps the bytes of each block, the first of each hash, and writes at the end of the feed those on the
//! path to a tip.
#![tactic(auto)]

mod bodies;
mod orderer;
mod path_frames;

pub use orderer::Orderer;
