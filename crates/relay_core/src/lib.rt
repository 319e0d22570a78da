//! One bridge and many followers that relay, as one pure machine: one act is one message handled by one node, and the network may
//! lose, repeat and reorder.
#![tactic(auto)]

mod act;
mod follower;
mod handling;
mod laws;
mod line;
mod store;
mod world;

pub use act::{Act, Kind, Outcome};
pub use laws::{
    acts_are_followed, followers_are_on_branches, no_reply_is_lost, one_serial_one_chain,
    outcomes_tell_changes, replies_are_never_refused, serials_are_of_levels,
};
pub use world::World;
