//! Messages of version 1 made into messages of version 2.
//!
//! In version 2 a target is the fixed position of its place, which stays the same when rows grow. [`upgrade`] makes a message of
//! version 1 into one of version 2 that names the same places; the laws say that both are judged alike.
#![tactic(auto)]

mod laws;
mod message;

pub use laws::{upgraded_is_as_long, upgraded_is_judged_alike};
pub use message::upgrade;
