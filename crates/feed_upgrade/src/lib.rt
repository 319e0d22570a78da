//! Feeds whose messages are upgraded to version 2.
//!
//! [`Upgrader`] follows a feed and makes the frames of the same events, with each message upgraded by the count of entries before its event.
//! The laws say that what is written is followed as the feed is.
#![tactic(auto)]

mod laws;
mod upgrader;

pub use laws::{upgraded_is_followed_alike, upgraded_is_taken_alike};
pub use upgrader::Upgrader;
