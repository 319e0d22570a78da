//! The state text: what a node stores of itself, so that a later run goes on from there.
//!
//! A state has the network, the count of blocks, the watched scripts, and levels, the present one first. A level has its newest
//! block, the roots of its entries, those entries that are kept because their script is watched, and the digests that a proof
//! of these needs. [`read_state`] reads a whole text and refuses every one that is not a state's; [`StoredState::write`] writes
//! the one text of a state, and [`write_front`] and [`write_level`] write it level by level.
//!
//! A text names places in one of two ways ([`Naming`]): in version 1 by positions, in version 2 by fixed positions. Both are read, and
//! version 2 is written.
//!
//! [`Naming`]: forest_place::Naming
#![tactic(auto)]

mod entry;
mod fault;
mod judging;
mod laws;
mod level;
mod read;
mod reading;
mod scripts;
mod spelled;
mod state;
mod targets;
mod telling;
mod version;
mod writing;

pub use fault::StateFault;
pub use laws::{
    held_is_known, history_has_state, one_filling, one_state, reached_is_history,
    standing_is_stored, stored_is_standing,
};
pub use level::StoredLevel;
pub use read::read_state;
pub use state::StoredState;
pub use version::split_version;
pub use writing::{write_front, write_level};
