//! The script of a relay: which bridge, follower, ask and reply comes next.
//!
//! A script is a list of lines, each ended by the byte `0a`, of the forms `bridge`, `ask F`, `serve J` and `deliver F J`: words parted
//! by one space, and numbers in decimal without leading zeros, F below 2^32 and J below 2^64. [`read_script`] checks a whole text, and the
//! [`Script`] that it gives reads its lines one by one, without memory.
#![tactic(auto)]

mod count;
mod cut;
mod line;
mod script;

pub use line::ScriptLine;
pub use script::{Script, ScriptFault, read_script};
