//! The bridge: a node that holds every output, judges blocks by that alone, and writes the proof message of each block that
//! it accepts.
//!
//! [`Bridge::step`] takes the events of a feed one after the other; a message beside a block is not looked at. Its verdict is that of
//! the rules over its own outputs, where each external input spends the newest live output of its outpoint. Beside an accepted block
//! it answers the message that a compact node needs, and contracts tie both to the proving node of node_rules, for lists of events
//! too. The message is in full, or lean where the bridge has a watch list: then it leaves out the hashes that a node with this list
//! knows ([`Bridge::known_hashes`]).
//!
//! The bridge keeps what undoes its last hundred blocks, so that it goes back by up to a hundred. A step that is refused, or for which
//! there is no memory, leaves it as it was.
#![tactic(auto)]

mod accept;
mod bridge;
mod entries;
mod find;
mod held;
mod judged;
mod laws;
mod message;
mod shown;
mod watched;

pub use bridge::{Bridge, Proved};
pub use judged::Judged;
pub use laws::{
    bridge_is_own, bridge_proves_throughout, fresh_proves_throughout, fresh_stands, known_is_own,
    next_is_bridge, verdicts_tell_levels,
};
