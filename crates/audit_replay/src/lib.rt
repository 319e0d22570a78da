//! The auditor: a node that holds every output and judges each block by the proof beside it too. At the first forged proof it shows two
//! different texts with one digest.
//!
//! [`Audit::step`] takes the events of a feed one after the other. Its verdicts are those of a node that holds every output, until an
//! event is forged: its roots accept the proof, and it is not right. There it answers a [`Clash`], and it has ended. What it says of a
//! list of events is tied by a law to that node.
#![tactic(auto)]

mod audit;
mod clashing;
mod laws;
mod supply;

pub use audit::{Audit, AuditLine};
pub use laws::{audit_is_full_throughout, fresh_is_full, fresh_shows_forged, supply_is_of_level};
