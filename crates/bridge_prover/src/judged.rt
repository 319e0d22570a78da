//! What a bridge says of an event with the message beside it.

use block_rules::Verdict;

/// What a bridge says of an event with the message beside it.
#[derive(Drop)]
pub enum Judged {
    /// The verdict of a node that holds every output.
    Verdict(Verdict),
    /// The event is forged: no rule before the proof fails, the roots accept the proof, and it is not right.
    Forged,
}
