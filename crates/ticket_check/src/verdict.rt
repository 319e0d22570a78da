//! What is said of a ticket.
use block_rules::ProofRefusal;

/// What is said of a ticket by one who has the roots behind a block.
#[derive(Clone, Copy, Debug, PartialEq, Eq)]
pub enum TicketVerdict {
    /// It speaks up to another block.
    Tip,
    /// The roots do not accept its proof.
    Refused(ProofRefusal),
    /// They do.
    Live,
}
