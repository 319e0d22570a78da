//! What is said of the text of a ticket.
use block_rules::ProofRefusal;
use clash_find::Clash;
use uo_digest::Digest;

/// What is said of the text of a ticket.
#[derive(Debug, Drop)]
pub enum Checked {
    /// It is the text of no ticket.
    Form,
    /// It begins as that of a ticket of this other version.
    Version(u8),
    /// It speaks up to another block.
    Tip,
    /// The roots do not accept its proof.
    Refused(ProofRefusal),
    /// This output is live.
    Live {
        txid: Digest,
        index: u32,
        amount: u64,
    },
    /// The roots accept its proof, and it is not right: two different texts with one digest.
    Clash(Clash),
}
