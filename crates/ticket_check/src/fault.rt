//! Why a ticket was not read.
use thiserror::Error;

/// Why `read_ticket` read nothing.
#[derive(Clone, Copy, Debug, PartialEq, Eq, Error)]
pub enum TicketFault {
    /// It is not the text of a ticket, nor does it begin as that of another version.
    #[error("not a ticket")]
    NotATicket,
    /// It begins as a ticket's text, and its fifth byte, the version, is not 1.
    #[error("a ticket of version {0}")]
    Version(u8),
}
