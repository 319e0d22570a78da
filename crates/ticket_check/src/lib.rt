//! Tickets: one output proved to someone who has the roots of the forest alone.
//!
//! A ticket names a block, and gives an output that is live behind it, where its leaf stands in the forest then, and the hashes
//! that prove this one leaf, in ascending position. It is spelled as `UTXT`, the version `01`, the block's hash (32 bytes), the
//! fixed position of the leaf (8), the transaction's id (32), the index (4), the rest of the output, and a CompactSize count and
//! the hashes (32 bytes each). All numbers are little endian. Nothing follows.
//!
//! [`write_ticket`] writes that of an entry that a node keeps, and [`read_ticket`] reads one, without memory. [`judge`] says what
//! roots say of it. Over the whole forest, [`ticket_clash`] shows of an accepted ticket that is not right two different texts with
//! one digest. [`check_ticket`] and [`recheck_ticket`] say it of a text, by a node and by an auditor.
#![tactic(auto)]

mod checked;
mod checking;
mod clashing;
mod fault;
mod judging;
mod keeping;
mod laws;
mod reading;
mod target;
mod verdict;
mod view;
mod writing;

pub use checked::Checked;
pub use checking::{check_ticket, recheck_ticket};
pub use clashing::ticket_clash;
pub use fault::TicketFault;
pub use judging::judge;
pub use keeping::write_ticket;
pub use laws::{
    checked_is_accepted, kept_tickets_are_right, live_is_accepted, live_is_right,
    rechecked_is_right, right_is_live, right_is_tested,
};
pub use reading::read_ticket;
pub use verdict::TicketVerdict;
pub use view::TicketView;
pub use writing::{one_ticket, put_ticket};
