//! The lines that the program prints, and how they are written.
//!
//! A [`Line`] is a line without the byte that ends it. [`push_line`] and [`line_of`] append it to a text, [`put_line`] and [`say`] write
//! it to a sink. [`push_clash`] and [`push_ticket_clash`] append the lines of two texts with one digest.
#![tactic(auto)]

mod accepted;
mod clash;
mod hash_text;
mod line;
mod report;
mod verdict;
mod words;

pub use clash::{push_clash, push_ticket_clash};
pub use hash_text::{HashText, PlainText};
pub use line::{CheckFault, Line, ReplyKind};
pub use report::{line_of, push_line, put_line, say};
pub use verdict::VerdictText;
