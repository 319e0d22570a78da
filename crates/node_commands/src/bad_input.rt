//! Why an input that is read whole can not be used.

use feed_run::Status;
use report_lines::Line;

/// An input that can not be used: the status of the run, and its one line.
#[derive(Clone, Copy)]
pub struct BadInput {
    pub status: Status,
    pub line: Line,
}
