//! The ground that every crate of the node stands on: ports that count their faults, a cursor over a text, counts in
//! Bitcoin's compact form, and the events of a feed.
#![tactic(auto)]

mod cursor;
mod event;
mod fields;
mod memory;
mod plan;
mod ports;
mod put;
mod quiet;
mod system;
mod transfer;
mod window;

pub use cursor::Cursor;
pub use event::{Event, Limits, Net};
pub use memory::{MemSink, MemSource};
pub use ports::{Failed, InputFault, NoMemory, Sink, SinkFault, Source};
pub use put::{one_compact, put_compact, put_sized};
pub use quiet::{QuietSink, QuietSource};
pub use system::{FileSink, FileSource, StdSink, StdSource};
pub use transfer::{fill, put_all, read_all};
