//! The whole forest over all entries that were ever added, each live or spent, which takes room for those alone that are live or may be again.
//!
//! The layers, from the bottom up:
//!
//! - `bits`: a set of numbers below 128, as the bits of a number.
//! - `page` and `spots`: what is kept for the parts of 128 entries. Those that are live or may be again are *listed*, and have a cell each, of 64
//!   bytes: the digests of both halves of the one part whose halves meet between it and the listed entry before it. So a part is found by
//!   counting bits. A page takes 64 bytes, and 64 for each cell that it has room for: at most ten more than it has listed entries, or 129 until the
//!   first of them is let go.
//! - `store`: all pages, and a list of the digests of the parts of several pages, of 33 bytes a page.
//! - `refresh`: an entry is written, and the parts above it are made right. `emptying` and `growth` write several, and then go row by row, where
//!   many parts are digested side by side (`waiting`).
//! - `seen`, `seek`, `walk`, `proving`, `batch`: what stands at a place, and what proves entries. They ask the store what it keeps for a part.
//! - `forest` and `blocks`: [`Forest`], which is seen as the list of all entries.
//!
//! Of the calls that change a forest `Forest::reserve` alone can want memory: it makes the cells of the entries to come. `Forest::forget` gives room
//! back where a smaller list can be had for a page.
#![tactic(auto)]

mod batch;
mod bits;
mod blocks;
mod cell;
mod emptying;
mod forest;
mod growth;
mod laws;
mod page;
mod proving;
mod refresh;
mod seek;
mod seen;
mod spots;
mod store;
mod waiting;
mod walk;

pub use batch::{BatchProof, LentSibling, Row, Sibling};
pub use forest::Forest;
pub use laws::{look_ups_tell_nodes, undoing_gives_back};
