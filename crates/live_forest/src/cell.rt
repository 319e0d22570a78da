//! The digests of two halves.
use uo_digest::Digest;

/// The digests of the two halves of the one part whose halves meet between a listed number and the one before it.
#[derive(Clone, Copy)]
pub(crate) struct Cell {
    pub left: Digest,
    pub right: Digest,
}
