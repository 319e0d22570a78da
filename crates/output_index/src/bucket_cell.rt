//! What a bucket has of a mark.

/// A mark, and the number of its newest held entry.
#[derive(Clone, Copy, Default)]
pub(crate) struct BucketCell {
    pub mark: u64,
    pub number: u64,
}
