//! What an entry tells that is read.

/// Its mark, and whether no older one of that mark is held.
#[derive(Clone, Copy, Default)]
pub(crate) struct ReadEntry {
    pub mark: u64,
    pub oldest: bool,
}
