//! What is known of an entry that is to be forgotten, before any is taken out.

/// The mark of the entry, and whether it was seen that no other one of that mark is held.
#[derive(Clone, Copy, Default)]
pub(crate) struct EntryToForget {
    pub mark: u64,
    pub alone: bool,
}
