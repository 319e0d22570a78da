//! A kept entry as it stands in a text.

use forest_place::Place;
use leaf_record::Record;

/// An entry whose script is watched.
#[derive(Debug, Drop)]
pub(crate) struct StoredEntry {
    /// How many entries were added before it.
    pub(crate) number: u64,
    /// Where its leaf stands in the forest.
    pub(crate) place: Place,
    /// The output.
    pub(crate) leaf: Record,
}
