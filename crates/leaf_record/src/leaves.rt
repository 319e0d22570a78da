//! Leaves that lie in a source of any kind.
ghost use Rattle.std.specs.Prelude.{◌≡◌, ◌<◌, List, length, slice_get, Some};
ghost use Rattle.leaf_record.specs.Leaf.{Leaf};

use crate::record::{Record, RecordView};

/// Leaves that are asked for by their index.
pub trait Leaves {
    /// The leaves in their order.
    ghost leaves: { Self → List Leaf };

    /// How many there are.
    fn count(&self) -> usize
        ensures { result ≡ length (leaves self.now) };

    /// The leaf at an index, from 0.
    fn leaf(&self, index: usize) -> RecordView<'_>
        requires { index < length (leaves self.now) }
        ensures { slice_get (leaves self.now) index ≡ Some result };
}

impl<'s> Leaves for &'s [Record] {
    ghost leaves = { λ records. records.now };

    fn count(&self) -> usize {
        self.len()
    }

    fn leaf(&self, index: usize) -> RecordView<'_> {
        self[index].view()
    }
}
