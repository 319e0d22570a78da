//! What an addition joined.
ghost use Rattle.std.specs.Prelude.{◌≡◌, ◌+◌, ◌<◌, ◌∷◌, [], ◌++◌, length};

use arrayvec::ArrayVec;
use std::marker::Model;
use uo_digest::Digest;

/// One slot that an addition joined.
#[derive(Clone, Copy, Debug, PartialEq, Eq)]
pub struct Join {
    /// The slot's row.
    pub row: u8,
    /// The root that stood there. None where it was empty, which takes no digest.
    pub left: Option<Digest>,
    /// The digest that was carried on to the next row.
    pub result: Digest,
}

impl Default for Join {
    fn default() -> Self {
        Join {
            row: 0,
            left: None,
            result: Digest([0; 32]),
        }
    }
}

/// The slots that one addition joined, from row 0 upwards.
#[derive(Drop)]
pub struct Joins {
    joins: ArrayVec<Join, 40>,
}

impl Model for Joins {
    ghost use Rattle.std.specs.Prelude.{List};
    ghost use Rattle.forest_roots.specs.declared.joins.Join.{Join as Joined};

    ghost Value = { List Joined };

    ghost view = { λ j. j.joins.items };
}

impl Joins {
    /// No slot.
    pub fn new() -> Joins
        ensures { result ≡ [] }
    {
        Joins {
            joins: ArrayVec::new(),
        }
    }

    // No slot any more.
    pub(crate) fn clear(&mut self)
        ensures { self.new ≡ [] }
    {
        self.joins.clear();
    }

    // One slot more.
    pub(crate) fn push(&mut self, join: Join)
        requires { length self.old < 40 }
        ensures { self.new ≡ self.old ++ join ∷ [] }
    {
        self.joins.push(join);
    }

    /// The joins, one for each slot.
    pub fn list(&self) -> &[Join]
        ensures { result.now ≡ self.now }
    {
        self.joins.as_slice()
    }
}
