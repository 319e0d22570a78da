//! What proves live entries.
//!
//! It is lent: what proves many entries lies all over the memory, so it is found first, by bits that lie near each other, and read where it is used,
//! in one loop, where no read waits for another.
ghost use Rattle.std.specs.Prelude.{◌≡◌, ◌++◌, ◌∷◌, [], ◌^◌, ◌<◌, length, IfOk, OnOk, OnErr};
ghost use Rattle.std.specs.List.{flat_map};

use forest_place::Place;
use smallvec::SmallVec;
use std::alloc::{AllocError, Global};
use std::marker::Model;
use uo_digest::Digest;

static NOTHING: Digest = Digest([0; 32]);

// So many siblings lie in a row itself, so that a block which spends little asks for no memory row by row.
const IN_ROW: usize = 2;

/// A place of the forest that is the sibling of another, and the digest that stands there.
#[derive(Clone, Copy, Debug, PartialEq, Eq)]
pub struct Sibling {
    /// The place.
    pub place: Place,
    /// The digest of the node that stands there.
    pub digest: Digest,
}

/// A sibling whose digest lies in the forest.
#[derive(Drop)]
pub struct LentSibling<'a> {
    place: Place,
    digest: &'a Digest,
}

impl<'a> Model for LentSibling<'a> {
    ghost use Rattle.live_forest.specs.declared.batch.Sibling.{Sibling};

    ghost Value = { Sibling };

    ghost view = { λ l. record { place = l.place; digest = l.digest.now } };
}

impl<'a> LentSibling<'a> {
    /// The place.
    pub fn place(&self) -> Place
        ensures { result ≡ self.now.place }
    {
        self.place
    }

    /// The digest of the node that stands there.
    pub fn digest(&self) -> Digest
        ensures { result ≡ self.now.digest }
    {
        *self.digest
    }
}

impl<'a> Default for LentSibling<'a> {
    fn default() -> Self {
        LentSibling {
            place: Place { row: 0, off: 0 },
            digest: &NOTHING,
        }
    }
}

/// Siblings that stand in one row, from left to right.
#[derive(Drop)]
pub struct Row<'a> {
    list: SmallVec<LentSibling<'a>, IN_ROW>,
}

impl<'a> Model for Row<'a> {
    ghost use Rattle.std.specs.Prelude.{List};
    ghost use Rattle.live_forest.specs.declared.batch.Sibling.{Sibling};

    ghost Value = { List Sibling };

    ghost view = { λ r. r.list.items };
}

impl<'a> Row<'a> {
    /// No sibling, and room for so many.
    pub(crate) fn with_room(alloc: Global, room: usize) -> Result<Self, AllocError>
        ensures { IfOk result (λ row. row ≡ []) }
    {
        let mut list = SmallVec::new(alloc);
        if room > IN_ROW {
            list.reserve(room)?;
        }
        Ok(Row { list })
    }

    /// One more.
    pub(crate) fn push(&mut self, place: Place, digest: &'a Digest) -> Result<(), AllocError>
        ensures ok { OnOk result (self.new ≡ self.old ++ (record { place = place; digest = digest.now }) ∷ []) }
        ensures err { OnErr result (self.new ≡ self.old) }
    {
        self.list.push(LentSibling { place, digest })?;
        Ok(())
    }

    /// The siblings.
    pub fn as_slice(&self) -> &[LentSibling<'a>]
        ensures { result.now ≡ self.now }
    {
        self.list.as_slice()
    }
}

/// Where live entries stand, and what proves them all.
#[derive(Drop)]
pub struct BatchProof<'a> {
    /// The places at which the entries stand, in their order.
    pub places: Vec<Place>,
    /// The siblings that these places need, by rows from the bottom up and in each row from left to right, so all of them ascend by position.
    pub rows: Vec<Row<'a>>,
}

impl<'a> BatchProof<'a> {
    /// How many siblings there are.
    pub fn count(&self) -> usize
        ensures { length (flat_map (λ row. row) self.now.rows.items) < 2 ^ 64 → result ≡ length (flat_map (λ row. row) self.now.rows.items) }
    {
        let mut count: usize = 0;
        for row in &self.rows {
            count = count.saturating_add(row.as_slice().len());
        }
        count
    }
}
