//! How numbers name places, which the version of a text tells.
ghost use Rattle.std.specs.Prelude.{◌≡◌, ◌≢◌, ◌^◌, ◌<◌, MatchOption};
ghost use Rattle.forest_place.specs.Forest.{InForest};
ghost use Rattle.forest_place.specs.declared.naming.Naming.{Naming as Named};
ghost use Rattle.forest_place.specs.declared.place.Place.{Place as Placed};
ghost use Rattle.forest_place.specs.Named.{version_of, naming_of, number_by, place_by};

use crate::{Place, fixed_position, place_of, place_of_fixed, position};

/// How a number names a place of a forest.
#[derive(Clone, Copy, Debug, PartialEq, Eq)]
pub enum Naming {
    /// By the position of the place, which is another one where the forest has more rows.
    Position,
    /// By its fixed position.
    FixedPosition,
}

impl Naming {
    /// How the texts of a version name places. `None` where the version is not read.
    pub fn of_version(version: u8) -> Option<Naming>
        ensures is { result ≡ naming_of version }
        ensures exact { MatchOption result ((by : Named) → version ≢ version_of by) (λ by. version ≡ version_of by) }
    {
        match version {
            1 => Some(Naming::Position),
            2 => Some(Naming::FixedPosition),
            _ => None,
        }
    }

    /// The version of the texts that name places so.
    pub fn version(self) -> u8
        ensures { result ≡ version_of self }
    {
        match self {
            Naming::Position => 1,
            Naming::FixedPosition => 2,
        }
    }

    /// The number that names a place of the forest over `n` entries.
    pub fn number(self, place: Place, n: u64) -> u64
        requires small { n < 2 ^ 40 }
        requires within { InForest n place.row place.off }
        ensures { result ≡ number_by self n place }
    {
        match self {
            Naming::Position => position(place, n),
            Naming::FixedPosition => fixed_position(place),
        }
    }

    /// The place of the forest over `n` entries that a number names. `None` where it names none.
    pub fn place(self, number: u64, n: u64) -> Option<Place>
        requires { n < 2 ^ 40 }
        ensures is { result ≡ place_by self n number }
        ensures exact { MatchOption result
            ((q : Placed) → InForest n q.row q.off → number_by self n q ≢ number)
            (λ p. InForest n p.row p.off × (number_by self n p ≡ number)) }
    {
        match self {
            Naming::Position => place_of(number, n),
            Naming::FixedPosition => place_of_fixed(number, n),
        }
    }
}
