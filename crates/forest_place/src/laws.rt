//! Laws on places and positions, which hold over any number of entries. There is no code here.
ghost use Rattle.forest_place.specs.Laws.{PlacesAreBeneathRoots, PlacesHaveOneSlot, PlacesAreListed, PlacesAscend, PositionsAscend, PlacesAreLow};
ghost use Rattle.forest_place.specs.Laws.{FixedPositionsAscend, FixedPositionsKeepOrder};

/// The forest has the roots of its slots and the places beneath them, each beneath one root, and no other place.
pub fn places_are_beneath_roots()
    ensures beneath { PlacesAreBeneathRoots }
    ensures one_slot { PlacesHaveOneSlot }
{}

/// The list of all places, by row and in a row by offset.
pub fn places_are_listed()
    ensures listed { PlacesAreListed }
    ensures ascending { PlacesAscend }
{}

/// Positions rise with the rows, and in a row with the offsets.
pub fn positions_ascend()
    ensures { PositionsAscend }
{}

/// Each place has a fixed position. These rise with the rows, and in a row with the offsets, as positions do in each forest.
pub fn fixed_positions_ascend()
    ensures low { PlacesAreLow }
    ensures ascending { FixedPositionsAscend }
    ensures order { FixedPositionsKeepOrder }
{}
