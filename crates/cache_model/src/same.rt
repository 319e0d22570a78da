//! Whether two places are one.
ghost use Rattle.std.specs.Prelude.{◌≡◌};
ghost use Rattle.cache_model.specs.Undo.{is_same_place};

use forest_place::Place;

/// Whether these are one place.
pub fn is_same(a: Place, b: Place) -> bool
    ensures { result ≡ is_same_place a b }
{
    b.row == a.row && b.off == a.off
}
