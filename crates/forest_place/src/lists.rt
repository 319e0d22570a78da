//! Lists of places.
ghost use Rattle.std.specs.Prelude.{◌↔◌, ◌<◌, IsTrue, length};
ghost use Rattle.forest_place.specs.Places.{IsNear};

use crate::Place;

/// Whether a place stands right before or right after an index of a list.
pub fn is_near(places: &[Place], index: usize, place: Place) -> bool
    requires { index < length places.now }
    ensures { IsTrue result ↔ IsNear places.now index place }
{
    if index > 0 && places[index - 1] == place {
        return true;
    }
    index + 1 < places.len() && places[index + 1] == place
}
