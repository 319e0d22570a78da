//! A place, and the places around it.
ghost use Rattle.std.specs.Prelude.{◌≡◌, ◌↔◌, ◌+◌, ◌-◌, ◌*◌, ◌/◌, ◌%◌, ◌^◌, ◌<◌, IsTrue, MatchOption};
ghost use Rattle.forest_place.specs.Places.{IsBefore, is_before_place, is_within as is_place_of, up, child as child_of};
ghost use Rattle.forest_place.specs.Forest.{InForest, IsSlotOf, is_slot as is_slot_of, is_root as is_root_at, root_off, sibling_off};

/// A row of the forest, counted from the leaves up, and an offset in it. Places are ordered as their positions are.
#[derive(Clone, Copy, Debug, PartialEq, Eq, PartialOrd, Ord, Hash)]
pub struct Place {
    /// The row above the leaves, which are row 0.
    pub row: u8,
    /// How many places of its row stand before it.
    pub off: u64,
}

/// Whether one place comes before another: in a lower row, or in its row at a lower offset.
pub fn is_before(place: Place, other: Place) -> bool
    ensures means { IsTrue result ↔ IsBefore place other }
    ensures is { result ≡ is_before_place place other }
{
    place.row < other.row || (place.row == other.row && place.off < other.off)
}

/// Whether the forest over `n` entries has the place.
pub fn is_within(n: u64, place: Place) -> bool
    requires { n < 2 ^ 40 }
    ensures means { IsTrue result ↔ InForest n place.row place.off }
    ensures is { result ≡ is_place_of n place }
{
    place.row < 40 && place.off < n >> place.row
}

/// The row of the slot that has the place. `None` where the forest over `n` entries lacks it.
pub fn slot_of(place: Place, n: u64) -> Option<u8>
    requires { n < 2 ^ 40 }
    ensures { MatchOption result (InForest n place.row place.off → ⊥) (λ h. IsSlotOf n place.row place.off h) }
{
    if place.row >= 40 || place.off >= n >> place.row {
        return None;
    }
    // Above the slot's row the first entry of the part has the bits of n.
    let first = place.off << place.row;
    Some((n ^ first).ilog2() as u8)
}

/// Whether the forest over `n` entries has a slot in a row.
pub fn is_slot(n: u64, row: u8) -> bool
    requires { row < 64 }
    ensures { result ≡ is_slot_of n row }
{
    (n >> row) % 2 == 1
}

/// The root of a slot. Its tree covers the 2^row entries before the last `n % 2^row`.
pub fn root_place(row: u8, n: u64) -> Place
    requires small { n < 2 ^ 40 }
    requires slot { IsTrue (is_slot_of n row) }
    ensures row { result.row ≡ row }
    ensures off { result.off ≡ root_off n row }
    ensures covers { result.off * 2 ^ row + 2 ^ row + n % 2 ^ row ≡ n }
{
    Place {
        row,
        off: (n >> row) - 1,
    }
}

/// Whether a place of the forest over `n` entries is a slot's root.
pub fn is_root(n: u64, place: Place) -> bool
    requires small { n < 2 ^ 40 }
    requires within { InForest n place.row place.off }
    ensures { result ≡ is_root_at n place.row place.off }
{
    place.off % 2 == 0 && place.off + 1 == n >> place.row
}

/// The place above.
pub fn parent(place: Place) -> Place
    requires { place.row < 40 }
    ensures is { result ≡ up place }
    ensures row { result.row ≡ place.row + 1 }
    ensures off { result.off ≡ place.off / 2 }
{
    Place {
        row: place.row + 1,
        off: place.off / 2,
    }
}

/// The other child of the place above.
pub fn sibling(place: Place) -> Place
    ensures row { result.row ≡ place.row }
    ensures off { result.off ≡ sibling_off place.off }
{
    Place {
        row: place.row,
        off: place.off ^ 1,
    }
}

/// On which side of the place above a place stands: 0 is left, 1 is right.
pub fn side(place: Place) -> u64
    ensures is { result ≡ place.off % 2 }
    ensures side { result < 2 }
{
    place.off % 2
}

/// The place beneath on a side: 0 is the left one, 1 the right one.
pub fn child(place: Place, side: u64) -> Place
    requires row { 0 < place.row }
    requires off { place.off < 2 ^ 40 }
    requires side { side < 2 }
    ensures { result ≡ child_of side place }
{
    Place {
        row: place.row - 1,
        off: 2 * place.off + side,
    }
}

/// The left and the right place beneath.
pub fn children(place: Place) -> (Place, Place)
    requires row { 0 < place.row }
    requires off { place.off < 2 ^ 40 }
    ensures rows { (result.0.row + 1 ≡ place.row) × (result.1.row + 1 ≡ place.row) }
    ensures left { result.0.off ≡ 2 * place.off }
    ensures right { result.1.off ≡ 2 * place.off + 1 }
{
    let left = child(place, 0);
    let right = child(place, 1);
    (left, right)
}
