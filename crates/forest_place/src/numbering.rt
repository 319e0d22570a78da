//! Positions: the rows are numbered one after another, and each has room for a full forest of its height.
ghost use Rattle.std.specs.Prelude.{◌≡◌, ◌≢◌, ℕ, ◌+◌, ◌-◌, ◌/◌, ◌^◌, ◌<◌, ◌≤◌, MatchOption, bit_or};
ghost use Rattle.forest_place.specs.declared.place.Place.{Place as Placed};
ghost use Rattle.forest_place.specs.Forest.{InForest};
ghost use Rattle.forest_place.specs.Position.{rows as rows_of, row_start as start_of, position as position_of, IsLow};
ghost use Rattle.forest_place.specs.Position.{fixed_position as fixed_position_of};
ghost use Rattle.forest_place.specs.declared.naming.Naming.TheVariants.{Position, FixedPosition};
ghost use Rattle.forest_place.specs.Named.{place_by};

use crate::Place;

/// How many rows stand above row 0: the least R with `n` at most 2^R.
pub fn rows(n: u64) -> u8
    requires { n < 2 ^ 40 }
    ensures is { result ≡ rows_of n }
    ensures room { n ≤ 2 ^ result }
    ensures least { (j : ℕ) → j < result → 2 ^ j < n }
    ensures few { result ≤ 40 }
{
    if n <= 1 { 0 } else { (n - 1).ilog2() as u8 + 1 }
}

// The position at which a row begins, where `top` rows stand above row 0.
fn row_start(top: u8, row: u8) -> u64
    requires few { top ≤ 40 }
    requires row { row ≤ top }
    ensures { result ≡ start_of top row }
{
    (2 << top) - (2 << top >> row)
}

/// The position of a place of the forest over `n` entries.
pub fn position(place: Place, n: u64) -> u64
    requires small { n < 2 ^ 40 }
    requires within { InForest n place.row place.off }
    ensures is { result ≡ position_of n place.row place.off }
    ensures alone { (q : Placed) → InForest n q.row q.off → position_of n q.row q.off ≡ result → q ≡ place }
{
    row_start(rows(n), place.row) + place.off
}

// The place of the forest over `n` entries that has a position, where `top` rows stand above row 0.
fn place_among(position: u64, top: u8, n: u64) -> Option<Place>
    requires few { top ≤ 40 }
    requires room { n ≤ 2 ^ top }
    ensures { MatchOption result
        ((q : Placed) → InForest n q.row q.off → start_of top q.row + q.off ≢ position)
        (λ p. InForest n p.row p.off × (start_of top p.row + p.off ≡ position)) }
{
    let end = (2 << top) - 1;
    if position >= end {
        return None;
    }
    // The rows from a row up have one position less than twice as many as the row itself.
    let row = top - (end - position).ilog2() as u8;
    let off = position - row_start(top, row);
    if off < n >> row {
        Some(Place { row, off })
    } else {
        None
    }
}

/// The place that has a position. `None` where no place of the forest over `n` entries has it.
pub fn place_of(position: u64, n: u64) -> Option<Place>
    requires { n < 2 ^ 40 }
    ensures is { result ≡ place_by Position n position }
    ensures exact { MatchOption result
        ((q : Placed) → InForest n q.row q.off → position_of n q.row q.off ≢ position)
        (λ p. InForest n p.row p.off × (position_of n p.row p.off ≡ position)) }
{
    place_among(position, rows(n), n)
}

/// The fixed position of a place, which is the same in each forest that has the place: the rows are numbered as those of the forest over 2^40
/// entries.
pub fn fixed_position(place: Place) -> u64
    requires row { place.row < 41 }
    requires off { place.off < 2 ^ (40 - place.row) }
    ensures is { result ≡ fixed_position_of place.row place.off }
    ensures alone { (q : Placed) → IsLow q.row q.off → fixed_position_of q.row q.off ≡ result → q ≡ place }
{
    row_start(40, place.row) + place.off
}

/// The place that has a fixed position. `None` where no place of the forest over `n` entries has it.
pub fn place_of_fixed(position: u64, n: u64) -> Option<Place>
    requires { n < 2 ^ 40 }
    ensures is { result ≡ place_by FixedPosition n position }
    ensures exact { MatchOption result
        ((q : Placed) → InForest n q.row q.off → fixed_position_of q.row q.off ≢ position)
        (λ p. InForest n p.row p.off × (fixed_position_of p.row p.off ≡ position)) }
{
    place_among(position, 40, n)
}

/// The position of the place above, where `rows` rows stand above row 0 and `p` is not the highest position.
pub fn parent_position(p: u64, rows: u8) -> u64
    requires few { rows ≤ 40 }
    requires below { p < 2 ^ (rows + 1) - 2 }
    ensures is { result ≡ bit_or (p / 2) (2 ^ rows) }
    ensures parent { (row off : ℕ) → row < rows → off < 2 ^ (rows - row) → p ≡ start_of rows row + off →
        result ≡ start_of rows (row + 1) + off / 2 }
{
    (p >> 1) | (1 << rows)
}
