//! Where the digests of parts lie in a page.
ghost use Rattle.std.specs.Prelude.{◌≡◌, ◌↔◌, suc, ◌+◌, ◌*◌, ◌/◌, ◌^◌, ◌<◌, ◌≤◌, true, MatchOption};
ghost use Rattle.forest_place.specs.Forest.{InForest};
ghost use Rattle.live_forest.specs.Sets.{is_bit};
ghost use Rattle.live_forest.specs.Pages.{middle as middle_of, spot, IsBranch, IsBeside, IsAlone};

use crate::bits::{has_some, rank};
use forest_place::{Place, parent, sibling, side};

/// The cell in which a digest lies, and whether it is that of the right half.
#[derive(Clone, Copy)]
pub(crate) struct Spot {
    pub cell: usize,
    pub right: bool,
}

/// Where the halves of a part of the row above meet: the first number of its right half.
pub(crate) fn middle(row: u8, off: u64) -> u64
    requires row { row < 7 }
    requires within { middle_of row off < 128 }
    ensures { result ≡ middle_of row off }
{
    (2 * off + 1) << row
}

/// Whether both halves of the part of the row above that has a listed number have such numbers.
pub(crate) fn is_branch(listed: u128, row: u8, number: u64) -> bool
    requires row { row < 7 }
    requires number { number < 128 }
    requires listed { is_bit listed number ≡ true }
    ensures { (result ≡ true) ↔ IsBranch (is_bit listed) row (number / 2 ^ suc row) }
{
    let half = Place {
        row,
        off: number >> row,
    };
    has_some(listed, row, sibling(half).off)
}

/// Where the digest of a part lies.
pub(crate) fn spot_of(listed: u128, row: u8, off: u64) -> Spot
    requires row { row ≤ 7 }
    requires within { InForest 128 row off }
    ensures { result ≡ spot (is_bit listed) row off }
{
    let mut part = Place { row, off };
    'rows: while part.row < 7 {
        let above = parent(part);
        if has_some(listed, part.row, sibling(part).off) {
            return Spot {
                cell: rank(listed, middle(part.row, above.off)),
                right: side(part) == 1,
            };
        }
        part = above;
    }
    Spot {
        cell: 0,
        right: true,
    }
}

/// The lowest part beside those with a number that has others of the set, if one has.
pub(crate) fn nearest(listed: u128, number: u64) -> Option<Place>
    requires { number < 128 }
    ensures { MatchOption result (IsAlone (is_bit listed) number) (λ part. IsBeside (is_bit listed) number part) }
{
    for row in 0..7u8 {
        let beside = sibling(Place {
            row,
            off: number >> row,
        });
        if has_some(listed, row, beside.off) {
            return Some(beside);
        }
    }
    None
}
