//! The proof of one kept entry.
ghost use Rattle.std.specs.Prelude.{◌≡◌, ◌-◌, option_map, IfOk};
ghost use Rattle.cache_model.specs.Climbed.{beside_way as beside_way_of, kept_place, proof_in as proof_in_of};
ghost use Rattle.cache_model.specs.Lists.{AscendByNumber, AscendByPlace, leaf_key};
ghost use Rattle.cache_model.specs.Undo.{find, is_same_number};

use crate::search::{digest_in, index_of_number};
use cache_model::Kept;
use forest_place::{Place, parent, sibling};
use std::alloc::Global;
use uo_base::NoMemory;
use uo_digest::Digest;

/// The kept entry with this number.
pub fn entry_in<'a>(kept: &'a [Kept], number: u64) -> Option<&'a Kept>
    requires { AscendByNumber kept.now }
    ensures { option_map (λ e. e.now) result ≡ find is_same_number leaf_key number kept.now }
{
    let i = index_of_number(kept, number);
    if i == kept.len() {
        return None;
    }
    if kept[i].number == number {
        Some(&kept[i])
    } else {
        None
    }
}

/// Where the entry with this number stands, if it is kept.
pub fn place_of(kept: &[Kept], number: u64) -> Option<Place>
    requires { AscendByNumber kept.now }
    ensures { result ≡ kept_place kept.now number }
{
    match entry_in(kept, number) {
        None => None,
        Some(entry) => Some(entry.place),
    }
}

// The digests that are held beside a place and beside those above it, up to the first that is not held.
fn beside_way(alloc: Global, held: &[(Place, Digest)], from: Place) -> Result<Vec<Digest>, NoMemory>
    requires { AscendByPlace held.now }
    ensures { IfOk result (λ v. v.items ≡ beside_way_of (40 - from.row) held.now from.row from.off) }
{
    let mut proof = Vec::new(alloc);
    let mut place = from;
    while place.row < 40 {
        let Some(digest) = digest_in(held, sibling(place)) else {
            return Ok(proof);
        };
        proof.push(digest)?;
        place = parent(place);
    }
    Ok(proof)
}

// The digests on the way up of the entry with this number, if it is kept.
pub(crate) fn proof_in(
    alloc: Global,
    kept: &[Kept],
    held: &[(Place, Digest)],
    number: u64,
) -> Result<Option<Vec<Digest>>, NoMemory>
    requires numbers { AscendByNumber kept.now }
    requires places { AscendByPlace held.now }
    ensures { IfOk result (λ proof. option_map (λ v. v.items) proof ≡ proof_in_of kept.now held.now number) }
{
    match place_of(kept, number) {
        None => Ok(None),
        Some(place) => Ok(Some(beside_way(alloc, held, place)?)),
    }
}
