//! What proves entries: the digests that stand beside the ways down to them, all of them from one walk down. It goes through each part once,
//! and where it reads the halves of one does not hang on what another has.
ghost use Rattle.std.specs.Prelude.{◌≡◌, ◌≢◌, ℕ, List, suc, ◌++◌, ◌∷◌, ◌/◌, ◌^◌, ◌<◌, ◌≤◌, [], true, length, filter, map, take, drop, not, nat_le};
ghost use Rattle.std.specs.Prelude.{Some, All, IfOk, OnOk, OnErr, ◌-◌, ◌↔◌, IsTrue};
ghost use Rattle.std.specs.List.{filter_map, flat_map};
ghost use Rattle.std.specs.List.Sorted.{IsNonDecreasing};
ghost use Rattle.forest_place.specs.Forest.{InForest};
ghost use Rattle.forest_place.specs.declared.place.Place.{Place};
ghost use Rattle.forest_model.specs.Content.{content};
ghost use Rattle.forest_model.specs.Deletion.{StandAt};
ghost use Rattle.forest_model.specs.Standing.{tree_at};
ghost use Rattle.forest_model.specs.EntryPlace.{entry_place};
ghost use Rattle.live_forest.specs.Lookups.{AreAlike, AreHeld};
ghost use Rattle.live_forest.specs.Parts.{entries_in, kept, AreParts};
ghost use Rattle.live_forest.specs.Proving.{places_of, standing, proof_of, in_row, list_of, HasRows, IsByRow, HasPlaces, AreIn, AreBehind, AreMore};
ghost use Rattle.live_forest.specs.Proving.{AreOfPart, AreFrom, behind, IsFork, IsOn};
ghost use Rattle.live_forest.specs.State.{is_live};

use crate::batch::{BatchProof, Row};
use crate::seen::{beside_in, root_in};
use crate::store::Store;
use forest_place::{Place, child, children, sibling, side};
use std::alloc::{AllocError, Global};
use uo_digest::{Digest, Digester};

// In how many rows the forest over n entries has a place.
fn row_count(n: u64) -> u8
    requires { n < 2 ^ 40 }
    ensures is { (row : ℕ) → (row < result) ↔ InForest n row 0 }
    ensures few { result ≤ 40 }
{
    if n == 0 { 0 } else { n.ilog2() as u8 + 1 }
}

// No digest in any row that the forest over n entries has, and room for as many in each as so many entries need at most: of two siblings one is
// needed at most.
fn no_rows<'a>(alloc: Global, n: u64, entries: usize) -> Result<Vec<Row<'a>>, AllocError>
    requires { n < 2 ^ 40 }
    ensures wide { IfOk result (λ rows. HasRows n rows.items) }
    ensures none { IfOk result (λ rows. (row : ℕ) → list_of rows.items row ≡ []) }
{
    let count = row_count(n);
    let mut rows = Vec::with_capacity(alloc, count as usize)?;
    for row in 0..count {
        let pairs = (n >> row) / 2;
        rows.push(Row::with_room(alloc, entries.min(pairs as usize))?)?;
    }
    Ok(rows)
}

// How many of the numbers, which rise, lie in parts of a row up to this one.
fn count_upto(numbers: &[u64], row: u8, off: u64) -> usize
    requires row { row < 40 }
    requires rise { IsNonDecreasing numbers.now }
    ensures upto { take result numbers.now ≡ filter (λ i. nat_le (i / 2 ^ row) off) numbers.now }
    ensures beyond { drop result numbers.now ≡ filter (λ i. not (nat_le (i / 2 ^ row) off)) numbers.now }
    ensures within { result ≤ length numbers.now }
{
    let mut count = 0;
    while count < numbers.len() && numbers[count] >> row <= off {
        count += 1;
    }
    count
}

// Puts a sibling to those of its row.
fn put<'a>(rows: &mut Vec<Row<'a>>, place: Place, digest: &'a Digest) -> Result<(), AllocError>
    requires { place.row < length rows.old.items }
    ensures here { OnOk result (list_of rows.new.items place.row
        ≡ list_of rows.old.items place.row ++ (record { place = place; digest = digest.now }) ∷ []) }
    ensures others { (row : ℕ) → row ≢ place.row → list_of rows.new.items row ≡ list_of rows.old.items row }
    ensures len { length rows.new.items ≡ length rows.old.items }
{
    rows[place.row as usize].push(place, digest)
}

/// The lowest part that has all of some entries, and the place at which its tree stands.
#[derive(Clone, Copy)]
pub(crate) struct Fork {
    part: Place,
    place: Place,
}

// Whether entries of a part of a row are all in one half of it, of which these are the first and the last one.
fn share_half(row: u8, first: u64, last: u64) -> bool
    requires { row ≤ 40 }
    ensures { IsTrue result ↔ ((0 < row) × (first / 2 ^ (row - 1) ≡ last / 2 ^ (row - 1))) }
{
    row > 0 && first >> (row - 1) == last >> (row - 1)
}

// Goes down from a part, whose tree stands at this place, to the lowest part that has all of these entries, and notes what is beside the way. It is a
// loop, in which no read waits for another. The half that has the entries has something, so only the other one is looked at.
fn descend_to_fork<'a, D: Digester>(
    store: &'a Store,
    n: u64,
    part: Place,
    place: Place,
    numbers: &[u64],
    rows: &mut Vec<Row<'a>>,
) -> Result<Fork, AllocError>
    requires small { length (entries_in n store.now) < 2 ^ 40 }
    requires room { n ≤ store.now.len }
    requires held { AreHeld (entries_in n store.now) store.now }
    requires right { AreParts D.digest_of (length (entries_in n store.now)) (entries_in n store.now) store.now }
    requires within { InForest (length (entries_in n store.now)) part.row part.off }
    requires stands { tree_at (entries_in n store.now) place.row place.off ≡ content (entries_in n store.now) part.row part.off }
    requires there { InForest (length (entries_in n store.now)) place.row place.off }
    requires some { 0 < length numbers.now }
    requires rise { IsNonDecreasing numbers.now }
    requires inside { AreIn (entries_in n store.now) part.row part.off numbers.now }
    requires wide { HasRows (length (entries_in n store.now)) rows.old.items }
    ensures wide { HasRows (length (entries_in n store.now)) rows.new.items }
    ensures is { IfOk result (λ fork. IsFork (entries_in n store.now) part numbers.now fork) }
    ensures noted { IfOk result (λ fork. (ts : List Place) (all : List ℕ) → StandAt (entries_in n store.now) ts all
        → AreOfPart (entries_in n store.now) ts all part place numbers.now
        → IsOn D.digest_of (entries_in n store.now) ts all place fork.part fork.place numbers.now rows.old.items rows.new.items) }
{
    let first = numbers[0];
    let last = numbers[numbers.len() - 1];
    let mut at = part;
    let mut above = place;
    'way: while share_half(at.row, first, last) {
        let half = Place {
            row: at.row - 1,
            off: first >> (at.row - 1),
        };
        match beside_in(store, n, half.row, first) {
            None => at = half,
            Some(digest) => {
                let below = child(above, side(half));
                put(rows, sibling(below), digest)?;
                at = half;
                above = below;
            }
        }
    }
    Ok(Fork {
        part: at,
        place: above,
    })
}

// Adds the place once for each of these numbers.
fn push_each(places: &mut Vec<Place>, place: Place, numbers: &[u64]) -> Result<(), AllocError>
    ensures { OnOk result (map Some places.new.items ≡ map Some places.old.items ++ map (λ _. Some place) numbers.now) }
{
    for _ in numbers {
        places.push(place)?;
    }
    Ok(())
}

// Goes down from a part, which has these entries and whose tree stands at this place, to the entries, and notes what is beside the ways.
fn descend<'a, D: Digester>(
    store: &'a Store,
    n: u64,
    part: Place,
    place: Place,
    numbers: &[u64],
    rows: &mut Vec<Row<'a>>,
    places: &mut Vec<Place>,
) -> Result<(), AllocError>
    requires small { length (entries_in n store.now) < 2 ^ 40 }
    requires room { n ≤ store.now.len }
    requires held { AreHeld (entries_in n store.now) store.now }
    requires right { AreParts D.digest_of (length (entries_in n store.now)) (entries_in n store.now) store.now }
    requires within { InForest (length (entries_in n store.now)) part.row part.off }
    requires stands { tree_at (entries_in n store.now) place.row place.off ≡ content (entries_in n store.now) part.row part.off }
    requires there { InForest (length (entries_in n store.now)) place.row place.off }
    requires some { 0 < length numbers.now }
    requires rise { IsNonDecreasing numbers.now }
    requires inside { AreIn (entries_in n store.now) part.row part.off numbers.now }
    requires wide { HasRows (length (entries_in n store.now)) rows.old.items }
    ensures wide { HasRows (length (entries_in n store.now)) rows.new.items }
    ensures places { OnOk result (HasPlaces (entries_in n store.now) numbers.now places.old.items places.new.items) }

    // Whatever all entries are of which it has these.
    ensures noted { OnOk result ((ts : List Place) (all : List ℕ) → StandAt (entries_in n store.now) ts all
        → AreOfPart (entries_in n store.now) ts all part place numbers.now
        → AreMore D.digest_of (entries_in n store.now) ts place rows.old.items rows.new.items) }
{
    let fork = descend_to_fork::<D>(store, n, part, place, numbers, rows)?;
    if fork.part.row == 0 {
        return push_each(places, fork.place, numbers);
    }
    let (left, right) = children(fork.part);
    let (low, high) = numbers.split_at(count_upto(numbers, left.row, left.off));
    let (below_left, below_right) = children(fork.place);
    descend::<D>(store, n, left, below_left, low, rows, places)?;
    descend::<D>(store, n, right, below_right, high, rows, places)
}

// Goes down from the root of a row, if it has one and some of these numbers, and answers the numbers behind them.
fn descend_from<'a, 'b, D: Digester>(
    store: &'a Store,
    n: u64,
    row: u8,
    numbers: &'b [u64],
    rows: &mut Vec<Row<'a>>,
    places: &mut Vec<Place>,
) -> Result<&'b [u64], AllocError>
    requires small { length (entries_in n store.now) < 2 ^ 40 }
    requires room { n ≤ store.now.len }
    requires held { AreHeld (entries_in n store.now) store.now }
    requires right { AreParts D.digest_of (length (entries_in n store.now)) (entries_in n store.now) store.now }
    requires row { row < 40 }
    requires rise { IsNonDecreasing numbers.now }
    requires later { AreBehind (entries_in n store.now) (suc row) numbers.now }
    requires wide { HasRows (length (entries_in n store.now)) rows.old.items }
    ensures wide { HasRows (length (entries_in n store.now)) rows.new.items }
    ensures rise { IfOk result (λ numbers. IsNonDecreasing numbers.now) }
    ensures later { IfOk result (λ left. AreBehind (entries_in n store.now) row left.now) }
    ensures places { IfOk result (λ left. (here : List ℕ) × (here ++ left.now ≡ numbers.now)
        × HasPlaces (entries_in n store.now) here places.old.items places.new.items) }
    ensures behind { IfOk result (λ left. (all : List ℕ) → numbers.now ≡ behind (length (entries_in n store.now)) (suc row) all
        → left.now ≡ behind (length (entries_in n store.now)) row all) }
    ensures noted { OnOk result ((ts : List Place) (all : List ℕ) → StandAt (entries_in n store.now) ts all
        → numbers.now ≡ behind (length (entries_in n store.now)) (suc row) all → AreFrom D.digest_of (entries_in n store.now) ts (suc row)
        rows.old.items
        → AreFrom D.digest_of (entries_in n store.now) ts row rows.new.items) }
{
    let Some(root) = root_in(store, n, row) else {
        return Ok(numbers);
    };
    let (here, behind) = numbers.split_at(count_upto(numbers, row, root.off));
    if !here.is_empty() {
        descend::<D>(store, n, root, root, here, rows, places)?;
    }
    Ok(behind)
}

// What stands beside the ways down to these entries, by rows. Where they stand is put to the places.
fn rows_of<'a, D: Digester>(
    alloc: Global,
    store: &'a Store,
    n: u64,
    numbers: &[u64],
    places: &mut Vec<Place>,
) -> Result<Vec<Row<'a>>, AllocError>
    requires small { length (entries_in n store.now) < 2 ^ 40 }
    requires room { n ≤ store.now.len }
    requires held { AreHeld (entries_in n store.now) store.now }
    requires right { AreParts D.digest_of (length (entries_in n store.now)) (entries_in n store.now) store.now }
    requires live { All (λ i. is_live (entries_in n store.now) i ≡ true) numbers.now }
    requires rise { IsNonDecreasing numbers.now }
    ensures wide { IfOk result (λ rows. HasRows (length (entries_in n store.now)) rows.items) }
    ensures places { OnOk result (HasPlaces (entries_in n store.now) numbers.now places.old.items places.new.items) }
    ensures are { IfOk result (λ rows. (row : ℕ)
        → list_of rows.items row ≡ in_row D.digest_of (entries_in n store.now) (places_of (entries_in n store.now) numbers.now) row 0 (length
        (entries_in n store.now) / 2 ^ row)) }
{
    let mut rows = no_rows(alloc, n, numbers.len())?;
    let mut left = numbers;
    for row in 0..40u8 {
        left = descend_from::<D>(store, n, 39 - row, left, &mut rows, places)?;
    }
    Ok(rows)
}

// Where these entries stand, which rise, and what proves them.
pub(crate) fn proof_of_entries<'a, D: Digester>(
    alloc: Global,
    store: &'a Store,
    n: u64,
    numbers: &[u64],
) -> Result<BatchProof<'a>, AllocError>
    requires small { length (entries_in n store.now) < 2 ^ 40 }
    requires room { n ≤ store.now.len }
    requires held { AreHeld (entries_in n store.now) store.now }
    requires right { AreParts D.digest_of (length (entries_in n store.now)) (entries_in n store.now) store.now }
    requires live { All (λ i. is_live (entries_in n store.now) i ≡ true) numbers.now }
    requires rise { IsNonDecreasing numbers.now }
    ensures places { IfOk result (λ b. map Some b.places.items ≡ map (entry_place (entries_in n store.now)) numbers.now) }
    ensures siblings { IfOk result (λ b. flat_map (λ row. row) b.rows.items ≡ proof_of D.digest_of (entries_in n store.now) numbers.now) }
    ensures rows { IfOk result (λ b. IsByRow D.digest_of (entries_in n store.now) numbers.now b.rows.items) }
{
    let mut places = Vec::with_capacity(alloc, numbers.len())?;
    let rows = rows_of::<D>(alloc, store, n, numbers, &mut places)?;
    Ok(BatchProof { places, rows })
}
