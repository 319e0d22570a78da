//! The outputs that are watched, and what is known of the forest to one who watches them.
ghost use Rattle.std.specs.Prelude.{◌≡◌, ℕ, ◌+◌, ◌<◌, ◌≤◌, ◌^◌, ◌++◌, ◌∷◌, [], true, nat_lt, Some, is_some, map, length, filter_map, option_map};
ghost use Rattle.std.specs.Prelude.{vec_len, vec_capacity, IfOk, OnOk};
ghost use Rattle.std.specs.List.{filter};
ghost use Rattle.forest_place.specs.declared.naming.Naming.TheVariants.{FixedPosition};
ghost use Rattle.forest_place.specs.Named.{place_by};
ghost use Rattle.forest_place.specs.Places.{places};
ghost use Rattle.forest_model.specs.Cover.{HasShape};
ghost use Rattle.proof_shape.specs.Shape.{HasTargetsBy};
ghost use Rattle.cache_model.specs.Known.{is_watched, is_known};
ghost use Rattle.cache_model.specs.Cache.{held};
ghost use Rattle.live_forest.specs.State as forest_state;
ghost use Rattle.output_index.specs.Held.{is_live, leaf_at};
ghost use Rattle.bridge_prover.specs.Bridge.{target_of};
ghost use Rattle.bridge_prover.specs.Judged.{merged};
ghost use Rattle.bridge_prover.specs.Own.{numbered};
ghost use Rattle.bridge_prover.specs.Watched.{scripts_of, noted_in, places_in};

use crate::message::target;
use block_rules::Spends;
use forest_place::{Naming, Place, is_before};
use leaf_cache::Watch;
use leaf_record::RecordView;
use live_forest::Forest;
use output_index::Outputs;
use proof_shape::Survey;
use std::alloc::{AllocError, Global};
use uo_base::NoMemory;
use uo_digest::{Digest, Digester};

// Whether the output has a script of the list. Without a list none has.
fn is_noted(watch: &Option<Watch>, leaf: &RecordView<'_>) -> bool
    ensures { result ≡ is_watched (scripts_of watch.now) (Some leaf.now) }
{
    match watch {
        Some(watch) => watch.has(leaf.script),
        None => false,
    }
}

// Notes the number of a new output, if it is watched.
fn note(
    numbers: &mut Vec<u64>,
    watch: &Option<Watch>,
    number: u64,
    leaf: &RecordView<'_>,
) -> Result<(), AllocError>
    ensures { OnOk result (numbers.new.items ≡ numbers.old.items
        ++ noted_in (scripts_of watch.now) (record { number = number; leaf = leaf.now; live = true } ∷ [])) }
{
    if is_noted(watch, leaf) {
        numbers.push(number)?;
    }
    Ok(())
}

// The numbers of the watched ones among a block's new records, which are numbered from n on.
pub(crate) fn noted_of(
    alloc: Global,
    watch: &Option<Watch>,
    n: u64,
    spends: &Spends<'_>,
) -> Result<Vec<u64>, AllocError>
    requires { n + length spends.now.new < 2 ^ 40 }
    ensures { IfOk result (λ numbers. numbers.items ≡ noted_in (scripts_of watch.now) (numbered n spends.now.new)) }
{
    let mut numbers = Vec::new(alloc);
    if watch.is_none() {
        return Ok(numbers);
    }
    for i in 0..spends.new_count() {
        note(&mut numbers, watch, n + i, &spends.new_output(i))?;
    }
    Ok(numbers)
}

// Puts numbers behind others, where there is room for them.
pub(crate) fn append(noted: &mut Vec<u64>, more: &[u64])
    requires { vec_len noted.old + length more.now ≤ vec_capacity noted.old }
    ensures { noted.new.items ≡ noted.old.items ++ more.now }
{
    let Ok(()) = noted.extend_from_slice(more) else {
        unreachable!();
    };
}

// Those below n alone.
pub(crate) fn cut_noted(noted: &mut Vec<u64>, n: u64)
    ensures { noted.new.items ≡ filter (λ i. nat_lt i n) noted.old.items }
{
    noted.retain(|number| *number < n);
}

// Those of held outputs alone.
pub(crate) fn keep_held(noted: &mut Vec<u64>, outputs: &Outputs)
    ensures { noted.new.items ≡ filter (λ i. is_some (leaf_at i outputs.now)) noted.old.items }
{
    noted.retain(|number| outputs.output(*number).is_some());
}

// The fixed position of an entry's place, if it is live.
fn put_position<D: Digester>(
    positions: &mut Vec<u64>,
    forest: &Forest<D>,
    outputs: &Outputs,
    number: u64,
) -> Result<(), AllocError>
    requires { is_live number outputs.now ≡ true → forest_state.is_live forest.now.entries number ≡ true }
    ensures { OnOk result (positions.new.items ≡ positions.old.items
        ++ map (target_of forest.now.entries) (filter (λ i. is_live i outputs.now) (number ∷ []))) }
{
    if outputs.live(number) {
        positions.push(target(forest, number))?;
    }
    Ok(())
}

// The targets at these fixed positions.
fn targets_at(alloc: Global, n: u64, positions: &[u64]) -> Result<Survey, NoMemory>
    requires few { n < 2 ^ 40 }
    requires there { HasTargetsBy FixedPosition n positions.now }
    ensures { IfOk result (λ t. (t.leaves ≡ n) × (map (place_by FixedPosition n) positions.now ≡ map Some t.targets)) }
{
    let found = Survey::named(alloc, Naming::FixedPosition, n, positions)?;
    match found {
        Some(targets) => Ok(targets),
        None => unreachable!(),
    }
}

// The places of the live ones among these entries, as targets.
pub(crate) fn kept_targets<D: Digester>(
    alloc: Global,
    forest: &Forest<D>,
    outputs: &Outputs,
    noted: &[u64],
) -> Result<Survey, NoMemory>
    requires live { (i : ℕ) → is_live i outputs.now ≡ true → forest_state.is_live forest.now.entries i ≡ true }
    requires shape { HasShape (length forest.now.entries) (places_in forest.now.entries (filter (λ i. is_live i outputs.now) noted.now)) }
    ensures leaves { IfOk result (λ t. t.leaves ≡ length forest.now.entries) }
    ensures targets { IfOk result (λ t. t.targets ≡ places_in forest.now.entries (filter (λ i. is_live i outputs.now) noted.now)) }
{
    let mut positions = Vec::with_capacity(alloc, noted.len())?;
    for number in noted {
        put_position::<D>(&mut positions, forest, outputs, *number)?;
    }
    targets_at(alloc, forest.leaves(), &positions)
}

// Two ascending lists as one.
fn merge(alloc: Global, left: &[Place], right: &[Place]) -> Result<Vec<Place>, AllocError>
    ensures { IfOk result (λ out. out.items ≡ merged left.now right.now) }
{
    let mut out = Vec::with_capacity(alloc, left.len())?;
    let mut i = 0;
    let mut j = 0;
    while i < left.len() && j < right.len() {
        if is_before(left[i], right[j]) {
            out.push(left[i])?;
            i += 1;
        } else {
            out.push(right[j])?;
            j += 1;
        }
    }
    out.extend_from_slice(&left[i..])?;
    out.extend_from_slice(&right[j..])?;
    Ok(out)
}

// The places that are known where the kept entries stand at these places: the covered and the needed ones.
fn known_places(alloc: Global, kept: &Survey) -> Result<Vec<Place>, AllocError>
    ensures { IfOk result (λ known. known.items ≡ filter (is_known kept.now.leaves kept.now.targets) (places kept.now.leaves)) }
{
    let (covered, _) = kept.covered();
    merge(alloc, covered, kept.needed())
}

// A place with the digest that was found there, if one was.
fn put_known(
    known: &mut Vec<(Place, Digest)>,
    place: Place,
    found: Option<Digest>,
) -> Result<(), AllocError>
    ensures { OnOk result (known.new.items ≡ known.old.items ++ filter_map (λ p. option_map (λ d. (p, d)) found) (place ∷ [])) }
{
    match found {
        Some(digest) => known.push((place, digest))?,
        None => {}
    }
    Ok(())
}

// The known places with the digests that stand there, ascending by row and then by offset.
pub(crate) fn hashes_of<D: Digester>(
    alloc: Global,
    forest: &Forest<D>,
    kept: &Survey,
) -> Result<Vec<(Place, Digest)>, NoMemory>
    requires { kept.now.leaves ≡ length forest.now.entries }
    ensures { IfOk result (λ known. known.items ≡ held D.digest_of forest.now.entries kept.now.targets) }
{
    let places = known_places(alloc, kept)?;
    let mut known = Vec::with_capacity(alloc, places.len())?;
    let (covered, _) = kept.covered();
    let found = forest.digests_at(alloc, covered, &places)?;
    for i in 0..places.len() {
        put_known(&mut known, places[i], found[i])?;
    }
    Ok(known)
}
