//! The message beside a block: what it spends, where that stands, and the hashes that prove it.
ghost use Rattle.std.specs.Prelude.{◌≡◌, ◌++◌, ◌∷◌, [], true, Some, None, map, option_map, IfOk, OnOk, All};
ghost use Rattle.std.specs.List.{AllByRecursion, flat_map};
ghost use Rattle.std.specs.List.Sorted.{IsNonDecreasing, IsPermutation};
ghost use Rattle.uo_digest.specs.Reading.{IsDigest};
ghost use Rattle.forest_place.specs.Forest.{InForest};
ghost use Rattle.forest_model.specs.EntryPlace.{entry_place};
ghost use Rattle.cache_model.specs.Known.{is_known as is_known_of};
ghost use Rattle.live_forest.specs.State.{is_live};
ghost use Rattle.proof_wire.specs.BlockProof.{message_text};
ghost use Rattle.bridge_prover.specs.Bridge.{target_of};
ghost use Rattle.bridge_prover.specs.Draft.{IsDraft, drafted, hashes_unknown};

use cache_update::is_known;
use forest_place::{Place, fixed_position};
use live_forest::{BatchProof, Forest, LentSibling};
use proof_shape::Survey;
use proof_wire::{Message, Rests};
use std::alloc::{AllocError, Global};
use uo_base::NoMemory;
use uo_digest::{Digest, Digester};

// The fixed position of the place at which a live entry stands.
pub(crate) fn target<D: Digester>(forest: &Forest<D>, number: u64) -> u64
    requires { is_live forest.now.entries number ≡ true }
    ensures { result ≡ target_of forest.now.entries number }
{
    let _leaves = forest.leaves();
    fixed_position(forest.place(number))
}

// The place at which a live entry stands. `spent` has entries in ascending order, and `places` has where each of them stands, so there it is looked
// up first.
fn place_of<D: Digester>(forest: &Forest<D>, spent: &[u64], places: &[Place], number: u64) -> Place
    requires live { is_live forest.now.entries number ≡ true }
    requires told { map Some places.now ≡ map (entry_place forest.now.entries) spent.now }
    requires rise { IsNonDecreasing spent.now }
    ensures { entry_place forest.now.entries number ≡ Some result }
{
    match spent.binary_search(&number) {
        Ok(at) => places[at],
        Err(_) => forest.place(number),
    }
}

// The fixed positions of the places at which these live entries stand. `spent` are the same entries, ascending, and `places` where they stand.
fn targets_of<D: Digester>(
    alloc: Global,
    forest: &Forest<D>,
    numbers: &[u64],
    spent: &[u64],
    places: &[Place],
) -> Result<Vec<u64>, AllocError>
    requires live { All (λ i. is_live forest.now.entries i ≡ true) numbers.now }
    requires told { map Some places.now ≡ map (entry_place forest.now.entries) spent.now }
    requires rise { IsNonDecreasing spent.now }
    ensures { IfOk result (λ targets. targets.items ≡ map (target_of forest.now.entries) numbers.now) }
{
    let _leaves = forest.leaves();
    let mut targets = Vec::with_capacity(alloc, numbers.len())?;
    for number in numbers {
        let place = place_of::<D>(forest, spent, places, *number);
        targets.push(fixed_position(place))?;
    }
    Ok(targets)
}

// Whether a place is known where the kept entries stand at these places. Where none is kept nothing is, and nothing is looked up.
fn is_left_out(kept: &Survey, place: Place) -> bool
    requires { InForest kept.now.leaves place.row place.off }
    ensures { result ≡ is_known_of kept.now.leaves kept.now.targets place }
{
    if kept.places().is_empty() {
        return false;
    }
    is_known(kept, place)
}

// Adds a digest.
fn put_hash(hashes: &mut Vec<Digest>, digest: Digest) -> Result<(), AllocError>
    ensures given { OnOk result (hashes.new.items ≡ hashes.old.items ++ digest ∷ []) }
    ensures digests { AllByRecursion IsDigest hashes.old.items → AllByRecursion IsDigest hashes.new.items }
{
    hashes.push(digest)?;
    Ok(())
}

// Adds the digests of siblings, but for those that are known where the kept entries stand at these places.
fn put_hashes(
    hashes: &mut Vec<Digest>,
    kept: &Survey,
    siblings: &[LentSibling<'_>],
) -> Result<(), AllocError>
    requires { AllByRecursion (λ s. InForest kept.now.leaves s.place.row s.place.off) siblings.now }
    ensures given { OnOk result (hashes.new.items ≡ hashes.old.items ++ hashes_unknown kept.now.leaves kept.now.targets siblings.now) }
    ensures digests { AllByRecursion IsDigest hashes.old.items → AllByRecursion IsDigest hashes.new.items }
{
    for sibling in siblings {
        if !is_left_out(kept, sibling.place()) {
            put_hash(hashes, sibling.digest())?;
        }
    }
    Ok(())
}

// The same of all siblings that prove entries.
fn hashes_of(
    alloc: Global,
    kept: &Survey,
    proof: &BatchProof<'_>,
) -> Result<Vec<Digest>, AllocError>
    requires { AllByRecursion (λ s. InForest kept.now.leaves s.place.row s.place.off) (flat_map (λ row. row) proof.now.rows.items) }
    ensures given { IfOk result (λ hashes. hashes.items
        ≡ hashes_unknown kept.now.leaves kept.now.targets (flat_map (λ row. row) proof.now.rows.items)) }
    ensures digests { IfOk result (λ hashes. AllByRecursion IsDigest hashes.items) }
{
    let mut hashes = Vec::with_capacity(alloc, proof.count())?;
    for row in &proof.rows {
        put_hashes(&mut hashes, kept, row.as_slice())?;
    }
    Ok(hashes)
}

/// What a message tells besides what the forest does: whether it is lean, where the kept entries stand, and the rests of what is spent.
#[derive(Drop)]
pub(crate) struct Draft {
    pub(crate) lean: bool,
    pub(crate) kept: Survey,
    pub(crate) rests: Rests,
}

// Shows these live entries and what proves them, but for the hashes that are known where the kept entries stand. `spent` are the same entries,
// ascending.
fn message_of<D: Digester>(
    alloc: Global,
    forest: &Forest<D>,
    draft: Draft,
    numbers: &[u64],
    spent: &[u64],
) -> Result<Message, NoMemory>
    requires draft { IsDraft forest.now.entries numbers.now (Some draft) }
    requires live { All (λ i. is_live forest.now.entries i ≡ true) numbers.now }
    requires same { IsPermutation numbers.now spent.now }
    requires rise { IsNonDecreasing spent.now }
    ensures { IfOk result (λ m. m ≡ drafted D.digest_of forest.now.entries numbers.now spent.now draft) }
{
    let Draft { lean, kept, rests } = draft;
    let proof = forest.proof_of(alloc, spent)?;
    let targets = targets_of::<D>(alloc, forest, numbers, spent, &proof.places)?;
    let hashes = hashes_of(alloc, &kept, &proof)?;
    Ok(Message::of(lean, targets, rests, hashes))
}

/// The bytes of that message, if one is drafted.
pub(crate) fn written<D: Digester>(
    alloc: Global,
    forest: &Forest<D>,
    draft: Option<Draft>,
    numbers: &[u64],
    spent: &[u64],
) -> Result<Option<Vec<u8>>, NoMemory>
    requires draft { IsDraft forest.now.entries numbers.now draft }
    requires live { All (λ i. is_live forest.now.entries i ≡ true) numbers.now }
    requires same { IsPermutation numbers.now spent.now }
    requires rise { IsNonDecreasing spent.now }
    ensures { IfOk result (λ m. option_map (λ bytes. bytes.items) m
        ≡ option_map (λ d. message_text (drafted D.digest_of forest.now.entries numbers.now spent.now d)) draft) }
{
    let Some(draft) = draft else {
        return Ok(None);
    };
    let message = message_of::<D>(alloc, forest, draft, numbers, spent)?;
    let mut bytes = Vec::new(alloc);
    message.write(&mut bytes)?;
    Ok(Some(bytes))
}
