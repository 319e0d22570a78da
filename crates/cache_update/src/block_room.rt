//! The room that a block takes in a cache: where what is kept and held goes, and lists that are long enough for it.
ghost use Rattle.std.specs.Prelude.{◌≡◌, ◌+◌, ◌<◌, ◌^◌, ◌++◌, length, All, IfOk, IfErr, IfSome, OnOk, vec_len};
ghost use Rattle.std.specs.Option.{option_to_list};
ghost use Rattle.std.specs.Bool.{OnTrue, OnFalse};
ghost use Rattle.forest_place.specs.Forest.{InForest};
ghost use Rattle.forest_place.specs.Position.{positions_of};
ghost use Rattle.cache_model.specs.Lists.{AscendByPlace, moved_leaves, leaf_places};
ghost use Rattle.leaf_cache.specs.Parted.{IsParted};
ghost use Rattle.cache_update.specs.DeletionGoals.{TellGoals};
ghost use Rattle.cache_update.specs.Begun.{IsRoom, new_position};
ghost use Rattle.cache_update.specs.Refused.{IsKeptFault};
ghost use Rattle.cache_update.specs.Marks.{AreOfForest, HoldKnown, growth};

use crate::deletion_goals::{goal_at, tell_goals};
use crate::fault::BeginFault;
use crate::mark::{BlockRoom, HeldScratch};
use forest_place::{Place, is_within, position};
use leaf_cache::{Kept, Parts};
use proof_shape::{Survey, Targets};
use std::alloc::Global;
use uo_base::NoMemory;
use uo_digest::Digest;

// Whether the entries are of a forest over `n` entries.
fn are_kept_in(n: u64, kept: &[Kept]) -> bool
    requires { n < 2 ^ 40 }
    ensures numbers { OnTrue result (All (λ k. k.number < n) kept.now) }
    ensures places { OnTrue result (All (λ k. InForest n k.place.row k.place.off) kept.now) }
    ensures other { OnFalse result (All (λ k. k.number < n) kept.now → All (λ k. InForest n k.place.row k.place.off) kept.now → ⊥) }
{
    for i in 0..kept.len() {
        if kept[i].number >= n || !is_within(n, kept[i].place) {
            return false;
        }
    }
    true
}

// Whether the digests are held at places of the forest over `n` entries.
fn are_held_in(n: u64, held: &[(Place, Digest)]) -> bool
    requires { n < 2 ^ 40 }
    ensures there { OnTrue result (All (λ x. InForest n x.0.row x.0.off) held.now) }
    ensures other { OnFalse result (All (λ x. InForest n x.0.row x.0.off) held.now → ⊥) }
{
    for i in 0..held.len() {
        if !is_within(n, held[i].0) {
            return false;
        }
    }
    true
}

// Whether the lists are those of a forest over `n` entries.
pub(crate) fn is_of_forest(n: u64, parts: &Parts) -> bool
    requires { n < 2 ^ 40 }
    ensures forest { OnTrue result (AreOfForest n parts.now) }
    ensures other { OnFalse result (AreOfForest n parts.now → ⊥) }
    ensures ordered { IsParted parts.now }
{
    are_kept_in(n, &parts.kept) && are_held_in(n, &parts.held)
}

// Where each held digest goes, the last one first.
fn goals_of(
    alloc: Global,
    targets: &Targets,
    held: &[(Place, Digest)],
) -> Result<Vec<Option<Place>>, NoMemory>
    requires within { All (λ x. InForest targets.now.leaves x.0.row x.0.off) held.now }
    requires ascends { AscendByPlace held.now }
    ensures goals { IfOk result (λ v. TellGoals targets.now.leaves targets.now.targets held.now v.items) }
    ensures each { IfOk result (λ v. vec_len v ≡ length held.now) }
{
    let mut goals = Vec::with_capacity(alloc, held.len())?;
    tell_goals(&mut goals, targets, held);
    Ok(goals)
}

// Notes the position to which what stands at a place goes, if it stays.
fn note_position(
    positions: &mut Vec<u64>,
    targets: &Targets,
    held: &[(Place, Digest)],
    goals: &[Option<Place>],
    place: Place,
) -> Result<(), NoMemory>
    requires within { InForest targets.now.leaves place.row place.off }
    requires ascends { AscendByPlace held.now }
    requires told { TellGoals targets.now.leaves targets.now.targets held.now goals.now }
    ensures { OnOk result (positions.new.items ≡ positions.old.items ++ option_to_list (new_position targets.now.leaves targets.now.targets place)) }
{
    let Some(to) = goal_at(targets, held, goals, place) else {
        return Ok(());
    };
    Ok(positions.push(position(to, targets.leaves()))?)
}

// The positions at which the kept entries stand once the targets are gone.
fn new_positions(
    alloc: Global,
    targets: &Targets,
    kept: &[Kept],
    held: &[(Place, Digest)],
    goals: &[Option<Place>],
) -> Result<Vec<u64>, NoMemory>
    requires within { All (λ k. InForest targets.now.leaves k.place.row k.place.off) kept.now }
    requires ascends { AscendByPlace held.now }
    requires told { TellGoals targets.now.leaves targets.now.targets held.now goals.now }
    ensures { IfOk result (λ v. v.items ≡ positions_of targets.now.leaves
        (leaf_places (moved_leaves targets.now.leaves targets.now.targets kept.now))) }
{
    let mut positions = Vec::with_capacity(alloc, kept.len())?;
    for i in 0..kept.len() {
        note_position(&mut positions, targets, held, goals, kept[i].place)?;
    }
    Ok(positions)
}

// Where the kept entries stand once the targets are gone. Where places have shape, the new ones have.
fn new_places(
    alloc: Global,
    targets: &Targets,
    kept: &[Kept],
    held: &[(Place, Digest)],
    goals: &[Option<Place>],
) -> Result<Survey, BeginFault>
    requires within { All (λ k. InForest targets.now.leaves k.place.row k.place.off) kept.now }
    requires ascends { AscendByPlace held.now }
    requires told { TellGoals targets.now.leaves targets.now.targets held.now goals.now }
    ensures ok { IfOk result (λ t. t ≡ record {
      leaves = targets.now.leaves;
      targets =
          leaf_places (moved_leaves targets.now.leaves targets.now.targets kept.now);
    }) }
    ensures err { IfErr result (λ fault. IsKeptFault targets.now.leaves kept.now fault) }
{
    let positions = new_positions(alloc, targets, kept, held, goals)?;
    match Survey::of(alloc, targets.leaves(), &positions)? {
        Some(places) => Ok(places),
        None => Err(BeginFault::Elsewhere),
    }
}

// More than a cache that holds this many digests has to hold at any time in the block, where the kept entries stand at these
// places once the targets are gone.
fn most_of(kept: &Survey, held: usize, n: u64, adds: u64) -> Option<usize>
    ensures held { IfSome result (λ most. held + growth n adds < most) }
    ensures known { IfSome result (λ most. (m : _) × HoldKnown kept.now.leaves kept.now.targets m × (m + growth n adds < most)) }
{
    let (covered, _) = kept.covered();
    let known = covered.len().checked_add(kept.needed().len())?;
    let added = (adds as usize)
        .checked_mul(3)?
        .checked_add(2 * n.count_ones() as usize + 1)?;
    let most = held.max(known).checked_add(added)?;
    Some(most)
}

// Room for a block of this many additions, where this is told of its deletion.
fn room_with(
    alloc: Global,
    parts: &Parts,
    targets: &Targets,
    adds: u64,
    kept: Survey,
    goals: Vec<Option<Place>>,
) -> Result<Box<BlockRoom>, NoMemory>
    requires kept { kept ≡ record {
      leaves = targets.now.leaves;
      targets =
          leaf_places (moved_leaves targets.now.leaves targets.now.targets parts.now.kept);
    } }
    requires goals { TellGoals targets.now.leaves targets.now.targets parts.now.held goals.items }
    requires each { vec_len goals ≡ length parts.now.held }
    ensures { IfOk result (λ r. IsRoom targets.now parts.now adds r.value) }
{
    let Some(most) = most_of(&kept, parts.held.len(), targets.leaves(), adds) else {
        return Err(NoMemory);
    };
    let room = BlockRoom {
        most,
        kept,
        before: Vec::from_slice(alloc, &parts.held)?,
        scratch: HeldScratch {
            spare: Vec::with_capacity(alloc, most)?,
            moves: Vec::with_capacity(alloc, most)?,
            goals,
        },
        lost: Vec::with_capacity(alloc, parts.held.len())?,
        gained: Vec::with_capacity(alloc, most)?,
        moved: Vec::with_capacity(alloc, parts.kept.len())?,
    };
    Ok(Box::new(alloc, room)?)
}

// Room for a block of these targets and this many additions.
pub(crate) fn room_for(
    alloc: Global,
    parts: &Parts,
    targets: &Targets,
    adds: u64,
) -> Result<Box<BlockRoom>, BeginFault>
    requires kept { All (λ k. InForest targets.now.leaves k.place.row k.place.off) parts.now.kept }
    requires held { All (λ x. InForest targets.now.leaves x.0.row x.0.off) parts.now.held }
    requires ascends { AscendByPlace parts.now.held }
    ensures ok { IfOk result (λ r. IsRoom targets.now parts.now adds r.value) }
    ensures err { IfErr result (λ fault. IsKeptFault targets.now.leaves parts.now.kept fault) }
{
    let goals = goals_of(alloc, targets, &parts.held)?;
    let kept = new_places(alloc, targets, &parts.kept, &parts.held, &goals)?;
    Ok(room_with(alloc, parts, targets, adds, kept, goals)?)
}
