//! Where a deletion moves what is held, told from the top row down: where neither a place nor its sibling goes, it goes with the
//! one above it.
ghost use Rattle.std.specs.Prelude.{◌≡◌, ℕ, List, ◌+◌, ◌<◌, ◌≤◌, ◌^◌, false, [], Some, length, All, IfSome, vec_len, vec_capacity};
ghost use Rattle.std.specs.Bool.{OnTrue};
ghost use Rattle.forest_place.specs.declared.place.Place.{Place as Placed};
ghost use Rattle.forest_place.specs.Forest.{InForest};
ghost use Rattle.forest_place.specs.Places.{is_before_place, up};
ghost use Rattle.forest_model.specs.Deletion.{moved, child_place};
ghost use Rattle.proof_shape.specs.Targeted.{NoneGonePast};
ghost use Rattle.cache_model.specs.Lists.{AscendByPlace};
ghost use Rattle.cache_model.specs.Search.{IsSplit};
ghost use Rattle.cache_model.specs.Undo.{held_key};
ghost use Rattle.cache_update.specs.DeletionGoals.{GoesWith, NoneBefore, TellGoals};

use crate::staying::{Near, staying_beside};
use cache_model::is_same;
use forest_place::{Place, is_before, parent, position, side};
use leaf_cache::index_of_place;
use proof_shape::{Targets, child_of};
use uo_digest::Digest;

// The place above.
fn above(n: u64, place: Place) -> Place
    requires small { n < 2 ^ 40 }
    requires within { InForest n place.row place.off }
    ensures { result ≡ up place }
{
    parent(place)
}

// How many held places come before this one, where none from an index on does.
fn index_back(held: &[(Place, Digest)], from: usize, place: Place) -> usize
    requires ascends { AscendByPlace held.now }
    requires none { NoneBefore held.now from place }
    ensures { IsSplit is_before_place held_key place held.now result }
{
    let mut at = from;
    while at > 0 {
        if is_before(held[at - 1].0, place) {
            return at;
        }
        at -= 1;
    }
    0
}

// Where what is held at a place goes, if that is told, where it stands, or would stand, at the index.
fn told(
    held: &[(Place, Digest)],
    goals: &[Option<Place>],
    at: usize,
    place: Place,
) -> Option<Option<Place>>
    ensures { (n : ℕ) (ts : List Placed) → TellGoals n ts held.now goals.now → IfSome result (λ goal. goal ≡ moved n ts place.row place.off) }
{
    if at >= held.len() || !is_same(place, held[at].0) {
        return None;
    }
    let back = held.len() - 1 - at;
    if back < goals.len() {
        Some(goals[back])
    } else {
        None
    }
}

// Where a child goes whose sibling stays, where its parent goes to this goal.
fn child_goal(n: u64, goal: Option<Place>, side: u64) -> Option<Place>
    requires small { n < 2 ^ 40 }
    requires side { side < 2 }
    requires inner { IfSome goal (λ to. (0 < to.row) × InForest n to.row to.off) }
    ensures { result ≡ child_place false side goal }
{
    match goal {
        Some(to) => Some(child_of(n, to, false, side)),
        None => None,
    }
}

// Where a place goes, where the goals of the places behind it are told. The one above it stands, or would stand, at the index; it is given where
// the place goes with it.
fn goal_of(
    targets: &Targets,
    held: &[(Place, Digest)],
    goals: &[Option<Place>],
    at: usize,
    place: Place,
    staying: Option<Place>,
) -> Option<Place>
    requires within { InForest targets.now.leaves place.row place.off }
    requires staying { GoesWith targets.now place staying }
    requires told { TellGoals targets.now.leaves targets.now.targets held.now goals.now }
    ensures { result ≡ moved targets.now.leaves targets.now.targets place.row place.off }
{
    let Some(next) = staying else {
        return targets.moved(place);
    };
    let Some(goal) = told(held, goals, at, next) else {
        return targets.moved(place);
    };
    child_goal(targets.leaves(), goal, side(place))
}

// Where a place goes, where the goals of what is held are told: if something is held there, it goes with the place.
pub(crate) fn goal_at(
    targets: &Targets,
    held: &[(Place, Digest)],
    goals: &[Option<Place>],
    place: Place,
) -> Option<Place>
    requires within { InForest targets.now.leaves place.row place.off }
    requires ascends { AscendByPlace held.now }
    requires told { TellGoals targets.now.leaves targets.now.targets held.now goals.now }
    ensures { result ≡ moved targets.now.leaves targets.now.targets place.row place.off }
{
    let Some(goal) = told(held, goals, index_of_place(held, place), place) else {
        return targets.moved(place);
    };
    goal
}

// Whether the place comes behind all that is gone, and so stays where it is.
fn is_settled(targets: &Targets, last_gone: u64, place: Place) -> bool
    requires within { InForest targets.now.leaves place.row place.off }
    requires none { NoneGonePast targets.now.leaves targets.now.targets last_gone }
    ensures { OnTrue result (moved targets.now.leaves targets.now.targets place.row place.off ≡ Some place) }
{
    let number = position(place, targets.leaves());
    number > 0 && number - 1 > last_gone
}

// Where the last of the held digests go, the last one first: they stay where they are, as far as they come behind all that is gone. How
// many are left.
fn tell_settled(
    goals: &mut Vec<Option<Place>>,
    targets: &Targets,
    held: &[(Place, Digest)],
) -> usize
    requires within { All (λ x. InForest targets.now.leaves x.0.row x.0.off) held.now }
    requires empty { goals.old.items ≡ [] }
    requires room { length held.now ≤ vec_capacity goals.old }
    ensures goals { TellGoals targets.now.leaves targets.now.targets held.now goals.new.items }
    ensures each { result + vec_len goals.new ≡ length held.now }
    ensures room { length held.now ≤ vec_capacity goals.new }
{
    let last_gone = targets.last_gone();
    let mut left = held.len();
    while left > 0 && is_settled(targets, last_gone, held[left - 1].0) {
        let _ = goals.push(Some(held[left - 1].0));
        left -= 1;
    }
    left
}

// Where each held digest goes, the last one first. It takes no memory.
pub(crate) fn tell_goals(
    goals: &mut Vec<Option<Place>>,
    targets: &Targets,
    held: &[(Place, Digest)],
)
    requires within { All (λ x. InForest targets.now.leaves x.0.row x.0.off) held.now }
    requires ascends { AscendByPlace held.now }
    requires room { length held.now ≤ vec_capacity goals.old }
    ensures goals { TellGoals targets.now.leaves targets.now.targets held.now goals.new.items }
    ensures each { vec_len goals.new ≡ length held.now }
{
    goals.clear();
    let mut left = tell_settled(goals, targets, held);
    let mut at = held.len();
    let mut near = Near {
        above: 0,
        here: 0,
        needed: 0,
    };
    let mut last = Place { row: 0, off: 0 };
    let mut staying = None;
    while left > 0 {
        left -= 1;
        let place = held[left].0;
        at = index_back(held, at, above(targets.leaves(), place));
        let found = staying_beside(targets, near, last, staying, place);
        last = place;
        staying = found.0;
        near = found.1;
        let goal = goal_of(targets, held, goals, at, place, staying);
        let _ = goals.push(goal);
    }
}
