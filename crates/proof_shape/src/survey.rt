//! What targets tell of all other places.
ghost use Rattle.std.specs.Prelude.{◌≡◌, ◌↔◌, ◌⊎◌, ◌^◌, ◌<◌, [], IfOk, MatchOption, true};

use crate::leaving::{gone_among, last_gone};
use crate::moves::moved_from;
use crate::need::{needed_count, needed_of};
use crate::order::positions_of;
use crate::paths::{Paths, paths_named};
use forest_place::{Naming, Place};
use std::alloc::{AllocError, Global};
use std::marker::Model;

/// Different places of a forest, of which none stands above another, however many there are. These are targets, as those of
/// `Targets`, which are fewer than 2^32.
#[derive(Drop)]
pub struct Survey {
    count: u64,
    list: Vec<Place>,
    needed: Vec<Place>,

    // The targets and the places above them, and their positions.
    covered: Vec<Place>,
    numbers: Vec<u64>,

    // A place is gone whose position is in the first list and not in the second.
    among: Vec<u64>,
    kept: Vec<u64>,
}

impl Model for Survey {
    ghost use Rattle.proof_shape.specs.Targeted.{Targeted, IsShaped};
    ghost use Rattle.proof_shape.specs.Moves.{IsSurveyed};

    ghost Value = { Targeted };

    ghost view = { λ t. record { leaves = t.count; targets = t.list.items } };

    ghost invariant = { λ t. IsShaped (record { leaves = t.count; targets = t.list.items })
        × IsSurveyed t.count t.list.items t.needed.items t.covered.items t.numbers.items t.among.items t.kept.items };
}

impl Survey {
    ghost use Rattle.forest_place.specs.Forest.{InForest};
    ghost use Rattle.forest_place.specs.Position.{positions_of as numbers_of};
    ghost use Rattle.forest_model.specs.Cover.{need};
    ghost use Rattle.forest_model.specs.Deletion.{moved, is_gone};
    ghost use Rattle.proof_shape.specs.Laws.{WhatStaysGoes, EntryGoes};
    ghost use Rattle.proof_shape.specs.Moves.{ArePaths};
    ghost use Rattle.proof_shape.specs.Shape.{AreTargets, HasTargets, AreTargetsBy, HasTargetsBy};
    ghost use Rattle.proof_shape.specs.Survey.{IsCoverOf};
    ghost use Rattle.proof_shape.specs.Targeted.{IsShaped, IsBeneathTarget, NoneGonePast, IsGoneAt};

    // What these targets tell of all other places.
    fn over(alloc: Global, n: u64, paths: Paths) -> Result<Survey, AllocError>
        requires { ArePaths n paths.targets.items paths.covered.items paths.sorted.items }
        ensures { IfOk result (λ t. t ≡ record { leaves = n; targets = paths.targets.items }) }
    {
        let Paths {
            targets: list,
            covered,
            sorted,
        } = paths;
        let count = needed_count(n, &covered);
        let needed = needed_of(alloc, n, &covered, count)?;
        let numbers = positions_of(alloc, n, &covered)?;
        let (among, kept) = gone_among(alloc, n, &list, sorted, &numbers, &needed)?;
        Ok(Survey {
            count: n,
            list,
            needed,
            covered,
            numbers,
            among,
            kept,
        })
    }

    /// The targets at these positions of the forest over `n` entries, and none exactly where there are no such targets: a position
    /// is that of no place, or of one that was there already, or that stands above or beneath another.
    pub fn of(alloc: Global, n: u64, positions: &[u64]) -> Result<Option<Survey>, AllocError>
        requires { n < 2 ^ 40 }
        ensures { IfOk result (λ found. MatchOption found (HasTargets n positions.now → ⊥)
            (λ t. (t.leaves ≡ n) × AreTargets n positions.now t.targets)) }
    {
        Survey::named(alloc, Naming::Position, n, positions)
    }

    /// The same at the places that these numbers name.
    pub fn named(
        alloc: Global,
        naming: Naming,
        n: u64,
        numbers: &[u64],
    ) -> Result<Option<Survey>, AllocError>
        requires { n < 2 ^ 40 }
        ensures { IfOk result (λ found. MatchOption found (HasTargetsBy naming n numbers.now → ⊥)
            (λ t. (t.leaves ≡ n) × AreTargetsBy naming n numbers.now t.targets)) }
    {
        match paths_named(alloc, naming, n, numbers)? {
            Some(paths) => Ok(Some(Survey::over(alloc, n, paths)?)),
            None => Ok(None),
        }
    }

    /// No target, in the forest over `n` entries. It takes no memory.
    pub fn none(alloc: Global, n: u64) -> Survey
        requires { n < 2 ^ 40 }
        ensures { result ≡ record { leaves = n; targets = [] } }
    {
        Survey {
            count: n,
            list: Vec::new(alloc),
            needed: Vec::new(alloc),
            covered: Vec::new(alloc),
            numbers: Vec::new(alloc),
            among: Vec::new(alloc),
            kept: Vec::new(alloc),
        }
    }

    /// How many entries the forest has.
    pub fn leaves(&self) -> u64
        ensures is { result ≡ self.now.leaves }
        ensures shaped { IsShaped self.now }
    {
        self.count
    }

    /// All targets, in the order in which the positions were given.
    pub fn places(&self) -> &[Place]
        ensures { result.now ≡ self.now.targets }
    {
        &self.list
    }

    /// The covered places, which are the targets and all places above them, in ascending position, and their positions.
    pub fn covered(&self) -> (&[Place], &[u64])
        ensures is { IsCoverOf self.now.leaves self.now.targets result.0.now }
        ensures positions { result.1.now ≡ numbers_of self.now.leaves result.0.now }
    {
        (&self.covered, &self.numbers)
    }

    /// The places whose digests a proof of the targets has to give, in ascending position.
    pub fn needed(&self) -> &[Place]
        ensures { result.now ≡ need self.now.leaves self.now.targets }
    {
        &self.needed
    }

    /// Where what stays of a place goes once the targets are gone: a root that stays keeps its place, and a child goes to
    /// the child at its side of the place to which its parent goes, or to that place itself where its sibling is gone.
    pub fn moved(&self, place: Place) -> Option<Place>
        requires { InForest self.now.leaves place.row place.off }
        ensures is { result ≡ moved self.now.leaves self.now.targets place.row place.off }
        ensures none { (result ≡ None) ↔ ((is_gone self.now.targets place.row place.off ≡ true) ⊎ IsBeneathTarget self.now.targets place) }

        // Where the targets are places of live entries, and these are spent.
        ensures stays { WhatStaysGoes self.now place result }
        ensures entries { EntryGoes self.now place result }
    {
        moved_from(self.count, &self.among, &self.kept, place)
    }

    /// The position of the last place that is gone. Each target is gone; where there is no target, nothing is, and the answer is 0.
    pub fn last_gone(&self) -> u64
        ensures gone { IsGoneAt self.now.leaves self.now.targets result ⊎ ((self.now.targets ≡ []) × (result ≡ 0)) }
        ensures past { NoneGonePast self.now.leaves self.now.targets result }
    {
        last_gone(&self.among, &self.kept)
    }
}
