//! The targets of a deletion.
ghost use Rattle.std.specs.Prelude.{◌≡◌, ◌↔◌, ◌⊎◌, ◌^◌, ◌<◌, [], MatchResult, length, true};

use crate::ShapeFault;
use crate::survey::Survey;
use crate::wrong::fault_named;
use forest_place::{Naming, Place};
use std::alloc::Global;
use std::marker::Model;

/// Targets of a deletion: different places of a forest, of which none stands above another, and fewer than 2^32.
#[derive(Drop)]
pub struct Targets {
    survey: Survey,
}

impl Model for Targets {
    ghost use Rattle.proof_shape.specs.Targeted.{Targeted, IsTargeted};

    ghost Value = { Targeted };

    ghost view = { λ t. t.survey };

    ghost invariant = { λ t. IsTargeted t.survey };
}

impl Targets {
    ghost use Rattle.forest_place.specs.Forest.{InForest};
    ghost use Rattle.forest_place.specs.Places.{place_in};
    ghost use Rattle.forest_place.specs.Position.{positions_of as numbers_of};
    ghost use Rattle.forest_model.specs.Cover.{need};
    ghost use Rattle.forest_model.specs.Deletion.{moved, is_gone};
    ghost use Rattle.proof_shape.specs.Laws.{WhatStaysGoes, EntryGoes};
    ghost use Rattle.proof_shape.specs.Shape.{AreTargetsBy, IsFaultBy, AreTargets, IsShapeFault, AreFixedTargets, IsFixedFault};
    ghost use Rattle.proof_shape.specs.Survey.{IsCoverOf};
    ghost use Rattle.proof_shape.specs.Targeted.{IsTargeted, IsBeneathTarget, NoneGonePast, IsGoneAt};

    /// The targets at these positions of the forest over `n` entries. A fault names items of the list by `u32`, so the list has
    /// fewer than 2^32.
    pub fn new(alloc: Global, n: u64, positions: &[u64]) -> Result<Targets, ShapeFault>
        requires small { n < 2 ^ 40 }
        requires few { length positions.now < 2 ^ 32 }
        ensures { MatchResult result (λ t. (t.leaves ≡ n) × AreTargets n positions.now t.targets) (λ e. IsShapeFault n positions.now e) }
    {
        Targets::named(alloc, Naming::Position, n, positions)
    }

    /// The same at these fixed positions.
    pub fn new_fixed(alloc: Global, n: u64, positions: &[u64]) -> Result<Targets, ShapeFault>
        requires small { n < 2 ^ 40 }
        requires few { length positions.now < 2 ^ 32 }
        ensures { MatchResult result (λ t. (t.leaves ≡ n) × AreFixedTargets n positions.now t.targets) (λ e. IsFixedFault n positions.now e) }
    {
        Targets::named(alloc, Naming::FixedPosition, n, positions)
    }

    /// The same at the places that these numbers name.
    pub fn named(
        alloc: Global,
        naming: Naming,
        n: u64,
        numbers: &[u64],
    ) -> Result<Targets, ShapeFault>
        requires small { n < 2 ^ 40 }
        requires few { length numbers.now < 2 ^ 32 }
        ensures { MatchResult result (λ t. (t.leaves ≡ n) × AreTargetsBy naming n numbers.now t.targets) (λ e. IsFaultBy naming n numbers.now e) }
    {
        match Survey::named(alloc, naming, n, numbers)? {
            Some(survey) => Ok(Targets { survey }),
            None => Err(fault_named(alloc, naming, n, numbers)?),
        }
    }

    /// No target, in the forest over `n` entries. It takes no memory.
    pub fn none(alloc: Global, n: u64) -> Targets
        requires { n < 2 ^ 40 }
        ensures { result ≡ record { leaves = n; targets = [] } }
    {
        Targets {
            survey: Survey::none(alloc, n),
        }
    }

    /// The same without the bound on how many there are.
    pub fn survey(&self) -> &Survey
        ensures { result.now ≡ self.now }
    {
        &self.survey
    }

    /// How many entries the forest has.
    pub fn leaves(&self) -> u64
        ensures is { result ≡ self.now.leaves }
        ensures targets { IsTargeted self.now }
    {
        self.survey.leaves()
    }

    /// How many targets there are.
    pub fn len(&self) -> u32
        ensures { result ≡ length self.now.targets }
    {
        self.survey.places().len() as u32
    }

    /// The target at an index, in the order in which the positions were given.
    pub fn place(&self, i: u32) -> Place
        requires { i < length self.now.targets }
        ensures { result ≡ place_in self.now.targets i }
    {
        self.survey.places()[i as usize]
    }

    /// All targets, in that order.
    pub fn places(&self) -> &[Place]
        ensures { result.now ≡ self.now.targets }
    {
        self.survey.places()
    }

    /// The covered places, which are the targets and all places above them, in ascending position, and their positions.
    pub fn covered(&self) -> (&[Place], &[u64])
        ensures is { IsCoverOf self.now.leaves self.now.targets result.0.now }
        ensures positions { result.1.now ≡ numbers_of self.now.leaves result.0.now }
    {
        self.survey.covered()
    }

    /// The places whose digests a proof of the targets has to give, in ascending position.
    pub fn needed(&self) -> &[Place]
        ensures { result.now ≡ need self.now.leaves self.now.targets }
    {
        self.survey.needed()
    }

    /// Where what stays of a place goes once the targets are gone: a root that stays keeps its place, and a child goes to
    /// the child at its side of the place to which its parent goes, or to that place itself where its sibling is gone.
    pub fn moved(&self, place: Place) -> Option<Place>
        requires { InForest self.now.leaves place.row place.off }
        ensures is { result ≡ moved self.now.leaves self.now.targets place.row place.off }
        ensures none { (result ≡ None) ↔ ((is_gone self.now.targets place.row place.off ≡ true) ⊎ IsBeneathTarget self.now.targets place) }

        // Where the targets are places of live entries, and these are spent.
        ensures stays { WhatStaysGoes self.now place result }
        ensures entries { EntryGoes self.now place result }
    {
        self.survey.moved(place)
    }

    /// The position of the last place that is gone. Each target is gone; where there is no target, nothing is, and the answer is 0.
    pub fn last_gone(&self) -> u64
        ensures gone { IsGoneAt self.now.leaves self.now.targets result ⊎ ((self.now.targets ≡ []) × (result ≡ 0)) }
        ensures past { NoneGonePast self.now.leaves self.now.targets result }
    {
        self.survey.last_gone()
    }
}
