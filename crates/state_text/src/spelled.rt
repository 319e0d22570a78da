//! What a text spells, before it is judged.
ghost use Rattle.std.specs.Prelude.{◌≡◌, map};
ghost use Rattle.std.specs.List.{AllByRecursion};
ghost use Rattle.state_text.specs.Stored.{StandsWithin};

use crate::entry::StoredEntry;
use forest_roots::Roots;
use std::marker::Model;
use uo_base::Net;
use uo_digest::Digest;

/// A level as it stands in a text. The places of kept entries are places of its forest.
pub(crate) struct SpelledLevel<D> {
    pub(crate) tip: Digest,
    pub(crate) roots: Roots<D>,
    pub(crate) kept: Vec<StoredEntry>,
    pub(crate) hashes: Vec<Digest>,
}

impl<D> Model for SpelledLevel<D> {
    ghost use Rattle.std.specs.List.{AllByRecursion};
    ghost use Rattle.state_text.specs.Stored.{LevelValue, StandsWithin};

    ghost Value = { LevelValue };

    ghost view = { λ l. record { tip = l.tip; roots = l.roots; kept = l.kept.items; hashes = l.hashes.items } };

    ghost invariant = { λ l. AllByRecursion (StandsWithin l.roots.leaves) l.kept.items };
}

impl<D> Drop for SpelledLevel<D> {
    fn drop(self) {
        let SpelledLevel {
            tip: _,
            roots: _,
            kept: _,
            hashes: _,
        } = self;
    }
}

impl<D> SpelledLevel<D> {
    /// Its newest block, roots, kept entries and hashes.
    pub(crate) fn into_parts(self) -> (Digest, Roots<D>, Vec<StoredEntry>, Vec<Digest>)
        ensures parts { self ≡ record { tip = result.0; roots = result.1; kept = result.2.items; hashes = result.3.items } }
        ensures within { AllByRecursion (StandsWithin result.1.leaves) result.2.items }
    {
        let SpelledLevel {
            tip,
            roots,
            kept,
            hashes,
        } = self;
        (tip, roots, kept, hashes)
    }
}

/// A state as it stands in a text.
pub(crate) struct SpelledState<D> {
    pub(crate) net: Net,
    pub(crate) blocks: u32,
    pub(crate) scripts: Vec<Vec<u8>>,
    pub(crate) levels: Vec<SpelledLevel<D>>,
}

impl<D> Model for SpelledState<D> {
    ghost use Rattle.std.specs.Prelude.{map};
    ghost use Rattle.state_text.specs.Stored.{StateValue};

    ghost Value = { StateValue };

    ghost view = { λ s. record { net = s.net; blocks = s.blocks; scripts = map (λ script. script.items) s.scripts.items; levels = s.levels.items } };
}

impl<D> Drop for SpelledState<D> {
    fn drop(self) {
        let SpelledState {
            net: _,
            blocks: _,
            scripts: _,
            levels: _,
        } = self;
    }
}

impl<D> SpelledState<D> {
    /// Its network, count of blocks, scripts and levels.
    pub(crate) fn into_parts(self) -> (Net, u32, Vec<Vec<u8>>, Vec<SpelledLevel<D>>)
        ensures { self
            ≡ record { net = result.0; blocks = result.1; scripts = map (λ script. script.items) result.2.items; levels = result.3.items } }
    {
        let SpelledState {
            net,
            blocks,
            scripts,
            levels,
        } = self;
        (net, blocks, scripts, levels)
    }
}
