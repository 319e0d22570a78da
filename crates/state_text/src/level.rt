//! A level that is stored.

use forest_roots::Roots;
use leaf_cache::Parts;
use std::marker::Model;
use uo_digest::Digest;

/// A chain as it was at one of its blocks, with what is cached of its outputs. The kept entries stand at different places of the
/// forest, of which none is above another.
pub struct StoredLevel<D> {
    /// The hash of the newest block, or 32 zero bytes where there is none.
    pub tip: Digest,
    /// The roots of all entries.
    pub roots: Roots<D>,
    /// The entries that are kept, and the digests that are held for them.
    pub parts: Parts,
}

impl<D> Model for StoredLevel<D> {
    ghost use Rattle.forest_model.specs.Cover.{HasShape};
    ghost use Rattle.cache_model.specs.Lists.{leaf_places};
    ghost use Rattle.state_text.specs.Cached.{CachedLevel};

    ghost Value = { CachedLevel };

    ghost view = { λ l. record { tip = l.tip; roots = l.roots; kept = l.parts.kept; held = l.parts.held } };

    ghost invariant = { λ l. HasShape l.roots.leaves (leaf_places l.parts.kept) };
}

impl<D> Drop for StoredLevel<D> {
    fn drop(self) {
        let StoredLevel {
            tip: _,
            roots: _,
            parts: _,
        } = self;
    }
}
