//! An older level of a node.
ghost use Rattle.std.specs.Prelude.{◌≡◌};

use block_rules::Chain;
use cache_update::Mark;
use forest_roots::PackedRoots;
use std::marker::Model;

/// A chain and the roots of its entries, by the digester `D`, and what gives back the lists of the cache over those of the level
/// in front of it.
pub(crate) struct Past<D> {
    pub(crate) chain: Chain,
    pub(crate) roots: PackedRoots<D>,
    pub(crate) mark: Mark,
}

impl<D> Model for Past<D> {
    ghost use Rattle.compact_node.specs.Marked.{PastState};

    ghost Value = { PastState };

    ghost view = { λ p. record { chain = p.chain; roots = p.roots; mark = p.mark } };
}

impl<D> Drop for Past<D> {
    fn drop(self) {
        let Past {
            chain: _,
            roots: _,
            mark: _,
        } = self;
    }
}

impl<D> Past<D> {
    /// Its chain, roots and mark.
    pub(crate) fn into_parts(self) -> (Chain, PackedRoots<D>, Mark)
        ensures { self ≡ record { chain = result.0; roots = result.1; mark = result.2 } }
    {
        let Past { chain, roots, mark } = self;
        (chain, roots, mark)
    }
}
