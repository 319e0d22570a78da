//! What is stored of a node.

use crate::level::StoredLevel;
use leaf_cache::Watch;
use std::marker::Model;
use uo_base::Net;

/// The state of a node.
pub struct StoredState<D> {
    /// The network that it follows.
    pub net: Net,
    /// How many blocks its chain has, at most 2^31.
    pub blocks: u32,
    /// The scripts that it watches.
    pub watch: Watch,
    /// Its levels, the present one first. Each older one has one block less.
    pub levels: Vec<StoredLevel<D>>,
}

impl<D> Model for StoredState<D> {
    ghost use Rattle.state_text.specs.Cached.{CachedState};

    ghost Value = { CachedState };

    ghost view = { λ s. record { net = s.net; blocks = s.blocks; scripts = s.watch; levels = s.levels.items } };
}

impl<D> Drop for StoredState<D> {
    fn drop(self) {
        let StoredState {
            net: _,
            blocks: _,
            watch: _,
            levels: _,
        } = self;
    }
}
