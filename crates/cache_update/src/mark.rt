//! What a block changes of a cache, and the room for it.
use forest_place::Place;
use leaf_cache::Kept;
use proof_shape::Survey;
use uo_digest::Digest;

/// What a block took out of a cache, and which places it changed, with what was held there. It gives back the cache that was,
/// over the one that the block left.
#[derive(Drop)]
pub struct Mark {
    // What is left of the block: additions to this many entries, and how many of them are watched.
    pub(crate) leaves: u64,
    pub(crate) adds: u64,
    pub(crate) watched: u64,

    // The entries that were taken out, the numbers and places of those that stood elsewhere, and the numbers of those that
    // were added. While the block goes on the second has all that were kept when it began.
    pub(crate) taken: Vec<Kept>,
    pub(crate) stood: Vec<(u64, Place)>,
    pub(crate) added: Vec<u64>,

    // The digests that were held and are so no more, and the places that had none. Nothing while the block goes on.
    pub(crate) lost: Vec<(Place, Digest)>,
    pub(crate) gained: Vec<Place>,

    // While the block goes on. It has a place of its own, so that a mark that is kept for long is small.
    pub(crate) room: Option<Box<BlockRoom>>,
}

// Lists that a block changes a cache by, so that no change takes memory.
#[derive(Drop)]
pub(crate) struct BlockRoom {
    // More than the cache holds digests at any time in this block.
    pub(crate) most: usize,

    // The places at which the kept entries stand after the deletion.
    pub(crate) kept: Survey,

    // The held digests when the block began.
    pub(crate) before: Vec<(Place, Digest)>,

    pub(crate) scratch: HeldScratch,

    // What the mark has once no addition is left.
    pub(crate) lost: Vec<(Place, Digest)>,
    pub(crate) gained: Vec<Place>,
    pub(crate) moved: Vec<(u64, Place)>,
}

// The held digests are built anew in the first list, and those that go elsewhere are gathered in the second. The third tells
// where those that were held when the block began go, the last one first.
#[derive(Drop)]
pub(crate) struct HeldScratch {
    pub(crate) spare: Vec<(Place, Digest)>,
    pub(crate) moves: Vec<(Place, Digest)>,
    pub(crate) goals: Vec<Option<Place>>,
}
