//! Places of the forest as rows and offsets, and their positions. No call here takes memory.
#![tactic(auto)]

mod laws;
mod lists;
mod naming;
mod numbering;
mod place;

pub use laws::{
    fixed_positions_ascend, places_are_beneath_roots, places_are_listed, positions_ascend,
};
pub use lists::is_near;
pub use naming::Naming;
pub use numbering::{fixed_position, parent_position, place_of, place_of_fixed, position, rows};
pub use place::{
    Place, child, children, is_before, is_root, is_slot, is_within, parent, root_place, sibling,
    side, slot_of,
};
