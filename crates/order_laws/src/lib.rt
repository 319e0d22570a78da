//! What holds over a path of blocks that was put in order.
#![tactic(auto)]

mod laws;

pub use laws::linked_up;
