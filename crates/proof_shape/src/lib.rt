//! The geometry of a deletion: which lists of targets are well formed, which digests a proof of them needs, and where the
//! nodes that stay go.
#![tactic(auto)]

mod above;
mod cover;
mod fault;
mod leaving;
mod locate;
mod moves;
mod need;
mod order;
mod paths;
mod shape;
mod survey;
mod sweep;
mod targets;
mod wrong;

pub use fault::ShapeFault;
pub use moves::child_of;
pub use survey::Survey;
pub use targets::Targets;
