//! All commands of the program, over any ports and any digest: a compact Bitcoin node that judges a feed of blocks, what proves and audits
//! such feeds, and what makes feeds to try it on. [`run`] is the one call that the program makes.
#![tactic(auto)]

mod audit;
mod auditor;
mod bad_input;
mod check;
mod ending;
mod follow;
mod follower;
mod generating;
mod inputs;
mod laws;
mod order;
mod prior;
mod prove;
mod prover;
mod recheck;
mod rechecker;
mod relay;
mod relayer;
mod running;
mod serve;
mod telling;
mod ticket;
mod upgrading;
mod upgrading_feed;

pub use command_words::{Command, WordFault, read_words};
pub use feed_run::Status;
pub use laws::{
    followed_is_valid, fresh_begins, pieces_are_parted, printed_is_named, resumed_is_valid,
    resumed_is_whole, states_are_upgraded, upgraded_feeds_are_followed,
};
pub use report_lines::line_of;
pub use running::run;
pub use upgrading::upgrade_state;
pub use upgrading_feed::upgrade_feed;
