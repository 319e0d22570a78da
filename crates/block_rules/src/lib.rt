//! The rules of a block that need no proof: which of its inputs spend outputs of other blocks, which outputs it adds, and
//! whether its money is right.
//!
//! `shape_rules` judges a block by itself, beside the chain that it is to extend, and answers the first rule that it
//! breaks. Of a block that passes it gives [`Spends`]: the external inputs, whose outputs another block made, and the new
//! records. Once it is known what the external inputs spend, `money_rules` judges the rest: that outputs of a coinbase have
//! ripened, that no transaction makes more than it spends, and that the coinbase claims no more than it may.
//!
//! An input is internal where an earlier transaction of the block has its txid and, at its index, a spendable output; of
//! several the latest is meant. An output is spendable unless its script begins with OP_RETURN (`6a`) or has more than
//! 10,000 bytes. The new records are the spendable outputs that no input of the block spends; the block of height 0 has none.
#![tactic(auto)]

mod chain;
mod double;
mod fault;
mod issue;
mod laws;
mod made_outputs;
mod money;
mod origins;
mod outpoint;
mod output;
mod refusal;
mod shape;
mod spends;
mod steps;
mod sums;
mod verdict;
mod walk;
mod witness;

pub use chain::{Chain, Found, Outside};
pub use fault::RuleFault;
pub use issue::subsidy;
pub use laws::{internal_is_latest, new_is_paid, new_is_unspent};
pub use money::money_rules;
pub use refusal::{ProofRefusal, Refusal, WitnessFault};
pub use shape::shape_rules;
pub use spends::{NewOutputs, Spends};
pub use verdict::Verdict;
pub use witness::witness_height;
