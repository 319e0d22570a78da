//! What a node stores and reads, and how much room it has. What it says of blocks and messages is asked of the built program.
mod room;
mod stored;

use block_rules::Verdict;
use compact_node::Node;
use std::sync::ledger::Ledger;
use std::test::Fail;
use uo_base::Event;
use uo_digest::{Sha512t256, Steps};

type Compact = Node<Sha512t256>;

/// What the node says of a block and its message.
fn follow<L: Ledger>(
    node: &mut Compact,
    block: &[u8],
    message: Option<&[u8]>,
    steps: &mut Steps<L>,
) -> Result<Verdict, Fail> {
    if block.len() > 4_000_000 {
        return Err("a short block".into());
    }
    Ok(node.step(Event::Block { block, message }, steps)?)
}
