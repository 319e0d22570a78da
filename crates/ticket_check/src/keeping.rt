//! Writing the ticket of an entry that a node keeps.
ghost use Rattle.std.specs.Prelude.{◌≡◌, IfOk, OnErr};
ghost use Rattle.ticket_check.specs.Written.{ticket_of, IsTicketWritten};

use crate::put_ticket;
use compact_node::Node;
use forest_place::fixed_position;
use std::alloc::Global;
use uo_base::NoMemory;
use uo_digest::Digester;

/// Appends the ticket of the entry with this number that the node keeps on its newest level: that level's block, where the entry
/// stands, the output, and the hashes that are held for it. False where no entry with this number is kept, and then nothing is
/// appended.
pub fn write_ticket<D: Digester>(
    alloc: Global,
    node: &Node<D>,
    number: u64,
    out: &mut Vec<u8>,
) -> Result<bool, NoMemory>
    ensures ok { IfOk result (λ done. IsTicketWritten (ticket_of node.now.newest number) out.old.items out.new.items done) }
    ensures err { OnErr result (out.new.items ≡ out.old.items) }
{
    let chain = node.chain();
    let cache = node.cache();
    let Some(entry) = cache.entry(number) else {
        return Ok(false);
    };
    let Some(hashes) = cache.proof_of(alloc, number)? else {
        unreachable!()
    };
    let leaf = entry.leaf.view();
    put_ticket(chain.tip, fixed_position(entry.place), &leaf, &hashes, out)?;
    Ok(true)
}
