//! Judging a ticket by the roots of a forest.
ghost use Rattle.std.specs.Prelude.{◌≡◌, IfOk, Some};
ghost use Rattle.ticket_check.specs.Alone.{target_at as target_at_of};
ghost use Rattle.ticket_check.specs.Judging.{ticket_fault, ticket_verdict, stump_view};

use crate::target::{copies_of, target_at};
use crate::{TicketVerdict, TicketView};
use block_rules::ProofRefusal;
use forest_roots::Roots;
use leaf_record::{LeafBuf, leaf_digest};
use node_rules::proof_refusal_of;
use proof_shape::Targets;
use proof_verify::{Scratch, check_and_delete};
use std::alloc::Global;
use std::sync::ledger::Ledger;
use uo_base::NoMemory;
use uo_digest::{Digest, Digester, Steps};

// Why the proof of the ticket's leaf at its target is refused. It is deleted of a copy of the roots.
fn fault_at<D: Digester, L: Ledger>(
    alloc: Global,
    roots: &Roots<D>,
    targets: &Targets,
    ticket: &TicketView<'_>,
    steps: &mut Steps<L>,
) -> Result<Option<ProofRefusal>, NoMemory>
    requires { target_at_of roots.now.leaves ticket.now.target ≡ Some targets.now }
    ensures { IfOk result (λ fault. fault ≡ ticket_fault D.digest_of (stump_view roots.now) ticket.now) }
{
    // That the place alone has shape.
    let _count = targets.leaves();
    let mut room = LeafBuf::<D>::new(alloc)?;
    let leaf = leaf_digest::<D, L>(&mut room, &ticket.leaf(), steps);
    let hashes = copies_of(alloc, &ticket.hashes())?;
    let mut scratch = Scratch::new(alloc);
    // What the deletion changes is not asked for.
    scratch.reserve_for(targets, false)?;
    let mut copy = roots.copy();
    match check_and_delete(&mut copy, targets, &[leaf], &hashes, &mut scratch, steps) {
        Ok(_) => Ok(None),
        Err(fault) => Ok(Some(proof_refusal_of(fault))),
    }
}

// Why its proof is refused.
fn fault_of<D: Digester, L: Ledger>(
    alloc: Global,
    roots: &Roots<D>,
    ticket: &TicketView<'_>,
    steps: &mut Steps<L>,
) -> Result<Option<ProofRefusal>, NoMemory>
    ensures { IfOk result (λ fault. fault ≡ ticket_fault D.digest_of (stump_view roots.now) ticket.now) }
{
    match target_at(alloc, roots.leaves(), ticket.target())? {
        Some(targets) => fault_at::<D, L>(alloc, roots, &targets, ticket, steps),
        None => Ok(Some(ProofRefusal::Outside(0))),
    }
}

/// What one says of a ticket who has these roots behind the block with this hash: that it speaks up to another block, or why its
/// proof is refused, or that its output is live. The roots stay as they are.
pub fn judge<D: Digester, L: Ledger>(
    alloc: Global,
    roots: &Roots<D>,
    tip: &Digest,
    ticket: &TicketView<'_>,
    steps: &mut Steps<L>,
) -> Result<TicketVerdict, NoMemory>
    ensures { IfOk result (λ verdict. verdict ≡ ticket_verdict D.digest_of (stump_view roots.now) tip.now ticket.now) }
{
    if ticket.tip() != *tip {
        return Ok(TicketVerdict::Tip);
    }
    match fault_of::<D, L>(alloc, roots, ticket, steps)? {
        None => Ok(TicketVerdict::Live),
        Some(why) => Ok(TicketVerdict::Refused(why)),
    }
}
