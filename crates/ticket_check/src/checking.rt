//! Judging the text of a ticket.
ghost use Rattle.std.specs.Prelude.{◌≡◌, length, IfOk};
ghost use Rattle.forest_model.specs.Standing.{root};
ghost use Rattle.bridge_prover.specs.Full.{history_of};
ghost use Rattle.audit_replay.specs.Audit.{IsAudit};
ghost use Rattle.ticket_check.specs.Judging.{TicketAccepts, ticket_verdict};
ghost use Rattle.ticket_check.specs.Checking.{check_of, checked_by, fault_said, live_of as live_in, recheck_of, rechecked_by, said_of_live};
ghost use Rattle.ticket_check.specs.Checking.{unless_clash as unless_clash_of, view_in};
ghost use Rattle.ticket_check.specs.Clashing.{ticket_clash_in};

use crate::checked::Checked;
use crate::{TicketFault, TicketVerdict, TicketView, judge, read_ticket, ticket_clash};
use audit_replay::Audit;
use bridge_prover::Bridge;
use clash_find::Clash;
use compact_node::Node;
use std::alloc::Global;
use std::sync::ledger::Ledger;
use uo_base::NoMemory;
use uo_digest::{Digester, Steps};

// The output of a ticket.
fn live_of(ticket: &TicketView<'_>) -> Checked
    ensures { result ≡ live_in ticket.now }
{
    let leaf = ticket.leaf();
    Checked::Live {
        txid: leaf.txid,
        index: leaf.index,
        amount: leaf.amount,
    }
}

// How it is told that a text is none.
fn said_of_fault(fault: TicketFault) -> Checked
    ensures { result ≡ fault_said fault }
{
    match fault {
        TicketFault::NotATicket => Checked::Form,
        TicketFault::Version(version) => Checked::Version(version),
    }
}

// What a node says of a ticket.
fn checked<D: Digester, L: Ledger>(
    alloc: Global,
    node: &Node<D>,
    ticket: &TicketView<'_>,
    steps: &mut Steps<L>,
) -> Result<Checked, NoMemory>
    ensures { IfOk result (λ said. said ≡ checked_by D.digest_of node.now ticket.now) }
{
    let chain = node.chain();
    match judge::<D, L>(alloc, node.roots(), &chain.tip, ticket, steps)? {
        TicketVerdict::Tip => Ok(Checked::Tip),
        TicketVerdict::Refused(why) => Ok(Checked::Refused(why)),
        TicketVerdict::Live => Ok(live_of(ticket)),
    }
}

/// What a node says of the text of a ticket, by the roots of its newest level.
pub fn check_ticket<D: Digester, L: Ledger>(
    alloc: Global,
    node: &Node<D>,
    text: &[u8],
    steps: &mut Steps<L>,
) -> Result<Checked, NoMemory>
    ensures { IfOk result (λ said. said ≡ check_of D.digest_of node.now text.now) }
{
    match read_ticket(text) {
        Ok(ticket) => checked::<D, L>(alloc, node, &ticket, steps),
        Err(fault) => Ok(said_of_fault(fault)),
    }
}

// What is said where the roots accept it.
fn unless_clash(found: Option<Clash>, ticket: &TicketView<'_>) -> Checked
    ensures { result ≡ unless_clash_of found ticket.now }
{
    match found {
        None => live_of(ticket),
        Some(clash) => Checked::Clash(clash),
    }
}

// The verdict by the roots of all entries.
fn verdict_of<D: Digester, L: Ledger>(
    alloc: Global,
    bridge: &Bridge<D>,
    ticket: &TicketView<'_>,
    steps: &mut Steps<L>,
) -> Result<TicketVerdict, NoMemory>
    ensures { IfOk result (λ verdict. verdict ≡ ticket_verdict D.digest_of (view_in D.digest_of bridge.now) bridge.now.chain.tip ticket.now) }
{
    let roots = bridge.forest().roots();
    let chain = bridge.chain();
    judge::<D, L>(alloc, &roots, &chain.tip, ticket, steps)
}

// Two texts, where the roots accept the ticket.
fn clash_of<D: Digester, L: Ledger>(
    alloc: Global,
    bridge: &Bridge<D>,
    ticket: &TicketView<'_>,
    steps: &mut Steps<L>,
) -> Result<Option<Clash>, NoMemory>
    requires audit { IsAudit D.digest_of bridge.now }
    requires accepted { TicketAccepts D.digest_of (length bridge.now.entries) (root D.digest_of bridge.now.entries) bridge.now.chain.tip ticket.now }
    ensures { IfOk result (λ clash. clash ≡ ticket_clash_in D.digest_of (history_of bridge.now) ticket.now) }
{
    ticket_clash::<D, L>(alloc, bridge, ticket, steps)
}

// What an auditor says of a ticket.
fn rechecked<D: Digester, L: Ledger>(
    alloc: Global,
    bridge: &Bridge<D>,
    ticket: &TicketView<'_>,
    steps: &mut Steps<L>,
) -> Result<Checked, NoMemory>
    requires { IsAudit D.digest_of bridge.now }
    ensures { IfOk result (λ said. said ≡ rechecked_by D.digest_of bridge.now ticket.now) }
{
    match verdict_of::<D, L>(alloc, bridge, ticket, steps)? {
        TicketVerdict::Tip => Ok(Checked::Tip),
        TicketVerdict::Refused(why) => Ok(Checked::Refused(why)),
        TicketVerdict::Live => {
            let found = clash_of::<D, L>(alloc, bridge, ticket, steps)?;
            Ok(unless_clash(found, ticket))
        }
    }
}

/// What an auditor says of it, over all outputs: a ticket that the roots accept is right, or it shows two different texts with one digest.
pub fn recheck_ticket<D: Digester, L: Ledger>(
    alloc: Global,
    audit: &Audit<D>,
    text: &[u8],
    steps: &mut Steps<L>,
) -> Result<Checked, NoMemory>
    ensures { IfOk result (λ said. said ≡ recheck_of D.digest_of audit.now.bridge text.now) }
{
    match read_ticket(text) {
        Ok(ticket) => rechecked::<D, L>(alloc, audit.bridge(), &ticket, steps),
        Err(fault) => Ok(said_of_fault(fault)),
    }
}
