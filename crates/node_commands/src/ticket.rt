//! The command that writes the ticket of an output.
ghost use Rattle.std.specs.Prelude.{◌≡◌, ◌≤◌, ◌<◌, ◌^◌, ◌⊎◌, ℕ, List, [], Option, false, IfOk, OnOk, IsErrOf, is_err};
ghost use Rattle.std.specs.Io.KnownBytes.{Appends};
ghost use Rattle.uo_base.specs.Faults.{Rose};
ghost use Rattle.uo_base.specs.Moved.{AppendsPart};
ghost use Rattle.feed_run.specs.Status.{is_stop};
ghost use Rattle.node_commands.specs.Runs.{Ran, status_in};
ghost use Rattle.node_commands.specs.Ticketing.{ticket_answer, ticketing};

use crate::prior::read_prior;
use compact_node::Node;
use feed_run::{Status, Stop};
use report_lines::{Line, say};
use std::alloc::Global;
use std::sync::ledger::Ledger;
use ticket_check::write_ticket;
use uo_base::{Limits, Sink, Source, put_all};
use uo_digest::{Digester, Steps};

/// Stores the ticket of the entry with this number that the prior state keeps on its newest level, and then prints how many bytes it has; or that no
/// such entry is kept. The state is read whole.
pub fn make_ticket<D: Digester, P: Source, O: Sink, R: Sink, L: Ledger>(
    alloc: Global,
    limits: Limits,
    number: u64,
    prior: &mut P,
    out: &mut O,
    report: &mut R,
    steps: &mut Steps<L>,
) -> Result<Status, Stop>
    requires leaves { limits.leaves < 2 ^ 40 }
    requires bytes { limits.bytes ≤ 2 ^ 48 }
    ensures ran { (feed watch : Option (List ℕ)) → Ran (ticketing D.digest_of limits number) limits.bytes feed feed (P.left prior.old) watch
        (R.held report.old) (R.held report.new) (O.held out.old) (O.held out.new) (out.new ≡ out.old) (is_err result) (status_in result) }
    ensures goes_on { IfOk result (λ status. is_stop status ≡ false) }
    ensures read { IsErrOf result Stop.ReadFault → Rose (P.faults prior.old) (P.faults prior.new) }
    ensures write { IsErrOf result Stop.WriteFault → Rose (O.faults out.old) (O.faults out.new) ⊎ Rose (R.faults report.old) (R.faults report.new) }
{
    match read_prior::<D, P, L>(alloc, limits, prior, steps)? {
        Ok(node) => store_ticket(alloc, &node, number, out, report),
        Err(bad) => say(alloc, report, bad.status, bad.line),
    }
}

// Stores a node's ticket, and then prints how many bytes it has.
fn store_ticket<D: Digester, O: Sink, R: Sink>(
    alloc: Global,
    node: &Node<D>,
    number: u64,
    out: &mut O,
    report: &mut R,
) -> Result<Status, Stop>
    ensures status { IfOk result (λ status. status ≡ (ticket_answer number node.now).status) }
    ensures goes_on { IfOk result (λ status. is_stop status ≡ false) }
    ensures sent { OnOk result (Appends (O.held out.old) (O.held out.new) (ticket_answer number node.now).out) }
    ensures said { OnOk result (Appends (R.held report.old) (R.held report.new) (ticket_answer number node.now).report) }
    ensures part_sent { AppendsPart (O.held out.old) (O.held out.new) (ticket_answer number node.now).out }
    ensures part_said { AppendsPart (R.held report.old) (R.held report.new) (ticket_answer number node.now).report }
    ensures order { Appends (R.held report.old) (R.held report.new) []
        ⊎ Appends (O.held out.old) (O.held out.new) (ticket_answer number node.now).out }
    ensures untouched { (ticket_answer number node.now).out ≡ [] → out.new ≡ out.old }
    ensures read { IsErrOf result Stop.ReadFault → ⊥ }
    ensures write { IsErrOf result Stop.WriteFault → Rose (O.faults out.old) (O.faults out.new) ⊎ Rose (R.faults report.old) (R.faults report.new) }
{
    let mut text = Vec::new(alloc);
    if !write_ticket(alloc, node, number, &mut text)? {
        return say(alloc, report, Status::SomeRefused, Line::NoTicket);
    }
    put_all(out, &text)?;
    let bytes = text.len() as u64;
    say(
        alloc,
        report,
        Status::AllAccepted,
        Line::Ticket { number, bytes },
    )
}
