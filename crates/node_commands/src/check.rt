//! The command that checks a ticket against a state.
ghost use Rattle.std.specs.Prelude.{◌≡◌, ◌≤◌, ◌<◌, ◌^◌, ◌⊎◌, ℕ, List, [], Option, false, IfOk, OnOk, IsErrOf, is_err};
ghost use Rattle.std.specs.Io.KnownBytes.{Appends};
ghost use Rattle.uo_base.specs.Faults.{Rose};
ghost use Rattle.uo_base.specs.Moved.{AppendsPart};
ghost use Rattle.feed_run.specs.Status.{is_stop};
ghost use Rattle.ticket_check.specs.Checking.{check_of};
ghost use Rattle.node_commands.specs.Checking.{check_answer, checking};
ghost use Rattle.node_commands.specs.Meaning.{AnyEvents};
ghost use Rattle.node_commands.specs.Runs.{NoPort, Ran, Serves, status_in};
ghost use Rattle.node_commands.specs.Tickets.{told_as};

use crate::prior::read_prior;
use crate::telling::push_checked;
use compact_node::Node;
use feed_run::{Status, Stop};
use report_lines::{Line, say};
use std::alloc::Global;
use std::sync::ledger::Ledger;
use ticket_check::check_ticket;
use uo_base::{InputFault, Limits, Sink, Source, put_all, read_all};
use uo_digest::{Digester, Steps};

/// Judges the ticket that the feed port gives, which is read whole, by the newest level of the prior state, which is read whole before it, and prints
/// whether its output is live there.
pub fn check<D: Digester, F: Source, P: Source, R: Sink, L: Ledger>(
    alloc: Global,
    limits: Limits,
    prior: &mut P,
    feed: &mut F,
    report: &mut R,
    steps: &mut Steps<L>,
) -> Result<Status, Stop>
    requires leaves { limits.leaves < 2 ^ 40 }
    requires bytes { limits.bytes ≤ 2 ^ 48 }
    ensures ran { (watch out : Option (List ℕ)) → Ran (checking D.digest_of limits) limits.bytes
        (F.left feed.old) (F.left feed.new) (P.left prior.old) watch
        (R.held report.old) (R.held report.new) out out NoPort (is_err result) (status_in result) }
    ensures goes_on { IfOk result (λ status. is_stop status ≡ false) }
    ensures read { IsErrOf result Stop.ReadFault → Rose (F.faults feed.old) (F.faults feed.new) ⊎ Rose (P.faults prior.old) (P.faults prior.new) }
    ensures write { IsErrOf result Stop.WriteFault → Rose (R.faults report.old) (R.faults report.new) }
{
    match read_prior::<D, P, L>(alloc, limits, prior, steps)? {
        Ok(node) => check_read(alloc, &node, limits.bytes, feed, report, steps),
        Err(bad) => say(alloc, report, bad.status, bad.line),
    }
}

// Reads the ticket, and judges it by a node.
fn check_read<D: Digester, F: Source, R: Sink, L: Ledger>(
    alloc: Global,
    node: &Node<D>,
    limit: u64,
    feed: &mut F,
    report: &mut R,
    steps: &mut Steps<L>,
) -> Result<Status, Stop>
    ensures served { (out : Option (List ℕ)) → Serves AnyEvents (λ events. []) (λ events. []) (check_answer D.digest_of limit node.now) node.now.rules.net limit
        (F.left feed.old) (F.left feed.new) (R.held report.old) (R.held report.new) out out NoPort (is_err result) (status_in result) }
    ensures goes_on { IfOk result (λ status. is_stop status ≡ false) }
    ensures read { IsErrOf result Stop.ReadFault → Rose (F.faults feed.old) (F.faults feed.new) }
    ensures write { IsErrOf result Stop.WriteFault → Rose (R.faults report.old) (R.faults report.new) }
{
    match read_all(alloc, feed, limit) {
        Ok(text) => tell_checked(alloc, node, &text, report, steps),
        Err(InputFault::Limit) => say(alloc, report, Status::InputLimit, Line::LimitFeed(limit)),
        Err(InputFault::ReadFault) => Err(Stop::ReadFault),
        Err(InputFault::NoMemory) => Err(Stop::NoMemory),
    }
}

// Prints what a node says of the text of a ticket.
fn tell_checked<D: Digester, R: Sink, L: Ledger>(
    alloc: Global,
    node: &Node<D>,
    text: &[u8],
    report: &mut R,
    steps: &mut Steps<L>,
) -> Result<Status, Stop>
    ensures status { IfOk result (λ status. status ≡ (told_as (check_of D.digest_of node.now text.now)).status) }
    ensures goes_on { IfOk result (λ status. is_stop status ≡ false) }
    ensures said { OnOk result (Appends (R.held report.old) (R.held report.new) (told_as (check_of D.digest_of node.now text.now)).report) }
    ensures part { AppendsPart (R.held report.old) (R.held report.new) (told_as (check_of D.digest_of node.now text.now)).report }
    ensures read { IsErrOf result Stop.ReadFault → ⊥ }
    ensures write { IsErrOf result Stop.WriteFault → Rose (R.faults report.old) (R.faults report.new) }
{
    let checked = check_ticket::<D, L>(alloc, node, text, steps)?;
    let mut said = Vec::new(alloc);
    let status = push_checked(alloc, &checked, &mut said)?;
    put_all(report, &said)?;
    Ok(status)
}
