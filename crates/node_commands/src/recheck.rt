//! The command that checks a ticket against all outputs.
ghost use Rattle.std.specs.Prelude.{◌≡◌, ◌≤◌, ◌<◌, ◌^◌, ◌⊎◌, ℕ, List, [], Option, false, IfOk, IfErr, OnOk, IsErrOf, is_err};
ghost use Rattle.std.specs.Bool.{OnFalse};
ghost use Rattle.std.specs.Io.KnownBytes.{Appends};
ghost use Rattle.uo_base.specs.Faults.{Rose};
ghost use Rattle.uo_base.specs.Moved.{AppendsPart};
ghost use Rattle.bridge_prover.specs.Watched.{scripts_of};
ghost use Rattle.feed_run.specs.Machine.{said_by, Wants};
ghost use Rattle.feed_run.specs.Status.{is_stop};
ghost use Rattle.node_commands.specs.Answers.{served_feed};
ghost use Rattle.node_commands.specs.Rechecking.{recheck_end, recheck_machine, rechecking};
ghost use Rattle.node_commands.specs.Runs.{NoPort, Ran, Serves, UsedRose, status_in};

use crate::inputs::{read_list, watched};
use crate::prior::read_text;
use crate::rechecker::Rechecker;
use crate::serve::bad_end;
use feed_run::{Status, Stop, handle_feed};
use report_lines::say;
use std::alloc::Global;
use std::sync::ledger::Ledger;
use uo_base::{Limits, Net, QuietSink, Sink, Source, put_all};
use uo_digest::{Digester, Steps};

/// Audits a feed, as one who watches the scripts of the list that is named, if one is, and then judges the ticket that the prior port gives over all
/// outputs that are live behind it. The ticket is read whole first, then the list, and both before the feed. At the first forged event two different
/// texts with one digest are shown, and nothing is said of the ticket.
pub fn recheck<D: Digester, F: Source, P: Source, W: Source, R: Sink, L: Ledger>(
    alloc: Global,
    limits: Limits,
    net: Net,
    named: bool,
    prior: &mut P,
    list: &mut W,
    feed: &mut F,
    report: &mut R,
    steps: &mut Steps<L>,
) -> Result<Status, Stop>
    requires leaves { limits.leaves < 2 ^ 40 }
    requires bytes { limits.bytes ≤ 2 ^ 48 }
    ensures ran { (out : Option (List ℕ)) → Ran (rechecking D.digest_of limits net named) limits.bytes (F.left feed.old) (F.left feed.new)
        (P.left prior.old) (W.left list.old)
        (R.held report.old) (R.held report.new) out out NoPort (is_err result) (status_in result) }
    ensures goes_on { IfOk result (λ status. is_stop status ≡ false) }
    ensures stays { OnFalse named (list.new ≡ list.old) }
    ensures read { IsErrOf result Stop.ReadFault
        → Rose (F.faults feed.old) (F.faults feed.new) ⊎ Rose (P.faults prior.old) (P.faults prior.new)
        ⊎ UsedRose named (W.faults list.old) (W.faults list.new) }
    ensures write { IsErrOf result Stop.WriteFault → Rose (R.faults report.old) (R.faults report.new) }
{
    let ticket = match read_text(alloc, limits.bytes, prior)? {
        Ok(ticket) => ticket,
        Err(bad) => return say(alloc, report, bad.status, bad.line),
    };
    let watch = match read_list(alloc, named, limits.bytes, list)? {
        Ok(watch) => watched(alloc, watch),
        Err(bad) => return say(alloc, report, bad.status, bad.line),
    };
    let mut rechecker = Rechecker::<D>::new(alloc, net, limits, watch, ticket)?;
    serve_judged(
        alloc,
        net,
        limits.bytes,
        &mut rechecker,
        feed,
        report,
        steps,
    )
}

// Answers a feed: the lines of the first forged event, or what is said of the ticket at its end, or why the feed ended before.
fn serve_judged<D: Digester, F: Source, R: Sink, L: Ledger>(
    alloc: Global,
    net: Net,
    bytes: u64,
    rechecker: &mut Rechecker<D>,
    feed: &mut F,
    report: &mut R,
    steps: &mut Steps<L>,
) -> Result<Status, Stop>
    requires bytes { bytes ≤ 2 ^ 48 }
    requires fresh { rechecker.old.events ≡ 0 }
    ensures served { (out : Option (List ℕ)) → Serves (Wants (recheck_machine D.digest_of) rechecker.old)
        (said_by (recheck_machine D.digest_of) rechecker.old) (λ events. []) (served_feed (recheck_machine D.digest_of) rechecker.old net bytes) net bytes
        (F.left feed.old) (F.left feed.new) (R.held report.old) (R.held report.new) out out NoPort (is_err result) (status_in result) }
    ensures goes_on { IfOk result (λ status. is_stop status ≡ false) }
    ensures read { IsErrOf result Stop.ReadFault → Rose (F.faults feed.old) (F.faults feed.new) }
    ensures write { IsErrOf result Stop.WriteFault → Rose (R.faults report.old) (R.faults report.new) }
{
    let mut nothing = QuietSink::new(alloc);
    let ending = handle_feed(
        alloc,
        net,
        bytes,
        rechecker,
        feed,
        &mut nothing,
        report,
        steps,
    )?;
    match bad_end(ending) {
        Some((status, line)) => say(alloc, report, status, line),
        None => tell_judged(alloc, rechecker, report, steps),
    }
}

// Prints what is said of the ticket.
fn tell_judged<D: Digester, R: Sink, L: Ledger>(
    alloc: Global,
    rechecker: &Rechecker<D>,
    report: &mut R,
    steps: &mut Steps<L>,
) -> Result<Status, Stop>
    ensures status { IfOk result (λ status. status ≡ (recheck_end D.digest_of rechecker.now).status) }
    ensures goes_on { IfOk result (λ status. is_stop status ≡ false) }
    ensures said { OnOk result (Appends (R.held report.old) (R.held report.new) (recheck_end D.digest_of rechecker.now).report) }
    ensures part { AppendsPart (R.held report.old) (R.held report.new) (recheck_end D.digest_of rechecker.now).report }
    ensures read { IsErrOf result Stop.ReadFault → ⊥ }
    ensures write { IsErrOf result Stop.WriteFault → Rose (R.faults report.old) (R.faults report.new) }
{
    let mut said = Vec::new(alloc);
    let status = rechecker.judge(&mut said, steps)?;
    put_all(report, &said)?;
    Ok(status)
}
