//! The command that audits a feed.
ghost use Rattle.std.specs.Prelude.{◌≡◌, ◌≤◌, ◌<◌, ◌^◌, ◌⊎◌, ℕ, List, Option, false, IfOk, IsErrOf, is_err};
ghost use Rattle.std.specs.Bool.{OnFalse};
ghost use Rattle.uo_base.specs.Faults.{Rose};
ghost use Rattle.bridge_prover.specs.Watched.{scripts_of};
ghost use Rattle.feed_run.specs.Status.{is_stop};
ghost use Rattle.node_commands.specs.Auditing.{auditing};
ghost use Rattle.node_commands.specs.Runs.{NoPort, Ran, UsedRose, status_in};

use crate::auditor::Auditor;
use crate::inputs::{read_list, watched};
use crate::serve::serve;
use feed_run::{Status, Stop};
use leaf_cache::Watch;
use report_lines::say;
use std::alloc::Global;
use std::sync::ledger::Ledger;
use uo_base::{Limits, Net, QuietSink, Sink, Source};
use uo_digest::{Digester, Steps};

/// Judges each event by a node that holds every output and by the message beside it, as one who watches the scripts of the list that is named, if
/// one is: it is read whole before the feed. At the first forged event it shows two different texts with one digest, and judges nothing behind it.
pub fn audit<D: Digester, F: Source, W: Source, R: Sink, L: Ledger>(
    alloc: Global,
    limits: Limits,
    net: Net,
    named: bool,
    list: &mut W,
    feed: &mut F,
    report: &mut R,
    steps: &mut Steps<L>,
) -> Result<Status, Stop>
    requires leaves { limits.leaves < 2 ^ 40 }
    requires bytes { limits.bytes ≤ 2 ^ 48 }
    ensures ran { (prior out : Option (List ℕ))
        → Ran (auditing D.digest_of limits net named) limits.bytes (F.left feed.old) (F.left feed.new) prior (W.left list.old)
        (R.held report.old) (R.held report.new) out out NoPort (is_err result) (status_in result) }
    ensures goes_on { IfOk result (λ status. is_stop status ≡ false) }
    ensures stays { OnFalse named (list.new ≡ list.old) }
    ensures read { IsErrOf result Stop.ReadFault → Rose (F.faults feed.old) (F.faults feed.new)
        ⊎ UsedRose named (W.faults list.old) (W.faults list.new) }
    ensures write { IsErrOf result Stop.WriteFault → Rose (R.faults report.old) (R.faults report.new) }
{
    let watch = match read_list(alloc, named, limits.bytes, list)? {
        Ok(watch) => watched(alloc, watch),
        Err(bad) => return say(alloc, report, bad.status, bad.line),
    };
    let mut auditor = Auditor::<D>::new(alloc, net, limits, watch)?;
    let mut nothing = QuietSink::new(alloc);
    serve(
        alloc,
        net,
        limits.bytes,
        &mut auditor,
        feed,
        &mut nothing,
        report,
        steps,
    )
}
