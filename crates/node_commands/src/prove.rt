//! The command that proves the blocks of a feed.
ghost use Rattle.std.specs.Prelude.{◌≡◌, ◌≤◌, ◌<◌, ◌^◌, ◌⊎◌, ℕ, List, Option, false, IfOk, IsErrOf, is_err};
ghost use Rattle.uo_base.specs.Faults.{Rose};
ghost use Rattle.feed_run.specs.Status.{is_stop};
ghost use Rattle.node_commands.specs.Prover.{proving};
ghost use Rattle.node_commands.specs.Runs.{Ran, UsedRose, status_in};
ghost use Rattle.std.specs.Bool.{OnFalse};

use crate::inputs::read_list;
use crate::prover::Prover;
use crate::serve::serve;
use feed_run::{Status, Stop};
use report_lines::say;
use std::alloc::Global;
use std::sync::ledger::Ledger;
use uo_base::{Limits, Net, Sink, Source};
use uo_digest::{Digester, Steps};

/// Judges each event by a node that holds every output, and stores what a compact node needs: each accepted block behind its proof, which is
/// lean where a watch list is named, and each rollback that was made. An event's frames are stored before its line is reported. The list is read
/// whole before the feed.
pub fn prove<D: Digester, F: Source, W: Source, O: Sink, R: Sink, L: Ledger>(
    alloc: Global,
    limits: Limits,
    net: Net,
    named: bool,
    list: &mut W,
    feed: &mut F,
    out: &mut O,
    report: &mut R,
    steps: &mut Steps<L>,
) -> Result<Status, Stop>
    requires leaves { limits.leaves < 2 ^ 40 }
    requires bytes { limits.bytes ≤ 2 ^ 48 }
    ensures ran { (prior : Option (List ℕ)) → Ran (proving D.digest_of limits net named) limits.bytes (F.left feed.old) (F.left feed.new) prior
        (W.left list.old)
        (R.held report.old) (R.held report.new) (O.held out.old) (O.held out.new) (out.new ≡ out.old) (is_err result) (status_in result) }
    ensures goes_on { IfOk result (λ status. is_stop status ≡ false) }
    ensures stays { OnFalse named (list.new ≡ list.old) }
    ensures read { IsErrOf result Stop.ReadFault → Rose (F.faults feed.old) (F.faults feed.new)
        ⊎ UsedRose named (W.faults list.old) (W.faults list.new) }
    ensures write { IsErrOf result Stop.WriteFault → Rose (O.faults out.old) (O.faults out.new) ⊎ Rose (R.faults report.old) (R.faults report.new) }
{
    let watch = match read_list(alloc, named, limits.bytes, list)? {
        Ok(watch) => watch,
        Err(bad) => return say(alloc, report, bad.status, bad.line),
    };
    let mut prover = Prover::<D>::new(alloc, net, limits, watch)?;
    serve(
        alloc,
        net,
        limits.bytes,
        &mut prover,
        feed,
        out,
        report,
        steps,
    )
}
