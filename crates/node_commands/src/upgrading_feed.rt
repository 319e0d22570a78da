//! The command that writes the messages of a feed in the version that is written now.
ghost use Rattle.std.specs.Prelude.{◌≡◌, ◌≤◌, ◌<◌, ◌^◌, ◌⊎◌, ℕ, List, Option, false, IfOk, IsErrOf, is_err};
ghost use Rattle.std.specs.Bool.{OnFalse};
ghost use Rattle.uo_base.specs.Faults.{Rose};
ghost use Rattle.feed_run.specs.Status.{is_stop};
ghost use Rattle.node_commands.specs.Runs.{Ran, UsedRose, status_in};
ghost use Rattle.node_commands.specs.UpgradingFeed.{upgrading_feed};

use crate::inputs::{read_list, watched};
use crate::serve::serve;
use compact_node::Node;
use feed_run::{Status, Stop};
use feed_upgrade::Upgrader;
use report_lines::say;
use std::alloc::Global;
use std::sync::ledger::Ledger;
use uo_base::{Limits, Net, Sink, Source};
use uo_digest::{Digester, Steps};

/// Follows a feed by a node from its start, with the watch list that is named, if one is: it is read whole before the feed. The frames of each
/// event are stored, with its message in version 2, before the next is read. Behind the last one it reports how many events there were, and
/// how many messages of version 1.
pub fn upgrade_feed<D: Digester, F: Source, W: Source, O: Sink, R: Sink, L: Ledger>(
    alloc: Global,
    limits: Limits,
    net: Net,
    named: bool,
    list: &mut W,
    feed: &mut F,
    out: &mut O,
    report: &mut R,
    steps: &mut Steps<L>,
) -> Result<Status, Stop>
    requires leaves { limits.leaves < 2 ^ 40 }
    requires bytes { limits.bytes ≤ 2 ^ 48 }
    ensures ran { (prior : Option (List ℕ)) → Ran (upgrading_feed D.digest_of limits net named) limits.bytes (F.left feed.old) (F.left feed.new) prior
        (W.left list.old)
        (R.held report.old) (R.held report.new) (O.held out.old) (O.held out.new) (out.new ≡ out.old) (is_err result) (status_in result) }
    ensures goes_on { IfOk result (λ status. is_stop status ≡ false) }
    ensures stays { OnFalse named (list.new ≡ list.old) }
    ensures read { IsErrOf result Stop.ReadFault → Rose (F.faults feed.old) (F.faults feed.new)
        ⊎ UsedRose named (W.faults list.old) (W.faults list.new) }
    ensures write { IsErrOf result Stop.WriteFault → Rose (O.faults out.old) (O.faults out.new) ⊎ Rose (R.faults report.old) (R.faults report.new) }
{
    match read_list(alloc, named, limits.bytes, list)? {
        Ok(watch) => {
            let node = Node::<D>::new(alloc, net, limits, watched(alloc, watch))?;
            let mut upgrader = Upgrader::<D>::new(alloc, node);
            serve(
                alloc,
                net,
                limits.bytes,
                &mut upgrader,
                feed,
                out,
                report,
                steps,
            )
        }
        Err(bad) => say(alloc, report, bad.status, bad.line),
    }
}
