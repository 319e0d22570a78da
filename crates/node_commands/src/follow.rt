//! The command that judges a feed event by event.
ghost use Rattle.std.specs.Prelude.{◌≡◌, ◌≤◌, ◌<◌, ◌^◌, ◌⊎◌, ℕ, List, [], Option, false, IfOk, IsErrOf, is_err};
ghost use Rattle.std.specs.Bool.{OnFalse};
ghost use Rattle.uo_base.specs.Faults.{Rose};
ghost use Rattle.feed_run.specs.Status.{is_stop};
ghost use Rattle.node_commands.specs.Follow.{follow_lines, follow_answer};
ghost use Rattle.node_commands.specs.Following.{following_afresh, following_on};
ghost use Rattle.node_commands.specs.Meaning.{AnyEvents};
ghost use Rattle.node_commands.specs.Runs.{Ran, Serves, UsedRose, status_in};

use crate::follower::Follower;
use crate::inputs::{read_list, watched};
use crate::prior::read_prior;
use crate::serve::serve;
use compact_node::Node;
use feed_run::{Status, Stop};
use report_lines::say;
use std::alloc::Global;
use std::sync::ledger::Ledger;
use uo_base::{Limits, Net, Sink, Source};
use uo_digest::{Digester, Steps};

/// Reports a line for each event before the next is read. Behind the last one it stores the state of the node, and then reports a line for
/// the end. Of a feed that was not read to its end nothing is stored.
pub fn follow<D: Digester, F: Source, O: Sink, R: Sink, L: Ledger>(
    alloc: Global,
    node: Node<D>,
    bytes: u64,
    feed: &mut F,
    out: &mut O,
    report: &mut R,
    steps: &mut Steps<L>,
) -> Result<Status, Stop>
    requires bytes { bytes ≤ 2 ^ 48 }
    requires told { bytes ≡ node.rules.limits.bytes }
    ensures served { Serves AnyEvents (follow_lines D.digest_of node) (λ events. []) (follow_answer D.digest_of node) node.rules.net bytes
        (F.left feed.old) (F.left feed.new) (R.held report.old) (R.held report.new) (O.held out.old) (O.held out.new) (out.new ≡ out.old)
        (is_err result) (status_in result) }
    ensures goes_on { IfOk result (λ status. is_stop status ≡ false) }
    ensures read { IsErrOf result Stop.ReadFault → Rose (F.faults feed.old) (F.faults feed.new) }
    ensures write { IsErrOf result Stop.WriteFault → Rose (O.faults out.old) (O.faults out.new) ⊎ Rose (R.faults report.old) (R.faults report.new) }
{
    let net = node.net();
    let mut follower = Follower::<D>::new(alloc, node);
    serve(alloc, net, bytes, &mut follower, feed, out, report, steps)
}

/// The same by a node from its start, with the watch list that is named, if one is: it is read whole before the feed.
pub fn follow_afresh<D: Digester, F: Source, W: Source, O: Sink, R: Sink, L: Ledger>(
    alloc: Global,
    limits: Limits,
    net: Net,
    named: bool,
    list: &mut W,
    feed: &mut F,
    out: &mut O,
    report: &mut R,
    steps: &mut Steps<L>,
) -> Result<Status, Stop>
    requires leaves { limits.leaves < 2 ^ 40 }
    requires bytes { limits.bytes ≤ 2 ^ 48 }
    ensures ran { (prior : Option (List ℕ)) → Ran (following_afresh D.digest_of limits net named) limits.bytes (F.left feed.old) (F.left feed.new)
        prior (W.left list.old)
        (R.held report.old) (R.held report.new) (O.held out.old) (O.held out.new) (out.new ≡ out.old) (is_err result) (status_in result) }
    ensures goes_on { IfOk result (λ status. is_stop status ≡ false) }
    ensures stays { OnFalse named (list.new ≡ list.old) }
    ensures read { IsErrOf result Stop.ReadFault → Rose (F.faults feed.old) (F.faults feed.new)
        ⊎ UsedRose named (W.faults list.old) (W.faults list.new) }
    ensures write { IsErrOf result Stop.WriteFault → Rose (O.faults out.old) (O.faults out.new) ⊎ Rose (R.faults report.old) (R.faults report.new) }
{
    match read_list(alloc, named, limits.bytes, list)? {
        Ok(watch) => {
            let node = Node::<D>::new(alloc, net, limits, watched(alloc, watch))?;
            follow::<D, F, O, R, L>(alloc, node, limits.bytes, feed, out, report, steps)
        }
        Err(bad) => say(alloc, report, bad.status, bad.line),
    }
}

/// Goes on from the state that is read whole before the feed, with the network and the watch list of that state.
pub fn follow_on<D: Digester, F: Source, P: Source, O: Sink, R: Sink, L: Ledger>(
    alloc: Global,
    limits: Limits,
    prior: &mut P,
    feed: &mut F,
    out: &mut O,
    report: &mut R,
    steps: &mut Steps<L>,
) -> Result<Status, Stop>
    requires leaves { limits.leaves < 2 ^ 40 }
    requires bytes { limits.bytes ≤ 2 ^ 48 }
    ensures ran { (watch : Option (List ℕ)) → Ran (following_on D.digest_of limits) limits.bytes (F.left feed.old) (F.left feed.new)
        (P.left prior.old) watch
        (R.held report.old) (R.held report.new) (O.held out.old) (O.held out.new) (out.new ≡ out.old) (is_err result) (status_in result) }
    ensures goes_on { IfOk result (λ status. is_stop status ≡ false) }
    ensures read { IsErrOf result Stop.ReadFault → Rose (F.faults feed.old) (F.faults feed.new) ⊎ Rose (P.faults prior.old) (P.faults prior.new) }
    ensures write { IsErrOf result Stop.WriteFault → Rose (O.faults out.old) (O.faults out.new) ⊎ Rose (R.faults report.old) (R.faults report.new) }
{
    match read_prior::<D, P, L>(alloc, limits, prior, steps)? {
        Ok(node) => follow::<D, F, O, R, L>(alloc, node, limits.bytes, feed, out, report, steps),
        Err(bad) => say(alloc, report, bad.status, bad.line),
    }
}
