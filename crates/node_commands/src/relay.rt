//! The command that relays blocks from a bridge to its followers, by a script.
ghost use Rattle.std.specs.Prelude.{◌≡◌, ◌≤◌, ◌<◌, ◌^◌, ◌⊎◌, ◌-◌, ◌∷◌, ℕ, List, [], Option, false, replicate, IfOk, IfErr, OnOk, IsErrOf, is_err};
ghost use Rattle.std.specs.Bool.{OnFalse};
ghost use Rattle.std.specs.Io.KnownBytes.{Appends};
ghost use Rattle.uo_base.specs.Faults.{Rose};
ghost use Rattle.uo_base.specs.Moved.{AppendsPart};
ghost use Rattle.feed_run.specs.Machine.{said_by};
ghost use Rattle.feed_run.specs.Status.{is_stop};
ghost use Rattle.node_commands.specs.Relayer.{relay_last, relay_machine, relayed_feed};
ghost use Rattle.node_commands.specs.Meaning.{AnyEvents};
ghost use Rattle.node_commands.specs.Relaying.{IsScriptText, lists_for, read_as, relaying};
ghost use Rattle.node_commands.specs.Runs.{NoPort, Ran, Serves, UsedRose, status_in};

use crate::bad_input::BadInput;
use crate::inputs::{read_list, watched};
use crate::prior::read_text;
use crate::relayer::Relayer;
use feed_frame::FeedFault;
use feed_run::{Status, Stop, handle_feed};
use leaf_cache::Watch;
use relay_core::World;
use relay_script::read_script;
use report_lines::{Line, say};
use std::alloc::Global;
use std::sync::ledger::Ledger;
use uo_base::{Limits, Net, NoMemory, QuietSink, Sink, Source, put_all};
use uo_digest::{Digester, Steps};

/// Runs the script that is named, or the empty one, in a world of one bridge and so many followers, of which the first watches the scripts of the
/// list that is named, if one is. List and script are read whole before the feed, of which each act of the bridge takes the next event. Of the feed
/// behind the script only the frames are read.
pub fn relay<D: Digester, F: Source, P: Source, W: Source, R: Sink, L: Ledger>(
    alloc: Global,
    limits: Limits,
    followers: u32,
    net: Net,
    scripted: bool,
    listed: bool,
    prior: &mut P,
    list: &mut W,
    feed: &mut F,
    report: &mut R,
    steps: &mut Steps<L>,
) -> Result<Status, Stop>
    requires leaves { limits.leaves < 2 ^ 40 }
    requires bytes { limits.bytes ≤ 2 ^ 48 }
    requires some { 1 ≤ followers }
    ensures ran { (out : Option (List ℕ)) → Ran (relaying D.digest_of limits followers net scripted listed) limits.bytes
        (F.left feed.old) (F.left feed.new) (P.left prior.old) (W.left list.old)
        (R.held report.old) (R.held report.new) out out NoPort (is_err result) (status_in result) }
    ensures goes_on { IfOk result (λ status. is_stop status ≡ false) }
    ensures prior_stays { OnFalse scripted (prior.new ≡ prior.old) }
    ensures list_stays { OnFalse listed (list.new ≡ list.old) }
    ensures read { IsErrOf result Stop.ReadFault
        → Rose (F.faults feed.old) (F.faults feed.new) ⊎ UsedRose scripted (P.faults prior.old) (P.faults prior.new)
        ⊎ UsedRose listed (W.faults list.old) (W.faults list.new) }
    ensures write { IsErrOf result Stop.WriteFault → Rose (R.faults report.old) (R.faults report.new) }
{
    let watch = match read_list(alloc, listed, limits.bytes, list)? {
        Ok(watch) => watched(alloc, watch),
        Err(bad) => return say(alloc, report, bad.status, bad.line),
    };
    let text = match script_text(alloc, scripted, limits.bytes, prior)? {
        Ok(text) => text,
        Err(bad) => return say(alloc, report, bad.status, bad.line),
    };
    let script = match read_script(text.as_slice()) {
        Ok(script) => script,
        Err(fault) => return say(alloc, report, Status::Prior, Line::Script(fault.line)),
    };
    let lists = lists_for(alloc, followers, watch)?;
    let world = World::<D>::new(alloc, net, limits, lists)?;
    let mut relayer = Relayer::new(alloc, world, script);
    serve_script(alloc, net, limits.bytes, &mut relayer, feed, report, steps)
}

// Answers a feed: the lines of the acts that each event makes, and then what comes last.
fn serve_script<D: Digester, F: Source, R: Sink, L: Ledger>(
    alloc: Global,
    net: Net,
    bytes: u64,
    relayer: &mut Relayer<'_, D>,
    feed: &mut F,
    report: &mut R,
    steps: &mut Steps<L>,
) -> Result<Status, Stop>
    requires { bytes ≤ 2 ^ 48 }
    ensures served { (out : Option (List ℕ))
        → Serves AnyEvents (said_by (relay_machine D.digest_of) relayer.old) (λ events. []) (relayed_feed D.digest_of relayer.old net bytes) net
        bytes
        (F.left feed.old) (F.left feed.new) (R.held report.old) (R.held report.new) out out NoPort (is_err result) (status_in result) }
    ensures goes_on { IfOk result (λ status. is_stop status ≡ false) }
    ensures read { IsErrOf result Stop.ReadFault → Rose (F.faults feed.old) (F.faults feed.new) }
    ensures write { IsErrOf result Stop.WriteFault → Rose (R.faults report.old) (R.faults report.new) }
{
    let mut nothing = QuietSink::new(alloc);
    let ending = handle_feed(
        alloc,
        net,
        bytes,
        relayer,
        feed,
        &mut nothing,
        report,
        steps,
    )?;
    write_last(alloc, relayer, ending, report, steps)
}

// Writes what comes last.
fn write_last<D: Digester, R: Sink, L: Ledger>(
    alloc: Global,
    relayer: &mut Relayer<'_, D>,
    ending: Option<FeedFault>,
    report: &mut R,
    steps: &mut Steps<L>,
) -> Result<Status, Stop>
    ensures status { IfOk result (λ status. status ≡ (relay_last D.digest_of relayer.old ending).status) }
    ensures goes_on { IfOk result (λ status. is_stop status ≡ false) }
    ensures said { OnOk result (Appends (R.held report.old) (R.held report.new) (relay_last D.digest_of relayer.old ending).report) }
    ensures part { AppendsPart (R.held report.old) (R.held report.new) (relay_last D.digest_of relayer.old ending).report }
    ensures read { IsErrOf result Stop.ReadFault → ⊥ }
    ensures write { IsErrOf result Stop.WriteFault → Rose (R.faults report.old) (R.faults report.new) }
    ensures later { R.faults report.old ≤ R.faults report.new }
{
    let mut said = Vec::new(alloc);
    let status = relayer.finish(ending, &mut said, steps)?;
    put_all(report, &said)?;
    Ok(status)
}

// What each follower watches: the first what is listed, and the others nothing.
fn lists_for(alloc: Global, followers: u32, first: Watch) -> Result<Vec<Watch>, NoMemory>
    requires { 1 ≤ followers }
    ensures { IfOk result (λ lists. lists.items ≡ lists_for followers first) }
{
    let mut lists = Vec::new(alloc);
    lists.push(first)?;
    for _ in 0..followers - 1 {
        lists.push(Watch::empty(alloc))?;
    }
    Ok(lists)
}

// Reads the script that is named, of at most `limit` bytes. Where none is, it is empty, and the source stays as it was.
fn script_text<P: Source>(
    alloc: Global,
    named: bool,
    limit: u64,
    source: &mut P,
) -> Result<Result<Vec<u8>, BadInput>, Stop>
    ensures text { IfOk result (λ read. IsScriptText named limit (P.left source.old) (read_as (λ text. text.items) read)) }
    ensures goes_on { IfOk result (λ read. IfErr read (λ bad. is_stop bad.status ≡ false)) }
    ensures stays { OnFalse named (source.new ≡ source.old) }
    ensures read { IsErrOf result Stop.ReadFault → UsedRose named (P.faults source.old) (P.faults source.new) }
    ensures write { IsErrOf result Stop.WriteFault → ⊥ }
{
    if named {
        read_text(alloc, limit, source)
    } else {
        Ok(Ok(Vec::new(alloc)))
    }
}
