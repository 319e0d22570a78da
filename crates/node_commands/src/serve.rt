//! The run of a command over a feed.
ghost use Rattle.std.specs.Prelude.{◌≡◌, ◌≤◌, ◌^◌, ◌⊎◌, [], false, IfOk, OnOk, IsErrOf, is_err};
ghost use Rattle.std.specs.Bool.{OnFalse};
ghost use Rattle.std.specs.Io.KnownBytes.{Appends};
ghost use Rattle.uo_base.specs.Faults.{Rose};
ghost use Rattle.uo_base.specs.Moved.{AppendsPart};
ghost use Rattle.feed_run.specs.Machine.{said_by, sent_by, Wants};
ghost use Rattle.node_commands.specs.Answers.{served_feed, bad_end};
ghost use Rattle.node_commands.specs.Runs.{Serves, status_in};
ghost use Rattle.feed_run.specs.Status.{is_stop};

use feed_frame::FeedFault;
use feed_run::{EventHandler, Status, Stop, handle_feed};
use report_lines::{Line, say};
use std::alloc::Global;
use std::sync::ledger::Ledger;
use uo_base::{Net, Sink, Source, put_all};
use uo_digest::Steps;

/// Answers a feed: the pieces of each event, and then what the command says at its end, or why the feed ended before.
pub fn serve<C: EventHandler, F: Source, O: Sink, R: Sink, L: Ledger>(
    alloc: Global,
    net: Net,
    bytes: u64,
    command: &mut C,
    feed: &mut F,
    out: &mut O,
    report: &mut R,
    steps: &mut Steps<L>,
) -> Result<Status, Stop>
    requires bytes { bytes ≤ 2 ^ 48 }
    requires fresh { C.machine.count (C.state command.old) ≡ 0 }
    ensures served { Serves (Wants C.machine (C.state command.old)) (said_by C.machine (C.state command.old))
        (sent_by C.machine (C.state command.old)) (served_feed C.machine (C.state command.old) net bytes) net bytes
        (F.left feed.old) (F.left feed.new) (R.held report.old) (R.held report.new) (O.held out.old) (O.held out.new) (out.new ≡ out.old)
        (is_err result) (status_in result) }
    ensures goes_on { IfOk result (λ status. is_stop status ≡ false) }
    ensures read { IsErrOf result Stop.ReadFault → Rose (F.faults feed.old) (F.faults feed.new) }
    ensures write { IsErrOf result Stop.WriteFault → Rose (O.faults out.old) (O.faults out.new) ⊎ Rose (R.faults report.old) (R.faults report.new) }
    ensures steps { OnFalse C.digests (steps.new ≡ steps.old) }
{
    let ending = handle_feed(alloc, net, bytes, command, feed, out, report, steps)?;
    match bad_end(ending) {
        Some((status, line)) => say(alloc, report, status, line),
        None => finish(alloc, command, out, report),
    }
}

// Writes what a command stores and prints at the end of a feed.
fn finish<C: EventHandler, O: Sink, R: Sink>(
    alloc: Global,
    command: &C,
    out: &mut O,
    report: &mut R,
) -> Result<Status, Stop>
    ensures status { IfOk result (λ status. status ≡ (C.machine.at_end (C.state command.now)).status) }
    ensures goes_on { IfOk result (λ status. is_stop status ≡ false) }
    ensures said { OnOk result (Appends (R.held report.old) (R.held report.new) (C.machine.at_end (C.state command.now)).report) }
    ensures sent { OnOk result (Appends (O.held out.old) (O.held out.new) (C.machine.at_end (C.state command.now)).out) }
    ensures part_said { AppendsPart (R.held report.old) (R.held report.new) (C.machine.at_end (C.state command.now)).report }
    ensures part_sent { AppendsPart (O.held out.old) (O.held out.new) (C.machine.at_end (C.state command.now)).out }
    ensures untouched { (C.machine.at_end (C.state command.now)).out ≡ [] → out.new ≡ out.old }
    ensures order { Appends (R.held report.old) (R.held report.new) []
        ⊎ Appends (O.held out.old) (O.held out.new) (C.machine.at_end (C.state command.now)).out }
    ensures read { IsErrOf result Stop.ReadFault → ⊥ }
    ensures write { IsErrOf result Stop.WriteFault → Rose (O.faults out.old) (O.faults out.new) ⊎ Rose (R.faults report.old) (R.faults report.new) }
    ensures later_out { O.faults out.old ≤ O.faults out.new }
    ensures later_report { R.faults report.old ≤ R.faults report.new }
{
    let mut said = Vec::new(alloc);
    let status = command.end(out, &mut said)?;
    put_all(report, &said)?;
    Ok(status)
}

/// The status and the last line of a run over a feed that was not read to its end.
pub fn bad_end(ending: Option<FeedFault>) -> Option<(Status, Line)>
    ensures { result ≡ bad_end ending }
{
    match ending? {
        FeedFault::Magic { offset, found } => {
            Some((Status::Frame, Line::FrameMagic { offset, found }))
        }
        FeedFault::Cut { offset, missing } => {
            Some((Status::Frame, Line::FrameCut { offset, missing }))
        }
        FeedFault::TooLong { offset, length } => {
            Some((Status::Frame, Line::FrameLong { offset, length }))
        }
        FeedFault::BadRollback { offset, length } => {
            Some((Status::Frame, Line::FrameRollback { offset, length }))
        }
        FeedFault::Limit { bytes } => Some((Status::InputLimit, Line::LimitFeed(bytes))),
        FeedFault::ReadFault | FeedFault::NoMemory => None,
    }
}
