//! The one call that the program makes: all that it does.
ghost use Rattle.std.specs.Prelude.{◌≡◌, ◌≤◌, ◌<◌, ◌^◌, ◌⊎◌, map, false, IfOk, IsErrOf, is_err};
ghost use Rattle.std.specs.Bool.{OnFalse};
ghost use Rattle.std.specs.String.{string_bytes};
ghost use Rattle.uo_base.specs.Faults.{Rose};
ghost use Rattle.feed_run.specs.Status.{is_stop};
ghost use Rattle.node_commands.specs.Commands.{meaning_of};
ghost use Rattle.node_commands.specs.Runs.{Did, Ran, UsedRose, status_in};

use crate::audit::audit;
use crate::check::check;
use crate::follow::{follow_afresh, follow_on};
use crate::generating::make_feed;
use crate::order::order;
use crate::prove::prove;
use crate::recheck::recheck;
use crate::relay::relay;
use crate::ticket::make_ticket;
use crate::upgrading::upgrade_state;
use crate::upgrading_feed::upgrade_feed;
use command_words::{Command, read_words};
use feed_run::{Status, Stop};
use report_lines::{Line, say};
use std::alloc::Global;
use std::sync::ledger::Ledger;
use uo_base::{Limits, Net, Sink, Source};
use uo_digest::{Digester, Steps};

/// Does all that the words ask for.
///
/// `feed`, `prior` and `watch` are the inputs, `out` takes what is stored, and `report` what is printed. A command that
/// has no use for a port leaves it alone. `D` is the digest of the forest, and `steps` counts its calls.
pub fn run<D: Digester, F: Source, P: Source, W: Source, O: Sink, R: Sink, L: Ledger>(
    alloc: Global,
    words: &[String],
    limits: Limits,
    feed: &mut F,
    prior: &mut P,
    watch: &mut W,
    out: &mut O,
    report: &mut R,
    steps: &mut Steps<L>,
) -> Status
    requires leaves { limits.leaves < 2 ^ 40 }
    requires bytes { limits.bytes ≤ 2 ^ 48 }

    // There are inputs, which are the told ones where they are told. The report and the output grow by the whole answer to the words and
    // these inputs, or where a fault or want of memory stops the run by a part of it. Whatever the feed, what `follow` says of its events could be
    // said by a node that holds every output and reads no proof; or `audit` over the same feed shows two different texts with one digest. So it is of
    // what was said since the start where it goes on from a state that it stored. Of a feed in which no proof is forged the answer
    // of `follow` is that of a node that holds every output and judges each proof by them, rollbacks included, with the state that it stores; and of
    // the events before the first forged one it prints the same lines. So it is where it goes on from a prior state to which such a node came by any
    // such events.
    // Where the feed is what a proving node with the same network and leaf limit writes of any events, with proofs in full or lean ones for
    // the watch list that is named, `follow` accepts from the start each block and makes each rollback of it: its lines are that node's
    // `accepted` and `rolledback` lines, in their order, and its status is 0; or past the limit of bytes the first of these lines, and a
    // `stray` behind them where the limit parts a proof from its block.
    // `prove` prints what the proving node says of each event, and stores what that node writes: each block that it accepts, behind its
    // message where it spends from outside, which is lean for the watch list that is named, and each rollback that it makes.
    // `audit` prints what the node says of each event that holds every output, and then what is live and what was issued. At the first event
    // that is forged to that node, which is one with the same network, leaf limit and watch list, it prints two different texts with one digest:
    // one is that of a node of the forest, and the proof in the message digests the other. It judges nothing behind that event.
    // `gen` stores the feed of its number, its count of blocks and its network, and prints how many blocks, rollbacks and bytes it has.
    // `upgrade feed` stores the events of the feed with their messages in version 2, and prints how many events and messages of version 1 there
    // are. The whole answer of `follow` to what it stored, with the same network and watch list, is that to the feed, and of a feed that ends
    // badly the lines of the events are the same. `upgrade state` stores the text of version 2 of each state, and prints how many levels it has.
    // `order` stores the frames of the one path from a block that begins a chain to the tip, among the first blocks of each hash of the feed, and
    // prints how many there are and how many other blocks came; or it prints why there is no path. Over what it stores neither `follow` from its
    // start nor `prove` refuses a block for its link before it has refused another.
    // `recheck` audits the feed, prints no line of an event, and then judges the ticket by all outputs that are live behind it: it is live exactly
    // where it is right, and where the roots accept it and it is not right, two different texts with one digest are printed, the first of the forest.
    // At the first forged event it prints what `audit` shows, and nothing of the ticket. `relay` does what its script says in a world of one bridge
    // and its followers, in which the first follower has the watch list that is named, and prints what comes of each act, by the rules of the relay:
    // a bridge takes the next event of the feed, or none behind the last. Behind them it prints the newest serial of each follower, and its chain,
    // and the chain of the bridge. Each follower is on the branch of its newest serial then. `ticket` stores the ticket of the entry with this number
    // that the prior state keeps on its newest level, and prints how many bytes it has, or that none is kept. Where the state is that of a node that
    // holds every output, after any events of which no proof is forged, the ticket is right there. `check` prints that the output of the ticket in
    // the feed is live exactly where the roots of the prior state's newest level accept it, and else the first reason why not. Where the state is
    // that of such a node, and the ticket is not accepted without being right, it does so exactly where it is right. Where the words are accepted,
    // the watch list or prior state that they name can be used, the feed has no bad frame, and none has more bytes than may be read, the status is 0
    // or 1, or 4 of `audit` and `recheck`, or that of a failed port or want of memory (`complete`). Where one of these stops the run, what an event
    // stores is stored before its line is begun, and all that is to be stored before anything is printed behind the lines of the events; and where
    // the feed fails, the lines of all events that were wholly taken are there, and where a sink fails those of all but the last.
    ensures did { Did (meaning_of D.digest_of limits (map string_bytes words.now)) limits.bytes
        (F.left feed.old) (F.left feed.new) (P.left prior.old) (W.left watch.old)
        (R.held report.old) (R.held report.new) (O.held out.old) (O.held out.new) (out.new ≡ out.old) result }

    // A fault is answered only where a port failed that the words use.
    ensures read { result ≡ Status.ReadFault
        → UsedRose (meaning_of D.digest_of limits (map string_bytes words.now)).uses.feed (F.faults feed.old) (F.faults feed.new)
        ⊎ UsedRose (meaning_of D.digest_of limits (map string_bytes words.now)).uses.prior (P.faults prior.old) (P.faults prior.new)
        ⊎ UsedRose (meaning_of D.digest_of limits (map string_bytes words.now)).uses.watch (W.faults watch.old) (W.faults watch.new) }
    ensures write { result ≡ Status.WriteFault
        → UsedRose (meaning_of D.digest_of limits (map string_bytes words.now)).uses.out (O.faults out.old) (O.faults out.new)
        ⊎ Rose (R.faults report.old) (R.faults report.new) }

    // A port that the words do not use stays as it was.
    ensures feed { OnFalse (meaning_of D.digest_of limits (map string_bytes words.now)).uses.feed (feed.new ≡ feed.old) }
    ensures prior { OnFalse (meaning_of D.digest_of limits (map string_bytes words.now)).uses.prior (prior.new ≡ prior.old) }
    ensures watch { OnFalse (meaning_of D.digest_of limits (map string_bytes words.now)).uses.watch (watch.new ≡ watch.old) }
    ensures out { OnFalse (meaning_of D.digest_of limits (map string_bytes words.now)).uses.out (out.new ≡ out.old) }
    ensures steps { OnFalse (meaning_of D.digest_of limits (map string_bytes words.now)).uses.steps (steps.new ≡ steps.old) }
{
    match run_command::<D, F, P, W, O, R, L>(
        alloc, words, limits, feed, prior, watch, out, report, steps,
    ) {
        Ok(status) => status,
        Err(Stop::ReadFault) => Status::ReadFault,
        Err(Stop::WriteFault) => Status::WriteFault,
        Err(Stop::NoMemory) => Status::NoMemory,
    }
}

fn run_command<D: Digester, F: Source, P: Source, W: Source, O: Sink, R: Sink, L: Ledger>(
    alloc: Global,
    words: &[String],
    limits: Limits,
    feed: &mut F,
    prior: &mut P,
    watch: &mut W,
    out: &mut O,
    report: &mut R,
    steps: &mut Steps<L>,
) -> Result<Status, Stop>
    requires leaves { limits.leaves < 2 ^ 40 }
    requires bytes { limits.bytes ≤ 2 ^ 48 }
    ensures ran { Ran (meaning_of D.digest_of limits (map string_bytes words.now)) limits.bytes
        (F.left feed.old) (F.left feed.new) (P.left prior.old) (W.left watch.old)
        (R.held report.old) (R.held report.new) (O.held out.old) (O.held out.new) (out.new ≡ out.old) (is_err result) (status_in result) }
    ensures goes_on { IfOk result (λ status. is_stop status ≡ false) }
    ensures read { IsErrOf result Stop.ReadFault
        → UsedRose (meaning_of D.digest_of limits (map string_bytes words.now)).uses.feed (F.faults feed.old) (F.faults feed.new)
        ⊎ UsedRose (meaning_of D.digest_of limits (map string_bytes words.now)).uses.prior (P.faults prior.old) (P.faults prior.new)
        ⊎ UsedRose (meaning_of D.digest_of limits (map string_bytes words.now)).uses.watch (W.faults watch.old) (W.faults watch.new) }
    ensures write { IsErrOf result Stop.WriteFault
        → UsedRose (meaning_of D.digest_of limits (map string_bytes words.now)).uses.out (O.faults out.old) (O.faults out.new)
        ⊎ Rose (R.faults report.old) (R.faults report.new) }
    ensures feed { OnFalse (meaning_of D.digest_of limits (map string_bytes words.now)).uses.feed (feed.new ≡ feed.old) }
    ensures prior { OnFalse (meaning_of D.digest_of limits (map string_bytes words.now)).uses.prior (prior.new ≡ prior.old) }
    ensures watch { OnFalse (meaning_of D.digest_of limits (map string_bytes words.now)).uses.watch (watch.new ≡ watch.old) }
    ensures out { OnFalse (meaning_of D.digest_of limits (map string_bytes words.now)).uses.out (out.new ≡ out.old) }
    ensures steps { OnFalse (meaning_of D.digest_of limits (map string_bytes words.now)).uses.steps (steps.new ≡ steps.old) }
{
    match read_words(words) {
        Err(fault) => say(alloc, report, Status::Words, Line::Words(fault.at)),
        Ok(
            Command::Follow {
                net,
                from,
                watch: list,
                ..
            },
        ) => {
            match from {
                Some(_) => {
                    follow_on::<D, F, P, O, R, L>(alloc, limits, prior, feed, out, report, steps)
                }
                None => {
                    let net = net.unwrap_or(Net::Main);
                    let named = list.is_some();
                    follow_afresh::<D, F, W, O, R, L>(
                        alloc, limits, net, named, watch, feed, out, report, steps,
                    )
                }
            }
        }
        Ok(
            Command::Prove {
                net,
                watch: list,
                ..
            },
        ) => prove::<D, F, W, O, R, L>(
            alloc,
            limits,
            net,
            list.is_some(),
            watch,
            feed,
            out,
            report,
            steps,
        ),
        Ok(
            Command::Audit {
                net,
                watch: list,
                ..
            },
        ) => audit::<D, F, W, R, L>(
            alloc,
            limits,
            net,
            list.is_some(),
            watch,
            feed,
            report,
            steps,
        ),
        Ok(
            Command::Gen {
                net,
                number,
                blocks,
                ..
            },
        ) => make_feed(alloc, number, blocks, net, out, report),
        Ok(Command::UpgradeState { .. }) => {
            upgrade_state::<D, P, O, R, L>(alloc, limits, prior, out, report, steps)
        }
        Ok(
            Command::UpgradeFeed {
                net,
                watch: list,
                ..
            },
        ) => upgrade_feed::<D, F, W, O, R, L>(
            alloc,
            limits,
            net,
            list.is_some(),
            watch,
            feed,
            out,
            report,
            steps,
        ),
        Ok(Command::Order { net, tip, .. }) => order::<F, O, R, L>(
            alloc,
            net,
            limits.bytes,
            tip,
            feed,
            out,
            report,
            steps,
        ),
        Ok(Command::Ticket { number, .. }) => {
            make_ticket::<D, P, O, R, L>(alloc, limits, number, prior, out, report, steps)
        }
        Ok(Command::Check { .. }) => {
            check::<D, F, P, R, L>(alloc, limits, prior, feed, report, steps)
        }
        Ok(
            Command::Recheck {
                net,
                watch: list,
                ..
            },
        ) => recheck::<D, F, P, W, R, L>(
            alloc,
            limits,
            net,
            list.is_some(),
            prior,
            watch,
            feed,
            report,
            steps,
        ),
        Ok(
            Command::Relay {
                net,
                followers,
                from,
                watch: list,
                ..
            },
        ) => relay::<D, F, P, W, R, L>(
            alloc,
            limits,
            followers,
            net,
            from.is_some(),
            list.is_some(),
            prior,
            watch,
            feed,
            report,
            steps,
        ),
    }
}
