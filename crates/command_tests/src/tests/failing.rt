//! Each call of each port fails in turn, over the first ten blocks of a generated chain, until a run does not make that call.

use super::{FEED, LIST, OUT, Outcome, PLAIN, PRIOR, REPORT, Setup, outcome_of};
use feed_run::Status;
use std::alloc::Global;
use std::process::Abort;
use std::test::Fail;
use uo_digest::Sha512t256;

/// The words of a run, a port that it uses, and the status where that one fails.
struct Case(&'static [&'static str], usize, Status);

const FOLLOW: &[&str] = &["follow", "--net", "regtest"];

const PROVE: &[&str] = &["prove", "--net", "regtest"];

/// The first ten blocks of the chain of three hundred are those of the chain of ten.
const GEN: &[&str] = &["gen", "5", "10", "--net", "regtest"];

const CASES: [Case; 9] = [
    Case(FOLLOW, FEED, Status::ReadFault),
    Case(FOLLOW, OUT, Status::WriteFault),
    Case(FOLLOW, REPORT, Status::WriteFault),
    Case(&["follow", "--from", "s"], PRIOR, Status::ReadFault),
    Case(
        &["follow", "--net", "regtest", "--watch", "w"],
        LIST,
        Status::ReadFault,
    ),
    Case(PROVE, FEED, Status::ReadFault),
    Case(PROVE, OUT, Status::WriteFault),
    Case(PROVE, REPORT, Status::WriteFault),
    Case(GEN, OUT, Status::WriteFault),
];

/// A list of two pieces.
const WATCHED: &[u8] =
    b"5203\n5207\n51515151515151515151515151515151515151515151515151515151515151515151515151515151";

// A run in small pieces, in which this call of a port fails.
fn run_on(
    alloc: Global,
    case: &Case,
    call: Option<u64>,
    feed: &[u8],
    prior: &[u8],
) -> Result<Outcome, Fail> {
    let setup = Setup {
        piece: 64,
        port: case.1,
        call,
        ..PLAIN
    };
    outcome_of::<Sha512t256>(alloc, &setup, case.0, feed, prior, WATCHED)
}

// Whether the run was stopped with this status, and what it wrote are fronts of what a whole run writes.
fn is_stopped(outcome: &Outcome, whole: &Outcome, status: Status) -> bool {
    outcome.status == status
        && whole.report.held().starts_with(outcome.report.held())
        && whole.out.held().starts_with(outcome.out.held())
}

// How many calls of the port a run makes.
fn check_case(
    rt: &impl Abort,
    alloc: Global,
    case: &Case,
    feed: &[u8],
    prior: &[u8],
) -> Result<u64, Fail> {
    let whole = run_on(alloc, case, None, feed, prior)?;
    assert!(rt; whole.status == Status::AllAccepted);
    for call in 0..1_000 {
        let outcome = run_on(alloc, case, Some(call), feed, prior)?;
        if outcome.status == Status::AllAccepted {
            assert!(rt; outcome.report.held() == whole.report.held());
            assert!(rt; outcome.out.held() == whole.out.held());
            return Ok(call);
        }
        assert!(rt; is_stopped(&outcome, &whole, case.2));
    }
    Err("a run that does not make the call".into())
}

#[test]
fn each_call_of_each_port(rt: HostRuntime) -> Result<(), Fail> {
    let alloc = rt.alloc();
    let feed = outcome_of::<Sha512t256>(alloc, &PLAIN, GEN, b"", b"", b"")?.out;
    let state = outcome_of::<Sha512t256>(alloc, &PLAIN, FOLLOW, b"", b"", b"")?.out;
    for case in &CASES {
        let calls = check_case(&rt, alloc, case, feed.held(), state.held())?;
        assert!(&rt; calls >= 2);
    }
    Ok(())
}
