//! Inputs that are read whole, before the feed.
ghost use Rattle.std.specs.Prelude.{◌≡◌, true, false, [], IfOk, IfErr, IsErrOf};
ghost use Rattle.std.specs.Bool.{OnFalse};
ghost use Rattle.uo_base.specs.Faults.{Rose};
ghost use Rattle.bridge_prover.specs.Watched.{scripts_of};
ghost use Rattle.feed_run.specs.Status.{is_stop};
ghost use Rattle.node_commands.specs.Runs.{UsedRose};
ghost use Rattle.node_commands.specs.Watching.{IsListOf, scripts_in};

use crate::bad_input::BadInput;
use feed_run::{Status, Stop};
use leaf_cache::{Watch, WatchFault};
use report_lines::Line;
use std::alloc::Global;
use uo_base::{InputFault, Source, read_all};

/// Reads the watch list, of at most `limit` bytes, where one is named. Where none is, the source stays as it was.
pub fn read_list<W: Source>(
    alloc: Global,
    named: bool,
    limit: u64,
    source: &mut W,
) -> Result<Result<Option<Watch>, BadInput>, Stop>
    ensures list { IfOk result (λ list. IsListOf named limit (W.left source.old) list) }
    ensures goes_on { IfOk result (λ list. IfErr list (λ bad. is_stop bad.status ≡ false)) }
    ensures stays { OnFalse named (source.new ≡ source.old) }
    ensures read { IsErrOf result Stop.ReadFault → UsedRose named (W.faults source.old) (W.faults source.new) }
    ensures write { IsErrOf result Stop.WriteFault → ⊥ }
{
    if !named {
        return Ok(Ok(None));
    }
    match read_all(alloc, source, limit) {
        Ok(text) => list_in(alloc, &text),
        Err(InputFault::Limit) => Ok(Err(BadInput {
            status: Status::InputLimit,
            line: Line::LimitWatch(limit),
        })),
        Err(InputFault::ReadFault) => Err(Stop::ReadFault),
        Err(InputFault::NoMemory) => Err(Stop::NoMemory),
    }
}

// The list of a text.
fn list_in(alloc: Global, text: &[u8]) -> Result<Result<Option<Watch>, BadInput>, Stop>
    ensures list { IfOk result (λ list. list ≡ scripts_in text.now) }
    ensures goes_on { IfOk result (λ list. IfErr list (λ bad. is_stop bad.status ≡ false)) }
    ensures fault { IfErr result (λ stop. stop ≡ Stop.NoMemory) }
{
    match Watch::from_list(alloc, text) {
        Ok(watch) => Ok(Ok(Some(watch))),
        Err(WatchFault::Line(number)) => Ok(Err(BadInput {
            status: Status::WatchList,
            line: Line::Watch(number),
        })),
        Err(WatchFault::NoMemory) => Err(Stop::NoMemory),
    }
}

/// The scripts of a list that may be named: none where there is none.
pub fn watched(alloc: Global, list: Option<Watch>) -> Watch
    ensures { result ≡ scripts_of list }
{
    match list {
        Some(watch) => watch,
        None => Watch::empty(alloc),
    }
}
