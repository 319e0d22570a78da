//! The prior bytes, which are read whole before the feed.
ghost use Rattle.std.specs.Prelude.{◌≡◌, ◌≤◌, ◌<◌, ◌^◌, length, false, IfOk, IfErr, IsErrOf};
ghost use Rattle.uo_base.specs.Faults.{Rose};
ghost use Rattle.feed_run.specs.Status.{is_stop};
ghost use Rattle.node_commands.specs.PriorText.{IsPriorRead};
ghost use Rattle.node_commands.specs.Starting.{IsStart, IsStartOf};

use crate::bad_input::BadInput;
use compact_node::Node;
use feed_run::{Status, Stop};
use report_lines::Line;
use state_text::StateFault;
use std::alloc::Global;
use std::sync::ledger::Ledger;
use uo_base::{InputFault, Limits, Source, read_all};
use uo_digest::{Digester, Steps};

/// Reads the prior bytes, of which there may be at most `limit`.
pub fn read_text<P: Source>(
    alloc: Global,
    limit: u64,
    source: &mut P,
) -> Result<Result<Vec<u8>, BadInput>, Stop>
    ensures text { IfOk result (λ text. IsPriorRead limit (P.left source.old) text) }
    ensures goes_on { IfOk result (λ text. IfErr text (λ bad. is_stop bad.status ≡ false)) }
    ensures read { IsErrOf result Stop.ReadFault → Rose (P.faults source.old) (P.faults source.new) }
    ensures write { IsErrOf result Stop.WriteFault → ⊥ }
{
    match read_all(alloc, source, limit) {
        Ok(text) => Ok(Ok(text)),
        Err(InputFault::Limit) => Ok(Err(BadInput {
            status: Status::InputLimit,
            line: Line::LimitPrior(limit),
        })),
        Err(InputFault::ReadFault) => Err(Stop::ReadFault),
        Err(InputFault::NoMemory) => Err(Stop::NoMemory),
    }
}

/// Reads the prior state, of at most `limits.bytes` bytes.
pub fn read_prior<D: Digester, P: Source, L: Ledger>(
    alloc: Global,
    limits: Limits,
    source: &mut P,
    steps: &mut Steps<L>,
) -> Result<Result<Node<D>, BadInput>, Stop>
    requires leaves { limits.leaves < 2 ^ 40 }
    requires bytes { limits.bytes ≤ 2 ^ 48 }
    ensures begun { IfOk result (IsStartOf D.digest_of limits (P.left source.old)) }
    ensures told { IfOk result (λ begun. IfOk begun (λ node. limits.bytes ≡ node.rules.limits.bytes)) }
    ensures goes_on { IfOk result (λ begun. IfErr begun (λ bad. is_stop bad.status ≡ false)) }
    ensures read { IsErrOf result Stop.ReadFault → Rose (P.faults source.old) (P.faults source.new) }
    ensures write { IsErrOf result Stop.WriteFault → ⊥ }
{
    match read_text(alloc, limits.bytes, source)? {
        Ok(text) => prior_in::<D, L>(alloc, &text, limits, steps),
        Err(bad) => Ok(Err(bad)),
    }
}

// The node of a text.
fn prior_in<D: Digester, L: Ledger>(
    alloc: Global,
    text: &[u8],
    limits: Limits,
    steps: &mut Steps<L>,
) -> Result<Result<Node<D>, BadInput>, Stop>
    requires leaves { limits.leaves < 2 ^ 40 }
    requires bytes { limits.bytes ≤ 2 ^ 48 }
    requires short { length text.now ≤ limits.bytes }
    ensures begun { IfOk result (IsStart D.digest_of limits text.now) }
    ensures told { IfOk result (λ begun. IfOk begun (λ node. limits.bytes ≡ node.rules.limits.bytes)) }
    ensures goes_on { IfOk result (λ begun. IfErr begun (λ bad. is_stop bad.status ≡ false)) }
    ensures fault { IfErr result (λ stop. stop ≡ Stop.NoMemory) }
{
    match Node::<D>::read_state(alloc, text, limits, steps) {
        Ok(node) => {
            let _chain = node.chain();
            Ok(Ok(node))
        }
        Err(StateFault::NotAState) => Ok(Err(BadInput {
            status: Status::Prior,
            line: Line::PriorForm,
        })),
        Err(StateFault::Version(version)) => Ok(Err(BadInput {
            status: Status::Prior,
            line: Line::PriorVersion(version),
        })),
        Err(StateFault::NoMemory) => Err(Stop::NoMemory),
    }
}
