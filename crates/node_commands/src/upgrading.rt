//! The command that writes a state in the version that is written now.
ghost use Rattle.std.specs.Prelude.{◌≡◌, ◌≤◌, ◌<◌, ◌^◌, ◌⊎◌, ℕ, List, [], Option, false, suc, length, IfOk, OnOk, IsErrOf, is_err};
ghost use Rattle.std.specs.Io.KnownBytes.{Appends};
ghost use Rattle.uo_base.specs.Faults.{Rose};
ghost use Rattle.uo_base.specs.Moved.{AppendsPart};
ghost use Rattle.compact_node.specs.State.{stored_text};
ghost use Rattle.feed_run.specs.Status.{is_stop};
ghost use Rattle.report_lines.specs.declared.line.Line.TheVariants.{UpgradedState};
ghost use Rattle.report_lines.specs.Lines.{whole_line};
ghost use Rattle.node_commands.specs.Runs.{Ran, status_in};
ghost use Rattle.node_commands.specs.Upgrading.{upgrading_state};

use crate::prior::read_prior;
use compact_node::Node;
use feed_run::{Status, Stop};
use report_lines::{Line, say};
use std::alloc::Global;
use std::sync::ledger::Ledger;
use uo_base::{Limits, Sink, Source};
use uo_digest::{Digester, Steps};

/// Stores the prior state, which is read whole, in the version that is written, and then prints how many levels it has.
pub fn upgrade_state<D: Digester, P: Source, O: Sink, R: Sink, L: Ledger>(
    alloc: Global,
    limits: Limits,
    prior: &mut P,
    out: &mut O,
    report: &mut R,
    steps: &mut Steps<L>,
) -> Result<Status, Stop>
    requires leaves { limits.leaves < 2 ^ 40 }
    requires bytes { limits.bytes ≤ 2 ^ 48 }
    ensures ran { (feed watch : Option (List ℕ)) → Ran (upgrading_state D.digest_of limits) limits.bytes feed feed (P.left prior.old) watch
        (R.held report.old) (R.held report.new) (O.held out.old) (O.held out.new) (out.new ≡ out.old) (is_err result) (status_in result) }
    ensures goes_on { IfOk result (λ status. is_stop status ≡ false) }
    ensures read { IsErrOf result Stop.ReadFault → Rose (P.faults prior.old) (P.faults prior.new) }
    ensures write { IsErrOf result Stop.WriteFault → Rose (O.faults out.old) (O.faults out.new) ⊎ Rose (R.faults report.old) (R.faults report.new) }
{
    match read_prior::<D, P, L>(alloc, limits, prior, steps)? {
        Ok(node) => store_upgraded(alloc, &node, out, report),
        Err(bad) => say(alloc, report, bad.status, bad.line),
    }
}

// Stores the state of a node, and then prints how many levels it has.
fn store_upgraded<D: Digester, O: Sink, R: Sink>(
    alloc: Global,
    node: &Node<D>,
    out: &mut O,
    report: &mut R,
) -> Result<Status, Stop>
    ensures status { IfOk result (λ status. status ≡ Status.AllAccepted) }
    ensures sent { OnOk result (Appends (O.held out.old) (O.held out.new) (stored_text node.now)) }
    ensures said { OnOk result (Appends (R.held report.old) (R.held report.new) (whole_line (UpgradedState (suc (length node.now.older))))) }
    ensures part_sent { AppendsPart (O.held out.old) (O.held out.new) (stored_text node.now) }
    ensures part_said { AppendsPart (R.held report.old) (R.held report.new) (whole_line (UpgradedState (suc (length node.now.older)))) }
    ensures order { Appends (R.held report.old) (R.held report.new) [] ⊎ Appends (O.held out.old) (O.held out.new) (stored_text node.now) }
    ensures untouched { stored_text node.now ≡ [] → out.new ≡ out.old }
    ensures read { IsErrOf result Stop.ReadFault → ⊥ }
    ensures write { IsErrOf result Stop.WriteFault → Rose (O.faults out.old) (O.faults out.new) ⊎ Rose (R.faults report.old) (R.faults report.new) }
{
    // That there are at most a hundred older levels.
    let _chain = node.chain();
    node.write_state(out)?;
    let levels = node.kept_levels() + 1;
    say(
        alloc,
        report,
        Status::AllAccepted,
        Line::UpgradedState(levels),
    )
}
