//! The command that makes a feed for tests.
ghost use Rattle.std.specs.Prelude.{◌≡◌, ◌≤◌, ◌⊎◌, ℕ, List, [], Option, false, IfOk, OnOk, IsErrOf, is_err};
ghost use Rattle.std.specs.Io.KnownBytes.{Appends};
ghost use Rattle.uo_base.specs.Faults.{Rose};
ghost use Rattle.uo_base.specs.Moved.{AppendsPart};
ghost use Rattle.chain_gen.specs.Generated.{generated};
ghost use Rattle.feed_run.specs.Status.{is_stop};
ghost use Rattle.report_lines.specs.Lines.{whole_line};
ghost use Rattle.node_commands.specs.Generating.{generated_line, generating, stop_of_gen};
ghost use Rattle.node_commands.specs.Runs.{Ran, status_in};

use chain_gen::{GenFault, generate};
use feed_run::{Status, Stop};
use report_lines::{Line, say};
use std::alloc::Global;
use uo_base::{Net, Sink};

/// Stores a generated feed, and then prints its line.
pub fn make_feed<O: Sink, R: Sink>(
    alloc: Global,
    number: u64,
    blocks: u32,
    net: Net,
    out: &mut O,
    report: &mut R,
) -> Result<Status, Stop>
    requires { blocks ≤ 100000 }
    ensures ran { (limit : ℕ) (feed prior watch : Option (List ℕ)) → Ran (generating number blocks net) limit feed feed prior watch
        (R.held report.old) (R.held report.new) (O.held out.old) (O.held out.new) (out.new ≡ out.old) (is_err result) (status_in result) }
    ensures goes_on { IfOk result (λ status. is_stop status ≡ false) }
    ensures read { IsErrOf result Stop.ReadFault → ⊥ }
    ensures write { IsErrOf result Stop.WriteFault → Rose (O.faults out.old) (O.faults out.new) ⊎ Rose (R.faults report.old) (R.faults report.new) }
{
    store_generated(alloc, number, blocks, net, out, report)
}

fn store_generated<O: Sink, R: Sink>(
    alloc: Global,
    number: u64,
    blocks: u32,
    net: Net,
    out: &mut O,
    report: &mut R,
) -> Result<Status, Stop>
    requires { blocks ≤ 100000 }
    ensures status { IfOk result (λ status. status ≡ Status.AllAccepted) }
    ensures sent { OnOk result (Appends (O.held out.old) (O.held out.new) (generated number blocks net)) }
    ensures said { OnOk result (Appends (R.held report.old) (R.held report.new) (whole_line (generated_line number blocks net))) }
    ensures part_sent { AppendsPart (O.held out.old) (O.held out.new) (generated number blocks net) }
    ensures part_said { AppendsPart (R.held report.old) (R.held report.new) (whole_line (generated_line number blocks net)) }
    ensures order { Appends (R.held report.old) (R.held report.new) [] ⊎ Appends (O.held out.old) (O.held out.new) (generated number blocks net) }
    ensures untouched { blocks ≡ 0 → out.new ≡ out.old }
    ensures read { IsErrOf result Stop.ReadFault → ⊥ }
    ensures write { IsErrOf result Stop.WriteFault → Rose (O.faults out.old) (O.faults out.new) ⊎ Rose (R.faults report.old) (R.faults report.new) }
{
    let made = match generate(alloc, number, blocks, net, out) {
        Ok(made) => made,
        Err(fault) => return Err(stop_of(fault)),
    };
    let line = Line::Generated {
        blocks: made.blocks,
        rollbacks: made.rollbacks,
        bytes: made.bytes,
    };
    say(alloc, report, Status::AllAccepted, line)
}

fn stop_of(fault: GenFault) -> Stop
    ensures { result ≡ stop_of_gen fault }
{
    match fault {
        GenFault::WriteFault => Stop::WriteFault,
        GenFault::NoMemory => Stop::NoMemory,
    }
}
