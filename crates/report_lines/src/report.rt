//! Writing lines to the report.
ghost use Rattle.std.specs.Prelude.{◌≡◌, ◌≤◌, ◌++◌, IfOk, OnOk, OnErr, IsErrOf};
ghost use Rattle.std.specs.String.{string_bytes};
ghost use Rattle.std.specs.Io.KnownBytes.{Appends};
ghost use Rattle.uo_base.specs.Faults.{Rose};
ghost use Rattle.uo_base.specs.Moved.{AppendsPart};
ghost use Rattle.report_lines.specs.Lines.{whole_line};

use crate::accepted::push_accepted;
use crate::line::Line;
use block_rules::Verdict;
use feed_run::{Status, Stop};
use std::alloc::{AllocError, Global};
use uo_base::{NoMemory, Sink, put_all};

/// The room that a line is given at first, in bytes: as long as most lines are.
const ROOM: usize = 128;

// A line with its end.
fn text_of(alloc: Global, line: Line) -> Result<String, AllocError>
    ensures { IfOk result (λ text. string_bytes text ≡ whole_line line) }
{
    let mut text = String::with_capacity(alloc, ROOM)?;
    writeln!(text, "{line}")?;
    Ok(text)
}

// Appends a line that is made first, in room of its own: what was written of a line that fails could not be told from the text before it.
fn push_formatted(alloc: Global, line: Line, out: &mut Vec<u8>) -> Result<(), NoMemory>
    ensures ok { OnOk result (out.new.items ≡ out.old.items ++ whole_line line) }
    ensures err { OnErr result (out.new.items ≡ out.old.items) }
{
    let text = text_of(alloc, line)?;
    out.extend_from_slice(text.as_bytes())?;
    Ok(())
}

/// Appends a line, with the byte that ends it. Where there is no memory, the text stays as it was.
pub fn push_line(alloc: Global, line: Line, out: &mut Vec<u8>) -> Result<(), NoMemory>
    ensures ok { OnOk result (out.new.items ≡ out.old.items ++ whole_line line) }
    ensures err { OnErr result (out.new.items ≡ out.old.items) }
{
    match line {
        Line::Verdict(verdict) => line_of(alloc, &verdict, out),
        _ => push_formatted(alloc, line, out),
    }
}

/// Appends the line of a verdict, with the byte that ends it. Where there is no memory, the text stays as it was. It is `push_line` at
/// a verdict.
pub fn line_of(alloc: Global, verdict: &Verdict, out: &mut Vec<u8>) -> Result<(), NoMemory>
    ensures ok { OnOk result (out.new.items ≡ out.old.items ++ whole_line (Line.Verdict verdict.now)) }
    ensures err { OnErr result (out.new.items ≡ out.old.items) }
{
    match verdict {
        Verdict::Accepted {
            height,
            hash,
            leaves,
        } => push_accepted(*height, hash, *leaves, out),
        _ => push_formatted(alloc, Line::Verdict(*verdict), out),
    }
}

/// Writes one line, or a part of it where the run has to stop.
pub fn put_line<R: Sink>(alloc: Global, report: &mut R, line: Line) -> Result<(), Stop>
    ensures whole { OnOk result (Appends (R.held report.old) (R.held report.new) (whole_line line)) }
    ensures part { AppendsPart (R.held report.old) (R.held report.new) (whole_line line) }
    ensures read { IsErrOf result Stop.ReadFault → ⊥ }
    ensures write { IsErrOf result Stop.WriteFault → Rose (R.faults report.old) (R.faults report.new) }
    ensures later { R.faults report.old ≤ R.faults report.new }
{
    let text = text_of(alloc, line)?;
    put_all(report, text.as_bytes())?;
    Ok(())
}

/// Writes the last line, and answers a status.
pub fn say<R: Sink>(
    alloc: Global,
    report: &mut R,
    status: Status,
    line: Line,
) -> Result<Status, Stop>
    ensures status { IfOk result (λ answered. answered ≡ status) }
    ensures whole { OnOk result (Appends (R.held report.old) (R.held report.new) (whole_line line)) }
    ensures part { AppendsPart (R.held report.old) (R.held report.new) (whole_line line) }
    ensures read { IsErrOf result Stop.ReadFault → ⊥ }
    ensures write { IsErrOf result Stop.WriteFault → Rose (R.faults report.old) (R.faults report.new) }
    ensures later { R.faults report.old ≤ R.faults report.new }
{
    put_line(alloc, report, line)?;
    Ok(status)
}
