//! The lines of two texts with one digest.
ghost use Rattle.std.specs.Prelude.{◌≡◌, ◌++◌, OnOk, OnErr};
ghost use Rattle.uo_base.specs.Moved.{Grew};
ghost use Rattle.report_lines.specs.Lines.{hex_line, text_lines, clash_lines, ticket_clash_lines};

use crate::line::Line;
use crate::report::push_line;
use std::alloc::Global;
use uo_base::NoMemory;
use uo_digest::Digest;

// Appends a word and some bytes in hexadecimal, with the byte that ends the line.
fn push_hex(alloc: Global, word: &str, bytes: &[u8], out: &mut Vec<u8>) -> Result<(), NoMemory>
    ensures ok { OnOk result (out.new.items ≡ out.old.items ++ hex_line word.now bytes.now) }
    ensures err { OnErr result (out.new.items ≡ out.old.items) }
{
    let digits = hex::encode(alloc, bytes)?;
    let line = format!(in alloc; "{word} {digits}\n")?;
    out.extend_from_slice(line.as_bytes())?;
    Ok(())
}

// Appends the lines of two texts and their digest.
#[tactic(auto, unfolding(crate::specs::Lines::text_lines))]
fn push_texts(
    alloc: Global,
    first: &[u8],
    second: &[u8],
    digest: &Digest,
    out: &mut Vec<u8>,
) -> Result<(), NoMemory>
    ensures ok { OnOk result (out.new.items ≡ out.old.items ++ text_lines first.now second.now digest.now) }
    ensures err { OnErr result (Grew out.old.items out.new.items) }
{
    push_hex(alloc, "first", first, out)?;
    push_hex(alloc, "second", second, out)?;
    push_hex(alloc, "digest", &digest.0, out)?;
    Ok(())
}

/// Appends the four lines of a clash: how many events came before it, two texts, and the digest of both, all bytes in their order. Where
/// there is no memory, a part may stand behind the text before it.
#[tactic(auto, unfolding(crate::specs::Lines::clash_lines))]
pub fn push_clash(
    alloc: Global,
    events: u64,
    first: &[u8],
    second: &[u8],
    digest: &Digest,
    out: &mut Vec<u8>,
) -> Result<(), NoMemory>
    ensures ok { OnOk result (out.new.items ≡ out.old.items ++ clash_lines events first.now second.now digest.now) }
    ensures err { OnErr result (Grew out.old.items out.new.items) }
{
    push_line(alloc, Line::Clash(events), out)?;
    push_texts(alloc, first, second, digest, out)
}

/// Appends the four lines of a ticket that is accepted and false: two texts and the digest of both, all bytes in their order. Where there
/// is no memory, a part may stand behind the text before it.
#[tactic(auto, unfolding(crate::specs::Lines::ticket_clash_lines))]
pub fn push_ticket_clash(
    alloc: Global,
    first: &[u8],
    second: &[u8],
    digest: &Digest,
    out: &mut Vec<u8>,
) -> Result<(), NoMemory>
    ensures ok { OnOk result (out.new.items ≡ out.old.items ++ ticket_clash_lines first.now second.now digest.now) }
    ensures err { OnErr result (Grew out.old.items out.new.items) }
{
    push_line(alloc, Line::TicketClash, out)?;
    push_texts(alloc, first, second, digest, out)
}
