//! The line of an accepted block, which is most of what a long run prints.
ghost use Rattle.std.specs.Prelude.{◌≡◌, ◌++◌, ℕ, List, OnOk, OnErr};
ghost use Rattle.report_lines.specs.Lines.{whole_line};
ghost use Rattle.report_lines.specs.declared.line.Line.{Line};
ghost use Rattle.block_rules.specs.declared.verdict.Verdict.{Verdict};

use itoa::Buffer;
use std::alloc::AllocError;
use uo_base::NoMemory;
use uo_digest::{Digest, hex_reversed};

// Appends the parts of the line. Where there is no memory, some may be there.
#[tactic(auto, unfolding(crate::specs::Lines::whole_line))]
fn push_parts(height: u32, hash: &Digest, leaves: u64, out: &mut Vec<u8>) -> Result<(), AllocError>
    ensures ok { OnOk result (out.new.items ≡ out.old.items ++ whole_line (Line.Verdict (Verdict.Accepted height hash.now leaves))) }
    ensures part { (more : List ℕ) × (out.new.items ≡ out.old.items ++ more) }
{
    let mut number = Buffer::new();
    out.extend_from_slice(b"accepted ")?;
    out.extend_from_slice(number.format(height).as_bytes())?;
    out.extend_from_slice(b" ")?;
    out.extend_from_slice(&hex_reversed(hash))?;
    out.extend_from_slice(b" ")?;
    out.extend_from_slice(number.format(leaves).as_bytes())?;
    out.extend_from_slice(b"\n")?;
    Ok(())
}

/// Appends the line with its end, straight to the text: no line of its own is made and copied, and no digit is read again as UTF-8.
/// Where there is no memory, the text stays as it was.
pub fn push_accepted(
    height: u32,
    hash: &Digest,
    leaves: u64,
    out: &mut Vec<u8>,
) -> Result<(), NoMemory>
    ensures ok { OnOk result (out.new.items ≡ out.old.items ++ whole_line (Line.Verdict (Verdict.Accepted height hash.now leaves))) }
    ensures err { OnErr result (out.new.items ≡ out.old.items) }
{
    let start = out.len();
    match push_parts(height, hash, leaves, out) {
        Ok(()) => Ok(()),
        Err(_) => {
            out.truncate(start);
            Err(NoMemory)
        }
    }
}
