//! Writing counts, and bytes behind their count.
ghost use Rattle.std.specs.Prelude.{◌≡◌, ◌+◌, ◌<◌, ◌≤◌, ◌^◌, ◌++◌, length, vec_len, vec_capacity, OnOk, OnErr};
ghost use Rattle.uo_base.specs.Reading.{OneReading};
ghost use Rattle.uo_base.specs.Compact.{compact, sized};
ghost use Rattle.uo_base.specs.Moved.{Grew};

use crate::NoMemory;

/// Appends the shortest form of a count.
#[tactic(auto, unfolding(crate::specs::Compact::compact))]
pub fn put_compact(out: &mut Vec<u8>, value: u64) -> Result<(), NoMemory>
    ensures ok { OnOk result (out.new.items ≡ out.old.items ++ compact value) }
    ensures err { OnErr result (out.new.items ≡ out.old.items) }
    // It fails only where room was missing.
    ensures full { OnErr result (vec_capacity out.old < vec_len out.old + length (compact value)) }
    ensures capacity { vec_capacity out.old ≤ vec_capacity out.new }
{
    if value < 253 {
        out.push(value as u8)?;
    } else if value < 65_536 {
        let [a, b] = (value as u16).to_le_bytes();
        out.extend_from_slice(&[253, a, b])?;
    } else if value < 4_294_967_296 {
        let [a, b, c, d] = (value as u32).to_le_bytes();
        out.extend_from_slice(&[254, a, b, c, d])?;
    } else {
        let [a, b, c, d, e, f, g, h] = value.to_le_bytes();
        out.extend_from_slice(&[255, a, b, c, d, e, f, g, h])?;
    }
    Ok(())
}

/// Appends bytes behind the shortest form of their count.
pub fn put_sized(out: &mut Vec<u8>, bytes: &[u8]) -> Result<(), NoMemory>
    ensures ok { OnOk result (out.new.items ≡ out.old.items ++ sized bytes.now) }
    ensures err { OnErr result (Grew out.old.items out.new.items) }
    // It fails only where room was missing.
    ensures full { OnErr result (vec_capacity out.old < vec_len out.old + length (sized bytes.now)) }
    ensures capacity { vec_capacity out.old ≤ vec_capacity out.new }
    ensures fits { length bytes.now < 2 ^ 64 }
{
    put_compact(out, bytes.len() as u64)?;
    out.extend_from_slice(bytes)?;
    Ok(())
}

/// No count's form is the front of another's, so a count that was written is read again, whatever
/// follows it.
pub fn one_compact()
    ensures { OneReading (λ n. n < 2 ^ 64) compact }
{}
