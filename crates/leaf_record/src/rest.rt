//! What a message shows of an output: reading and writing it.
ghost use Rattle.std.specs.Prelude.{◌≡◌, ◌+◌, ◌<◌, ◌≤◌, ◌++◌, length, vec_len, vec_capacity, IfSome, OnOk, OnErr};
ghost use Rattle.uo_base.specs.Moved.{Grew};
ghost use Rattle.uo_base.specs.Reading.{Gives, Splits, Finds, Reads};
ghost use Rattle.uo_base.specs.Compact.{sized};
ghost use Rattle.leaf_record.specs.Leaf.{RestFits, longest_script, payload_text, rest_text};
ghost use Rattle.leaf_record.specs.Reading.{short_count_at, script_at, rest_at};

use crate::record::{MAX_SCRIPT, RestView};
use uo_base::{Cursor, NoMemory, put_sized};
use uo_digest::Digest;

#[tactic(auto, unfolding(crate::specs::Reading::short_count_at))]
fn read_short_count(at: &mut Cursor<'_>) -> Option<usize>
    ensures exact { Gives (λ n. n) result at.new (short_count_at at.old) }
    ensures short { IfSome result (λ n. n ≤ longest_script) }
{
    let count = at.compact()?;
    if count <= MAX_SCRIPT as u64 {
        Some(count as usize)
    } else {
        None
    }
}

#[tactic(auto, unfolding(crate::specs::Reading::script_at))]
fn read_script<'a>(at: &mut Cursor<'a>) -> Option<&'a [u8]>
    ensures exact { Gives (λ s. s.now) result at.new (script_at at.old) }
    ensures short { IfSome result (λ s. length s.now ≤ longest_script) }
{
    let count = read_short_count(at)?;
    at.take(count)
}

/// Where nothing is read, the cursor stands anywhere.
#[tactic(auto, unfolding(crate::specs::Reading::rest_at))]
fn read_parts<'a>(at: &mut Cursor<'a>) -> Option<RestView<'a>>
    ensures { Gives (λ r. r) result at.new (rest_at at.old) }
{
    let block = Digest::read(at)?;
    let code = at.u32()?;
    let amount = at.u64()?;
    let script = read_script(at)?;
    Some(RestView {
        block,
        height: code / 2,
        coinbase: code % 2 == 1,
        amount,
        script,
    })
}

fn split_rest(text: &[u8]) -> Option<(RestView<'_>, &[u8])>
    ensures { Splits (λ r. r) result (rest_at text.now) }
{
    let mut at = Cursor::new(text);
    let rest = read_parts(&mut at)?;
    Some((rest, at.rest()))
}

/// The same as `split_rest`, in terms of texts.
fn front_rest(text: &[u8]) -> Option<(RestView<'_>, &[u8])>
    ensures reads { Finds (λ r. r) RestFits rest_text result text.now }
    ensures exact { Splits (λ r. r) result (rest_at text.now) }
{
    split_rest(text)
}

/// The rest at the front, which the cursor then has passed: the block's hash (32 bytes), twice the
/// height and one more for a coinbase output (4), the amount (8), and the script behind its length.
/// None exactly where none stands there, and the cursor then stays.
pub fn read_rest<'a>(at: &mut Cursor<'a>) -> Option<RestView<'a>>
    ensures reads { Reads (λ r. r) RestFits rest_text result at.old at.new }
    ensures exact { Gives (λ r. r) result at.new (rest_at at.old) }
{
    let (rest, after) = front_rest(at.rest())?;
    *at = Cursor::new(after);
    Some(rest)
}

/// Appends code, amount and script.
#[tactic(auto, unfolding(crate::specs::Leaf::payload_text))]
pub(crate) fn put_payload(
    code: u32,
    amount: u64,
    script: &[u8],
    out: &mut Vec<u8>,
) -> Result<(), NoMemory>
    ensures ok { OnOk result (out.new.items ≡ out.old.items ++ payload_text code amount script.now) }
    ensures err { OnErr result (Grew out.old.items out.new.items) }
    ensures full { OnErr result (vec_capacity out.old < vec_len out.old + length (payload_text code amount script.now)) }
    ensures capacity { vec_capacity out.old ≤ vec_capacity out.new }
{
    out.extend_from_slice(&code.to_le_bytes())?;
    out.extend_from_slice(&amount.to_le_bytes())?;
    put_sized(out, script)?;
    Ok(())
}

#[tactic(auto, unfolding(crate::specs::Leaf::rest_text))]
fn put_rest(rest: &RestView<'_>, out: &mut Vec<u8>) -> Result<(), NoMemory>
    ensures ok { OnOk result (out.new.items ≡ out.old.items ++ rest_text rest.now) }
    ensures err { OnErr result (Grew out.old.items out.new.items) }
    ensures full { OnErr result (vec_capacity out.old < vec_len out.old + length (rest_text rest.now)) }
    ensures capacity { vec_capacity out.old ≤ vec_capacity out.new }
    ensures fits { RestFits rest.now }
{
    let code = rest.code();
    out.extend_from_slice(&rest.block.0)?;
    put_payload(code, rest.amount, rest.script, out)?;
    Ok(())
}

/// Appends the one text of a rest. Where there is no memory, the text before it stays as it was.
pub fn write_rest(rest: &RestView<'_>, out: &mut Vec<u8>) -> Result<(), NoMemory>
    ensures ok { OnOk result (out.new.items ≡ out.old.items ++ rest_text rest.now) }
    ensures err { OnErr result (out.new.items ≡ out.old.items) }
    // It fails only where room was missing.
    ensures full { OnErr result (vec_capacity out.old < vec_len out.old + length (rest_text rest.now)) }
    ensures capacity { vec_capacity out.old ≤ vec_capacity out.new }
    // What was written is a rest, so it is read again.
    ensures fits { RestFits rest.now }
{
    let start = out.len();
    match put_rest(rest, out) {
        Ok(()) => Ok(()),
        Err(NoMemory) => {
            out.truncate(start);
            Err(NoMemory)
        }
    }
}
