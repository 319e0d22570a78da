//! Writing a ticket.
ghost use Rattle.std.specs.Prelude.{◌≡◌, ◌<◌, ◌^◌, ◌++◌, length, OnOk, OnErr};
ghost use Rattle.std.specs.Int.{w32, w64, to_le_bytes};
ghost use Rattle.std.specs.List.{AllByRecursion};
ghost use Rattle.uo_base.specs.Moved.{Grew};
ghost use Rattle.uo_base.specs.Reading.{OneReading};
ghost use Rattle.uo_base.specs.Compact.{counted};
ghost use Rattle.uo_digest.specs.Reading.{IsDigest, digest_text};
ghost use Rattle.leaf_record.specs.Leaf.{LeafFits, rest_text};
ghost use Rattle.ticket_check.specs.Tickets.{TicketFits, ticket_text};
ghost use Rattle.ticket_check.specs.Reading.{front_text};

use leaf_record::{RecordView, write_rest};
use uo_base::{NoMemory, put_compact};
use uo_digest::Digest;

// A count of hashes, and the hashes.
fn put_hashes(hashes: &[Digest], out: &mut Vec<u8>) -> Result<(), NoMemory>
    ensures ok { OnOk result (out.new.items ≡ out.old.items ++ counted digest_text hashes.now) }
    ensures err { OnErr result (Grew out.old.items out.new.items) }
    ensures fit { OnOk result (AllByRecursion IsDigest hashes.now) }
    ensures few { length hashes.now < 2 ^ 64 }
{
    put_compact(out, hashes.len() as u64)?;
    for i in 0..hashes.len() {
        let hash = hashes[i];
        out.extend_from_slice(&hash.0)?;
    }
    Ok(())
}

// The output's name and what it is besides.
fn put_leaf(leaf: &RecordView<'_>, out: &mut Vec<u8>) -> Result<(), NoMemory>
    ensures ok { OnOk result (out.new.items ≡ out.old.items ++ leaf.now.point.txid.0 ++ to_le_bytes w32 leaf.now.point.index
        ++ rest_text leaf.now.rest) }
    ensures err { OnErr result (Grew out.old.items out.new.items) }
    ensures fits { LeafFits leaf.now }
{
    let rest = leaf.rest();
    out.extend_from_slice(&leaf.txid.0)?;
    out.extend_from_slice(&leaf.index.to_le_bytes())?;
    write_rest(&rest, out)
}

// `UTXT`, the version, the block's hash and the position.
fn put_front(tip: Digest, target: u64, out: &mut Vec<u8>) -> Result<(), NoMemory>
    ensures ok { OnOk result (out.new.items ≡ out.old.items ++ front_text tip target) }
    ensures err { OnErr result (Grew out.old.items out.new.items) }
    ensures tip { IsDigest tip }
{
    out.extend_from_slice(&[b'U', b'T', b'X', b'T', 1])?;
    out.extend_from_slice(&tip.0)?;
    out.extend_from_slice(&target.to_le_bytes())?;
    Ok(())
}

fn put_parts(
    tip: Digest,
    target: u64,
    leaf: &RecordView<'_>,
    hashes: &[Digest],
    out: &mut Vec<u8>,
) -> Result<(), NoMemory>
    ensures ok { OnOk result (out.new.items ≡ out.old.items
        ++ ticket_text (record { tip = tip; target = target; leaf = leaf.now; hashes = hashes.now })) }
    ensures err { OnErr result (Grew out.old.items out.new.items) }
    ensures fits { OnOk result (TicketFits (record { tip = tip; target = target; leaf = leaf.now; hashes = hashes.now })) }
{
    put_front(tip, target, out)?;
    put_leaf(leaf, out)?;
    put_hashes(hashes, out)?;
    Ok(())
}

/// Appends the one text of a ticket. Where there is no memory, the text before it stays as it was.
pub fn put_ticket(
    tip: Digest,
    target: u64,
    leaf: &RecordView<'_>,
    hashes: &[Digest],
    out: &mut Vec<u8>,
) -> Result<(), NoMemory>
    ensures ok { OnOk result (out.new.items ≡ out.old.items
        ++ ticket_text (record { tip = tip; target = target; leaf = leaf.now; hashes = hashes.now })) }
    ensures err { OnErr result (out.new.items ≡ out.old.items) }
    // What was written is a ticket, so it is read again.
    ensures fits { OnOk result (TicketFits (record { tip = tip; target = target; leaf = leaf.now; hashes = hashes.now })) }
{
    let start = out.len();
    match put_parts(tip, target, leaf, hashes, out) {
        Ok(()) => Ok(()),
        Err(NoMemory) => {
            out.truncate(start);
            Err(NoMemory)
        }
    }
}

/// No ticket's text is the front of another's, so a ticket that was written is read again.
pub fn one_ticket()
    ensures { OneReading TicketFits ticket_text }
{}
