//! Writing a block.
ghost use Rattle.std.specs.Prelude.{◌≡◌, ◌<◌, ◌^◌, ◌++◌, length, OnOk, OnErr};
ghost use Rattle.std.specs.List.{AllByRecursion};
ghost use Rattle.uo_base.specs.Compact.{counted};
ghost use Rattle.uo_base.specs.Moved.{Grew};
ghost use Rattle.uo_base.specs.Reading.{OneReading};
ghost use Rattle.tx_codec.specs.Transaction.{IsWritable, Fits, tx_text};
ghost use Rattle.block_codec.specs.Block.{block_of, header_text, block_text, HeaderFits, BlockFits};

use crate::header::HeaderView;
use tx_codec::{Tx, write_tx};
use uo_base::{NoMemory, put_compact};

fn put_header(out: &mut Vec<u8>, header: &HeaderView) -> Result<(), NoMemory>
    ensures ok { OnOk result (out.new.items ≡ out.old.items ++ header_text header.now) }
    ensures err { OnErr result (Grew out.old.items out.new.items) }
    ensures fits { OnOk result (HeaderFits header.now) }
{
    out.extend_from_slice(&header.version.to_le_bytes())?;
    out.extend_from_slice(&header.prev.0)?;
    out.extend_from_slice(&header.merkle.0)?;
    out.extend_from_slice(&header.time.to_le_bytes())?;
    out.extend_from_slice(&header.bits.to_le_bytes())?;
    out.extend_from_slice(&header.nonce.to_le_bytes())?;
    Ok(())
}

fn put_txs(out: &mut Vec<u8>, txs: &[Tx]) -> Result<(), NoMemory>
    requires { AllByRecursion IsWritable txs.now }
    ensures ok { OnOk result (out.new.items ≡ out.old.items ++ counted tx_text txs.now) }
    ensures err { OnErr result (Grew out.old.items out.new.items) }
    ensures count { length txs.now < 2 ^ 64 }
    ensures fit { OnOk result (AllByRecursion Fits txs.now) }
{
    put_compact(out, txs.len() as u64)?;
    for tx in txs {
        write_tx(tx, out)?;
    }
    Ok(())
}

fn put_block(out: &mut Vec<u8>, header: &HeaderView, txs: &[Tx]) -> Result<(), NoMemory>
    requires some { 0 < length txs.now }
    requires writable { AllByRecursion IsWritable txs.now }
    ensures ok { OnOk result (out.new.items ≡ out.old.items ++ block_text (block_of header.now txs.now)) }
    ensures err { OnErr result (Grew out.old.items out.new.items) }
    ensures fits { OnOk result (BlockFits (block_of header.now txs.now)) }
{
    put_header(out, header)?;
    put_txs(out, txs)?;
    Ok(())
}

/// Appends the one text of a block. Where there is no memory, the text before it stays as it was.
pub fn write_block(header: &HeaderView, txs: &[Tx], out: &mut Vec<u8>) -> Result<(), NoMemory>
    requires some { 0 < length txs.now }
    requires writable { AllByRecursion IsWritable txs.now }
    ensures ok { OnOk result (out.new.items ≡ out.old.items ++ block_text (block_of header.now txs.now)) }
    ensures err { OnErr result (out.new.items ≡ out.old.items) }
    // What was written is a block, so it is read again.
    ensures fits { OnOk result (BlockFits (block_of header.now txs.now)) }
{
    let start = out.len();
    match put_block(out, header, txs) {
        Ok(()) => Ok(()),
        Err(NoMemory) => {
            out.truncate(start);
            Err(NoMemory)
        }
    }
}

/// No block's text is the front of another's, nor the text of another.
pub fn one_block()
    ensures { OneReading BlockFits block_text }
{}
