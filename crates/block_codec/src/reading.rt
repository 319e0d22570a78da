//! Reading a block.
ghost use Rattle.std.specs.Prelude.{◌≡◌, ◌<◌, ◌≤◌, ◌^◌, [], length, IfSome, IfOk, IsErrOf};
ghost use Rattle.uo_base.specs.Reading.{Gives, GivesOrFails, Splits, times};
ghost use Rattle.tx_codec.specs.Reading.{some_count_at, tx_at};
ghost use Rattle.block_codec.specs.declared.fault.BlockFault.TheVariants.{NotABlock};
ghost use Rattle.block_codec.specs.Block.{Block, BlockFits, block_of, block_text};
ghost use Rattle.block_codec.specs.Reading.{header_at, whole_at, block_in, claims, IsWhatWasFound};

use crate::bare_block::BareBlock;
use crate::block_view::BlockView;
use crate::fault::BlockFault;
use crate::header::HeaderView;
use std::alloc::Global;
use tx_codec::{TxView, read_tx};
use uo_base::Cursor;
use uo_digest::Digest;

#[tactic(auto, unfolding(crate::specs::Reading::header_at))]
fn read_header(at: &mut Cursor<'_>) -> Option<HeaderView>
    ensures { Gives (λ h. h) result at.new (header_at at.old) }
{
    let version = at.u32()?;
    let prev = Digest::read(at)?;
    let merkle = Digest::read(at)?;
    let time = at.u32()?;
    let bits = at.u32()?;
    let nonce = at.u32()?;
    Some(HeaderView {
        version,
        prev,
        merkle,
        time,
        bits,
        nonce,
    })
}

fn split_header(text: &[u8]) -> Option<(HeaderView, &[u8])>
    ensures { Splits (λ h. h) result (header_at text.now) }
{
    let mut at = Cursor::new(text);
    let header = read_header(&mut at)?;
    Some((header, at.rest()))
}

/// The same as `split_header`, and that what is left is no longer.
fn front_header(text: &[u8]) -> Option<(HeaderView, &[u8])>
    ensures exact { Splits (λ h. h) result (header_at text.now) }
    ensures shorter { IfSome result (λ x. length x.1.now ≤ length text.now) }
{
    split_header(text)
}

/// A count that is not 0.
#[tactic(auto, unfolding(tx_codec::specs::Reading::some_count_at))]
fn split_count(text: &[u8]) -> Option<(u64, &[u8])>
    ensures { Splits (λ n. n) result (some_count_at text.now) }
{
    let mut at = Cursor::new(text);
    let count = at.compact()?;
    if count > 0 {
        Some((count, at.rest()))
    } else {
        None
    }
}

/// The same as `split_count`, and that what is left is no longer.
fn front_count(text: &[u8]) -> Option<(u64, &[u8])>
    ensures exact { Splits (λ n. n) result (some_count_at text.now) }
    ensures shorter { IfSome result (λ x. length x.1.now ≤ length text.now) }
{
    split_count(text)
}

fn read_one<'a>(at: &mut Cursor<'a>) -> Result<TxView<'a>, BlockFault>
    requires { length at.old < 2 ^ 32 }
    ensures exact { GivesOrFails (λ tx. tx) claims result at.new (tx_at at.old) }
    ensures short { length at.new < 2 ^ 32 }
{
    match read_tx(at) {
        Some(tx) => Ok(tx),
        None => Err(BlockFault::NotABlock),
    }
}

fn read_txs<'a>(
    alloc: Global,
    at: &mut Cursor<'a>,
    count: u64,
) -> Result<Vec<TxView<'a>>, BlockFault>
    requires { length at.old < 2 ^ 32 }
    ensures { GivesOrFails (λ txs. txs.items) claims result at.new (times tx_at count at.old) }
{
    let mut txs = Vec::new(alloc);
    for _ in 0..count {
        let tx = read_one(at)?;
        txs.push(tx)?;
    }
    Ok(txs)
}

/// The parts of a block, and nothing after it.
#[tactic(auto, unfolding(crate::specs::Reading::whole_at, crate::specs::Reading::block_at))]
fn read_parts<'a>(
    alloc: Global,
    text: &'a [u8],
) -> Result<(HeaderView, Vec<TxView<'a>>), BlockFault>
    requires { length text.now < 2 ^ 32 }
    ensures { GivesOrFails (λ p. block_of p.0 p.1.items) claims result [] (whole_at text.now) }
{
    let Some((header, rest)) = front_header(text) else {
        return Err(BlockFault::NotABlock);
    };
    let Some((count, rest)) = front_count(rest) else {
        return Err(BlockFault::NotABlock);
    };
    let mut at = Cursor::new(rest);
    let txs = read_txs(alloc, &mut at, count)?;
    if !at.rest().is_empty() {
        return Err(BlockFault::NotABlock);
    }
    Ok((header, txs))
}

/// The block that the whole text is, of which nothing is hashed yet. `NotABlock` exactly where it is none, be it for one byte too
/// many.
pub fn read_bare(alloc: Global, text: &[u8]) -> Result<BareBlock<'_>, BlockFault>
    requires { length text.now < 2 ^ 32 }
    // What is read is a block, and the text is its text.
    ensures found { IfOk result (λ b. BlockFits b × (text.now ≡ block_text b)) }
    // It is refused only where it is the text of no block.
    ensures none { IsErrOf result NotABlock → (b : Block) → BlockFits b → text.now ≡ block_text b → ⊥ }
    ensures exact { IsWhatWasFound result (block_in text.now) }
{
    let (header, txs) = read_parts(alloc, text)?;
    Ok(BareBlock {
        bytes: text,
        header,
        txs,
    })
}

/// The same block with its hash and the ids of its transactions.
///
/// It goes over the text once to read it and once to hash the transactions.
pub fn read_block(alloc: Global, text: &[u8]) -> Result<BlockView<'_>, BlockFault>
    requires { length text.now < 2 ^ 32 }
    // What is read is a block, and the text is its text.
    ensures found { IfOk result (λ b. BlockFits b × (text.now ≡ block_text b)) }
    // It is refused only where it is the text of no block.
    ensures none { IsErrOf result NotABlock → (b : Block) → BlockFits b → text.now ≡ block_text b → ⊥ }
    ensures exact { IsWhatWasFound result (block_in text.now) }
{
    let bare = read_bare(alloc, text)?;
    Ok(bare.with_ids(alloc)?)
}
