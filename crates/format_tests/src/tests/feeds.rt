//! Feeds and frames in memory.
ghost use Rattle.std.specs.Prelude.{◌≤◌, ◌^◌};

mod cuts;
mod faults;
mod rows;
mod written;

use feed_frame::{Feed, FeedFault};
use genesis_block::GENESIS;
use std::alloc::Global;
use std::process::Abort;
use std::test::Fail;
use uo_base::{Event, MemSource, Net};

/// The bytes of a block's frame before the genesis block.
const GENESIS_HEAD: &[u8] = b"\xf9\xbe\xb4\xd9\x1d\x01\0\0";

/// A body of a proof.
const MESSAGE: &[u8] = b"\x01\0\0\0\x07";

/// What a feed gave: a letter for each event, how it ended, and its offset then.
#[derive(Drop)]
struct Told {
    letters: Vec<u8>,
    ending: Option<FeedFault>,
    offset: u64,
}

// The genesis block alone or with the message, a rollback by two blocks, a stray, or none of these.
fn letter(event: Event<'_>) -> u8 {
    match event {
        Event::Block {
            block,
            message: None,
        } if block == GENESIS.as_slice() => b'B',
        Event::Block {
            block,
            message: Some(message),
        } if block == GENESIS.as_slice() && message == MESSAGE => b'P',
        Event::Rollback { count: 2 } => b'R',
        Event::Stray => b'S',
        _ => b'?',
    }
}

/// Reads a feed to its end.
fn drain(
    rt: &impl Abort,
    alloc: Global,
    net: Net,
    limit: u64,
    source: &mut MemSource,
) -> Result<Told, Fail>
    requires { limit ≤ 2 ^ 48 }
{
    let mut feed = Feed::new(alloc, net, limit);
    let mut letters = Vec::new(alloc);
    let ending = loop {
        match feed.next(source) {
            Ok(Some(event)) => letters.push(letter(event))?,
            Ok(None) => break None,
            Err(fault) => break Some(fault),
        }
    };
    assert_eq!(rt; feed.failed(), ending.is_some());
    Ok(Told {
        letters,
        ending,
        offset: feed.offset(),
    })
}
