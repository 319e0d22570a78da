//! Generated feeds.
ghost use Rattle.std.specs.Prelude.{◌≤◌};

use chain_gen::generate;
use std::alloc::Global;
use std::io;
use std::rt::Clock;
use std::time::Instant;
use uo_base::{MemSink, Net};
use uo_digest::sha256d;

fn hash_pieces(text: &[u8]) -> u8 {
    let mut seen = 0;
    for piece in text.chunks(100) {
        seen ^= sha256d(piece).0[0];
    }
    seen
}

/// Milliseconds of generating feeds of a thousand to a hundred thousand blocks, and of hashing as many bytes in small pieces.
pub fn measure_feeds<R: Clock + Print + AllocGlobal>(rt: &R) -> io::Result<()> {
    for blocks in [1_000, 10_000, 100_000] {
        if blocks <= 100_000 {
            measure(rt, rt.alloc(), blocks)?;
        }
    }
    Ok(())
}

fn measure<R: Clock + Print>(rt: &R, alloc: Global, blocks: u32) -> io::Result<()>
    requires { blocks ≤ 100000 }
{
    let mut sink = MemSink::new(alloc, 65_536, Vec::new(alloc));
    let start = Instant::now(rt)?;
    let made = generate(alloc, 1, blocks, Net::Main, &mut sink);
    let making = start.elapsed(rt)?;
    let start = Instant::now(rt)?;
    let seen = hash_pieces(sink.held());
    let hashing = start.elapsed(rt)?;
    let Ok(feed) = made else {
        return println!(rt; "{blocks} blocks: no memory");
    };
    println!(rt;
        "{} blocks, {} rollbacks, {} bytes: {} ms, hashing {} ms; {seen}",
        feed.blocks,
        feed.rollbacks,
        feed.bytes,
        making.as_millis(),
        hashing.as_millis()
    )
}
