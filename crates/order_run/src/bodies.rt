//! A block of a feed, as an arrival.
ghost use Rattle.std.specs.Prelude.{◌≡◌, ◌≤◌, length, OnOk, OnErr};
ghost use Rattle.order_run.specs.Bodies.{arrival_in, with_body};
ghost use Rattle.chain_order.specs.Arrivals.{with_arrival};

use chain_order::Arrivals;
use uo_base::NoMemory;
use uo_digest::{Digest, sha256d};

/// A block's header has so many bytes.
const HEADER: usize = 80;

/// Takes a block by its bytes. Those that have no whole header are passed over.
pub fn add_body(arrivals: &mut Arrivals, body: &[u8]) -> Result<(), NoMemory>
    ensures ok { OnOk result (arrivals.new ≡ with_body arrivals.old body.now) }
    ensures err { OnErr result (arrivals.new ≡ arrivals.old) }
{
    if body.len() < HEADER {
        return Ok(());
    }
    add_block(arrivals, body)
}

// Takes a block by its bytes, of which the first 80 are its header.
fn add_block(arrivals: &mut Arrivals, body: &[u8]) -> Result<(), NoMemory>
    requires { 80 ≤ length body.now }
    ensures ok { OnOk result (arrivals.new ≡ with_arrival arrivals.old (arrival_in body.now)) }
    ensures err { OnErr result (arrivals.new ≡ arrivals.old) }
{
    let hash = sha256d(&body[..HEADER]);
    let prev = Digest::from_bytes(&body[4..36]);
    let _is_new = arrivals.add(hash, prev, body)?;
    Ok(())
}
