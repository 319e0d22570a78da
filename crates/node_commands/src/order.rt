//! The command that puts a feed's blocks in order.
ghost use Rattle.std.specs.Prelude.{◌≡◌, ◌≤◌, ◌^◌, ◌⊎◌, ℕ, List, Option, false, IfOk, IsErrOf, is_err};
ghost use Rattle.uo_base.specs.Faults.{Rose};
ghost use Rattle.feed_run.specs.Status.{is_stop};
ghost use Rattle.node_commands.specs.Ordering.{hash_named, ordering};
ghost use Rattle.node_commands.specs.Runs.{Ran, status_in};

use crate::serve::serve;
use feed_run::{Status, Stop};
use order_run::Orderer;
use std::alloc::Global;
use std::sync::ledger::Ledger;
use uo_base::{Net, Sink, Source};
use uo_digest::{Digest, Steps};

/// Reads a feed to its end, and then stores the frames of the blocks on the path from one that begins a chain to the tip, whose hash is named as it
/// is printed, and prints how many there are. All blocks of the feed are held in memory until then.
pub fn order<F: Source, O: Sink, R: Sink, L: Ledger>(
    alloc: Global,
    net: Net,
    bytes: u64,
    tip: &str,
    feed: &mut F,
    out: &mut O,
    report: &mut R,
    steps: &mut Steps<L>,
) -> Result<Status, Stop>
    requires { bytes ≤ 2 ^ 48 }
    ensures ran { (prior watch : Option (List ℕ))
        → Ran (ordering bytes net (hash_named tip.now)) bytes (F.left feed.old) (F.left feed.new) prior watch
        (R.held report.old) (R.held report.new) (O.held out.old) (O.held out.new) (out.new ≡ out.old) (is_err result) (status_in result) }
    ensures goes_on { IfOk result (λ status. is_stop status ≡ false) }
    ensures read { IsErrOf result Stop.ReadFault → Rose (F.faults feed.old) (F.faults feed.new) }
    ensures write { IsErrOf result Stop.WriteFault → Rose (O.faults out.old) (O.faults out.new) ⊎ Rose (R.faults report.old) (R.faults report.new) }
    ensures steps { steps.new ≡ steps.old }
{
    let mut orderer = Orderer::new(alloc, net, hash_named(tip));
    serve(alloc, net, bytes, &mut orderer, feed, out, report, steps)
}

// The hash that a word of 64 digits prints, from its last byte to its first.
fn hash_named(word: &str) -> Digest
    ensures { result ≡ hash_named word.now }
{
    let mut bytes = [0u8; 32];
    match hex::decode_to_slice(word, &mut bytes) {
        Ok(()) => {
            bytes.reverse();
            Digest(bytes)
        }
        Err(_) => Digest([0; 32]),
    }
}
