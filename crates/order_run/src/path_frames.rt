//! Writing the frames of a path.
ghost use Rattle.std.specs.Prelude.{◌≡◌, ◌≤◌, ◌<◌, [], length, All, OnOk, IsErrOf};
ghost use Rattle.std.specs.Io.KnownBytes.{Appends};
ghost use Rattle.uo_base.specs.Faults.{Rose};
ghost use Rattle.uo_base.specs.Moved.{AppendsPart};
ghost use Rattle.order_run.specs.Frames.{AreShort, numbered_text};

use chain_order::Arrivals;
use feed_frame::put_block;
use uo_base::{Net, Sink, SinkFault};

/// Writes the frames of the blocks of these numbers, one after the other.
pub fn put_numbered<O: Sink>(
    net: Net,
    arrivals: &Arrivals,
    numbers: &[u64],
    out: &mut O,
) -> Result<(), SinkFault>
    requires within { All (λ number. number < length arrivals.now) numbers.now }
    requires short { AreShort arrivals.now }
    ensures whole { OnOk result (Appends (O.held out.old) (O.held out.new) (numbered_text net arrivals.now numbers.now)) }
    ensures part { AppendsPart (O.held out.old) (O.held out.new) (numbered_text net arrivals.now numbers.now) }
    ensures untouched { numbers.now ≡ [] → out.new ≡ out.old }
    ensures later { O.faults out.old ≤ O.faults out.new }
    ensures cause { IsErrOf result SinkFault.Failed → Rose (O.faults out.old) (O.faults out.new) }
{
    for number in numbers {
        put_block(out, net, arrivals.body(*number))?;
    }
    Ok(())
}
