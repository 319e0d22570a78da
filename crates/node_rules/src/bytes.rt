//! That what an event holds is bytes.
ghost use Rattle.uo_base.specs.FeedEvent.{event_of};
ghost use Rattle.uo_base.specs.Reading.{IsBytes};
ghost use Rattle.node_rules.specs.Fitting.{AreEventBytes};

use uo_base::Event;

fn check_block(block: &[u8])
    ensures { IsBytes block.now }
{
    let _length = block.len();
}

/// Does nothing: its contract is what a caller wants of it.
pub fn check_bytes(event: &Event<'_>)
    ensures { AreEventBytes (event_of event.now) }
{
    if let Event::Block { block, .. } = event {
        check_block(block);
    }
}
