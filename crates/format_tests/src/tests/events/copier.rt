//! The handler.
ghost use Rattle.std.specs.Prelude.{◌≡◌, ◌≤◌, ◌++◌, false, IfOk, OnOk};
ghost use Rattle.std.specs.String.{string_bytes};
ghost use Rattle.uo_base.specs.FeedEvent.{event_of};
ghost use Rattle.format_tests.specs.Copying.{Copying, copying, frame_of, count_line};
ghost use Rattle.feed_run.specs.Machine.{IsShort};

use feed_run::{EventHandler, Piece, Status, Stop};
use std::alloc::Global;
use std::sync::ledger::Ledger;
use uo_base::{Event, Net, NoMemory, Sink};
use uo_digest::Steps;

/// Copies each block and each rollback, and counts events.
#[derive(Drop)]
pub struct Copier {
    alloc: Global,
    net: Net,
    copied: u64,
}

impl Copier {
    pub fn new(alloc: Global, net: Net) -> Self
        ensures { ⟦<Copier as EventHandler>⟧.state result ≡ record { net = net; copied = 0 } }
    {
        Copier {
            alloc,
            net,
            copied: 0,
        }
    }
}

impl EventHandler for Copier {
    ghost State = { Copying };

    ghost state = { λ c. record { net = c.net; copied = c.copied } };

    ghost machine = { copying };

    ghost digests = { false };

    fn take<L: Ledger>(
        &mut self,
        event: Event<'_>,
        sent: &mut Piece,
        said: &mut Vec<u8>,
        _steps: &mut Steps<L>,
    ) -> Result<(), NoMemory> {
        self.copied += 1;
        push_frame(sent, self.net, event)?;
        let line = format!(in self.alloc; "copied {}\n", self.copied)?;
        said.extend_from_slice(line.as_bytes())?;
        Ok(())
    }

    fn is_over(&self) -> bool {
        false
    }

    fn end<O: Sink>(&self, _out: &mut O, said: &mut Vec<u8>) -> Result<Status, Stop> {
        let line = format!(in self.alloc; "end {}\n", self.copied)?;
        said.extend_from_slice(line.as_bytes())?;
        Ok(Status::AllAccepted)
    }
}

fn push_frame(sent: &mut Piece, net: Net, event: Event<'_>) -> Result<(), NoMemory>
    requires { IsShort (event_of event) }
    ensures { OnOk result (sent.new.bytes.items ≡ sent.old.bytes.items ++ frame_of net (event_of event.entry)) }
{
    match event {
        Event::Block { block, .. } => sent.push_block(net, block),
        Event::Rollback { count } => sent.push_rollback(count),
        Event::Stray => Ok(()),
    }
}
