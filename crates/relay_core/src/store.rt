//! What is stored in a world.
ghost use Rattle.std.specs.Prelude.{◌≡◌, ◌<◌, ◌≤◌, ◌^◌, List, ℕ, length, map, reverse, slice_get, option_map, option_copied, Some};
ghost use Rattle.uo_base.specs.FeedEvent.{BlockCame, event_of};
ghost use Rattle.node_rules.specs.Fitting.{IsShort};
ghost use Rattle.relay_core.specs.World.{block_event, sent_at};

use crate::act::Kind;
use std::marker::Model;
use uo_base::Event;

/// A reply: the newest serial of the one who asked, and what it says.
#[derive(Clone, Copy, Debug)]
pub struct Reply {
    pub(crate) first: u64,
    pub(crate) kind: Kind,
}

// A block that the bridge accepted, and the message beside it.
#[derive(Drop)]
pub(crate) struct Passed {
    block: Vec<u8>,
    message: Option<Vec<u8>>,
}

impl Model for Passed {
    ghost use Rattle.std.specs.Prelude.{◌<◌, ◌^◌, length, option_map};
    ghost use Rattle.relay_core.specs.World.{Sent};

    ghost Value = { Sent };

    ghost view = { λ p. record { block = p.block.items; message = option_map (λ m. m.items) p.message } };

    ghost invariant = { λ p. length p.block.items < 2 ^ 32 };
}

impl Passed {
    pub(crate) fn new(block: Vec<u8>, message: Option<Vec<u8>>) -> Passed
        requires { length block.items < 2 ^ 32 }
        ensures { result ≡ record { block = block.items; message = option_map (λ m. m.items) message } }
    {
        Passed { block, message }
    }

    // What a node is told of it.
    pub(crate) fn event(&self) -> Event<'_>
        ensures is { event_of result ≡ BlockCame self.now.block self.now.message }
        ensures short { IsShort (event_of result) }
    {
        Event::Block {
            block: self.block.as_slice(),
            message: slice_of(&self.message),
        }
    }
}

fn slice_of(message: &Option<Vec<u8>>) -> Option<&[u8]>
    ensures { option_copied result ≡ option_map (λ m. m.items) message.now }
{
    match message {
        Some(bytes) => Some(bytes.as_slice()),
        None => None,
    }
}

// What a node is told of the block of a serial.
pub(crate) fn event_at(sent: &[Passed], serial: u64) -> Event<'_>
    ensures is { event_of result ≡ block_event (sent_at sent.now serial) }
    ensures short { IsShort (event_of result) }
{
    if serial == 0 {
        return Event::Stray;
    }
    match sent.get((serial - 1) as usize) {
        Some(passed) => passed.event(),
        None => Event::Stray,
    }
}

// An ask: the serials of its follower's levels, the newest of them last.
#[derive(Drop)]
pub(crate) struct Asked {
    serials: Vec<u64>,
}

impl Model for Asked {
    ghost use Rattle.std.specs.Prelude.{◌≤◌, ℕ, List, length, reverse};

    ghost Value = { List ℕ };

    ghost view = { λ a. reverse a.serials.items };

    ghost invariant = { λ a. length a.serials.items ≤ 101 };
}

impl Asked {
    pub(crate) fn new(serials: Vec<u64>) -> Asked
        requires { length serials.items ≤ 101 }
        ensures { result ≡ reverse serials.items }
    {
        Asked { serials }
    }

    pub(crate) fn serials(&self) -> &[u64]
        ensures is { reverse result.now ≡ self.now }
        ensures few { length result.now ≤ 101 }
    {
        self.serials.as_slice()
    }
}
