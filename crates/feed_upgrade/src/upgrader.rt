//! What an upgrade of a feed keeps from event to event.
ghost use Rattle.std.specs.Prelude.{◌≡◌, ◌≤◌, ◌<◌, ◌^◌, ◌+◌, ◌++◌, true, [], length, Some, option_map, option_copied, IfOk, OnOk};
ghost use Rattle.std.specs.Int.{w32, to_le_bytes};
ghost use Rattle.uo_base.specs.FeedEvent.{event_of, BlockCame};
ghost use Rattle.feed_frame.specs.FeedText.{event_text, proof_frame_text, HasProofFrame};
ghost use Rattle.feed_frame.specs.Frames.{proof_magic, rollback_magic, most_proof};
ghost use Rattle.feed_frame.specs.Written.{frame_text};
ghost use Rattle.feed_run.specs.Machine.{IsShort as HasFrames};
ghost use Rattle.node_rules.specs.Fitting.{IsShort};
ghost use Rattle.message_upgrade.specs.Upgrade.{upgraded, upgraded_event};
ghost use Rattle.feed_upgrade.specs.Upgraded.{old_in, old_beside};
ghost use Rattle.feed_upgrade.specs.Upgrader.{Upgrading, upgrader_of, next_upgrader, upgraded_frames, upgrade_machine};

use compact_node::Node;
use feed_run::{EventHandler, Piece, Status, Stop};
use message_upgrade::upgrade;
use report_lines::{Line, push_line};
use std::alloc::Global;
use std::marker::Model;
use std::sync::ledger::Ledger;
use uo_base::{Event, Net, NoMemory, Sink};
use uo_digest::{Digester, Steps};

/// A node that follows a feed, how many events it was told, and how many messages of version 1 stood beside their blocks.
#[derive(Drop)]
pub struct Upgrader<D: Digester> {
    alloc: Global,
    net: Net,
    node: Node<D>,
    events: u64,
    messages: u64,
}

impl<D: Digester> Model for Upgrader<D> {
    ghost use Rattle.std.specs.Prelude.{◌≤◌};
    ghost use Rattle.feed_upgrade.specs.Upgrader.{Upgrading};

    ghost Value = { Upgrading };

    ghost view = { λ u. record { net = u.net; node = u.node; events = u.events; messages = u.messages } };

    ghost invariant = { λ u. u.messages ≤ u.events };
}

impl<D: Digester> Upgrader<D> {
    /// This node, before the first event.
    pub fn new(alloc: Global, node: Node<D>) -> Upgrader<D>
        ensures { result ≡ upgrader_of node }
    {
        Upgrader {
            alloc,
            net: node.net(),
            node,
            events: 0,
            messages: 0,
        }
    }

    // Tells the node an event beside whose block so many messages of version 1 stand.
    fn tell<L: Ledger>(
        &mut self,
        event: Event<'_>,
        old: u64,
        steps: &mut Steps<L>,
    ) -> Result<(), NoMemory>
        requires short { IsShort (event_of event) }
        requires counted { self.old.events < 2 ^ 63 }
        requires one { old ≤ 1 }
        requires old { old ≡ old_beside (event_of event) }
        ensures next { OnOk result (self.new ≡ next_upgrader D.digest_of self.old (event_of event.entry)) }
        ensures counted { OnOk result (self.new.events ≡ self.old.events + 1) }
    {
        self.node.step(event, steps)?;
        self.events += 1;
        self.messages += old;
        Ok(())
    }
}

impl<D: Digester> EventHandler for Upgrader<D> {
    ghost State = { Upgrading };

    ghost state = { λ u. u };

    ghost machine = { upgrade_machine D.digest_of };

    ghost digests = { true };

    #[tactic(auto, unfolding(crate::specs::Upgrader::upgraded_frames))]
    fn take<L: Ledger>(
        &mut self,
        event: Event<'_>,
        sent: &mut Piece,
        _said: &mut Vec<u8>,
        steps: &mut Steps<L>,
    ) -> Result<(), NoMemory> {
        let (alloc, net) = (self.alloc, self.net);
        let n = self.node.chain().leaves;
        let old = push_upgraded(alloc, net, n, event, sent)?;
        self.tell(event, old, steps)
    }

    fn is_over(&self) -> bool {
        false
    }

    fn end<O: Sink>(&self, _out: &mut O, said: &mut Vec<u8>) -> Result<Status, Stop> {
        let line = Line::UpgradedFeed {
            events: self.events,
            messages: self.messages,
        };
        push_line(self.alloc, line, said)?;
        Ok(Status::AllAccepted)
    }
}

// Appends the frames of an event, with its message upgraded by a count of `n` entries, and answers how many messages of version 1 it had.
#[tactic(auto, unfolding(feed_frame::specs::FeedText::event_text))]
fn push_upgraded(
    alloc: Global,
    net: Net,
    n: u64,
    event: Event<'_>,
    sent: &mut Piece,
) -> Result<u64, NoMemory>
    requires few { n < 2 ^ 40 }
    requires short { HasFrames (event_of event) }
    ensures one { IfOk result (λ old. old ≤ 1) }
    ensures old { IfOk result (λ old. old ≡ old_beside (event_of event.entry)) }
    ensures sent { OnOk result (sent.new.bytes.items ≡ sent.old.bytes.items ++ event_text net (upgraded_event n (event_of event.entry))) }
{
    match event {
        Event::Block { block, message } => push_proved(alloc, net, n, block, message, sent),
        Event::Rollback { count } => push_rollback(count, sent),
        Event::Stray => push_stray(sent),
    }
}

// Appends the frame of a rollback.
fn push_rollback(count: u32, sent: &mut Piece) -> Result<u64, NoMemory>
    ensures old { IfOk result (λ old. old ≡ 0) }
    ensures sent { OnOk result (sent.new.bytes.items ≡ sent.old.bytes.items ++ frame_text rollback_magic (to_le_bytes w32 count)) }
{
    sent.push_rollback(count)?;
    Ok(0)
}

// Appends the frame of an empty proof, which is a stray again. What stood in it is no message of a block, and is not counted.
fn push_stray(sent: &mut Piece) -> Result<u64, NoMemory>
    ensures old { IfOk result (λ old. old ≡ 0) }
    ensures sent { OnOk result (sent.new.bytes.items ≡ sent.old.bytes.items ++ frame_text proof_magic []) }
{
    sent.push_proof(&[])?;
    Ok(0)
}

// Appends the frame of a block, behind that of its message.
fn push_proved(
    alloc: Global,
    net: Net,
    n: u64,
    block: &[u8],
    message: Option<&[u8]>,
    sent: &mut Piece,
) -> Result<u64, NoMemory>
    requires few { n < 2 ^ 40 }
    requires short { HasFrames (BlockCame block.now (option_copied message)) }
    ensures one { IfOk result (λ old. old ≤ 1) }
    ensures old { IfOk result (λ old. old ≡ old_in (option_copied message.entry)) }
    ensures sent { OnOk result (sent.new.bytes.items ≡ sent.old.bytes.items
        ++ event_text net (upgraded_event n (BlockCame block.now (option_copied message.entry)))) }
{
    let old = push_message(alloc, n, message, sent)?;
    sent.push_block(net, block)?;
    Ok(old)
}

// Appends the frame of a message, where there is one.
fn push_message(
    alloc: Global,
    n: u64,
    message: Option<&[u8]>,
    sent: &mut Piece,
) -> Result<u64, NoMemory>
    requires few { n < 2 ^ 40 }
    requires short { HasProofFrame (option_copied message) }
    ensures one { IfOk result (λ old. old ≤ 1) }
    ensures old { IfOk result (λ old. old ≡ old_in (option_copied message.entry)) }
    ensures sent { OnOk result (sent.new.bytes.items ≡ sent.old.bytes.items
        ++ proof_frame_text (option_map (upgraded n) (option_copied message.entry))) }
{
    match message {
        Some(message) => push_frame(alloc, n, message, sent),
        None => Ok(0),
    }
}

// Appends the frame of a message that is upgraded.
fn push_frame(alloc: Global, n: u64, message: &[u8], sent: &mut Piece) -> Result<u64, NoMemory>
    requires few { n < 2 ^ 40 }
    requires short { length message.now ≤ most_proof }
    ensures one { IfOk result (λ old. old ≤ 1) }
    ensures old { IfOk result (λ old. old ≡ old_in (Some message.now)) }
    ensures sent { OnOk result (sent.new.bytes.items ≡ sent.old.bytes.items ++ frame_text proof_magic (upgraded n message.now)) }
{
    let mut text = Vec::new(alloc);
    let old = upgrade(alloc, n, message, &mut text)?;
    sent.push_proof(&text)?;
    Ok(u64::from(old))
}
