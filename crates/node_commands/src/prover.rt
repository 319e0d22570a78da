//! What a run of `prove` keeps from event to event.
ghost use Rattle.std.specs.Prelude.{◌≡◌, ◌<◌, ◌≤◌, ◌^◌, ◌+◌, ◌++◌, true, map, option_map, Some, None, IfOk, OnOk};
ghost use Rattle.uo_base.specs.FeedEvent.{event_of, BlockCame};
ghost use Rattle.feed_frame.specs.FeedText.{event_text, proof_frame_text};
ghost use Rattle.node_rules.specs.Fitting.{AreEventBytes, IsShort};
ghost use Rattle.node_rules.specs.Machine.{event_in, is_made};
ghost use Rattle.node_rules.specs.Proving.{CanBeWritten, IsShortMessage};
ghost use Rattle.bridge_prover.specs.Bridge.{message_on};
ghost use Rattle.node_commands.specs.Prover.{ProverState, fresh_prover, proved_of, next_prover, beside, made_frames, prove_machine};

use crate::ending::{end_line, is_refused, status_of};
use block_rules::Verdict;
use bridge_prover::{Bridge, Proved};
use feed_run::{EventHandler, Piece, Status, Stop};
use leaf_cache::Watch;
use node_rules::check_bytes;
use report_lines::{line_of, push_line};
use std::alloc::Global;
use std::marker::Model;
use std::sync::ledger::Ledger;
use uo_base::{Event, Limits, Net, NoMemory, Sink};
use uo_digest::{Digester, Steps};

/// A bridge, how many events it was told, and whether it has refused one.
pub struct Prover<D: Digester> {
    alloc: Global,
    net: Net,
    bridge: Bridge<D>,
    events: u64,
    refused: bool,
}

impl<D: Digester> Drop for Prover<D> {
    fn drop(self) {
        let Prover {
            alloc: _,
            net: _,
            bridge: _,
            events: _,
            refused: _,
        } = self;
    }
}

impl<D: Digester> Model for Prover<D> {
    ghost use Rattle.node_commands.specs.Prover.{ProverState, IsReached};

    ghost Value = { ProverState };

    ghost view = { λ p. record { net = p.net; bridge = p.bridge; events = p.events; refused = p.refused } };

    ghost invariant = { λ p. IsReached D.digest_of (record { net = p.net; bridge = p.bridge; events = p.events; refused = p.refused }) };
}

impl<D: Digester> Prover<D> {
    /// A bridge that was told nothing yet. What it passes on is lean exactly where there is a watch list.
    pub fn new(
        alloc: Global,
        net: Net,
        limits: Limits,
        watch: Option<Watch>,
    ) -> Result<Prover<D>, NoMemory>
        requires leaves { limits.leaves < 2 ^ 40 }
        ensures { IfOk result (λ p. p ≡ fresh_prover net limits watch) }
    {
        Ok(Prover {
            alloc,
            net,
            bridge: Bridge::new(alloc, net, limits, watch)?,
            events: 0,
            refused: false,
        })
    }

    // Tells the bridge an event, and answers what it says and passes on.
    fn tell<L: Ledger>(
        &mut self,
        event: Event<'_>,
        steps: &mut Steps<L>,
    ) -> Result<Proved, NoMemory>
        requires short { IsShort (event_of event) }
        requires counted { self.old.events < 2 ^ 63 }
        requires bytes { AreEventBytes (event_of event) }
        ensures verdict { IfOk result (λ p. p.verdict ≡ proved_of self.old (event_of event.entry)) }
        ensures message { IfOk result (λ p. option_map (λ bytes. bytes.items) p.message
            ≡ message_on D.digest_of self.old.bridge (event_in (event_of event.entry))) }
        ensures next { OnOk result (self.new ≡ next_prover D.digest_of self.old (event_of event.entry)) }
        ensures counted { OnOk result (self.new.events ≡ self.old.events + 1) }
        ensures net { self.new.net ≡ self.old.net }

        // What it passes on is no longer than its frames may be.
        ensures fits { IfOk result (λ p. is_made (Some p.verdict) ≡ true
            → CanBeWritten (beside (option_map (λ bytes. bytes.items) p.message) (event_of event.entry))) }
    {
        let proved = self.bridge.step(event, steps)?;
        self.refused |= is_refused(&proved.verdict);
        self.events += 1;
        Ok(proved)
    }
}

impl<D: Digester> EventHandler for Prover<D> {
    ghost State = { ProverState };

    ghost state = { λ p. p };

    ghost machine = { prove_machine D.digest_of };

    ghost digests = { true };

    #[tactic(auto, unfolding(crate::specs::Prover::proved_line))]
    fn take<L: Ledger>(
        &mut self,
        event: Event<'_>,
        sent: &mut Piece,
        said: &mut Vec<u8>,
        steps: &mut Steps<L>,
    ) -> Result<(), NoMemory> {
        let (alloc, net) = (self.alloc, self.net);
        check_bytes(&event);
        let proved = self.tell(event, steps)?;
        push_made(net, event, &proved, sent)?;
        line_of(alloc, &proved.verdict, said)
    }

    fn is_over(&self) -> bool {
        false
    }

    fn end<O: Sink>(&self, _out: &mut O, said: &mut Vec<u8>) -> Result<Status, Stop> {
        let line = end_line(self.events, &self.bridge.chain());
        push_line(self.alloc, line, said)?;
        Ok(status_of(self.refused))
    }
}

// Appends the frames of an event that was accepted or made.
fn push_made(net: Net, event: Event<'_>, proved: &Proved, sent: &mut Piece) -> Result<(), NoMemory>
    requires { is_made (Some proved.now.verdict) ≡ true
        → CanBeWritten (beside (option_map (λ bytes. bytes.items) proved.now.message) (event_of event)) }
    ensures { OnOk result (sent.new.bytes.items ≡ sent.old.bytes.items
        ++ made_frames net proved.now.verdict (option_map (λ bytes. bytes.items) proved.now.message) (event_of event.entry)) }
{
    if is_made(&proved.verdict) {
        push_event(net, event, proved, sent)
    } else {
        Ok(())
    }
}

// Appends the frames of an event, with the message of the bridge.
fn push_event(net: Net, event: Event<'_>, proved: &Proved, sent: &mut Piece) -> Result<(), NoMemory>
    requires { CanBeWritten (beside (option_map (λ bytes. bytes.items) proved.now.message) (event_of event)) }
    ensures { OnOk result (sent.new.bytes.items ≡ sent.old.bytes.items
        ++ event_text net (beside (option_map (λ bytes. bytes.items) proved.now.message) (event_of event.entry))) }
{
    match event {
        Event::Block { block, .. } => push_proved(net, block, proved, sent),
        Event::Rollback { count } => sent.push_rollback(count),
        Event::Stray => Ok(()),
    }
}

// Appends the frame of a block, behind that of its message.
fn push_proved(net: Net, block: &[u8], proved: &Proved, sent: &mut Piece) -> Result<(), NoMemory>
    requires { CanBeWritten (BlockCame block.now (option_map (λ bytes. bytes.items) proved.now.message)) }
    ensures { OnOk result (sent.new.bytes.items ≡ sent.old.bytes.items
        ++ event_text net (BlockCame block.now (option_map (λ bytes. bytes.items) proved.now.message))) }
{
    push_message(proved, sent)?;
    sent.push_block(net, block)
}

// Appends the frame of the message, where there is one.
fn push_message(proved: &Proved, sent: &mut Piece) -> Result<(), NoMemory>
    requires { IsShortMessage (option_map (λ bytes. bytes.items) proved.now.message) }
    ensures { OnOk result (sent.new.bytes.items ≡ sent.old.bytes.items ++ proof_frame_text (option_map (λ bytes. bytes.items) proved.now.message)) }
{
    match &proved.message {
        Some(message) => sent.push_proof(message),
        None => Ok(()),
    }
}

// What was asked for was done.
fn is_made(verdict: &Verdict) -> bool
    ensures { result ≡ is_made (Some verdict.now) }
{
    matches!(
        verdict,
        Verdict::Accepted { .. } | Verdict::RolledBack { .. }
    )
}
