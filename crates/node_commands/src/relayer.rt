//! What a run of `relay` keeps from event to event.
ghost use Rattle.std.specs.Prelude.{◌≡◌, ◌<◌, ◌++◌, false, Some, IfOk, OnOk, length, option_map, slice_get, true};
ghost use Rattle.uo_base.specs.FeedEvent.{event_of};
ghost use Rattle.feed_run.specs.Status.{is_stop, status_of};
ghost use Rattle.node_rules.specs.Fitting.{IsShort};
ghost use Rattle.relay_core.specs.Acts.{IsShortAct, act_of};
ghost use Rattle.relay_core.specs.World.{outcome_on};
ghost use Rattle.report_lines.specs.Lines.{whole_line};
ghost use Rattle.node_commands.specs.Relayer.{RelayState, is_undone, node_line, node_lines, outcome_line, own_act, relay_end, relay_last};
ghost use Rattle.node_commands.specs.Relayer.{relay_machine, reply_kind};

use crate::ending::{end_line, is_refused, status_of, tip_of};
use crate::serve::bad_end;
use feed_frame::FeedFault;
use feed_run::{EventHandler, Piece, Status, Stop};
use relay_core::{Act, Kind, Outcome, World};
use relay_script::{Script, ScriptLine};
use report_lines::{Line, ReplyKind, push_line};
use std::alloc::Global;
use std::marker::Model;
use std::sync::ledger::Ledger;
use uo_base::{Event, NoMemory, Sink};
use uo_digest::{Digester, Steps};

/// A world, what is left of its script, how many lines that had, and whether the bridge has refused an event.
#[derive(Drop)]
pub struct Relayer<'s, D: Digester> {
    alloc: Global,
    world: World<D>,
    script: Script<'s>,
    lines: u64,
    refused: bool,
}

impl<'s, D: Digester> Model for Relayer<'s, D> {
    ghost use Rattle.node_commands.specs.Relayer.{RelayState};

    ghost Value = { RelayState };

    ghost view = { λ r. record { world = r.world; script = r.script; lines = r.lines; refused = r.refused } };
}

impl<'s, D: Digester> Relayer<'s, D> {
    ghost use Rattle.node_commands.specs.Relayer.{IsLineTaken, IsPlayed, acted, next_relay, turn_lines};

    /// This world, before the first line of the script.
    pub fn new(alloc: Global, world: World<D>, script: Script<'s>) -> Relayer<'s, D>
        ensures { result ≡ record { world = world; script = script.entry; lines = length script.entry; refused = false } }
    {
        let lines = script.lines();
        Relayer {
            alloc,
            world,
            script,
            lines,
            refused: false,
        }
    }

    /// Does what is left of the script when the feed has ended, and appends its lines; behind a feed that was read to its end the last lines too, and
    /// else the one that says why it ended. Answers how the run ended.
    #[tactic(auto, unfolding(crate::specs::Relayer::relay_last))]
    pub fn finish<L: Ledger>(
        &mut self,
        ending: Option<FeedFault>,
        said: &mut Vec<u8>,
        steps: &mut Steps<L>,
    ) -> Result<Status, NoMemory>
        ensures status { IfOk result (λ status. status ≡ (relay_last D.digest_of self.old ending).status) }
        ensures goes_on { IfOk result (λ status. is_stop status ≡ false) }
        ensures said { OnOk result (said.new.items ≡ said.old.items ++ (relay_last D.digest_of self.old ending).report) }
    {
        self.play_rest(ending.is_none(), said, steps)?;
        match bad_end(ending) {
            Some((status, line)) => {
                push_line(self.alloc, line, said)?;
                Ok(status)
            }
            None => self.push_end(said),
        }
    }

    // Takes the next line of the script.
    fn next_line(&mut self) -> Option<ScriptLine>
        ensures { IsLineTaken self.old result self.new }
    {
        self.script.next_line()
    }

    // Does an act, and appends its line.
    fn play<L: Ledger>(
        &mut self,
        act: Act<'_>,
        said: &mut Vec<u8>,
        steps: &mut Steps<L>,
    ) -> Result<(), NoMemory>
        requires short { IsShortAct (act_of act) }
        ensures next { OnOk result (self.new ≡ acted D.digest_of self.old (act_of act.entry)) }
        ensures said { OnOk result (said.new.items ≡ said.old.items
            ++ whole_line (outcome_line (Some (outcome_on self.old.world (act_of act.entry))))) }
    {
        let outcome = self.world.step(act, steps)?;
        self.refused |= is_undone(&outcome);
        push_line(self.alloc, line_of_outcome(&outcome), said)
    }

    // Does the acts of the script up to and with the next by which the bridge takes an event, which is this one.
    fn play_turn<L: Ledger>(
        &mut self,
        event: Event<'_>,
        said: &mut Vec<u8>,
        steps: &mut Steps<L>,
    ) -> Result<(), NoMemory>
        requires short { IsShort (event_of event) }
        ensures next { OnOk result (self.new ≡ next_relay D.digest_of self.old (event_of event.entry)) }
        ensures said { OnOk result (said.new.items ≡ said.old.items ++ turn_lines D.digest_of self.old (event_of event.entry)) }
    {
        loop {
            let Some(line) = self.next_line() else {
                return Ok(());
            };
            match own_act(line) {
                Some(act) => self.play(act, said, steps)?,
                None => return self.play(Act::Bridge(event), said, steps),
            }
        }
    }

    // Does the acts that are left when there is no further event. Where the feed was not read to its end, the first of the bridge is the last.
    fn play_rest<L: Ledger>(
        &mut self,
        whole: bool,
        said: &mut Vec<u8>,
        steps: &mut Steps<L>,
    ) -> Result<(), NoMemory>
        ensures { OnOk result (IsPlayed D.digest_of whole self.old self.new said.old.items said.new.items) }
    {
        loop {
            let Some(line) = self.next_line() else {
                return Ok(());
            };
            let Some(act) = own_act(line) else {
                if !whole {
                    return Ok(());
                }
                push_line(self.alloc, Line::NoEvent, said)?;
                continue;
            };
            self.play(act, said, steps)?;
        }
    }

    // Appends a line for each follower, and the last one.
    fn push_end(&self, said: &mut Vec<u8>) -> Result<Status, NoMemory>
        ensures status { IfOk result (λ status. status ≡ status_of self.now.refused) }
        ensures said { OnOk result (said.new.items ≡ said.old.items ++ (relay_end self.now.refused self.now.lines self.now.world).report) }
    {
        push_nodes(self.alloc, &self.world, said)?;
        let line = end_line(self.lines, &self.world.bridge().chain());
        push_line(self.alloc, line, said)?;
        Ok(status_of(self.refused))
    }
}

// Appends a line for each follower.
fn push_nodes<D: Digester>(
    alloc: Global,
    world: &World<D>,
    said: &mut Vec<u8>,
) -> Result<(), NoMemory>
    ensures { OnOk result (said.new.items ≡ said.old.items ++ node_lines 0 world.now.followers) }
{
    for follower in 0..world.followers() {
        push_line(alloc, node_line(world, follower), said)?;
    }
    Ok(())
}

// The last line of a follower.
fn node_line<D: Digester>(world: &World<D>, follower: u32) -> Line
    requires { follower < length world.now.followers }
    ensures { option_map (node_line follower) (slice_get world.now.followers follower) ≡ Some result }
{
    let chain = world.node(follower).chain();
    Line::Node {
        follower,
        serial: world.serial(follower),
        tip: tip_of(&chain),
        leaves: chain.leaves,
    }
}

impl<'s, D: Digester> EventHandler for Relayer<'s, D> {
    ghost State = { RelayState };

    ghost state = { λ r. r };

    ghost machine = { relay_machine D.digest_of };

    ghost digests = { true };

    fn take<L: Ledger>(
        &mut self,
        event: Event<'_>,
        _sent: &mut Piece,
        said: &mut Vec<u8>,
        steps: &mut Steps<L>,
    ) -> Result<(), NoMemory> {
        self.play_turn(event, said, steps)
    }

    fn is_over(&self) -> bool {
        false
    }

    fn end<O: Sink>(&self, _out: &mut O, _said: &mut Vec<u8>) -> Result<Status, Stop> {
        Ok(Status::AllAccepted)
    }
}

// The act of a line by which no bridge takes an event.
fn own_act(line: ScriptLine) -> Option<Act<'static>>
    ensures { option_map act_of result ≡ own_act line }
{
    match line {
        ScriptLine::Bridge => None,
        ScriptLine::Ask { follower } => Some(Act::Ask { follower }),
        ScriptLine::Serve { ask } => Some(Act::Serve { ask }),
        ScriptLine::Deliver { follower, reply } => Some(Act::Deliver { follower, reply }),
    }
}

// The bridge did not do what was asked for.
fn is_undone(outcome: &Outcome) -> bool
    ensures { result ≡ is_undone (Some outcome.now) }
{
    match outcome {
        Outcome::Judged(verdict) => is_refused(verdict),
        _ => false,
    }
}

fn line_of_outcome(outcome: &Outcome) -> Line
    ensures { result ≡ outcome_line (Some outcome.now) }
{
    match outcome {
        Outcome::Judged(verdict) => Line::Verdict(*verdict),
        Outcome::Asked { ask } => Line::Asked(*ask),
        Outcome::Replied { reply, kind } => Line::Replied {
            reply: *reply,
            kind: reply_kind(*kind),
        },
        Outcome::Moved { serial } => Line::Moved(*serial),
        Outcome::Stale => Line::Stale,
        Outcome::Unknown => Line::Unknown,
    }
}

fn reply_kind(kind: Kind) -> ReplyKind
    ensures { result ≡ reply_kind kind }
{
    match kind {
        Kind::Next { .. } => ReplyKind::Next,
        Kind::Same => ReplyKind::Same,
        Kind::Back { count } => ReplyKind::Back(count),
        Kind::Lost => ReplyKind::Lost,
    }
}
