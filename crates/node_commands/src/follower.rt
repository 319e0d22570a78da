//! What a run of `follow` keeps from event to event.
ghost use Rattle.std.specs.Prelude.{◌≡◌, ◌<◌, ◌^◌, ◌+◌, IfOk, OnOk, true};
ghost use Rattle.uo_base.specs.FeedEvent.{event_of};
ghost use Rattle.node_rules.specs.Fitting.{IsShort};
ghost use Rattle.node_commands.specs.Machine.{Following, follower_of, told_of, next_follower, follow_machine};

use crate::ending::{end_line, is_refused, status_of};
use block_rules::Verdict;
use compact_node::Node;
use feed_run::{EventHandler, Piece, Status, Stop};
use report_lines::{line_of, push_line};
use std::alloc::Global;
use std::marker::Model;
use std::sync::ledger::Ledger;
use uo_base::{Event, NoMemory, Sink};
use uo_digest::{Digester, Steps};

/// A node, how many events it was told, and whether it has refused one.
#[derive(Drop)]
pub struct Follower<D: Digester> {
    alloc: Global,
    node: Node<D>,
    events: u64,
    refused: bool,
}

impl<D: Digester> Model for Follower<D> {
    ghost use Rattle.node_commands.specs.Machine.{Following};

    ghost Value = { Following };

    ghost view = { λ f. record { node = f.node; events = f.events; refused = f.refused } };
}

impl<D: Digester> Follower<D> {
    /// This node, before the first event.
    pub fn new(alloc: Global, node: Node<D>) -> Follower<D>
        ensures { result ≡ follower_of node }
    {
        Follower {
            alloc,
            node,
            events: 0,
            refused: false,
        }
    }

    // Tells the node an event, and answers what it says.
    fn tell<L: Ledger>(
        &mut self,
        event: Event<'_>,
        steps: &mut Steps<L>,
    ) -> Result<Verdict, NoMemory>
        requires short { IsShort (event_of event) }
        requires counted { self.old.events < 2 ^ 63 }
        ensures verdict { IfOk result (λ verdict. verdict ≡ told_of D.digest_of self.old (event_of event.entry)) }
        ensures next { OnOk result (self.new ≡ next_follower D.digest_of self.old (event_of event.entry)) }
        ensures counted { OnOk result (self.new.events ≡ self.old.events + 1) }
    {
        let verdict = self.node.step(event, steps)?;
        self.refused |= is_refused(&verdict);
        self.events += 1;
        Ok(verdict)
    }
}

impl<D: Digester> EventHandler for Follower<D> {
    ghost State = { Following };

    ghost state = { λ f. f };

    ghost machine = { follow_machine D.digest_of };

    ghost digests = { true };

    #[tactic(auto, unfolding(crate::specs::Machine::event_line))]
    fn take<L: Ledger>(
        &mut self,
        event: Event<'_>,
        _sent: &mut Piece,
        said: &mut Vec<u8>,
        steps: &mut Steps<L>,
    ) -> Result<(), NoMemory> {
        let verdict = self.tell(event, steps)?;
        line_of(self.alloc, &verdict, said)
    }

    fn is_over(&self) -> bool {
        false
    }

    fn end<O: Sink>(&self, out: &mut O, said: &mut Vec<u8>) -> Result<Status, Stop> {
        self.node.write_state(out)?;
        let line = end_line(self.events, &self.node.chain());
        push_line(self.alloc, line, said)?;
        Ok(status_of(self.refused))
    }
}
