//! What a run of `order` keeps from event to event.
ghost use Rattle.std.specs.Prelude.{◌≡◌, ◌<◌, ◌≤◌, ◌^◌, ◌+◌, ◌-◌, ◌++◌, [], false, length, All, IfOk, IfErr, OnOk, IsErrOf};
ghost use Rattle.std.specs.Io.KnownBytes.{Appends};
ghost use Rattle.uo_base.specs.Faults.{Rose};
ghost use Rattle.uo_base.specs.Moved.{AppendsPart};
ghost use Rattle.report_lines.specs.Lines.{whole_line};
ghost use Rattle.order_run.specs.Bodies.{with_body};
ghost use Rattle.order_run.specs.Frames.{numbered_text};
ghost use Rattle.order_run.specs.Machine.{OrderState, fresh_order, order_machine};

use crate::bodies::add_body;
use crate::path_frames::put_numbered;
use chain_order::{Arrivals, PathFault};
use feed_run::{EventHandler, Piece, Status, Stop};
use report_lines::{Line, push_line};
use std::alloc::Global;
use std::marker::Model;
use std::sync::ledger::Ledger;
use uo_base::{Event, Net, NoMemory, Sink};
use uo_digest::{Digest, Steps};

/// The blocks that have arrived, the hash of the last one of the path that is asked for, and how many blocks came.
#[derive(Drop)]
pub struct Orderer {
    alloc: Global,
    net: Net,
    tip: Digest,
    arrivals: Arrivals,
    blocks: u64,
}

impl Model for Orderer {
    ghost use Rattle.order_run.specs.Frames.{AreShort};
    ghost use Rattle.order_run.specs.Machine.{OrderState};

    ghost Value = { OrderState };

    ghost view = { λ o. record { net = o.net; tip = o.tip; arrivals = o.arrivals; blocks = o.blocks } };

    ghost invariant = { λ o. AreShort o.arrivals };
}

impl Orderer {
    /// Nothing has arrived.
    pub fn new(alloc: Global, net: Net, tip: Digest) -> Orderer
        ensures { result ≡ fresh_order net tip }
    {
        Orderer {
            alloc,
            net,
            tip,
            arrivals: Arrivals::new(alloc),
            blocks: 0,
        }
    }

    // Takes a block.
    fn take_block(&mut self, body: &[u8]) -> Result<(), NoMemory>
        requires short { length body.now ≤ 4000000 }
        requires counted { self.old.blocks < 2 ^ 63 }
        ensures { OnOk result (self.new ≡ record {
          net = self.old.net;
          tip = self.old.tip;
          arrivals = with_body self.old.arrivals body.now;
          blocks =
              self.old.blocks + 1;
        }) }
    {
        add_body(&mut self.arrivals, body)?;
        self.blocks += 1;
        Ok(())
    }

    // Writes the frames of a path, and appends its line.
    fn write_path<O: Sink>(
        &self,
        numbers: &[u64],
        out: &mut O,
        said: &mut Vec<u8>,
    ) -> Result<Status, Stop>
        requires { All (λ number. number < length self.now.arrivals) numbers.now }
        ensures status { IfOk result (λ status. status ≡ Status.AllAccepted) }
        ensures said { OnOk result (said.new.items ≡ said.old.items
            ++ whole_line (Line.Ordered (length numbers.now) (self.now.blocks - length numbers.now))) }
        ensures sent { OnOk result (Appends (O.held out.old) (O.held out.new) (numbered_text self.now.net self.now.arrivals numbers.now)) }
        ensures part { AppendsPart (O.held out.old) (O.held out.new) (numbered_text self.now.net self.now.arrivals numbers.now) }
        ensures untouched { numbered_text self.now.net self.now.arrivals numbers.now ≡ [] → out.new ≡ out.old }
        ensures read { IsErrOf result Stop.ReadFault → ⊥ }
        ensures write { IsErrOf result Stop.WriteFault → Rose (O.faults out.old) (O.faults out.new) }
        ensures later { O.faults out.old ≤ O.faults out.new }
    {
        put_numbered(self.net, &self.arrivals, numbers, out)?;
        let line = Line::Ordered {
            blocks: numbers.len() as u64,
            passed: self.blocks.saturating_sub(numbers.len() as u64),
        };
        push_line(self.alloc, line, said)?;
        Ok(Status::AllAccepted)
    }

    // Appends the line that says why there is no path.
    fn refuse(&self, line: Line, said: &mut Vec<u8>) -> Result<Status, Stop>
        ensures status { IfOk result (λ status. status ≡ Status.SomeRefused) }
        ensures said { OnOk result (said.new.items ≡ said.old.items ++ whole_line line) }
        ensures fault { IfErr result (λ stop. stop ≡ Stop.NoMemory) }
    {
        push_line(self.alloc, line, said)?;
        Ok(Status::SomeRefused)
    }
}

impl EventHandler for Orderer {
    ghost State = { OrderState };

    ghost state = { λ o. o };

    ghost machine = { order_machine };

    ghost digests = { false };

    #[tactic(auto, unfolding(crate::specs::Machine::next_order))]
    fn take<L: Ledger>(
        &mut self,
        event: Event<'_>,
        _sent: &mut Piece,
        _said: &mut Vec<u8>,
        _steps: &mut Steps<L>,
    ) -> Result<(), NoMemory> {
        match event {
            Event::Block { block, .. } => self.take_block(block),
            Event::Rollback { .. } => Ok(()),
            Event::Stray => Ok(()),
        }
    }

    fn is_over(&self) -> bool {
        false
    }

    fn end<O: Sink>(&self, out: &mut O, said: &mut Vec<u8>) -> Result<Status, Stop> {
        match self.arrivals.path(&self.tip) {
            Ok(numbers) => self.write_path(&numbers, out, said),
            Err(PathFault::NoTip) => self.refuse(Line::NoTip, said),
            Err(PathFault::Missing { hash }) => self.refuse(Line::Missing(hash), said),
            Err(PathFault::Loop { hash }) => self.refuse(Line::Loop(hash), said),
            Err(PathFault::NoMemory) => Err(Stop::NoMemory),
        }
    }
}
