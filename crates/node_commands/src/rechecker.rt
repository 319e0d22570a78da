//! What a run of `recheck` keeps from event to event.
ghost use Rattle.std.specs.Prelude.{◌≡◌, ◌<◌, ◌^◌, ◌+◌, ◌++◌, false, IfOk, OnOk, true};
ghost use Rattle.uo_base.specs.FeedEvent.{event_of};
ghost use Rattle.node_rules.specs.Fitting.{IsShort};
ghost use Rattle.node_commands.specs.Rechecking.{RecheckerState, fresh_rechecker, machine_ending, next_rechecker, recheck_end, shown_line, shown_of};
ghost use Rattle.node_commands.specs.Rechecking.{silent_end};

use crate::telling::push_checked;
use audit_replay::{Audit, AuditLine};
use feed_run::{EventHandler, Piece, Status, Stop};
use leaf_cache::Watch;
use report_lines::push_clash;
use std::alloc::Global;
use std::marker::Model;
use std::sync::ledger::Ledger;
use ticket_check::recheck_ticket;
use uo_base::{Event, Limits, Net, NoMemory, Sink};
use uo_digest::{Digester, Steps};

/// An auditor, how many events it was told, and the text of a ticket.
#[derive(Drop)]
pub struct Rechecker<D: Digester> {
    alloc: Global,
    audit: Audit<D>,
    events: u64,
    ticket: Vec<u8>,
}

impl<D: Digester> Model for Rechecker<D> {
    ghost use Rattle.node_commands.specs.Rechecking.{RecheckerState};

    ghost Value = { RecheckerState };

    ghost view = { λ r. record { audit = r.audit; events = r.events; ticket = r.ticket.items } };
}

impl<D: Digester> Rechecker<D> {
    /// An auditor that was told nothing yet, and this ticket. It reads lean messages as one who watches these scripts.
    pub fn new(
        alloc: Global,
        net: Net,
        limits: Limits,
        watch: Watch,
        ticket: Vec<u8>,
    ) -> Result<Rechecker<D>, NoMemory>
        requires { limits.leaves < 2 ^ 40 }
        ensures { IfOk result (λ r. r ≡ fresh_rechecker net limits watch ticket.items) }
    {
        Ok(Rechecker {
            alloc,
            audit: Audit::new(alloc, net, limits, watch)?,
            events: 0,
            ticket,
        })
    }

    // Tells the auditor an event, and answers what it says or shows.
    fn tell<L: Ledger>(
        &mut self,
        event: Event<'_>,
        steps: &mut Steps<L>,
    ) -> Result<AuditLine, NoMemory>
        requires short { IsShort (event_of event) }
        requires going { self.old.audit.ended ≡ false }
        requires counted { self.old.events < 2 ^ 63 }
        ensures line { IfOk result (λ line. shown_of self.old.events line ≡ shown_line D.digest_of self.old (event_of event.entry)) }
        ensures next { OnOk result (self.new ≡ next_rechecker D.digest_of self.old (event_of event.entry)) }
        ensures counted { OnOk result (self.new.events ≡ self.old.events + 1) }
    {
        let line = self.audit.step(event, steps)?;
        self.events += 1;
        Ok(line)
    }

    /// Appends what the auditor says of the ticket, and answers the status. Nothing where an event was forged.
    pub fn judge<L: Ledger>(
        &self,
        said: &mut Vec<u8>,
        steps: &mut Steps<L>,
    ) -> Result<Status, NoMemory>
        ensures status { IfOk result (λ status. status ≡ (recheck_end D.digest_of self.now).status) }
        ensures said { OnOk result (said.new.items ≡ said.old.items ++ (recheck_end D.digest_of self.now).report) }
    {
        if self.audit.ended() {
            return Ok(Status::Clash);
        }
        let checked = recheck_ticket::<D, L>(self.alloc, &self.audit, &self.ticket, steps)?;
        push_checked(self.alloc, &checked, said)
    }
}

impl<D: Digester> EventHandler for Rechecker<D> {
    ghost State = { RecheckerState };

    ghost state = { λ r. r };

    ghost machine = { machine_ending D.digest_of silent_end };

    ghost digests = { true };

    fn take<L: Ledger>(
        &mut self,
        event: Event<'_>,
        _sent: &mut Piece,
        said: &mut Vec<u8>,
        steps: &mut Steps<L>,
    ) -> Result<(), NoMemory> {
        let (alloc, events) = (self.alloc, self.events);
        let line = self.tell(event, steps)?;
        push_shown(alloc, events, &line, said)
    }

    fn is_over(&self) -> bool {
        self.audit.ended()
    }

    // The ticket is judged by what counts its digests.
    fn end<O: Sink>(&self, _out: &mut O, _said: &mut Vec<u8>) -> Result<Status, Stop> {
        Ok(Status::AllAccepted)
    }
}

// Appends nothing of a verdict, and at a forged event behind so many the lines of the two texts.
fn push_shown(
    alloc: Global,
    events: u64,
    line: &AuditLine,
    said: &mut Vec<u8>,
) -> Result<(), NoMemory>
    ensures { OnOk result (said.new.items ≡ said.old.items ++ shown_of events line.now) }
{
    match line {
        AuditLine::Verdict(_) => Ok(()),
        AuditLine::Clash(clash) => {
            push_clash(
                alloc,
                events,
                &clash.first,
                &clash.second,
                &clash.digest,
                said,
            )
        }
    }
}
