//! What a run of `audit` keeps from event to event.
ghost use Rattle.std.specs.Prelude.{◌≡◌, ◌<◌, ◌^◌, ◌+◌, ◌++◌, false, IfOk, OnOk, true};
ghost use Rattle.uo_base.specs.FeedEvent.{event_of};
ghost use Rattle.node_rules.specs.Fitting.{IsShort};
ghost use Rattle.audit_replay.specs.Audit.{verdict_in};
ghost use Rattle.node_commands.specs.Auditor.{AuditorState, fresh_auditor, next_auditor, refuses, audited_text, judged_line, audit_machine};

use crate::ending::{end_line, is_refused, status_of};
use audit_replay::{Audit, AuditLine};
use feed_run::{EventHandler, Piece, Status, Stop};
use leaf_cache::Watch;
use report_lines::{Line, line_of, push_clash, push_line};
use std::alloc::Global;
use std::marker::Model;
use std::sync::ledger::Ledger;
use uo_base::{Event, Limits, Net, NoMemory, Sink};
use uo_digest::{Digester, Steps};

/// An auditor, how many events it was told, and whether it has refused one.
#[derive(Drop)]
pub struct Auditor<D: Digester> {
    alloc: Global,
    audit: Audit<D>,
    events: u64,
    refused: bool,
}

impl<D: Digester> Model for Auditor<D> {
    ghost use Rattle.node_commands.specs.Auditor.{AuditorState};

    ghost Value = { AuditorState };

    ghost view = { λ a. record { audit = a.audit; events = a.events; refused = a.refused } };
}

impl<D: Digester> Auditor<D> {
    /// An auditor that was told nothing yet. It reads lean messages as one who watches these scripts.
    pub fn new(
        alloc: Global,
        net: Net,
        limits: Limits,
        watch: Watch,
    ) -> Result<Auditor<D>, NoMemory>
        requires leaves { limits.leaves < 2 ^ 40 }
        ensures { IfOk result (λ a. a ≡ fresh_auditor net limits watch) }
    {
        Ok(Auditor {
            alloc,
            audit: Audit::new(alloc, net, limits, watch)?,
            events: 0,
            refused: false,
        })
    }

    // Tells the auditor an event, and answers what it says or shows.
    fn tell<L: Ledger>(
        &mut self,
        event: Event<'_>,
        steps: &mut Steps<L>,
    ) -> Result<AuditLine, NoMemory>
        requires short { IsShort (event_of event) }
        requires going { self.old.audit.ended ≡ false }
        requires counted { self.old.events < 2 ^ 63 }
        ensures line { IfOk result (λ line. audited_text self.old.events line ≡ judged_line D.digest_of self.old (event_of event.entry)) }
        ensures next { OnOk result (self.new ≡ next_auditor D.digest_of self.old (event_of event.entry)) }
        ensures counted { OnOk result (self.new.events ≡ self.old.events + 1) }
    {
        let line = self.audit.step(event, steps)?;
        self.refused |= refuses(&line);
        self.events += 1;
        Ok(line)
    }
}

impl<D: Digester> EventHandler for Auditor<D> {
    ghost State = { AuditorState };

    ghost state = { λ a. a };

    ghost machine = { audit_machine D.digest_of };

    ghost digests = { true };

    fn take<L: Ledger>(
        &mut self,
        event: Event<'_>,
        _sent: &mut Piece,
        said: &mut Vec<u8>,
        steps: &mut Steps<L>,
    ) -> Result<(), NoMemory> {
        let (alloc, events) = (self.alloc, self.events);
        let line = self.tell(event, steps)?;
        push_audited(alloc, events, &line, said)
    }

    fn is_over(&self) -> bool {
        self.audit.ended()
    }

    fn end<O: Sink>(&self, _out: &mut O, said: &mut Vec<u8>) -> Result<Status, Stop> {
        if self.audit.ended() {
            return Ok(Status::Clash);
        }
        let (live, issued) = self.audit.supply();
        push_line(self.alloc, Line::Supply { live, issued }, said)?;
        let line = end_line(self.events, &self.audit.chain());
        push_line(self.alloc, line, said)?;
        Ok(status_of(self.refused))
    }
}

// What was asked for was not done.
fn refuses(line: &AuditLine) -> bool
    ensures { result ≡ refuses (verdict_in line.now) }
{
    match line {
        AuditLine::Verdict(verdict) => is_refused(verdict),
        AuditLine::Clash(_) => false,
    }
}

// Appends the line of an event behind so many, and at a forged one those of the two texts.
fn push_audited(
    alloc: Global,
    events: u64,
    line: &AuditLine,
    said: &mut Vec<u8>,
) -> Result<(), NoMemory>
    ensures { OnOk result (said.new.items ≡ said.old.items ++ audited_text events line.now) }
{
    match line {
        AuditLine::Verdict(verdict) => line_of(alloc, verdict, said),
        AuditLine::Clash(clash) => {
            push_clash(
                alloc,
                events,
                &clash.first,
                &clash.second,
                &clash.digest,
                said,
            )
        }
    }
}
