//! The auditor.
ghost use Rattle.std.specs.Prelude.{◌≡◌, ◌+◌, ◌<◌, ◌≤◌, ◌^◌, false, true, is_none, is_some, IfOk, OnOk, OnErr};
ghost use Rattle.leaf_record.specs.History as history;
ghost use Rattle.uo_base.specs.FeedEvent.{event_of};

use crate::clashing::clash_in;
use crate::supply::{issued, live};
use block_rules::{Chain, Verdict};
use bridge_prover::{Bridge, Judged};
use clash_find::Clash;
use leaf_cache::Watch;
use std::alloc::Global;
use std::marker::Model;
use std::sync::ledger::Ledger;
use uo_base::{Event, Limits, Net, NoMemory};
use uo_digest::{Digester, Steps};

/// What an auditor says of an event.
#[derive(Drop)]
pub enum AuditLine {
    /// The verdict of a node that holds every output.
    Verdict(Verdict),
    /// The event is forged. The first text is that of a node of the forest, and the second is one that the message's proof digests.
    Clash(Clash),
}

/// A node that holds every output, by the digester `D`, and judges each block by the message beside it.
#[derive(Drop)]
pub struct Audit<D: Digester> {
    alloc: Global,
    bridge: Bridge<D>,
    ended: bool,
}

impl<D: Digester> Model for Audit<D> {
    ghost use Rattle.audit_replay.specs.Audit.{AuditState, IsAudit};

    ghost Value = { AuditState };

    ghost view = { λ a. record { bridge = a.bridge; ended = a.ended } };

    ghost invariant = { λ a. IsAudit D.digest_of a.bridge };
}

impl<D: Digester> Audit<D> {
    ghost use Rattle.node_rules.specs.Machine.{event_in};
    ghost use Rattle.node_rules.specs.Machine as machine;
    ghost use Rattle.node_rules.specs.Fitting.{IsShort};
    ghost use Rattle.bridge_prover.specs.Full.{JudgesAsFull, history_of, judged_on, most_judged};
    ghost use Rattle.audit_replay.specs.Audit.{IsAudit, fresh_audit, next_audit, verdict_in, ShowsClash};

    /// An auditor with no block and no output. It judges a lean message as one who watches these scripts.
    pub fn new(alloc: Global, net: Net, limits: Limits, watch: Watch) -> Result<Audit<D>, NoMemory>
        requires { limits.leaves < 2 ^ 40 }
        ensures { IfOk result (λ audit. audit ≡ fresh_audit net limits watch) }
    {
        Ok(Audit {
            alloc,
            bridge: Bridge::new(alloc, net, limits, Some(watch))?,
            ended: false,
        })
    }

    /// Whether an event was forged. Then no further one is judged.
    pub fn ended(&self) -> bool
        ensures { result ≡ self.now.ended }
    {
        self.ended
    }

    /// The blocks that were accepted.
    pub fn chain(&self) -> Chain
        ensures { result ≡ self.now.bridge.chain }
    {
        self.bridge.chain()
    }

    /// The bridge, which holds every output. It stands for a history, of which each live output has a text.
    pub fn bridge(&self) -> &Bridge<D>
        ensures is { result.now ≡ self.now.bridge }
        ensures audit { IsAudit D.digest_of self.now.bridge }
    {
        &self.bridge
    }

    /// The sum of the amounts of all live outputs, and the sum of what the blocks of the chain were allowed to issue, in satoshi.
    pub fn supply(&self) -> (u64, u64)
        ensures live { result.0 ≡ history.supply (history_of self.now.bridge) }
        ensures issued { result.1 ≡ machine.issued self.now.bridge.rules.net self.now.bridge.chain.blocks }
        ensures most { result.0 ≤ result.1 }
    {
        (live(&self.bridge), issued(&self.bridge))
    }

    /// Judges an event by all outputs and the message beside it, and goes on where it is accepted. At a refusal and where there is no
    /// memory the auditor stays as it was.
    pub fn step<L: Ledger>(
        &mut self,
        event: Event<'_>,
        steps: &mut Steps<L>,
    ) -> Result<AuditLine, NoMemory>
        requires going { self.old.ended ≡ false }
        requires short { IsShort (event_of event) }

        // No verdict, and so a clash, exactly where the event is forged.
        ensures verdict { IfOk result (λ line. verdict_in line ≡ judged_on D.digest_of self.old.bridge (event_in (event_of event.entry))) }
        ensures clash { IfOk result (λ line. ShowsClash D.digest_of self.old.bridge (event_in (event_of event.entry)) line) }
        ensures next { OnOk result (self.new ≡ next_audit D.digest_of self.old (event_in (event_of event.entry))) }
        ensures stays { OnErr result (self.new ≡ self.old) }

        // Where it stands for what the node holds that holds every output, it says what that node says, and that the event is
        // forged where that one has no verdict, and stands for what that node holds then.
        ensures refines { IfOk result (λ line. JudgesAsFull D.digest_of self.old.bridge (event_in (event_of event.entry)) (verdict_in line)
            self.new.bridge) }

        // Where the event is not forged, it takes no more digests than the bridge does to judge it.
        ensures steps { is_some (judged_on D.digest_of self.old.bridge (event_in (event_of event.entry))) ≡ true
            → steps.new ≤ steps.old + most_judged self.old.bridge (event_in (event_of event.entry)) }
    {
        match self.bridge.judge(event, steps)? {
            Judged::Verdict(verdict) => Ok(AuditLine::Verdict(verdict)),
            Judged::Forged => {
                let clash = clash_in(self.alloc, &self.bridge, event, steps)?;
                self.ended = true;
                Ok(AuditLine::Clash(clash))
            }
        }
    }
}
