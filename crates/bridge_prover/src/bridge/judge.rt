//! How a bridge judges an event with the message beside it.
ghost use Rattle.std.specs.Prelude.{◌≡◌, ◌+◌, ◌*◌, ◌≤◌, ◌<◌, ◌^◌, length, option_copied, option_map, None, IfOk, IfErr, IfSome, OnOk, OnErr};
ghost use Rattle.block_codec.specs.Reading.{block_in};
ghost use Rattle.uo_base.specs.FeedEvent.{event_of};

use super::Bridge;
use crate::Judged;
use crate::accept::check_proof;
use crate::shown::right_entries;
use block_codec::{BlockView, block_hash};
use block_rules::{Found, Outside, Refusal, RuleFault, Spends, Verdict, money_rules};
use forest_place::Place;
use node_rules::{Arrival, message_rules, receive};
use proof_wire::MessageView;
use std::sync::ledger::Ledger;
use uo_base::{Event, NoMemory};
use uo_digest::{Digest, Digester, Steps};

// The entries that a right message shows, and what the rules on money ask of them.
#[derive(Drop)]
struct Shown {
    numbers: Vec<u64>,
    found: Vec<Found>,
}

impl<D: Digester> Bridge<D> {
    ghost use Rattle.block_codec.specs.Block.{BlockFits, block_hash_of};
    ghost use Rattle.forest_place.specs.Position.{rows};
    ghost use Rattle.block_rules.specs.declared.refusal.Refusal.TheVariants as Why;
    ghost use Rattle.block_rules.specs.declared.verdict.Verdict.TheVariants as Said;
    ghost use Rattle.node_rules.specs.Fitting.{EventFits, IsShort};
    ghost use Rattle.node_rules.specs.Judged.{IsFirst};
    ghost use Rattle.node_rules.specs.Machine.{BlockCame, event_in};
    ghost use Rattle.node_rules.specs.Accepting.{proof_fault};
    ghost use Rattle.node_rules.specs.Judging.{found_by};
    ghost use Rattle.node_rules.specs.Messages.{points_of};
    ghost use Rattle.node_rules.specs.Reading.{handed_in, read};
    ghost use Rattle.bridge_prover.specs.Full.{JudgesAsFull, LevelsJudged, history_of, judged_on, most_judged, next_judged, verdict_in, watched_by};
    ghost use Rattle.bridge_prover.specs.Shown.{AreKnown, Shows};
    ghost use Rattle.bridge_prover.specs.Taken.{IsTaken, IsNotTaken, refusal_beside, view_on};

    /// Judges an event by all outputs and the message beside it, and goes on where it is accepted: the answer is the verdict of a
    /// node that holds every output, which refuses a proof for the reason for which the roots do not accept it, or that the event
    /// is forged. At a forged event, at a refusal and where there is no memory the bridge stays as it was.
    pub fn judge<L: Ledger>(
        &mut self,
        event: Event<'_>,
        steps: &mut Steps<L>,
    ) -> Result<Judged, NoMemory>
        requires short { IsShort (event_of event) }
        ensures verdict { IfOk result (λ j. verdict_in j ≡ judged_on D.digest_of self.old (event_in (event_of event.entry))) }
        ensures next { OnOk result (self.new ≡ next_judged D.digest_of self.old (event_in (event_of event.entry))) }
        ensures stays { OnErr result (self.new ≡ self.old) }
        ensures steps { steps.new ≤ steps.old + most_judged self.old (event_in (event_of event.entry)) }

        // The block has a text.
        ensures fits { IfOk result (λ j. EventFits (event_in (event_of event.entry))) }

        // Which levels it can go back to then.
        ensures levels { IfOk result (λ j. LevelsJudged self.old (verdict_in j) self.new) }

        // Where it stands for what the node holds that holds every output, it says what that node says, and that the event is
        // forged where that one has no verdict, and stands for what that node holds then.
        ensures refines { IfOk result (λ j. JudgesAsFull D.digest_of self.old (event_in (event_of event.entry)) (verdict_in j) self.new) }
    {
        // What a bridge keeps is known.
        let _chain = &self.chain;
        match event {
            Event::Block { block, message } => self.judge_bytes(block, message, steps),
            Event::Rollback { count } => Ok(Judged::Verdict(self.roll_back(count, steps))),
            Event::Stray => Ok(Judged::Verdict(Verdict::Stray)),
        }
    }

    fn judge_bytes<L: Ledger>(
        &mut self,
        bytes: &[u8],
        message: Option<&[u8]>,
        steps: &mut Steps<L>,
    ) -> Result<Judged, NoMemory>
        requires short { length bytes.now < 2 ^ 32 }
        ensures verdict { IfOk result (λ j. verdict_in j
            ≡ judged_on D.digest_of self.old (BlockCame (block_in bytes.now) (handed_in (option_copied message.entry)))) }
        ensures next { OnOk result (self.new ≡ next_judged D.digest_of self.old
            (BlockCame (block_in bytes.now) (handed_in (option_copied message.entry)))) }
        ensures stays { OnErr result (self.new ≡ self.old) }
        ensures fits { IfOk result (λ j. EventFits (BlockCame (block_in bytes.now) (handed_in (option_copied message.entry)))) }
        ensures steps { steps.new ≤ steps.old + most_judged self.old (BlockCame (block_in bytes.now) (handed_in (option_copied message.entry))) }
    {
        let chain = self.chain();
        match receive(self.alloc, chain.tip, bytes)? {
            Arrival::NoBlock => Ok(self.turned_down(None, Refusal::Block)),
            Arrival::Unlinked(hash) => Ok(self.turned_down(Some(hash), Refusal::Link)),
            Arrival::Linked(block) => self.judge_block(&block, message, steps),
        }
    }

    fn judge_block<L: Ledger>(
        &mut self,
        block: &BlockView<'_>,
        message: Option<&[u8]>,
        steps: &mut Steps<L>,
    ) -> Result<Judged, NoMemory>
        ensures verdict { IfOk result (λ j. verdict_in j
            ≡ judged_on D.digest_of self.old (BlockCame (Some block.now) (handed_in (option_copied message.entry)))) }
        ensures next { OnOk result (self.new ≡ next_judged D.digest_of self.old
            (BlockCame (Some block.now) (handed_in (option_copied message.entry)))) }
        ensures stays { OnErr result (self.new ≡ self.old) }
        ensures fits { BlockFits block.now }
        ensures steps { steps.new ≤ steps.old + most_judged self.old (BlockCame (Some block.now) (handed_in (option_copied message.entry))) }
    {
        // That it has a text.
        let _bytes = block.bytes();
        let height = self.chain.blocks;
        let hash = block_hash(block);
        match self.take(block, hash, message, steps) {
            Ok(true) => Ok(Judged::Verdict(Verdict::Accepted {
                height,
                hash,
                leaves: self.chain.leaves,
            })),
            Ok(false) => Ok(Judged::Forged),
            Err(RuleFault::Refused(why)) => Ok(self.turned_down(Some(hash), why)),
            Err(RuleFault::NoMemory) => Err(NoMemory),
        }
    }

    fn turned_down(&self, hash: Option<Digest>, why: Refusal) -> Judged
        ensures { verdict_in result ≡ Some (Said.Refused self.now.chain.blocks hash why) }
    {
        Judged::Verdict(Verdict::Refused {
            height: self.chain.blocks,
            hash,
            why,
        })
    }

    // Judges a block with what stands beside it, and goes on where no rule is broken. The answer is whether it did, or whether the event is forged.
    fn take<L: Ledger>(
        &mut self,
        block: &BlockView<'_>,
        hash: Digest,
        message: Option<&[u8]>,
        steps: &mut Steps<L>,
    ) -> Result<bool, RuleFault>
        requires { hash ≡ block_hash_of block.now }
        ensures ok { IfOk result (λ taken. IsTaken D.digest_of self.old block.now
            (handed_in (option_copied message.entry)) taken self.new) }
        ensures err { IfErr result (λ fault. IsNotTaken D.digest_of self.old block.now (handed_in (option_copied message.entry)) fault) }
        ensures stays { OnErr result (self.new ≡ self.old) }
        ensures steps { steps.new ≤ steps.old + most_judged self.old (BlockCame (Some block.now) (handed_in (option_copied message.entry))) }
    {
        let spends = self.shape(block)?;
        // A block that is not too heavy has few inputs, since it has a text.
        let _bytes = block.bytes();
        let Some(shown) = self.show(&spends, message, steps)? else {
            return Ok(false);
        };
        match money_rules(&spends, &shown.found) {
            Ok(_) => match self.take_in(hash, &spends, shown.numbers, steps) {
                Ok(()) => Ok(true),
                Err(NoMemory) => Err(RuleFault::NoMemory),
            },
            Err(why) => Err(RuleFault::Refused(why)),
        }
    }

    // What the message beside a block shows, where the roots accept it. Nothing where it is not right all the same.
    fn show<L: Ledger>(
        &mut self,
        spends: &Spends<'_>,
        message: Option<&[u8]>,
        steps: &mut Steps<L>,
    ) -> Result<Option<Shown>, RuleFault>
        requires { length spends.now.external < 2 ^ 32 }
        ensures passes { OnOk result (refusal_beside D.digest_of self.old spends.now.external (handed_in (option_copied message.entry)) ≡ None) }
        ensures shows { IfOk result (λ shown. Shows D.digest_of (watched_by self.old) (history_of self.old) spends.now.external
            (handed_in (option_copied message.entry)) (option_map (λ s. s.numbers.items) shown)) }
        ensures found { IfOk result (λ shown. IfSome shown (λ s. s.found.items ≡ found_by (handed_in (option_copied message.entry)))) }
        ensures err { IfErr result (λ fault. IsFirst
            (refusal_beside D.digest_of self.old spends.now.external (handed_in (option_copied message.entry))) fault) }
        ensures stays { self.new ≡ self.old }
        ensures steps { steps.new ≤ steps.old + length spends.now.external + 2 * (length spends.now.external * rows (length self.old.entries)) }
    {
        let Some(message) = message_rules(self.alloc, spends, message)? else {
            return Ok(Some(Shown {
                numbers: Vec::new(self.alloc),
                found: Vec::new(self.alloc),
            }));
        };
        let known = self.known_hashes()?;
        self.show_by(spends.external(), &message, &known, steps)
    }

    // The same of a message that was read, where these are the digests that it may leave out.
    fn show_by<L: Ledger>(
        &mut self,
        external: &[Outside],
        message: &MessageView<'_>,
        known: &[(Place, Digest)],
        steps: &mut Steps<L>,
    ) -> Result<Option<Shown>, RuleFault>
        requires shown { length message.now.proof.spends ≡ length external.now }
        requires few { length external.now < 2 ^ 32 }
        requires known { AreKnown D.digest_of (watched_by self.old) (history_of self.old) known.now }
        ensures passes { OnOk result (proof_fault D.digest_of (view_on D.digest_of self.old) (points_of external.now) message.now ≡ None) }
        ensures shows { IfOk result (λ shown. Shows D.digest_of (watched_by self.old) (history_of self.old) external.now (read message.now)
            (option_map (λ s. s.numbers.items) shown)) }
        ensures found { IfOk result (λ shown. IfSome shown (λ s. s.found.items ≡ found_by (read message.now))) }
        ensures err { IfErr result (λ fault. IsFirst
            (option_map Why.Proof (proof_fault D.digest_of (view_on D.digest_of self.old) (points_of external.now) message.now)) fault) }
        ensures stays { self.new ≡ self.old }
        ensures steps { steps.new ≤ steps.old + length external.now + 2 * (length external.now * rows (length self.old.entries)) }
    {
        let checked = check_proof(
            self.alloc,
            &self.forest,
            &mut self.room,
            external,
            message,
            known,
            steps,
        )?;
        let right = right_entries(
            self.alloc,
            &self.forest,
            &self.outputs,
            external,
            message,
            &checked.targets,
            &checked.hashes,
        )?;
        let Some(numbers) = right else {
            return Ok(None);
        };
        Ok(Some(Shown {
            numbers,
            found: checked.into_found(),
        }))
    }
}
