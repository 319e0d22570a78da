//! The bridge.
ghost use Rattle.std.specs.Prelude.{◌≡◌, ◌+◌, ◌*◌, ◌<◌, ◌≤◌, ◌^◌, true, [], map, length, option_map, None, Some, IfOk, IfErr, OnOk, OnErr, All};
ghost use Rattle.block_codec.specs.Reading.{block_in};
ghost use Rattle.forest_place.specs.Position.{rows};
ghost use Rattle.uo_base.specs.FeedEvent.{event_of};

mod judge;

use crate::entries::{digests_of, restore_all, rising};
use crate::find::{Spent, found_by, numbers_of};
use crate::held::{cut, give_back, insert_all, keep, spend_all, undo_of, unspend_all};
use crate::message::{Draft, written};
use crate::watched::{append, cut_noted, hashes_of, keep_held, kept_targets, noted_of};
use block_codec::{BlockView, block_hash};
use block_rules::{Chain, Outside, Refusal, RuleFault, Spends, Verdict, money_rules, shape_rules};
use forest_place::Place;
use leaf_cache::Watch;
use leaf_record::LeafBuf;
use live_forest::Forest;
use node_rules::{Arrival, receive, rolled_back};
use output_index::Outputs;
use proof_shape::Survey;
use proof_wire::Rests;
use reorg_undo::{Ring, Undo};
use std::alloc::Global;
use std::marker::Model;
use std::sync::ledger::Ledger;
use uo_base::{Event, Limits, Net, NoMemory};
use uo_digest::{Digest, Digester, Steps};

/// What a bridge says of an event, and the proof message that it passes on beside an accepted block which spends from outside.
#[derive(Drop)]
pub struct Proved {
    /// What it says.
    pub verdict: Verdict,
    /// The message's bytes.
    pub message: Option<Vec<u8>>,
}

/// A node that holds every output, by the digester `D`. It judges each block by what it holds, and proves it to others. With a watch
/// list its messages are for those who watch this list: lean, without the hashes that they know.
#[derive(Drop)]
pub struct Bridge<D: Digester> {
    alloc: Global,
    net: Net,
    limits: Limits,
    chain: Chain,
    forest: Forest<D>,
    outputs: Outputs,
    undo: Ring<Undo>,
    room: LeafBuf<D>,
    watch: Option<Watch>,

    // The numbers of the held outputs that are watched, ascending.
    noted: Vec<u64>,
}

impl<D: Digester> Model for Bridge<D> {
    ghost use Rattle.std.specs.Prelude.{◌≡◌, length};
    ghost use Rattle.node_rules.specs.Judging.{Rules};
    ghost use Rattle.bridge_prover.specs.Bridge.{BridgeState};
    ghost use Rattle.bridge_prover.specs.Standing.{IsBridge, HoldsSame};
    ghost use Rattle.bridge_prover.specs.Watched.{scripts_of, noted_in};

    ghost Value = { BridgeState };

    ghost view = { λ s. record {
      rules = record { net = s.net; limits = s.limits };
      watch = s.watch;
      chain = s.chain;
      entries = s.forest.entries;
      held = s.outputs;
      undo = s.undo;
    } };

    ghost invariant = { λ s. IsBridge D.digest_of (record {
      rules = record { net = s.net; limits = s.limits };
      watch = s.watch;
      chain =
          s.chain;
      entries = s.forest.entries;
      held = s.outputs;
      undo = s.undo;
    }) × (s.noted.items ≡ noted_in (scripts_of s.watch) s.outputs) × HoldsSame s.outputs (length s.forest.entries) s.forest.held };
}

impl<D: Digester> Bridge<D> {
    ghost use Rattle.block_codec.specs.Block.{block_hash_of};
    ghost use Rattle.block_rules.specs.Judged.{ShapeJudged};
    ghost use Rattle.block_rules.specs.declared.verdict.Verdict.TheVariants as Said;
    ghost use Rattle.node_rules.specs.Laws.{kept_after};
    ghost use Rattle.node_rules.specs.Machine.{BlockCame, RollbackCame, event_in, gone_to};
    ghost use Rattle.node_rules.specs.Reading.{nothing};
    ghost use Rattle.node_rules.specs.Fitting.{IsShort};
    ghost use Rattle.node_rules.specs.Judged.{IsFirst};
    ghost use Rattle.std.specs.List.Sorted.{IsNonDecreasing, IsPermutation};
    ghost use Rattle.output_index.specs.Held.{is_live as is_held_live};
    ghost use Rattle.proof_wire.specs.BlockProof.{message_text};
    ghost use Rattle.node_rules.specs.Proving.{written_text};
    ghost use Rattle.cache_model.specs.Cache.{held};
    ghost use Rattle.cache_model.specs.Lists.{AscendByPlace};
    ghost use Rattle.live_forest.specs.State.{is_live};
    ghost use Rattle.bridge_prover.specs.Watched.{scripts_of, kept_in, places_in, known_list};
    ghost use Rattle.bridge_prover.specs.Bridge.{bridge_with, fresh_bridge, gone_back, message_by, message_on, most_steps, next_bridge, refusal_on};
    ghost use Rattle.bridge_prover.specs.Bridge.{spends_by, spent_by, undone_by, verdict_on};
    ghost use Rattle.bridge_prover.specs.Own.{first_missing, leaves_in};
    ghost use Rattle.bridge_prover.specs.Draft.{IsDraft, draft_beside, drafted};
    ghost use Rattle.bridge_prover.specs.Judged.{AreFound, IsPassed, IsReady};
    ghost use Rattle.bridge_prover.specs.Laws.{KnowsAsOwn, LevelsTold, SaysAsOwn};
    ghost use Rattle.bridge_prover.specs.Standing.{IsBridge, HoldsSame};

    /// A bridge with no block and no output, and room for what undoes a hundred blocks. Its messages are lean exactly where there is a watch list.
    pub fn new(
        alloc: Global,
        net: Net,
        limits: Limits,
        watch: Option<Watch>,
    ) -> Result<Bridge<D>, NoMemory>
        requires { limits.leaves < 2 ^ 40 }
        ensures { IfOk result (λ bridge. bridge ≡ fresh_bridge net limits watch) }
    {
        Ok(Bridge {
            alloc,
            net,
            limits,
            chain: Chain {
                blocks: 0,
                tip: Digest([0; 32]),
                leaves: 0,
            },
            forest: Forest::new(alloc),
            outputs: Outputs::new(alloc),
            undo: Ring::new(alloc)?,
            room: LeafBuf::new(alloc)?,
            watch,
            noted: Vec::new(alloc),
        })
    }

    /// The blocks that were accepted.
    pub fn chain(&self) -> Chain
        ensures is { result ≡ self.now.chain }
        ensures bridge { IsBridge D.digest_of self.now }
    {
        self.chain
    }

    /// The network whose rules it keeps.
    pub fn net(&self) -> Net
        ensures { result ≡ self.now.rules.net }
    {
        self.net
    }

    /// The limits that it keeps.
    pub fn limits(&self) -> Limits
        ensures { result ≡ self.now.rules.limits }
    {
        self.limits
    }

    /// By how many blocks the bridge can go back.
    pub fn kept_levels(&self) -> u32
        ensures { result ≡ length self.now.undo }
    {
        self.undo.kept()
    }

    /// The entries of all outputs that were ever added. Those have room whose outputs are held.
    pub fn forest(&self) -> &Forest<D>
        ensures entries { result.now.entries ≡ self.now.entries }
        ensures held { HoldsSame self.now.held (length self.now.entries) result.now.held }
    {
        &self.forest
    }

    /// The outputs, by number and by outpoint: those that are live, and those that the blocks spent which can be undone.
    pub fn outputs(&self) -> &Outputs
        ensures { result.now ≡ self.now.held }
    {
        &self.outputs
    }

    /// The known places with their digests, in ascending position: where watched live outputs stand, all places above these, and
    /// those that their proofs need. It is what is known to one who watches the list of the bridge; nothing where it has none.
    pub fn known_hashes(&self) -> Result<Vec<(Place, Digest)>, NoMemory>
        ensures is { IfOk result (λ known. known.items ≡ known_list D.digest_of (scripts_of self.now.watch) self.now.entries self.now.held) }

        ensures ascends { IfOk result (λ known. AscendByPlace known.items) }

        // Where the bridge stands for what the proving node holds, it is what is known there.
        ensures own { IfOk result (λ known. KnowsAsOwn D.digest_of self.now known.items) }
    {
        let kept = self.kept()?;
        self.hashes_at(&kept)
    }

    /// Judges an event by all outputs, and goes on where it is accepted; a message beside a block is not looked at. At a
    /// refusal and where there is no memory the bridge stays as it was. A rollback by `count` blocks undoes the last `count`
    /// accepted ones, or is too deep, exactly where `count` is above [`kept_levels`](Bridge::kept_levels).
    pub fn step<L: Ledger>(
        &mut self,
        event: Event<'_>,
        steps: &mut Steps<L>,
    ) -> Result<Proved, NoMemory>
        requires short { IsShort (event_of event) }
        ensures verdict { IfOk result (λ p. p.verdict ≡ verdict_on self.old (event_in (event_of event.entry))) }

        // Some exactly where a block was accepted that spends from outside.
        ensures message { IfOk result (λ p. option_map (λ bytes. bytes.items) p.message
            ≡ message_on D.digest_of self.old (event_in (event_of event.entry))) }
        ensures next { OnOk result (self.new ≡ next_bridge D.digest_of self.old (event_in (event_of event.entry))) }
        ensures stays { OnErr result (self.new ≡ self.old) }

        // Which levels it can go back to then, and how many.
        ensures levels { IfOk result (λ p. LevelsTold self.old p.verdict self.new) }
        ensures kept { IfOk result (λ p. length self.new.undo ≡ kept_after (Some p.verdict) (length self.old.undo)) }

        // Where it stands for what the proving node holds, it says what that node says, passes on what that one passes on, and
        // stands for what that node holds then.
        ensures refines { IfOk result (λ p. SaysAsOwn D.digest_of self.old (event_in (event_of event.entry)) p.verdict
            (option_map (λ bytes. bytes.items) p.message) self.new) }
        ensures steps { steps.new ≤ steps.old + most_steps self.old (event_in (event_of event.entry)) }
    {
        // What a bridge keeps is known.
        let _chain = &self.chain;
        match event {
            Event::Block { block, .. } => self.take_bytes(block, steps),
            Event::Rollback { count } => Ok(alone(self.roll_back(count, steps))),
            Event::Stray => Ok(alone(Verdict::Stray)),
        }
    }

    // Undoes so many blocks, where as many can be undone.
    fn roll_back<L: Ledger>(&mut self, count: u32, steps: &mut Steps<L>) -> Verdict
        ensures verdict { result ≡ verdict_on self.old (RollbackCame count) }
        ensures next { self.new ≡ next_bridge D.digest_of self.old (RollbackCame count) }
        ensures steps { steps.new ≤ steps.old + most_steps self.old (RollbackCame count) }
    {
        let kept = self.kept_levels();
        if count <= kept {
            self.go_back(count, steps);
            self.gone_to(count)
        } else {
            Verdict::TooDeep { asked: count, kept }
        }
    }

    fn gone_to(&self, count: u32) -> Verdict
        ensures { result ≡ gone_to count self.now.chain }
    {
        rolled_back(count, self.chain())
    }

    fn go_back<L: Ledger>(&mut self, count: u32, steps: &mut Steps<L>)
        ensures next { self.new ≡ gone_back D.digest_of count self.old }
        ensures steps { steps.new ≤ steps.old + spent_by count self.old.undo * (rows (length self.old.entries) + 1) }
    {
        for _ in 0..count {
            self.go_one_back(steps);
        }
    }

    // The newest block, if one can be undone, is undone. This takes no memory.
    fn go_one_back<L: Ledger>(&mut self, steps: &mut Steps<L>)
        ensures next { self.new ≡ undone_by D.digest_of self.old.undo self.old }
        ensures steps { steps.new ≤ steps.old + spent_by 1 self.old.undo * (rows (length self.old.entries) + 1) }
    {
        let Some(undo) = self.undo.pop() else {
            return;
        };
        self.forest.cut(undo.leaves, steps);
        restore_all(
            &mut self.forest,
            &self.outputs,
            &mut self.room,
            &undo.spent,
            steps,
        );
        cut(&mut self.outputs, undo.leaves, self.chain.leaves);
        unspend_all(&mut self.outputs, &undo.spent);
        cut_noted(&mut self.noted, undo.leaves);
        self.chain = Chain {
            blocks: undo.blocks,
            tip: undo.tip,
            leaves: undo.leaves,
        };
    }

    // The places of the watched live outputs, as targets.
    fn kept(&self) -> Result<Survey, NoMemory>
        ensures leaves { IfOk result (λ t. t.leaves ≡ length self.now.entries) }
        ensures targets { IfOk result (λ t. t.targets ≡ places_in self.now.entries (kept_in (scripts_of self.now.watch) self.now.held)) }
        ensures bridge { IsBridge D.digest_of self.now }
    {
        kept_targets::<D>(self.alloc, &self.forest, &self.outputs, &self.noted)
    }

    // The digests of what is known where the kept entries stand at these places.
    fn hashes_at(&self, kept: &Survey) -> Result<Vec<(Place, Digest)>, NoMemory>
        requires { kept.now.leaves ≡ length self.now.entries }
        ensures { IfOk result (λ known. known.items ≡ held D.digest_of self.now.entries kept.now.targets) }
    {
        hashes_of::<D>(self.alloc, &self.forest, kept)
    }

    // What the message beside a block tells besides the proof, where what it spends from outside has these rests: none where that is nothing.
    fn draft(&self, external: &[Outside], rests: Rests) -> Result<Option<Draft>, NoMemory>
        ensures { IfOk result (λ d. d ≡ draft_beside self.now external.now rests) }
    {
        if external.is_empty() {
            return Ok(None);
        }
        let kept = self.kept()?;
        let lean = self.watch.is_some();
        Ok(Some(Draft { lean, kept, rests }))
    }

    // Goes on by a block that spends these entries, which have these rests, and answers the message that shows them, or leaves all as it was where
    // there is no memory.
    fn extend<L: Ledger>(
        &mut self,
        hash: Digest,
        spends: &Spends<'_>,
        numbers: Vec<u64>,
        rests: Rests,
        steps: &mut Steps<L>,
    ) -> Result<Option<Vec<u8>>, NoMemory>
        requires ready { IsReady D.digest_of self.old hash numbers.items spends.now.new }
        requires rests { rests ≡ map (λ leaf. leaf.rest) (leaves_in self.old.held numbers.items) }
        ensures says { IfOk result (λ m. option_map (λ bytes. bytes.items) m
            ≡ written_text spends.now.external (message_by D.digest_of self.old.watch self.old.entries self.old.held numbers.items)) }
        ensures next { OnOk result (self.new ≡ bridge_with D.digest_of self.old hash numbers.items spends.now.new) }
        ensures stays { OnErr result (self.new ≡ self.old) }
        ensures steps { steps.new ≤ steps.old + length numbers.items * rows (length self.old.entries) + 2 * length spends.now.new + 40 }
    {
        let spent = rising(self.alloc, &numbers)?;
        let draft = self.draft(spends.external(), rests)?;
        self.take_rising(hash, spends, numbers, &spent, draft, steps)
    }

    // The same with no message.
    fn take_in<L: Ledger>(
        &mut self,
        hash: Digest,
        spends: &Spends<'_>,
        numbers: Vec<u64>,
        steps: &mut Steps<L>,
    ) -> Result<(), NoMemory>
        requires { IsReady D.digest_of self.old hash numbers.items spends.now.new }
        ensures next { OnOk result (self.new ≡ bridge_with D.digest_of self.old hash numbers.items spends.now.new) }
        ensures stays { OnErr result (self.new ≡ self.old) }
        ensures steps { steps.new ≤ steps.old + length numbers.items * rows (length self.old.entries) + 2 * length spends.now.new + 40 }
    {
        let spent = rising(self.alloc, &numbers)?;
        self.take_rising(hash, spends, numbers, &spent, None, steps)?;
        Ok(())
    }

    // The same, given these entries in ascending order besides, and what the message that is answered tells besides the proof. The index changes
    // before the message is made: what it changes was read a short while ago, and the message reads all over the forest. Where there is no memory
    // for the message, that is taken back.
    fn take_rising<L: Ledger>(
        &mut self,
        hash: Digest,
        spends: &Spends<'_>,
        numbers: Vec<u64>,
        spent: &[u64],
        draft: Option<Draft>,
        steps: &mut Steps<L>,
    ) -> Result<Option<Vec<u8>>, NoMemory>
        requires ready { IsReady D.digest_of self.old hash numbers.items spends.now.new }
        requires same { IsPermutation numbers.items spent.now }
        requires rise { IsNonDecreasing spent.now }
        requires draft { IsDraft self.old.entries numbers.items draft }
        ensures says { IfOk result (λ m. option_map (λ bytes. bytes.items) m
            ≡ option_map (λ d. message_text (drafted D.digest_of self.old.entries numbers.items spent.now d)) draft) }
        ensures next { OnOk result (self.new ≡ bridge_with D.digest_of self.old hash numbers.items spends.now.new) }
        ensures stays { OnErr result (self.new ≡ self.old) }
        ensures steps { steps.new ≤ steps.old + length numbers.items * rows (length self.old.entries) + 2 * length spends.now.new + 40 }
    {
        let digests = digests_of::<D, L>(self.alloc, &mut self.room, spends, steps)?;
        let noted = noted_of(self.alloc, &self.watch, self.chain.leaves, spends)?;
        self.forest.reserve(digests.len() as u64)?;
        self.noted.reserve(noted.len())?;
        insert_all(&mut self.outputs, self.chain.leaves, spends)?;
        spend_all(&mut self.outputs, &numbers);
        let Ok(message) = written::<D>(self.alloc, &self.forest, draft, &numbers, spent) else {
            let end = self.chain.leaves + spends.new_count();
            give_back(&mut self.outputs, &numbers, self.chain.leaves, end);
            return Err(NoMemory);
        };
        // Nothing can fail from here on.
        append(&mut self.noted, &noted);
        self.forest.apply_block(spent, &digests, steps);
        let undo = undo_of(&self.chain, numbers);
        keep(&mut self.undo, &mut self.forest, &mut self.outputs, undo);
        keep_held(&mut self.noted, &self.outputs);
        self.chain = Chain {
            blocks: self.chain.blocks + 1,
            tip: hash,
            leaves: self.chain.leaves + digests.len() as u64,
        };
        Ok(message)
    }

    // Judges a block, and goes on where it breaks no rule.
    fn pass<L: Ledger>(
        &mut self,
        block: &BlockView<'_>,
        hash: Digest,
        steps: &mut Steps<L>,
    ) -> Result<Option<Vec<u8>>, RuleFault>
        requires { hash ≡ block_hash_of block.now }
        ensures ok { IfOk result (λ m. IsPassed D.digest_of self.old block.now (option_map (λ bytes. bytes.items) m) self.new) }
        ensures err { IfErr result (λ fault. IsFirst (refusal_on self.old block.now) fault) }
        ensures stays { OnErr result (self.new ≡ self.old) }
        ensures steps { steps.new ≤ steps.old + most_steps self.old (BlockCame (Some block.now) nothing) }
    {
        let spends = self.shape(block)?;
        // A block that is not too heavy has few inputs, since it has a text.
        let _bytes = block.bytes();
        let Spent {
            numbers,
            found,
            rests,
        } = self.look_up(spends.external())?;
        match money_rules(&spends, &found) {
            Ok(_) => match self.extend(hash, &spends, numbers, rests, steps) {
                Ok(message) => Ok(message),
                Err(NoMemory) => Err(RuleFault::NoMemory),
            },
            Err(why) => Err(RuleFault::Refused(why)),
        }
    }

    // Asks the rules on the block alone.
    fn shape<'b>(&self, block: &BlockView<'b>) -> Result<Spends<'b>, RuleFault>
        ensures judged { ShapeJudged self.now.rules.net self.now.rules.limits self.now.chain block.now result }
        ensures bridge { IsBridge D.digest_of self.now }
    {
        shape_rules(self.alloc, block, &self.chain, self.net, self.limits)
    }

    // The newest live entry of each external input's outpoint, and what it is; or the first input of which there is none.
    fn look_up(&self, external: &[Outside]) -> Result<Spent, RuleFault>
        ensures ok { IfOk result (λ spent. AreFound self.now.held external.now spent.numbers.items spent.found.items spent.rests) }
        ensures err { IfErr result (λ fault. IsFirst (first_missing self.now.held external.now) fault) }
    {
        let numbers = numbers_of(self.alloc, &self.outputs, external)?;
        Ok(found_by(self.alloc, &self.outputs, numbers)?)
    }

    fn take_block<L: Ledger>(
        &mut self,
        block: &BlockView<'_>,
        steps: &mut Steps<L>,
    ) -> Result<Proved, NoMemory>
        ensures verdict { IfOk result (λ p. p.verdict ≡ verdict_on self.old (BlockCame (Some block.now) nothing)) }
        ensures message { IfOk result (λ p. option_map (λ bytes. bytes.items) p.message
            ≡ message_on D.digest_of self.old (BlockCame (Some block.now) nothing)) }
        ensures next { OnOk result (self.new ≡ next_bridge D.digest_of self.old (BlockCame (Some block.now) nothing)) }
        ensures stays { OnErr result (self.new ≡ self.old) }
        ensures steps { steps.new ≤ steps.old + most_steps self.old (BlockCame (Some block.now) nothing) }
    {
        let height = self.chain.blocks;
        let hash = block_hash(block);
        match self.pass(block, hash, steps) {
            Ok(message) => Ok(Proved {
                verdict: Verdict::Accepted {
                    height,
                    hash,
                    leaves: self.chain.leaves,
                },
                message,
            }),
            Err(RuleFault::Refused(why)) => Ok(self.refused(Some(hash), why)),
            Err(RuleFault::NoMemory) => Err(NoMemory),
        }
    }

    fn take_bytes<L: Ledger>(
        &mut self,
        bytes: &[u8],
        steps: &mut Steps<L>,
    ) -> Result<Proved, NoMemory>
        requires short { length bytes.now < 2 ^ 32 }
        ensures verdict { IfOk result (λ p. p.verdict ≡ verdict_on self.old (BlockCame (block_in bytes.now) nothing)) }
        ensures message { IfOk result (λ p. option_map (λ bytes. bytes.items) p.message
            ≡ message_on D.digest_of self.old (BlockCame (block_in bytes.now) nothing)) }
        ensures next { OnOk result (self.new ≡ next_bridge D.digest_of self.old (BlockCame (block_in bytes.now) nothing)) }
        ensures stays { OnErr result (self.new ≡ self.old) }
        ensures steps { steps.new ≤ steps.old + most_steps self.old (BlockCame (block_in bytes.now) nothing) }
    {
        let chain = self.chain();
        match receive(self.alloc, chain.tip, bytes)? {
            Arrival::NoBlock => Ok(self.refused(None, Refusal::Block)),
            Arrival::Unlinked(hash) => Ok(self.refused(Some(hash), Refusal::Link)),
            Arrival::Linked(block) => self.take_block(&block, steps),
        }
    }

    fn refused(&self, hash: Option<Digest>, why: Refusal) -> Proved
        ensures verdict { result.verdict ≡ Said.Refused self.now.chain.blocks hash why }
        ensures message { result.message ≡ None }
    {
        alone(Verdict::Refused {
            height: self.chain.blocks,
            hash,
            why,
        })
    }
}

// What is said with no message.
fn alone(verdict: Verdict) -> Proved
    ensures verdict { result.verdict ≡ verdict }
    ensures message { result.message ≡ None }
{
    Proved {
        verdict,
        message: None,
    }
}
