//! A world.
ghost use Rattle.std.specs.Prelude.{◌≡◌, ◌+◌, ◌<◌, ◌≤◌, ◌^◌, ◌++◌, ◌∷◌, [], ℕ, suc, length, map, reverse, slice_get, slice_set, option_map};
ghost use Rattle.std.specs.Prelude.{option_copied, if◌then◌else◌, ◌-◌, List, Some, IfOk, OnOk, OnErr};
ghost use Rattle.uo_base.specs.FeedEvent as Feed;
ghost use Rattle.uo_base.specs.FeedEvent.{event_of};
ghost use Rattle.node_rules.specs.Fitting.{IsShort};
ghost use Rattle.node_rules.specs.Machine.{event_in};
ghost use Rattle.bridge_prover.specs.Bridge.{verdict_on};
ghost use Rattle.relay_core.specs.Acts.{WorldAct, FollowerAsked, AskServed, ReplyDelivered, IsShortAct, act_of};
ghost use Rattle.relay_core.specs.World.{newest_serial, applies, follower_moved, delivered, fresh_follower};
ghost use Rattle.relay_core.specs.Branches.{AreActBytes};

use crate::act::{Act, Outcome};
use crate::follower::Follower;
use crate::handling::{roll_back, take_block};
use crate::line::reply;
use crate::store::{Asked, Passed, Reply};
use block_rules::Verdict;
use bridge_prover::Bridge;
use compact_node::Node;
use leaf_cache::Watch;
use node_rules::check_bytes;
use std::alloc::Global;
use std::marker::Model;
use std::sync::ledger::Ledger;
use uo_base::{Event, Limits, Net, NoMemory};
use uo_digest::{Digester, Steps};

/// One bridge and its followers, with all that was asked and answered, by the digester `D`. Each block that the bridge accepts gets the next serial,
/// from 1 on; 0 stands for the chain without blocks. All accepted blocks are kept, with their messages.
#[derive(Drop)]
pub struct World<D: Digester> {
    alloc: Global,
    bridge: Bridge<D>,
    // The blocks that the bridge accepted, by serial. What it took back stays, since a reply may name it.
    sent: Vec<Passed>,
    // The serials of its present chain, the newest last.
    chain: Vec<u64>,
    asks: Vec<Asked>,
    replies: Vec<Reply>,
    followers: Vec<Follower<D>>,
}

impl<D: Digester> Model for World<D> {
    ghost use Rattle.std.specs.Prelude.{length, reverse};
    ghost use Rattle.relay_core.specs.World.{WorldState};
    ghost use Rattle.relay_core.specs.Rising.{IsKept};

    ghost Value = { WorldState };

    ghost view = { λ w. record {
      bridge = w.bridge;
      sent = w.sent.items;
      chain = reverse w.chain.items;
      asks = w.asks.items;
      replies =
          w.replies.items;
      followers = w.followers.items;
    } };

    ghost invariant = { λ w. IsKept (length w.sent.items) w.chain.items (length w.followers.items) };
}

impl<D: Digester> World<D> {
    ghost use Rattle.relay_core.specs.World.{fresh_world, with_event, next_world, outcome_on};
    ghost use Rattle.relay_core.specs.Changes.{ChangesAsTold};
    ghost use Rattle.relay_core.specs.Branches.{AreOnBranches, Begun, IsNeverRefused, IsNotLost, StandsForActs};

    /// A world with no block, and one follower for each watch list, in their order.
    pub fn new(
        alloc: Global,
        net: Net,
        limits: Limits,
        watches: Vec<Watch>,
    ) -> Result<World<D>, NoMemory>
        requires leaves { limits.leaves < 2 ^ 40 }
        requires bytes { limits.bytes ≤ 2 ^ 48 }
        requires few { length watches.items < 2 ^ 32 }
        ensures is { IfOk result (λ w. w ≡ fresh_world net limits watches.items) }

        // It stands for no act.
        ensures stands { IfOk result (λ w. StandsForActs D.digest_of (record { net = net; limits = limits; lists = watches.items }) [] w) }
    {
        let mut chain = Vec::new(alloc);
        chain.push(0)?;
        Ok(World {
            alloc,
            bridge: Bridge::new(alloc, net, limits, None)?,
            sent: Vec::new(alloc),
            chain,
            asks: Vec::new(alloc),
            replies: Vec::new(alloc),
            followers: followers_of(alloc, net, limits, watches)?,
        })
    }

    /// How many followers there are.
    pub fn followers(&self) -> u32
        ensures { result ≡ length self.now.followers }
    {
        self.followers.len() as u32
    }

    /// The bridge.
    pub fn bridge(&self) -> &Bridge<D>
        ensures { result.now ≡ self.now.bridge }
    {
        &self.bridge
    }

    /// The node of a follower.
    pub fn node(&self, follower: u32) -> &Node<D>
        requires { follower < length self.now.followers }
        ensures { option_map (λ x. x.node) (slice_get self.now.followers follower) ≡ Some result.now }
    {
        self.followers[follower as usize].node()
    }

    /// The serial of the newest block of a follower; 0 where it has none.
    pub fn serial(&self, follower: u32) -> u64
        requires { follower < length self.now.followers }
        ensures { option_map (λ x. newest_serial x.serials) (slice_get self.now.followers follower) ≡ Some result }
    {
        self.followers[follower as usize].newest()
    }

    /// Does one act, and answers what it comes to. Where there is no memory, the world stays as it was.
    pub fn step<L: Ledger>(
        &mut self,
        act: Act<'_>,
        steps: &mut Steps<L>,
    ) -> Result<Outcome, NoMemory>
        requires { IsShortAct (act_of act) }
        ensures outcome { IfOk result (λ o. o ≡ outcome_on self.old (act_of act.entry)) }
        ensures next { OnOk result (self.new ≡ next_world D.digest_of self.old (act_of act.entry)) }
        ensures stays { OnErr result (self.new ≡ self.old) }

        // Each outcome but the verdict on a block that is accepted or a rollback that is made leaves the bridge as it was, and each but `Moved` the
        // nodes.
        ensures told { IfOk result (λ o. ChangesAsTold o self.old self.new) }

        // At most one serial is given.
        ensures counted { length self.new.sent ≤ length self.old.sent + 1 }

        // Where it stands for some acts, it stands for these and this one then, each follower is on the branch of its newest serial, no reply that
        // applies is refused, and none says `Lost`.
        ensures stands { OnOk result ((begun : Begun) (acts : List WorldAct) → StandsForActs D.digest_of begun acts self.old
            → StandsForActs D.digest_of begun (acts ++ act_of act.entry ∷ []) self.new) }
        ensures branches { OnOk result ((begun : Begun) (acts : List WorldAct) → StandsForActs D.digest_of begun acts self.old
            → AreOnBranches D.digest_of begun (acts ++ act_of act.entry ∷ []) self.new) }
        ensures accepted { (begun : Begun) (acts : List WorldAct) → StandsForActs D.digest_of begun acts self.old
            → IsNeverRefused D.digest_of self.old }
        ensures found { IfOk result (λ o. (begun : Begun) (acts : List WorldAct) → StandsForActs D.digest_of begun acts self.old → IsNotLost o) }
    {
        check_act(&act);
        self.handle(act, steps)
    }

    fn handle<L: Ledger>(&mut self, act: Act<'_>, steps: &mut Steps<L>) -> Result<Outcome, NoMemory>
        requires { IsShortAct (act_of act) }
        ensures outcome { IfOk result (λ o. o ≡ outcome_on self.old (act_of act.entry)) }
        ensures next { OnOk result (self.new ≡ next_world D.digest_of self.old (act_of act.entry)) }
        ensures stays { OnErr result (self.new ≡ self.old) }
    {
        match act {
            Act::Bridge(event) => Ok(Outcome::Judged(self.judge(event, steps)?)),
            Act::Ask { follower } => self.ask(follower),
            Act::Serve { ask } => self.serve(ask),
            Act::Deliver { follower, reply } => self.deliver(follower, reply, steps),
        }
    }

    // The bridge handles an event.
    fn judge<L: Ledger>(
        &mut self,
        event: Event<'_>,
        steps: &mut Steps<L>,
    ) -> Result<Verdict, NoMemory>
        requires { IsShort (event_of event) }
        ensures verdict { IfOk result (λ v. v ≡ verdict_on self.old.bridge (event_in (event_of event.entry))) }
        ensures next { OnOk result (self.new ≡ with_event D.digest_of self.old (event_of event.entry)) }
        ensures stays { OnErr result (self.new ≡ self.old) }
    {
        match event {
            Event::Block { block, message } => self.take_block(block, message, steps),
            Event::Rollback { count } => self.roll_back(count, steps),
            Event::Stray => Ok(Verdict::Stray),
        }
    }

    fn take_block<L: Ledger>(
        &mut self,
        block: &[u8],
        message: Option<&[u8]>,
        steps: &mut Steps<L>,
    ) -> Result<Verdict, NoMemory>
        requires { length block.now < 2 ^ 32 }
        ensures verdict { IfOk result (λ v. v ≡ verdict_on self.old.bridge (event_in (Feed.BlockCame block.now (option_copied message.entry)))) }
        ensures next { OnOk result (self.new ≡ with_event D.digest_of self.old (Feed.BlockCame block.now (option_copied message.entry))) }
        ensures stays { OnErr result (self.new ≡ self.old) }
    {
        take_block(
            self.alloc,
            &mut self.bridge,
            &mut self.sent,
            &mut self.chain,
            block,
            message,
            steps,
        )
    }

    fn roll_back<L: Ledger>(
        &mut self,
        count: u32,
        steps: &mut Steps<L>,
    ) -> Result<Verdict, NoMemory>
        ensures verdict { IfOk result (λ v. v ≡ verdict_on self.old.bridge (event_in (Feed.RollbackCame count))) }
        ensures next { OnOk result (self.new ≡ with_event D.digest_of self.old (Feed.RollbackCame count)) }
        ensures stays { OnErr result (self.new ≡ self.old) }
    {
        let given = self.sent.len() as u64;
        roll_back(&mut self.bridge, &mut self.chain, count, given, steps)
    }

    // A follower asks.
    fn ask(&mut self, follower: u32) -> Result<Outcome, NoMemory>
        ensures outcome { IfOk result (λ o. o ≡ outcome_on self.old (FollowerAsked follower)) }
        ensures next { OnOk result (self.new ≡ next_world D.digest_of self.old (FollowerAsked follower)) }
        ensures stays { OnErr result (self.new ≡ self.old) }
    {
        let Some(asker) = self.followers.get(follower as usize) else {
            return Ok(Outcome::Unknown);
        };
        let ask = asker.ask(self.alloc)?;
        let number = self.asks.len() as u64;
        self.asks.push(ask)?;
        Ok(Outcome::Asked { ask: number })
    }

    // The bridge answers an ask.
    fn serve(&mut self, ask: u64) -> Result<Outcome, NoMemory>
        ensures outcome { IfOk result (λ o. o ≡ outcome_on self.old (AskServed ask)) }
        ensures next { OnOk result (self.new ≡ next_world D.digest_of self.old (AskServed ask)) }
        ensures stays { OnErr result (self.new ≡ self.old) }
    {
        let Some(asked) = self.asks.get(ask as usize) else {
            return Ok(Outcome::Unknown);
        };
        let answer = reply(self.chain.as_slice(), asked.serials());
        let number = self.replies.len() as u64;
        self.replies.push(answer)?;
        Ok(Outcome::Replied {
            reply: number,
            kind: answer.kind,
        })
    }

    // A follower gets a reply.
    fn deliver<L: Ledger>(
        &mut self,
        follower: u32,
        reply: u64,
        steps: &mut Steps<L>,
    ) -> Result<Outcome, NoMemory>
        ensures outcome { IfOk result (λ o. o ≡ outcome_on self.old (ReplyDelivered follower reply)) }
        ensures next { OnOk result (self.new ≡ next_world D.digest_of self.old (ReplyDelivered follower reply)) }
        ensures stays { OnErr result (self.new ≡ self.old) }
    {
        let i = follower as usize;
        if i >= self.followers.len() {
            return Ok(Outcome::Unknown);
        }
        let Some(reply) = self.replies.get(reply as usize) else {
            return Ok(Outcome::Unknown);
        };
        hand(&mut self.followers[i], self.sent.as_slice(), reply, steps)
    }
}

// The follower takes the reply, if it applies.
fn hand<D: Digester, L: Ledger>(
    follower: &mut Follower<D>,
    sent: &[Passed],
    reply: &Reply,
    steps: &mut Steps<L>,
) -> Result<Outcome, NoMemory>
    ensures outcome { IfOk result (λ o. o ≡ delivered (Some follower.old) (Some reply.now)) }
    ensures next { OnOk result (follower.new
        ≡ (if applies reply.now follower.old then follower_moved D.digest_of sent.now reply.now.kind follower.old else follower.old)) }
    ensures stays { OnErr result (follower.new ≡ follower.old) }
{
    if follower.can_take(reply) {
        follower.take(sent, reply.kind, steps)?;
        Ok(Outcome::Moved {
            serial: follower.newest(),
        })
    } else {
        Ok(Outcome::Stale)
    }
}

// One follower for each watch list.
fn followers_of<D: Digester>(
    alloc: Global,
    net: Net,
    limits: Limits,
    watches: Vec<Watch>,
) -> Result<Vec<Follower<D>>, NoMemory>
    requires leaves { limits.leaves < 2 ^ 40 }
    requires bytes { limits.bytes ≤ 2 ^ 48 }
    ensures { IfOk result (λ xs. xs.items ≡ map (fresh_follower net limits) watches.items) }
{
    let mut followers = Vec::new(alloc);
    for watch in watches {
        followers.push(Follower::new(alloc, net, limits, watch)?)?;
    }
    Ok(followers)
}

// What an act holds is bytes.
fn check_act(act: &Act<'_>)
    ensures { AreActBytes (act_of act.now) }
{
    if let Act::Bridge(event) = act {
        check_bytes(event);
    }
}
