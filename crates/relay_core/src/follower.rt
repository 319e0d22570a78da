//! A follower.
ghost use Rattle.std.specs.Prelude.{◌≡◌, ◌<◌, ◌≤◌, ◌^◌, ◌∷◌, [], length, reverse, slice_get, IfOk, OnOk, OnErr};
ghost use Rattle.uo_base.specs.FeedEvent.{event_of};
ghost use Rattle.relay_core.specs.World.{newest_serial, fresh_follower, applies, can_do, follower_moved};
ghost use Rattle.relay_core.specs.declared.act.Kind.TheVariants as Said;

use crate::act::Kind;
use crate::line::{cut, newest, put};
use crate::store::{Asked, Passed, Reply, event_at};
use compact_node::Node;
use leaf_cache::Watch;
use std::alloc::Global;
use std::marker::Model;
use std::sync::ledger::Ledger;
use uo_base::{Event, Limits, Net, NoMemory};
use uo_digest::{Digester, Steps};

// A node, and the serials of its levels, the newest of them last.
#[derive(Drop)]
pub(crate) struct Follower<D: Digester> {
    node: Node<D>,
    serials: Vec<u64>,
}

impl<D: Digester> Model for Follower<D> {
    ghost use Rattle.std.specs.Prelude.{◌≤◌, length, reverse};
    ghost use Rattle.relay_core.specs.World.{FollowerState};

    ghost Value = { FollowerState };

    ghost view = { λ x. record { node = x.node; serials = reverse x.serials.items } };

    ghost invariant = { λ x. length x.serials.items ≤ 101 };
}

impl<D: Digester> Follower<D> {
    pub(crate) fn new(
        alloc: Global,
        net: Net,
        limits: Limits,
        watch: Watch,
    ) -> Result<Follower<D>, NoMemory>
        requires leaves { limits.leaves < 2 ^ 40 }
        requires bytes { limits.bytes ≤ 2 ^ 48 }
        ensures { IfOk result (λ x. x ≡ fresh_follower net limits watch) }
    {
        let mut serials = Vec::new(alloc);
        serials.push(0)?;
        Ok(Follower {
            node: Node::new(alloc, net, limits, watch)?,
            serials,
        })
    }

    pub(crate) fn node(&self) -> &Node<D>
        ensures { result.now ≡ self.now.node }
    {
        &self.node
    }

    pub(crate) fn newest(&self) -> u64
        ensures { result ≡ newest_serial self.now.serials }
    {
        newest(self.serials.as_slice())
    }

    // The serials of its levels.
    pub(crate) fn ask(&self, alloc: Global) -> Result<Asked, NoMemory>
        ensures { IfOk result (λ ask. ask ≡ self.now.serials) }
    {
        Ok(Asked::new(self.serials.to_vec(alloc)?))
    }

    // Whether a reply applies.
    pub(crate) fn can_take(&self, reply: &Reply) -> bool
        ensures { result ≡ applies reply.now self.now }
    {
        self.newest() == reply.first && self.can_do(reply.kind)
    }

    fn can_do(&self, kind: Kind) -> bool
        ensures { result ≡ can_do kind (length self.now.node.older) }
    {
        match kind {
            Kind::Next { .. } => true,
            Kind::Back { count } => count <= self.node.kept_levels(),
            Kind::Same | Kind::Lost => false,
        }
    }

    // Does what a reply says. Where there is no memory, nothing changes.
    pub(crate) fn take<L: Ledger>(
        &mut self,
        sent: &[Passed],
        kind: Kind,
        steps: &mut Steps<L>,
    ) -> Result<(), NoMemory>
        ensures next { OnOk result (self.new ≡ follower_moved D.digest_of sent.now kind self.old) }
        ensures stays { OnErr result (self.new ≡ self.old) }
    {
        match kind {
            Kind::Next { serial } => self.go_on(sent, serial, steps),
            Kind::Back { count } => self.go_back(count, steps),
            Kind::Same | Kind::Lost => Ok(()),
        }
    }

    fn go_on<L: Ledger>(
        &mut self,
        sent: &[Passed],
        serial: u64,
        steps: &mut Steps<L>,
    ) -> Result<(), NoMemory>
        ensures next { OnOk result (self.new ≡ follower_moved D.digest_of sent.now (Said.Next serial) self.old) }
        ensures stays { OnErr result (self.new ≡ self.old) }
    {
        self.serials.reserve(1)?;
        self.node.step(event_at(sent, serial), steps)?;
        put(&mut self.serials, serial);
        Ok(())
    }

    fn go_back<L: Ledger>(&mut self, count: u32, steps: &mut Steps<L>) -> Result<(), NoMemory>
        ensures next { OnOk result (self.new ≡ follower_moved D.digest_of [] (Said.Back count) self.old) }
        ensures stays { OnErr result (self.new ≡ self.old) }
    {
        self.node.step(Event::Rollback { count }, steps)?;
        cut(&mut self.serials, count);
        Ok(())
    }
}
