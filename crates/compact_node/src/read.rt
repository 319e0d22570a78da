//! Reading a node from the text of a state.
ghost use Rattle.std.specs.Prelude.{◌≡◌, ◌↔◌, ℕ, ◌+◌, ◌<◌, ◌≤◌, ◌^◌, [], length, IfOk, OnOk, IsErrOf};
ghost use Rattle.std.specs.List.{AllByRecursion};
ghost use Rattle.leaf_cache.specs.Parted.{HasNothing, HaveSameLists};
ghost use Rattle.state_text.specs.Cached.{IsFilled, state_in};
ghost use Rattle.state_text.specs.Fits.{IsState};
ghost use Rattle.state_text.specs.Stored.{IsOfVersion, IsTextOf, StateValue};
ghost use Rattle.compact_node.specs.Levels.{AreMarked, IsPastOf};
ghost use Rattle.compact_node.specs.State.{IsReadAs, cached_state};

use crate::node::Node;
use crate::past::Past;
use block_rules::Chain;
use cache_update::between;
use forest_roots::{Joins, Roots};
use leaf_cache::{Cache, Parts, Watch};
use leaf_record::LeafBuf;
use reorg_undo::Ring;
use state_text::{StateFault, StoredLevel, StoredState};
use std::alloc::Global;
use std::mem;
use std::sync::ledger::Ledger;
use uo_base::{Limits, NoMemory};
use uo_digest::{Digest, Digester, Steps};

// The watched scripts of a state, which has none then.
fn take_watch<D>(alloc: Global, state: &mut StoredState<D>) -> Watch
    ensures watch { result ≡ state.old.scripts }
    ensures rest { state.new ≡ record { net = state.old.net; blocks = state.old.blocks; scripts = []; levels = state.old.levels } }
{
    mem::replace(&mut state.watch, Watch::empty(alloc))
}

// The chain of so many blocks whose newest is this one, and that made the entries of these roots.
fn chain_of<D: Digester>(blocks: u32, tip: Digest, roots: &Roots<D>) -> Chain
    ensures { result ≡ record { blocks = blocks; tip = tip; leaves = roots.now.leaves } }
{
    Chain {
        blocks,
        tip,
        leaves: roots.leaves(),
    }
}

// An older level of so many blocks, behind the one in front of it. The cache gets room for its lists.
fn past_of<D: Digester>(
    alloc: Global,
    cache: &mut Cache<D>,
    newer: &StoredLevel<D>,
    older: &StoredLevel<D>,
    below: u32,
) -> Result<Past<D>, NoMemory>
    ensures past { IfOk result (λ past. IsPastOf newer.now older.now below cache.new.parts past) }
    ensures lists { HaveSameLists cache.new.parts cache.old.parts }
    ensures watch { cache.new.watch ≡ cache.old.watch }
    ensures kept_room { cache.old.parts.kept_room ≤ cache.new.parts.kept_room }
    ensures held_room { cache.old.parts.held_room ≤ cache.new.parts.held_room }
{
    let mark = between(alloc, cache, &newer.parts, &older.parts)?;
    Ok(Past {
        chain: chain_of(below, older.tip, &older.roots),
        roots: older.roots.pack(alloc)?,
        mark,
    })
}

// The older ones of these levels, of which the newest has so many blocks. The cache, which is to have the lists of the newest,
// gets the room that all of them take.
fn older_of<D: Digester>(
    alloc: Global,
    cache: &mut Cache<D>,
    levels: &[StoredLevel<D>],
    blocks: u32,
) -> Result<Ring<Past<D>>, NoMemory>
    requires some { 1 ≤ length levels.now }
    requires few { length levels.now ≤ 101 }
    requires blocks { length levels.now ≤ blocks + 1 }
    ensures marked { IfOk result (λ past. AreMarked levels.now blocks cache.new.parts past) }
    ensures lists { HaveSameLists cache.new.parts cache.old.parts }
    ensures watch { cache.new.watch ≡ cache.old.watch }
{
    let mut past = Ring::new(alloc)?;
    let mut i = levels.len() - 1;
    while i > 0 {
        let older = past_of(alloc, cache, &levels[i - 1], &levels[i], blocks - i as u32)?;
        past.push(older);
        i -= 1;
    }
    Ok(past)
}

// The lists, which have nothing, become those of the copy.
fn take_over(lists: &mut Parts, copy: &mut Parts) -> Result<(), NoMemory>
    requires { HasNothing lists.old }
    ensures lists { OnOk result (HaveSameLists lists.new copy.old) }
    ensures kept_room { lists.old.kept_room ≤ lists.new.kept_room }
    ensures held_room { lists.old.held_room ≤ lists.new.held_room }
{
    lists.kept.append(&mut copy.kept)?;
    lists.held.append(&mut copy.held)?;
    Ok(())
}

// The cache, which has nothing, gets these lists.
fn fill<D: Digester>(alloc: Global, cache: &mut Cache<D>, parts: &Parts) -> Result<(), NoMemory>
    requires { HasNothing cache.old.parts }
    ensures lists { OnOk result (HaveSameLists cache.new.parts parts.now) }
    ensures watch { cache.new.watch ≡ cache.old.watch }
    ensures kept_room { cache.old.parts.kept_room ≤ cache.new.parts.kept_room }
    ensures held_room { cache.old.parts.held_room ≤ cache.new.parts.held_room }
{
    let mut copy = parts.copy(alloc)?;
    take_over(cache.parts(), &mut copy)
}

// The node of a state that was read.
fn node_of<D: Digester>(
    alloc: Global,
    state: StoredState<D>,
    limits: Limits,
) -> Result<Node<D>, NoMemory>
    requires leaves { limits.leaves < 2 ^ 40 }
    requires bytes { limits.bytes ≤ 2 ^ 48 }
    requires state { IsState D.digest_of limits.leaves (state_in state) }
    requires filled { AllByRecursion (IsFilled D.digest_of) state.levels }
    ensures same { IfOk result (λ node. cached_state node ≡ state) }
    ensures limits { IfOk result (λ node. node.rules.limits ≡ limits) }
{
    let mut left = state;
    let watch = take_watch(alloc, &mut left);
    let mut cache = Cache::new(alloc, watch);
    let older = older_of(alloc, &mut cache, &left.levels, left.blocks)?;
    let newest = &left.levels[0];
    fill(alloc, &mut cache, &newest.parts)?;
    Ok(Node {
        alloc,
        net: left.net,
        limits,
        chain: chain_of(left.blocks, newest.tip, &newest.roots),
        roots: newest.roots.copy(),
        cache,
        older,
        room: LeafBuf::new(alloc)?,
        joins: Joins::new(),
    })
}

impl<D: Digester> Node<D> {
    /// The node whose state the whole text is, in version 1 or 2, with these limits: its chain, roots and watched outputs, and up to a
    /// hundred older levels to go back to. `NotAState` comes exactly where the text is that of no state of at most `limits.leaves`
    /// entries, and begins as that of no other version; `Version` exactly where it does that.
    ///
    /// Whether its blocks are those of a chain that the rules let pass is not known from the text: the node goes on over what it says.
    pub fn read_state<L: Ledger>(
        alloc: Global,
        text: &[u8],
        limits: Limits,
        steps: &mut Steps<L>,
    ) -> Result<Node<D>, StateFault>
        requires leaves { limits.leaves < 2 ^ 40 }
        requires bytes { limits.bytes ≤ 2 ^ 48 }
        ensures found { IfOk result (λ node. IsReadAs D.digest_of text.now node) }
        ensures limits { IfOk result (λ node. node.rules.limits ≡ limits) }
        ensures none { IsErrOf result StateFault.NotAState → (s : StateValue) → IsState D.digest_of limits.leaves s → IsTextOf s text.now → ⊥ }
        ensures version { (v : ℕ) → IsErrOf result (StateFault.Version v) ↔ IsOfVersion v text.now }
    {
        match state_text::read_state(alloc, text, limits.leaves, steps) {
            Ok(state) => Ok(node_of(alloc, state, limits)?),
            Err(fault) => Err(fault),
        }
    }
}
