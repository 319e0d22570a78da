//! Blocks in order of arrival.
ghost use Rattle.std.specs.Prelude.{◌≡◌, ◌≢◌, ◌<◌, [], List, not, length, slice_get, Some, IfSome, IfOk, IfErr, OnOk, OnErr};
ghost use Rattle.std.specs.Result.{result_map_both};
ghost use Rattle.chain_order.specs.Arrivals.{Arrival, has_arrived, AreDifferent, with_arrival};
ghost use Rattle.chain_order.specs.Numbers.{number_of};
ghost use Rattle.chain_order.specs.Path.{IsPath, IsCause};
ghost use Rattle.chain_order.specs.Steps.{HasMet, MeetsOne, MeetsNone};
ghost use Rattle.chain_order.specs.Walk.{AreNumbers, Answers};

use crate::arrival::Stored;
use crate::fault::PathFault;
use std::alloc::Global;
use std::collections::BTreeMap;
use std::marker::Model;
use uo_base::NoMemory;
use uo_digest::Digest;

/// 32 zero bytes, which the first block of a chain names as the hash before it.
const NO_HASH: [u8; 32] = [0; 32];

/// Blocks in order of arrival, the first of each hash. They are found by their hashes in an ordered map, which no choice of hashes makes slow.
#[derive(Drop)]
pub struct Arrivals {
    alloc: Global,
    list: Vec<Stored>,
    numbers: BTreeMap<[u8; 32], u64>,
}

impl Model for Arrivals {
    ghost use Rattle.std.specs.Prelude.{List};
    ghost use Rattle.chain_order.specs.Arrivals.{Arrival};
    ghost use Rattle.chain_order.specs.Numbers.{AreNumbered};

    ghost Value = { List Arrival };

    ghost view = { λ a. a.list.items };

    ghost invariant = { λ a. AreNumbered a.list.items a.numbers };
}

impl Arrivals {
    /// No block has arrived.
    pub fn new(alloc: Global) -> Arrivals
        ensures { result ≡ [] }
    {
        Arrivals {
            alloc,
            list: Vec::new(alloc),
            numbers: BTreeMap::new(alloc),
        }
    }

    /// How many blocks have arrived.
    pub fn len(&self) -> u64
        ensures len { result ≡ length self.now }
        ensures different { AreDifferent self.now }
    {
        self.list.len() as u64
    }

    /// Takes a block with its hash and the hash that it names as the one before it, and copies its bytes. Where one of this hash has arrived
    /// before, the answer is false and nothing changes.
    pub fn add(&mut self, hash: Digest, prev: Digest, body: &[u8]) -> Result<bool, NoMemory>
        ensures added { OnOk result (self.new ≡ with_arrival self.old (record { hash = hash; prev = prev; body = body.now })) }
        ensures told { IfOk result (λ is_new. is_new ≡ not (has_arrived self.old hash)) }
        ensures err { OnErr result (self.new ≡ self.old) }
    {
        if self.numbers.contains_key(&hash.0) {
            return Ok(false);
        }
        let stored = Stored::new(self.alloc, hash, prev, body)?;
        self.list.try_reserve(1)?;
        self.numbers.insert(hash.0, self.list.len() as u64)?;
        match self.list.push(stored) {
            Ok(()) => Ok(true),
            Err(_) => unreachable!(),
        }
    }

    /// The bytes of a block, by its number in order of arrival.
    pub fn body(&self, i: u64) -> &[u8]
        requires { i < length self.now }
        ensures { (one : Arrival) → slice_get self.now i ≡ Some one → result.now ≡ one.body }
    {
        self.list[i as usize].body()
    }

    /// The numbers of the blocks on the path to a tip, from the one that begins the chain to the tip.
    ///
    /// `NoTip` comes where no block has the tip's hash, `Missing` where the way back from the tip comes to a hash that none has and that is not
    /// the 32 zero bytes, and `Loop` where it comes to a block that it has met.
    pub fn path(&self, tip: &Digest) -> Result<Vec<u64>, PathFault>
        ensures path { IfOk result (λ numbers. (path : List Arrival) × AreNumbers self.now numbers.items path × IsPath self.now tip.now path) }
        ensures cause { IfErr result (IsCause self.now tip.now) }
        ensures none { IfErr result (λ fault. fault ≢ PathFault.NoMemory → (path : List Arrival) → IsPath self.now tip.now path → ⊥) }
        ensures told { Answers self.now tip.now (result_map_both (λ numbers. numbers.items) (λ fault. fault) result) }
    {
        let _count = self.len();
        self.way_back(tip)
    }

    // Goes back from the tip, and marks what it meets.
    fn way_back(&self, tip: &Digest) -> Result<Vec<u64>, PathFault>
        ensures { Answers self.now tip.now (result_map_both (λ numbers. numbers.items) (λ fault. fault) result) }
    {
        if self.number_of(tip).is_none() {
            return Err(PathFault::NoTip);
        }
        let mut room = vec![in self.alloc; false; self.list.len()]?;
        let marks = room.as_mut_slice();
        let mut numbers = Vec::new(self.alloc);
        let mut hash = *tip;
        loop {
            hash = self.step_back(hash, marks, &mut numbers)?;
            if hash.0 == NO_HASH {
                numbers.reverse();
                return Ok(numbers);
            }
        }
    }

    // Goes to the block of a hash, unless it was met before, and answers the hash that it names.
    fn step_back(
        &self,
        hash: Digest,
        marks: &mut [bool],
        numbers: &mut Vec<u64>,
    ) -> Result<Digest, PathFault>
        requires { length marks.old ≡ length self.now }
        ensures one { IfOk result (λ prev. (met : List Arrival) → HasMet self.now marks.old numbers.old.items met
            → MeetsOne self.now hash marks.old marks.new numbers.new.items met prev) }
        ensures none { IfErr result (λ fault. (met : List Arrival) → HasMet self.now marks.old numbers.old.items met
            → MeetsNone self.now hash met fault) }
    {
        let Some(number) = self.number_of(&hash) else {
            return Err(PathFault::Missing { hash });
        };
        if marks[number as usize] {
            return Err(PathFault::Loop { hash });
        }
        numbers.push(number)?;
        marks[number as usize] = true;
        Ok(self.list[number as usize].prev())
    }

    // The number of the block with a hash.
    fn number_of(&self, hash: &Digest) -> Option<u64>
        ensures number { result ≡ number_of self.now hash.now.0 }
        ensures within { IfSome result (λ number. number < length self.now) }
    {
        self.numbers.get(&hash.0).copied()
    }
}
