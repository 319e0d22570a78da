//! What can be spent.
ghost use Rattle.std.specs.Prelude.{◌≡◌, ◌≤◌, ◌<◌, ◌+◌, ◌++◌, length, take, IfOk, OnOk};
ghost use Rattle.chain_gen.specs.Purses.{AllRipe, Chosen, no_coins, put};

use crate::coin::{Coin, is_ripe, ripe_places};
use crate::draw::draw;
use crate::pile::Pile;
use crate::piles::Piles;
use std::alloc::Global;
use std::marker::Model;
use uo_base::NoMemory;

/// How many ripe coins have to stand in front of the recent ones before they make a pile. Smaller piles would be many to go past,
/// and greater ones much to copy when a coin is taken.
const PILE: usize = 128;

/// The coins of a chain that can be split, in the order in which they came, and how many blocks it has.
///
/// A draw does not go over all of them: the ones in front are ripe, so their number is enough, and the one that is drawn is found by its
/// index.
#[derive(Drop)]
pub(crate) struct Purse {
    height: u32,
    /// The coins that came first, all of them ripe.
    settled: Piles,
    /// The others: the coins of some hundred blocks.
    recent: Vec<Coin>,
}

impl Model for Purse {
    ghost use Rattle.std.specs.Prelude.{◌++◌};
    ghost use Rattle.chain_gen.specs.Purses.{PurseValue, AllRipe};

    ghost Value = { PurseValue };

    ghost view = { λ p. record { height = p.height; coins = p.settled ++ p.recent.items } };

    ghost invariant = { λ p. AllRipe p.height p.settled };
}

impl Purse {
    /// Nothing can be spent yet.
    pub fn new(alloc: Global) -> Self
        ensures { result ≡ no_coins }
    {
        Purse {
            height: 0,
            settled: Piles::new(alloc),
            recent: Vec::new(alloc),
        }
    }

    /// How many blocks the chain has.
    pub fn height(&self) -> u32
        ensures { result ≡ self.now.height }
    {
        self.height
    }

    /// The same once more.
    pub fn copy(&self, alloc: Global) -> Result<Self, NoMemory>
        ensures { IfOk result (λ copy. copy ≡ self.now) }
    {
        Ok(Purse {
            height: self.height,
            settled: self.settled.copy(alloc)?,
            recent: Vec::from_slice(alloc, &self.recent)?,
        })
    }

    /// The coin comes in, if it can be split.
    pub fn put(&mut self, coin: Coin) -> Result<(), NoMemory>
        ensures { OnOk result (self.new ≡ put coin self.old) }
    {
        if coin.amount >= 4 {
            self.recent.push(coin)?;
        }
        Ok(())
    }

    /// Draws a ripe coin and takes it out; None where none is ripe.
    pub fn choose(&mut self, alloc: Global, word: &mut u64) -> Result<Option<Coin>, NoMemory>
        ensures { IfOk result (λ coin. Chosen word.old word.new self.old self.new coin) }
    {
        let settled = self.settled.len();
        let places = ripe_places(alloc, &self.recent, self.height)?;
        let count = settled as u64 + places.len() as u64;
        if count == 0 {
            return Ok(None);
        }
        let chosen = draw(word, count) as usize;
        if chosen < settled {
            Ok(Some(self.settled.take(alloc, chosen)?))
        } else {
            Ok(Some(self.recent.remove(places[chosen - settled])))
        }
    }

    /// The chain has one more block.
    pub fn rise(&mut self, alloc: Global) -> Result<(), NoMemory>
        requires height { self.old.height < 100001 }
        requires few { length self.old.coins ≤ 4294967295 }
        ensures { OnOk result (self.new ≡ record { height = self.old.height + 1; coins = self.old.coins }) }
    {
        self.height += 1;
        let count = ripe_front(&self.recent, self.height);
        if count < PILE {
            return Ok(());
        }
        let front = Vec::from_slice(alloc, &self.recent[..count])?;
        let others = Vec::from_slice(alloc, &self.recent[count..])?;
        self.settled.push(Pile::new(alloc, front)?)?;
        self.recent = others;
        Ok(())
    }
}

/// How many coins stand in front of the first that is not ripe.
fn ripe_front(coins: &[Coin], height: u32) -> usize
    ensures few { result ≤ length coins.now }
    ensures ripe { AllRipe height (take result coins.now) }
{
    for (place, coin) in coins.iter().enumerate() {
        if !is_ripe(coin, height) {
            return place;
        }
    }
    coins.len()
}
