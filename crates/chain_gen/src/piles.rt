//! A long list of coins, cut into piles.
ghost use Rattle.std.specs.Prelude.{◌≡◌, ◌≤◌, ◌<◌, ◌+◌, ◌++◌, [], length, IfOk, OnOk, OnErr};
ghost use Rattle.std.specs.List.{remove};
ghost use Rattle.chain_gen.specs.Coins.{coin_at};
ghost use Rattle.chain_gen.specs.Piles.{IsAt, all_of};

use crate::coin::Coin;
use crate::pile::Pile;
use std::alloc::Global;
use std::marker::Model;
use uo_base::NoMemory;

/// A long list of coins, cut into piles: where one is taken out, only its pile is made anew, and a copy of the list shares all of them.
#[derive(Drop)]
pub(crate) struct Piles {
    piles: Vec<Pile>,
    len: usize,
}

impl Model for Piles {
    ghost use Rattle.std.specs.Prelude.{List};
    ghost use Rattle.chain_gen.specs.declared.coin.Coin.{Coin as CoinValue};
    ghost use Rattle.chain_gen.specs.Piles.{IsCounted, all_of};

    ghost Value = { List CoinValue };

    ghost view = { λ p. all_of p.piles.items };

    ghost invariant = { λ p. IsCounted p.piles.items p.len };
}

impl Piles {
    /// No coin yet.
    pub fn new(alloc: Global) -> Self
        ensures { result ≡ [] }
    {
        Piles {
            piles: Vec::new(alloc),
            len: 0,
        }
    }

    /// How many coins there are.
    pub fn len(&self) -> usize
        ensures len { result ≡ length self.now }
        ensures few { result ≤ 4294967295 }
    {
        self.len
    }

    /// The same once more.
    pub fn copy(&self, alloc: Global) -> Result<Self, NoMemory>
        ensures { IfOk result (λ copy. copy ≡ self.now) }
    {
        Ok(Piles {
            piles: copy_all(alloc, &self.piles)?,
            len: self.len,
        })
    }

    /// Puts a pile behind the others.
    pub fn push(&mut self, pile: Pile) -> Result<(), NoMemory>
        requires { length self.old + length pile ≤ 4294967295 }
        ensures pushed { OnOk result (self.new ≡ self.old ++ pile) }
        ensures kept { OnErr result (self.new ≡ self.old) }
    {
        let len = self.len + pile.len();
        self.piles.push(pile)?;
        self.len = len;
        Ok(())
    }

    /// Takes out the coin at this index.
    pub fn take(&mut self, alloc: Global, index: usize) -> Result<Coin, NoMemory>
        requires { index < length self.old }
        ensures coin { IfOk result (λ coin. coin ≡ coin_at self.old index) }
        ensures taken { OnOk result (self.new ≡ remove self.old index) }
        ensures kept { OnErr result (self.new ≡ self.old) }
    {
        let (number, within) = find(&self.piles, index);
        let coin = self.piles[number].coin(within);
        let others = self.piles[number].without(alloc, within)?;
        self.piles[number] = others;
        self.len -= 1;
        Ok(coin)
    }
}

fn copy_all(alloc: Global, piles: &[Pile]) -> Result<Vec<Pile>, NoMemory>
    ensures { IfOk result (λ copy. copy.items ≡ piles.now) }
{
    let mut copy = Vec::with_capacity(alloc, piles.len())?;
    for pile in piles {
        copy.push(pile.copy()?)?;
    }
    Ok(copy)
}

/// The number of the pile in which the coin at this index is, and where it is there.
fn find(piles: &[Pile], index: usize) -> (usize, usize)
    requires { index < length (all_of piles.now) }
    ensures { IsAt piles.now index result.0 result.1 }
{
    let mut within = index;
    for (number, pile) in piles.iter().enumerate() {
        if within < pile.len() {
            return (number, within);
        }
        within -= pile.len();
    }
    unreachable!()
}
