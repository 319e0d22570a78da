//! A short list of coins, which its copies share.
ghost use Rattle.std.specs.Prelude.{◌≡◌, ◌<◌, length, IfOk};
ghost use Rattle.std.specs.List.{remove};
ghost use Rattle.chain_gen.specs.Coins.{coin_at};

use crate::coin::Coin;
use std::alloc::Global;
use std::marker::Model;
use std::rc::Rc;
use uo_base::NoMemory;

/// A short list of coins. No pile ever changes, so a copy is one more pointer to the same coins.
///
/// The length stands beside the pointer, which a search among many piles then need not follow.
#[derive(Drop)]
pub(crate) struct Pile {
    len: usize,
    coins: Rc<Vec<Coin>>,
}

impl Model for Pile {
    ghost use Rattle.std.specs.Prelude.{◌≡◌, List, length};
    ghost use Rattle.chain_gen.specs.declared.coin.Coin.{Coin as CoinValue};

    ghost Value = { List CoinValue };

    ghost view = { λ p. p.coins.value.items };

    ghost invariant = { λ p. p.len ≡ length p.coins.value.items };
}

impl Pile {
    pub fn new(alloc: Global, coins: Vec<Coin>) -> Result<Self, NoMemory>
        ensures { IfOk result (λ pile. pile ≡ coins.items) }
    {
        let len = coins.len();
        let coins = Rc::new(alloc, coins)?;
        Ok(Pile { len, coins })
    }

    pub fn len(&self) -> usize
        ensures { result ≡ length self.now }
    {
        self.len
    }

    /// The same once more.
    pub fn copy(&self) -> Result<Self, NoMemory>
        ensures { IfOk result (λ copy. copy ≡ self.now) }
    {
        Ok(Pile {
            len: self.len,
            coins: self.coins.clone()?,
        })
    }

    /// The coin at this index.
    pub fn coin(&self, index: usize) -> Coin
        requires { index < length self.now }
        ensures { result ≡ coin_at self.now index }
    {
        self.coins[index]
    }

    /// A pile of all coins but the one at this index.
    pub fn without(&self, alloc: Global, index: usize) -> Result<Self, NoMemory>
        requires { index < length self.now }
        ensures { IfOk result (λ pile. pile ≡ remove self.now index) }
    {
        let mut coins = Vec::from_slice(alloc, &self.coins)?;
        coins.remove(index);
        Pile::new(alloc, coins)
    }
}
