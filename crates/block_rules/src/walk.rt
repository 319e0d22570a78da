//! A walk over a block's transactions: what each of them spends, and what is made.
ghost use Rattle.std.specs.Prelude.{◌≡◌, ◌<◌, ◌+◌, ◌++◌, ◌^◌, ◌∷◌, [], length, map, IfOk, OnOk};
ghost use Rattle.tx_codec.specs.Views.{input_of};
ghost use Rattle.block_rules.specs.Blocks.{placed_from, external_in, spends_from, left_from, outpoint_of, taken};
ghost use Rattle.block_rules.specs.Known.{history, Knows, KnowsAll, ArisesFrom};
ghost use Rattle.block_rules.specs.Money.{own_found};
ghost use Rattle.block_rules.specs.Walk.{spend_at, kept_of, walked_on, begins, IsWalked, seen};

use crate::chain::{Found, Outside};
use crate::made_outputs::MadeOutputs;
use crate::origins::Origins;
use crate::spends::TxMoney;
use crate::sums::output_sum;
use block_codec::BlockView;
use std::alloc::Global;
use tx_codec::{InView, TxView};
use uo_base::NoMemory;

/// What was met of a block so far.
#[derive(Drop)]
pub(crate) struct Walk<'a> {
    /// What is left of what its transactions made.
    pub made: MadeOutputs<'a>,
    /// The inputs that spend outputs of other blocks.
    pub external: Vec<Outside>,
    /// What each transaction behind the coinbase spends of the block's own, and makes.
    pub bills: Vec<TxMoney>,
}

impl<'a> Walk<'a> {
    // Takes away what an input spends, and answers it where the block made it.
    fn spend(&mut self, t: u32, i: u32, input: &InView<'_>) -> Result<Option<Found>, NoMemory>
        requires { KnowsAll self.old.made }
        ensures left { history self.new.made ≡ taken (outpoint_of (input_of input.now)) (history self.old.made) }
        ensures known { KnowsAll self.new.made }
        ensures origins { self.new.made.origins ≡ self.old.made.origins }
        ensures named { self.new.made.named.items ≡ self.old.made.named.items }
        ensures bills { self.new.bills.items ≡ self.old.bills.items }
        ensures external { OnOk result (self.new.external.items ≡ self.old.external.items
            ++ external_in (spend_at t i (input_of input.now) (history self.old.made) ∷ [])) }
        ensures found { IfOk result (λ found. found ≡ own_found (spend_at t i (input_of input.now) (history self.old.made))) }
    {
        match self.made.take(&input.txid, input.index) {
            Some(found) => Ok(Some(found)),
            None => {
                self.external.push(Outside {
                    tx: t,
                    input: i,
                    txid: input.txid,
                    index: input.index,
                })?;
                Ok(None)
            }
        }
    }

    // Takes away what each input of a transaction spends.
    fn spend_all(
        &mut self,
        alloc: Global,
        t: u32,
        tx: &TxView<'_>,
    ) -> Result<Vec<Option<Found>>, NoMemory>
        requires { KnowsAll self.old.made }
        ensures left { OnOk result (history self.new.made ≡ left_from (placed_from t 0 tx.now.inputs) (history self.old.made)) }
        ensures known { OnOk result (KnowsAll self.new.made) }
        ensures origins { self.new.made.origins ≡ self.old.made.origins }
        ensures named { self.new.made.named.items ≡ self.old.made.named.items }
        ensures bills { self.new.bills.items ≡ self.old.bills.items }
        ensures external { OnOk result (self.new.external.items ≡ self.old.external.items
            ++ external_in (spends_from (placed_from t 0 tx.now.inputs) (history self.old.made))) }
        ensures found { IfOk result (λ found. found.items ≡ map own_found (spends_from (placed_from t 0 tx.now.inputs) (history self.old.made))) }
        ensures few { length tx.now.inputs < 2 ^ 32 }
    {
        let mut own = Vec::with_capacity(alloc, tx.input_count() as usize)?;
        let mut i = 0;
        for input in tx.inputs() {
            own.push(self.spend(t, i, &input)?)?;
            i += 1;
        }
        Ok(own)
    }

    // Passes one transaction behind the coinbase.
    fn pass(&mut self, alloc: Global, t: u32, tx: &TxView<'a>) -> Result<(), NoMemory>
        requires place { length self.old.made.named.items + 1 ≡ t }
        requires known { Knows self.old.made }
        ensures on { OnOk result (seen self.new ≡ walked_on t tx.now (kept_of self.old.made.origins t tx.now) (seen self.old)) }
        ensures origins { OnOk result (self.new.made.origins ≡ self.old.made.origins) }
        ensures place { OnOk result (length self.new.made.named.items ≡ t) }
        ensures known { OnOk result (Knows self.new.made) }
    {
        self.made.name_last()?;
        let own = self.spend_all(alloc, t, tx)?;
        self.bills.push(TxMoney {
            own,
            makes: output_sum(tx),
        })?;
        self.made.add(t, tx)?;
        Ok(())
    }
}

/// Goes over the whole block.
pub(crate) fn walk_over<'a>(
    alloc: Global,
    block: &BlockView<'a>,
    height: u32,
) -> Result<Walk<'a>, NoMemory>
    requires { 0 < length block.now.txs }
    ensures walked { IfOk result (λ walk. IsWalked block.now height (seen walk)) }
    ensures origins { IfOk result (λ walk. ArisesFrom block.now height walk.made.origins) }
    ensures few { OnOk result (length block.now.txs < 2 ^ 32) }
{
    let mut walk = begin(alloc, block, height)?;
    for t in 1..block.tx_count() {
        walk.pass(alloc, t, block.tx(t))?;
    }
    Ok(walk)
}

// Behind the coinbase.
fn begin<'a>(alloc: Global, block: &BlockView<'a>, height: u32) -> Result<Walk<'a>, NoMemory>
    requires { 0 < length block.now.txs }
    ensures first { IfOk result (λ walk. seen walk ≡ begins walk.made.origins block.now.txs) }
    ensures origins { IfOk result (λ walk. ArisesFrom block.now height walk.made.origins) }
    ensures place { IfOk result (λ walk. length walk.made.named.items ≡ 0) }
    ensures known { IfOk result (λ walk. Knows walk.made) }
{
    let origins = Origins::new(alloc, block, height)?;
    let mut made = MadeOutputs::new(alloc, origins, outputs_of(block))?;
    made.add(0, block.tx(0))?;
    Ok(Walk {
        made,
        external: Vec::new(alloc),
        bills: Vec::new(alloc),
    })
}

// How many outputs a block has, for taking memory at once.
fn outputs_of(block: &BlockView<'_>) -> usize {
    (0..block.tx_count()).fold(0, |count: usize, t| {
        count.saturating_add(block.tx(t).output_count() as usize)
    })
}
