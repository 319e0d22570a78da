//! The outputs that a block has made so far.
ghost use Rattle.std.specs.Prelude.{◌≡◌, ◌≤◌, ◌+◌, ◌++◌, length, option_map, [], Some, IfOk, OnOk};
ghost use Rattle.tx_codec.specs.Reading.{first_output};
ghost use Rattle.tx_codec.specs.Views.{output_of};
ghost use Rattle.leaf_record.specs.History.{newest};
ghost use Rattle.block_rules.specs.Blocks.{is_spendable, taken};
ghost use Rattle.block_rules.specs.KeptOutputs.{kept_if, kept_from};
ghost use Rattle.block_rules.specs.Money.{found_of};

use crate::chain::Found;
use crate::origins::Origins;
use crate::outpoint::{TxidKey, key_of_txid};
use crate::output::OutputSlot;
use leaf_record::MAX_SCRIPT;
use std::alloc::Global;
use std::collections::BTreeMap;
use tx_codec::{OutView, TxView};
use uo_base::NoMemory;
use uo_digest::Digest;

const OP_RETURN: u8 = 0x6a;

/// Where the outputs of a transaction stand among all, and the newest transaction before it that has its id.
#[derive(Clone, Copy, Debug)]
pub(crate) struct Named {
    pub start: usize,
    pub end: usize,
    pub before: Option<usize>,
}

/// The outputs of the transactions so far. Those that inputs can spend are found by their names, too: the ones of the last
/// transaction are named when the next one comes.
#[derive(Drop)]
pub(crate) struct MadeOutputs<'a> {
    pub origins: Origins,
    /// In order. Where one can not be spent, or is spent, nothing stands.
    pub outputs: Vec<OutputSlot<'a>>,
    /// The transactions whose outputs are named, in order.
    pub named: Vec<Named>,
    /// How many outputs they have.
    pub known: usize,
    /// The place of the newest of them with an id.
    pub newest: BTreeMap<TxidKey, usize>,
}

impl<'a> MadeOutputs<'a> {
    ghost use Rattle.block_rules.specs.Known.{named_point, number_in, found_at, found_if, leaf_at, history, Knows, KnowsAll};

    /// Nothing, and room for so many outputs.
    pub fn new(alloc: Global, origins: Origins, room: usize) -> Result<Self, NoMemory>
        ensures none { IfOk result (λ made. made.outputs.items ≡ []) }
        ensures same { IfOk result (λ made. made.origins ≡ origins) }
        ensures named { IfOk result (λ made. made.named.items ≡ []) }
        ensures known { IfOk result KnowsAll }
    {
        Ok(MadeOutputs {
            origins,
            outputs: Vec::with_capacity(alloc, room)?,
            named: Vec::new(alloc),
            known: 0,
            newest: BTreeMap::new(alloc),
        })
    }

    /// Takes away the newest output of a name that is left.
    pub fn take(&mut self, txid: &Digest, index: u32) -> Option<Found>
        requires { KnowsAll self.old }
        ensures found { result ≡ option_map (λ e. found_of e.leaf.rest) (newest (named_point txid.now index) (history self.old)) }
        ensures left { history self.new ≡ taken (named_point txid.now index) (history self.old) }
        ensures known { KnowsAll self.new }
        ensures origins { self.new.origins ≡ self.old.origins }
        ensures named { self.new.named.items ≡ self.old.named.items }
    {
        match self.number(txid, index) {
            Some(number) => {
                let found = self.found(number);
                self.outputs[number] = OutputSlot::none();
                found
            }
            None => None,
        }
    }

    // The number of the newest output of a name that is left. Two transactions of one id, which have other outputs, are
    // asked one after the other.
    fn number(&self, txid: &Digest, index: u32) -> Option<usize>
        requires { KnowsAll self.now }
        ensures { result ≡ option_map (λ e. e.number) (newest (named_point txid.now index) (history self.now)) }
    {
        let mut next = self.newest.get(&key_of_txid(txid)).copied();
        while let Some(place) = next {
            let named = self.named[place];
            if let Some(number) = self.number_in(&named, index) {
                return Some(number);
            }
            next = named.before;
        }
        None
    }

    // The number of the output of a transaction at a place there, if it is left.
    fn number_in(&self, named: &Named, index: u32) -> Option<usize>
        requires ordered { named.now.start ≤ named.now.end }
        requires within { named.now.end ≤ length self.now.outputs.items }
        ensures { result ≡ number_in named.now index (history self.now) }
    {
        if index as usize >= named.end - named.start {
            return None;
        }
        let number = named.start + index as usize;
        match self.outputs[number].get() {
            Some(_) => Some(number),
            None => None,
        }
    }

    fn found(&self, number: usize) -> Option<Found>
        ensures { result ≡ found_at number (history self.now) }
    {
        match self.outputs.get(number) {
            Some(slot) => self.found_in(slot),
            None => None,
        }
    }

    fn found_in(&self, slot: &OutputSlot<'_>) -> Option<Found>
        ensures { result ≡ found_if (Some (option_map (leaf_at self.now.origins) slot.now)) }
    {
        match slot.get() {
            Some(output) => Some(self.origins.found(&output)),
            None => None,
        }
    }

    /// Names the outputs of the last transaction.
    pub fn name_last(&mut self) -> Result<(), NoMemory>
        requires { Knows self.old }
        ensures outputs { OnOk result (history self.new ≡ history self.old) }
        ensures origins { OnOk result (self.new.origins ≡ self.old.origins) }
        ensures count { OnOk result (length self.new.named.items ≡ length self.old.named.items + 1) }
        ensures known { OnOk result (KnowsAll self.new) }
    {
        let place = self.named.len();
        let key = key_of_txid(&self.origins.txid(place));
        let before = self.newest.insert(key, place)?;
        self.named.push(Named {
            start: self.known,
            end: self.outputs.len(),
            before,
        })?;
        self.known = self.outputs.len();
        Ok(())
    }

    /// Adds the outputs of the transaction at this place, which follows those that are named.
    pub fn add(&mut self, place: u32, tx: &TxView<'a>) -> Result<(), NoMemory>
        requires place { place ≡ length self.old.named.items }
        requires known { KnowsAll self.old }
        ensures added { OnOk result (self.new.outputs.items ≡ self.old.outputs.items ++ kept_from place 0 tx.now.outputs) }
        ensures origins { self.new.origins ≡ self.old.origins }
        ensures named { self.new.named.items ≡ self.old.named.items }
        ensures known { OnOk result (Knows self.new) }
    {
        self.put_all(place, tx)?;
        Ok(())
    }

    fn put_all(&mut self, place: u32, tx: &TxView<'a>) -> Result<(), NoMemory>
        ensures added { OnOk result (self.new.outputs.items ≡ self.old.outputs.items ++ kept_from place 0 tx.now.outputs) }
        ensures origins { self.new.origins ≡ self.old.origins }
        ensures named { self.new.named.items ≡ self.old.named.items }
        ensures known { self.new.known ≡ self.old.known }
        ensures newest { self.new.newest ≡ self.old.newest }
    {
        let mut left = tx.outputs();
        let mut text = left.text();
        let mut index = 0;
        while let Some(output) = left.next() {
            self.outputs.push(kept(place, index, &output, text))?;
            text = left.text();
            index += 1;
        }
        Ok(())
    }
}

// An output that can be spent. It stands in front of the text.
fn kept<'a>(tx: u32, index: u32, output: &OutView<'_>, text: &'a [u8]) -> OutputSlot<'a>
    requires { first_output text.now ≡ Some (output_of output.now) }
    ensures { result ≡ kept_if tx index (output_of output.now) }
{
    if is_spendable(output) {
        OutputSlot { tx, index, text }
    } else {
        OutputSlot::none()
    }
}

fn is_spendable(output: &OutView<'_>) -> bool
    ensures { result ≡ is_spendable (output_of output.now) }
{
    output.script.first() != Some(&OP_RETURN) && output.script.len() <= MAX_SCRIPT
}
