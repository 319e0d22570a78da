//! The ids of transactions, of which many are hashed side by side.
ghost use Rattle.std.specs.Prelude.{◌≡◌, ◌<◌, ◌≤◌, ◌+◌, ◌++◌, ◌∷◌, [], List, length, map, take};
ghost use Rattle.tx_codec.specs.Transaction.{Transaction, legacy_text, tx_text};
ghost use Rattle.tx_codec.specs.Ids.{txid_of, wtxid_of};
ghost use Rattle.block_codec.specs.Ids.{AreTexts, legacy_of};
ghost use Rattle.uo_digest.specs.Batches.{AreGiven};

use arrayvec::ArrayVec;
use tx_codec::TxView;
use uo_digest::{Digest, sha256d_all};

/// How many texts are hashed together: a few KB on the stack, and enough that most of them find others of as many blocks.
const BATCH: usize = 64;

// The whole texts of a few transactions.
fn whole_texts<'a>(txs: &[TxView<'a>]) -> ArrayVec<&'a [u8], BATCH>
    requires { length txs.now ≤ 64 }
    ensures { AreTexts tx_text result.items txs.now }
{
    let mut texts = ArrayVec::new();
    for tx in txs {
        texts.push(tx.bytes());
    }
    texts
}

// The ids with witnesses of a few transactions.
fn put_few_wtxids(txs: &[TxView<'_>], out: &mut [Digest])
    requires count { length out.old ≡ length txs.now }
    requires few { length txs.now ≤ 64 }
    ensures { out.new ≡ map wtxid_of txs.now }
{
    let texts = whole_texts(txs);
    sha256d_all(texts.as_slice(), out);
}

/// The id with its witness of each transaction, in the place of an entry of `out`.
pub(crate) fn put_wtxids(txs: &[TxView<'_>], out: &mut [Digest])
    requires { length out.old ≡ length txs.now }
    ensures { out.new ≡ map wtxid_of txs.now }
{
    let mut from = 0;
    while from < txs.len() {
        let end = txs.len().min(from + BATCH);
        put_few_wtxids(&txs[from..end], &mut out[from..end]);
        from = end;
    }
}

// The texts of those in the legacy form among the first so many transactions.
struct LegacyTexts<'a> {
    texts: ArrayVec<&'a [u8], BATCH>,
    reach: usize,
}

// Notes the text of a transaction that is in the legacy form.
fn note_legacy<'a>(tx: &TxView<'a>, texts: &mut ArrayVec<&'a [u8], BATCH>)
    requires { length texts.old.items < 64 }
    ensures more { (before : List Transaction) → AreTexts legacy_text texts.old.items (legacy_of before)
        → AreTexts legacy_text texts.new.items (legacy_of (before ++ tx.now ∷ [])) }
    ensures one { length texts.new.items ≤ length texts.old.items + 1 }
{
    if !tx.is_segwit() {
        texts.push(tx.bytes());
    }
}

// Those of the front of a list on which a batch is full, or of the whole list.
fn legacy_texts<'a>(txs: &[TxView<'a>]) -> LegacyTexts<'a>
    requires { 0 < length txs.now }
    ensures within { result.reach ≤ length txs.now }
    ensures on { 0 < result.reach }
    ensures texts { AreTexts legacy_text result.texts.items (legacy_of (take result.reach txs.now)) }
{
    let mut texts = ArrayVec::new();
    let mut reach = 0;
    while reach < txs.len() && !texts.is_full() {
        note_legacy(&txs[reach], &mut texts);
        reach += 1;
    }
    LegacyTexts { texts, reach }
}

// The ids of transactions, where those in the legacy form have these.
fn put_each(txs: &[TxView<'_>], legacy: &[Digest], out: &mut [Digest])
    requires count { length out.old ≡ length txs.now }
    requires legacy { legacy.now ≡ map txid_of (legacy_of txs.now) }
    ensures { out.new ≡ map txid_of txs.now }
{
    let mut next = 0;
    for i in 0..txs.len() {
        let tx = &txs[i];
        if tx.is_segwit() {
            out[i] = tx.txid();
        } else {
            out[i] = legacy[next];
            next += 1;
        }
    }
}

// The ids of the transactions of one batch in the legacy form, and of those between them; and how many these are together.
fn put_batch(txs: &[TxView<'_>], out: &mut [Digest]) -> usize
    requires count { length out.old ≡ length txs.now }
    requires some { 0 < length txs.now }
    ensures within { result ≤ length txs.now }
    ensures on { 0 < result }
    ensures ids { AreGiven txid_of txs.now out.new result }
{
    let LegacyTexts { texts, reach } = legacy_texts(txs);
    let mut ids = [Digest([0; 32]); BATCH];
    let legacy = &mut ids[..texts.len()];
    sha256d_all(texts.as_slice(), legacy);
    put_each(&txs[..reach], legacy, &mut out[..reach]);
    reach
}

// The id of one transaction.
fn txid_alone(tx: &TxView<'_>) -> Digest
    ensures { result ≡ txid_of tx.now }
{
    tx.txid()
}

// The ids of some transactions at the front, and how many these are. Fewer than eight are hashed one by one, so they take no room of a batch.
fn put_front(txs: &[TxView<'_>], out: &mut [Digest]) -> usize
    requires count { length out.old ≡ length txs.now }
    requires some { 0 < length txs.now }
    ensures within { result ≤ length txs.now }
    ensures on { 0 < result }
    ensures ids { AreGiven txid_of txs.now out.new result }
{
    if txs.len() >= 8 {
        return put_batch(txs, out);
    }
    out[0] = txid_alone(&txs[0]);
    1
}

/// The id of each transaction, in the place of an entry of `out`.
pub(crate) fn put_txids(txs: &[TxView<'_>], out: &mut [Digest])
    requires { length out.old ≡ length txs.now }
    ensures { out.new ≡ map txid_of txs.now }
{
    let mut from = 0;
    while from < txs.len() {
        from += put_front(&txs[from..], &mut out[from..]);
    }
}
