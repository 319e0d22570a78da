//! The digests of many leaves. The texts of some of them are made one behind the other and then digested side by side.
ghost use Rattle.std.specs.Prelude.{◌≡◌, ℕ, ◌+◌, ◌≤◌, ◌<◌, ◌++◌, List, length, map, take, drop, sum, IfOk};
ghost use Rattle.std.specs.Borrow.{Bor};
ghost use Rattle.std.specs.List.{AllByRecursion};
ghost use Rattle.uo_digest.specs.Batches.{AreGiven};
ghost use Rattle.leaf_record.specs.Leaf.{LeafFits, tag, output_text, leaf_text};
ghost use Rattle.leaf_record.specs.Batches.{parts_of};

use crate::leaf::{LeafBuf, MAX_LEAF_TEXT, fill};
use crate::leaves::Leaves;
use std::alloc::{AllocError, Global};
use std::sync::ledger::Ledger;
use uo_digest::{Digest, Digester, Steps};

/// The most texts that are digested side by side.
const MOST: usize = 16;

// Puts what the texts of the leaves from an index on say behind their tags one behind the other, and how long each is. It is answered of how many
// there was room.
fn put_texts<S: Leaves>(
    leaves: &S,
    from: usize,
    room: &mut [u8],
    lengths: &mut [usize; MOST],
) -> usize
    requires room { 20422 ≤ length room.old }
    requires some { from < length (S.leaves leaves.now) }
    ensures some { 0 < result }
    ensures few { result ≤ 16 }
    ensures within { from + result ≤ length (S.leaves leaves.now) }
    ensures room { sum (take result lengths.new) ≤ length room.new }
    ensures texts { parts_of (take result lengths.new) room.new ≡ map output_text (take result (drop from (S.leaves leaves.now))) }
    ensures fits { AllByRecursion LeafFits (take result (drop from (S.leaves leaves.now))) }
    ensures len { length room.new ≡ length room.old }
{
    let most = (leaves.count() - from).min(MOST);
    let mut end = 0;
    let mut count = 0;
    'texts: while count < most && room.len() - end >= MAX_LEAF_TEXT {
        let next = fill(&leaves.leaf(from + count), end, room);
        lengths[count] = next - end;
        end = next;
        count += 1;
    }
    count
}

// The parts of a text that have these lengths, and behind them whatever is no part.
fn cut<'a>(text: &'a [u8], lengths: &[usize]) -> [&'a [u8]; MOST]
    requires few { length lengths.now ≤ 16 }
    requires within { sum lengths.now ≤ length text.now }
    ensures { map (λ (part : Bor (List ℕ)). part.now) (take (length lengths.now) result) ≡ parts_of lengths.now text.now }
{
    let mut parts = [text; MOST];
    let mut left = text;
    'parts: for i in 0..lengths.len() {
        let (part, behind) = left.split_at(lengths[i]);
        parts[i] = part;
        left = behind;
    }
    parts
}

// Puts the digests of the leaves from an index on, of as many as there is room for. It is answered of how many.
fn digest_batch<D: Digester, L: Ledger, S: Leaves>(
    room: &mut [u8],
    tags: &D::Front,
    leaves: &S,
    from: usize,
    out: &mut [Digest],
    steps: &mut Steps<L>,
) -> usize
    requires room { 20422 ≤ length room.old }
    requires tags { D.holds tags.now (tag ++ tag) }
    requires count { length out.old ≡ length (S.leaves leaves.now) }
    requires some { from < length (S.leaves leaves.now) }
    requires before { AreGiven (λ leaf. D.digest_of (leaf_text leaf)) (S.leaves leaves.now) out.old from }
    ensures some { 0 < result }
    ensures within { from + result ≤ length (S.leaves leaves.now) }
    ensures given { AreGiven (λ leaf. D.digest_of (leaf_text leaf)) (S.leaves leaves.now) out.new (from + result) }
    ensures fits { AllByRecursion LeafFits (take result (drop from (S.leaves leaves.now))) }
    ensures steps { steps.new ≡ steps.old + result }
{
    let mut lengths = [0; MOST];
    let count = put_texts(leaves, from, room, &mut lengths);
    let texts = cut(room, lengths.split_at(count).0);
    D::digest_each_behind(
        tags,
        texts.split_at(count).0,
        &mut out[from..from + count],
        steps,
    );
    count
}

// Puts the digest of each leaf.
fn digest_all<D: Digester, L: Ledger, S: Leaves>(
    room: &mut [u8],
    tags: &D::Front,
    leaves: &S,
    out: &mut [Digest],
    steps: &mut Steps<L>,
)
    requires room { 20422 ≤ length room.old }
    requires tags { D.holds tags.now (tag ++ tag) }
    requires count { length out.old ≡ length (S.leaves leaves.now) }
    ensures value { out.new ≡ map (λ leaf. D.digest_of (leaf_text leaf)) (S.leaves leaves.now) }
    ensures fits { AllByRecursion LeafFits (S.leaves leaves.now) }
    ensures steps { steps.new ≡ steps.old + length (S.leaves leaves.now) }
{
    let mut from = 0;
    'batches: while from < out.len() {
        from += digest_batch::<D, L, S>(room, tags, leaves, from, out, steps);
    }
}

/// Puts the digest of each leaf's text in the place of an entry of `out`, in one step each. No memory is taken.
pub fn put_leaf_digests<D: Digester, L: Ledger, S: Leaves>(
    buf: &mut LeafBuf<D>,
    leaves: &S,
    out: &mut [Digest],
    steps: &mut Steps<L>,
)
    requires { length out.old ≡ length (S.leaves leaves.now) }
    ensures value { out.new ≡ map (λ leaf. D.digest_of (leaf_text leaf)) (S.leaves leaves.now) }
    ensures steps { steps.new ≡ steps.old + length (S.leaves leaves.now) }
    // Each of them has a text.
    ensures fits { AllByRecursion LeafFits (S.leaves leaves.now) }
    // The room stays as large as it was.
    ensures room { buf.new ≡ buf.old }
{
    digest_all::<D, L, S>(&mut buf.bytes, &buf.tags, leaves, out, steps);
}

/// The digest of each leaf's text, in one step each. All memory is taken before the first of them.
pub fn leaf_digests<D: Digester, L: Ledger, S: Leaves>(
    alloc: Global,
    buf: &mut LeafBuf<D>,
    leaves: &S,
    steps: &mut Steps<L>,
) -> Result<Vec<Digest>, AllocError>
    ensures value { IfOk result (λ digests. digests.items ≡ map (λ leaf. D.digest_of (leaf_text leaf)) (S.leaves leaves.now)) }
    ensures steps { IfOk result (λ digests. steps.new ≡ steps.old + length (S.leaves leaves.now)) }
    // Each of them has a text.
    ensures fits { IfOk result (λ digests. AllByRecursion LeafFits (S.leaves leaves.now)) }
    ensures most { steps.new ≤ steps.old + length (S.leaves leaves.now) }
    // The room stays as large as it was.
    ensures room { buf.new ≡ buf.old }
{
    let mut digests = vec![in alloc; Digest([0; 32]); leaves.count()]?;
    put_leaf_digests::<D, L, S>(buf, leaves, &mut digests, steps);
    Ok(digests)
}
