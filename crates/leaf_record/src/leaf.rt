//! The text that a leaf's digest is taken of.
ghost use Rattle.std.specs.Prelude.{◌≡◌, ◌+◌, ◌<◌, ◌≤◌, ◌++◌, length, take, vec_len, vec_capacity, IfOk, OnOk, OnErr};
ghost use Rattle.uo_base.specs.Compact.{compact};
ghost use Rattle.uo_base.specs.Moved.{Grew};
ghost use Rattle.leaf_record.specs.Leaf.{LeafFits, tag, longest_script, payload_text, output_text, leaf_text};

use crate::record::RecordView;
use crate::rest::put_payload;
use std::alloc::Global;
use std::marker::Model;
use std::sync::ledger::Ledger;
use uo_base::NoMemory;
use uo_digest::{Digest, Digester, Steps};

/// SHA-512 of `UtreexoV1`.
const TAG: [u8; 64] = [
    0x5b, 0x83, 0x2d, 0xb8, 0xca, 0x26, 0xc2, 0x5b, 0xe1, 0xc5, 0x42, 0xd6, 0xcc, 0xed, 0xdd, 0xa8,
    0xc1, 0x45, 0x61, 0x5c, 0xff, 0x5c, 0x35, 0x72, 0x7f, 0xb3, 0x46, 0x26, 0x10, 0x80, 0x7e, 0x20,
    0xae, 0x53, 0x4d, 0xc3, 0xf6, 0x42, 0x99, 0x19, 0x99, 0x31, 0x77, 0x2e, 0x03, 0x78, 0x7d, 0x18,
    0x15, 0x6e, 0xb3, 0x15, 0x1e, 0x0e, 0xd1, 0xb3, 0x09, 0x8b, 0xdc, 0x84, 0x45, 0x86, 0x18, 0x85,
];

/// The most bytes that a leaf text has.
pub(crate) const MAX_LEAF_TEXT: usize = 10_211;

/// Twice as many, so the texts of many usual leaves have room beside each other.
const ROOM: usize = 20_422;

fn put_tag(out: &mut Vec<u8>) -> Result<(), NoMemory>
    ensures ok { OnOk result (out.new.items ≡ out.old.items ++ tag) }
    ensures err { OnErr result (out.new.items ≡ out.old.items) }
    ensures full { OnErr result (vec_capacity out.old < vec_len out.old + length tag) }
    ensures capacity { vec_capacity out.old ≤ vec_capacity out.new }
{
    out.extend_from_slice(&TAG)?;
    Ok(())
}

fn put_tags(out: &mut Vec<u8>) -> Result<(), NoMemory>
    ensures ok { OnOk result (out.new.items ≡ out.old.items ++ tag ++ tag) }
    ensures err { OnErr result (Grew out.old.items out.new.items) }
    ensures full { OnErr result (vec_capacity out.old < vec_len out.old + length (tag ++ tag)) }
    ensures capacity { vec_capacity out.old ≤ vec_capacity out.new }
{
    put_tag(out)?;
    put_tag(out)
}

// What a leaf text says behind its tags.
#[tactic(auto, unfolding(crate::specs::Leaf::output_text))]
fn put_output(leaf: &RecordView<'_>, out: &mut Vec<u8>) -> Result<(), NoMemory>
    ensures ok { OnOk result (out.new.items ≡ out.old.items ++ output_text leaf.now) }
    ensures err { OnErr result (Grew out.old.items out.new.items) }
    ensures full { OnErr result (vec_capacity out.old < vec_len out.old + length (output_text leaf.now)) }
    ensures capacity { vec_capacity out.old ≤ vec_capacity out.new }
    ensures fits { LeafFits leaf.now }
{
    let rest = leaf.rest();
    out.extend_from_slice(&rest.block.0)?;
    out.extend_from_slice(&leaf.txid.0)?;
    out.extend_from_slice(&leaf.index.to_le_bytes())?;
    put_payload(rest.code(), rest.amount, rest.script, out)?;
    Ok(())
}

#[tactic(auto, unfolding(crate::specs::Leaf::leaf_text))]
fn put_leaf(leaf: &RecordView<'_>, out: &mut Vec<u8>) -> Result<(), NoMemory>
    ensures ok { OnOk result (out.new.items ≡ out.old.items ++ leaf_text leaf.now) }
    ensures err { OnErr result (Grew out.old.items out.new.items) }
    ensures full { OnErr result (vec_capacity out.old < vec_len out.old + length (leaf_text leaf.now)) }
    ensures capacity { vec_capacity out.old ≤ vec_capacity out.new }
    ensures fits { LeafFits leaf.now }
{
    // The view keeps what fits.
    let _rest = leaf.rest();
    put_tags(out)?;
    put_output(leaf, out)
}

/// Appends a leaf text: the SHA-512 of `UtreexoV1` twice (128 bytes), the hash of the block that made the output (32), the
/// transaction's id (32), the index (4), twice the height and one more for a coinbase output (4), the amount (8), and the
/// script behind its length. Where there is no memory, the text before it stays as it was.
pub fn leaf_text(leaf: &RecordView<'_>, out: &mut Vec<u8>) -> Result<(), NoMemory>
    ensures ok { OnOk result (out.new.items ≡ out.old.items ++ leaf_text leaf.now) }
    ensures err { OnErr result (out.new.items ≡ out.old.items) }
    // It fails only where room was missing.
    ensures full { OnErr result (vec_capacity out.old < vec_len out.old + length (leaf_text leaf.now)) }
    ensures capacity { vec_capacity out.old ≤ vec_capacity out.new }
    // The text tells the leaf.
    ensures fits { LeafFits leaf.now }
{
    let start = out.len();
    match put_leaf(leaf, out) {
        Ok(()) => Ok(()),
        Err(NoMemory) => {
            out.truncate(start);
            Err(NoMemory)
        }
    }
}

// Puts bytes from an index on, and answers the index behind them.
fn put_at(room: &mut [u8], at: usize, bytes: &[u8]) -> usize
    requires { at + length bytes.now ≤ length room.old }
    ensures end { result ≡ at + length bytes.now }
    ensures text { take result room.new ≡ take at room.old ++ bytes.now }
    ensures len { length room.new ≡ length room.old }
{
    let end = at + bytes.len();
    room[at..end].copy_from_slice(bytes);
    end
}

// Puts the shortest form of the length of a script in the same way.
#[tactic(auto, unfolding(uo_base::specs::Compact::compact))]
fn put_count(room: &mut [u8], at: usize, count: u16) -> usize
    requires { at + 3 ≤ length room.old }
    ensures end { result ≡ at + length (compact count) }
    ensures text { take result room.new ≡ take at room.old ++ compact count }
    ensures len { length room.new ≡ length room.old }
{
    let [low, high] = count.to_le_bytes();
    if count < 253 {
        put_at(room, at, &[low])
    } else {
        put_at(room, at, &[253, low, high])
    }
}

// Puts code, amount and script in the same way.
fn put_payload_at(room: &mut [u8], at: usize, code: u32, amount: u64, script: &[u8]) -> usize
    requires room { at + 10015 ≤ length room.old }
    requires script { length script.now ≤ longest_script }
    ensures text { take result room.new ≡ take at room.old ++ payload_text code amount script.now }
    ensures within { result ≤ length room.new }
    ensures len { length room.new ≡ length room.old }
{
    let behind_code = put_at(room, at, &code.to_le_bytes());
    let behind_amount = put_at(room, behind_code, &amount.to_le_bytes());
    let behind_count = put_count(room, behind_amount, script.len() as u16);
    put_at(room, behind_count, script)
}

// Puts what a leaf text says behind its tags into the room, from an index on. It is answered where that ends.
#[tactic(auto, unfolding(crate::specs::Leaf::output_text))]
pub(crate) fn fill(leaf: &RecordView<'_>, at: usize, room: &mut [u8]) -> usize
    requires { at + 10211 ≤ length room.old }
    ensures text { take result room.new ≡ take at room.old ++ output_text leaf.now }
    ensures within { result ≤ length room.new }
    ensures len { length room.new ≡ length room.old }
    ensures fits { LeafFits leaf.now }
{
    let rest = leaf.rest();
    let behind_block = put_at(room, at, &rest.block.0);
    let behind_txid = put_at(room, behind_block, &leaf.txid.0);
    let behind_index = put_at(room, behind_txid, &leaf.index.to_le_bytes());
    put_payload_at(room, behind_index, rest.code(), rest.amount, rest.script)
}

/// Room for leaf texts, and the two tags that all of them begin with, taken in once. Contracts see how many bytes it has room for.
pub struct LeafBuf<D: Digester> {
    // Each byte of the room is there, so a text is put into it and nothing grows.
    pub(crate) bytes: Vec<u8>,
    pub(crate) tags: D::Front,
}

impl<D: Digester> Drop for LeafBuf<D> {
    fn drop(self) {
        let LeafBuf { bytes: _, tags: _ } = self;
    }
}

impl<D: Digester> Model for LeafBuf<D> {
    ghost use Rattle.std.specs.Prelude.{ℕ, ◌≤◌, ◌++◌, vec_len, vec_capacity};
    ghost use Rattle.leaf_record.specs.Leaf.{tag};

    ghost Value = { ℕ };

    ghost view = { λ b. vec_capacity b.bytes };

    ghost invariant = { λ b. (20422 ≤ vec_len b.bytes) × D.holds b.tags (tag ++ tag) };
}

// So many bytes, and no room for more.
fn blank_text(alloc: Global) -> Result<Vec<u8>, NoMemory>
    ensures len { IfOk result (λ bytes. vec_len bytes ≡ 20422) }
    ensures capacity { IfOk result (λ bytes. vec_capacity bytes ≡ 20422) }
{
    let mut bytes = Vec::with_capacity(alloc, ROOM)?;
    for _ in 0..ROOM {
        bytes.push_reserved(0);
    }
    Ok(bytes)
}

impl<D: Digester> LeafBuf<D> {
    /// Takes the memory that digesting leaves needs.
    pub fn new(alloc: Global) -> Result<LeafBuf<D>, NoMemory>
        ensures { IfOk result (λ room. room ≡ 20422) }
    {
        let bytes = blank_text(alloc)?;
        let mut tags = Vec::new(alloc);
        put_tags(&mut tags)?;
        Ok(LeafBuf {
            bytes,
            tags: D::front(&tags),
        })
    }
}

// The digest of a leaf's text, whose end is put into the room. A list of bytes that is lent can not grow, so this takes no memory.
fn digest_in<D: Digester, L: Ledger>(
    room: &mut [u8],
    tags: &D::Front,
    leaf: &RecordView<'_>,
    steps: &mut Steps<L>,
) -> Digest
    requires room { 10211 ≤ length room.old }
    requires tags { D.holds tags.now (tag ++ tag) }
    ensures value { result ≡ D.digest_of (leaf_text leaf.now) }
    ensures step { steps.new ≡ steps.old + 1 }
    ensures fits { LeafFits leaf.now }
{
    let end = fill(leaf, 0, room);
    D::digest_behind(tags, &room[..end], steps)
}

/// The digest of a leaf's text, in one step. It takes no memory.
pub fn leaf_digest<D: Digester, L: Ledger>(
    buf: &mut LeafBuf<D>,
    leaf: &RecordView<'_>,
    steps: &mut Steps<L>,
) -> Digest
    ensures value { result ≡ D.digest_of (leaf_text leaf.now) }
    ensures step { steps.new ≡ steps.old + 1 }
    ensures fits { LeafFits leaf.now }
    // The room stays as large as it was.
    ensures room { buf.new ≡ buf.old }
{
    digest_in::<D, L>(&mut buf.bytes, &buf.tags, leaf, steps)
}
